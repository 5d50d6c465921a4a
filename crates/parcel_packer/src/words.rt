//! What the words of one block hold: fields put run by run, and the words that they fill.
ghost use Rattle.std.specs.Prelude.{◌≡◌, ◌≢◌, ◌+◌, ◌*◌, ◌^◌, ◌<◌, ◌≤◌, ◌∷◌, [], IfOk, OnOk, OnErr, not, true, false};
ghost use Rattle.definitions.specs.Kinds.{units, unit_bits, word_bits};
ghost use Rattle.definitions.specs.Kinds.{most_words};
ghost use Rattle.definitions.specs.Words.{stored, words_in};
ghost use Rattle.parcel_packer.specs.Joins.Packing.{MayBegin, empty_run, end_bit, most_bits, moved, put_bits, runs_in};
ghost use Rattle.parcel_packer.specs.Joins.Spans.{IsField};
ghost use Rattle.parcel_packer.specs.Joins.Filling.{DoSpansRise, as_stored};

use crate::fields::{Field, moved_to, parcel_bits, put_field};
use crate::filling::runs_words;
use crate::gathering::run_words;
use crate::joining::joined;
use crate::merging::laid_over;
use crate::nothing::{lies_in, lies_in_any};
use crate::spans::{OpenParcel, Span};
use crate::word_spans::WordSpan;
use definitions::DeckKind;
use std::alloc::{AllocError, Global};
use std::marker::Model;
use std::mem;

/// The words of one block of a central deck (60 bits) or a peripheral one (12 bits). A run is what
/// is put between two ORGs; a word belongs whole to the latest run with something in it.
///
/// Contracts see the runs as lists of parcels, and of the latest run the parcel that is not yet
/// whole. Memory grows with the parcels that are put, wherever they lie in the block.
#[derive(Drop)]
pub struct Words {
    kind: DeckKind,
    run: Vec<Span>,
    next: OpenParcel,
    earlier: Vec<Vec<Span>>,
}

impl Model for Words {
    ghost use Rattle.std.specs.Prelude.{reverse};
    ghost use Rattle.definitions.specs.Kinds.{unit_bits};
    ghost use Rattle.parcel_packer.specs.Joins.Packing.{Packed};

    ghost Value = { Packed };

    ghost use Rattle.parcel_packer.specs.Joins.Spans.{IsKept, parcels_in_runs, run_of};

    ghost view = { λ w. record { kind = w.kind; run = run_of (unit_bits w.kind) w.run.items w.next; earlier = reverse (parcels_in_runs (unit_bits w.kind) w.earlier.items) } };

    ghost invariant = { λ w. IsKept w.kind w.run.items w.next (parcels_in_runs (unit_bits w.kind) w.earlier.items) };
}

impl Words {
    /// A block in which nothing lies.
    pub fn new(alloc: Global, kind: DeckKind) -> Words
        ensures { result ≡ record { kind = kind; run = empty_run; earlier = [] } }
    {
        Words {
            kind,
            run: Vec::new(alloc),
            next: OpenParcel {
                place: 0,
                filled: 0,
                bits: 0,
            },
            earlier: Vec::new(alloc),
        }
    }

    /// Asks for memory for so many spans more of the run at once: a field makes one at most. Where there is none, it is
    /// asked for again as they are put.
    pub fn make_room(&mut self, spans: usize)
        ensures { self.new ≡ self.old }
    {
        match self.run.reserve(spans) {
            Ok(()) => {}
            Err(_) => {}
        }
    }

    /// Begins a run, as each accepted ORG does; each parcel before it is whole. Where no memory is
    /// found, all is as before.
    pub fn begin_run(&mut self) -> Result<(), AllocError>
        requires { self.old.run.filled ≡ 0 }
        ensures begun { OnOk result (self.new ≡ record self.old { run = empty_run; earlier = self.old.run.parcels ∷ self.old.earlier }) }
        ensures unchanged { OnErr result (self.new ≡ self.old) }
    {
        let alloc = *self.run.allocator();
        let run = mem::replace(&mut self.run, Vec::new(alloc));
        match self.earlier.push(run) {
            Ok(()) => {
                self.next = OpenParcel {
                    place: 0,
                    filled: 0,
                    bits: 0,
                };
                Ok(())
            }
            Err(failed) => {
                self.run = failed.value;
                Err(AllocError)
            }
        }
    }

    /// Puts a field at a place in bits: 60 for each central word before it, 12 for each peripheral
    /// one. The field has 1 to 60 bits that fit its width, and ends within the block. It begins
    /// where the last field of its run ended or, if that was the end of a parcel, at a parcel
    /// behind it, so the fields of a run do not overlap. It may cross words. Where no memory is
    /// found, all is as before; a field that leaves its parcel open takes none.
    #[inline(always)]
    pub fn put(&mut self, at: u32, field: Field) -> Result<(), AllocError>
        requires field { IsField field }
        requires some { 0 < field.width }
        requires begins { MayBegin (unit_bits self.old.kind) self.old.run at }
        requires within { at + field.width ≤ most_bits self.old.kind }
        ensures put { OnOk result (self.new ≡ record self.old {
          run = put_bits (unit_bits self.old.kind) field.is_instruction field.width field.bits (moved (unit_bits self.old.kind) at self.old.run);
        }) }
        ensures unchanged { OnErr result (self.new ≡ self.old) }
        ensures whole { OnErr result (unit_bits self.old.kind ≤ self.old.run.filled + field.width) }
    {
        let size = parcel_bits(self.kind);
        let next = moved_to(self.next, size, at);
        self.next = put_field(&mut self.run, next, size, field)?;
        Ok(())
    }

    /// Puts so many zero words at a word at or behind the end of the run, as BSSZ does; this takes
    /// one growth at most, however many they are. Where no memory is found, all is as before.
    pub fn put_zeros(&mut self, word: u32, count: u32) -> Result<(), AllocError>
        requires whole { self.old.run.filled ≡ 0 }
        requires begins { self.old.run.place ≤ units self.old.kind * word }
        requires within { word + count ≤ most_words self.old.kind }
        ensures put { OnOk result (self.new ≡ record self.old {
          run = put_bits (unit_bits self.old.kind) false (word_bits self.old.kind * count) 0 (moved (unit_bits self.old.kind) (word_bits self.old.kind * word) self.old.run);
        }) }
        ensures unchanged { OnErr result (self.new ≡ self.old) }
    {
        let units = self.kind.units();
        let place = units * word;
        let zeros = units * count;
        self.run.push(Span {
            place,
            count: zeros,
            bits: 0,
            is_instruction: false,
        })?;
        self.next = OpenParcel {
            place: place + zeros,
            filled: 0,
            bits: 0,
        };
        Ok(())
    }

    /// The place behind the last bit of the latest run, in bits of the block.
    pub fn end(&self) -> u32
        ensures end { result ≡ end_bit (unit_bits self.now.kind) self.now.run }
        ensures room { self.now.run.filled < unit_bits self.now.kind }
        ensures bits { self.now.run.bits < 2 ^ self.now.run.filled }
    {
        parcel_bits(self.kind) * self.next.place + self.next.filled
    }

    /// The words in which something lies, by increasing offset: the sum of what the latest run has
    /// there, and the pass instruction in each parcel that it leaves open in a central word with an
    /// instruction. Each parcel that was begun is whole. Equal words that stand together are one
    /// span; zeros of a BSSZ are never made one by one, or where a later run lies over them. Memory is asked for only where there is a
    /// word.
    pub fn fill(&self, alloc: Global) -> Result<Vec<WordSpan>, AllocError>
        requires { self.now.run.filled ≡ 0 }
        ensures words { IfOk result (λ spans. as_stored spans.items ≡ stored self.now.kind (runs_in self.now) (words_in self.now.kind (runs_in self.now))) }
        ensures rise { IfOk result (λ spans. DoSpansRise 0 spans.items (2 ^ 20)) }
        ensures memory { OnErr result (words_in self.now.kind (runs_in self.now) ≢ []) }
    {
        if self.is_empty() {
            return Ok(Vec::new(alloc));
        }
        self.filled(alloc)
    }

    /// Whether no run has a parcel.
    fn is_empty(&self) -> bool
        ensures none { result ≡ true → words_in self.now.kind (runs_in self.now) ≡ [] }
        ensures some { result ≡ false → words_in self.now.kind (runs_in self.now) ≢ [] }
    {
        !lies_in(self.run.as_slice()) && !lies_in_any(self.earlier.as_slice())
    }

    /// The words of the runs, one of which has a parcel.
    fn filled(&self, alloc: Global) -> Result<Vec<WordSpan>, AllocError>
        requires { self.now.run.filled ≡ 0 }
        ensures words { IfOk result (λ spans. as_stored spans.items ≡ stored self.now.kind (runs_in self.now) (words_in self.now.kind (runs_in self.now))) }
        ensures rise { IfOk result (λ spans. DoSpansRise 0 spans.items (2 ^ 20)) }
    {
        let older = runs_words(alloc, self.kind, self.earlier.as_slice())?;
        let newer = run_words(alloc, self.kind, self.run.as_slice())?;
        let words = laid_over(alloc, newer, older.as_slice())?;
        joined(alloc, words)
    }
}
