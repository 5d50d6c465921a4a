//! The words of one run: its parcels gathered word by word.
ghost use Rattle.std.specs.Prelude.{◌≡◌, ℕ, ◌+◌, ◌-◌, ◌*◌, ◌/◌, ◌%◌, ◌^◌, ◌<◌, ◌≤◌, ◌||◌, true, List, [], ◌∷◌, ◌++◌, IfOk, OnOk, unwrap_or, slice_index_or, length};
ghost use Rattle.definitions.specs.Kinds.{units, unit_bits};
ghost use Rattle.definitions.specs.Words.{Parcel, filling_of, word_of_parcels};
ghost use Rattle.definitions.specs.declared.deck_kind.DeckKind.{DeckKind};
ghost use Rattle.parcel_packer.specs.Joins.Packing.{parcel_at};
ghost use Rattle.parcel_packer.specs.Joins.Spans.{RiseWithin, places, parcels_in, span_parcels};
ghost use Rattle.parcel_packer.specs.Joins.Filling.{AreWords, FillWords, IsFilled, IsOpenWord, IsGathered, value_in, word_made};

use crate::fields::{last_bits, parcel_bits};
use crate::joining::push_joined;
use crate::spans::Span;
use crate::word_spans::WordSpan;
use definitions::DeckKind;
use std::alloc::{AllocError, Global};

/// The pass instruction, which fills the parcels that no item covers.
const PASS: u16 = 0o46000;

/// What lies in the word that is being gathered; a peripheral word has one parcel.
#[derive(Clone, Copy)]
pub(crate) struct OpenWord {
    pub(crate) word: u32,
    pub(crate) parcels: [Option<u16>; 4],
    pub(crate) has_instruction: bool,
    pub(crate) is_empty: bool,
}

/// The finished words of a run so far, and the word behind them.
#[derive(Drop)]
pub(crate) struct Gathered {
    pub(crate) words: Vec<WordSpan>,
    pub(crate) next: OpenWord,
}

fn either(a: bool, b: bool) -> bool
    ensures { result ≡ (a || b) }
{
    a || b
}

/// Whether a span is that of a whole word, or of whole words of zeros, one or more.
fn are_words(kind: DeckKind, span: Span) -> bool
    ensures { result ≡ true → AreWords kind span }
{
    let units = kind.units();
    span.place % units == 0
        && (span.count == units || span.bits == 0 && span.count != 0 && span.count % units == 0)
}

/// The bits of a parcel of a span behind which there are so many others.
fn parcel(kind: DeckKind, bits: u64, behind: u32) -> u64
    requires { behind ≤ 524288 }
    ensures { result ≡ bits / 2 ^ (unit_bits kind * behind) % 2 ^ unit_bits kind }
{
    let size = parcel_bits(kind);
    let shift = size * behind;
    if shift < 64 {
        last_bits(bits >> shift, size)
    } else {
        0
    }
}

impl OpenWord {
    fn at(word: u32) -> OpenWord
        ensures word { result.word ≡ word }
        ensures empty { (kind : DeckKind) → IsOpenWord kind result [] }
    {
        OpenWord {
            word,
            parcels: [None; 4],
            has_instruction: false,
            is_empty: true,
        }
    }

    /// A parcel more; where one lies there already, that stays.
    fn add(&mut self, place: usize, bits: u16, is_instruction: bool)
        requires { place < 4 }
        ensures word { self.new.word ≡ self.old.word }
        ensures added { (kind : DeckKind) (parcels : List Parcel) (at_place : ℕ) → at_place % units kind ≡ place →
            IsOpenWord kind self.old parcels → IsOpenWord kind self.new (parcels ++ parcel_at is_instruction at_place bits ∷ []) }
    {
        self.parcels[place] = Some(self.parcels[place].unwrap_or(bits));
        self.has_instruction = either(self.has_instruction, is_instruction);
        self.is_empty = false;
    }

    /// What fills the places that no parcel covers.
    fn filling(&self, kind: DeckKind) -> u16
        ensures { (parcels : List Parcel) → IsOpenWord kind self.now parcels → result ≡ filling_of kind parcels }
    {
        match kind {
            DeckKind::Periph => 0,
            DeckKind::Rel | DeckKind::Abs => { if self.has_instruction { PASS } else { 0 } }
        }
    }

    fn bits(&self, place: usize, filling: u16) -> u64
        requires { place < 4 }
        ensures value { result ≡ unwrap_or (slice_index_or self.now.parcels place None) filling }
        ensures short { result < 2 ^ 16 }
    {
        u64::from(self.parcels[place].unwrap_or(filling))
    }

    /// The bits of all four parcels one behind the other.
    fn central_value(&self, filling: u16) -> u64
        ensures { result ≡ ((unwrap_or (slice_index_or self.now.parcels 0 None) filling * 32768 + unwrap_or (slice_index_or self.now.parcels 1 None) filling) * 32768
            + unwrap_or (slice_index_or self.now.parcels 2 None) filling) * 32768 + unwrap_or (slice_index_or self.now.parcels 3 None) filling }
    {
        let first = self.bits(0, filling);
        let second = self.bits(1, filling);
        let third = self.bits(2, filling);
        let fourth = self.bits(3, filling);
        ((first * 0o100000 + second) * 0o100000 + third) * 0o100000 + fourth
    }

    fn value(&self, kind: DeckKind) -> u64
        ensures { (parcels : List Parcel) → IsOpenWord kind self.now parcels → result ≡ word_of_parcels kind parcels }
    {
        let filling = self.filling(kind);
        if kind.units() == 1 {
            return self.bits(0, filling);
        }
        self.central_value(filling)
    }
}

impl Gathered {
    /// No words yet, with memory for so many.
    fn new(alloc: Global, room: usize) -> Result<Gathered, AllocError>
        ensures gathered { IfOk result (λ gathered. (kind : DeckKind) → IsGathered kind [] gathered.words.items gathered.next) }
        ensures word { IfOk result (λ gathered. gathered.next.word ≡ 0) }
    {
        Ok(Gathered {
            words: Vec::with_capacity(alloc, room)?,
            next: OpenWord::at(0),
        })
    }

    /// Finishes the word, if something lies in it.
    fn end_word(&mut self, kind: DeckKind) -> Result<(), AllocError>
        ensures next { self.new.next ≡ self.old.next }
        ensures ended { OnOk result ((parcels : List Parcel) → IsOpenWord kind self.old.next parcels →
            self.new.words.items ≡ self.old.words.items ++ word_made kind self.old.next.word parcels) }
    {
        let offset = self.next.word;
        if self.next.is_empty {
            return Ok(());
        }
        let value = self.next.value(kind);
        self.words.push(WordSpan {
            offset,
            count: 1,
            value,
        })?;
        Ok(())
    }

    /// Goes on to a word at or behind the open one.
    fn go_to(&mut self, kind: DeckKind, word: u32) -> Result<(), AllocError>
        requires order { self.old.next.word ≤ word }
        requires room { word < 2 ^ 20 }
        ensures gathered { OnOk result ((parcels : List Parcel) → IsGathered kind parcels self.old.words.items self.old.next → IsGathered kind parcels self.new.words.items self.new.next) }
        ensures word { OnOk result (self.new.next.word ≡ word) }
    {
        if self.next.word < word {
            self.end_word(kind)?;
            self.next = OpenWord::at(word);
        }
        Ok(())
    }

    fn add(
        &mut self,
        kind: DeckKind,
        place: u32,
        bits: u16,
        is_instruction: bool,
    ) -> Result<(), AllocError>
        requires order { self.old.next.word ≤ place / units kind }
        requires room { place < 2 ^ 20 }
        ensures gathered { OnOk result ((parcels : List Parcel) → IsGathered kind parcels self.old.words.items self.old.next →
            IsGathered kind (parcels ++ parcel_at is_instruction place bits ∷ []) self.new.words.items self.new.next) }
        ensures word { OnOk result (self.new.next.word ≡ place / units kind) }
    {
        let units = kind.units();
        self.go_to(kind, place / units)?;
        self.next
            .add((place % units) as usize, bits, is_instruction);
        Ok(())
    }

    /// The parcels of a span, one by one.
    fn add_parcels(&mut self, kind: DeckKind, span: Span) -> Result<(), AllocError>
        requires order { 0 < span.count → self.old.next.word ≤ span.place / units kind }
        requires room { 0 < span.count → span.place + span.count ≤ 524288 }
        ensures gathered { OnOk result ((parcels : List Parcel) → IsGathered kind parcels self.old.words.items self.old.next →
            IsGathered kind (parcels ++ span_parcels (unit_bits kind) span) self.new.words.items self.new.next) }
        ensures word { OnOk result (0 < span.count → self.new.next.word ≡ (span.place + span.count - 1) / units kind) }
        ensures same { OnOk result (span.count ≡ 0 → self.new.next.word ≡ self.old.next.word) }
    {
        for index in 0..span.count {
            let bits = parcel(kind, span.bits, span.count - 1 - index);
            self.add(kind, span.place + index, bits as u16, span.is_instruction)?;
        }
        Ok(())
    }

    /// So many words of one value from the open word on, in which nothing lies.
    fn add_words(&mut self, count: u32, value: u64) -> Result<(), AllocError>
        requires empty { self.old.next.is_empty ≡ true }
        requires some { 0 < count }
        requires room { self.old.next.word + count ≤ 524288 }
        ensures gathered { OnOk result ((kind : DeckKind) (parcels more : List Parcel) → FillWords kind self.old.next.word count value more →
            IsGathered kind parcels self.old.words.items self.old.next → IsGathered kind (parcels ++ more) self.new.words.items self.new.next) }
        ensures word { OnOk result (self.new.next.word ≡ self.old.next.word + count) }
    {
        let offset = self.next.word;
        push_joined(
            &mut self.words,
            WordSpan {
                offset,
                count,
                value,
            },
        )?;
        self.next.word = offset + count;
        Ok(())
    }

    /// A span more. A whole word, and whole words of zeros, however many they are, are finished at once.
    fn add_span(&mut self, kind: DeckKind, span: Span) -> Result<(), AllocError>
        requires order { 0 < span.count → self.old.next.word ≤ span.place / units kind }
        requires room { 0 < span.count → span.place + span.count ≤ 524288 }
        ensures gathered { OnOk result ((parcels : List Parcel) → IsGathered kind parcels self.old.words.items self.old.next →
            IsGathered kind (parcels ++ span_parcels (unit_bits kind) span) self.new.words.items self.new.next) }
        ensures word { OnOk result (0 < span.count → self.new.next.word ≤ (span.place + span.count) / units kind) }
        ensures same { OnOk result (span.count ≡ 0 → self.new.next.word ≡ self.old.next.word) }
    {
        if !are_words(kind, span) {
            return self.add_parcels(kind, span);
        }
        self.go_to(kind, span.place / kind.units())?;
        if !self.next.is_empty {
            return self.add_parcels(kind, span);
        }
        let value = last_bits(span.bits, parcel_bits(kind) * kind.units());
        self.add_words(span.count / kind.units(), value)
    }

    fn finish(mut self, kind: DeckKind) -> Result<Vec<WordSpan>, AllocError>
        ensures { IfOk result (λ words. (parcels : List Parcel) → IsGathered kind parcels self.words.items self.next → IsFilled (value_in kind parcels) words.items) }
    {
        self.end_word(kind)?;
        Ok(self.words)
    }
}

/// The words of a run, with memory at first for half as many as it has spans.
pub(crate) fn run_words(
    alloc: Global,
    kind: DeckKind,
    run: &[Span],
) -> Result<Vec<WordSpan>, AllocError>
    requires { RiseWithin 0 (places (parcels_in (unit_bits kind) run.now)) 524288 }
    ensures { IfOk result (λ words. IsFilled (value_in kind (parcels_in (unit_bits kind) run.now)) words.items) }
{
    let mut gathered = Gathered::new(alloc, run.len() / 2)?;
    for span in run {
        gathered.add_span(kind, *span)?;
    }
    gathered.finish(kind)
}
