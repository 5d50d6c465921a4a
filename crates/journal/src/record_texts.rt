//! Texts of records: a short one lies in the value itself and takes no memory.
ghost use Rattle.std.specs.Prelude.{◌≡◌, ◌++◌, [], IfOk, OnErr};
ghost use Rattle.journal.specs.RecordTexts.{IsLarge, IsLong};

use crate::shared_text::SharedText;
use definitions::InlineText;
use std::alloc::{AllocError, Global};
use std::marker::Model;
use text_ports::{Piece, Text};

/// How many bytes have room in the value: those of a text of 200, with its version and its check sum.
const ROOM: usize = 256;

/// A text in the value itself, or elsewhere.
#[derive(Drop)]
enum Held<T> {
    Short(InlineText<ROOM>),
    Long(T),
}

/// The text of a record, or of records, which several may hold. Contracts see its bytes.
#[derive(Drop)]
pub struct RecordText {
    held: Held<SharedText>,
}

impl Model for RecordText {
    ghost use Rattle.std.specs.Prelude.{ℕ, List};
    ghost use Rattle.journal.specs.RecordTexts.{IsHeld, held_text};

    ghost Value = { List ℕ };

    ghost view = { λ t. held_text t.held };

    ghost invariant = { λ t. IsHeld t.held };
}

impl Default for RecordText {
    ghost is_default = { λ t. t ≡ [] };

    fn default() -> RecordText {
        RecordText {
            held: Held::Short(InlineText::new()),
        }
    }
}

impl RecordText {
    pub(crate) fn as_slice(&self) -> &[u8]
        ensures { result.now ≡ self.now }
    {
        match &self.held {
            Held::Short(text) => text.as_slice(),
            Held::Long(text) => text.as_slice(),
        }
    }

    /// The same text once more.
    pub(crate) fn share(&self) -> Result<RecordText, AllocError>
        ensures same { IfOk result (λ text. text ≡ self.now) }
        ensures memory { OnErr result (IsLong self.now) }
    {
        let held = match &self.held {
            Held::Short(text) => Held::Short(text.copied()),
            Held::Long(text) => Held::Long(text.share()?),
        };
        Ok(RecordText { held })
    }
}

/// A text that is being written. It takes all bytes that are put to it: those for which there is neither room in
/// the value nor memory are left out, and reported at the end. Contracts see the list of all.
#[derive(Drop)]
pub(crate) struct Writing {
    alloc: Global,
    held: Held<Piece>,
}

impl Model for Writing {
    ghost use Rattle.std.specs.Prelude.{ℕ, List};
    ghost use Rattle.journal.specs.RecordTexts.{IsHeld, held_text};

    ghost Value = { List ℕ };

    ghost view = { λ w. held_text w.held };

    ghost invariant = { λ w. IsHeld w.held };
}

impl Writing {
    pub(crate) fn new(alloc: Global) -> Writing
        ensures { result ≡ [] }
    {
        Writing {
            alloc,
            held: Held::Short(InlineText::new()),
        }
    }

    /// Puts bytes behind the others.
    pub(crate) fn put(&mut self, bytes: &[u8])
        ensures { self.new ≡ self.old ++ bytes.now }
    {
        match &mut self.held {
            Held::Short(text) if bytes.len() <= ROOM - text.as_slice().len() => text.append(bytes),
            Held::Short(text) => {
                let mut piece = Piece::new(self.alloc);
                piece.put(text.as_slice());
                piece.put(bytes);
                self.held = Held::Long(piece);
            }
            Held::Long(piece) => piece.put(bytes),
        }
    }

    /// The text in memory, where there is memory for all of it.
    pub(crate) fn into_text(self) -> Result<Text, AllocError>
        ensures { IfOk result (λ text. text ≡ self) }
    {
        let Writing { alloc, held } = self;
        match held {
            Held::Short(short) => {
                let mut text = Text::new(alloc);
                text.push_bytes(short.as_slice())?;
                Ok(text)
            }
            Held::Long(piece) => piece.into_text(),
        }
    }

    /// The text, where it lies in the value or there is memory for all of it.
    pub(crate) fn finish(self) -> Result<RecordText, AllocError>
        ensures text { IfOk result (λ text. text ≡ self) }
        ensures large { OnErr result (IsLarge self) }
        ensures memory { OnErr result (IsLong self) }
    {
        let Writing { alloc, held } = self;
        let held = match held {
            Held::Short(text) => Held::Short(text),
            Held::Long(piece) => Held::Long(SharedText::new(alloc, piece.into_text()?)?),
        };
        Ok(RecordText { held })
    }
}
