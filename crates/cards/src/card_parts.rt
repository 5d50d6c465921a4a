//! Where the fields lie on a card: found once, when it is read, and kept in a byte each.
ghost use Rattle.std.specs.Prelude.{◌≡◌, ◌≤◌, ◌+◌, ◌||◌, ◌∷◌, [], length};
ghost use Rattle.definitions.specs.Cards.{is_comma_card, is_comment, padded};
ghost use Rattle.definitions.specs.Fields.{fields_of};
ghost use Rattle.cards.specs.Joins.CardParts.{part_as, parts_as};
ghost use Rattle.cards.specs.Joins.FieldParts.{AreWithin, fields_at};

use crate::field_parts::{Part, Parts, cut};

/// A part of the columns of a card that are read.
#[derive(Clone, Copy)]
pub(crate) struct CardPart {
    start: u8,
    len: u8,
}

/// The parts that the three fields are of a statement of this card.
#[derive(Clone, Copy)]
pub(crate) struct CardParts {
    location: CardPart,
    operation: CardPart,
    variable: CardPart,
}

impl CardPart {
    fn of(part: Part) -> CardPart
        requires { part.start + part.len ≤ 72 }
        ensures { part_as result ≡ part }
    {
        CardPart {
            start: part.start as u8,
            len: part.len as u8,
        }
    }

    fn part(self) -> Part
        ensures { result ≡ part_as self }
    {
        Part {
            start: usize::from(self.start),
            len: usize::from(self.len),
        }
    }
}

impl CardParts {
    fn of(parts: Parts) -> CardParts
        requires { AreWithin 72 parts }
        ensures { parts_as result ≡ parts }
    {
        CardParts {
            location: CardPart::of(parts.location),
            operation: CardPart::of(parts.operation),
            variable: CardPart::of(parts.variable),
        }
    }

    pub(crate) fn parts(self) -> Parts
        ensures { result ≡ parts_as self }
    {
        Parts {
            location: self.location.part(),
            operation: self.operation.part(),
            variable: self.variable.part(),
        }
    }
}

/// Whether these are the columns of a card that no field is read of.
fn is_unread(columns: &[u8]) -> bool
    ensures { result ≡ (is_comma_card columns.now || is_comment columns.now) }
{
    match columns.split_first() {
        None => false,
        Some((c, _)) => *c == b',' || *c == b'*',
    }
}

/// The parts of a card with these columns; `read` are those that are read, padded with blanks.
pub(crate) fn parts_on(columns: &[u8], read: &[u8]) -> CardParts
    requires read { read.now ≡ padded 72 columns.now }
    requires width { length read.now ≡ 72 }
    ensures within { AreWithin 72 (parts_as result) }
    ensures fields { fields_at read.now (parts_as result) ≡ fields_of (columns.now ∷ []) }
{
    if is_unread(columns) {
        let nothing = CardPart { start: 0, len: 0 };
        return CardParts {
            location: nothing,
            operation: nothing,
            variable: nothing,
        };
    }
    CardParts::of(cut(read))
}
