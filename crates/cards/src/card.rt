//! One card.
ghost use Rattle.std.specs.Prelude.{◌≡◌, ◌≤◌, ◌||◌, ◌∷◌, [], length, take, position, is_none, is_some};
ghost use Rattle.std.specs.List.{list_all};
ghost use Rattle.definitions.specs.Cards.{card_of, is_comma_card, is_comment, padded, trimmed};
ghost use Rattle.definitions.specs.Characters.{display_code_of, same_text};
ghost use Rattle.definitions.specs.Fields.{fields_of};
ghost use Rattle.cards.specs.CardReads.{read_as};
ghost use Rattle.cards.specs.Joins.FieldParts.{AreWithin, fields_at};

use crate::card_parts::{CardParts, parts_on};
use crate::field_parts::Parts;
use definitions::has_display_code;
use std::fmt;
use std::marker::Model;
use thiserror::Error;

/// How many columns a card has.
const COLUMNS: usize = 80;

/// How many of its columns a statement is read from; the others are only listed.
const READ_COLUMNS: usize = 72;

/// A card: 0 to 80 columns, each a character with a display code, without trailing blanks. Where the
/// fields lie in it is found once, when it is read, and has the place that its length leaves.
/// Contracts see it as the list of its columns (COMPASS 60492600, statement format).
#[derive(Drop)]
pub struct Card {
    columns: [u8; COLUMNS],
    len: u8,
    parts: CardParts,
}

impl Model for Card {
    ghost use Rattle.std.specs.Prelude.{ℕ, List, take};
    ghost use Rattle.cards.specs.Joins.CardParts.{IsCard};

    ghost Value = { List ℕ };

    ghost view = { λ c. take c.len c.columns };

    ghost invariant = { λ c. IsCard c.len c.columns c.parts };
}

/// Why a line is no card.
#[derive(Clone, Copy, Debug, PartialEq, Eq, Error)]
pub enum CardFault {
    /// It has more than 80 columns without its trailing blanks.
    TooWide,
    /// The character in this column, counted from 1, is the first without a display code.
    BadCharacter { column: usize },
}

impl fmt::Display for CardFault {
    ghost use Rattle.std.specs.Prelude.{Some};
    ghost use Rattle.cards.specs.CardReads.{card_fault_text};

    ghost output = { λ fault. Some (card_fault_text fault) };

    fn fmt<W: fmt::Write>(&self, f: &mut fmt::Formatter<W>) -> fmt::Result {
        match self {
            CardFault::TooWide => write!(f, "TooWide"),
            CardFault::BadCharacter { column } => write!(f, "BadCharacter {column}"),
        }
    }
}

impl Card {
    /// The card that a line shows. Trailing blanks are dropped; then `TooWide` comes before
    /// `BadCharacter`.
    pub fn read(line: &[u8]) -> Result<Card, CardFault>
        ensures { read_as result ≡ card_of line.now }
    {
        let columns = line.split_at(trimmed_len(line)).0;
        if columns.len() > COLUMNS {
            return Err(CardFault::TooWide);
        }
        let card = Card::of_columns(columns);
        if card.is_lawful() {
            return Ok(card);
        }
        match first_bad(columns) {
            Some(place) => Err(CardFault::BadCharacter { column: 1 + place }),
            None => Ok(card),
        }
    }

    fn of_columns(text: &[u8]) -> Card
        requires { length text.now ≤ 80 }
        ensures { result ≡ text.now }
    {
        let mut columns = [b' '; COLUMNS];
        columns.split_at_mut(text.len()).0.copy_from_slice(text);
        let parts = parts_on(text, columns.split_at(READ_COLUMNS).0);
        Card {
            columns,
            len: text.len() as u8,
            parts,
        }
    }

    /// The same card once more.
    pub fn copied(&self) -> Card
        ensures { result ≡ self.now }
    {
        Card {
            columns: self.columns,
            len: self.len,
            parts: self.parts,
        }
    }

    /// The columns up to the last that is not blank.
    pub fn as_slice(&self) -> &[u8]
        ensures columns { result.now ≡ self.now }
        ensures short { length self.now ≤ 80 }
    {
        self.columns.split_at(usize::from(self.len)).0
    }

    /// Columns 1 to 72, padded with blanks.
    pub fn read_columns(&self) -> &[u8]
        ensures { result.now ≡ padded 72 self.now }
    {
        self.columns.split_at(READ_COLUMNS).0
    }

    /// The parts of those columns that are the fields of a statement of this card alone.
    pub(crate) fn parts(&self) -> Parts
        ensures within { AreWithin 72 result }
        ensures fields { fields_at (padded 72 self.now) result ≡ fields_of (self.now ∷ []) }
    {
        self.parts.parts()
    }

    /// Whether another card has the same columns. The blanks behind them are compared too, so that no
    /// branch depends on how many there are.
    pub fn is_same(&self, other: &Card) -> bool
        ensures { result ≡ same_text self.now other.now }
    {
        self.len == other.len && self.columns == other.columns
    }

    /// Whether all columns have a display code. The blanks behind them are looked at too, so that no
    /// branch depends on how many there are.
    fn is_lawful(&self) -> bool
        ensures { result ≡ list_all (λ c. is_some (display_code_of c)) self.now }
    {
        are_lawful(&self.columns)
    }

    /// Whether `*` in column 1 makes this a comment.
    pub fn is_comment(&self) -> bool
        ensures { result ≡ is_comment self.now }
    {
        self.columns[0] == b'*'
    }

    /// Whether `,` in column 1 makes this a card that continues another.
    pub fn is_comma_card(&self) -> bool
        ensures { result ≡ is_comma_card self.now }
    {
        self.columns[0] == b','
    }

    /// Whether no field is read of a statement that begins with this card: a comment, or a comma
    /// card that belongs to no other.
    pub(crate) fn is_unread(&self) -> bool
        ensures { result ≡ (is_comma_card self.now || is_comment self.now) }
    {
        self.is_comma_card() || self.is_comment()
    }
}

/// How many columns a line has without its trailing blanks.
fn trimmed_len(line: &[u8]) -> usize
    ensures within { result ≤ length line.now }
    ensures kept { take result line.now ≡ trimmed line.now }
{
    let mut len = line.len();
    while len > 0 && line[len - 1] == b' ' {
        len -= 1;
    }
    len
}

/// The place, from 0, of the first character without a display code.
fn first_bad(columns: &[u8]) -> Option<usize>
    ensures { result ≡ position (λ c. is_none (display_code_of c)) columns.now }
{
    columns.iter().position(|c| !has_display_code(*c))
}

/// Whether all characters have a display code. No character ends the loop, so that many of them are
/// looked at together.
fn are_lawful(columns: &[u8]) -> bool
    ensures { result ≡ list_all (λ c. is_some (display_code_of c)) columns.now }
{
    let mut lawful = true;
    for c in columns {
        lawful = lawful & has_display_code(*c);
    }
    lawful
}
