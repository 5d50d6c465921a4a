//! Fields: so many bits, known or left to the link (COMPASS 60492600, data generation; 6600
//! reference 60100000, instruction formats).
ghost use Rattle.std.specs.Prelude.{◌≡◌, ◌≤◌, ◌<◌, ◌^◌};
ghost use Rattle.definitions.specs.Kinds.{word_bits};
ghost use Rattle.definitions.specs.Literals.{signed_number};
ghost use Rattle.definitions.specs.StatementItems.{known, faulty, known_if, number_item, zeros_to_word};
ghost use Rattle.expr_forms.specs.Joins.Elements.{sign_as};
ghost use Rattle.expr_forms.specs.Joins.Numbers.{number_as};
ghost use Rattle.statement_coder.specs.Joins.Items.{item_as};

use definitions::{DeckKind, Letter};
use expr_forms::{Form, Number, Sign, coded_in};

/// Bits that are known, or a form that the link makes a number of.
#[derive(Clone, Copy)]
pub enum Content {
    Known(u64),
    Linked(Form),
}

/// A field of up to 60 bits: its width, what stands in it, and the letter that flags it, if one does.
#[derive(Clone, Copy)]
pub struct Item {
    pub width: u32,
    pub letter: Option<Letter>,
    pub content: Content,
}

/// Bits that are known, without a letter.
pub(crate) fn known(width: u32, bits: u64) -> Item
    ensures { item_as result ≡ known width bits }
{
    Item {
        width,
        content: Content::Known(bits),
        letter: None,
    }
}

/// A faulty field, which is 0.
pub(crate) fn faulty(width: u32, letter: Letter) -> Item
    ensures { item_as result ≡ faulty width letter }
{
    Item {
        width,
        content: Content::Known(0),
        letter: Some(letter),
    }
}

/// Bits that are known, or 0 with A where a value does not fit.
pub(crate) fn known_if(width: u32, bits: Option<u64>) -> Item
    ensures { item_as result ≡ known_if width bits }
{
    match bits {
        Some(bits) => known(width, bits),
        None => faulty(width, Letter::A),
    }
}

/// The number that a sign and a size make.
pub fn signed(sign: Sign, size: u64) -> i64
    requires { size < 2 ^ 60 }
    ensures { result ≡ signed_number (sign_as sign) size }
{
    match sign {
        Sign::Absent => size as i64,
        Sign::Plus => size as i64,
        Sign::Minus => -(size as i64),
    }
}

/// A signed number in a field of 1 to 60 bits: 0 with A where it does not fit.
pub(crate) fn number_item(width: u32, sign: Sign, number: Number) -> Item
    requires some { 1 ≤ width }
    requires most { width ≤ 60 }
    ensures { item_as result ≡ number_item width (sign_as sign) (number_as number) }
{
    match number {
        Number::Value(size) => known_if(width, coded_in(width, signed(sign, size.value))),
        Number::TooGreat => faulty(width, Letter::A),
    }
}

/// The zeros that fill the last word of fields that have so many bits together.
pub(crate) fn zeros_to_word(kind: DeckKind, bits: u32) -> Item
    ensures { item_as result ≡ zeros_to_word (word_bits kind) bits }
{
    let word = kind.word_bits();
    known((word - bits % word) % word, 0)
}
