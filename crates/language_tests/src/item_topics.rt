//! Items and values as the manual's words, the bits of instructions, and fields as they are shown.
ghost use Rattle.std.specs.Prelude.{◌≤◌};

use crate::expression_topics::form;
use crate::outputs::Answer;
use definitions::{DeckKind, Letter, NumberBase};
use expr_forms::{
    CountedItem, Expr, ExprText, Field, Shape, characters_number, coded_in, counted_item_in,
    counted_item_word, item_literal, item_number,
};
use statement_coder::{Content, Item};
use test_parts::{cut, small};

/// What an item with this letter gives: in a field of 60 bits, as words, as a literal and as a number.
pub fn counted_item(answer: &mut Answer, text: &str) {
    let (letter, characters) = cut(text);
    let letter = letter.as_bytes().first().copied().unwrap_or(b' ');
    let Some(item) = CountedItem::read(letter, characters.as_bytes()) else {
        return answer.word("no item");
    };
    match counted_item_in(60, &item) {
        Some(bits) => answer.octal(&bits),
        None => answer.word("too long"),
    }
    answer.octal(&item_literal(&item));
    answer.or_fault(&item_number(&item), Answer::octal);
    words_of_item(answer, &item)
}

/// The words that an item fills.
fn words_of_item(answer: &mut Answer, item: &CountedItem<'_>) {
    let words = item.words_needed(DeckKind::Rel);
    answer.word("words");
    for index in 0..words {
        answer.octal(&counted_item_word(item, DeckKind::Rel, index));
    }
}

/// The width of a field: 1 to 60 bits.
fn width_of(text: &str) -> u32
    ensures { (1 ≤ result) × (result ≤ 60) }
{
    small(text).clamp(1, 60)
}

/// A value in a field of so many bits.
pub fn coded(answer: &mut Answer, text: &str) {
    let (width, value) = cut(text);
    let value = i64::from_str_radix(value, 8).unwrap_or(0);
    answer.or_none(&coded_in(width_of(width), value), Answer::octal)
}

pub fn characters(answer: &mut Answer, text: &str) {
    if text.len() > 10 {
        return answer.word("too long");
    }
    answer.octal(&characters_number(text.as_bytes()))
}

fn expression(text: &str) -> Result<Expr<'_>, Letter> {
    let bytes = text.as_bytes();
    if bytes.len() > 711 {
        return Err(Letter::C);
    }
    Expr::parse(bytes, NumberBase::Decimal)
}

/// An instruction with digits and a field of a kind, which an expression gives.
pub fn shape_of(text: &str) -> Option<Shape<'_>> {
    let (kind, text) = cut(text);
    let first = expression(text).ok()?;
    let (digits, digit_count, field) = match kind {
        "absent" => (0, 5, Field::Absent),
        "address" => (0, 4, Field::Address(first)),
        "short" => (0, 2, Field::Short(first)),
        "long" => (
            0o50,
            2,
            Field::Long(first, ExprText::new(&[], NumberBase::Decimal)),
        ),
        _ => return None,
    };
    Some(Shape {
        digits,
        digit_count,
        field,
    })
}

/// The bits of an instruction.
pub fn width(answer: &mut Answer, shape: &Shape<'_>) {
    answer.number(&shape.width())
}

/// The width of a field and its bits, or the form that is left to the link, and its letter.
pub fn item(answer: &mut Answer, item: &Item) {
    answer.number(&item.width);
    match &item.content {
        Content::Known(bits) => answer.octal(bits),
        Content::Linked(left) => {
            answer.word("linked");
            form(answer, left);
        }
    }
    if let Some(letter) = &item.letter {
        answer.debug(letter);
    }
}
