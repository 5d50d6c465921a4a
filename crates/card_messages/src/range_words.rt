//! A: what is out of range, its value and the limit.

use crate::elements::{ElementText, Elements, MOST_CHARACTERS, Part, Parts, behind};
use crate::flagged_statement::{FlaggedStatement, Found, Place};
use crate::seen_values::{FaultLetter, expression_of};
use crate::words::{LongItem, Misfit, OutOfRange, Shown, Words};
use definitions::{DeckKind, item_at};
use expr_forms::{CountedItem, Expr, Field, Form, counted_item_in};
use operations::Operation;
use statement_coder::Reading;

/// The greatest distance of a short jump, and of a shift of SHN.
const SHORT: i64 = 31;

/// How many characters an item has at most as a number.
const MOST_ITEM: usize = 10;

/// What a field takes.
#[derive(Clone, Copy)]
enum Limit {
    Bits(u32),
    /// The count of LX, AX and MX.
    Count,
    Shift,
    Jump,
}

/// The greatest number of so many bits, 60 at most.
fn greatest(bits: u32) -> i64 {
    let mut most = 0i64;
    for _ in 0..bits.min(60) {
        most = most.saturating_mul(2).saturating_add(1);
    }
    most
}

/// What is said of a value that does not fit so many bits; none of one that does.
fn misfit<'a>(text: Shown<'a>, value: i64, bits: u32) -> Option<Words<'a>> {
    let most = greatest(bits);
    if value.unsigned_abs() <= most.unsigned_abs() {
        return None;
    }
    Some(Words::Misfit(Misfit {
        text,
        value,
        bits,
        most,
    }))
}

/// What is said of a value out of a range; none of one within.
fn out_of<'a>(
    text: Shown<'a>,
    value: i64,
    says: &'static str,
    least: i64,
    most: i64,
) -> Option<Words<'a>> {
    if least <= value && value <= most {
        return None;
    }
    Some(Words::OutOfRange(OutOfRange {
        text,
        value,
        says,
        least,
        most,
    }))
}

/// What is said of an item that has too many characters for so many bits; none of one that fits.
fn item_misfit<'a>(text: Shown<'a>, item: &CountedItem<'_>, bits: u32) -> Option<Words<'a>> {
    if counted_item_in(bits.min(60) as usize, item).is_some() {
        return None;
    }
    let zeros = (item.letter().zero_bits() / 6).min(10) as u32;
    let most = (bits / 6).saturating_sub(zeros);
    Some(Words::LongItem(LongItem {
        text,
        characters: item.characters().len(),
        bits,
        most,
    }))
}

/// What is said of the value of a short jump.
fn jump_words<'a>(
    flagged: &FlaggedStatement<'a>,
    text: Shown<'a>,
    form: Form,
) -> Option<Words<'a>> {
    let value = flagged.values.number(form)?;
    if form.is_absolute() && value.unsigned_abs() <= SHORT.unsigned_abs() {
        return None;
    }
    let values = &flagged.values;
    let here = values.sizing.location(values.deck.deck.kind());
    let here = values.number(here).unwrap_or(0);
    let says = " words away; a short jump reaches";
    out_of(text, value.saturating_sub(here), says, -SHORT, SHORT)
}

/// What is said of a value in a field; none where it fits.
fn limited<'a>(
    flagged: &FlaggedStatement<'a>,
    text: Shown<'a>,
    form: Form,
    limit: Limit,
) -> Option<Words<'a>> {
    let value = flagged.values.number(form)?;
    match limit {
        Limit::Bits(bits) => misfit(text, value, bits),
        Limit::Count => out_of(text, value, ": a count goes from", -60, 63),
        Limit::Shift => out_of(text, value, ": a shift goes from", -SHORT, SHORT),
        Limit::Jump => jump_words(flagged, text, form),
    }
}

/// How many bits a field has.
fn bits_of(limit: Limit) -> u32 {
    match limit {
        Limit::Bits(bits) => bits,
        Limit::Count | Limit::Shift | Limit::Jump => 6,
    }
}

/// What is said of an expression in a field, at a part of the variable field; none where it fits.
fn expression_words<'a>(
    flagged: &FlaggedStatement<'a>,
    part: Part<'a>,
    expression: &Expr<'_>,
    limit: Limit,
) -> Option<Found<'a>> {
    let text = Shown { text: part.text };
    let words = match expression.whole_item() {
        Some(item) => item_misfit(text, &CountedItem::of_text(item), bits_of(limit))?,
        None => match flagged.values.of(expression) {
            Ok(form) => limited(flagged, text, form, limit)?,
            Err(_) => return step_words(flagged, part),
        },
    };
    Some(Found {
        place: Place::Variable(part.start),
        words,
    })
}

/// What is said of an expression that goes out of range at a step.
fn step_words<'a>(flagged: &FlaggedStatement<'a>, part: Part<'a>) -> Option<Found<'a>> {
    if flagged.values.has_letter(part.text, FaultLetter::A) {
        Some(Found::about(part, " goes beyond 2**60-1"))
    } else {
        None
    }
}

/// What is said of an element that is out of range by itself.
fn element_words<'a>(
    flagged: &FlaggedStatement<'a>,
    element: ElementText<'a>,
) -> Option<Found<'a>> {
    let is_literal = matches!(element.text.first(), Some(b'='));
    let text = behind(element.text, usize::from(is_literal));
    match item_at(text) {
        Some(item) => {
            let is_long = item.item.characters.len() > MOST_ITEM;
            if is_long && flagged.statement.operation != Operation::Data {
                return Some(Found::about(
                    element.part(),
                    " has more than the 10 characters of a word",
                ));
            }
            None
        }
        None => {
            if flagged.values.has_letter(text, FaultLetter::A) {
                return Some(Found::about(
                    element.part(),
                    " is too great: a number is at most 2**60-1",
                ));
            }
            None
        }
    }
}

/// The first element that is out of range by itself.
fn first_element<'a>(flagged: &FlaggedStatement<'a>) -> Option<Found<'a>> {
    let mut elements = Elements::new(flagged.statement.variable);
    for _ in 0..MOST_CHARACTERS {
        if let Some(found) = element_words(flagged, elements.next()?) {
            return Some(found);
        }
    }
    None
}

/// The subfield of a VFD behind its slash, with the width before it.
fn bit_field<'a>(flagged: &FlaggedStatement<'a>, part: Part<'a>) -> Option<(Part<'a>, Limit)> {
    let place = part.text.iter().position(|character| *character == b'/')?;
    let (width, value) = part.text.split_at(place.min(part.text.len()));
    let bits = match flagged.values.of_text(width) {
        Ok(form) => u32::try_from(form.number()).unwrap_or(60).min(60),
        Err(_) => return None,
    };
    let start = part.start.saturating_add(place).saturating_add(1);
    Some((
        Part {
            start,
            text: behind(value, 1),
        },
        Limit::Bits(bits),
    ))
}

/// What is said of a subfield that is a field by itself; none where it fits.
fn subfield_words<'a>(
    flagged: &FlaggedStatement<'a>,
    part: Part<'a>,
    limit: Limit,
) -> Option<Found<'a>> {
    let (part, limit) = match flagged.statement.operation {
        Operation::Vfd => bit_field(flagged, part)?,
        Operation::Data if item_at(part.text).is_some() => return None,
        _ => (part, limit),
    };
    let expression = expression_of(part.text, flagged.values.base)?;
    expression_words(flagged, part, &expression, limit)
}

/// The first subfield that does not fit its field.
fn first_subfield<'a>(flagged: &FlaggedStatement<'a>, limit: Limit) -> Option<Found<'a>> {
    let mut parts = Parts::new(flagged.statement.variable);
    for _ in 0..MOST_CHARACTERS {
        if let Some(found) = subfield_words(flagged, parts.next()?, limit) {
            return Some(found);
        }
    }
    None
}

/// The last subfield.
fn last_part<'a>(field: &'a [u8]) -> Part<'a> {
    let mut last = Part {
        start: 0,
        text: field,
    };
    let mut parts = Parts::new(field);
    for _ in 0..MOST_CHARACTERS {
        match parts.next() {
            Some(part) => last = part,
            None => return last,
        }
    }
    last
}

/// What is said of the field of an instruction; none where its value fits.
fn instruction_words<'a>(flagged: &FlaggedStatement<'a>, field: &Field<'_>) -> Option<Found<'a>> {
    let last = last_part(flagged.statement.variable);
    match field {
        Field::Absent | Field::Zero => None,
        Field::Address(value) | Field::Wide(value) => {
            expression_words(flagged, last, value, Limit::Bits(18))
        }
        Field::Count(value) => expression_words(flagged, last, value, Limit::Count),
        Field::Short(value) => expression_words(flagged, last, value, Limit::Bits(6)),
        Field::Displacement(value) => expression_words(flagged, last, value, Limit::Jump),
        Field::Shift(value) => expression_words(flagged, last, value, Limit::Shift),
        Field::Long(value, second) => long_words(flagged, last, value, second.expression()),
    }
}

/// The first subfield.
fn first_part<'a>(field: &'a [u8]) -> Part<'a> {
    match Parts::new(field).next() {
        Some(part) => part,
        None => Part {
            start: 0,
            text: field,
        },
    }
}

/// What is said of m and d.
fn long_words<'a>(
    flagged: &FlaggedStatement<'a>,
    last: Part<'a>,
    value: &Expr<'_>,
    second: Option<Expr<'_>>,
) -> Option<Found<'a>> {
    let first = first_part(flagged.statement.variable);
    if let Some(found) = expression_words(flagged, first, value, Limit::Bits(12)) {
        return Some(found);
    }
    match second {
        Some(second) => expression_words(flagged, last, &second, Limit::Bits(6)),
        None => None,
    }
}

/// What is said of the value of BSS, BSSZ, ORG, LOC and EQU; none where it is in range.
fn reserving_words<'a>(flagged: &FlaggedStatement<'a>, value: &Expr<'_>) -> Option<Found<'a>> {
    let part = Part {
        start: 0,
        text: flagged.statement.variable,
    };
    let text = Shown { text: part.text };
    let Ok(form) = flagged.values.of(value) else {
        return step_words(flagged, part);
    };
    if flagged.statement.operation == Operation::Bss && form.number() < 0 {
        let says = " is a negative count of words, which is left out of this language";
        return Some(Found::about(part, says));
    }
    let most = i64::from(flagged.kind().most_words()).saturating_sub(1);
    let says = match flagged.statement.operation {
        Operation::Bss | Operation::Bssz => ": a count of words goes from",
        Operation::Org | Operation::Loc => ": an address goes from",
        _ => return None,
    };
    let words = out_of(text, form.number(), says, 0, most)?;
    Some(Found {
        place: Place::Variable(0),
        words,
    })
}

/// What is said of the operand that was read; none where all of it is in range.
fn reading_words<'a>(flagged: &FlaggedStatement<'a>, reading: &Reading<'_>) -> Option<Found<'a>> {
    let word = Limit::Bits(flagged.kind().word_bits());
    match reading {
        Reading::Instruction(shape) => instruction_words(flagged, &shape.field),
        Reading::Con(_) | Reading::Vfd(_) | Reading::Data(_) => first_subfield(flagged, word),
        Reading::Value(value) => reserving_words(flagged, value),
        _ => None,
    }
}

/// What is said of a statement that would pass the end of its block.
fn past_end<'a>(flagged: &FlaggedStatement<'a>) -> Found<'a> {
    flagged.of_operation(match flagged.kind() {
        DeckKind::Periph => " would pass the end of its block, which has 4096 words",
        DeckKind::Rel | DeckKind::Abs => " would pass the end of its block, which has 131072 words",
    })
}

/// What of a statement is out of range.
pub(crate) fn range_words<'a>(flagged: &FlaggedStatement<'a>) -> Found<'a> {
    if let Some(found) = first_element(flagged) {
        return found;
    }
    let read = flagged.statement.read_operand(flagged.values.base);
    match reading_words(flagged, &read.reading) {
        Some(found) => found,
        None => past_end(flagged),
    }
}
