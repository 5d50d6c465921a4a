//! V: what in the variable field is no operand of the operation, and where.

use crate::elements::{ElementText, Elements, MOST_CHARACTERS, Part, Parts, behind};
use crate::flagged_statement::{FlaggedStatement, Found};
use crate::left_out::{
    DELIMITED, FLOATING, WITH_PERIOD, delimited_item, is_fraction, may_be_register, signed_scale,
};
use crate::operand_forms::form_of;
use crate::seen_values::expression_of;
use crate::symbol_words::{is_beyond_registers, is_register, symbol_fault};
use crate::words::is_unsigned;
use definitions::{DeckKind, NumberBase, digit_count, is_digit, is_same_text, item_at};
use expr_forms::is_symbol;
use operations::Operation;

/// What is said of a number with a power of ten or of two, or with the place of its point.
const MODIFIED: &str = " has a modifier that is left out of this language";

/// What is said of octal digits that are none.
const NOT_OCTAL: &str = " has an 8 or 9 and is octal";

/// Whether all digits are zeros.
fn are_zeros(digits: &[u8]) -> bool {
    for digit in digits {
        if *digit != b'0' {
            return false;
        }
    }
    true
}

/// What is wrong with digits that the letter of an item follows.
fn count_fault(digits: &[u8]) -> &'static str {
    if are_zeros(digits) {
        " has count 0, which is left out of this language"
    } else {
        " is no item: its count is 1 to 100, and so many characters stand behind the letter"
    }
}

/// What is wrong with digits that the suffix of octal numbers and this text follow.
fn octal_fault(digits: &[u8], text: &[u8]) -> &'static str {
    match text.first().copied() {
        Some(b'P' | b'E') => MODIFIED,
        _ if digits.contains(&b'8') || digits.contains(&b'9') => NOT_OCTAL,
        _ => " is no number",
    }
}

/// What is wrong with a text that begins with a digit and is no number and no item.
fn number_fault(base: NumberBase, text: &[u8]) -> &'static str {
    let (digits, rest) = text.split_at(digit_count(text));
    match rest.split_first() {
        Some((b'Z', _)) => " is left out of this language: an item has H, A, L, R or C",
        Some((b'H' | b'A' | b'L' | b'R' | b'C', _)) => count_fault(digits),
        Some((b'.' | b'E', _)) => FLOATING,
        Some((b'P', _)) | Some((b'D', [b'P' | b'E', ..])) => MODIFIED,
        Some((b'B' | b'O', scale)) => octal_fault(digits, scale),
        None => NOT_OCTAL,
        Some((b'S', _)) if matches!(base, NumberBase::Octal) => {
            " has an 8 or 9 and is octal, or a bad scale"
        }
        _ => " is no number",
    }
}

/// What is wrong with a literal, behind its equals sign; none where nothing is.
fn literal_fault(flagged: &FlaggedStatement<'_>, text: &[u8]) -> Option<&'static str> {
    let operation = flagged.statement.operation;
    if let Some(b'S' | b'X' | b'Y') = text.first() {
        return Some(" is left out of this language");
    }
    if flagged.kind() == DeckKind::Periph {
        return Some(" is a literal, and PERIPH decks have none");
    }
    if !operation.is_instruction() && !matches!(operation, Operation::Con | Operation::Vfd) {
        return Some(" is a literal, and none may stand here");
    }
    match text.split_first() {
        Some((first, _)) if is_digit(*first) => literal_number_fault(flagged.values.base, text),
        Some((b'+' | b'-', digits)) if item_at(digits).is_some() => {
            Some(" has a sign before its item")
        }
        Some((b'+' | b'-', digits)) if digit_count(digits) > 0 => {
            literal_number_fault(flagged.values.base, digits)
        }
        _ => Some(" is no literal: a number or an item stands behind the ="),
    }
}

/// What is wrong with a number or an item behind the equals sign of a literal; of an item that is lawful, that
/// it fills more than a word.
fn literal_number_fault(base: NumberBase, text: &[u8]) -> Option<&'static str> {
    if item_at(text).is_some_and(|item| item.taken == text.len()) {
        return None;
    }
    match expression_of(text, base) {
        Some(_) => None,
        None => Some(number_fault(base, text)),
    }
}

/// What is wrong with an element that begins with a star.
fn counter_fault(text: &[u8]) -> Option<&'static str> {
    match text {
        [b'*'] | [b'*', b'L'] | [b'*', b'O'] => None,
        [b'*', b'F' | b'P'] => Some(" is left out of this language"),
        _ => Some(" is no counter: *, *L and *O are, and a product has an element before the *"),
    }
}

/// What is left out of this language and begins with an element, or behind its equals sign; none where nothing is.
fn left_out_fault<'a>(flagged: &FlaggedStatement<'a>, given: Part<'a>) -> Option<Found<'a>> {
    let is_literal = matches!(given.text.first(), Some(b'='));
    let count = usize::from(is_literal);
    let part = Part {
        start: given.start.saturating_add(count),
        text: behind(given.text, count),
    };
    if let Some(number) = signed_scale(flagged.statement.variable, part) {
        let says = " has a scale with a sign, which is left out of this language";
        return Some(Found::about(number, says));
    }
    let is_symbol = !is_literal && flagged.first_card(part.text).is_some();
    if is_symbol && flagged.statement.operation != Operation::Data {
        return None;
    }
    Some(Found::about(delimited_item(flagged, part)?, DELIMITED))
}

/// What is wrong with an element that is there; none where nothing is.
fn element_fault<'a>(flagged: &FlaggedStatement<'a>, part: Part<'a>) -> Option<Found<'a>> {
    if let Some(found) = left_out_fault(flagged, part) {
        return Some(found);
    }
    let says = match part.text.split_first() {
        Some((b'=', literal)) => literal_fault(flagged, literal)?,
        Some((b'*', _)) => counter_fault(part.text)?,
        Some((b'$', _)) => " is left out of this language",
        Some((first, _)) if is_digit(*first) => {
            literal_number_fault(flagged.values.base, part.text)?
        }
        _ => return name_fault(flagged, part),
    };
    Some(Found::about(part, says))
}

/// What is wrong with an element that is no number; none where nothing is.
fn name_fault<'a>(flagged: &FlaggedStatement<'a>, part: Part<'a>) -> Option<Found<'a>> {
    if is_register(part.text) {
        let takes_registers = flagged.statement.operation.is_instruction()
            && flagged.kind() != DeckKind::Periph;
        if takes_registers {
            return None;
        }
        return Some(Found::about(part, " is a register, and none may stand here"));
    }
    if !is_symbol(part.text) {
        let fault = symbol_fault(part.text);
        return Some(Found::about(part, fault.says).behind(fault.start));
    }
    if flagged.statement.operation == Operation::Data {
        let says = if is_fraction(part.text) {
            FLOATING
        } else {
            " is a symbol, and DATA takes numbers and counted items; CON takes symbols"
        };
        return Some(Found::about(part, says));
    }
    None
}

/// What is wrong where an element is missing; none where that is lawful.
fn missing_fault<'a>(element: ElementText<'a>, is_vfd: bool) -> Option<Found<'a>> {
    if element.before == b',' || is_vfd && element.is_behind_width() {
        return None;
    }
    let mark = Part {
        start: element.start.saturating_sub(1),
        text: mark_text(element.before),
    };
    Some(Found::about(mark, " has nothing behind it"))
}

/// A mark as a text.
fn mark_text(mark: u8) -> &'static [u8] {
    match mark {
        b'+' => b"+",
        b'-' => b"-",
        b'*' => b"*",
        _ => b"/",
    }
}

/// What is wrong with an element; none where nothing is.
fn fault_at<'a>(flagged: &FlaggedStatement<'a>, element: ElementText<'a>) -> Option<Found<'a>> {
    if element.text.is_empty() {
        missing_fault(element, flagged.statement.operation == Operation::Vfd)
    } else {
        element_fault(flagged, element.part())
    }
}

/// The first element of the field that is wrong by itself.
fn first_fault<'a>(flagged: &FlaggedStatement<'a>) -> Option<Found<'a>> {
    let mut elements = Elements::new(flagged.statement.variable);
    for _ in 0..MOST_CHARACTERS {
        if let Some(found) = fault_at(flagged, elements.next()?) {
            return Some(found);
        }
    }
    None
}

/// What is wrong with the width of a field of VFD; none where nothing is.
fn width_fault<'a>(flagged: &FlaggedStatement<'a>, part: Part<'a>) -> Option<Found<'a>> {
    if part.text.is_empty() {
        return Some(Found::about(part, "an empty subfield, where n/e is wanted"));
    }
    let width = match part.text.iter().position(|character| *character == b'/') {
        Some(place) if place > 0 => Part {
            start: part.start,
            text: part.text.split_at(place.min(part.text.len())).0,
        },
        _ => return Some(Found::about(part, " has no width: VFD takes n/e, with n from 1 to 60")),
    };
    if !is_unsigned(width.text) {
        let says = " is a width that is no number, which is left out of this language";
        return Some(Found::about(width, says));
    }
    match flagged.values.of_text(width.text) {
        Ok(form) if form.number() >= 1 && form.number() <= 60 => None,
        _ => Some(Found::about(width, " is no width: it is a number from 1 to 60")),
    }
}

/// The first field of a VFD whose width is wrong.
fn first_width<'a>(flagged: &FlaggedStatement<'a>) -> Option<Found<'a>> {
    let mut parts = Parts::new(flagged.statement.variable);
    for _ in 0..MOST_CHARACTERS {
        if let Some(found) = width_fault(flagged, parts.next()?) {
            return Some(found);
        }
    }
    None
}

/// What is said of a symbol that stands where a register is wanted; none of one that is no such.
fn no_register(flagged: &FlaggedStatement<'_>, name: &[u8]) -> Option<&'static str> {
    if is_beyond_registers(name) {
        Some(" is a symbol: registers have 0 to 7")
    } else if may_be_register(flagged, name) {
        Some(WITH_PERIOD)
    } else {
        None
    }
}

/// The first symbol that would be a register with another digit, or without a period.
fn beyond_registers<'a>(flagged: &FlaggedStatement<'a>) -> Option<Found<'a>> {
    let mut elements = Elements::new(flagged.statement.variable);
    for _ in 0..MOST_CHARACTERS {
        let element = elements.next()?;
        if let Some(says) = no_register(flagged, element.text) {
            return Some(Found::about(element.part(), says));
        }
    }
    None
}

/// The first name of an ENTRY or EXT that is none.
fn bad_name<'a>(field: &'a [u8]) -> Option<Found<'a>> {
    let mut parts = Parts::new(field);
    for _ in 0..MOST_CHARACTERS {
        let part = parts.next()?;
        if part.text.is_empty() {
            return Some(Found::about(part, "an empty subfield, where a name is wanted"));
        }
        if !is_symbol(part.text) {
            let fault = symbol_fault(part.text);
            return Some(Found::about(part, fault.says).behind(fault.start));
        }
        if part.text.len() > 7 {
            return Some(Found::about(
                part,
                " has more than the 7 characters of a name that decks share",
            ));
        }
    }
    None
}

/// What is wrong with the field of a BASE.
fn base_fault(field: &[u8]) -> &'static str {
    if is_same_text(field, b"M") || is_same_text(field, b"*") {
        " takes O or D; M and * are left out of this language"
    } else {
        " takes O or D"
    }
}

/// What is wrong with the field of a DIS that has no count of words; none where it has one.
fn text_fault<'a>(flagged: &FlaggedStatement<'a>) -> Option<Found<'a>> {
    match flagged.statement.variable {
        [b',', ..] | [b'0', b',', ..] => {
            let says = " has its text between delimiters, which is left out of this language";
            Some(flagged.of_operation(says).in_variable(0))
        }
        _ => None,
    }
}

/// What the operation takes, shown at its field, or at the operation where it has none.
fn form_fault<'a>(flagged: &FlaggedStatement<'a>) -> Found<'a> {
    let statement = &flagged.statement;
    let says = form_of(flagged.kind(), statement.operation, statement.name);
    let found = flagged.of_operation(says);
    if statement.variable.is_empty() {
        found
    } else {
        found.in_variable(0)
    }
}

/// The first thing that is wrong in a field of expressions, of a VFD, or of DATA.
fn expression_fault<'a>(flagged: &FlaggedStatement<'a>) -> Option<Found<'a>> {
    if flagged.statement.operation == Operation::Vfd {
        if let Some(found) = first_width(flagged) {
            return Some(found);
        }
    }
    first_fault(flagged)
}

/// What is wrong with a field of an operation that reads one; none where it is the form alone.
fn field_fault<'a>(flagged: &FlaggedStatement<'a>) -> Option<Found<'a>> {
    let field = flagged.statement.variable;
    match flagged.statement.operation {
        Operation::Base => Some(flagged.of_operation(base_fault(field)).in_variable(0)),
        Operation::Use => None,
        Operation::Dis => text_fault(flagged),
        Operation::Entry | Operation::Ext => bad_name(field),
        Operation::Instruction => match expression_fault(flagged) {
            Some(found) => Some(found),
            None => beyond_registers(flagged),
        },
        _ => expression_fault(flagged),
    }
}

/// Why a variable field is not one that the statement has.
pub(crate) fn operand_words<'a>(flagged: &FlaggedStatement<'a>) -> Found<'a> {
    if flagged.statement.variable.is_empty() {
        if flagged.has_commentary() {
            return flagged.of_operation(
                " has no variable field: behind column 29 all is commentary",
            );
        }
        return form_fault(flagged);
    }
    match field_fault(flagged) {
        Some(found) => found,
        None => form_fault(flagged),
    }
}
