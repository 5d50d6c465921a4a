//! R and Z: the relative value that may not stand where it does, and the divisor that is zero.

use crate::elements::{ElementText, Elements, MOST_CHARACTERS, Part, Parts};
use crate::flagged_statement::{FlaggedStatement, Found, Place};
use crate::seen_values::FaultLetter;
use crate::words::Words;
use definitions::DeckKind;
use expr_forms::{Form, Part as FormPart, Relocation};
use operations::Operation;

/// Whether an element is a factor or a divisor.
fn is_in_product(flagged: &FlaggedStatement<'_>, element: &ElementText<'_>) -> bool {
    let is_vfd = flagged.statement.operation == Operation::Vfd;
    match element.before {
        b'*' => true,
        b'/' => !(is_vfd && element.is_behind_width()),
        _ => false,
    }
}

/// Whether a text has a value that is relative.
fn is_relative(flagged: &FlaggedStatement<'_>, text: &[u8]) -> bool {
    match flagged.values.of_text(text) {
        Ok(form) => !form.is_absolute(),
        Err(_) => false,
    }
}

/// The element before another one.
fn earlier_part<'a>(element: &ElementText<'a>) -> Part<'a> {
    let len = element.earlier.len().saturating_add(1);
    Part {
        start: element.start.saturating_sub(len),
        text: element.earlier,
    }
}

/// A factor that is relative, if an element or the one before it is.
fn product_fault<'a>(
    flagged: &FlaggedStatement<'a>,
    element: &ElementText<'a>,
) -> Option<Found<'a>> {
    if !is_in_product(flagged, element) {
        return None;
    }
    let says = " is relative, and products and quotients take plain numbers";
    if is_relative(flagged, element.earlier) {
        return Some(Found::about(earlier_part(element), says));
    }
    if is_relative(flagged, element.text) {
        return Some(Found::about(element.part(), says));
    }
    None
}

/// The first factor that is relative.
fn first_product<'a>(flagged: &FlaggedStatement<'a>) -> Option<Found<'a>> {
    let mut elements = Elements::new(flagged.statement.variable);
    for _ in 0..MOST_CHARACTERS {
        if let Some(found) = product_fault(flagged, &elements.next()?) {
            return Some(found);
        }
    }
    None
}

/// What a subfield is worth, without the width of a VFD.
fn value_part<'a>(flagged: &FlaggedStatement<'a>, part: Part<'a>) -> Part<'a> {
    if flagged.statement.operation != Operation::Vfd {
        return part;
    }
    match part.text.iter().position(|character| *character == b'/') {
        Some(place) => {
            let count = place.saturating_add(1).min(part.text.len());
            Part {
                start: part.start.saturating_add(count),
                text: part.text.split_at(count).1,
            }
        }
        None => part,
    }
}

/// Whether the value of ENTRY is none that may be entered.
fn is_not_entered(form: Form) -> bool {
    match form.part() {
        None | Some(FormPart::Added(Relocation::Block(_))) => false,
        Some(FormPart::Added(Relocation::External(_)) | FormPart::Subtracted(_)) => true,
    }
}

/// What is said of a relative value in an instruction.
fn instruction_says(name: &[u8]) -> &'static str {
    match name {
        [b'L' | b'A' | b'M', b'X', _] => " is relative, and a count is a plain number",
        _ => " is relative to more than one thing",
    }
}

/// What is said of an address that ORG does not take.
fn address_says(kind: DeckKind, form: Form) -> &'static str {
    match (kind, form.part()) {
        (DeckKind::Rel, None) => {
            " is an absolute address in a REL deck, which is left out of this language"
        }
        (_, None | Some(FormPart::Added(Relocation::Block(_)))) => {
            " is an address in another block, which is left out of this language"
        }
        _ => " is no address in the block that is in use",
    }
}

/// What is said of a relative value by itself.
fn relative_fault<'a>(flagged: &FlaggedStatement<'a>, form: Form) -> Option<&'static str> {
    if form.is_absolute() && flagged.statement.operation != Operation::Org {
        return None;
    }
    match flagged.statement.operation {
        Operation::Entry => {
            if is_not_entered(form) {
                Some(" is an external, or relative with minus, and can't be entered")
            } else {
                None
            }
        }
        Operation::Bss | Operation::Bssz => Some(
            " is relative, and a count of words is a plain number",
        ),
        Operation::Org => Some(address_says(flagged.kind(), form)),
        Operation::Loc => Some(
            " is relative to an external or with minus; LOC takes a number or an address",
        ),
        Operation::Instruction => Some(instruction_says(flagged.statement.name)),
        _ => Some(" is relative, and needs a field of 18 bits"),
    }
}

/// What is wrong with a subfield; none where nothing is.
fn subfield_fault<'a>(flagged: &FlaggedStatement<'a>, given: Part<'a>) -> Option<Found<'a>> {
    let part = value_part(flagged, given);
    if flagged.values.has_letter(part.text, FaultLetter::R) {
        return Some(Found::about(part, " is relative to more than one thing"));
    }
    match flagged.values.of_text(part.text) {
        Ok(form) => Some(Found::about(part, relative_fault(flagged, form)?)),
        Err(_) => None,
    }
}

/// The first subfield that is relative where it may not be.
fn first_subfield<'a>(flagged: &FlaggedStatement<'a>) -> Option<Found<'a>> {
    let mut parts = Parts::new(flagged.statement.variable);
    for _ in 0..MOST_CHARACTERS {
        if let Some(found) = subfield_fault(flagged, parts.next()?) {
            return Some(found);
        }
    }
    None
}

/// The relative value that may not stand where it does.
pub(crate) fn relative_words<'a>(flagged: &FlaggedStatement<'a>) -> Found<'a> {
    if let Some(found) = first_product(flagged) {
        return found;
    }
    match first_subfield(flagged) {
        Some(found) => found,
        None => flagged.of_operation(" has a relative value where none may be"),
    }
}

/// A divisor that is zero, if an element is one.
fn divisor_fault<'a>(
    flagged: &FlaggedStatement<'a>,
    element: &ElementText<'a>,
) -> Option<Found<'a>> {
    if element.before != b'/' || !is_in_product(flagged, element) {
        return None;
    }
    match flagged.values.of_text(element.text) {
        Ok(form) if form.is_absolute() && form.number() == 0 => {
            Some(Found::about(element.part(), ": division by zero"))
        }
        _ => None,
    }
}

/// The first divisor that is zero.
pub(crate) fn divisor_words<'a>(flagged: &FlaggedStatement<'a>) -> Found<'a> {
    let mut elements = Elements::new(flagged.statement.variable);
    for _ in 0..MOST_CHARACTERS {
        let Some(element) = elements.next() else {
            break;
        };
        if let Some(found) = divisor_fault(flagged, &element) {
            return found;
        }
    }
    Found {
        place: Place::Variable(0),
        words: Words::Says("division by zero"),
    }
}
