//! U: the symbol that has no definition, or none above.

use crate::elements::{Elements, MOST_CHARACTERS, Part};
use crate::flagged_statement::{FlaggedStatement, Found, Place};
use crate::left_out::{
    DELIMITED, WITH_PERIOD, delimited_item, is_fraction, is_register_with_period,
};
use crate::words::{Shown, Words};
use expr_forms::is_symbol;
use operations::Operation;

/// Whether an operation sees symbols of earlier statements alone.
fn looks_back(operation: Operation) -> bool {
    operation.is_reserving() || operation == Operation::Equ
}

/// What is said of a symbol that no card defines, which may be something that is left out of this language.
fn unknown_symbol<'a>(flagged: &FlaggedStatement<'a>, part: Part<'a>) -> Found<'a> {
    if let Some(item) = delimited_item(flagged, part) {
        return Found::about(item, DELIMITED);
    }
    let says = if is_register_with_period(flagged, part.text) {
        WITH_PERIOD
    } else if is_fraction(part.text) {
        " is not defined; as a floating constant it is left out of this language"
    } else {
        " is not defined"
    };
    Found::about(part, says)
}

/// What is said of an element, if it is a symbol that is not seen.
fn found_at<'a>(flagged: &FlaggedStatement<'a>, part: Part<'a>) -> Option<Found<'a>> {
    if !is_symbol(part.text) {
        return None;
    }
    match flagged.first_card(part.text) {
        None => Some(unknown_symbol(flagged, part)),
        Some(card) if card >= flagged.card && looks_back(flagged.statement.operation) => {
            let text = Shown { text: part.text };
            Some(Found {
                place: Place::Variable(part.start),
                words: Words::OfCard(text, " is not defined above; first on card ", card),
            })
        }
        Some(_) => None,
    }
}

/// The first symbol of the variable field that is not seen.
pub(crate) fn undefined_words<'a>(flagged: &FlaggedStatement<'a>) -> Found<'a> {
    let mut elements = Elements::new(flagged.statement.variable);
    for _ in 0..MOST_CHARACTERS {
        let Some(element) = elements.next() else {
            break;
        };
        if let Some(found) = found_at(flagged, element.part()) {
            return found;
        }
    }
    flagged.of_operation(" names a symbol that is not defined")
}
