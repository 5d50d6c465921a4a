//! D: the symbol that is defined before, and the card that defines it first.

use crate::elements::{MOST_CHARACTERS, Part, Parts};
use crate::flagged_statement::{FlaggedStatement, Found, Place};
use crate::words::{Shown, Words};
use definitions::is_same_text;
use operations::Operation;

/// What is said of a name that this card defines first.
fn again<'a>(place: Place, name: &'a [u8], card: u32) -> Found<'a> {
    let text = Shown { text: name };
    let words = Words::OfCard(text, " is defined already, first on card ", card);
    Found { place, words }
}

/// Whether a name is one of the subfields in front of a place.
fn stands_before(field: &[u8], name: &[u8], start: usize) -> bool {
    let mut parts = Parts::new(field);
    for _ in 0..MOST_CHARACTERS {
        match parts.next() {
            Some(part) if part.start < start => {
                if is_same_text(part.text, name) {
                    return true;
                }
            }
            _ => return false,
        }
    }
    false
}

/// A name of an EXT, if it is defined before.
fn external_again<'a>(flagged: &FlaggedStatement<'a>, part: Part<'a>) -> Option<Found<'a>> {
    let card = flagged.first_card(part.text)?;
    let is_again = card < flagged.card
        || stands_before(flagged.statement.variable, part.text, part.start);
    if is_again {
        Some(again(Place::Variable(part.start), part.text, card))
    } else {
        None
    }
}

/// The first name of an EXT that is defined before.
fn first_external<'a>(flagged: &FlaggedStatement<'a>) -> Option<Found<'a>> {
    let mut parts = Parts::new(flagged.statement.variable);
    for _ in 0..MOST_CHARACTERS {
        if let Some(found) = external_again(flagged, parts.next()?) {
            return Some(found);
        }
    }
    None
}

/// The symbol that a statement defines once more.
pub(crate) fn defined_twice<'a>(flagged: &FlaggedStatement<'a>) -> Found<'a> {
    if flagged.statement.operation == Operation::Ext {
        if let Some(found) = first_external(flagged) {
            return found;
        }
    }
    let name = flagged.statement.location;
    again(
        Place::Location(0),
        name,
        flagged.first_card(name).unwrap_or(0),
    )
}
