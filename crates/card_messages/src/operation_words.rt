//! O: what is wrong with the operation, or with the block of a USE.

use crate::flagged_statement::{FlaggedStatement, Found, Place};
use crate::left_out::is_left_out;
use crate::near_names::{is_operation, nearest};
use crate::words::{Shown, Words};
use definitions::{DeckKind, is_same_text};
use expr_forms::is_symbol;
use operations::Operation;

/// How many characters a name has at most that decks share.
const MOST_SHARED: usize = 7;

/// What is said of an instruction of the other processor; none where it is none.
fn other_processor(kind: DeckKind, name: &[u8]) -> Option<&'static str> {
    match kind {
        DeckKind::Periph if cpu_opcodes::is_central(name) => {
            Some(" is a central instruction, and this deck is PERIPH")
        }
        DeckKind::Rel if ppu_opcodes::is_peripheral(name) => {
            Some(" is a peripheral instruction, and this deck is REL")
        }
        DeckKind::Abs if ppu_opcodes::is_peripheral(name) => {
            Some(" is a peripheral instruction, and this deck is ABS")
        }
        _ => None,
    }
}

/// What is said of a name that is no operation of the deck.
fn unknown_words<'a>(flagged: &FlaggedStatement<'a>) -> Words<'a> {
    let kind = flagged.kind();
    let name = flagged.statement.name;
    let text = flagged.name();
    if is_left_out(name) {
        return Words::Of(text, " is left out of this language");
    }
    if let Some(says) = other_processor(kind, name) {
        return Words::Of(text, says);
    }
    if is_operation(kind, flagged.statement.variable) {
        let says = " is no operation; a location field begins in column 1 or 2";
        return Words::Of(text, says);
    }
    match nearest(kind, name) {
        Some(near) => Words::Near(text, near),
        None => Words::Of(text, " is no operation"),
    }
}

/// What is said of a location field with no operation.
fn lone_words<'a>(flagged: &FlaggedStatement<'a>) -> Found<'a> {
    let text = Shown {
        text: flagged.statement.location,
    };
    let says = if flagged.has_late_operation() {
        " stands without an operation: behind column 29 all is commentary"
    } else {
        " stands without an operation"
    };
    Found {
        place: Place::Location(0),
        words: Words::Of(text, says),
    }
}

/// Whether the field of a USE has the form of a common block.
fn is_common_name(field: &[u8]) -> bool {
    let Some((b'/', behind)) = field.split_first() else {
        return false;
    };
    let Some((b'/', name)) = behind.split_last() else {
        return false;
    };
    is_symbol(name) && name.len() <= MOST_SHARED
}

/// What is said of the field of a USE.
fn block_words(kind: DeckKind, field: &[u8]) -> &'static str {
    if !field.contains(&b'/') {
        return " would be the 65th block; a deck has 64";
    }
    if is_same_text(field, b"//") {
        return " is blank common, which is left out of this language";
    }
    match kind {
        DeckKind::Abs | DeckKind::Periph => { " is a common block, and REL decks alone have them" }
        DeckKind::Rel if is_common_name(field) => " would be the 65th block; a deck has 64",
        DeckKind::Rel => " names no common block: write /NAME/, of at most 7 characters",
    }
}

/// What is said of an operation that decks of this kind do not have.
fn kind_words(kind: DeckKind) -> &'static str {
    match kind {
        DeckKind::Periph => " stands in no PERIPH deck",
        DeckKind::Abs => " stands in no ABS deck",
        DeckKind::Rel => " stands in no REL deck",
    }
}

/// Why an operation is refused.
pub(crate) fn operation_words<'a>(flagged: &FlaggedStatement<'a>) -> Found<'a> {
    match flagged.statement.operation {
        Operation::EmptyField => lone_words(flagged),
        Operation::Kind(_) => flagged.of_operation(
            " stands too late: only IDENT, BASE, comments and what is listed may stand before it",
        ),
        Operation::Use => {
            let field = flagged.statement.variable;
            let words = Words::Of(Shown { text: field }, block_words(flagged.kind(), field));
            Found {
                place: Place::Variable(0),
                words,
            }
        }
        Operation::Entry | Operation::Ext => flagged.of_operation(kind_words(flagged.kind())),
        _ => Found {
            place: Place::Operation,
            words: unknown_words(flagged),
        },
    }
}
