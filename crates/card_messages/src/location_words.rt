//! L: what is wrong with the location field.

use crate::flagged_statement::{FlaggedStatement, Found, Place};
use crate::symbol_words::symbol_fault;
use crate::words::{Shown, Words};
use definitions::is_same_text;
use operations::Operation;

/// Why the location field is bad.
pub(crate) fn location_words<'a>(flagged: &FlaggedStatement<'a>) -> Found<'a> {
    let location = flagged.statement.location;
    let is_equ = flagged.statement.operation == Operation::Equ;
    if location.is_empty() {
        return flagged.of_operation(" wants a symbol in the location field");
    }
    let text = Shown { text: location };
    if is_same_text(location, b"-") && !is_equ {
        let says = " would go on inside a word, which is left out of this language";
        return Found {
            place: Place::Location(0),
            words: Words::Of(text, says),
        };
    }
    let fault = symbol_fault(location);
    Found {
        place: Place::Location(fault.start),
        words: Words::Of(text, fault.says),
    }
}
