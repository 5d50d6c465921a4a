//! What the location field of a statement says: its letters, and the symbol that it defines
//! (COMPASS 60492600, location field).
ghost use Rattle.std.specs.Prelude.{◌≡◌, Option, option_map, is_some};
ghost use Rattle.definitions.specs.Forms as forms;
ghost use Rattle.definitions.specs.Laws.Agreement.{own_symbols, defines_location};
ghost use Rattle.definitions.specs.Settling.{letter_where, is_plain_location, location_letters};
ghost use Rattle.operations.specs.Joins.OperationsAs.{operation_as};
ghost use Rattle.statement_coder.specs.Joins.LettersAs.{letters_as};

use crate::placing::allows_minus;
use definitions::{DeckKind, Letter, is_same_text};
use expr_forms::is_symbol;
use operations::Operation;

/// Whether a location field that is no symbol is lawful: nothing, `+`, or a `-` where that is.
fn is_plain_location(kind: DeckKind, operation: Operation, location: &[u8]) -> bool
    ensures { result ≡ is_plain_location kind (operation_as operation) location.now }
{
    location.is_empty()
        || is_same_text(location, b"+")
        || is_same_text(location, b"-") && allows_minus(kind, operation)
}

/// The letter, where it applies.
pub(crate) fn letter_where(applies: bool, letter: Letter) -> Option<Letter>
    ensures { letters_as result ≡ letter_where applies letter }
{
    if applies { Some(letter) } else { None }
}

/// Whether an operation defines the symbol of its location field, as a place or as a value.
pub(crate) fn defines_location(operation: Operation) -> bool
    ensures { result ≡ defines_location (operation_as operation) }
{
    matches!(operation, Operation::Equ) || operation.is_labelled()
}

/// The letter of a location field, whose symbol is defined before or not: L where it is not lawful,
/// D where its symbol is defined before.
#[inline(always)]
pub(crate) fn location_letter(
    kind: DeckKind,
    operation: Operation,
    location: &[u8],
    is_defined: bool,
) -> Option<Letter>
    ensures { (before : Option forms.Form) → is_some before ≡ is_defined →
        letters_as result ≡ location_letters kind (operation_as operation) location.now before }
{
    if !defines_location(operation) {
        return None;
    }
    if is_symbol(location) {
        return letter_where(is_defined, Letter::D);
    }
    if matches!(operation, Operation::Equ) {
        return Some(Letter::L);
    }
    letter_where(!is_plain_location(kind, operation, location), Letter::L)
}
