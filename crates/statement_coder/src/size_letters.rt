//! The letters of a statement that are known without later statements (COMPASS 60492600, error flags).
ghost use Rattle.std.specs.Prelude.{◌≡◌, ◌++◌, ◌∷◌, [], true, List, Option, is_some, IfOk, OnErr, if◌then◌else◌};
ghost use Rattle.definitions.specs.Forms as forms;
ghost use Rattle.definitions.specs.Letters.{in_order};
ghost use Rattle.definitions.specs.Operands as operands;
ghost use Rattle.definitions.specs.Settling.{letter_where, location_letters, operand_letters};
ghost use Rattle.definitions.specs.Operations as op;
ghost use Rattle.definitions.specs.Places.{is_bad};
ghost use Rattle.definitions.specs.declared.deck_kind.DeckKind.TheVariants as kinds;
ghost use Rattle.definitions.specs.declared.letter.Letter as marks;
ghost use Rattle.definitions.specs.declared.letter.Letter.TheVariants as letter;
ghost use Rattle.operations.specs.Joins.OperationsAs.{operation_as};
ghost use Rattle.statement_coder.specs.Joins.LettersAs.{letters_as};
ghost use Rattle.statement_coder.specs.Joins.Readings.{IsReading, has_names};
ghost use Rattle.statement_coder.specs.Joins.Sizings.{refused_as};

use crate::block_changes::is_refused;
use crate::early_values::EarlySymbols;
use crate::externals::external_letters;
use crate::location_field::{letter_where, location_letter};
use crate::readings::Reading;
use crate::sizes::is_bad;
use crate::statement::Statement;
use definitions::{DeckKind, Letter};
use operations::{Letters, Operation};
use std::alloc::{AllocError, Global};
use std::hash::RandomState;
use use_blocks::BlockState;

/// The letters of a set and one more, if there is one.
pub(crate) fn with_letter(letters: &Letters, letter: Option<Letter>) -> Letters
    ensures { (so_far : List marks.Letter) → letters.now ≡ in_order so_far → result ≡ in_order (so_far ++ letters_as letter) }
{
    match letter {
        Some(letter) => letters.with(letter),
        None => letters.copied(),
    }
}

/// V of a bad operand.
fn bad_letters(reading: &Reading<'_>) -> Letters
    ensures { (operand : operands.Operand) → IsReading reading.now operand → result ≡ in_order (letter_where (is_bad operand) letter.V) }
{
    if is_bad(reading) {
        Letters::of(Letter::V)
    } else {
        Letters::none()
    }
}

/// The letters of the names of an EXT in a REL deck, which alone take memory; V of any other operand
/// that is bad.
fn names_letters<S: EarlySymbols>(
    alloc: Global,
    keys: RandomState,
    symbols: &S,
    reading: &Reading<'_>,
) -> Result<Letters, AllocError>
    ensures letters { IfOk result (λ letters. (operand : operands.Operand) → IsReading reading.now operand → letters ≡ in_order (operand_letters kinds.Rel op.Ext operand (S.view symbols.now))) }
    ensures names { OnErr result (has_names reading.now ≡ true) }
{
    match reading {
        Reading::Names(names) => external_letters(alloc, keys, symbols, names),
        _ => Ok(bad_letters(reading)),
    }
}

/// The letters of an EXT; its names alone take memory.
fn ext_letters<S: EarlySymbols>(
    alloc: Global,
    keys: RandomState,
    kind: DeckKind,
    symbols: &S,
    reading: &Reading<'_>,
) -> Result<Letters, AllocError>
    ensures letters { IfOk result (λ letters. (operand : operands.Operand) → IsReading reading.now operand → letters ≡ in_order (operand_letters kind op.Ext operand (S.view symbols.now))) }
    ensures names { OnErr result (has_names reading.now ≡ true) }
{
    match kind {
        DeckKind::Rel => names_letters(alloc, keys, symbols, reading),
        _ => Ok(bad_letters(reading)),
    }
}

/// The letters of an operand; the names of an EXT alone take memory.
pub(crate) fn found_letters<S: EarlySymbols>(
    alloc: Global,
    keys: RandomState,
    statement: &Statement<'_>,
    symbols: &S,
    reading: &Reading<'_>,
) -> Result<Letters, AllocError>
    ensures letters { IfOk result (λ letters. (operand : operands.Operand) → IsReading reading.now operand →
        letters ≡ in_order (operand_letters statement.now.kind (operation_as statement.now.operation) operand (S.view symbols.now))) }
    ensures names { OnErr result ((operation_as statement.now.operation ≡ op.Ext) × (has_names reading.now ≡ true)) }
{
    match statement.operation {
        Operation::Ext => ext_letters(alloc, keys, statement.kind, symbols, reading),
        _ => Ok(bad_letters(reading)),
    }
}

/// O alone of a refused statement, and else the letters of its operand and of its outcome.
#[inline(always)]
fn variable_letters(
    statement: &Statement<'_>,
    reading: &Reading<'_>,
    state: &BlockState,
    of_operand: &Letters,
    outcome: Option<Letter>,
) -> Letters
    ensures { (operand : operands.Operand) (letters : List marks.Letter) → IsReading reading.now operand → of_operand.now ≡ in_order letters →
        result ≡ in_order (if refused_as statement.now operand state.now then letter.O ∷ []
        else letters ++ letters_as outcome) }
{
    if is_refused(statement, reading, state) {
        Letters::of(Letter::O)
    } else {
        with_letter(of_operand, outcome)
    }
}

/// The letters of a statement that are known without later statements, where those of its operand are, and
/// whether its symbol is defined before.
#[inline(always)]
pub(crate) fn size_letters(
    statement: &Statement<'_>,
    is_defined: bool,
    reading: &Reading<'_>,
    state: &BlockState,
    of_operand: &Letters,
    outcome: Option<Letter>,
) -> Letters
    ensures { (operand : operands.Operand) (letters : List marks.Letter) (before : Option forms.Form) → IsReading reading.now operand → of_operand.now ≡ in_order letters → is_some before ≡ is_defined →
        result ≡ in_order (letter_where statement.now.is_stray letter.C
        ++ (location_letters statement.now.kind (operation_as statement.now.operation) statement.now.location.now before
        ++ (if refused_as statement.now operand state.now then letter.O ∷ []
        else letters ++ letters_as outcome))) }
{
    let stray = with_letter(
        &Letters::none(),
        letter_where(statement.is_stray, Letter::C),
    );
    let place = location_letter(
        statement.kind,
        statement.operation,
        statement.location,
        is_defined,
    );
    let location = with_letter(&Letters::none(), place);
    let variable = variable_letters(statement, reading, state, of_operand, outcome);
    stray.union(&location.union(&variable))
}
