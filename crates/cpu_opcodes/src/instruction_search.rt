//! The instruction of an operation and its operand.
ghost use Rattle.std.specs.Prelude.{◌≡◌, ◌≤◌, List, IsTrue, true, map, is_some, option_and_then, IfSome, IfOk, IfErr, None, if◌then◌else◌};
ghost use Rattle.std.specs.List.{list_any};
ghost use Rattle.definitions.specs.Pieces.{Piece};
ghost use Rattle.definitions.specs.CentralTable as table;
ghost use Rattle.definitions.specs.Operations.{is_central};
ghost use Rattle.definitions.specs.Matching.{is_operation, ignoring_fit, rows_for, first_fit, central_of};
ghost use Rattle.definitions.specs.declared.number_base.NumberBase.{NumberBase};
ghost use Rattle.definitions.specs.declared.letter.Letter.TheVariants as letters;
ghost use Rattle.expr_forms.specs.Joins.Operands.{IsOperand};
ghost use Rattle.expr_forms.specs.Joins.Shapes.{instruction_as};

use crate::central_fits::central_fit;
use crate::found::{CentralField, Found};
use crate::registers_found::RegistersFound;
use crate::shapes::shape_of;
use crate::sum_fits::sum_fit;
use crate::tables::{central_rows, ignoring_rows, is_central, is_ignoring, sum_rows};
use definitions::Letter;
use expr_forms::{Operand, Shape};

/// The instruction of the first row that has an operation and ignores its operand.
fn ignoring_fit<'a>(operation: &[u8]) -> Option<Shape<'a>>
    ensures rows { is_some result ≡ list_any (λ (row : table.Row). is_operation row.operation operation.now) table.ignoring_rows }
    ensures fits { option_and_then instruction_as result ≡ first_fit (map ignoring_fit (rows_for operation.now table.ignoring_rows)) }
    ensures central { IfSome result (λ shape. IsTrue (is_some (instruction_as shape))) }
    ensures short { IfSome result (λ shape. shape.digit_count ≤ 10) }
{
    match ignoring_rows(operation) {
        [] => None,
        [row, ..] => {
            let found: Found<'a, 'a> = Found {
                registers: RegistersFound { i: 0, j: 0, k: 0 },
                field: CentralField::Absent,
            };
            Some(shape_of(row.form, found))
        }
    }
}

/// The instruction of PS or NO, whose operand is not read; none of every other operation (COMPASS
/// 60492600, CPU instructions).
pub fn ignoring<'a>(operation: &[u8]) -> Option<Shape<'a>>
    ensures rows { is_some result ≡ list_any (λ (row : table.Row). is_operation row.operation operation.now) table.ignoring_rows }
    ensures instruction { IfSome result (λ shape. (base : NumberBase) (subfields : List (List Piece)) → central_of base operation.now subfields ≡ instruction_as shape) }
    ensures central { IfSome result (λ shape. IsTrue (is_some (instruction_as shape))) }
    ensures short { IfSome result (λ shape. shape.digit_count ≤ 10) }
{
    ignoring_fit(operation)
}

/// The same as `find` answers it.
#[inline(never)]
fn found_ignoring<'a>(operation: &[u8]) -> Result<Shape<'a>, Letter>
    requires { list_any (λ (row : table.Row). is_operation row.operation operation.now) table.ignoring_rows ≡ true }
    ensures found { IfOk result (λ shape. (base : NumberBase) (subfields : List (List Piece)) → central_of base operation.now subfields ≡ instruction_as shape) }
    ensures never { IfErr result (λ letter. ⊥) }
    ensures central { IfOk result (λ shape. IsTrue (is_some (instruction_as shape))) }
    ensures short { IfOk result (λ shape. shape.digit_count ≤ 10) }
{
    match ignoring(operation) {
        Some(shape) => Ok(shape),
        None => unreachable!(),
    }
}

/// V of an operation that has rows, O of one that has none.
#[inline(never)]
fn letter_of(operation: &[u8]) -> Letter
    ensures { result ≡ (if is_central operation.now then letters.V else letters.O) }
{
    if is_central(operation) {
        Letter::V
    } else {
        Letter::O
    }
}

/// The instruction of an operation and its operand (COMPASS 60492600, CPU instructions): O where no
/// row has the operation, V where its rows do not take the operand. PS and NO take every operand.
///
/// The characters of an operation show its rows, or that no table has it. Then the operand is compared
/// with these rows alone, in the order of the definitions. Where none fits, the operation is looked up
/// once more, to tell V from O.
pub fn find<'a>(operation: &[u8], operand: &Operand<'a>) -> Result<Shape<'a>, Letter>
    ensures found { IfOk result (λ shape. (base : NumberBase) (subfields : List (List Piece)) → IsOperand base subfields operand.now →
        central_of base operation.now subfields ≡ instruction_as shape) }
    ensures refused { IfErr result (λ letter. (base : NumberBase) (subfields : List (List Piece)) → IsOperand base subfields operand.now →
        central_of base operation.now subfields ≡ None) }
    ensures letter { IfErr result (λ letter. letter ≡ (if is_central operation.now then letters.V else letters.O)) }
    ensures central { IfOk result (λ shape. IsTrue (is_some (instruction_as shape))) }
    ensures short { IfOk result (λ shape. shape.digit_count ≤ 10) }
{
    if is_ignoring(operation) {
        return found_ignoring(operation);
    }
    if let Some(shape) = sum_fit(operation, sum_rows(operation), operand) {
        return Ok(shape);
    }
    match central_fit(operation, central_rows(operation), operand) {
        Some(fitted) => Ok(shape_of(fitted.code, fitted.found)),
        None => Err(letter_of(operation)),
    }
}
