//! A sum against the rows of an operation whose operand is a sum.
ghost use Rattle.std.specs.Prelude.{◌≡◌, ◌≤◌, ℕ, List, Some, option_map, option_and_then, IsTrue, map, is_some, IfSome};
ghost use Rattle.std.specs.List.{list_all};
ghost use Rattle.definitions.specs.Pieces.{Piece};
ghost use Rattle.definitions.specs.CentralTable as table;
ghost use Rattle.definitions.specs.Matching as matching;
ghost use Rattle.definitions.specs.Matching.{sum_read, single, sum_rows_for};
ghost use Rattle.definitions.specs.declared.number_base.NumberBase.{NumberBase};
ghost use Rattle.cpu_opcodes.specs.declared.code.Row.{Row};
ghost use Rattle.expr_forms.specs.Joins.Operands.{IsOperand};
ghost use Rattle.expr_forms.specs.Joins.Shapes.{instruction_as};
ghost use Rattle.expr_forms.specs.Joins.Sums.{IsSum, AreRegisters, field_of};
ghost use Rattle.cpu_opcodes.specs.declared.code.SumForm.{SumForm};
ghost use Rattle.cpu_opcodes.specs.Joins.RegistersFound.{digits_as};
ghost use Rattle.cpu_opcodes.specs.Joins.CodeTexts.{registers_text, code_text_or_none};
ghost use Rattle.cpu_opcodes.specs.Joins.CentralTables.{sum_row, sum_rows_of};
ghost use Rattle.cpu_opcodes.specs.Joins.LawfulCodes.{is_lawful_or_none, has_lawful_codes};
ghost use Rattle.cpu_opcodes.specs.Joins.Found.{fitted_as};
ghost use Rattle.cpu_opcodes.specs.Joins.Fits.{sum_fit_with, form_fit};

use crate::code::{Row, SumForm};
use crate::found::{CentralField, Fitted, Found};
use crate::patterns::SumPattern;
use crate::registers_found::RegistersFound;
use crate::shapes::{fitted_with, shape_of};
use crate::tables::has_rows;
use crate::text_match::{matched, named_registers};
use expr_forms::{Expr, Operand, Shape, Sum, SumRegisters};

/// The digits of the registers of a sum, if they fit a pattern.
fn registers_fit(
    pattern: SumPattern,
    registers: &SumRegisters,
    found: RegistersFound,
) -> Option<RegistersFound>
    ensures { (text : List ℕ) → AreRegisters registers.now text → option_map digits_as result ≡ matching.matched (registers_text pattern) text (digits_as found) }
{
    match registers {
        SumRegisters::TooMany => None,
        SumRegisters::Text(text) => matched(pattern.text(), text.as_slice(), found),
    }
}

/// The code of a form with K, or without it where there are no other terms.
fn form_fit<'e, 'a>(
    form: SumForm,
    registers: RegistersFound,
    others: &'e Option<Expr<'a>>,
) -> Option<Fitted<'e, 'a>>
    requires with_k { IsTrue (is_lawful_or_none form.with_k) }
    requires alone { IsTrue (is_lawful_or_none form.alone) }
    ensures { fitted_as result ≡ form_fit (code_text_or_none form.with_k) (code_text_or_none form.alone) (digits_as registers) (field_of others.now) }
{
    match others {
        None => {
            let found = Found {
                registers,
                field: CentralField::Absent,
            };
            fitted_with(form.alone, found)
        }
        Some(expression) => {
            if expression.is_plain(true) {
                fitted_with(
                    form.with_k,
                    Found {
                        registers,
                        field: CentralField::Address(expression),
                    },
                )
            } else {
                None
            }
        }
    }
}

/// What a sum gives with a code of a row, if the sum fits it.
fn row_fit<'e, 'a>(
    row: &Row<SumForm>,
    sum: &'e Sum<'a>,
    registers: RegistersFound,
) -> Option<Fitted<'e, 'a>>
    requires { IsTrue (has_lawful_codes row.now) }
    ensures { (of : matching.Sum) → IsSum sum.now of → fitted_as result ≡ sum_fit_with (digits_as registers) (Some of) (sum_row row.now) }
{
    match registers_fit(row.form.registers, &sum.registers, registers) {
        Some(found) => form_fit(row.form, found, &sum.others),
        None => None,
    }
}

/// What a sum gives with a code of the first row that it fits.
fn first_fit<'e, 'a>(
    rows: &[Row<SumForm>],
    sum: &'e Sum<'a>,
    registers: RegistersFound,
) -> Option<Fitted<'e, 'a>>
    requires { IsTrue (list_all has_lawful_codes rows.now) }
    ensures { (of : matching.Sum) → IsSum sum.now of →
        fitted_as result ≡ matching.first_fit (map (λ (row : Row SumForm). sum_fit_with (digits_as registers) (Some of) (sum_row row)) rows.now) }
{
    let mut rest = rows;
    'rows: loop {
        let (row, behind) = rest.split_first()?;
        if let Some(fitted) = row_fit(row, sum, registers) {
            return Some(fitted);
        }
        rest = behind;
    }
}

/// The instruction of an operation with these rows whose operand is one sum.
fn one_fit<'a>(operation: &[u8], rows: &[Row<SumForm>], expression: &Expr<'a>) -> Option<Shape<'a>>
    requires rows { map sum_row rows.now ≡ sum_rows_of operation.now }
    requires lawful { IsTrue (list_all has_lawful_codes rows.now) }
    ensures instruction { option_and_then instruction_as result ≡ matching.first_fit (map (matching.sum_fit operation.now (sum_read (Some expression.now))) (sum_rows_for operation.now table.sum_rows)) }
    ensures central { IfSome result (λ shape. IsTrue (is_some (instruction_as shape))) }
    ensures short { IfSome result (λ shape. shape.digit_count ≤ 10) }
{
    if has_rows(rows) {
        let sum = expression.take_apart();
        match first_fit(rows, &sum, named_registers(operation)) {
            Some(fitted) => Some(shape_of(fitted.code, fitted.found)),
            None => None,
        }
    } else {
        None
    }
}

/// The instruction of an operation by its rows whose operand is a sum: only JP, and what sets a
/// register, asks for the sum, and of the set instructions the fourteenth row at most decides.
pub(crate) fn sum_fit<'a>(
    operation: &[u8],
    rows: &[Row<SumForm>],
    operand: &Operand<'a>,
) -> Option<Shape<'a>>
    requires rows { map sum_row rows.now ≡ sum_rows_of operation.now }
    requires lawful { IsTrue (list_all has_lawful_codes rows.now) }
    ensures instruction { (base : NumberBase) (subfields : List (List Piece)) → IsOperand base subfields operand.now →
        option_and_then instruction_as result ≡ matching.first_fit (map (matching.sum_fit operation.now (sum_read (single base subfields))) (sum_rows_for operation.now table.sum_rows)) }
    ensures central { IfSome result (λ shape. IsTrue (is_some (instruction_as shape))) }
    ensures short { IfSome result (λ shape. shape.digit_count ≤ 10) }
{
    match operand {
        Operand::One(subfield) => one_fit(operation, rows, &subfield.expression),
        Operand::Two(_, _, _) => None,
        Operand::Three(_, _, _) => None,
    }
}
