//! An operand against the rows of an operation whose operand is read subfield by subfield.
ghost use Rattle.std.specs.Prelude.{◌≡◌, List, IsTrue, map};
ghost use Rattle.std.specs.List.{list_all};
ghost use Rattle.definitions.specs.Pieces.{Piece};
ghost use Rattle.definitions.specs.CentralTable as table;
ghost use Rattle.definitions.specs.Matching.{first_fit, row_fit, rows_for};
ghost use Rattle.definitions.specs.declared.number_base.NumberBase.{NumberBase};
ghost use Rattle.cpu_opcodes.specs.declared.code.Row.{Row};
ghost use Rattle.expr_forms.specs.Joins.Operands.{IsOperand};
ghost use Rattle.cpu_opcodes.specs.declared.code.OperandForm.{OperandForm};
ghost use Rattle.cpu_opcodes.specs.Joins.RegistersFound.{digits_as};
ghost use Rattle.cpu_opcodes.specs.Joins.CentralTables.{operand_row, operand_rows_of};
ghost use Rattle.cpu_opcodes.specs.Joins.LawfulCodes.{has_lawful_code};
ghost use Rattle.cpu_opcodes.specs.Joins.Found.{fitted_as};
ghost use Rattle.cpu_opcodes.specs.Joins.Fits.{row_fit_with};

use crate::code::{OperandForm, Row};
use crate::found::Fitted;
use crate::operand_fits::operand_fit;
use crate::registers_found::RegistersFound;
use crate::text_match::named_registers;
use expr_forms::Operand;

/// What an operand gives with the code of a row, if the operand fits it.
fn row_fit<'e, 'a>(
    row: &Row<OperandForm>,
    operand: &'e Operand<'a>,
    registers: RegistersFound,
) -> Option<Fitted<'e, 'a>>
    requires { IsTrue (has_lawful_code row.now) }
    ensures { (base : NumberBase) (subfields : List (List Piece)) → IsOperand base subfields operand.now →
        fitted_as result ≡ row_fit_with base (digits_as registers) subfields (operand_row row.now) }
{
    match operand_fit(row.form.operand, operand, registers) {
        Some(found) => Some(Fitted {
            code: row.form.code,
            found,
        }),
        None => None,
    }
}

/// What an operand gives with the code of the first row that it fits.
fn first_fit<'e, 'a>(
    rows: &[Row<OperandForm>],
    operand: &'e Operand<'a>,
    registers: RegistersFound,
) -> Option<Fitted<'e, 'a>>
    requires { IsTrue (list_all has_lawful_code rows.now) }
    ensures { (base : NumberBase) (subfields : List (List Piece)) → IsOperand base subfields operand.now →
        fitted_as result ≡ first_fit (map (λ (row : Row OperandForm). row_fit_with base (digits_as registers) subfields (operand_row row)) rows.now) }
{
    let mut rest = rows;
    'rows: loop {
        let (row, behind) = rest.split_first()?;
        if let Some(fitted) = row_fit(row, operand, registers) {
            return Some(fitted);
        }
        rest = behind;
    }
}

/// The instruction of an operation by its rows whose operand is read subfield by subfield: of BX the
/// eighth row at most decides.
pub(crate) fn central_fit<'e, 'a>(
    operation: &[u8],
    rows: &[Row<OperandForm>],
    operand: &'e Operand<'a>,
) -> Option<Fitted<'e, 'a>>
    requires rows { map operand_row rows.now ≡ operand_rows_of operation.now }
    requires lawful { IsTrue (list_all has_lawful_code rows.now) }
    ensures { (base : NumberBase) (subfields : List (List Piece)) → IsOperand base subfields operand.now →
        fitted_as result ≡ first_fit (map (row_fit base operation.now subfields) (rows_for operation.now table.central_rows)) }
{
    first_fit(rows, operand, named_registers(operation))
}
