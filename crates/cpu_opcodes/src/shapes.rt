//! The instruction of a code, with what was found in its operand.
ghost use Rattle.std.specs.Prelude.{◌≡◌, ◌≤◌, Some, IsTrue};
ghost use Rattle.definitions.specs.Matching.{instruction_of};
ghost use Rattle.expr_forms.specs.Joins.Shapes.{field_as, instruction_as};
ghost use Rattle.cpu_opcodes.specs.Joins.CodeTexts.{code_text, code_text_or_none};
ghost use Rattle.cpu_opcodes.specs.Joins.LawfulCodes.{is_lawful, is_lawful_or_none};
ghost use Rattle.cpu_opcodes.specs.Joins.Found.{central_field_as, found_as, fitted_as};
ghost use Rattle.cpu_opcodes.specs.Joins.Fits.{code_fit};

use crate::code::Code;
use crate::found::{CentralField, Fitted, Found};
use expr_forms::{Field, Shape};

/// The field as an instruction has it.
fn field_of<'a>(field: CentralField<'_, 'a>) -> Field<'a>
    ensures { field_as result ≡ Some (central_field_as field.entry) }
{
    match field {
        CentralField::Absent => Field::Absent,
        CentralField::Address(expression) => Field::Address(expression.copied()),
        CentralField::Count(expression) => Field::Count(expression.copied()),
    }
}

/// The instruction that a code makes with the digits and the field found.
pub(crate) fn shape_of<'a>(code: Code, found: Found<'_, 'a>) -> Shape<'a>
    requires { IsTrue (is_lawful code) }
    ensures instruction { instruction_as result ≡ Some (instruction_of (code_text code) (found_as found.entry)) }
    ensures short { result.digit_count ≤ 10 }
{
    let digits = code.digits(found.registers);
    Shape {
        digits: digits.number as u32,
        digit_count: digits.count as u8,
        field: field_of(found.field),
    }
}

/// A code with what was found, if there is a code.
pub(crate) fn fitted_with<'e, 'a>(
    code: Option<Code>,
    found: Found<'e, 'a>,
) -> Option<Fitted<'e, 'a>>
    requires { IsTrue (is_lawful_or_none code) }
    ensures { fitted_as result ≡ code_fit (code_text_or_none code) (found_as found.entry) }
{
    match code {
        Some(code) => Some(Fitted { code, found }),
        None => None,
    }
}
