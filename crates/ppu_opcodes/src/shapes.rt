//! The instruction that an operation and its operand make (6600 reference 60100000, peripheral
//! instructions; COMPASS 60492600, PPU instructions).
ghost use Rattle.std.specs.Prelude.{◌≡◌, List, MatchOption, MatchResult, false, map};
ghost use Rattle.definitions.specs.Pieces.{Piece};
ghost use Rattle.definitions.specs.PeripheralTable as form;
ghost use Rattle.definitions.specs.PeripheralTable.{PeripheralRow, peripheral_row};
ghost use Rattle.definitions.specs.Operands.{BadOperand, plain_of, one_or_two, by_form, peripheral_operand};
ghost use Rattle.definitions.specs.declared.number_base.NumberBase.{NumberBase};
ghost use Rattle.expr_forms.specs.Joins.Operands.{IsSubfield, IsOperand};
ghost use Rattle.ppu_opcodes.specs.Joins.PeripheralCodes.{form_as};
ghost use Rattle.ppu_opcodes.specs.Joins.PeripheralShapes.{IsFound, IsFieldOf, fault_of, is_ignoring, only_value};

use crate::code::Form;
use crate::table::row_of;
use definitions::{Letter, NumberBase};
use expr_forms::{Expr, ExprText, Field, Operand, Shape, Subfield};

/// The expression of a subfield, if it has neither registers nor literals.
fn plain_value<'a>(subfield: &Subfield<'a>) -> Option<Expr<'a>>
    ensures { (base : NumberBase) (pieces : List Piece) → IsSubfield base pieces subfield.now → result ≡ plain_of false base pieces }
{
    if subfield.expression.is_plain(false) {
        Some(subfield.expression.copied())
    } else {
        None
    }
}

/// The value of an operand that is one value and no more.
fn only_value<'a>(operand: &Operand<'a>) -> Option<Expr<'a>>
    ensures { (base : NumberBase) (subfields : List (List Piece)) → IsOperand base subfields operand.now →
        result ≡ only_value (map (plain_of false base) subfields) }
{
    match operand {
        Operand::One(first) => plain_value(first),
        _ => None,
    }
}

/// The field of an operand that is m, or m and d.
fn long_field<'a>(operand: &Operand<'a>) -> Option<Field<'a>>
    ensures { (base : NumberBase) (subfields : List (List Piece)) (row : PeripheralRow) → IsOperand base subfields operand.now → row.form ≡ form.Long →
        IsFieldOf result row (one_or_two row (map (plain_of false base) subfields)) }
{
    match operand {
        Operand::One(first) => {
            let m = plain_value(first)?;
            Some(Field::Long(m, ExprText::new(&[], NumberBase::Decimal)))
        }
        Operand::Two(first, second, base) if second.expression.is_plain(false) => {
            let m = plain_value(first)?;
            Some(Field::Long(m, ExprText::new(second.text, *base)))
        }
        _ => None,
    }
}

/// The field that an operand is to a form, if it has as many values as the form.
fn field_of<'a>(form: Form, operand: &Operand<'a>) -> Option<Field<'a>>
    ensures { (base : NumberBase) (subfields : List (List Piece)) (row : PeripheralRow) → IsOperand base subfields operand.now → row.form ≡ form_as form →
        IsFieldOf result row (by_form row row.form (map (plain_of false base) subfields)) }
{
    match form {
        Form::Ignored => Some(Field::Zero),
        Form::Short => Some(Field::Short(only_value(operand)?)),
        Form::ShortJump => Some(Field::Displacement(only_value(operand)?)),
        Form::Shift => Some(Field::Shift(only_value(operand)?)),
        Form::Wide => Some(Field::Wide(only_value(operand)?)),
        Form::Long => long_field(operand),
    }
}

/// Two digits and a field.
fn shape_of<'a>(digits: u8, field: Field<'a>) -> Shape<'a>
    ensures digits { result.digits ≡ digits }
    ensures count { result.digit_count ≡ 2 }
    ensures field { result.field ≡ field.entry }
{
    Shape {
        digits: u32::from(digits),
        digit_count: 2,
        field,
    }
}

/// The instruction of an operation with an operand: O where the table has not the operation, V where
/// the operand has a register or a literal, or another number of subfields than the operation.
pub fn find<'a>(operation: &[u8], operand: &Operand<'a>) -> Result<Shape<'a>, Letter>
    ensures { MatchResult result
        (λ shape. (base : NumberBase) (subfields : List (List Piece)) → IsOperand base subfields operand.now →
        IsFound shape (peripheral_operand base (peripheral_row operation.now) subfields))
        (λ letter. (letter ≡ fault_of (peripheral_row operation.now)) × ((base : NumberBase) (subfields : List (List Piece)) → IsOperand base subfields operand.now →
        peripheral_operand base (peripheral_row operation.now) subfields ≡ BadOperand)) }
{
    match row_of(operation) {
        None => Err(Letter::O),
        Some(code) => match field_of(code.form, operand) {
            None => Err(Letter::V),
            Some(field) => Ok(shape_of(code.digits, field)),
        },
    }
}

/// The instruction of an operation whose operand is not read, whatever it is: PSN.
pub fn ignoring<'a>(operation: &[u8]) -> Option<Shape<'a>>
    ensures { MatchOption result
        (is_ignoring (peripheral_row operation.now) ≡ false)
        (λ shape. (base : NumberBase) (subfields : List (List Piece)) → IsFound shape (peripheral_operand base (peripheral_row operation.now) subfields)) }
{
    let code = row_of(operation)?;
    match code.form {
        Form::Ignored => Some(shape_of(code.digits, Field::Zero)),
        _ => None,
    }
}
