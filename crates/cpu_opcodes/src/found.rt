//! What an operand gives while it is matched with a row.
ghost use Rattle.std.specs.Prelude.{IsTrue};
ghost use Rattle.cpu_opcodes.specs.Joins.LawfulCodes.{is_lawful};

use crate::code::Code;
use crate::registers_found::RegistersFound;
use expr_forms::Expr;

/// The field of a central instruction, whose expression is one of the operand's.
#[derive(Clone, Copy)]
pub(crate) enum CentralField<'e, 'a> {
    Absent,
    /// K in 18 bits.
    Address(&'e Expr<'a>),
    /// n in 6 bits.
    Count(&'e Expr<'a>),
}

/// The digits of the registers, and the field.
#[derive(Clone, Copy)]
pub(crate) struct Found<'e, 'a> {
    pub(crate) registers: RegistersFound,
    pub(crate) field: CentralField<'e, 'a>,
}

/// The code of a row that an operand fits, and what the operand gives.
#[derive(Clone, Copy)]
pub(crate) struct Fitted<'e, 'a> {
    pub(crate) code: Code,
    pub(crate) found: Found<'e, 'a>,
    ghost lawful: { IsTrue (is_lawful code) },
}
