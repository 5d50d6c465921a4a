//! Subfields that were read, and operands: the one to three subfields of an instruction
//! (COMPASS 60492600, central and peripheral instructions).
ghost use Rattle.std.specs.Prelude.{◌≤◌, length};

use crate::expressions::Expr;
use definitions::NumberBase;

/// A subfield that is a lawful expression: its text, and the expression that it spells.
#[derive(Drop)]
pub struct Subfield<'a> {
    pub text: &'a [u8],
    pub expression: Expr<'a>,
    ghost short: { length text.now ≤ 711 },
}

/// The one to three subfields of an instruction's variable field; two with the number base of both.
#[derive(Drop)]
pub enum Operand<'a> {
    One(Subfield<'a>),
    Two(Subfield<'a>, Subfield<'a>, NumberBase),
    Three(Subfield<'a>, Subfield<'a>, Subfield<'a>),
}
