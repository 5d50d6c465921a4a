//! What coding takes of a statement: its operation and its operand.
ghost use Rattle.std.proofs.Props.{props};
ghost use Rattle.statement_coder.specs.Joins.Readings.{IsWhole};

use crate::readings::Reading;
use definitions::DeckKind;
use operations::Operation;

/// An operand that was read, with its operation, in a deck of this kind. The text of a DIS fills its
/// words.
#[derive(Drop)]
pub struct ReadOperand<'a> {
    pub reading: Reading<'a>,
    pub kind: DeckKind,
    pub operation: Operation,
    ghost whole: { IsWhole kind reading } by { Prim.hlevel props },
}
