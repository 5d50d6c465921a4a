//! Where the operand of a statement comes from: it is read, or it was kept.
ghost use Rattle.std.specs.Prelude.{◌≡◌, true};
ghost use Rattle.definitions.specs.Operands.{operand_of};
ghost use Rattle.definitions.specs.Operations.{is_data};
ghost use Rattle.definitions.specs.Settled.{Settled};
ghost use Rattle.operations.specs.Joins.OperationsAs.{operation_as};
ghost use Rattle.statement_coder.specs.Joins.KeptReadings.{IsKeptReading};
ghost use Rattle.statement_coder.specs.Joins.ReadOperands.{IsReadOperand};
ghost use Rattle.statement_coder.specs.Joins.Readings.{IsReading, IsLawful, is_listed};

use crate::kept_readings::KeptReading;
use crate::read_operands::ReadOperand;
use crate::readings::read_operand;
use crate::statement::Statement;
use definitions::{DeckKind, NumberBase};
use operations::Operation;

impl<'a> Statement<'a> {
    /// Its operand, read under a number base.
    pub fn read_operand(&self, base: NumberBase) -> ReadOperand<'a>
        ensures kind { result.kind ≡ self.now.kind }
        ensures operation { result.operation ≡ self.now.operation }
        ensures reading { IsReading result.reading (operand_of self.now.kind base (operation_as self.now.operation) self.now.name.now self.now.variable.now) }
        ensures lawful { IsLawful result.reading }
        ensures listed { is_listed result.reading ≡ true → is_data (operation_as self.now.operation) ≡ true }
    {
        let kind = self.kind;
        let operation = self.operation;
        ReadOperand {
            reading: read_operand(kind, base, operation, self.name, self.variable),
            kind,
            operation,
        }
    }
}

/// The operand of a statement that was kept, with its operation, in a deck of this kind.
#[inline(always)]
pub fn kept_operand(kind: DeckKind, operation: Operation, kept: &KeptReading) -> ReadOperand<'_>
    ensures kind { result.kind ≡ kind }
    ensures operation { result.operation ≡ operation }
    ensures read { (settled : Settled) → settled.read.operation ≡ operation_as operation → IsKeptReading kind (operation_as operation) kept.now settled.read.operand → IsReadOperand result settled }
{
    ReadOperand {
        reading: kept.reading(kind, operation),
        kind,
        operation,
    }
}
