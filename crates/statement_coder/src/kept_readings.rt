//! What is kept of a statement's operand, so that coding does not read its cards again.
ghost use Rattle.std.specs.Prelude.{◌≡◌, true, is_some, IfOk, IfSome, IsOk};
ghost use Rattle.definitions.specs.Operands as operands;
ghost use Rattle.definitions.specs.Operands.{operand_of};
ghost use Rattle.definitions.specs.Operations as definitions;
ghost use Rattle.definitions.specs.declared.deck_kind.DeckKind as kinds;
ghost use Rattle.operations.specs.Joins.OperationsAs.{operation_as};
ghost use Rattle.statement_coder.specs.Joins.KeptReadings.{has_no_text, IsKeptReading};
ghost use Rattle.statement_coder.specs.Joins.Readings.{IsLawful, IsReading, IsWhole};

use crate::readings::{Reading, read_operand};
use crate::spellings::Spelling;
use crate::statement::Statement;
use definitions::{DeckKind, NumberBase};
use expr_forms::{KeptBits, KeptData, KeptExpr, KeptShape, UseField};
use operations::Operation;
use std::alloc::{AllocError, Global};

/// What was read in a variable field, without the text that it borrows.
#[derive(Drop)]
pub enum KeptReading {
    /// Its text: names, that of CON and DIS, and what is too long for few bytes.
    Spelt(Box<Spelling>),
    Unread,
    Bad,
    Instruction(KeptShape),
    Data(KeptData),
    Vfd(KeptBits),
    Value(KeptExpr),
    Use(UseField),
}

impl Reading<'_> {
    /// What is kept of it without its text, where that can be; what has no text is.
    #[inline(always)]
    fn in_few_bytes(&self) -> Option<KeptReading>
        ensures kept { IfSome result (λ kept. (kind : kinds.DeckKind) (operation : definitions.Operation) (operand : operands.Operand) → IsReading self.now operand → IsLawful self.now → IsKeptReading kind operation kept operand) }
        ensures some { has_no_text self.now ≡ true → is_some result ≡ true }
    {
        match self {
            Reading::Unread => Some(KeptReading::Unread),
            Reading::Bad => Some(KeptReading::Bad),
            Reading::Instruction(shape) => match shape.kept() {
                Some(kept) => Some(KeptReading::Instruction(kept)),
                None => None,
            },
            Reading::Data(words) => match words.kept() {
                Some(kept) => Some(KeptReading::Data(kept)),
                None => None,
            },
            Reading::Vfd(fields) => match fields.kept() {
                Some(kept) => Some(KeptReading::Vfd(kept)),
                None => None,
            },
            Reading::Value(expression) => match expression.kept() {
                Some(kept) => Some(KeptReading::Value(kept)),
                None => None,
            },
            Reading::Use(field) => Some(KeptReading::Use(*field)),
            Reading::Con(_) => None,
            Reading::Text(_) => None,
            Reading::Names(_) => None,
        }
    }

    /// What is kept of the operand of a statement, which was read under this base: its text, in memory of its
    /// own, where it does not go into few bytes.
    #[inline(always)]
    pub fn kept(
        &self,
        alloc: Global,
        statement: &Statement<'_>,
        base: NumberBase,
    ) -> Result<KeptReading, AllocError>
        ensures kept { IfOk result (λ kept. (operand : operands.Operand) → IsReading self.now operand → IsLawful self.now →
            operand ≡ operand_of statement.now.kind base (operation_as statement.now.operation) statement.now.name.now statement.now.variable.now →
            IsKeptReading statement.now.kind (operation_as statement.now.operation) kept operand) }
        ensures needs_none { has_no_text self.now ≡ true → IsOk result }
    {
        match self.in_few_bytes() {
            Some(kept) => Ok(kept),
            None => Ok(KeptReading::spelt(alloc, statement, base)?),
        }
    }
}

impl Spelling {
    /// The operand that it is to this operation in a deck of this kind.
    #[inline(never)]
    fn reading(&self, kind: DeckKind, operation: Operation) -> Reading<'_>
        ensures reading { IsReading result (operand_of kind self.now.base (operation_as operation) self.now.name.items self.now.variable.items) }
        ensures lawful { IsLawful result }
    {
        read_operand(
            kind,
            self.base,
            operation,
            self.name.as_slice(),
            self.variable.as_slice(),
        )
    }
}

impl KeptReading {
    /// The operand of a statement as it spells it, under this base.
    #[inline(never)]
    fn spelt(
        alloc: Global,
        statement: &Statement<'_>,
        base: NumberBase,
    ) -> Result<KeptReading, AllocError>
        ensures { IfOk result (λ kept. (operand : operands.Operand) →
            operand ≡ operand_of statement.now.kind base (operation_as statement.now.operation) statement.now.name.now statement.now.variable.now →
            IsKeptReading statement.now.kind (operation_as statement.now.operation) kept operand) }
    {
        let name = Vec::from_slice(alloc, statement.name)?;
        let variable = Vec::from_slice(alloc, statement.variable)?;
        let spelling = Spelling {
            base,
            name,
            variable,
        };
        Ok(KeptReading::Spelt(Box::new(alloc, spelling)?))
    }

    /// The operand of this operation in a deck of this kind, as it was read.
    #[inline(always)]
    pub fn reading(&self, kind: DeckKind, operation: Operation) -> Reading<'_>
        ensures reading { (operand : operands.Operand) → IsKeptReading kind (operation_as operation) self.now operand → IsReading result operand }
        ensures lawful { (operand : operands.Operand) → IsKeptReading kind (operation_as operation) self.now operand → IsLawful result }
        ensures whole { IsWhole kind result }
    {
        match self {
            KeptReading::Spelt(spelling) => spelling.reading(kind, operation),
            KeptReading::Unread => Reading::Unread,
            KeptReading::Bad => Reading::Bad,
            KeptReading::Instruction(kept) => Reading::Instruction(kept.shape()),
            KeptReading::Data(kept) => Reading::Data(kept.words()),
            KeptReading::Vfd(kept) => Reading::Vfd(kept.fields()),
            KeptReading::Value(kept) => Reading::Value(kept.expression()),
            KeptReading::Use(field) => Reading::Use(*field),
        }
    }
}
