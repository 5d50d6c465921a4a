//! The names that the statements of a deck enter.
ghost use Rattle.std.specs.Prelude.{◌≡◌, ◌∷◌, List, OnOk};
ghost use Rattle.definitions.specs.Settling.{settle, settled_all};
ghost use Rattle.definitions.specs.Statements as statements;
ghost use Rattle.operations.specs.Joins.OperationsAs.{operation_as};
ghost use Rattle.statement_coder.specs.Joins.ReadOperands.{IsReadOperand};
ghost use Rattle.deck_assembler.specs.Joins.Walks.{AreNoted, IsWhole, whole_of};
ghost use Rattle.deck_assembler.specs.Joins.SharedNames.{enters};

use crate::deck_view::DeckView;
use crate::entry_names::EntryNames;
use definitions::DeckKind;
use operations::Operation;
use statement_coder::ReadOperand;
use std::alloc::AllocError;

/// Whether a statement enters names; in a peripheral deck none does.
pub(crate) fn enters(kind: DeckKind, operation: Operation) -> bool
    ensures { result ≡ enters kind (operation_as operation) }
{
    match kind {
        DeckKind::Periph => false,
        DeckKind::Rel => matches!(operation, Operation::Entry),
        DeckKind::Abs => matches!(operation, Operation::Entry),
    }
}

/// Enters the names of one statement more, whose operand was read, if it enters any.
#[inline(always)]
pub(crate) fn enter(
    names: &mut EntryNames,
    view: &DeckView<'_>,
    read: &ReadOperand<'_>,
) -> Result<(), AllocError>
    ensures { OnOk result ((known others earlier : List statements.Statement) (given : statements.Statement) →
        let whole = whole_of view.now known others in
        IsWhole whole → read.now.kind ≡ whole.deck.kind → IsReadOperand read.now (settle whole.deck.kind (settled_all whole.deck.kind earlier) given) →
        AreNoted whole earlier names.old → AreNoted whole (given ∷ earlier) names.new) }
{
    if enters(read.kind, read.operation) {
        names.enter_operand(view.deck.symbols(), &read.reading)
    } else {
        Ok(())
    }
}
