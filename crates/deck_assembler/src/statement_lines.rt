//! The line of a coded statement.
ghost use Rattle.std.specs.Prelude.{◌≡◌, List, IfOk, OnOk, OnErr, slice_get};
ghost use Rattle.definitions.specs.Lengths.{BlockRow};
ghost use Rattle.definitions.specs.Settled.{Settled};
ghost use Rattle.definitions.specs.Settling.{View};
ghost use Rattle.definitions.specs.StatementItems as definitions;
ghost use Rattle.statement_coder.specs.declared.items.Item as fields;
ghost use Rattle.operations.specs.Joins.OperationsAs.{operation_as};
ghost use Rattle.statement_coder.specs.Joins.CodedItems.{IsKept};
ghost use Rattle.deck_objects.specs.Joins.CodedLines.{IsCoded, IsNamed};
ghost use Rattle.deck_assembler.specs.Joins.KeptFields.{AreUnchanged, BeginsWith, IsTold};

use crate::line_fields::line_fields;
use deck_objects::{CodedLine, FieldLists};
use definitions::DeckKind;
use operations::Operation;
use statement_coder::{CodedItems, KeptSizing};
use std::alloc::AllocError;

/// The line of a statement of which this is known, in a block that has this index among the blocks
/// of its deck. The lists keep what they had before the statement, and behind that what the line has
/// listed; where memory runs out they are as they were.
pub fn coded_line(
    operation: Operation,
    block: u32,
    sizing: &KeptSizing,
    kind: DeckKind,
    told: CodedItems<'_>,
    lists: &mut FieldLists,
) -> Result<CodedLine, AllocError>
    ensures line { IfOk result (λ line. (rows : List BlockRow) (view : View) (settled : Settled) (before : List fields.Item) (told' : List definitions.Item) →
        operation_as operation ≡ settled.read.operation → IsNamed (slice_get rows block) settled.block →
        IsTold kind view settled sizing.now told.entry before lists.old.items.items told' →
        IsCoded kind rows lists.new line (record { settled = settled; fields = told' })) }
    ensures before { OnOk result ((view : View) (settled : Settled) (before : List fields.Item) (told' : List definitions.Item) →
        IsTold kind view settled sizing.now told.entry before lists.old.items.items told' → IsKept before lists.new.items.items) }
    ensures words { BeginsWith lists.old.words.items lists.new.words.items }
    ensures unchanged { OnErr result (AreUnchanged lists.old lists.new) }
{
    let fields = line_fields(kind, told, lists)?;
    Ok(CodedLine {
        operation,
        block,
        place: sizing.place(),
        end: sizing.end(),
        begins_run: sizing.begins_run(),
        fields,
    })
}
