//! What a USE does to the stack of blocks, and which statements are refused (COMPASS 60492600, USE,
//! ABS, PERIPH, ENTRY, EXT).
ghost use Rattle.std.specs.Prelude.{◌≡◌, not};
ghost use Rattle.expr_forms.specs.Joins.Readings.{use_as};
ghost use Rattle.definitions.specs.Operands as operands;
ghost use Rattle.definitions.specs.Blocks.{change_of, is_accepted};
ghost use Rattle.definitions.specs.Settling.{is_refused_use};
ghost use Rattle.definitions.specs.Laws.States.{names_of_blocks};
ghost use Rattle.use_blocks.specs.Joins.Changes.{IsAccepted};
ghost use Rattle.use_blocks.specs.Joins.EffectsAs.{change_as};
ghost use Rattle.statement_coder.specs.Joins.Readings.{IsReading};
ghost use Rattle.statement_coder.specs.Joins.Sizings.{refused_as};

use crate::readings::Reading;
use crate::statement::Statement;
use definitions::DeckKind;
use expr_forms::{Name, UseField};
use operations::Operation;
use use_blocks::{BlockChange, BlockState};

/// What the field of a USE does.
#[inline(never)]
fn change_of_use(field: UseField, state: &BlockState) -> BlockChange
    ensures change { change_as result ≡ change_of (use_as field) (names_of_blocks state.now.blocks) }
    ensures accepted { IsAccepted (change_as result) state.now }
{
    match field {
        UseField::UseName(name) => state.use_name(&name),
        UseField::UseBefore => BlockChange::Closes,
        _ => BlockChange::Nothing,
    }
}

/// What an operand does to the stack of blocks.
pub(crate) fn change_of(reading: &Reading<'_>, state: &BlockState) -> BlockChange
    ensures change { (operand : operands.Operand) → IsReading reading.now operand → change_as result ≡ change_of operand (names_of_blocks state.now.blocks) }
    ensures accepted { IsAccepted (change_as result) state.now }
{
    match reading {
        Reading::Use(field) => change_of_use(*field, state),
        _ => BlockChange::Nothing,
    }
}

/// Whether a USE of this name is refused.
fn is_refused_name(name: &Name, state: &BlockState) -> bool
    ensures { result ≡ not (is_accepted name.now (names_of_blocks state.now.blocks)) }
{
    match state.use_name(name) {
        BlockChange::Opens(_) => false,
        _ => true,
    }
}

/// Whether a USE with this field is refused.
fn is_refused_use(field: UseField, state: &BlockState) -> bool
    ensures { (operand : operands.Operand) → operand ≡ use_as field → result ≡ is_refused_use operand (names_of_blocks state.now.blocks) }
{
    match field {
        UseField::UseName(name) => is_refused_name(&name, state),
        UseField::UseBefore => false,
        UseField::Refused => true,
        UseField::Bad => false,
    }
}

/// Whether a USE is refused.
#[inline(never)]
fn is_refused_block(reading: &Reading<'_>, state: &BlockState) -> bool
    ensures { (operand : operands.Operand) → IsReading reading.now operand → result ≡ is_refused_use operand (names_of_blocks state.now.blocks) }
{
    match reading {
        Reading::Use(field) => is_refused_use(*field, state),
        _ => false,
    }
}

/// Whether a statement is O: its operation is unknown or misplaced, or its block is not to be had.
#[inline(always)]
pub(crate) fn is_refused(
    statement: &Statement<'_>,
    reading: &Reading<'_>,
    state: &BlockState,
) -> bool
    ensures { (operand : operands.Operand) → IsReading reading.now operand → result ≡ refused_as statement.now operand state.now }
{
    match statement.operation {
        Operation::Unknown => true,
        Operation::EmptyField => !statement.location.is_empty(),
        Operation::Kind(_) => !state.is_neutral(),
        Operation::Use => is_refused_block(reading, state),
        Operation::Entry => matches!(statement.kind, DeckKind::Periph),
        Operation::Ext => !matches!(statement.kind, DeckKind::Rel),
        _ => false,
    }
}
