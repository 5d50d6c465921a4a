//! What a statement is once the state before it is known.
ghost use Rattle.std.specs.Prelude.{◌≡◌, ◌≤◌, ◌+◌, ◌-◌, ◌^◌, true, None, min, unwrap_or, IfOk, IsOk, OnErr, OnOk};
ghost use Rattle.definitions.specs.Statements as statements;
ghost use Rattle.definitions.specs.Statements.{is_stray};
ghost use Rattle.definitions.specs.Operands as operands;
ghost use Rattle.definitions.specs.Letters.{in_order};
ghost use Rattle.definitions.specs.Operations as op;
ghost use Rattle.definitions.specs.Settling.{operand_letters, settled_read};
ghost use Rattle.definitions.specs.Laws.States.{seen_from};
ghost use Rattle.operations.specs.Joins.OperationsAs.{operation_as};
ghost use Rattle.use_blocks.specs.Joins.Changes.{IsAccepted, block_now};
ghost use Rattle.use_blocks.specs.Joins.EffectsAs.{change_as};
ghost use Rattle.statement_coder.specs.Joins.Readings.{IsReading, has_names, is_plain};
ghost use Rattle.statement_coder.specs.Joins.Sizings.{read_as, IsSizing};

use crate::block_changes::change_of;
use crate::definitions_made::definition_made;
use crate::early_values::{EarlyNames, EarlySymbols, early_value, equated};
use crate::kept_sizing::KeptSizing;
use crate::outcomes::outcome_of;
use crate::placing::{Placed, asks_after, placed_in};
use crate::readings::Reading;
use crate::size_letters::{found_letters, size_letters};
use crate::sizing::Sizing;
use crate::statement::Statement;
use crate::usual_sizes::size_usual;
use crate::usual_sizing::UsualSizing;
use expr_forms::Form;
use operations::Letters;
use std::alloc::{AllocError, Global};
use std::hash::RandomState;
use use_blocks::{BlockState, is_same_form};
use work_meter::{Meter, count_sized};

/// The number of a value, or 0 where it has more than 32 bits.
fn small_number(value: Form) -> i32 {
    match i32::try_from(value.number()) {
        Ok(number) => number,
        Err(_) => 0,
    }
}

/// The location counter, where it is not the origin counter.
fn where_moved(location: Form, origin: Form) -> Option<Form>
    ensures moved { unwrap_or result origin ≡ location }
    ensures same { location ≡ origin → result ≡ None }
{
    if is_same_form(location, origin) {
        None
    } else {
        Some(location)
    }
}

/// A statement whose operand was read, settled from the state before it and the early values, where the
/// letters of its operand are known.
fn settle<S: EarlySymbols>(
    statement: &Statement<'_>,
    reading: &Reading<'_>,
    state: &BlockState,
    symbols: &S,
    of_operand: &Letters,
) -> Sizing
    ensures sizing { (given : statements.Statement) (operand : operands.Operand) → is_stray given.cards ≡ statement.now.is_stray → IsReading reading.now operand →
        of_operand.now ≡ in_order (operand_letters statement.now.kind (operation_as statement.now.operation) operand (S.view symbols.now)) →
        IsSizing statement.now.kind (S.view symbols.now) (settled_read statement.now.kind (seen_from state.now (S.view symbols.now)) (read_as statement.now given operand)) result }
    ensures accepted { IsAccepted (change_as result.change) state.now }
    ensures number_base { result.usual.number_base ≡ state.now.number_base }
{
    let kind = statement.kind;
    let operation = statement.operation;
    let used = state.block();
    let Placed { place, size } = placed_in(&used, statement, reading);
    let location = state.location(kind, place);
    let origin = state.origin(kind, place);
    let value = early_value(
        &EarlyNames {
            symbols,
            location,
            origin,
        },
        reading,
    );
    let equated = equated(&value);
    let outcome = outcome_of(kind, operation, size, &used.name(), place, value);
    let is_defined = symbols.symbol(statement.location).is_some();
    let definition = definition_made(kind, operation, reading, statement.location, is_defined);
    let letters = size_letters(
        statement,
        is_defined,
        reading,
        state,
        of_operand,
        outcome.letter,
    );
    Sizing {
        usual: UsualSizing {
            block: used.name(),
            is_placed: operation.has_place(),
            asks: asks_after(statement, reading),
            definition,
            number_base: state.number_base(),
            place,
            end: outcome.end,
            number: small_number(equated),
            letters,
        },
        change: change_of(reading, state),
        setting: outcome.setting,
        location: where_moved(location, origin),
        value: equated,
    }
}

/// The letters of an operand that was read, from the early values of symbols. The names of an EXT alone take
/// memory, for a table that is kept by these keys; a statement that lacks it is counted in the meter, which
/// else stays as it was.
pub fn operand_letters<S: EarlySymbols>(
    alloc: Global,
    keys: RandomState,
    statement: &Statement<'_>,
    reading: &Reading<'_>,
    symbols: &S,
    meter: &mut Meter,
) -> Result<Letters, AllocError>
    ensures letters { IfOk result (λ letters. (operand : operands.Operand) → IsReading reading.now operand →
        letters ≡ in_order (operand_letters statement.now.kind (operation_as statement.now.operation) operand (S.view symbols.now))) }
    ensures names { OnErr result ((operation_as statement.now.operation ≡ op.Ext) × (has_names reading.now ≡ true)) }
    ensures uncounted { OnOk result (meter.new ≡ meter.old) }
    ensures sized { OnErr result (meter.new.sized ≡ min (meter.old.sized + 1) (2 ^ 64 - 1)) }
    ensures rises { meter.old.sized ≤ meter.new.sized }
    ensures coded { meter.new.coded ≡ meter.old.coded }
{
    match found_letters(alloc, keys, statement, symbols, reading) {
        Ok(letters) => Ok(letters),
        Err(fault) => {
            count_sized(meter);
            Err(fault)
        }
    }
}

/// What `settle` makes of a statement, in few bytes: it takes memory where that is not usual.
#[inline(never)]
fn kept_settled<S: EarlySymbols>(
    alloc: Global,
    statement: &Statement<'_>,
    reading: &Reading<'_>,
    of_operand: &Letters,
    state: &BlockState,
    symbols: &S,
) -> Result<KeptSizing, AllocError>
    ensures sizing { IfOk result (λ sizing. (given : statements.Statement) (operand : operands.Operand) → is_stray given.cards ≡ statement.now.is_stray → IsReading reading.now operand →
        of_operand.now ≡ in_order (operand_letters statement.now.kind (operation_as statement.now.operation) operand (S.view symbols.now)) →
        IsSizing statement.now.kind (S.view symbols.now) (settled_read statement.now.kind (seen_from state.now (S.view symbols.now)) (read_as statement.now given operand)) sizing) }
    ensures accepted { IfOk result (λ sizing. IsAccepted (change_as sizing.change) state.now) }
    ensures number_base { IfOk result (λ sizing. sizing.usual.number_base ≡ state.now.number_base) }
{
    let sizing = settle(statement, reading, state, symbols, of_operand);
    KeptSizing::new(alloc, sizing)
}

/// What a statement is whose operand was read, once the state before it and the early values of symbols are
/// known, and the letters of its operand; counted in the meter. The state accepts its change. An operand
/// that takes no value, and is not that of a USE, takes no memory where no LOC is in force.
#[inline(always)]
pub fn size<S: EarlySymbols>(
    alloc: Global,
    statement: &Statement<'_>,
    reading: &Reading<'_>,
    of_operand: &Letters,
    state: &BlockState,
    symbols: &S,
    meter: &mut Meter,
) -> Result<KeptSizing, AllocError>
    ensures sizing { IfOk result (λ sizing. (given : statements.Statement) (operand : operands.Operand) → is_stray given.cards ≡ statement.now.is_stray → IsReading reading.now operand →
        of_operand.now ≡ in_order (operand_letters statement.now.kind (operation_as statement.now.operation) operand (S.view symbols.now)) →
        IsSizing statement.now.kind (S.view symbols.now) (settled_read statement.now.kind (seen_from state.now (S.view symbols.now)) (read_as statement.now given operand)) sizing) }
    ensures accepted { IfOk result (λ sizing. IsAccepted (change_as sizing.change) state.now) }
    ensures number_base { IfOk result (λ sizing. sizing.usual.number_base ≡ state.now.number_base) }
    ensures needs_none { (block_now state.now).counting ≡ None → is_plain reading.now ≡ true → IsOk result }
    ensures sized { meter.new.sized ≡ min (meter.old.sized + 1) (2 ^ 64 - 1) }
    ensures rises { meter.old.sized ≤ meter.new.sized }
    ensures coded { meter.new.coded ≡ meter.old.coded }
{
    count_sized(meter);
    match size_usual(statement, reading, of_operand, state, symbols) {
        Some(usual) => Ok(KeptSizing::of(usual)),
        None => Ok(kept_settled(alloc, statement, reading, of_operand, state, symbols)?),
    }
}
