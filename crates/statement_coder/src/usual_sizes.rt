//! The sizing of a usual statement, made at once, in few bytes.
ghost use Rattle.std.specs.Prelude.{◌≡◌, ℕ, List, true, None, is_some, IfSome};
ghost use Rattle.definitions.specs.Blocks.{change_of};
ghost use Rattle.definitions.specs.EarlyValues.{early_value};
ghost use Rattle.definitions.specs.Forms as forms;
ghost use Rattle.definitions.specs.Letters.{in_order};
ghost use Rattle.definitions.specs.Operands as operands;
ghost use Rattle.definitions.specs.Settled.{NoChange};
ghost use Rattle.definitions.specs.Settling.{operand_letters, settled_read};
ghost use Rattle.definitions.specs.Laws.States.{seen_from};
ghost use Rattle.definitions.specs.Statements as statements;
ghost use Rattle.definitions.specs.Statements.{is_stray};
ghost use Rattle.operations.specs.Joins.OperationsAs.{operation_as};
ghost use Rattle.use_blocks.specs.Joins.Changes.{block_now};
ghost use Rattle.statement_coder.specs.Joins.KeptSizings.{usual_as};
ghost use Rattle.statement_coder.specs.Joins.Readings.{IsReading, is_plain};
ghost use Rattle.statement_coder.specs.Joins.Sizings.{read_as, IsSizing};

use crate::definitions_made::definition_made;
use crate::early_values::EarlySymbols;
use crate::outcomes::outcome_of_size;
use crate::placing::{Placed, asks_after, placed_in};
use crate::readings::Reading;
use crate::size_letters::size_letters;
use crate::statement::Statement;
use crate::usual_sizing::UsualSizing;
use operations::Letters;
use use_blocks::BlockState;

/// Whether an operand takes no early value and changes no block.
fn is_plain(reading: &Reading<'_>) -> bool
    ensures plain { result ≡ is_plain reading.now }
    ensures value { result ≡ true → (operand : operands.Operand) (names : forms.Names) → IsReading reading.now operand → early_value names operand ≡ None }
    ensures change { result ≡ true → (operand : operands.Operand) (blocks : List (List ℕ)) → IsReading reading.now operand → change_of operand blocks ≡ NoChange }
{
    !matches!(reading, Reading::Value(_) | Reading::Use(_))
}

/// What a statement is whose operand was read and takes no early value, in a block where no LOC is in force,
/// once the state before it and the symbols that are defined before are known, and the letters of its operand.
#[inline(always)]
pub(crate) fn size_usual<S: EarlySymbols>(
    statement: &Statement<'_>,
    reading: &Reading<'_>,
    of_operand: &Letters,
    state: &BlockState,
    symbols: &S,
) -> Option<UsualSizing>
    ensures sizing { IfSome result (λ usual. (given : statements.Statement) (operand : operands.Operand) → is_stray given.cards ≡ statement.now.is_stray → IsReading reading.now operand →
        of_operand.now ≡ in_order (operand_letters statement.now.kind (operation_as statement.now.operation) operand (S.view symbols.now)) →
        IsSizing statement.now.kind (S.view symbols.now) (settled_read statement.now.kind (seen_from state.now (S.view symbols.now)) (read_as statement.now given operand)) (usual_as usual)) }
    ensures number_base { IfSome result (λ usual. usual.number_base ≡ state.now.number_base) }
    ensures some { (block_now state.now).counting ≡ None → is_plain reading.now ≡ true → is_some result ≡ true }
{
    let used = state.block();
    if used.counting().is_some() || !is_plain(reading) {
        return None;
    }
    let kind = statement.kind;
    let operation = statement.operation;
    let Placed { place, size } = placed_in(&used, statement, reading);
    let outcome = outcome_of_size(kind, place, size);
    let is_defined = symbols.symbol(statement.location).is_some();
    Some(UsualSizing {
        block: used.name(),
        is_placed: operation.has_place(),
        asks: asks_after(statement, reading),
        definition: definition_made(kind, operation, reading, statement.location, is_defined),
        number_base: state.number_base(),
        place,
        end: outcome.end,
        number: 0,
        letters: size_letters(
            statement,
            is_defined,
            reading,
            state,
            of_operand,
            outcome.letter,
        ),
    })
}
