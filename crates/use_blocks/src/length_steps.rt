//! The step of the lengths of blocks that a statement makes, beside that of the state (COMPASS
//! 60492600, USE, blocks).
ghost use Rattle.std.specs.Prelude.{◌≡◌, true, false, OnOk, OnErr, IfSome, IsSomeAnd};
ghost use Rattle.std.specs.Option.{option_map};
ghost use Rattle.definitions.specs.Blocks.{block_in_use, is_accepted};
ghost use Rattle.definitions.specs.Laws.States as states;
ghost use Rattle.definitions.specs.Laws.States.{names_of_blocks, advanced, lengths_advanced};
ghost use Rattle.use_blocks.specs.Joins.BlockLengths.{block_names, has_name, opened_by};
ghost use Rattle.use_blocks.specs.Joins.Changes.{IsAccepted};
ghost use Rattle.use_blocks.specs.Joins.EffectsAs.{change_as, effect_as};

use crate::block_state::BlockState;
use crate::effects::{BlockChange, Effect};
use crate::lengths::Lengths;
use expr_forms::Name;
use std::alloc::AllocError;

/// The name of the block that a change opens, if it opens one.
fn opened_name(change: &BlockChange) -> Option<&Name>
    ensures name { option_map (λ name. name.now) result ≡ opened_by (change_as change.now) }
    ensures accepted { (state : states.BlockState) → IsAccepted (change_as change.now) state → IfSome result (λ name. is_accepted name.now (names_of_blocks state.blocks) ≡ true) }
{
    match change {
        BlockChange::Nothing => None,
        BlockChange::Opens(name) => Some(name),
        BlockChange::Closes => None,
    }
}

impl Lengths {
    /// Takes the step of a statement behind this state, which has the same blocks and accepts its
    /// change: the block in use reaches what the statement does, and a USE opens its block; a new one
    /// alone takes memory. Without memory all is as before.
    #[inline(always)]
    pub fn follow(&mut self, state: &BlockState, effect: &Effect) -> Result<(), AllocError>
        requires same_blocks { block_names self.old ≡ names_of_blocks state.now.blocks }
        requires accepted { IsAccepted (change_as effect.now.change) state.now }
        ensures advanced { OnOk result (self.new ≡ lengths_advanced (block_in_use state.now.open_names) (effect_as effect.now) self.old) }
        ensures same_blocks { OnOk result (block_names self.new ≡ names_of_blocks (advanced (effect_as effect.now) state.now).blocks) }
        ensures without_memory { OnErr result (self.new ≡ self.old) }
        ensures opens { OnErr result (IsSomeAnd (opened_by (change_as effect.now.change)) (λ name. has_name name self.old ≡ false)) }
    {
        let block = state.block_index();
        let opened = opened_name(&effect.change);
        self.advance(block, effect.reached, opened)?;
        Ok(())
    }
}
