//! The blocks of a state, and the stack of indexes in them.
ghost use Rattle.std.specs.Prelude.{◌≡◌, ◌==◌, ◌<◌, ◌++◌, ◌∷◌, [], length, slice_set, OnOk, if◌then◌else◌};
ghost use Rattle.std.specs.Bool.{Decides};
ghost use Rattle.std.specs.List.{prefix_len};
ghost use Rattle.definitions.specs.Laws.States.{fresh_block, block_behind};
ghost use Rattle.use_blocks.specs.Joins.EffectsAs.{effect_as};
ghost use Rattle.use_blocks.specs.Joins.StateInside.{block_at, latest, is_other, HasRoom};

use crate::effects::Effect;
use crate::used_block::UsedBlock;
use expr_forms::Name;
use std::alloc::AllocError;

/// The index of the block in use: that of the latest open one, else the nominal block's.
pub(crate) fn index_in_use(stack: &[u8]) -> usize
    ensures { result ≡ latest stack.now }
{
    match stack.last() {
        Some(at) => usize::from(*at),
        None => 0,
    }
}

/// The index of the block of this name, or that of a block behind all.
pub(crate) fn index_of(blocks: &[UsedBlock], name: &Name) -> usize
    ensures { result ≡ prefix_len (is_other name.now) blocks.now }
{
    for (i, block) in blocks.iter().enumerate() {
        if name.is_same(&block.name()) {
            return i;
        }
    }
    blocks.len()
}

/// Writes what a statement does to the block at this index.
pub(crate) fn write(blocks: &mut Vec<UsedBlock>, at: usize, effect: &Effect)
    requires { at < length blocks.old.items }
    ensures { blocks.new.items ≡ slice_set blocks.old.items at (block_behind (block_at blocks.old.items at).name (effect_as effect.now) (block_at blocks.old.items at)) }
{
    blocks[at].step(effect);
}

/// Asks for memory for an open block more, and for the block at this index where it is new.
pub(crate) fn reserve(
    blocks: &mut Vec<UsedBlock>,
    stack: &mut Vec<u8>,
    opened: usize,
) -> Result<(), AllocError>
    ensures blocks { blocks.new.items ≡ blocks.old.items }
    ensures stack { stack.new.items ≡ stack.old.items }
    ensures room { OnOk result (HasRoom opened blocks.new stack.new) }
{
    stack.reserve(1)?;
    if opened == blocks.len() {
        blocks.reserve(1)?;
    }
    Ok(())
}

/// Opens the block at this index, the one behind all where it is new; there is memory for it.
pub(crate) fn open(blocks: &mut Vec<UsedBlock>, stack: &mut Vec<u8>, name: Name, opened: usize)
    requires room { HasRoom opened blocks.old stack.old }
    requires few { opened < 64 }
    ensures blocks { blocks.new.items ≡ (if opened == length blocks.old.items then blocks.old.items ++ fresh_block name ∷ [] else blocks.old.items) }
    ensures stack { stack.new.items ≡ stack.old.items ++ opened ∷ [] }
{
    if opened == blocks.len() {
        blocks.push_reserved(UsedBlock::fresh(name));
    }
    stack.push_reserved(opened as u8);
}

/// Whether both have the same blocks in the same order.
pub(crate) fn is_same_list(blocks: &[UsedBlock], other: &[UsedBlock]) -> bool
    ensures { Decides result (blocks.now ≡ other.now) }
{
    if blocks.len() != other.len() {
        return false;
    }
    for (i, block) in blocks.iter().enumerate() {
        if !block.is_same(&other[i]) {
            return false;
        }
    }
    true
}

/// Whether both are the same indexes in the same order.
pub(crate) fn is_same_stack(stack: &[u8], other: &[u8]) -> bool
    ensures { Decides result (stack.now ≡ other.now) }
{
    stack == other
}
