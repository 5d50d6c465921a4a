//! The state between statements: what those before a statement leave of blocks, number base and kind.
ghost use Rattle.std.specs.Prelude.{◌≡◌, ◌<◌, ◌≤◌, [], false, Ok, Some, length, slice_get, unwrap_or, IfOk, OnOk, OnErr};
ghost use Rattle.std.specs.Bool.{Decides};
ghost use Rattle.definitions.specs.Operands.{UseName};
ghost use Rattle.definitions.specs.Blocks.{nominal, block_in_use, change_of};
ghost use Rattle.definitions.specs.Settled.{Opens, Closes};
ghost use Rattle.definitions.specs.Counters.{counters_at};
ghost use Rattle.definitions.specs.Laws.States.{state_after, names_of_blocks, advanced};
ghost use Rattle.use_blocks.specs.Joins.EffectsAs.{change_as, effect_as};
ghost use Rattle.use_blocks.specs.Joins.StateInside.{block_at};
ghost use Rattle.use_blocks.specs.Joins.Changes.{IsAccepted, block_now, opens, written, changed};

use crate::block_list::{
    index_in_use, index_of, is_same_list, is_same_stack, open, reserve, write,
};
use crate::counters;
use crate::effects::{BlockChange, Effect};
use crate::positions::{Counting, Position};
use crate::used_block::UsedBlock;
use definitions::{DeckKind, NumberBase};
use expr_forms::{Form, Name};
use std::alloc::{AllocError, Global};
use std::marker::Model;

/// How many blocks a deck may use, the nominal block among them.
const MOST_BLOCKS: usize = 64;

/// What the statements before a statement leave. Contracts see the definitions' record; the kind of
/// the deck, the symbols and the lengths of the blocks are no part of it.
#[derive(Drop)]
pub struct BlockState {
    blocks: Vec<UsedBlock>,
    stack: Vec<u8>,
    number_base: NumberBase,
    neutral: bool,
}

impl Model for BlockState {
    ghost use Rattle.definitions.specs.Laws.States as states;
    ghost use Rattle.definitions.specs.Laws.States.{names_of_blocks};

    ghost Value = { states.BlockState };

    ghost use Rattle.use_blocks.specs.Joins.StateInside.{opened_names, IsState};

    ghost view = { λ s. record { open_names = opened_names (names_of_blocks s.blocks.items) s.stack.items; blocks = s.blocks.items; number_base = s.number_base; neutral = s.neutral } };

    ghost invariant = { λ s. IsState s.blocks.items s.stack.items };
}

impl BlockState {
    /// The state before the first statement.
    pub fn new(alloc: Global) -> Result<BlockState, AllocError>
        ensures { IfOk result (λ state. state ≡ state_after []) }
    {
        let nominal = UsedBlock::fresh(Name::new(b"0"));
        let blocks = Vec::from_slice(alloc, &[nominal])?;
        Ok(BlockState {
            blocks,
            stack: Vec::new(alloc),
            number_base: NumberBase::Decimal,
            neutral: true,
        })
    }

    /// The blocks in order of first use.
    pub fn blocks(&self) -> &[UsedBlock]
        ensures blocks { result.now ≡ self.now.blocks }
        ensures few { length result.now ≤ 64 }
    {
        self.blocks.as_slice()
    }

    /// The block in use.
    pub fn block(&self) -> UsedBlock
        ensures block { result ≡ block_now self.now }
        ensures name { result.name ≡ block_in_use self.now.open_names }
    {
        let at = index_in_use(self.stack.as_slice());
        self.blocks.as_slice()[at]
    }

    /// The index of the block in use among the blocks.
    pub(crate) fn block_index(&self) -> usize
        ensures { slice_get (names_of_blocks self.now.blocks) result ≡ Some (block_in_use self.now.open_names) }
    {
        index_in_use(self.stack.as_slice())
    }

    /// What a USE of this name makes: it is accepted where the name is used or fewer than 64 blocks
    /// are, and else changes nothing.
    pub fn use_name(&self, name: &Name) -> BlockChange
        ensures change { change_as result ≡ change_of (UseName name.now) (names_of_blocks self.now.blocks) }
        ensures accepted { IsAccepted (change_as result) self.now }
    {
        let opened = index_of(self.blocks.as_slice(), name);
        if opened < MOST_BLOCKS {
            BlockChange::Opens(*name)
        } else {
            BlockChange::Nothing
        }
    }

    /// `*O` of a statement at this place of the block in use, in units of the block.
    pub fn origin(&self, kind: DeckKind, place: u32) -> Form
        ensures { result ≡ (counters_at kind (block_in_use self.now.open_names) place (block_now self.now).counting).origin }
    {
        counters::origin(kind, &self.block().name(), place)
    }

    /// `*` of a statement at this place of the block in use, in units of the block.
    pub fn location(&self, kind: DeckKind, place: u32) -> Form
        ensures { result ≡ (counters_at kind (block_in_use self.now.open_names) place (block_now self.now).counting).location }
    {
        let block = self.block();
        counters::location(kind, &block.name(), place, block.counting())
    }

    /// The base of a number without a suffix.
    pub fn number_base(&self) -> NumberBase
        ensures { result ≡ self.now.number_base }
    {
        self.number_base
    }

    /// Whether the deck's kind may still be set.
    pub fn is_neutral(&self) -> bool
        ensures { result ≡ self.now.neutral }
    {
        self.neutral
    }

    /// A copy.
    pub fn copy(&self, alloc: Global) -> Result<BlockState, AllocError>
        ensures { IfOk result (λ state. state ≡ self.now) }
    {
        Ok(BlockState {
            blocks: Vec::from_slice(alloc, self.blocks.as_slice())?,
            stack: Vec::from_slice(alloc, self.stack.as_slice())?,
            number_base: self.number_base,
            neutral: self.neutral,
        })
    }

    /// Whether both states are the same.
    pub fn same(&self, other: &BlockState) -> bool
        ensures { Decides result (self.now ≡ other.now) }
    {
        if self.neutral != other.neutral {
            return false;
        }
        if !is_same_base(self.number_base, other.number_base) {
            return false;
        }
        if !is_same_list(self.blocks.as_slice(), other.blocks.as_slice()) {
            return false;
        }
        is_same_stack(self.stack.as_slice(), other.stack.as_slice())
    }

    /// Takes the step of a statement, whose USE was accepted. It takes memory where a block is opened
    /// alone. Without memory the state is as before.
    pub fn advance(&mut self, effect: &Effect) -> Result<(), AllocError>
        requires accepted { IsAccepted (change_as effect.now.change) self.old }
        ensures advanced { OnOk result (self.new ≡ advanced (effect_as effect.now) self.old) }
        ensures without_memory { OnErr result (self.new ≡ self.old) }
        ensures needs_none { opens (change_as effect.now.change) ≡ false → result ≡ Ok tt }
    {
        let at = index_in_use(self.stack.as_slice());
        self.change(effect.change)?;
        self.write(at, effect);
        Ok(())
    }

    /// What becomes of the stack and of the blocks. Without memory the state is as before.
    fn change(&mut self, change: BlockChange) -> Result<(), AllocError>
        requires accepted { IsAccepted (change_as change) self.old }
        ensures changed { OnOk result (self.new ≡ changed (change_as change) self.old) }
        ensures without_memory { OnErr result (self.new ≡ self.old) }
        ensures needs_none { opens (change_as change) ≡ false → result ≡ Ok tt }
    {
        match change {
            BlockChange::Nothing => Ok(()),
            BlockChange::Opens(name) => self.open(name),
            BlockChange::Closes => {
                self.close();
                Ok(())
            }
        }
    }

    /// Opens the block of a name. Without memory the state is as before.
    fn open(&mut self, name: Name) -> Result<(), AllocError>
        requires accepted { IsAccepted (Opens name) self.old }
        ensures opened { OnOk result (self.new ≡ changed (Opens name) self.old) }
        ensures without_memory { OnErr result (self.new ≡ self.old) }
    {
        let at = index_of(self.blocks.as_slice(), &name);
        reserve(&mut self.blocks, &mut self.stack, at)?;
        open(&mut self.blocks, &mut self.stack, name, at);
        Ok(())
    }

    /// Closes the latest open block, if there is one.
    fn close(&mut self)
        ensures { self.new ≡ changed Closes self.old }
    {
        self.stack.pop();
    }

    /// Writes what a statement does to its block, and to the number base and the kind.
    fn write(&mut self, at: usize, effect: &Effect)
        requires { at < length self.old.blocks }
        ensures { self.new ≡ written (block_at self.old.blocks at).name (effect_as effect.now) self.old }
    {
        write(&mut self.blocks, at, effect);
        self.number_base = number_base_behind(effect.number_base, self.number_base);
        self.neutral = effect.neutral & self.neutral;
    }
}

/// The base that is set, or else the one before.
fn number_base_behind(set: Option<NumberBase>, before: NumberBase) -> NumberBase
    ensures { result ≡ unwrap_or set before }
{
    match set {
        Some(base) => base,
        None => before,
    }
}

fn is_same_base(base: NumberBase, other: NumberBase) -> bool
    ensures { Decides result (base ≡ other) }
{
    match (base, other) {
        (NumberBase::Decimal, NumberBase::Decimal) => true,
        (NumberBase::Decimal, NumberBase::Octal) => false,
        (NumberBase::Octal, NumberBase::Decimal) => false,
        (NumberBase::Octal, NumberBase::Octal) => true,
    }
}
