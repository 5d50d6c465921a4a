//! The words that each block of a deck reached (COMPASS 60492600, blocks).
ghost use Rattle.std.specs.Prelude.{◌≡◌, ℕ, ◌<◌, ◌≤◌, List, [], ◌∷◌, Some, true, false, length, map, max, slice_get, OnOk, OnErr, IfOk, IfSome, IsSomeAnd};
ghost use Rattle.std.specs.Option.{option_map};
ghost use Rattle.definitions.specs.Blocks.{is_accepted};
ghost use Rattle.definitions.specs.Lengths as definitions;
ghost use Rattle.definitions.specs.Lengths.{lengths_of};
ghost use Rattle.definitions.specs.Settled.{Opens};
ghost use Rattle.definitions.specs.Laws.States.{Effect, state_after, names_of_blocks, lengths_advanced, lengths_behind};
ghost use Rattle.definitions.specs.declared.deck_kind.DeckKind.{DeckKind};
ghost use Rattle.use_blocks.specs.Joins.BlockLengths.{block_names, has_name, lengths_shown, opened_by, reaching};

use crate::name_key::NameKey;
use expr_forms::Name;
use indexmap::IndexMap;
use std::alloc::{AllocError, Global};
use std::hash::RandomState;
use std::marker::Model;

/// How many blocks a deck may use, the nominal block among them and the literals block not (ours).
const MOST_BLOCKS: usize = 64;

/// The words that each block reached, by its name and in order of first use. Contracts see the
/// definitions' records. A block is found by its name in about the same time whatever the names are, since
/// their places among the others go by keys that nobody knows.
#[derive(Drop)]
pub struct Lengths {
    words: Words,
}

/// How many words the block of each name has.
pub(crate) type Words = IndexMap<NameKey, u32, RandomState>;

impl Model for Lengths {
    ghost use Rattle.std.specs.Prelude.{List, ◌≤◌, length};
    ghost use Rattle.definitions.specs.Lengths.{BlockLength};
    ghost use Rattle.use_blocks.specs.Joins.BlockLengths.{lengths_shown};

    ghost Value = { List BlockLength };

    ghost view = { λ l. lengths_shown l.words.entries };

    ghost invariant = { λ l. length l.words.entries ≤ 64 };
}

impl Lengths {
    /// The nominal block, in which nothing stands yet: the lengths before the first statement, in a table
    /// that is kept by these keys.
    pub fn new(alloc: Global, keys: RandomState) -> Result<Lengths, AllocError>
        ensures lengths { IfOk result (λ lengths. (kind : DeckKind) → lengths ≡ lengths_of kind []) }
        ensures same_blocks { IfOk result (λ lengths. block_names lengths ≡ names_of_blocks (state_after []).blocks) }
    {
        let mut words = IndexMap::with_hasher(alloc, keys);
        words.insert(NameKey::new(&Name::new(b"0")), 0)?;
        Ok(Lengths { words })
    }

    /// The words of the blocks by name, in order of first use.
    pub fn blocks(&self) -> &Words
        ensures blocks { lengths_shown result.now.entries ≡ self.now }
        ensures few { length self.now ≤ 64 }
    {
        &self.words
    }

    /// A block reaches so many words.
    pub fn reach(&mut self, block: usize, words: u32)
        requires { block < length self.old }
        ensures { (b : definitions.BlockLength) → slice_get self.old block ≡ Some b → self.new ≡ map (reaching b.name words) self.old }
    {
        let (_, reached) = self.words.pair_mut(block);
        *reached = words.max(*reached);
    }

    /// Whether a USE of this name is accepted: that of a 65th block is not.
    pub fn accepts(&self, name: &Name) -> bool
        ensures { result ≡ is_accepted name.now (block_names self.now) }
    {
        has_block(&self.words, name) || self.words.len() < MOST_BLOCKS
    }

    /// A USE opens a block, which is accepted; a new one alone takes memory. Without memory all is
    /// as before.
    #[inline(never)]
    pub fn open(&mut self, name: &Name) -> Result<(), AllocError>
        requires { is_accepted name.now (block_names self.old) ≡ true }
        ensures opened { OnOk result (self.new ≡ lengths_behind (Opens name.now) self.old) }
        ensures without_memory { OnErr result (self.new ≡ self.old) }
        ensures unused { OnErr result (has_name name.now self.old ≡ false) }
    {
        if has_block(&self.words, name) {
            return Ok(());
        }
        self.words.insert(NameKey::new(name), 0)?;
        Ok(())
    }

    /// What a statement in a block does: it reaches so many words, and may open a block, which is
    /// accepted; a new one alone takes memory. Without memory all is as before.
    #[inline(always)]
    pub fn advance(
        &mut self,
        block: usize,
        words: u32,
        opened: Option<&Name>,
    ) -> Result<(), AllocError>
        requires within { block < length self.old }
        requires accepted { IfSome opened (λ name. is_accepted name.now (block_names self.old) ≡ true) }
        ensures advanced { OnOk result ((b : definitions.BlockLength) (effect : Effect) →
            slice_get self.old block ≡ Some b → effect.reached ≡ words → opened_by effect.change ≡ option_map (λ name. name.now) opened.entry →
            self.new ≡ lengths_advanced b.name effect self.old) }
        ensures without_memory { OnErr result (self.new ≡ self.old) }
        ensures opens { OnErr result (IsSomeAnd opened.entry (λ name. has_name name.now self.old ≡ false)) }
    {
        match opened {
            Some(name) => self.open(name)?,
            None => (),
        }
        self.reach(block, words);
        Ok(())
    }
}

/// Whether one of the blocks has this name.
fn has_block(words: &Words, name: &Name) -> bool
    ensures { result ≡ has_name name.now (lengths_shown words.now.entries) }
{
    words.contains_key(&NameKey::new(name))
}
