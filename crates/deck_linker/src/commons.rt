//! The common blocks of a link (COMPASS 60492600, labelled common; where they stand is ours).
ghost use Rattle.std.specs.Prelude.{◌≡◌, ◌≤◌, [], map, IfOk};
ghost use Rattle.std.specs.Cmp.{partial_equiv_from_equiv};
ghost use Rattle.definitions.specs.Layout.{commons_from, common_base, common_lengths, end_after_common, placed_common};
ghost use Rattle.deck_linker.specs.Joins.CommonWords.{common_place};
ghost use Rattle.deck_linker.specs.Joins.CommonSets.{alone_of_alike, are_named_alike, are_named_alike_equivalence};
ghost use Rattle.use_blocks.specs.Joins.NameKeys.{alone};

use crate::based::{Based, MEMORY_END};
use crate::common_table::CommonTable;
use expr_forms::Name;
use indexmap::IndexSet;
use std::alloc::{AllocError, Global};
use std::hash::{Hash, Hasher, RandomState};
use std::marker::Model;

/// A common block of a link: its length in words, its base, and whether it passes the end of memory.
/// A link has one of each name, so two are equal where their names are. Contracts see the definitions' record.
#[derive(Drop)]
pub struct Common {
    name: Name,
    words: u32,
    base: u32,
    is_past: bool,
}

impl Model for Common {
    ghost use Rattle.definitions.specs.Layout as definitions;

    ghost Value = { definitions.Common };

    ghost view = { λ c. record { name = c.name; words = c.words; base = c.base; is_past = c.is_past } };
}

impl Common {
    /// One by which that of its name is found.
    fn named(name: &Name) -> Common
        ensures { result.name ≡ name.now }
    {
        Common {
            name: *name,
            words: 0,
            base: 0,
            is_past: false,
        }
    }

    pub fn name(&self) -> &Name
        ensures { result.now ≡ self.now.name }
    {
        &self.name
    }

    pub fn words(&self) -> u32
        ensures { result ≡ self.now.words }
    {
        self.words
    }

    /// The address of its first word; 0 where it passes the end of memory.
    pub fn base(&self) -> u32
        ensures { result ≡ self.now.base }
    {
        self.base
    }

    pub fn is_past(&self) -> bool
        ensures { result ≡ self.now.is_past }
    {
        self.is_past
    }
}

impl PartialEq for Common {
    ghost eq = { are_named_alike };

    ghost laws = { partial_equiv_from_equiv are_named_alike_equivalence };

    fn eq(&self, other: &Common) -> bool {
        self.name.is_same(&other.name)
    }
}

impl Eq for Common {
    ghost laws = { are_named_alike_equivalence };
}

impl Hash for Common {
    ghost hash_input = { λ c. alone c.name };

    ghost respects_eq = { alone_of_alike };

    fn hash<H: Hasher>(&self, state: &mut H) {
        state.write(self.name.as_slice());
    }
}

/// A common block where those before it end at a base, and where they end with it. One that would pass
/// the end of memory has base 0 and moves no other.
pub(crate) fn place_common(base: u32, name: &Name, words: u32) -> (Common, u32)
    requires { base ≤ 0o400000 }
    ensures common { result.0 ≡ placed_common base (record { name = name.now; words = words }) }
    ensures end { result.1 ≡ end_after_common base (record { name = name.now; words = words }) }
    ensures within { result.1 ≤ 0o400000 }
{
    let is_past = words > MEMORY_END - base;
    let common = Common {
        name: *name,
        words,
        base: if is_past { 0 } else { base },
        is_past,
    };
    (common, if is_past { base } else { base + words })
}

/// The common blocks of a link. Contracts see the list of them, in order of first use.
#[derive(Drop)]
pub(crate) struct Commons {
    blocks: IndexSet<Common, RandomState>,
}

impl Model for Commons {
    ghost use Rattle.std.specs.Prelude.{List};
    ghost use Rattle.definitions.specs.Layout as definitions;

    ghost Value = { List definitions.Common };

    ghost view = { λ c. c.blocks.keys };
}

impl Commons {
    /// The common blocks of these decks, from a base on.
    pub(crate) fn new(
        alloc: Global,
        keys: RandomState,
        base: u32,
        decks: &[Based],
    ) -> Result<Commons, AllocError>
        requires { base ≤ 0o400000 }
        ensures { IfOk result (λ commons. commons ≡ commons_from base (common_lengths (map (λ based. based.object) decks.now) [])) }
    {
        let table = CommonTable::of_decks(alloc, keys, decks)?;
        let blocks = table.placed(alloc, keys, base)?;
        Ok(Commons { blocks })
    }

    /// The common blocks in order of first use.
    pub(crate) fn as_slice(&self) -> &[Common]
        ensures { result.now ≡ self.now }
    {
        self.blocks.as_slice()
    }

    /// The place of a common block, if it is there.
    pub(crate) fn place(&self, name: &Name) -> Option<usize>
        ensures { result ≡ common_place name.now self.now }
    {
        self.blocks.get_index_of(&Common::named(name))
    }

    /// The base of a common block; 0 of one that is not there.
    pub(crate) fn base(&self, name: &Name) -> u32
        ensures { result ≡ common_base name.now self.now }
    {
        match self.blocks.get(&Common::named(name)) {
            Some(common) => common.base(),
            None => 0,
        }
    }
}
