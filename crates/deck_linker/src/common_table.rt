//! The lengths of the common blocks of a link.
ghost use Rattle.std.specs.Prelude.{◌≡◌, ◌≤◌, [], map, OnOk, IfOk};
ghost use Rattle.definitions.specs.Layout.{with_common, with_commons, common_lengths, commons_from};
ghost use Rattle.deck_linker.specs.Joins.CommonLengths.{widened};

use crate::based::Based;
use crate::commons::{Common, place_common};
use indexmap::{IndexMap, IndexSet};
use std::alloc::{AllocError, Global};
use std::hash::RandomState;
use std::marker::Model;
use use_blocks::{BlockRow, NameKey, is_common};

/// Common blocks with their lengths. Contracts see them in order of first use, each name once.
#[derive(Drop)]
pub(crate) struct CommonTable {
    lengths: IndexMap<NameKey, u32, RandomState>,
}

impl Model for CommonTable {
    ghost use Rattle.std.specs.Prelude.{List};
    ghost use Rattle.definitions.specs.Lengths.{BlockLength};
    ghost use Rattle.deck_linker.specs.Joins.CommonLengths.{lengths_shown};

    ghost Value = { List BlockLength };

    ghost view = { λ t. lengths_shown t.lengths.entries };
}

/// The greater of two lengths, where there are two.
fn widened(length: Option<u32>, words: u32) -> u32
    ensures { result ≡ widened length words }
{
    match length {
        Some(length) => length.max(words),
        None => words,
    }
}

impl CommonTable {
    /// No common blocks.
    pub(crate) fn new(alloc: Global, keys: RandomState) -> CommonTable
        ensures { result ≡ [] }
    {
        CommonTable {
            lengths: IndexMap::with_hasher(alloc, keys),
        }
    }

    /// The common blocks of these decks.
    pub(crate) fn of_decks(
        alloc: Global,
        keys: RandomState,
        decks: &[Based],
    ) -> Result<CommonTable, AllocError>
        ensures { IfOk result (λ table. table ≡ common_lengths (map (λ based. based.object) decks.now) []) }
    {
        let mut table = CommonTable::new(alloc, keys);
        for based in decks {
            table.add_rows(based.object().parts().bases.rows())?;
        }
        Ok(table)
    }

    /// The common blocks among the rows of a deck.
    pub(crate) fn add_rows(&mut self, rows: &[BlockRow]) -> Result<(), AllocError>
        ensures { OnOk result (self.new ≡ with_commons rows.now self.old) }
    {
        for row in rows {
            if is_common(row.name()) {
                self.add(row)?;
            }
        }
        Ok(())
    }

    /// A common block of a deck: those of one name are one, of the greatest length.
    fn add(&mut self, row: &BlockRow) -> Result<(), AllocError>
        ensures { OnOk result (self.new ≡ with_common row.now self.old) }
    {
        let key = NameKey::new(row.name());
        let words = widened(self.lengths.get(&key).copied(), row.words());
        self.lengths.insert(key, words)?;
        Ok(())
    }

    /// The common blocks one behind the other, from a base on.
    pub(crate) fn placed(
        &self,
        alloc: Global,
        keys: RandomState,
        base: u32,
    ) -> Result<IndexSet<Common, RandomState>, AllocError>
        requires { base ≤ 0o400000 }
        ensures { IfOk result (λ commons. commons.keys ≡ commons_from base self.now) }
    {
        let mut commons = IndexSet::with_hasher(alloc, keys);
        let mut end = base;
        for (name, words) in self.lengths.iter() {
            let (common, behind) = place_common(end, name.name(), *words);
            commons.insert(common)?;
            end = behind;
        }
        Ok(commons)
    }
}
