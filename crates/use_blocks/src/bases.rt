//! Where the blocks of a deck stand (COMPASS 60492600, blocks, labelled common; that the literals come
//! last is ours).
ghost use Rattle.std.specs.Prelude.{◌≡◌, ◌≤◌, ◌^◌, [], length, IfOk, IfSome, OnOk};
ghost use Rattle.std.specs.Map.{values_of};
ghost use Rattle.definitions.specs.Blocks.{is_common};
ghost use Rattle.definitions.specs.Lengths.{base_in, local_words, placed_row, rows_from, rows_of, total_length};
ghost use Rattle.use_blocks.specs.Joins.BlockLengths.{lengths_shown};
ghost use Rattle.use_blocks.specs.Joins.KeyedRows.{AreKeyed, keyed_rows, literals_base};

use crate::lengths::{Lengths, Words};
use crate::literals::Literals;
use crate::name_key::NameKey;
use expr_forms::Name;
use indexmap::IndexMap;
use std::alloc::{AllocError, Global};
use std::hash::RandomState;
use std::marker::Model;

/// A block with its base and its length, in words. Contracts see the definitions' record.
#[derive(Drop)]
pub struct BlockRow {
    name: Name,
    base: u64,
    words: u32,
}

impl Model for BlockRow {
    ghost use Rattle.definitions.specs.Lengths as definitions;

    ghost Value = { definitions.BlockRow };

    ghost view = { λ r. record { name = r.name; base = r.base; words = r.words } };
}

impl BlockRow {
    /// A block that stands at a base, if it is a local one; a common block stands at 0.
    fn placed(base: u64, name: &Name, words: u32) -> BlockRow
        ensures { result ≡ placed_row base (record { name = name.now; words = words }) }
    {
        BlockRow {
            name: *name,
            base: if is_common(name) { 0 } else { base },
            words,
        }
    }

    /// The name of the block.
    pub fn name(&self) -> &Name
        ensures { result.now ≡ self.now.name }
    {
        &self.name
    }

    /// The first word of the block, counted in its deck; of a common block, whose place the link finds, 0.
    pub fn base(&self) -> u64
        ensures { result ≡ self.now.base }
    {
        self.base
    }

    /// How many words it has.
    pub fn words(&self) -> u32
        ensures { result ≡ self.now.words }
    {
        self.words
    }

    /// The words that it takes in its deck; a common block takes none there.
    pub fn local_words(&self) -> u32
        ensures { result ≡ local_words self.now }
    {
        if is_common(&self.name) { 0 } else { self.words }
    }
}

/// Whether a block is a common one, which is named with its slashes.
pub fn is_common(name: &Name) -> bool
    ensures { result ≡ is_common name.now }
{
    match name.as_slice().first() {
        Some(c) => *c == b'/',
        None => false,
    }
}

/// The blocks of a deck with their bases. Contracts see the rows, in order of first use, the literals
/// last, where there are any. The row of a block is found by its name, that of the literals by none, since
/// a block may have any; what stands under the name of the literals is found once.
#[derive(Drop)]
pub struct Bases {
    rows: Rows,
    literals: u64,
    end: u64,
}

/// The row of each name, and that of the literals.
type Rows = IndexMap<Option<NameKey>, BlockRow, RandomState>;

impl Model for Bases {
    ghost use Rattle.std.specs.Prelude.{◌≡◌, List};
    ghost use Rattle.std.specs.Map.{values_of};
    ghost use Rattle.definitions.specs.Blocks.{literals_block};
    ghost use Rattle.definitions.specs.Lengths.{BlockRow, base_in, total_length};
    ghost use Rattle.use_blocks.specs.Joins.KeyedRows.{AreKeyed};

    ghost Value = { List BlockRow };

    ghost view = { λ b. values_of b.rows.entries };

    ghost invariant = { λ b. (b.end ≡ total_length (values_of b.rows.entries)) × (b.literals ≡ base_in literals_block (values_of b.rows.entries)) × AreKeyed b.rows.entries };
}

impl Bases {
    /// The bases of blocks of these lengths, and of the literals behind them, in a table that is kept by the
    /// keys of the lengths.
    pub fn new(alloc: Global, lengths: &Lengths, literals: &Literals) -> Result<Bases, AllocError>
        ensures rows { IfOk result (λ bases. bases ≡ rows_of lengths.now literals.now) }
    {
        let blocks = lengths.blocks();
        let keys = *blocks.hasher();
        let mut rows = IndexMap::with_capacity_and_hasher(alloc, blocks.len() + 1, keys)?;
        let end = place_blocks(&mut rows, blocks)?;
        let words = literals.len();
        if words == 0 {
            return Ok(Bases::found(rows, end));
        }
        let row = BlockRow {
            name: Name::new(b"="),
            base: end,
            words: words as u32,
        };
        rows.insert(None, row)?;
        Ok(Bases::found(rows, end + words as u64))
    }

    /// Those of these rows, which take so many words.
    fn found(rows: Rows, end: u64) -> Bases
        requires keyed { AreKeyed rows.entries }
        requires end { end ≡ total_length (values_of rows.entries) }
        ensures { result ≡ values_of rows.entries }
    {
        let literals = base_found(&rows, &Name::new(b"="));
        Bases {
            rows,
            literals,
            end,
        }
    }

    /// The blocks with their bases, the literals last.
    pub fn rows(&self) -> &[BlockRow]
        ensures { result.now ≡ self.now }
    {
        self.rows.values().as_slice()
    }

    /// The words of all local blocks together, the literals among them.
    pub fn total_length(&self) -> u64
        ensures { result ≡ total_length self.now }
    {
        self.end
    }

    /// The base of a block; 0 of one that is not there. The literals and the first blocks, which most words of
    /// most decks stand in, are found without a key.
    pub fn base(&self, name: &Name) -> u64
        ensures { result ≡ base_in name.now self.now }
    {
        if name.is_same(&Name::new(b"=")) {
            return self.literals;
        }
        match front_base(self.rows(), name) {
            Some(base) => base,
            None => base_found(&self.rows, name),
        }
    }
}

/// How many blocks are looked at before one is looked up.
const FRONT: usize = 4;

/// The base of the row of this name, where it is one of the first.
fn front_base(rows: &[BlockRow], name: &Name) -> Option<u64>
    ensures { IfSome result (λ base. base ≡ base_in name.now rows.now) }
{
    let mut rest = rows;
    for _ in 0..FRONT {
        let (first, behind) = rest.split_first()?;
        if name.is_same(&first.name) {
            return Some(first.base());
        }
        rest = behind;
    }
    None
}

/// The base of the row of this name; 0 of one that is not there.
fn base_found(rows: &Rows, name: &Name) -> u64
    ensures { AreKeyed rows.now.entries → result ≡ base_in name.now (values_of rows.now.entries) }
{
    match rows.get(&Some(NameKey::new(name))) {
        Some(row) => row.base(),
        None => literals_base(rows, name),
    }
}

/// The base of the literals, where this is their name; else 0.
fn literals_base(rows: &Rows, name: &Name) -> u64
    ensures { result ≡ literals_base name.now rows.now.entries }
{
    if !name.is_same(&Name::new(b"=")) {
        return 0;
    }
    match rows.get(&None) {
        Some(row) => row.base,
        None => 0,
    }
}

/// Adds the rows of some blocks, each local one at the end of those before it, and returns where the last
/// one ends.
fn place_blocks(rows: &mut Rows, blocks: &Words) -> Result<u64, AllocError>
    requires empty { rows.old.entries ≡ [] }
    requires few { length blocks.now.entries ≤ 64 }
    ensures rows { OnOk result (rows.new.entries ≡ keyed_rows (rows_from 0 (lengths_shown blocks.now.entries))) }
    ensures end { IfOk result (λ end. end ≡ total_length (rows_from 0 (lengths_shown blocks.now.entries))) }
    ensures within { IfOk result (λ end. end ≤ 2 ^ 38) }
{
    let mut end = 0;
    for (name, words) in blocks.iter() {
        let row = BlockRow::placed(end, name.name(), *words);
        end += row.local_words() as u64;
        rows.insert(Some(NameKey::new(name.name())), row)?;
    }
    Ok(end)
}
