//! The places of the decks of a link, and behind them those of their common blocks (ours).
ghost use Rattle.std.specs.Prelude.{◌≡◌, ◌≤◌, ◌<◌, ◌+◌, ◌^◌, map, IfOk, IfSome, unsigned_abs};
ghost use Rattle.definitions.specs.Layout.{based_from, block_base, common_base, end_of_decks, first_base, layout_of};
ghost use Rattle.definitions.specs.LinkValues.{entered, entry_value, external_value, linked_value};
ghost use Rattle.definitions.specs.Objects.{object_of};
ghost use Rattle.deck_linker.specs.Joins.CommonWords.{common_place};
ghost use Rattle.deck_linker.specs.Joins.Placing.{external_in};

use crate::based::{Based, place};
use crate::commons::{Common, Commons};
use crate::entry_table::{EntryTable, enter_decks};
use crate::values::{block_base, entry_value, external_name, value_with};
use deck_objects::{Entry, SharedObject};
use expr_forms::{Form, Name};
use std::alloc::{AllocError, Global};
use std::hash::RandomState;
use std::marker::Model;
use use_blocks::NameKey;

/// Where the first REL deck stands.
const FIRST_BASE: u32 = 0o100;

/// Decks and common blocks in their places. Contracts see the definitions' record.
#[derive(Drop)]
pub struct Layout {
    decks: Vec<Based>,
    commons: Commons,
    entries: EntryTable,
}

impl Model for Layout {
    ghost use Rattle.std.specs.Prelude.{ℕ, ◌≡◌, List};
    ghost use Rattle.indexmap.specs.IndexMap.{get};
    ghost use Rattle.definitions.specs.Characters.{same_text};
    ghost use Rattle.definitions.specs.Layout as definitions;
    ghost use Rattle.definitions.specs.LinkValues.{entered};

    ghost Value = { definitions.Layout };

    ghost view = { λ l. record { decks = l.decks.items; commons = l.commons } };

    ghost invariant = { λ l. (name : List ℕ) → get same_text l.entries name ≡ entered name l.commons l.decks.items };
}

/// The objects in their places, and where the last REL deck ends that passes no end of memory.
fn place_decks(alloc: Global, objects: Vec<SharedObject>) -> Result<(Vec<Based>, u32), AllocError>
    ensures decks { IfOk result (λ placed. placed.0.items ≡ based_from first_base (map object_of objects.items)) }
    ensures end { IfOk result (λ placed. placed.1 ≡ end_of_decks first_base (map object_of objects.items)) }
    ensures within { IfOk result (λ placed. placed.1 ≤ 0o400000) }
{
    let mut decks = Vec::with_capacity(alloc, objects.len())?;
    let mut end = FIRST_BASE;
    for object in objects {
        let (based, behind) = place(end, object);
        decks.push(based)?;
        end = behind;
    }
    Ok((decks, end))
}

impl Layout {
    /// The layout of these objects, in this order: each REL deck stands at the end of those before it.
    /// Without memory for it the objects are freed.
    pub fn new(
        alloc: Global,
        keys: RandomState,
        objects: Vec<SharedObject>,
    ) -> Result<Layout, AllocError>
        ensures { IfOk result (λ layout. layout ≡ layout_of (map object_of objects.items)) }
    {
        let (decks, end) = place_decks(alloc, objects)?;
        let commons = Commons::new(alloc, keys, end, decks.as_slice())?;
        let entries = enter_decks(alloc, keys, &commons, decks.as_slice())?;
        Ok(Layout {
            decks,
            commons,
            entries,
        })
    }

    /// The decks in order.
    pub fn decks(&self) -> &[Based]
        ensures { result.now ≡ self.now.decks }
    {
        self.decks.as_slice()
    }

    /// The common blocks in order of first use.
    pub fn commons(&self) -> &[Common]
        ensures { result.now ≡ self.now.commons }
    {
        self.commons.as_slice()
    }

    /// The base of a common block; 0 of one that is not there.
    pub fn common_base(&self, name: &Name) -> u32
        ensures { result ≡ common_base name.now self.now.commons }
    {
        self.commons.base(name)
    }

    /// The place of a common block among all of them, if it is there.
    pub(crate) fn common_place(&self, name: &Name) -> Option<usize>
        ensures { result ≡ common_place name.now self.now.commons }
    {
        self.commons.place(name)
    }

    /// Where a block of a deck stands.
    pub fn block_base(&self, based: &Based, name: &Name) -> u128
        ensures base { result ≡ block_base self.now.commons based.now name.now }
        ensures small { result < 2 ^ 64 + 2 ^ 32 }
    {
        block_base(&self.commons, based, name)
    }

    /// The value of the first entry of a name in deck order, if a deck has it.
    pub fn entered(&self, name: &Name) -> Option<i128>
        ensures value { result ≡ entered name.now self.now.commons self.now.decks }
        ensures small { IfSome result (λ value. unsigned_abs value < 2 ^ 65) }
    {
        match self.entries.get(&NameKey::new(name)) {
            Some(value) => Some(value.number()),
            None => None,
        }
    }

    /// The value of an external: that of the first entry of its name; a missing one is 0.
    pub fn external_value(&self, name: &Name) -> i128
        ensures value { result ≡ external_value self.now name.now }
        ensures small { unsigned_abs result < 2 ^ 65 }
    {
        self.entered(name).unwrap_or(0)
    }

    /// The value of an entry of a deck.
    pub fn entry_value(&self, based: &Based, entry: &Entry) -> i128
        ensures value { result ≡ entry_value self.now.commons based.now entry.now }
        ensures small { unsigned_abs result < 2 ^ 65 }
    {
        entry_value(&self.commons, based, entry)
    }

    /// The value of a form in its deck, with the externals that the decks enter.
    pub fn linked_value(&self, based: &Based, form: Form) -> i128
        ensures value { result ≡ linked_value self.now based.now form }
        ensures small { unsigned_abs result < 2 ^ 66 }
    {
        value_with(&self.commons, based, form, self.external_of(form))
    }

    /// The value of the external of a form, or 0 where it has none.
    fn external_of(&self, form: Form) -> i128
        ensures value { result ≡ external_in (external_value self.now) form.part }
        ensures small { unsigned_abs result < 2 ^ 65 }
    {
        match external_name(form) {
            None => 0,
            Some(name) => self.external_value(&name),
        }
    }
}
