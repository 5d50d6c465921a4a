//! What the decks of a link enter: for each name the value of its first entry in deck order.
ghost use Rattle.std.specs.Prelude.{ℕ, ◌≡◌, ◌<◌, ◌^◌, List, OnOk, IfOk, unsigned_abs};
ghost use Rattle.indexmap.specs.IndexMap.{get};
ghost use Rattle.std.specs.Option.{option_or};
ghost use Rattle.definitions.specs.Characters.{same_text};
ghost use Rattle.definitions.specs.LinkValues.{entered, entered_in};
ghost use Rattle.deck_linker.specs.Joins.Placing.{entry_alone};

use crate::based::Based;
use crate::commons::Commons;
use crate::values::entry_value;
use deck_objects::Entry;
use expr_forms::Name;
use indexmap::IndexMap;
use std::alloc::{AllocError, Global};
use std::hash::RandomState;
use std::marker::Model;
use use_blocks::NameKey;

/// The value of an entry. Contracts see the number.
#[derive(Drop)]
pub(crate) struct EntryValue {
    number: i128,
}

impl Model for EntryValue {
    ghost use Rattle.std.specs.Prelude.{ℤ, ◌<◌, ◌^◌, unsigned_abs};

    ghost Value = { ℤ };

    ghost view = { λ v. v.number };

    ghost invariant = { λ v. unsigned_abs v.number < 2 ^ 65 };
}

impl EntryValue {
    pub(crate) fn new(number: i128) -> EntryValue
        requires { unsigned_abs number < 2 ^ 65 }
        ensures { result ≡ number }
    {
        EntryValue { number }
    }

    pub(crate) fn number(&self) -> i128
        ensures number { result ≡ self.now }
        ensures small { unsigned_abs result < 2 ^ 65 }
    {
        self.number
    }
}

/// For each name that the decks enter, the value of its first entry.
pub(crate) type EntryTable = IndexMap<NameKey, EntryValue, RandomState>;

/// Enters a value under a name that has none yet.
pub(crate) fn enter(
    table: &mut EntryTable,
    name: &Name,
    value: EntryValue,
) -> Result<(), AllocError>
    ensures { OnOk result ((other : List ℕ) → get same_text table.new other ≡ option_or (get same_text table.old other) (entry_alone other name.now value)) }
{
    let key = NameKey::new(name);
    if !table.contains_key(&key) {
        table.insert(key, value)?;
    }
    Ok(())
}

/// Enters the entries of a deck.
fn enter_deck(
    table: &mut EntryTable,
    commons: &Commons,
    based: &Based,
    entries: &[Entry],
) -> Result<(), AllocError>
    ensures { OnOk result ((name : List ℕ) → get same_text table.new name ≡ option_or (get same_text table.old name) (entered_in name commons.now based.now entries.now)) }
{
    for entry in entries {
        let value = entry_value(commons, based, entry);
        enter(table, entry.name(), EntryValue::new(value))?;
    }
    Ok(())
}

/// What these decks enter.
pub(crate) fn enter_decks(
    alloc: Global,
    keys: RandomState,
    commons: &Commons,
    decks: &[Based],
) -> Result<EntryTable, AllocError>
    ensures { IfOk result (λ table. (name : List ℕ) → get same_text table name ≡ entered name commons.now decks.now) }
{
    let mut table = IndexMap::with_hasher(alloc, keys);
    for based in decks {
        enter_deck(
            &mut table,
            commons,
            based,
            based.object().parts().entries.as_slice(),
        )?;
    }
    Ok(table)
}
