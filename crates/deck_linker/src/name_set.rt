//! Sets of names.
ghost use Rattle.std.specs.Prelude.{◌≡◌, [], OnOk};
ghost use Rattle.definitions.specs.Blocks.{is_named};
ghost use Rattle.deck_linker.specs.Joins.Names.{with_entries, with_name};

use deck_objects::Entry;
use expr_forms::Name;
use indexmap::IndexSet;
use std::alloc::{AllocError, Global};
use std::hash::RandomState;
use std::marker::Model;
use use_blocks::NameKey;

/// A set of names. Contracts see the list of the names in order of first use, each once.
#[derive(Drop)]
pub(crate) struct NameSet {
    names: IndexSet<NameKey, RandomState>,
}

impl Model for NameSet {
    ghost use Rattle.std.specs.Prelude.{ℕ, List};

    ghost Value = { List (List ℕ) };

    ghost view = { λ s. s.names.keys };
}

impl NameSet {
    /// No names.
    pub(crate) fn new(alloc: Global, keys: RandomState) -> NameSet
        ensures { result ≡ [] }
    {
        NameSet {
            names: IndexSet::with_hasher(alloc, keys),
        }
    }

    /// Whether a name is among them.
    pub(crate) fn contains(&self, name: &Name) -> bool
        ensures { result ≡ is_named name.now self.now }
    {
        self.names.contains(&NameKey::new(name))
    }

    /// Adds a name, where it is not among them.
    pub(crate) fn add(&mut self, name: &Name) -> Result<(), AllocError>
        ensures { OnOk result (self.new ≡ with_name name.now self.old) }
    {
        self.names.insert(NameKey::new(name))?;
        Ok(())
    }

    /// Adds the names that a deck enters.
    pub(crate) fn add_entries(&mut self, entries: &[Entry]) -> Result<(), AllocError>
        ensures { OnOk result (self.new ≡ with_entries entries.now self.old) }
    {
        for entry in entries {
            self.add(entry.name())?;
        }
        Ok(())
    }
}
