//! Names as keys of a map.
ghost use Rattle.std.specs.Prelude.{[], ◌≡◌, ◌∷◌};
ghost use Rattle.std.specs.Cmp.{partial_equiv_from_equiv};
ghost use Rattle.definitions.specs.Characters.{same_text};
ghost use Rattle.use_blocks.specs.Joins.NameKeys.{alone, alone_same, same_text_equivalence};

use expr_forms::Name;
use std::hash::{Hash, Hasher};
use std::marker::Model;

/// A name that is the key of a map. Contracts see the list of its characters.
#[derive(Drop)]
pub struct NameKey {
    name: Name,
}

impl Model for NameKey {
    ghost use Rattle.std.specs.Prelude.{ℕ, List};

    ghost Value = { List ℕ };

    ghost view = { λ k. k.name };
}

impl NameKey {
    pub fn new(name: &Name) -> NameKey
        ensures { result ≡ name.now }
    {
        NameKey { name: *name }
    }

    pub fn name(&self) -> &Name
        ensures { result.now ≡ self.now }
    {
        &self.name
    }
}

impl PartialEq for NameKey {
    ghost eq = { same_text };

    ghost laws = { partial_equiv_from_equiv same_text_equivalence };

    fn eq(&self, other: &NameKey) -> bool {
        self.name.is_same(&other.name)
    }
}

impl Eq for NameKey {
    ghost laws = { same_text_equivalence };
}

impl Hash for NameKey {
    ghost hash_input = { alone };

    ghost respects_eq = { alone_same };

    fn hash<H: Hasher>(&self, state: &mut H) {
        state.write(self.name.as_slice());
    }
}
