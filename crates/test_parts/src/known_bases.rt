//! Symbols and blocks for the fields of statements, as the rows give them.
ghost use Rattle.std.specs.Prelude.{◌∷◌, [], Ok, codes};

use crate::known_names::KnownNames;
use definitions::Letter;
use expr_forms::{Form, Literal, Name};
use statement_coder::{BlockBases, EarlySymbols, FinalSymbols};

impl EarlySymbols for KnownNames {
    ghost view = { λ known _. known.value };

    fn symbol(&self, _name: &[u8]) -> Option<Form> {
        self.value
    }
}

impl FinalSymbols for KnownNames {
    ghost symbols = { λ known _. known.value };

    ghost literals = { λ known _. Ok known.literal };

    fn symbol(&self, _name: &[u8]) -> Option<Form> {
        self.value
    }

    fn literal(&self, _literal: Literal<'_>) -> Result<Form, Letter> {
        Ok(self.literal)
    }
}

/// All blocks stand at 0.
pub struct NoBases;

impl BlockBases for NoBases {
    ghost rows = { λ b. [] };

    fn base(&self, _name: &Name) -> u64 {
        0
    }
}

/// The one block A, at word 100 octal.
pub struct OneBlock;

impl BlockBases for OneBlock {
    ghost rows = { λ one. record { name = codes "A"; base = 64; words = 8 } ∷ [] };

    fn base(&self, name: &Name) -> u64 {
        if name.is_same(&Name::new(b"A")) {
            0o100
        } else {
            0
        }
    }
}
