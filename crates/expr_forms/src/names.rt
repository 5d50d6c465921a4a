//! Names of symbols, blocks and externals, inline.
ghost use Rattle.std.specs.Prelude.{◌≡◌, ◌≤◌, length};
ghost use Rattle.definitions.specs.Characters.{same_text};

use std::marker::Model;

/// How many characters a name has at most: 8 of a symbol, and those of a common block with a slash
/// on either side.
const MOST_CHARACTERS: usize = 9;

/// A name of at most 9 characters. Contracts see the list of its characters.
#[derive(Clone, Copy, PartialEq, Eq)]
pub struct Name {
    characters: [u8; MOST_CHARACTERS],
    len: u8,
}

impl Model for Name {
    ghost use Rattle.std.specs.Prelude.{ℕ, List, ◌-◌, ◌++◌, length, take, replicate};
    ghost use Rattle.expr_forms.specs.Joins.NamesInline.{IsName, characters_back, len_back};

    ghost Value = { List ℕ };

    ghost view = { λ n. take n.len n.characters };

    ghost invariant = { λ n. IsName n.len n.characters };

    ghost inverse = { λ v. record { characters = v ++ replicate (9 - length v) 0; len = length v } };

    ghost inverse_ok = { λ n h i. record {
      characters = characters_back n.len n.characters h i;
      len = len_back n.len n.characters h i;
    } };
}

impl Name {
    /// The name with these characters, at most 9.
    pub fn new(text: &[u8]) -> Name
        requires { length text.now ≤ 9 }
        ensures { result ≡ text.now }
    {
        let mut characters = [0; MOST_CHARACTERS];
        characters.split_at_mut(text.len()).0.copy_from_slice(text);
        Name {
            characters,
            len: text.len() as u8,
        }
    }

    pub fn as_slice(&self) -> &[u8]
        ensures name { result.now ≡ self.now }
        ensures short { length self.now ≤ 9 }
    {
        self.characters.split_at(usize::from(self.len)).0
    }

    /// Whether both have the same characters; the zeros behind them are compared too.
    pub fn is_same(&self, other: &Name) -> bool
        ensures { result ≡ same_text self.now other.now }
    {
        self.len == other.len && self.characters == other.characters
    }
}
