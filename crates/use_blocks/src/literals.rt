//! The literals of a deck, each distinct word once, in order of first use (COMPASS 60492600, literals).
ghost use Rattle.std.specs.Prelude.{◌≡◌, ◌==◌, ◌<◌, ◌≤◌, [], false, length, OnOk, OnErr};
ghost use Rattle.std.specs.List.{list_any};
ghost use Rattle.definitions.specs.Literals.{offset_of, with_word};

use indexmap::IndexSet;
use std::alloc::{AllocError, Global};
use std::hash::RandomState;
use std::marker::Model;

/// How many words the literals block has at most (ours).
const MOST_LITERALS: usize = 131072;

/// The words of the literals block. Contracts see their list, in order of first use. A look-up takes
/// about as long whatever the words are, since their places among the others go by keys that nobody knows.
#[derive(Drop)]
pub struct Literals {
    words: IndexSet<u64, RandomState>,
}

impl Model for Literals {
    ghost use Rattle.std.specs.Prelude.{ℕ, List, ◌≤◌, length};

    ghost Value = { List ℕ };

    ghost view = { λ l. l.words.keys };

    ghost invariant = { λ l. length l.words.keys ≤ 131072 };
}

impl Literals {
    /// No literals, in a table that is kept by these keys.
    pub fn new(alloc: Global, keys: RandomState) -> Literals
        ensures { result ≡ [] }
    {
        Literals {
            words: IndexSet::with_hasher(alloc, keys),
        }
    }

    /// Takes in a word that is not yet there, if there is room for it. Without memory the words are
    /// as before; nothing else takes memory.
    pub fn add(&mut self, word: u64) -> Result<(), AllocError>
        ensures added { OnOk result (self.new ≡ with_word word self.old) }
        ensures without_memory { OnErr result (self.new ≡ self.old) }
        ensures absent { OnErr result (list_any (λ other. other == word) self.old ≡ false) }
        ensures room { OnErr result (length self.old < 131072) }
    {
        if self.words.len() >= MOST_LITERALS {
            return Ok(());
        }
        self.words.insert(word)?;
        Ok(())
    }

    /// How many words stand in front of this one; all, where it is not there.
    pub fn offset(&self, word: u64) -> usize
        ensures { result ≡ offset_of word self.now }
    {
        match self.words.get_index_of(&word) {
            Some(offset) => offset,
            None => self.words.len(),
        }
    }

    /// The number of words.
    pub fn len(&self) -> usize
        ensures words { result ≡ length self.now }
        ensures few { result ≤ 131072 }
    {
        self.words.len()
    }

    /// The words in order of first use.
    pub fn words(&self) -> &[u64]
        ensures { result.now ≡ self.now }
    {
        self.words.as_slice()
    }
}
