//! Texts and numbers that are kept inline, at any byte: short ones.
ghost use Rattle.std.specs.Prelude.{◌≡◌, ◌≤◌, length, IfSome};

use std::marker::Model;

/// A text of at most so many characters. Contracts see the list of its characters.
#[derive(Drop)]
pub(crate) struct KeptText<const MOST: usize> {
    len: u8,
    characters: [u8; MOST],
}

impl<const MOST: usize> Model for KeptText<MOST> {
    ghost use Rattle.std.specs.Prelude.{ℕ, List, ◌≤◌, take};

    ghost Value = { List ℕ };

    ghost view = { λ t. take t.len t.characters };

    ghost invariant = { λ t. t.len ≤ MOST };
}

impl<const MOST: usize> KeptText<MOST> {
    /// The same text, where it is short.
    #[inline(always)]
    pub(crate) fn of(text: &[u8]) -> Option<KeptText<MOST>>
        ensures { IfSome result (λ short. short ≡ text.now) }
    {
        if text.len() > MOST {
            return None;
        }
        let Ok(len) = u8::try_from(text.len()) else {
            return None;
        };
        let mut characters = [0; MOST];
        characters.split_at_mut(text.len()).0.copy_from_slice(text);
        Some(KeptText { len, characters })
    }

    #[inline(always)]
    pub(crate) fn as_slice(&self) -> &[u8]
        ensures text { result.now ≡ self.now }
        ensures short { length self.now ≤ MOST }
    {
        self.characters.split_at(usize::from(self.len)).0
    }
}

/// A number of 32 bits. Contracts see the number.
#[derive(Drop)]
pub(crate) struct KeptNumber {
    bytes: [u8; 4],
}

impl Model for KeptNumber {
    ghost use Rattle.std.specs.Prelude.{ℕ};
    ghost use Rattle.std.specs.Int.{from_le_bytes, w32};

    ghost Value = { ℕ };

    ghost view = { λ n. from_le_bytes w32 n.bytes };
}

impl KeptNumber {
    #[inline(always)]
    pub(crate) fn new(number: u32) -> KeptNumber
        ensures { result ≡ number }
    {
        KeptNumber {
            bytes: number.to_le_bytes(),
        }
    }

    #[inline(always)]
    pub(crate) fn get(&self) -> u32
        ensures { result ≡ self.now }
    {
        u32::from_le_bytes(self.bytes)
    }
}
