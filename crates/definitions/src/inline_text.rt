//! Short texts that lie in the value itself.
ghost use Rattle.std.specs.Prelude.{◌≡◌, ◌+◌, ◌<◌, ◌≤◌, ◌++◌, ◌∷◌, [], length};

use std::marker::Model;

/// A text of at most `MOST` characters, which lie in the value itself: it takes no memory. It grows at its
/// end. Contracts see the list of its characters.
#[derive(Drop)]
pub struct InlineText<const MOST: usize> {
    characters: [u8; MOST],
    len: usize,
}

impl<const MOST: usize> Model for InlineText<MOST> {
    ghost use Rattle.std.specs.Prelude.{ℕ, List, take, ◌≤◌};

    ghost Value = { List ℕ };

    ghost view = { λ t. take t.len t.characters };

    ghost invariant = { λ t. t.len ≤ MOST };
}

impl<const MOST: usize> InlineText<MOST> {
    /// A text without a character.
    #[inline(always)]
    pub fn new() -> InlineText<MOST>
        ensures { result ≡ [] }
    {
        InlineText {
            characters: [0; MOST],
            len: 0,
        }
    }

    /// The text with these characters.
    #[inline(always)]
    pub fn of(text: &[u8]) -> InlineText<MOST>
        requires { length text.now ≤ MOST }
        ensures { result ≡ text.now }
    {
        let mut characters = [0; MOST];
        characters.split_at_mut(text.len()).0.copy_from_slice(text);
        InlineText {
            characters,
            len: text.len(),
        }
    }

    /// The same text once more.
    #[inline(always)]
    pub fn copied(&self) -> InlineText<MOST>
        ensures { result ≡ self.now }
    {
        InlineText {
            characters: self.characters,
            len: self.len,
        }
    }

    #[inline(always)]
    pub fn as_slice(&self) -> &[u8]
        ensures text { result.now ≡ self.now }
        ensures short { length self.now ≤ MOST }
    {
        self.characters.split_at(self.len).0
    }

    /// Takes all characters out.
    #[inline(always)]
    pub fn clear(&mut self)
        ensures { self.new ≡ [] }
    {
        self.len = 0;
    }

    /// Puts a character behind the others.
    #[inline(always)]
    pub fn push(&mut self, character: u8)
        requires { length self.old < MOST }
        ensures text { self.new ≡ self.old ++ character ∷ [] }
        ensures len { length self.new ≡ length self.old + 1 }
    {
        self.characters[self.len] = character;
        self.len += 1;
    }

    /// Puts a text behind it.
    #[inline(always)]
    pub fn append(&mut self, text: &[u8])
        requires { length self.old + length text.now ≤ MOST }
        ensures text { self.new ≡ self.old ++ text.now }
        ensures len { length self.new ≡ length self.old + length text.now }
    {
        let end = self.len + text.len();
        let characters = &mut self.characters[..];
        characters[self.len..end].copy_from_slice(text);
        self.len = end;
    }
}
