//! A counted item: its letter and its characters.
ghost use Rattle.std.specs.Prelude.{◌≡◌, ◌≤◌, length};
ghost use Rattle.definitions.specs.CountedItems.{bits_needed};
ghost use Rattle.definitions.specs.Coding.{words_needed};
ghost use Rattle.definitions.specs.Kinds.{word_bits};
ghost use Rattle.expr_forms.specs.Joins.CodedItems.{item_of};
ghost use Rattle.definitions.specs.Laws.ItemTexts.{item_as};

use definitions::{DeckKind, ItemLetter, ItemText};
use std::marker::Model;

/// How many characters an item has at most.
const MOST_CHARACTERS: usize = 100;

/// A letter and 1 to 100 characters (COMPASS 60492600, data items). Contracts see the definitions'
/// item.
#[derive(Drop)]
pub struct CountedItem<'a> {
    letter: ItemLetter,
    characters: &'a [u8],
}

impl<'a> Model for CountedItem<'a> {
    ghost use Rattle.std.specs.Prelude.{◌≤◌, length};
    ghost use Rattle.definitions.specs.CountedItems.{CountedItem};

    ghost Value = { CountedItem };

    ghost view = { λ i. record { letter = i.letter; characters = i.characters.now } };

    ghost invariant = { λ i. (1 ≤ length i.characters.now) × (length i.characters.now ≤ 100) };
}

impl<'a> CountedItem<'a> {
    /// The item of a letter and characters: none where the letter is none of H, A, L, R and C, or
    /// the characters are not 1 to 100.
    pub fn read(letter: u8, characters: &'a [u8]) -> Option<CountedItem<'a>>
        ensures { result ≡ item_of letter characters.now }
    {
        let letter = ItemLetter::read(letter)?;
        if characters.is_empty() || characters.len() > MOST_CHARACTERS {
            return None;
        }
        Some(CountedItem { letter, characters })
    }

    /// The item that is written.
    pub fn of_text(item: ItemText<'a>) -> CountedItem<'a>
        ensures { result ≡ item_as item.entry }
    {
        CountedItem {
            letter: item.letter,
            characters: item.characters,
        }
    }

    pub fn letter(&self) -> ItemLetter
        ensures { result ≡ self.now.letter }
    {
        self.letter
    }

    /// Its characters, 1 to 100.
    pub fn characters(&self) -> &'a [u8]
        ensures characters { result.now ≡ self.now.characters }
        ensures some { 1 ≤ length self.now.characters }
        ensures few { length self.now.characters ≤ 100 }
    {
        self.characters
    }

    /// How many bits it needs.
    pub fn bits_needed(&self) -> usize
        ensures bits { result ≡ bits_needed self.now }
        ensures few { result ≤ 612 }
    {
        6 * self.characters.len() + self.letter.zero_bits()
    }

    /// How many words of DATA it takes: at most 11, in a peripheral deck 51.
    pub fn words_needed(&self, kind: DeckKind) -> usize
        ensures words { result ≡ words_needed (word_bits kind) self.now }
        ensures few { result ≤ 51 }
    {
        self.bits_needed().div_ceil(kind.word_bits() as usize)
    }
}
