//! The names of decks.
ghost use Rattle.std.specs.Prelude.{◌≡◌, ◌≤◌, ◌||◌, length, IsTrue, ◌↔◌, IsOk, IfOk};
ghost use Rattle.std.specs.List.{list_all};
ghost use Rattle.definitions.specs.Characters.{is_digit, is_letter};
ghost use Rattle.definitions.specs.DeckInput.{is_deck_name};

use definitions::InlineText;
use std::marker::Model;
use thiserror::Error;

/// How many characters the name of a deck has at most.
const MOST_CHARACTERS: usize = 7;

/// The name of a deck: 1 to 7 letters and digits. Contracts see it as the list of its characters.
#[derive(Drop)]
pub struct DeckName {
    characters: InlineText<MOST_CHARACTERS>,
}

impl Model for DeckName {
    ghost use Rattle.std.specs.Prelude.{ℕ, List};

    ghost Value = { List ℕ };

    ghost view = { λ n. n.characters };
}

/// The characters are no name of a deck.
#[derive(Clone, Copy, Debug, Error)]
#[error("the name of a deck is 1 to 7 letters and digits")]
pub struct BadName;

impl DeckName {
    /// The name that these characters make, if they make one.
    pub fn read(text: &[u8]) -> Result<DeckName, BadName>
        ensures accepts { IsOk result ↔ IsTrue (is_deck_name text.now) }
        ensures name { IfOk result (λ name. name ≡ text.now) }
    {
        if is_name(text) {
            Ok(DeckName {
                characters: InlineText::of(text),
            })
        } else {
            Err(BadName)
        }
    }

    /// The same name once more.
    pub fn copied(&self) -> DeckName
        ensures { result ≡ self.now }
    {
        DeckName {
            characters: self.characters.copied(),
        }
    }

    pub fn as_slice(&self) -> &[u8]
        ensures name { result.now ≡ self.now }
        ensures short { length self.now ≤ 7 }
    {
        self.characters.as_slice()
    }
}

fn is_name(text: &[u8]) -> bool
    ensures { result ≡ is_deck_name text.now }
{
    !text.is_empty() && text.len() <= MOST_CHARACTERS && has_name_characters(text)
}

fn has_name_characters(text: &[u8]) -> bool
    ensures { result ≡ list_all (λ c. is_letter c || is_digit c) text.now }
{
    text.iter()
        .all(|c| c.is_ascii_uppercase() || c.is_ascii_digit())
}
