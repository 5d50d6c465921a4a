//! Room for the text of a statement that goes over several cards.
ghost use Rattle.std.specs.Prelude.{◌≡◌, ◌≤◌, ◌∷◌, [], length};
ghost use Rattle.definitions.specs.Statements.{text_of};

use crate::card::Card;
use definitions::InlineText;
use std::marker::Model;

/// How many characters the text of a statement has at most: 72 of its first card and 71 of each of
/// nine comma cards are 711.
const MOST_CHARACTERS: usize = 711;

/// Room for the text of one statement, at most 711 characters. Only a statement with comma cards
/// needs it, and one room serves all statements of a deck, one after the other.
/// Contracts see it as the list of the characters in it.
#[derive(Drop)]
pub struct StatementRoom {
    text: InlineText<MOST_CHARACTERS>,
}

impl Model for StatementRoom {
    ghost use Rattle.std.specs.Prelude.{ℕ, List};

    ghost Value = { List ℕ };

    ghost view = { λ r. r.text };
}

impl StatementRoom {
    /// Room with no text in it.
    pub fn new() -> StatementRoom
        ensures { result ≡ [] }
    {
        StatementRoom {
            text: InlineText::new(),
        }
    }

    pub(crate) fn as_slice(&self) -> &[u8]
        ensures text { result.now ≡ self.now }
        ensures short { length result.now ≤ 711 }
    {
        self.text.as_slice()
    }

    /// Puts the text of the statement in that these cards are: columns 1 to 72 of the first, and 2
    /// to 72 of each other.
    pub(crate) fn join(&mut self, first: &Card, others: &[Card])
        requires { length others.now ≤ 9 }
        ensures { self.new ≡ text_of (first.now ∷ others.now) }
    {
        self.text.clear();
        self.text.append(first.read_columns());
        for card in others {
            self.text.append(card.read_columns().split_at(1).1);
        }
    }
}
