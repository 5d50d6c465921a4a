//! A deck that is to be added.
ghost use Rattle.std.specs.Prelude.{◌≡◌};

use cards::{Card, DeckName};
use std::marker::Model;

/// A deck that is to be added: its name and its cards, as contracts see it.
#[derive(Drop)]
pub struct NewDeck {
    pub name: DeckName,
    pub cards: Vec<Card>,
}

impl Model for NewDeck {
    ghost use Rattle.definitions.specs.DeckInput.{Deck};

    ghost Value = { Deck };

    ghost view = { λ d. record { name = d.name; cards = d.cards.items } };
}

impl NewDeck {
    /// A deck of this name and these cards, which keep no memory beyond what they need. It may have more cards than
    /// a desk takes.
    pub fn new(name: DeckName, cards: Vec<Card>) -> NewDeck
        ensures { result ≡ record { name = name; cards = cards.items } }
    {
        let mut cards = cards;
        cards.shrink_to_fit();
        NewDeck { name, cards }
    }
}
