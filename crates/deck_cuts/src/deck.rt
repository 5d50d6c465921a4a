//! A deck: its name, and its cards in order.
ghost use Rattle.std.specs.Prelude.{◌≡◌, ◌<◌, ◌≤◌, [], ◌∷◌, ◌++◌, length, OnOk, OnErr};

use cards::{Card, DeckName};
use std::alloc::{AllocError, Global};
use std::marker::Model;

/// A deck: its name, and its cards with the IDENT card first, at most 20,000. Contracts see the deck
/// of the definitions.
#[derive(Drop)]
pub struct Deck {
    name: DeckName,
    cards: Vec<Card>,
}

impl Model for Deck {
    ghost use Rattle.definitions.specs.DeckInput.{Deck};

    ghost Value = { Deck };

    ghost use Rattle.std.specs.Prelude.{◌≤◌, length};

    ghost view = { λ d. record { name = d.name; cards = d.cards.items } };

    ghost invariant = { λ d. length d.cards.items ≤ 20000 };
}

impl Deck {
    /// A deck of this name that has no card yet.
    pub fn new(alloc: Global, name: DeckName) -> Deck
        ensures { result ≡ record { name = name; cards = [] } }
    {
        Deck {
            name,
            cards: Vec::new(alloc),
        }
    }

    /// A deck of this name and these cards, at most 20,000.
    pub fn of(name: DeckName, cards: Vec<Card>) -> Deck
        requires { length cards.items ≤ 20000 }
        ensures { result ≡ record { name = name; cards = cards.items } }
    {
        Deck { name, cards }
    }

    /// Its name: 1 to 7 letters and digits.
    pub fn name(&self) -> &[u8]
        ensures { result.now ≡ self.now.name }
    {
        self.name.as_slice()
    }

    /// Its cards in order.
    pub fn cards(&self) -> &[Card]
        ensures cards { result.now ≡ self.now.cards }
        ensures few { length self.now.cards ≤ 20000 }
    {
        self.cards.as_slice()
    }

    /// Puts a card behind the others, which leave room for it. Without memory the deck stays as it was.
    pub fn push(&mut self, card: Card) -> Result<(), AllocError>
        requires { length self.old.cards < 20000 }
        ensures ok { OnOk result
            (self.new ≡ record self.old { cards = self.old.cards ++ card ∷ [] }) }
        ensures err { OnErr result (self.new ≡ self.old) }
    {
        self.cards.push(card)?;
        Ok(())
    }

    /// Its name and its cards.
    pub fn into_parts(self) -> (DeckName, Vec<Card>)
        ensures name { result.0 ≡ self.name }
        ensures cards { result.1.items ≡ self.cards }
        ensures few { length result.1.items ≤ 20000 }
    {
        (self.name, self.cards)
    }
}
