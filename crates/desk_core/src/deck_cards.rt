//! The cards that a job of a deck begins with.
ghost use Rattle.std.specs.Prelude.{◌≡◌, ◌≤◌, length, IfOk};

use crate::card_pieces::CardPieces;
use cards::Card;
use std::alloc::{AllocError, Global};
use std::marker::Model;

/// The cards of a deck, of which there are at most 20,000. Contracts see them in order.
#[derive(Drop)]
pub struct DeckCards {
    cards: CardPieces,
}

impl Model for DeckCards {
    ghost use Rattle.std.specs.Prelude.{◌≤◌, List, length};
    ghost use Rattle.desk_core.specs.Joins.Language.{Card};

    ghost Value = { List Card };

    ghost view = { λ d. d.cards };

    ghost invariant = { λ d. length d.cards ≤ 20000 };
}

impl DeckCards {
    /// These cards, at most 20,000.
    pub fn new(alloc: Global, cards: Vec<Card>) -> Result<DeckCards, AllocError>
        requires { length cards.items ≤ 20000 }
        ensures { IfOk result (λ made. made ≡ cards.items) }
    {
        Ok(DeckCards::shared(CardPieces::of_cards(alloc, cards)?))
    }

    /// These cards, at most 20,000, which the desk has, too.
    pub(crate) fn shared(cards: CardPieces) -> DeckCards
        requires { length cards ≤ 20000 }
        ensures { result ≡ cards }
    {
        DeckCards { cards }
    }

    /// The same cards once more; none of them is copied.
    pub fn share(&self, alloc: Global) -> Result<DeckCards, AllocError>
        ensures { IfOk result (λ shared. shared ≡ self.now) }
    {
        Ok(DeckCards {
            cards: self.cards.share(alloc)?,
        })
    }

    /// How many cards there are.
    pub fn len(&self) -> usize
        ensures count { result ≡ length self.now }
        ensures few { length self.now ≤ 20000 }
    {
        self.cards.len()
    }

    /// A copy of the cards, as a vector of one's own.
    pub fn into_items(self, alloc: Global) -> Result<Vec<Card>, AllocError>
        ensures cards { IfOk result (λ cards. cards.items ≡ self) }
        ensures few { length self ≤ 20000 }
    {
        self.cards.joined(alloc)
    }

    /// Frees it. Crates above call this in place of `drop` (CONTRIBUTING).
    pub fn free(self) {
        drop(self);
    }
}
