//! The record of a deck, as long as it is of use.
ghost use Rattle.std.specs.Prelude.{◌≡◌, ◌≤◌, length, false, Some, None, IfOk, if◌then◌else◌};

use crate::card_pieces::CardPieces;
use crate::deck_cards::DeckCards;
use deck_objects::SharedObject;
use edit_core::Kept;
use std::alloc::{AllocError, Global};
use std::marker::Model;

/// A record that is not spent. Contracts see the deck that it is of.
#[derive(Drop)]
pub struct Held {
    kept: Kept,
}

impl Model for Held {
    ghost use Rattle.std.specs.Prelude.{◌≡◌, false};
    ghost use Rattle.desk_core.specs.Desks.{Kept};
    ghost use Rattle.desk_core.specs.Joins.Held.{held};

    ghost Value = { Kept };

    ghost view = { λ h. held h.kept };

    ghost invariant = { λ h. h.kept.is_spent ≡ false };
}

impl Held {
    /// The record, if it is not spent.
    pub fn new(kept: Kept) -> Option<Held>
        ensures { result ≡ (if kept.is_spent then None else Some (record { deck = record { name = kept.name; cards = kept.cards } })) }
    {
        if kept.is_spent() {
            drop(kept);
            return None;
        }
        Some(Held { kept })
    }

    /// The record, to look at.
    pub fn kept(&self) -> &Kept
        ensures deck { self.now ≡ record { deck = record { name = result.now.name; cards = result.now.cards } } }
        ensures unspent { result.now.is_spent ≡ false }
    {
        &self.kept
    }

    /// The cards of the record, which lie in its object.
    pub fn share_cards(&self, alloc: Global) -> Result<DeckCards, AllocError>
        ensures { IfOk result (λ cards. cards ≡ self.now.deck.cards) }
    {
        // they are no more than a deck may have
        let _ = self.kept.cards();
        match self.kept.finish() {
            Ok(object) => cards_in(alloc, object),
            Err(_) => Err(AllocError),
        }
    }

    /// The record, to be edited.
    pub fn into_kept(self) -> Kept
        ensures deck { self ≡ record { deck = record { name = result.name; cards = result.cards } } }
        ensures unspent { result.is_spent ≡ false }
    {
        self.kept
    }
}

/// The cards of an object, of which there are at most 20,000.
fn cards_in(alloc: Global, object: SharedObject) -> Result<DeckCards, AllocError>
    requires { length object.cards ≤ 20000 }
    ensures { IfOk result (λ cards. cards ≡ object.cards) }
{
    Ok(DeckCards::shared(CardPieces::of_object(alloc, object)?))
}
