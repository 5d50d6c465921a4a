//! The cards of a deck, as a reply gives them.
ghost use Rattle.std.specs.Prelude.{◌≡◌, ◌<◌, ◌^◌, length, IfOk};

use crate::card_pieces::CardPieces;
use cards::Card;
use std::alloc::{AllocError, Global};
use std::marker::Model;

/// The cards of a deck where they lie, and the memory for a copy of them: who gets the reply makes the copy, and no
/// turn does. Contracts see the cards in order.
#[derive(Drop)]
pub struct ToldCards {
    cards: CardPieces,
    room: Vec<Card>,
}

impl Model for ToldCards {
    ghost use Rattle.std.specs.Prelude.{◌≡◌, ◌≤◌, [], List, length, vec_capacity, vec_len};
    ghost use Rattle.desk_core.specs.Joins.Language.{Card};

    ghost Value = { List Card };

    ghost view = { λ t. t.cards };

    ghost invariant = { λ t. (t.room.items ≡ []) × ((vec_len t.room ≡ 0) × (length t.cards ≤ vec_capacity t.room)) };
}

impl ToldCards {
    /// These cards, with memory for a copy of them.
    pub(crate) fn new(alloc: Global, cards: CardPieces) -> Result<ToldCards, AllocError>
        requires { length cards < 2 ^ 64 }
        ensures { IfOk result (λ told. told ≡ cards) }
    {
        let room = Vec::with_capacity(alloc, cards.len())?;
        Ok(ToldCards { cards, room })
    }

    /// The cards, as a vector of one's own.
    pub fn into_items(self) -> Vec<Card>
        ensures { result.items ≡ self }
    {
        let ToldCards { cards, room } = self;
        let mut copies = room;
        cards.append_to(&mut copies);
        copies
    }
}
