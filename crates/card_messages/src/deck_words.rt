//! What the messages of a deck need of it as a whole.

use crate::first_cards::FirstCards;
use cards::Card;
use deck_assembler::{SizedDeck, SizedStatement};
use std::alloc::{AllocError, Global};
use std::hash::RandomState;
use use_blocks::Bases;

/// How many statements a piece has, each but the last.
const PIECE_STATEMENTS: usize = 128;

/// A deck as its messages need it: made once, in one pass over its cards.
#[derive(Drop)]
pub struct DeckWords {
    pub(crate) deck: SizedDeck,
    pub(crate) bases: Bases,
    pub(crate) first: FirstCards,
}

impl DeckWords {
    /// That of the deck with these cards; its tables hash by these keys.
    pub fn new(alloc: Global, keys: RandomState, cards: &[Card]) -> Result<DeckWords, AllocError> {
        let mut meter = work_meter::begin();
        let deck = SizedDeck::new(alloc, keys, cards, &mut meter)?;
        match places_of(alloc, keys, &deck) {
            Ok((bases, first)) => Ok(DeckWords { deck, bases, first }),
            Err(error) => {
                deck.free();
                Err(error)
            }
        }
    }

    /// Frees it. Crates above call this in place of `drop` (CONTRIBUTING).
    pub fn free(self) {
        drop(self);
    }

    /// The statement with this number, counted from 0; none behind END.
    pub(crate) fn sized(&self, number: usize) -> Option<&SizedStatement> {
        let piece = self.deck.pieces().get(number / PIECE_STATEMENTS)?;
        piece.statements().get(number % PIECE_STATEMENTS)
    }
}

/// Where the blocks of a deck stand, and the cards that its statements begin with.
fn places_of(
    alloc: Global,
    keys: RandomState,
    deck: &SizedDeck,
) -> Result<(Bases, FirstCards), AllocError> {
    let bases = Bases::new(alloc, deck.lengths(), deck.literals())?;
    let first = FirstCards::new(alloc, keys, deck)?;
    Ok((bases, first))
}
