//! The card that first defines each symbol of a deck.
ghost use Rattle.std.specs.Prelude.{◌≤◌, length};

use crate::symbol_keys::key_of;
use cards::Card;
use deck_assembler::{SizedDeck, SizedStatement};
use definitions::DeckKind;
use expr_forms::LinkedNames;
use indexmap::IndexMap;
use indexmap::map::Entry;
use statement_coder::{Defines, Reading};
use std::alloc::{AllocError, Global};
use std::hash::RandomState;

/// The numbers of the cards that first define symbols, by name.
#[derive(Drop)]
pub(crate) struct FirstCards {
    cards: Cards,
}

/// The number of a card for the key of each name, in a table that is kept by keys which nobody knows.
type Cards = IndexMap<u64, u32, RandomState>;

/// The cards of a statement that has so many, of which no statement has more than ten.
pub(crate) fn cards_of(cards: &[Card], count: u16) -> &[Card]
    ensures { length result.now ≤ 10 }
{
    cards.split_at(cards.len().min(count as usize).min(10)).0
}

impl FirstCards {
    /// The card that first defines a symbol, if one does.
    pub(crate) fn card(&self, name: &[u8]) -> Option<u32> {
        self.cards.get(&key_of(name)?).copied()
    }

    fn note(&mut self, name: &[u8], card: u32) -> Result<(), AllocError> {
        if let Some(key) = key_of(name) {
            note_key(&mut self.cards, key, card)?;
        }
        Ok(())
    }

    /// The names of an EXT.
    fn note_names(&mut self, names: LinkedNames<'_>, card: u32) -> Result<(), AllocError> {
        let mut rest = names;
        for _ in 0..u64::MAX {
            match rest.next() {
                Some(Some(name)) => self.note(name, card)?,
                Some(None) => {}
                None => return Ok(()),
            }
        }
        Ok(())
    }

    /// What a statement defines that begins with this card.
    fn note_statement(
        &mut self,
        kind: DeckKind,
        sized: &SizedStatement,
        card: u32,
    ) -> Result<(), AllocError> {
        match sized.sizing.defines(kind) {
            Defines::Nothing => Ok(()),
            Defines::Symbol(_) => self.note(sized.label.as_slice(), card),
            Defines::Externals => match sized.kept.reading(kind, sized.operation) {
                Reading::Names(names) => self.note_names(names, card),
                _ => Ok(()),
            },
        }
    }

    /// Those of a deck, in a table that is kept by these keys.
    pub(crate) fn new(
        alloc: Global,
        keys: RandomState,
        deck: &SizedDeck,
    ) -> Result<FirstCards, AllocError> {
        let mut first = FirstCards {
            cards: IndexMap::with_hasher(alloc, keys),
        };
        let mut card = 1u32;
        for piece in deck.pieces() {
            for sized in piece.statements() {
                first.note_statement(deck.kind(), sized, card)?;
                card = card.saturating_add(sized.cards as u32);
            }
        }
        Ok(first)
    }
}

/// Gives a name its card, unless it has one.
fn note_key(cards: &mut Cards, key: u64, card: u32) -> Result<(), AllocError> {
    match cards.entry(key)? {
        Entry::Occupied(_) => {}
        Entry::Vacant(place) => {
            place.insert(card);
        }
    }
    Ok(())
}
