//! Names and cards of decks as rows and steps write them: the error stands for a text that is none, which none of them
//! has, and for want of memory.
ghost use Rattle.std.specs.Prelude.{◌≤◌, length, IfOk};

use cards::{Card, DeckName, MOST_CARDS};
use std::alloc::{AllocError, Global};

/// The name of a deck.
pub fn name_of(text: &str) -> Result<DeckName, AllocError> {
    match DeckName::read(text.as_bytes()) {
        Ok(name) => Ok(name),
        Err(_) => Err(AllocError),
    }
}

/// A card.
pub fn card_of(text: &str) -> Result<Card, AllocError> {
    match Card::read(text.as_bytes()) {
        Ok(card) => Ok(card),
        Err(_) => Err(AllocError),
    }
}

/// The cards of some lines, 20,000 at most.
pub fn cards_of(alloc: Global, lines: &str) -> Result<Vec<Card>, AllocError>
    ensures { IfOk result (λ cards. length cards.items ≤ 20000) }
{
    let mut cards = Vec::new(alloc);
    for line in lines.lines() {
        cards.push(card_of(line)?)?;
    }
    if cards.len() > MOST_CARDS {
        return Err(AllocError);
    }
    Ok(cards)
}
