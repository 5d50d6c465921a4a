//! The cut of cards into decks: each IDENT card begins one, and any other card belongs to the latest. Nothing
//! here knows where cards come from.
#![tactic(auto)]

mod cut_fault;
mod cutting;
mod deck;

pub use cut_fault::CutFault;
pub use cutting::{add_card, begins_deck, cut_cards, is_taken};
pub use deck::Deck;
