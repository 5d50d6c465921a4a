//! What a command asks to be shown.

use cards::{Card, DeckName};

/// What is shown of the cards of a deck.
#[derive(Drop)]
pub enum CardsView {
    /// All of them.
    All,
    /// Those from a place on, at most so many.
    From { place: u64, count: u64 },
    /// The numbers of those that have this text.
    With(Card),
}

/// Whose flagged statements and LINK lines are shown.
#[derive(Drop)]
pub enum ErrorsView {
    /// Those of every deck.
    Every,
    /// Those of the deck of this name.
    Of(DeckName),
}
