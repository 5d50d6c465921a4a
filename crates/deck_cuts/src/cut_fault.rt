//! Why cards are no decks.

use std::alloc::{AllocError, AllocFailed};
use thiserror::Error;

/// Why cards are no decks.
#[derive(Clone, Copy, Debug, Error)]
pub enum CutFault {
    /// No memory was left.
    #[error("no memory was left")]
    OutOfMemory,
    /// A deck has more than 20,000 cards.
    #[error("a deck has more than 20000 cards")]
    DeckFull,
    /// A deck has the name of an earlier one.
    #[error("a deck has the name of an earlier one")]
    NameTaken,
    /// There are more than 64 decks.
    #[error("there are more than 64 decks")]
    TooManyDecks,
    /// The card of this number is no IDENT card, and the first; or the name on it is none of a deck.
    #[error("card {number} names no deck")]
    BadName { number: u64 },
}

impl From<AllocError> for CutFault {
    ghost use Rattle.std.specs.Prelude.{◌≡◌};
    ghost use Rattle.deck_cuts.specs.declared.cut_fault.CutFault.TheVariants.{OutOfMemory};

    ghost from_gives = { λ _ fault. fault ≡ OutOfMemory };

    fn from(_: AllocError) -> CutFault {
        CutFault::OutOfMemory
    }
}

impl<T: Drop> From<AllocFailed<T>> for CutFault {
    ghost use Rattle.std.specs.Prelude.{◌≡◌};
    ghost use Rattle.deck_cuts.specs.declared.cut_fault.CutFault.TheVariants.{OutOfMemory};

    ghost from_gives = { λ _ fault. fault ≡ OutOfMemory };

    fn from(_: AllocFailed<T>) -> CutFault {
        CutFault::OutOfMemory
    }
}
