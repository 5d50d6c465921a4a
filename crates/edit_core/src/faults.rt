//! Why a record is not edited.

use cards::EditFault;
use thiserror::Error;

/// Why a record is not edited, or is spent from then on.
#[derive(Clone, Copy, Debug, PartialEq, Eq, Error)]
pub enum RecordFault {
    /// The record is spent.
    #[error("the record is spent")]
    Spent,
    /// The deck has no such place.
    #[error("the deck has no such place")]
    NoSuchCard,
    /// The deck has 20,000 cards.
    #[error("the deck has 20000 cards, and takes no more")]
    DeckFull,
    /// No memory was left: a record that was to be edited is spent from then on.
    #[error("no memory was left")]
    OutOfMemory,
}

/// What keeps a record from an edit that does not apply to its cards.
impl From<EditFault> for RecordFault {
    ghost use Rattle.std.specs.Prelude.{◌≡◌};
    ghost use Rattle.edit_core.specs.Faults.{record_fault};

    ghost from_gives = { λ fault given. given ≡ record_fault fault };

    fn from(fault: EditFault) -> RecordFault {
        match fault {
            EditFault::NoSuchCard => RecordFault::NoSuchCard,
            EditFault::DeckFull => RecordFault::DeckFull,
        }
    }
}
