//! What an edit is, and why one does not apply.
ghost use Rattle.std.specs.Prelude.{◌≡◌};
ghost use Rattle.cards.specs.Carrying.{placed};

use crate::Card;
use thiserror::Error;

/// An edit of a deck's cards. Places count from 1.
#[derive(Drop)]
pub enum Edit {
    /// The card becomes the one at this place.
    Insert { at: u64, card: Card },
    /// The card takes the place of the one there.
    Replace { at: u64, card: Card },
    /// The card at this place goes.
    Remove { at: u64 },
}

/// Why an edit does not apply.
#[derive(Clone, Copy, Debug, PartialEq, Eq, Error)]
pub enum EditFault {
    /// The deck has no such place.
    #[error("the deck has no card at this place")]
    NoSuchCard,
    /// The deck has 20,000 cards.
    #[error("the deck has 20000 cards, and takes no more")]
    DeckFull,
}

impl Edit {
    /// The same edit once more.
    pub fn copied(&self) -> Edit
        ensures { result ≡ self.now }
    {
        match self {
            Edit::Insert { at, card } => Edit::Insert {
                at: *at,
                card: card.copied(),
            },
            Edit::Replace { at, card } => Edit::Replace {
                at: *at,
                card: card.copied(),
            },
            Edit::Remove { at } => Edit::Remove { at: *at },
        }
    }

    /// The edit is of another place.
    pub(crate) fn move_to(&mut self, place: u64)
        ensures { self.new ≡ placed place self.old }
    {
        match self {
            Edit::Insert { at, .. } => *at = place,
            Edit::Replace { at, .. } => *at = place,
            Edit::Remove { at } => *at = place,
        }
    }
}
