//! What may be asked of a desk.

use crate::held::Held;
use crate::listed::Listed;
use crate::new_deck::NewDeck;
use crate::shared_publication::SharedPublication;
use cards::{DeckName, Edit};
use deck_listing::ListedObject;
use session_commands::Seen;

/// The result of a deck job: the lease, the deck's identity and version as the job had them; the
/// record, none where it is spent; and the object.
#[derive(Drop)]
pub struct Done {
    pub lease: u64,
    pub deck: u64,
    pub version: u64,
    pub kept: Option<Held>,
    pub object: ListedObject,
}

/// What is made of the cards of a deck.
#[derive(Drop)]
pub enum Edits {
    /// One edit, which is refused without a number.
    One(Edit),
    /// Edits, 1 to 100, all or none.
    Batch(Listed<Edit>),
}

/// A change of the decks. Who changes a deck gives the version of it that was seen.
#[derive(Drop)]
pub enum Change {
    /// A new deck.
    AddDeck(NewDeck),
    /// A deck in the place of the one of its name, or a new one where none was seen, which 0 means.
    PutDeck {
        deck: NewDeck,
        seen: u64,
    },
    /// The deck goes.
    DropDeck {
        name: DeckName,
        seen: u64,
    },
    /// Edits of the deck by who saw a version of it: that is its present one; or they are carried over what others
    /// changed since.
    EditDeck {
        name: DeckName,
        seen: Seen,
        edits: Edits,
    },
    /// The change of the deck that made this version is taken back, as a new change.
    Undo {
        name: DeckName,
        version: u64,
    },
}

impl Change {
    /// Frees it. Crates above call this in place of `drop` (CONTRIBUTING).
    pub fn free(self) {
        drop(self);
    }
}

/// What a desk is asked for, which changes nothing.
#[derive(Drop)]
pub enum Question {
    /// The changes of the deck behind a version.
    Changes { name: DeckName, since: u64 },
    /// The cards that the deck had at a version.
    CardsAt { name: DeckName, version: u64 },
    /// Version and cards of the deck.
    Cards(DeckName),
    /// The publication.
    Show,
    /// The versions and states of all decks.
    Status,
}

/// What a worker asks a desk for.
#[derive(Drop)]
pub enum Work {
    /// What is due next.
    Claim,
    /// The result of a deck job.
    DeliverDeck(Done),
    /// The result of a link job.
    DeliverLink {
        lease: u64,
        publication: SharedPublication,
    },
    /// The desk publishes its own decks, as this lease was given for, which ends then in each case.
    Publish(u64),
    /// The lease ends without a result, and the record is lost.
    GiveUp(u64),
}

/// What may be asked of a desk.
#[derive(Drop)]
pub enum Call {
    /// A change, by who has this name.
    Make { by: DeckName, change: Change },
    /// A question.
    Ask(Question),
    /// What a worker does.
    Do(Work),
}

impl Call {
    /// Frees it. Crates above call this in place of `drop` (CONTRIBUTING).
    pub fn free(self) {
        drop(self);
    }
}
