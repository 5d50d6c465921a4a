//! What a desk answers.

use crate::accepted::Accepted;
use crate::jobs::{DeckWork, LinkWork};
use crate::listed::Listed;
use crate::past::KeptEdit;
use crate::shared_publication::SharedPublication;
use crate::told_cards::ToldCards;
use cards::{DeckName, Edit, EditFault};
use thiserror::Error;

/// The state of a deck.
#[derive(Clone, Copy)]
pub enum State {
    /// Its lease is out.
    Out,
    /// It has no object of its version.
    Behind,
    /// It has one.
    Ready,
}

/// A deck in the status of a desk.
#[derive(Drop)]
pub struct Row {
    pub name: DeckName,
    pub version: u64,
    /// How many cards it has.
    pub cards: usize,
    pub state: State,
    /// How many decks begin behind its END, which are listed there and not assembled; none while it has no object.
    pub decks_behind: usize,
}

/// Why a call is refused. No refusal changes a card, a version or the publication.
#[derive(Clone, Copy, Debug, PartialEq, Eq, Error)]
pub enum Refusal {
    /// No memory was left.
    #[error("no memory was left")]
    OutOfMemory,
    /// The deck has no such place.
    #[error("the deck has no such place")]
    NoSuchCard,
    /// A deck has 20,000 cards at most.
    #[error("the deck has 20000 cards, and takes no more")]
    DeckFull,
    /// There is a deck of this name.
    #[error("there is a deck of this name")]
    NameTaken,
    /// There is no deck of this name.
    #[error("there is no deck of this name")]
    NoDeck,
    /// The deck has another version than the one that was seen: this one.
    #[error("the deck has version {0}")]
    OldVersion(u64),
    /// There are 64 decks.
    #[error("there are 64 decks")]
    TooManyDecks,
    /// No such job is out.
    #[error("no such job is out")]
    UnknownJob,
    /// The deck or the desk has changed since the job was given: it has this version.
    #[error("the job is of an older version than {0}")]
    Stale(u64),
    /// The result is not one of this job.
    #[error("the result is not one of this job")]
    Foreign,
    /// Nothing is published yet.
    #[error("nothing is published yet")]
    NoPublication,
    /// Versions, or the numbers of leases, are used up.
    #[error("versions are used up")]
    VersionsSpent,
    /// This edit of a batch, from 1, is the first that does not apply.
    #[error("edit {0} does not apply: {1}")]
    BadEdit(usize, EditFault),
    /// A batch has no edit, or more than 100.
    #[error("a batch has 1 to 100 edits")]
    BatchSize,
    /// No record can be written now, so no change may be made. A desk never answers this; a door that keeps a record
    /// of its changes does, and does not ask the desk.
    #[error("no record can be written now")]
    NotKept,
    /// The changes of the deck are kept from this version on.
    #[error("changes are kept from version {0} on")]
    Forgotten(u64),
    /// This card of those that the sender saw was changed, first in this version.
    #[error("card {0} was changed, first in version {1}")]
    TouchedCard(u64, u64),
    /// No change of the deck made this version.
    #[error("no change of the deck made this version")]
    NoChange,
}

/// Why an edit alone is refused that does not apply.
impl From<EditFault> for Refusal {
    ghost use Rattle.std.specs.Prelude.{◌≡◌};
    ghost use Rattle.desk_core.specs.Changing.{refusal_of};

    ghost from_gives = { λ fault refusal. refusal ≡ refusal_of fault };

    fn from(fault: EditFault) -> Refusal {
        match fault {
            EditFault::NoSuchCard => Refusal::NoSuchCard,
            EditFault::DeckFull => Refusal::DeckFull,
        }
    }
}

/// What a desk answers.
#[derive(Drop)]
pub enum Reply {
    /// The change is made: the desk's new version.
    Changed(Accepted),
    /// The change is made: the desk's new version, the deck's version before it, and the edits as they
    /// were made.
    Carried {
        version: u64,
        seen: u64,
        edits: Listed<Edit>,
    },
    /// The change is made, with this version of the desk, and its record is not on the disk. A desk never
    /// answers this; who keeps a record of its changes does.
    Unkept(u64),
    /// A deck's version and cards.
    CardsAre(u64, ToldCards),
    /// A deck's version, and its edits behind the one that was asked for.
    ChangesAre(u64, Listed<KeptEdit>),
    /// The version that was asked for, the deck's cards of now, and the edits that make of them those of
    /// that version.
    CardsBefore(u64, ToldCards, Listed<Edit>),
    /// The publication.
    Shown(SharedPublication),
    /// The desk's version, the published one, and a row for each deck.
    StatusIs(u64, Option<u64>, Listed<Row>),
    /// A deck is to be assembled.
    DeckJob(DeckWork),
    /// The objects are to be linked.
    LinkJob(LinkWork),
    /// All of this version is published.
    Idle(u64),
    /// All that is due is out.
    AllOut,
    /// The result was taken.
    Stored,
    /// The desk's decks are published; with the publication before, so that who asked lets it go, and no turn
    /// does.
    Published(Option<SharedPublication>),
    /// The lease is ended.
    Cleared,
    /// Nothing is done.
    Refused(Refusal),
}

impl Reply {
    /// Frees it. Crates above call this in place of `drop` (CONTRIBUTING).
    pub fn free(self) {
        drop(self);
    }
}
