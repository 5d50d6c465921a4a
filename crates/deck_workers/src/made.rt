//! What is made of a job.
ghost use Rattle.std.specs.Prelude.{◌≡◌};
ghost use Rattle.deck_workers.specs.Jobs.{is_result};
ghost use Rattle.deck_workers.specs.Rounds.{call_of, published_in};

use deck_listing::ListedObject;
use desk_core::{Call, Done, SharedPublication, Work};
use edit_core::RecordFault;

/// What is made of a job.
#[derive(Drop)]
pub enum Made {
    /// Record and object of the deck.
    Deck(Done),
    /// The publication of the objects.
    Link {
        lease: u64,
        publication: SharedPublication,
    },
    /// Nothing, and the record is gone.
    Lost {
        lease: u64,
        fault: RecordFault,
    },
}

impl Made {
    /// Whether something was made.
    pub fn is_result(&self) -> bool
        ensures { result ≡ is_result self.now }
    {
        match self {
            Made::Deck(_) | Made::Link { .. } => true,
            Made::Lost { .. } => false,
        }
    }

    /// The version of the publication, if one was made.
    pub fn published(&self) -> Option<u64>
        ensures { result ≡ published_in self.now }
    {
        match self {
            Made::Link { publication, .. } => Some(publication.publication().version()),
            Made::Deck(_) | Made::Lost { .. } => None,
        }
    }

    /// The object of the deck once more: who holds it lets it go, and not the desk where it takes no result of an
    /// older version. None where it can't be shared.
    pub(crate) fn object(&self) -> Option<ListedObject> {
        match self {
            Made::Deck(done) => match done.object.share() {
                Ok(object) => Some(object),
                Err(_) => None,
            },
            Made::Link { .. } | Made::Lost { .. } => None,
        }
    }

    /// The call that ends the job: a deck is delivered, the desk is to publish its decks, or the lease of a lost job is
    /// given up.
    pub fn into_call(self) -> Call
        ensures { result ≡ call_of self }
    {
        match self {
            Made::Deck(done) => Call::Do(Work::DeliverDeck(done)),
            Made::Link { lease, .. } => Call::Do(Work::Publish(lease)),
            Made::Lost { lease, .. } => Call::Do(Work::GiveUp(lease)),
        }
    }
}
