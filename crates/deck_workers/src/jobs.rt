//! A job, as a desk gives it out.
ghost use Rattle.std.specs.Prelude.{◌≡◌, IfOk};
ghost use Rattle.deck_workers.specs.Jobs.{cards_before, lease_of, start_cards};
ghost use Rattle.deck_workers.specs.Rounds.{job_in};

use desk_core::{DeckCards, DeckWork, LinkWork, Reply, Start};
use std::alloc::{AllocError, Global};

/// A job. Its type keeps what running it needs: a deck has at most 20,000 cards, and a record is not
/// spent.
#[derive(Drop)]
pub enum Job {
    /// A deck is to be assembled.
    Deck(DeckWork),
    /// Objects are to be linked.
    Link(LinkWork),
}

impl Job {
    /// The number of its lease.
    pub fn lease(&self) -> u64
        ensures { result ≡ lease_of self.now }
    {
        match self {
            Job::Deck(work) => work.lease,
            Job::Link(work) => work.lease,
        }
    }

    /// The cards that a deck job begins with, once more: until it is delivered the desk's cards lie where these do, and
    /// who holds them lets them go, and not the desk. A link job begins with none.
    pub fn cards_before(&self, alloc: Global) -> Result<Option<DeckCards>, AllocError>
        ensures { IfOk result (λ cards. cards ≡ cards_before self.now) }
    {
        match self {
            Job::Deck(work) => Ok(Some(start_cards(alloc, &work.start)?)),
            Job::Link(_) => Ok(None),
        }
    }
}

/// The cards that a deck job begins with, once more; none of them is copied.
fn start_cards(alloc: Global, start: &Start) -> Result<DeckCards, AllocError>
    ensures { IfOk result (λ cards. cards ≡ start_cards start.now) }
{
    match start {
        Start::FromRecord(held) => held.share_cards(alloc),
        Start::FromCards(cards) => cards.share(alloc),
    }
}

/// The job that a reply gives, if it gives one.
pub fn job_in(reply: Reply) -> Option<Job>
    ensures { result ≡ job_in reply }
{
    match reply {
        Reply::DeckJob(work) => Some(Job::Deck(work)),
        Reply::LinkJob(work) => Some(Job::Link(work)),
        other => {
            other.free();
            None
        }
    }
}
