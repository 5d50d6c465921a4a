//! What can be run, and jobs that are.
ghost use Rattle.deck_workers.specs.Jobs.{CountsWithin, if_made};

use crate::assembling::{assembled, published};
use crate::jobs::Job;
use crate::made::Made;
use desk_core::{DeckWork, Done, Held, LinkWork};
use edit_core::RecordFault;
use std::alloc::Global;
use std::hash::RandomState;
use work_meter::Meter;

/// What can be run: what may be made of it, and how many statements that sizes and codes, at least where
/// it is not lost, at most, and by what is due.
pub trait Runs {
    ghost use Rattle.std.specs.Prelude.{ℕ};
    ghost use Rattle.work_meter.specs.Counts.{Counts};
    ghost use Rattle.deck_workers.specs.declared.made.Made.{Made};

    /// What may be made of it.
    ghost gives: { Self → Made → Type 0 };

    /// How many statements are sized at least where it is not lost, and how many coded.
    ghost at_least: { Self → ℕ };

    /// How many statements are sized at most, and how many coded.
    ghost at_most: { Self → ℕ };

    /// How far the counts may rise by what is due for its edits.
    ghost counts: { Self → Counts → Counts → Type 0 };

    /// Runs it. The meter counts what is sized and coded, also where memory runs out.
    fn run(self, alloc: Global, keys: RandomState, meter: &mut Meter) -> Made
        ensures made { gives self result }
        ensures meter { CountsWithin (if_made result (at_least self)) (at_most self) meter.old meter.new }
        ensures due { counts self meter.old meter.new };
}

/// A deck job makes record and object of the job's name (of its record's name where it begins with a
/// record) and of its cards with its edits in order. It is lost with the first edit that does not
/// apply, or, where all apply, for want of memory, and then with its record. With a record it sizes and
/// codes no more than the sum of what is due for its edits in order, with the 128 of a piece for each.
impl Runs for DeckWork {
    ghost use Rattle.deck_workers.specs.Joins.Language.{DeckWork};
    ghost use Rattle.deck_workers.specs.Jobs.{MayMakeDeck, DeckCounts, deck_bound, start_bound};

    ghost gives = { MayMakeDeck };

    ghost at_least = { λ (work : DeckWork). start_bound work.start };

    ghost at_most = { deck_bound };

    ghost counts = { DeckCounts };

    fn run(self, alloc: Global, keys: RandomState, meter: &mut Meter) -> Made {
        let DeckWork {
            lease,
            deck,
            version,
            name,
            start,
            edits,
        } = self;
        match assembled(alloc, keys, name, start, edits.as_slice(), meter) {
            Ok((kept, object)) => Made::Deck(Done {
                lease,
                deck,
                version,
                kept: Some(kept),
                object,
            }),
            Err(fault) => Made::Lost { lease, fault },
        }
    }
}

/// A link job makes the publication of its objects under its version, or is lost for want of memory.
impl Runs for LinkWork {
    ghost use Rattle.std.specs.Prelude.{ℕ, ◌≡◌};
    ghost use Rattle.deck_workers.specs.Joins.Language.{LinkWork};
    ghost use Rattle.deck_workers.specs.Jobs.{MayMakeLink};

    ghost gives = { MayMakeLink };

    ghost at_least = { λ _. 0 };

    ghost at_most = { λ _. 0 };

    ghost counts = { λ _ old new. new ≡ old };

    fn run(self, alloc: Global, keys: RandomState, meter: &mut Meter) -> Made {
        let _ = keys;
        let _ = meter;
        let LinkWork {
            lease,
            version,
            objects,
        } = self;
        match published(alloc, objects.into_items(), version) {
            Ok(publication) => Made::Link { lease, publication },
            Err(_) => Made::Lost {
                lease,
                fault: RecordFault::OutOfMemory,
            },
        }
    }
}

/// A job gives what its deck or its link gives.
impl Runs for Job {
    ghost use Rattle.deck_workers.specs.Jobs.{JobCounts, MayMake, job_bound, job_least};

    ghost gives = { MayMake };

    ghost at_least = { job_least };

    ghost at_most = { job_bound };

    ghost counts = { JobCounts };

    fn run(self, alloc: Global, keys: RandomState, meter: &mut Meter) -> Made {
        match self {
            Job::Deck(work) => work.run(alloc, keys, meter),
            Job::Link(work) => work.run(alloc, keys, meter),
        }
    }
}
