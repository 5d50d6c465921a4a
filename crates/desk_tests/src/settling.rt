//! A desk whose jobs are all done by the one who holds it.
ghost use Rattle.std.specs.Prelude.{◌≡◌, option_map};
ghost use Rattle.desk_core.specs.Desks.{decks_of};
ghost use Rattle.desk_core.specs.Steps.{Steps};
ghost use Rattle.deck_workers.specs.Joins.Language.{Reply};
ghost use Rattle.deck_workers.specs.Rounds.{call_of};
ghost use Rattle.desk_tests.specs.Settling.{SettlesOn, IsSettled, IsTurn, end_of_claim, refusal_in};

use deck_workers::{Made, Runs, job_in};
use desk_core::{Call, Desk, Refusal, Reply, Work};
use std::alloc::Global;
use std::hash::RandomState;
use work_meter::Meter;

/// What settling a desk ended with.
#[derive(Clone, Copy, Debug)]
pub enum Settled {
    /// All of this version is published.
    Idle { version: u64 },
    /// A claim or a delivery was refused.
    Refused { refusal: Refusal },
    /// All that is due is out, to somebody else.
    Waiting,
    /// The turns are used up.
    Turns,
}

/// Does what is due at a desk, in so many turns at most: each is a claim and, where that gives a job,
/// the job and its delivery, or the lease given up where the job is lost. No card and no version
/// changes, and at `Idle` the publication is of the present version and decks. The meter counts at
/// most what the bounds of its jobs allow.
pub fn settle(
    alloc: Global,
    keys: RandomState,
    desk: &mut Desk,
    meter: &mut Meter,
    turns: u32,
) -> Settled
    ensures steps { SettlesOn turns desk.old result desk.new meter.old meter.new }
    ensures version { desk.new.version ≡ desk.old.version }
    ensures decks { decks_of desk.new ≡ decks_of desk.old }
    ensures settled { IsSettled desk.old result desk.new }
{
    for turn in 0..turns {
        if let Some(end) = settle_turn(alloc, keys, desk, meter) {
            return end;
        }
    }
    Settled::Turns
}

/// One turn, and what it ends settling with, if it ends it.
fn settle_turn(
    alloc: Global,
    keys: RandomState,
    desk: &mut Desk,
    meter: &mut Meter,
) -> Option<Settled>
    ensures { IsTurn desk.old result desk.new meter.old meter.new }
{
    let claimed = desk.step(Call::Do(Work::Claim));
    let end = end_of_claim(&claimed);
    match job_in(claimed) {
        None => end,
        Some(job) => end_job(desk, job.run(alloc, keys, meter)),
    }
}

/// Delivers what was made of a job, or gives its lease up; a refusal ends settling.
fn end_job(desk: &mut Desk, made: Made) -> Option<Settled>
    ensures { (answered : Reply) × Steps desk.old (call_of made) answered desk.new × (result ≡ option_map Settled.Refused (refusal_in answered)) }
{
    let answered = desk.step(made.into_call());
    let end = end_of_delivery(&answered);
    answered.free();
    end
}

/// What the answer to the call that ends a job ends settling with: a refusal.
fn end_of_delivery(answered: &Reply) -> Option<Settled>
    ensures { result ≡ option_map Settled.Refused (refusal_in answered.now) }
{
    match answered {
        Reply::Refused(refusal) => Some(Settled::Refused { refusal: *refusal }),
        Reply::Changed(_)
        | Reply::Carried { .. }
        | Reply::Unkept(_)
        | Reply::CardsAre(..)
        | Reply::ChangesAre(..)
        | Reply::CardsBefore(..)
        | Reply::Shown(_)
        | Reply::StatusIs(..)
        | Reply::DeckJob(_)
        | Reply::LinkJob(_)
        | Reply::Idle(_)
        | Reply::AllOut
        | Reply::Stored
        | Reply::Published(_)
        | Reply::Cleared => None,
    }
}

/// What a claim ends settling with, if it ends it.
fn end_of_claim(claimed: &Reply) -> Option<Settled>
    ensures { result ≡ end_of_claim claimed.now }
{
    match claimed {
        Reply::Idle(version) => Some(Settled::Idle { version: *version }),
        Reply::AllOut => Some(Settled::Waiting),
        Reply::Refused(refusal) => Some(Settled::Refused { refusal: *refusal }),
        Reply::Changed(_)
        | Reply::Carried { .. }
        | Reply::Unkept(_)
        | Reply::CardsAre(..)
        | Reply::ChangesAre(..)
        | Reply::CardsBefore(..)
        | Reply::Shown(_)
        | Reply::StatusIs(..)
        | Reply::DeckJob(_)
        | Reply::LinkJob(_)
        | Reply::Stored
        | Reply::Published(_)
        | Reply::Cleared => None,
    }
}
