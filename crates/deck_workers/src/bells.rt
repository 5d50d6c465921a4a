//! The bells that workers sleep on.
ghost use Rattle.std.specs.Prelude.{◌≡◌, true};
ghost use Rattle.deck_workers.specs.Joins.Rests.{may_work, next_behind, patience_behind, round_with_job, round_without_job};
ghost use Rattle.deck_workers.specs.declared.bells.Round.TheVariants as rounds;

use crossbeam_channel::{Receiver, RecvTimeoutError};
use std::sync::Wait;
use std::time::{Clock, Duration};

/// What a bell says to a worker.
#[derive(Clone, Copy, Drop)]
pub enum Bell {
    /// There may be work.
    Work,
    /// Its work is over.
    Stop,
}

/// What a worker's round was.
#[derive(Clone, Copy)]
pub(crate) enum Round {
    /// It delivered something.
    Delivered,
    /// It gave a job up, or its claim was refused.
    GaveUp,
    /// It got no job.
    NoJob,
}

impl Round {
    /// A round with a job, which was delivered or given up.
    pub(crate) fn with_job(is_delivered: bool) -> Round
        ensures { result ≡ round_with_job is_delivered }
    {
        if is_delivered {
            Round::Delivered
        } else {
            Round::GaveUp
        }
    }

    /// A round without a job, whose claim was refused or not.
    pub(crate) fn without_job(is_refused: bool) -> Round
        ensures { result ≡ round_without_job is_refused }
    {
        if is_refused {
            Round::GaveUp
        } else {
            Round::NoJob
        }
    }
}

/// How long a worker that gave a job up sleeps before it claims again, where no bell comes: a tenth of a
/// second, and twice as long each time up to a minute.
#[derive(Clone, Copy)]
pub(crate) struct Patience {
    pub(crate) milliseconds: u64,
}

/// The shortest and the longest sleep, in milliseconds.
const SHORTEST: u64 = 100;

const LONGEST: u64 = 60_000;

impl Patience {
    pub(crate) fn new() -> Patience
        ensures { result.milliseconds ≡ SHORTEST }
    {
        Patience {
            milliseconds: SHORTEST,
        }
    }
}

/// What a worker does before it claims again.
#[derive(Clone, Copy)]
pub(crate) enum Next {
    /// It claims at once.
    Claims,
    /// It sleeps for so many milliseconds, or until a bell comes.
    SleepsFor(u64),
    /// It sleeps until a bell comes.
    SleepsUntilBell,
}

/// What a worker does behind a round: it claims at once where it delivered something, after a while where
/// it gave a job up or its claim was refused, the longer the more often, and else when a bell comes.
fn next_behind(round: Round, patience: &mut Patience) -> Next
    ensures next { result ≡ next_behind round patience.old.milliseconds }
    ensures patience { patience.new.milliseconds ≡ patience_behind round patience.old.milliseconds }
{
    match round {
        Round::Delivered => {
            patience.milliseconds = SHORTEST;
            Next::Claims
        }
        Round::GaveUp => {
            let milliseconds = patience.milliseconds;
            patience.milliseconds = milliseconds.saturating_mul(2).min(LONGEST);
            Next::SleepsFor(milliseconds)
        }
        Round::NoJob => Next::SleepsUntilBell,
    }
}

/// Whether there may be work, by what a sleep gave: a bell that says so, or none in the time. Where a bell
/// says to stop, or none can come any more, there is none.
fn may_work(heard: Result<Bell, RecvTimeoutError>) -> bool
    ensures { result ≡ may_work heard }
{
    match heard {
        Ok(Bell::Work) | Err(RecvTimeoutError::Timeout) => true,
        Ok(Bell::Stop) | Err(RecvTimeoutError::Disconnected) => false,
    }
}

/// Sleeps until a bell comes, and gives it.
fn hear<R: Wait>(rt: &R, bells: &Receiver<Bell>) -> Result<Bell, RecvTimeoutError> {
    match bells.recv(rt) {
        Ok(bell) => Ok(bell),
        Err(_) => Err(RecvTimeoutError::Disconnected),
    }
}

/// Whether a worker claims again behind a round, where it sleeps before that.
pub(crate) fn goes_on<R: Wait + Clock>(
    rt: &R,
    bells: &Receiver<Bell>,
    round: Round,
    patience: &mut Patience,
) -> bool
    ensures { round ≡ rounds.Delivered → result ≡ true }
{
    match next_behind(round, patience) {
        Next::Claims => true,
        Next::SleepsFor(milliseconds) => may_work(bells.recv_timeout(
            rt,
            Duration::from_millis(milliseconds),
        )),
        Next::SleepsUntilBell => may_work(hear(rt, bells)),
    }
}
