//! Makes the changes of a journal again.
ghost use Rattle.std.specs.Prelude.{◌≡◌, ◌⊎◌, IfErr, IfOk, OnOk};
ghost use Rattle.desk_core.specs.Desks.{new_desk_at};
ghost use Rattle.journal.specs.Replaying.{AnswersOtherwise, IsNotTaken, IsTaken, MakesAgain, Replays, StopsReplay};

use crate::places::{Ending, Place};
use crate::reading::{JournalFault, Next, next_record};
use crate::records::{Entry, Record};
use cards::DeckName;
use desk_core::{Call, Change, Desk, Refusal, Reply};
use std::alloc::Global;
use std::io::Read;
use std::mem::replace;
use text_ports::Counted;
use thiserror::Error;

/// A desk on which the changes of a journal were made again.
#[derive(Drop)]
pub struct Replayed {
    pub desk: Desk,
    /// How the journal ends; none where more may stand behind the version that was asked for.
    pub ending: Option<Ending>,
}

/// Why the changes of a journal were not all made again.
#[derive(Clone, Copy, Debug, Error)]
pub enum ReplayFault {
    /// The reader failed, or gave as many bytes as can be counted.
    #[error("the journal can't be read")]
    ReadFault,
    /// No memory was left.
    #[error("no memory was left")]
    OutOfMemory,
    /// This record, counted from 1, is one that the desk refuses, or that makes another version; or it
    /// shows where the journal begins, and is not the first. It begins at this byte.
    #[error("record {number}, at byte {begin}, can't be made again")]
    Unmade { number: u64, begin: u64 },
}

impl From<JournalFault> for ReplayFault {
    ghost use Rattle.std.specs.Prelude.{◌≡◌};
    ghost use Rattle.journal.specs.Replaying.{replay_fault};

    ghost from_gives = { λ fault given. given ≡ replay_fault fault };

    fn from(fault: JournalFault) -> ReplayFault {
        match fault {
            JournalFault::ReadFault => ReplayFault::ReadFault,
            JournalFault::OutOfMemory => ReplayFault::OutOfMemory,
        }
    }
}

/// Makes a change of who has a name again, which made this version; else this is the fault, unless there is
/// no memory.
fn make_again(
    desk: &mut Desk,
    change: Change,
    by: DeckName,
    version: u64,
    unmade: ReplayFault,
) -> Result<(), ReplayFault>
    ensures made { OnOk result (MakesAgain version by change desk.old desk.new) }
    ensures unmade { IfErr result (λ fault. (fault ≡ ReplayFault.OutOfMemory) ⊎ ((fault ≡ unmade) × AnswersOtherwise version by change desk.old)) }
{
    match desk.step(Call::Make { by, change }) {
        Reply::Changed(made) => {
            let found = made.version();
            made.free();
            if found == version {
                Ok(())
            } else {
                Err(unmade)
            }
        }
        Reply::Refused(Refusal::OutOfMemory) => Err(ReplayFault::OutOfMemory),
        other => {
            other.free();
            Err(unmade)
        }
    }
}

/// Takes the record at a place: the first may show where the journal begins, and each other has a change.
fn take_record(
    alloc: Global,
    desk: &mut Desk,
    is_first: bool,
    found: Record,
    place: &Place,
) -> Result<(), ReplayFault>
    ensures taken { OnOk result (IsTaken is_first found desk.old desk.new) }
    ensures not_taken { IfErr result (IsNotTaken is_first found place.now desk.old) }
{
    let unmade = ReplayFault::Unmade {
        number: place.records.saturating_add(1),
        begin: place.begin,
    };
    let Record {
        version,
        by,
        entry,
        ..
    } = found;
    match entry {
        Entry::Begun if is_first => {
            replace(desk, Desk::behind(alloc, version)).free();
            Ok(())
        }
        Entry::Begun => Err(unmade),
        Entry::Made(change) => make_again(desk, change, by, version, unmade),
    }
}

/// Makes the changes of a journal's whole records again on a new desk, in their order: how the journal ends, or none
/// where the desk has this version before.
fn make_all<R: Read>(
    alloc: Global,
    input: &mut Counted<R>,
    last: u64,
    desk: &mut Desk,
) -> Result<Option<Ending>, ReplayFault>
    requires { desk.old ≡ new_desk_at 0 }
    ensures replays { IfOk result (λ ending. Replays (R.remaining input.old.0) (R.remaining input.new.0) last desk.new ending) }
    ensures stops { IfErr result (StopsReplay (R.remaining input.old.0) (R.remaining input.new.0) input.old.1 input.new.1) }
    ensures sound { OnOk result (input.new.1 ≡ input.old.1) }
{
    let mut place = Place::at_start();
    let mut is_first = true;
    for _ in 0..u64::MAX {
        if desk.version() == last {
            return Ok(None);
        }
        let begin = place;
        match next_record(alloc, input, &mut place)? {
            Next::Found(record) => take_record(alloc, desk, is_first, record, &begin)?,
            Next::Ended(ending) => return Ok(Some(ending)),
        }
        is_first = false;
    }
    Err(ReplayFault::ReadFault)
}

/// Reads a journal, a line at a time, and makes the changes of its whole records again on a new desk, in
/// their order: to its end, or until the desk has this version. A record that can't be made again is reported
/// by its number and its first byte.
pub fn replay<R: Read>(
    alloc: Global,
    input: &mut Counted<R>,
    last: u64,
) -> Result<Replayed, ReplayFault>
    ensures replays { IfOk result (λ replayed. Replays (R.remaining input.old.0) (R.remaining input.new.0) last replayed.desk replayed.ending) }
    ensures stops { IfErr result (StopsReplay (R.remaining input.old.0) (R.remaining input.new.0) input.old.1 input.new.1) }
    ensures sound { OnOk result (input.new.1 ≡ input.old.1) }
{
    let mut desk = Desk::new(alloc);
    match make_all(alloc, input, last, &mut desk) {
        Ok(ending) => Ok(Replayed { desk, ending }),
        Err(fault) => {
            desk.free();
            Err(fault)
        }
    }
}
