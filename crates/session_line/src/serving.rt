//! Serves one line of a session.
ghost use Rattle.std.specs.Prelude.{◌≡◌, ℕ};
ghost use Rattle.session_line.specs.Answers.{IsTellable};
ghost use Rattle.session_line.specs.Serving.{GoesOut, Serves, ServesBehind, outcome_of, read_faults_after, sides, write_faults_after};

use crate::answers::Answer;
use crate::calls::Calls;
use crate::executing::execute;
use crate::reading::{Stop, read_behind, take_line};
use crate::rights::{Rights, allowed};
use crate::writing::write_told;
use deck_files::Shelf;
use std::alloc::Global;
use std::hash::RandomState;
use std::io::{Read, Write};
use text_ports::{Counted, LineBuf};

/// How one line of a session was served.
#[derive(Clone, Copy, Debug, PartialEq, Eq)]
pub enum Outcome {
    /// The command was executed, and its reply went out.
    Served,
    /// The session is over: the input ended or had a line that is too long, and nothing was done; or
    /// the reply to `BYE` went out.
    Ended,
    /// The reader failed, and nothing was done.
    ReadFault,
    /// The writer failed: exactly the first `sent` bytes of the reply went out. Whether a call of the
    /// desk was made before; it is not made again.
    WriteFault { executed: bool, sent: usize },
}

/// Writes an answer, and frees it.
fn send<W: Write>(output: &mut Counted<W>, answer: Answer) -> Outcome
    requires { IsTellable answer.told }
    ensures sent { GoesOut (W.contents output.old.0) (W.contents output.new.0) answer result }
    ensures count { output.new.1 ≡ write_faults_after result output.old.1 }
    ensures reader { (faults : ℕ) → read_faults_after result faults ≡ faults }
{
    let executed = answer.executed;
    let is_bye = answer.told.is_bye();
    match write_told(output, answer.told) {
        Ok(()) if is_bye => Outcome::Ended,
        Ok(()) => Outcome::Served,
        Err(broken) => Outcome::WriteFault {
            executed,
            sent: broken.sent,
        },
    }
}

/// How a session ends where no command came whole.
fn outcome_of(stop: Stop) -> Outcome
    ensures { result ≡ outcome_of stop }
{
    match stop {
        Stop::InputEnded => Outcome::Ended,
        Stop::InputFailed => Outcome::ReadFault,
    }
}

/// Serves one line of a session, with the lines that belong to it. A command whose lines were all
/// read whole is executed exactly once: at most one call of the desk, with the calls of the shelf that
/// belong to it, LOAD's before that of the desk, all others behind it; SAVEALL makes one call more for each
/// deck that it saves; and its reply is written. Of a session that may only ask, one that changes a deck or a file is `NO ReadOnly`, and
/// nothing is called. Where the input ends or fails before that, or a line is too long, nothing is called
/// and nothing is written. Want of memory is reported as `NO OutOfMemory`. Tables that are made for it hash by
/// these keys.
pub fn serve_one<R: Read, W: Write, C: Calls, S: Shelf>(
    alloc: Global,
    keys: RandomState,
    rights: Rights,
    input: &mut Counted<R>,
    output: &mut Counted<W>,
    desk: &mut C,
    shelf: &mut S,
) -> Outcome
    ensures serves { Serves rights C.relations S.relations
        (sides (R.remaining input.old.0) (W.contents output.old.0) desk.old shelf.old)
        (sides (R.remaining input.new.0) (W.contents output.new.0) desk.new shelf.new) result }
    ensures read_faults { input.new.1 ≡ read_faults_after result input.old.1 }
    ensures write_faults { output.new.1 ≡ write_faults_after result output.old.1 }
{
    let mut line = LineBuf::new();
    match take_line(input, &mut line) {
        Ok(()) => serve_taken(
            alloc,
            keys,
            rights,
            line.as_slice(),
            input,
            output,
            desk,
            shelf,
        ),
        Err(stop) => outcome_of(stop),
    }
}

/// Serves one line of a session as `serve_one` does, where this line was taken from the reader already, and
/// those that belong to it were not.
pub fn serve_taken<R: Read, W: Write, C: Calls, S: Shelf>(
    alloc: Global,
    keys: RandomState,
    rights: Rights,
    first: &[u8],
    input: &mut Counted<R>,
    output: &mut Counted<W>,
    desk: &mut C,
    shelf: &mut S,
) -> Outcome
    ensures serves { ServesBehind rights C.relations S.relations first.now
        (sides (R.remaining input.old.0) (W.contents output.old.0) desk.old shelf.old)
        (sides (R.remaining input.new.0) (W.contents output.new.0) desk.new shelf.new) result }
    ensures read_faults { input.new.1 ≡ read_faults_after result input.old.1 }
    ensures write_faults { output.new.1 ≡ write_faults_after result output.old.1 }
{
    match read_behind(alloc, first, input) {
        Ok(task) => {
            let answer = execute(alloc, keys, desk, shelf, allowed(rights, task));
            send(output, answer)
        }
        Err(stop) => outcome_of(stop),
    }
}
