//! One session: line after line, until the client or a fault ends it.
ghost use Rattle.std.specs.Prelude.{◌≡◌, true, Some};
ghost use Rattle.std.specs.Io.KnownBytes.{Keeps};
ghost use Rattle.text_ports.specs.Faults.{count_after_flush};
ghost use Rattle.session_line.specs.Serving.{sides};
ghost use Rattle.desk_service.specs.Sessions.{ServesLine, ServesSession, ServesToEnd, between, ending_after, is_fault, standing, read_faults_at, write_faults_at};

use crate::openings::open_session;
use deck_files::Shelf;
use session_line::{Calls, Outcome, Rights, serve_one};
use std::alloc::Global;
use std::hash::RandomState;
use std::io::{Read, Write};
use text_ports::Counted;

/// How many lines a session serves at most behind its first command.
pub const MOST_COMMANDS: u32 = 1_000_000;

/// How a session ended.
#[derive(Clone, Copy)]
pub enum Ending {
    /// Its input ended or had a line that is too long, or it said BYE.
    Left,
    /// The reader failed.
    ReadFault,
    /// The writer failed.
    WriteFault,
    /// All commands that a session may have were served.
    Full,
    /// Its first line was a request of HTTP.
    Request,
    /// So many lines were no commands before the first that is one.
    Stranger,
}

/// How a session ends after a line; none where the next line may come.
pub(crate) fn ending_after(outcome: Outcome, flushed: bool) -> Option<Ending>
    ensures { result ≡ ending_after outcome flushed }
{
    match outcome {
        Outcome::Served if flushed => None,
        Outcome::Ended if flushed => Some(Ending::Left),
        Outcome::ReadFault => Some(Ending::ReadFault),
        Outcome::Served | Outcome::Ended | Outcome::WriteFault { .. } => Some(Ending::WriteFault),
    }
}

/// Sends on what the writer keeps back of a reply, and nothing after a fault: whether the writer did
/// not fail.
pub(crate) fn send_on<W: Write>(output: &mut Counted<W>, outcome: Outcome) -> bool
    ensures bytes { Keeps (W.contents output.old.0) (W.contents output.new.0) }
    ensures count { output.new.1 ≡ count_after_flush result output.old.1 }
    ensures fault { is_fault outcome ≡ true → result ≡ true }
{
    match outcome {
        Outcome::Served | Outcome::Ended => output.flush(),
        Outcome::ReadFault | Outcome::WriteFault { .. } => true,
    }
}

/// Serves one line, and sends on what the writer keeps back. A fault of the reader or the writer is
/// reported only where its count rose.
fn serve_line<R: Read, W: Write, C: Calls, S: Shelf>(
    alloc: Global,
    keys: RandomState,
    rights: Rights,
    input: &mut Counted<R>,
    output: &mut Counted<W>,
    desk: &mut C,
    shelf: &mut S,
) -> Option<Ending>
    ensures { ServesLine rights C.relations S.relations
        (between R.remaining W.contents input.old output.old desk.old shelf.old) (between R.remaining W.contents input.new output.new desk.new shelf.new) result }
{
    let outcome = serve_one(alloc, keys, rights, input, output, desk, shelf);
    let flushed = send_on(output, outcome);
    ending_after(outcome, flushed)
}

/// Serves the lines of a session behind its first command one after the other, each once and each reply sent
/// on before the next line is read, up to the first that ends it, or to the millionth. It ends by a fault of
/// the reader or the writer only where that one's count rose.
fn serve_lines<R: Read, W: Write, C: Calls, S: Shelf>(
    alloc: Global,
    keys: RandomState,
    rights: Rights,
    input: &mut Counted<R>,
    output: &mut Counted<W>,
    desk: &mut C,
    shelf: &mut S,
) -> Ending
    ensures { ServesToEnd rights C.relations S.relations
        (between R.remaining W.contents input.old output.old desk.old shelf.old) (between R.remaining W.contents input.new output.new desk.new shelf.new) result }
{
    for _ in 0..MOST_COMMANDS {
        if let Some(ending) = serve_line(alloc, keys, rights, input, output, desk, shelf) {
            return ending;
        }
    }
    Ending::Full
}

/// Serves a session, which has given no name yet, and may do this: its lines one after the other, each once and each reply
/// sent on before the next line is read, up to the first that ends it, or to the millionth behind the first
/// command. One whose first line is a request of HTTP ends there: that line is not executed, and has no
/// reply. One that begins with sixteen lines that are no commands ends behind these. A session ends by a fault
/// of the reader or the writer only where that one's count rose.
pub fn serve_session<R: Read, W: Write, C: Calls, S: Shelf>(
    alloc: Global,
    keys: RandomState,
    rights: Rights,
    input: &mut Counted<R>,
    output: &mut Counted<W>,
    desk: &mut C,
    shelf: &mut S,
) -> Ending
    ensures session { ServesSession rights C.relations S.relations
        (standing (sides (R.remaining input.old.0) (W.contents output.old.0) desk.old shelf.old) input.old.1 output.old.1)
        (standing (sides (R.remaining input.new.0) (W.contents output.new.0) desk.new shelf.new) input.new.1 output.new.1) result }
    ensures read_faults { input.new.1 ≡ read_faults_at (Some result) input.old.1 }
    ensures write_faults { output.new.1 ≡ write_faults_at (Some result) output.old.1 }
{
    desk.begin_session();
    match open_session(alloc, keys, rights, input, output, desk, shelf) {
        Some(ending) => ending,
        None => serve_lines(alloc, keys, rights, input, output, desk, shelf),
    }
}
