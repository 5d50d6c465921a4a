//! The first lines of a session: up to the first that is a command. A client of another protocol, as a browser
//! that was sent here, gets no further.
ghost use Rattle.std.specs.Prelude.{◌≡◌};
ghost use Rattle.session_commands.specs.Strangers.{is_command, is_request_of_http};
ghost use Rattle.desk_service.specs.Sessions.{OpensLine, OpensSession, between, ending_without, is_turned_away, opening_of};

use crate::sessions::{Ending, ending_after, send_on};
use deck_files::Shelf;
use session_commands::{is_command, is_request_of_http};
use session_line::{Calls, Rights, serve_taken};
use std::alloc::Global;
use std::hash::RandomState;
use std::io::{Read, Write};
use text_ports::{Counted, LineBuf, LineIs, next_line};

/// How many lines that are no commands a session may begin with.
const MOST_STRANGE: u32 = 16;

/// What became of a first line.
#[derive(Clone, Copy)]
pub(crate) enum Opening {
    /// The session ends there.
    Ended(Ending),
    /// It was no command.
    Strange,
    /// It was a command.
    Met,
}

/// How a session ends where no line came; none where one did.
fn ending_without(answer: LineIs) -> Option<Ending>
    ensures { result ≡ ending_without answer }
{
    match answer {
        LineIs::Line => None,
        LineIs::End | LineIs::Cut | LineIs::TooLong => Some(Ending::Left),
        LineIs::Fault => Some(Ending::ReadFault),
    }
}

/// What became of a line that was served: it ended the session, or was a command, or none.
fn opening_of(told: Option<Ending>, is_command: bool) -> Opening
    ensures { result ≡ opening_of told is_command }
{
    match told {
        Some(ending) => Opening::Ended(ending),
        None if is_command => Opening::Met,
        None => Opening::Strange,
    }
}

/// Whether a session ends at a line without a look at it: where it is the first, and a request of HTTP.
fn is_turned_away(is_first: bool, line: &[u8]) -> bool
    ensures { result ≡ is_turned_away is_first line.now }
{
    is_first && is_request_of_http(line)
}

/// Takes one of the first lines, and serves it where the session does not end there.
fn open_line<R: Read, W: Write, C: Calls, S: Shelf>(
    alloc: Global,
    keys: RandomState,
    rights: Rights,
    is_first: bool,
    input: &mut Counted<R>,
    output: &mut Counted<W>,
    desk: &mut C,
    shelf: &mut S,
) -> Opening
    ensures { OpensLine rights C.relations S.relations is_first
        (between R.remaining W.contents input.old output.old desk.old shelf.old) (between R.remaining W.contents input.new output.new desk.new shelf.new) result }
{
    let mut buffer = LineBuf::new();
    let answer = next_line(input, &mut buffer);
    if let Some(ending) = ending_without(answer) {
        return Opening::Ended(ending);
    }
    let line = buffer.as_slice();
    if is_turned_away(is_first, line) {
        return Opening::Ended(Ending::Request);
    }
    let outcome = serve_taken(alloc, keys, rights, line, input, output, desk, shelf);
    let flushed = send_on(output, outcome);
    opening_of(ending_after(outcome, flushed), is_command(line))
}

/// Serves the first lines of a session, up to the first that is a command or ends it: how it ends there, if it
/// does. It ends at a first line that is a request of HTTP, which is not executed and has no reply, and
/// behind the sixteenth line that is no command.
pub(crate) fn open_session<R: Read, W: Write, C: Calls, S: Shelf>(
    alloc: Global,
    keys: RandomState,
    rights: Rights,
    input: &mut Counted<R>,
    output: &mut Counted<W>,
    desk: &mut C,
    shelf: &mut S,
) -> Option<Ending>
    ensures { OpensSession rights C.relations S.relations
        (between R.remaining W.contents input.old output.old desk.old shelf.old) (between R.remaining W.contents input.new output.new desk.new shelf.new) result }
{
    for number in 0..MOST_STRANGE {
        match open_line(alloc, keys, rights, number == 0, input, output, desk, shelf) {
            Opening::Ended(ending) => return Some(ending),
            Opening::Met => return None,
            Opening::Strange => {}
        }
    }
    Some(Ending::Stranger)
}
