//! Lines that lie whole in what a reader holds.
ghost use Rattle.std.specs.Prelude.{◌≡◌, ◌==◌, ◌+◌, ◌<◌, length, take, IfSome};
ghost use Rattle.text_ports.specs.Lines.{IsFrontLine, ReadsLine};
ghost use Rattle.text_ports.specs.Faults.{TakesHeld, count_after_held, count_after_line};

use crate::counted::Counted;
use crate::lines::{LineBuf, LineIs, MOST_BYTES, next_line};
use memchr::memchr;
use std::io::BufRead;

/// What begins with the first byte that a reader holds.
#[derive(Clone, Copy)]
pub(crate) enum HeldIs {
    /// A line whose line feed is held, too.
    Line,
    /// Anything else.
    Other,
    /// The port failed.
    Fault,
}

/// How long the line is with which some bytes begin, if its line feed is among them.
fn front_line_len(bytes: &[u8]) -> Option<usize>
    ensures { IfSome result (λ len. IsFrontLine len bytes.now) }
{
    memchr(b'\n', bytes.split_at(bytes.len().min(MOST_BYTES + 1)).0)
}

/// Takes the line that begins what a reader holds, with its line feed, or nothing.
pub(crate) fn take_held<R: BufRead>(reader: &mut R, line: &mut LineBuf) -> HeldIs
    ensures { TakesHeld (R.remaining reader.old) (R.remaining reader.new) result line.new }
{
    let Ok(held) = reader.fill_buf() else {
        return HeldIs::Fault;
    };
    let Some(len) = front_line_len(held) else {
        return HeldIs::Other;
    };
    line.set(held.split_at(len).0);
    reader.consume(len + 1);
    HeldIs::Line
}

/// Reads the next line as `next_line` does. One that lies whole in the reader's buffer is taken at
/// once.
pub fn next_held_line<R: BufRead>(input: &mut Counted<R>, line: &mut LineBuf) -> LineIs
    ensures reads { ReadsLine (R.remaining input.old.0) (R.remaining input.new.0) result line.new }
    ensures count { input.new.1 ≡ count_after_line result input.old.1 }
{
    match input.take_held_line(line) {
        HeldIs::Line => {
            line.drop_cr();
            LineIs::Line
        }
        HeldIs::Other => next_line(input, line),
        HeldIs::Fault => {
            line.clear();
            LineIs::Fault
        }
    }
}
