//! Reads the line of a command, and those that belong to it.
ghost use Rattle.std.specs.Prelude.{◌≡◌, IfErr, IfOk, OnOk};
ghost use Rattle.text_ports.specs.Lines.{ReadsLine};
ghost use Rattle.text_ports.specs.declared.lines.LineIs.TheVariants.{Line};
ghost use Rattle.session_commands.specs.Commands.{command_of};
ghost use Rattle.session_line.specs.Taking.{BreaksOff, StopsWithin, TakesBehind, count_after_reading};
ghost use Rattle.session_line.specs.Tasks.{lines_due};
ghost use Rattle.session_line.specs.Joins.LineItems.{TakesItems};

use crate::line_items::{ItemsRead, LineItem};
use crate::tasks::{Task, is_put, lines_due, put_by, task_by};
use session_commands::read_command;
use std::alloc::Global;
use std::io::Read;
use text_ports::{Counted, LineBuf, LineIs, next_line};
use thiserror::Error;

/// Why a command was not read whole.
#[derive(Clone, Copy, Debug, Error)]
pub(crate) enum Stop {
    /// The input ended, also within a line, or a line was too long.
    #[error("the input ended, or a line was too long")]
    InputEnded,
    /// The reader failed.
    #[error("the reader failed")]
    InputFailed,
}

/// Takes one line into the buffer.
pub(crate) fn take_line<R: Read>(input: &mut Counted<R>, line: &mut LineBuf) -> Result<(), Stop>
    ensures line { OnOk result (ReadsLine (R.remaining input.old.0) (R.remaining input.new.0) Line line.new) }
    ensures stop { IfErr result (λ stop. BreaksOff (R.remaining input.old.0) (R.remaining input.new.0) stop) }
    ensures count { input.new.1 ≡ count_after_reading result input.old.1 }
{
    match next_line(input, line) {
        LineIs::Line => Ok(()),
        LineIs::End | LineIs::Cut | LineIs::TooLong => Err(Stop::InputEnded),
        LineIs::Fault => Err(Stop::InputFailed),
    }
}

/// Takes so many lines, and reads each as an item.
fn read_items<R: Read, T: LineItem>(
    alloc: Global,
    input: &mut Counted<R>,
    count: u64,
) -> Result<ItemsRead<T>, Stop>
    ensures items { IfOk result (λ items. TakesItems T.item_of (R.remaining input.old.0) (R.remaining input.new.0) count items) }
    ensures stop { IfErr result (λ stop. StopsWithin (R.remaining input.old.0) (R.remaining input.new.0) count stop) }
    ensures count { input.new.1 ≡ count_after_reading result input.old.1 }
{
    let mut items = ItemsRead::Whole(Vec::new(alloc));
    let mut line = LineBuf::new();
    for number in 0..count {
        take_line(input, &mut line)?;
        items = items.with_line(number + 1, line.as_slice());
    }
    Ok(items)
}

/// Reads the lines that belong to a first line, which was taken already, and what they ask for together. No
/// line behind the first is looked at before all are read.
pub(crate) fn read_behind<R: Read>(
    alloc: Global,
    first: &[u8],
    input: &mut Counted<R>,
) -> Result<Task, Stop>
    ensures task { IfOk result (λ task. TakesBehind first.now (R.remaining input.old.0) (R.remaining input.new.0) task) }
    ensures stop { IfErr result (λ stop. StopsWithin (R.remaining input.old.0) (R.remaining input.new.0) (lines_due (command_of first.now)) stop) }
    ensures count { input.new.1 ≡ count_after_reading result input.old.1 }
{
    let command = read_command(first);
    let count = lines_due(&command);
    if is_put(&command) {
        return match read_items(alloc, input, count) {
            Ok(cards) => Ok(put_by(command, cards)),
            Err(stop) => {
                drop(command);
                Err(stop)
            }
        };
    }
    match read_items(alloc, input, count) {
        Ok(edits) => Ok(task_by(alloc, command, edits)),
        Err(stop) => {
            drop(command);
            Err(stop)
        }
    }
}
