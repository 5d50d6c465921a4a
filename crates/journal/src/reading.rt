//! Reads a journal, record by record.
ghost use Rattle.std.specs.Prelude.{◌≡◌, IfErr, IfOk, IfSome, IfNone, OnOk};
ghost use Rattle.text_ports.specs.Faults.{count_up};
ghost use Rattle.text_ports.specs.Lines.{ReadsWholeLine};
ghost use Rattle.text_ports.specs.declared.lines.LineIs.TheVariants.{Line};
ghost use Rattle.journal.specs.Reading.{EndsIn, EndsWrong, ReadsNext, StopsReading};

use crate::beginning::Open;
use crate::places::{Ending, Place};
use crate::records::Record;
use crate::steps::{Step, line_step};
use std::alloc::{AllocError, Global};
use std::io::Read;
use text_ports::{Counted, LineBuf, LineIs, next_whole_line};
use thiserror::Error;

/// What one call reads.
#[derive(Drop)]
pub enum Next {
    /// The next record.
    Found(Record),
    /// The end of the journal; nothing more is to be read.
    Ended(Ending),
}

/// Why a journal was not read on.
#[derive(Clone, Copy, Debug, Error)]
pub enum JournalFault {
    /// The reader failed, or gave as many bytes as can be counted.
    #[error("the journal can't be read")]
    ReadFault,
    /// No memory was left.
    #[error("no memory was left")]
    OutOfMemory,
}

impl From<AllocError> for JournalFault {
    ghost use Rattle.std.specs.Prelude.{◌≡◌};
    ghost use Rattle.journal.specs.declared.reading.JournalFault.TheVariants.{OutOfMemory};

    ghost from_gives = { λ _ fault. fault ≡ OutOfMemory };

    fn from(_: AllocError) -> JournalFault {
        JournalFault::OutOfMemory
    }
}

/// Takes the next line into the buffer; or returns how the journal ends, where none is left or it is too
/// long.
fn take_line<R: Read>(
    input: &mut Counted<R>,
    current: &Option<Open>,
    place: &Place,
    line: &mut LineBuf,
) -> Result<Option<Ending>, JournalFault>
    ensures line { IfOk result (λ ending. IfNone ending (ReadsWholeLine (R.remaining input.old.0) (R.remaining input.new.0) Line line.new)) }
    ensures ends { IfOk result (λ ending. IfSome ending (EndsIn (R.remaining input.old.0) (R.remaining input.new.0) current.now place.now)) }
    ensures sound { OnOk result (input.new.1 ≡ input.old.1) }
    ensures fault { IfErr result (λ fault. fault ≡ JournalFault.ReadFault) }
    ensures one_fault { IfErr result (λ fault. input.new.1 ≡ count_up input.old.1) }
{
    match next_whole_line(input, line) {
        LineIs::Line => Ok(None),
        LineIs::End if current.is_none() => Ok(Some(Ending::Whole)),
        LineIs::End => Ok(Some(place.cut())),
        LineIs::Cut => Ok(Some(place.cut())),
        LineIs::TooLong => Ok(Some(place.faulty())),
        LineIs::Fault => Err(JournalFault::ReadFault),
    }
}

/// How the journal ends where a record is damaged: it is the last, unless something stands behind it.
fn wrong_ending<R: Read>(input: &mut Counted<R>, place: &Place) -> Result<Ending, JournalFault>
    ensures ends { IfOk result (λ ending. EndsWrong (R.remaining input.old.0) (R.remaining input.new.0) place.now ending) }
    ensures sound { OnOk result (input.new.1 ≡ input.old.1) }
    ensures fault { IfErr result (λ fault. fault ≡ JournalFault.ReadFault) }
    ensures one_fault { IfErr result (λ fault. input.new.1 ≡ count_up input.old.1) }
{
    let mut line = LineBuf::new();
    match next_whole_line(input, &mut line) {
        LineIs::End => Ok(place.cut()),
        LineIs::Line => Ok(place.faulty()),
        LineIs::Cut => Ok(place.faulty()),
        LineIs::TooLong => Ok(place.faulty()),
        LineIs::Fault => Err(JournalFault::ReadFault),
    }
}

/// Reads the next record, and no byte behind it, a line at a time; or returns how the journal ends. The
/// place goes on behind a record that is found, and returns nothing after an end or a fault.
pub fn next_record<R: Read>(
    alloc: Global,
    input: &mut Counted<R>,
    place: &mut Place,
) -> Result<Next, JournalFault>
    ensures reads { IfOk result (λ next. ReadsNext (R.remaining input.old.0) (R.remaining input.new.0) place.old place.new next) }
    ensures sound { OnOk result (input.new.1 ≡ input.old.1) }
    ensures stops { IfErr result (StopsReading (R.remaining input.old.0) (R.remaining input.new.0) input.old.1 input.new.1) }
{
    let mut line = LineBuf::new();
    let mut current = None;
    for _ in 0..u64::MAX {
        if let Some(ending) = take_line(input, &current, place, &mut line)? {
            return Ok(Next::Ended(ending));
        }
        let text = line.as_slice();
        place.advance(text.len());
        match line_step(alloc, current, text)? {
            Step::Goes(next) => current = Some(next),
            Step::Ends(record) => {
                place.end_record();
                return Ok(Next::Found(record));
            }
            Step::Wrong => return Ok(Next::Ended(wrong_ending(input, place)?)),
            Step::Bad => return Ok(Next::Ended(place.faulty())),
        }
    }
    Err(JournalFault::ReadFault)
}
