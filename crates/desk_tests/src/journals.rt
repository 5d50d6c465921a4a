//! Journals as a person reads them.
//!
//! `journal CALL`: the file is read as a journal, by a reader that fails at the call of this number, and its
//! records are shown as they are written again; `replay VERSION`: its changes are made again up to a version;
//! `compact`: it becomes the one that begins with its decks.

use crate::jobs::push_asked;
use desk_core::{Call, Question};
use journal::{
    Ending, JournalFault, Next, Place, Record, ReplayFault, Replayed, compacted_text, next_record,
    record_text, replay,
};
use moments::Moment;
use std::alloc::{AllocError, Global};
use std::io::Read;
use test_parts::{Answer, FaultyReader, name_of, number};
use text_ports::{Counted, Text};

/// Makes a step of this word, if it is one of journals, and answers whether it is.
pub fn make(file: &mut Vec<u8>, word: &str, rest: &str, answer: &mut Answer) -> bool {
    match word {
        "journal" => push_journal(answer, file, number(rest)),
        "replay" => push_replayed(answer, file, number(rest)),
        "compact" => compact(answer, file),
        _ => return false,
    }
    true
}

/// The next record of a journal.
fn next<R: Read>(
    alloc: Global,
    input: &mut Counted<R>,
    place: &mut Place,
) -> Result<Next, JournalFault> {
    next_record(alloc, input, place)
}

/// Appends the text of a record.
fn append_record(alloc: Global, record: Record, text: &mut Text) -> Result<(), AllocError> {
    let written = record_text(alloc, &record);
    drop(record);
    text.append(written?)
}

/// Reads a journal to its end, ten records at most, and appends the text of each: how many there were, and the end.
fn rewritten<R: Read>(
    alloc: Global,
    input: &mut Counted<R>,
    text: &mut Text,
) -> Result<(u64, Ending), JournalFault> {
    let mut place = Place::at_start();
    for count in 0..10 {
        match next(alloc, input, &mut place)? {
            Next::Found(record) => append_record(alloc, record, text)?,
            Next::Ended(ending) => return Ok((count, ending)),
        }
    }
    Err(JournalFault::OutOfMemory)
}

fn push_journal(answer: &mut Answer, file: &[u8], fails_at: u64) {
    let mut text = Text::new(answer.alloc);
    let mut input = Counted::new(FaultyReader::new(file, 7, fails_at));
    let end = rewritten(answer.alloc, &mut input, &mut text);
    if fails_at == 0 {
        answer.bytes(text.as_slice());
    }
    answer.push("= ");
    answer.debug(&end);
    answer.line("");
}

/// Makes the changes of a journal again, up to a version.
fn replayed(alloc: Global, file: &[u8], last: u64) -> Result<Replayed, ReplayFault> {
    replay(
        alloc,
        &mut Counted::new(FaultyReader::new(file, 7, 0)),
        last,
    )
}

/// The version of a desk, how many decks it has, how its journal ends, and the cards of M.
fn push_desk(answer: &mut Answer, replayed: &mut Replayed) -> Result<(), AllocError> {
    answer.number("version ", replayed.desk.version());
    answer.number(", decks ", replayed.desk.decks().len() as u64);
    answer.push(", ");
    answer.debug(&replayed.ending);
    answer.push(", M: ");
    let call = Call::Ask(Question::Cards(name_of("M")?));
    push_asked(&mut replayed.desk, call, answer);
    Ok(())
}

fn push_replayed(answer: &mut Answer, file: &[u8], last: u64) {
    match replayed(answer.alloc, file, last) {
        Ok(mut replayed) => {
            let done = push_desk(answer, &mut replayed);
            replayed.desk.free();
            answer.keep(done);
        }
        Err(fault) => answer.debug(&fault),
    }
    answer.line("");
}

/// The journal that begins with the decks of another.
fn compacted(alloc: Global, file: &[u8]) -> Result<Text, AllocError> {
    match replayed(alloc, file, 9) {
        Ok(replayed) => {
            let text = compacted_text(alloc, &Moment::of_seconds(0), 3, replayed.desk.decks());
            replayed.desk.free();
            text
        }
        Err(_) => Err(AllocError),
    }
}

fn compact(answer: &mut Answer, file: &mut Vec<u8>) {
    match compacted(answer.alloc, file) {
        Ok(text) => {
            file.clear();
            answer.keep(file.extend_from_slice(text.as_slice()));
        }
        Err(error) => answer.keep(Err(error)),
    }
}
