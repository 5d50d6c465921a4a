//! Files as a person reads them, and ports that fail at one call after another.
//!
//! `load CALL`: the file is loaded by a reader that fails at the call of this number; `count`: how many cards it
//! has; `save CALL`: its cards are saved by a writer that fails. `run PIECE READ WRITE`: it is assembled by
//! ports that give and take so many bytes at a time, and fail at the calls of these numbers; `run_line LINE`:
//! whether a run writes this line; `statuses`: those of want of memory, and of a link that is missing.

use asm_main::{AsmFault, Tally, asm_status};
use cards::Card;
use deck_files::{load, save};
use std::alloc::{AllocError, Global};
use std::fmt::Debug;
use std::io::{BufReader, Write};
use test_parts::{Answer, Failing, FaultyReader, FaultyWriter, Got, assembled, cards_of, number};
use text_ports::{Broken, Counted};

/// Makes a step of this word, if it is one of files, and answers whether it is.
pub fn make(file: &[u8], word: &str, rest: &str, answer: &mut Answer) -> bool {
    match word {
        "load" => push_loaded(answer, file, number(rest)),
        "count" => push_count(answer, file),
        "save" => push_saved(answer, file, number(rest)),
        "run" => push_run(answer, file, rest),
        "run_line" => push_run_line(answer, file, rest),
        "statuses" => push_statuses(answer),
        _ => return false,
    }
    true
}

/// A value as a program writes it, and how many faults a port had.
fn push_found<T: Debug>(answer: &mut Answer, value: &T, faults: u64) {
    answer.push("= ");
    answer.debug(value);
    answer.number(", faults ", faults);
    answer.line("");
}

/// Cards, or a fault, and how many faults the reader had, where it had some.
fn push_loaded(answer: &mut Answer, file: &[u8], fails_at: u64) {
    let mut input = Counted::new(FaultyReader::new(file, 1, fails_at));
    match load(answer.alloc, &mut input) {
        Ok(cards) => push_lines(answer, &cards),
        Err(fault) => push_found(answer, &fault, input.faults()),
    }
}

/// Cards as lines.
pub fn push_lines(answer: &mut Answer, cards: &[Card]) {
    for card in cards {
        answer.bytes(card.as_slice());
        answer.line("");
    }
}

/// How many cards a file has.
fn push_count(answer: &mut Answer, file: &[u8]) {
    let mut input = Counted::new(FaultyReader::new(file, 80, 0));
    match load(answer.alloc, &mut input) {
        Ok(cards) => answer.number("= ", cards.len() as u64),
        Err(fault) => answer.debug(&fault),
    }
    answer.line("");
}

/// Saves the cards of a file.
fn saved<W: Write>(alloc: Global, output: &mut Counted<W>, file: &[u8]) -> Got<Result<(), Broken>> {
    let cards = cards_of(alloc, str::from_utf8(file).unwrap_or(""))?;
    Ok(save(output, &cards))
}

/// What is saved, how that ends, and how many faults the writer had.
fn push_saved(answer: &mut Answer, file: &[u8], fails_at: u64) {
    let mut output = Counted::new(FaultyWriter::new(answer.alloc, 1, fails_at));
    let saved = saved(answer.alloc, &mut output, file);
    let faults = output.faults();
    answer.bytes(output.into_inner().taken());
    push_found(answer, &saved, faults);
}

/// What a run answered, and its status.
fn push_outcome(answer: &mut Answer, outcome: &Result<Tally, AsmFault>) {
    answer.push("= ");
    match outcome {
        Ok(tally) => {
            answer.number("errors ", tally.errors as u64);
            answer.number(", links ", tally.links as u64);
        }
        Err(fault) => answer.shown(fault),
    }
    answer.number(", status ", u64::from(asm_status(outcome)));
}

/// Assembles the file by ports that give and take so many bytes at a time, and fail at the calls of the numbers
/// behind: what they have written. Shown are the outcome, and how many faults they had.
fn run(answer: &mut Answer, file: &[u8], text: &str) -> Got<FaultyWriter> {
    let (failing, _) = Failing::cut(text);
    let reader = BufReader::new(answer.alloc, failing.reader(file)).map_err(|_| AllocError)?;
    let mut input = Counted::new(reader);
    let mut output = failing.writer(answer.alloc);
    let outcome = assembled(answer.alloc, &mut input, &mut output);
    push_outcome(answer, &outcome);
    answer.number(", faults ", input.faults());
    answer.number(" and ", output.faults());
    answer.line("");
    Ok(output.into_inner())
}

fn push_run(answer: &mut Answer, file: &[u8], text: &str) {
    let writer = run(answer, file, text);
    if let Some(writer) = answer.kept(writer) {
        answer.bytes(writer.taken());
        answer.line("");
    }
}

/// Whether the text has this line.
fn has_line(text: &[u8], line: &[u8]) -> bool {
    text.split(|c| *c == b'\n').any(|other| other == line)
}

/// Assembles the file: whether this line is written.
fn push_run_line(answer: &mut Answer, file: &[u8], line: &str) {
    let writer = run(answer, file, "1000 0 0");
    if let Some(writer) = answer.kept(writer) {
        answer.debug(&has_line(writer.taken(), line.as_bytes()));
    }
    answer.line("");
}

fn push_statuses(answer: &mut Answer) {
    let linked = Tally {
        errors: 0,
        links: 1,
    };
    let lacking = asm_status(&Err(AsmFault::OutOfMemory));
    answer.number("", u64::from(lacking));
    answer.number(" ", u64::from(asm_status(&Ok(linked))));
    answer.line("");
}
