//! Goes through tables of the language, where each row is a text and what a layer makes of it, worked
//! by hand; and through cases, where each is an input and the whole answer of `asm_run`. A line shows
//! each row or case that differs, and a line at the end of each kind how many are as wanted. The status is 1
//! where a row or a case differs, and 2 where a table or the list of the cases can't be read.
//!
//! A table is a file of `data/` with the name of its topic; the file `topics` has these names, lowest first. The
//! lines of a row's text stand in front of an arrow, and what is wanted behind it; a line that begins with `# ` says
//! something of the rows below.
#![tactic(auto)]

mod card_topics;
mod cases;
mod deck_topics;
mod edited_decks;
mod expression_topics;
mod field_topics;
mod item_topics;
mod link_topics;
mod operation_topics;
mod outputs;
mod port_topics;
mod score;
mod statement_topics;
mod tables;
mod topics;

use cases::run_cases;
use outputs::Answer;
use score::Score;
use std::alloc::AllocGlobal;
use std::process::ExitCode;
use std::rt::Files;
use std::{fs, io};
use tables::{Row, rows_of};
use test_parts::fixed_keys;

/// The status where a table or the list of the cases can't be read.
const NOTHING_STATUS: u8 = 2;

/// Whether what is found for a row is as wanted; a line shows where it is not.
fn is_met<R: AllocGlobal + Print>(rt: &R, topic: &str, row: &Row) -> io::Result<bool> {
    let mut answer = Answer::new(rt.alloc(), fixed_keys()?);
    if !topics::answer(&mut answer, topic, row.text.as_str())? {
        answer.word("no such topic");
    }
    let found = answer.text()?;
    let is_met = found == row.wanted.as_str();
    if !is_met {
        println!(rt; "{topic}: {} -> {found}, not {}", row.text, row.wanted)?;
    }
    Ok(is_met)
}

/// Goes through the table of a topic.
fn run_topic<R: AllocGlobal + Files + Print>(
    rt: &R,
    topic: &str,
    before: Score,
) -> io::Result<Score> {
    let rows = rows_of(rt, topic)?;
    let mut score = before;
    for row in &rows {
        score = score.with(is_met(rt, topic, row)?);
    }
    Ok(score)
}

/// Goes through all tables, and prints how many rows are as wanted: 0 where all are, else 1.
fn run_rows<R: AllocGlobal + Files + Print>(rt: &R) -> io::Result<u8> {
    let mut score = Score::none();
    for topic in fs::read_to_string(rt, "topics")?.as_str().lines() {
        score = run_topic(rt, topic, score)?;
    }
    score.tell(rt, "rows")
}

/// Goes through all tables and all cases: 0 where all are as wanted, else 1.
fn run_all<R: AllocGlobal + Files + Print>(rt: &R) -> io::Result<u8> {
    let of_rows = run_rows(rt)?;
    Ok(of_rows.max(run_cases(rt)?))
}

fn main(rt: HostRuntime) -> ExitCode {
    match run_all(&rt) {
        Ok(status) => ExitCode::from(status),
        Err(error) => {
            let _ = eprintln!(&rt; "language_tests: {error}");
            ExitCode::from(NOTHING_STATUS)
        }
    }
}
