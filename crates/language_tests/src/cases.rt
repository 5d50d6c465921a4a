//! Runs `asm_run` on the decks of the cases, and compares with what each is to give. In the folder `cases` the file
//! `cases` has their names; `NAME.deck` is the input, and `NAME.out`, `NAME.err` and `NAME.status` are the output, the
//! text on standard error and the line of the status, if it is not 0. Those in `cases/examples` are the decks of
//! `examples/` at the top of the repository.

use crate::score::Score;
use asm_main::asm_status;
use std::alloc::{AllocGlobal, Global};
use std::fs;
use std::io::{self, ErrorKind};
use std::rt::Files;
use test_parts::assembled;
use text_ports::Counted;

/// What a run gives: its output, its text on standard error, and the line of its status.
#[derive(Drop)]
struct CaseAnswer {
    output: Vec<u8>,
    message: Vec<u8>,
    status: Vec<u8>,
}

/// The bytes of a file of a case.
fn read<R: AllocGlobal + Files>(rt: &R, name: &str, ending: &str) -> io::Result<Vec<u8>> {
    fs::read(rt, format!(in rt.alloc(); "cases/{name}{ending}")?.as_str())
}

/// The bytes of a file of a case, none where there is no such file.
fn read_if_there<R: AllocGlobal + Files>(rt: &R, name: &str, ending: &str) -> io::Result<Vec<u8>> {
    match read(rt, name, ending) {
        Err(error) if error.kind() == ErrorKind::NotFound => Ok(Vec::new(rt.alloc())),
        result => result,
    }
}

/// The answer that is wanted in a case.
fn answer_wanted<R: AllocGlobal + Files>(rt: &R, name: &str) -> io::Result<CaseAnswer> {
    Ok(CaseAnswer {
        output: read(rt, name, ".out")?,
        message: read_if_there(rt, name, ".err")?,
        status: read_if_there(rt, name, ".status")?,
    })
}

/// What a run answers to a deck, with the text that `compass` writes at a fault.
fn answer_to(alloc: Global, deck: &[u8]) -> io::Result<CaseAnswer> {
    let mut output = Counted::new(Vec::new(alloc));
    let outcome = assembled(alloc, &mut Counted::new(deck), &mut output);
    let message = match outcome {
        Ok(_) => Vec::new(alloc),
        Err(fault) => format!(in alloc; "compass: {fault}\n")?.into_bytes(),
    };
    let status = match asm_status(&outcome) {
        0 => Vec::new(alloc),
        status => format!(in alloc; "{status}\n")?.into_bytes(),
    };
    Ok(CaseAnswer {
        output: output.into_inner(),
        message,
        status,
    })
}

/// The line in which two texts differ first, or one of them ends; lines count from 1.
fn differing_line(wanted: &[u8], given: &[u8]) -> u64 {
    let mut line = 1u64;
    for (byte, other) in wanted.iter().zip(given.iter()) {
        if byte != other {
            return line;
        }
        line = line.saturating_add(u64::from(*byte == b'\n'));
    }
    line
}

/// Whether a part of an answer is as wanted; a line shows where it is not.
fn is_same<R: Print>(
    rt: &R,
    name: &str,
    part: &str,
    wanted: &[u8],
    given: &[u8],
) -> io::Result<bool> {
    if wanted != given {
        let line = differing_line(wanted, given);
        println!(rt; "{name}: {part} differs at line {line}")?;
    }
    Ok(wanted == given)
}

/// Whether a case gives what is wanted; a line shows what differs first, of output, message and status.
fn is_met<R: AllocGlobal + Files + Print>(rt: &R, name: &str) -> io::Result<bool> {
    let given = answer_to(rt.alloc(), &read(rt, name, ".deck")?)?;
    let wanted = answer_wanted(rt, name)?;
    Ok(
        is_same(rt, name, "output", &wanted.output, &given.output)?
            && is_same(rt, name, "message", &wanted.message, &given.message)?
            && is_same(rt, name, "status", &wanted.status, &given.status)?,
    )
}

/// Runs one case, prints on a line where it differs or why it can't run, and answers whether it is as
/// wanted.
fn run_case<R: AllocGlobal + Files + Print>(rt: &R, name: &str) -> io::Result<bool> {
    match is_met(rt, name) {
        Err(error) => {
            println!(rt; "{name}: {error}")?;
            Ok(false)
        }
        result => result,
    }
}

/// Runs all cases, and prints how many are as wanted: 0 where all are, else 1.
pub fn run_cases<R: AllocGlobal + Files + Print>(rt: &R) -> io::Result<u8> {
    let mut score = Score::none();
    for name in fs::read_to_string(rt, "cases/cases")?.as_str().lines() {
        score = score.with(run_case(rt, name)?);
    }
    score.tell(rt, "cases")
}
