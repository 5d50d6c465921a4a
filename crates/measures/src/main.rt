//! What `bench/` measures beside the whole program, and what a word says: `turns`, which prints a table of turns of an
//! office beside a lock (bench/turns); `records` and a file with a deck, records that are edited (bench/records);
//! `full_desk`, the longest turns of a full desk (bench/serve --turns).
//!
//! With no word a small run of turns prints the same each time. The status is 2 where something can't be measured.
#![tactic(auto)]

mod counting;
mod full_desk;
mod holding;
mod records;
mod turns;

use std::alloc::AllocGlobal;
use std::process::ExitCode;
use std::rt::{Env, Files};
use std::sync::Wait;
use std::thread::Threads;
use std::time::{Clock, CpuClock};
use std::{env, io};

/// The status where something can't be measured.
const NOTHING_STATUS: u8 = 2;

/// Measures the records of the deck in a file, or what a word alone names.
fn measure<R>(rt: &R, word: &str, file: Option<&String>) -> io::Result<()>
where
    R: AllocGlobal + Files + Threads + Wait + Sync + Send + Drop + Clone + Clock + CpuClock + Print,
{
    match file {
        Some(path) => records::measure(rt, path.as_str()),
        None if word == "turns" => turns::measure(rt),
        None if word == "full_desk" => full_desk::measure(rt),
        None => Err(io::Error::other("no such measurement")),
    }
}

/// Measures what the arguments name, or makes a small run where there are none.
fn run<R>(rt: &R) -> io::Result<()>
where
    R: AllocGlobal
        + Env
        + Files
        + Threads
        + Wait
        + Sync
        + Send
        + Drop
        + Clone
        + Clock
        + CpuClock
        + Print,
{
    let words: Vec<String> = env::args(rt)?.collect(rt.alloc())?;
    match words.get(1) {
        Some(word) => measure(rt, word.as_str(), words.get(2)),
        None => turns::try_out(rt),
    }
}

fn main(rt: HostRuntime) -> ExitCode {
    match run(&rt) {
        Ok(()) => ExitCode::SUCCESS,
        Err(error) => {
            let _ = eprintln!(&rt; "measures: {error}");
            ExitCode::from(NOTHING_STATUS)
        }
    }
}
