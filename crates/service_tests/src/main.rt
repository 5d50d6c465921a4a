//! Goes through transcripts of the service: histories of desks and sessions as people write them down,
//! with each reply, and threads, sockets and files as they run. A line shows how many steps a transcript
//! has and that what comes of them is what stands there, or where the first line stands that differs;
//! the status is 1 where one differs, and 2 where one can't be read.
//!
//! A transcript is a file of `data/`. A line that begins with `> ` is a step, and the lines below it are
//! what comes of it. A line that begins with `# ` says something of the steps below, which have a new desk
//! and a new shelf. In a step `|` ends a line. Its first word says what it is: the modules here and those
//! of `desk_tests` show theirs, and a step that begins with none of them is a command of a session.
#![tactic(auto)]

mod hosting;
mod keeping;
mod sockets;

use deck_files::KnownFiles;
use desk_tests::Place;
use std::alloc::AllocGlobal;
use std::fs::File;
use std::net::{Net, TcpListener, TcpStream};
use std::process::ExitCode;
use std::random::RandomSource;
use std::rt::Files;
use std::sync::Wait;
use std::thread::Threads;
use std::time::Clock;
use std::{fs, io, mem};
use test_parts::{Answer, cut, fixed_keys, plain_text};

/// The transcripts, lowest first.
const TRANSCRIPTS: [&str; 12] = [
    "offices", "files", "folders", "runs", "desks", "results", "workers", "lines", "sessions",
    "journals", "kept", "sockets",
];

/// The status where a transcript differs.
const DIFFERS_STATUS: u8 = 1;

/// The status where a transcript can't be read.
const NOTHING_STATUS: u8 = 2;

/// Makes a step.
fn make<R>(rt: &R, place: &mut Place, known: &KnownFiles, step: &str, answer: &mut Answer)
where
    R: AllocGlobal
        + Threads
        + Wait
        + Sync
        + Files<File = File>
        + Drop
        + Clone
        + Clock
        + Eprint
        + RandomSource
        + Net<Stream = TcpStream, Listener = TcpListener>,
    R::File: Send,
    R::Dir: Send,
{
    let (word, rest) = cut(step);
    let is_made = desk_tests::make(rt, place, known, word, rest, answer)
        || keeping::make(rt, word, rest, answer)
        || sockets::make(rt, rt.alloc(), word, rest, answer)
        || hosting::make(rt, rt.alloc(), word, rest, answer);
    if !is_made {
        place.make("say", step, answer);
    }
}

/// Goes through the steps of a transcript, and answers how many there are.
fn go_through<R>(rt: &R, transcript: &str, answer: &mut Answer) -> u64
where
    R: AllocGlobal
        + Threads
        + Wait
        + Sync
        + Files<File = File>
        + Drop
        + Clone
        + Clock
        + Eprint
        + RandomSource
        + Net<Stream = TcpStream, Listener = TcpListener>,
    R::File: Send,
    R::Dir: Send,
{
    let Ok(keys) = fixed_keys() else {
        return 0;
    };
    let known = KnownFiles::new(rt.alloc(), keys);
    let mut place = Place::new(rt.alloc(), keys);
    let mut steps = 0u64;
    for line in transcript.lines() {
        if let Some(step) = line.strip_prefix("> ") {
            steps = steps.saturating_add(1);
            answer.line(line);
            match plain_text(rt.alloc(), step) {
                Ok(step) => make(rt, &mut place, &known, step.as_str(), answer),
                Err(error) => answer.keep(Err(error)),
            }
        } else if line.starts_with("# ") {
            answer.line(line);
            mem::replace(&mut place, Place::new(rt.alloc(), keys)).free();
        }
    }
    place.free();
    drop(known);
    steps
}

/// The number of the first line that differs; lines count from 1.
fn first_difference(found: &str, wanted: &str) -> u64 {
    let mut number = 0u64;
    let mut others = wanted.lines();
    for line in found.lines() {
        number = number.saturating_add(1);
        if others.next() != Some(line) {
            return number;
        }
    }
    number.saturating_add(1)
}

/// Shows what is found in a transcript of so many steps, and answers whether it is what stands there.
fn tell<R: Print + Eprint>(
    rt: &R,
    name: &str,
    steps: u64,
    found: &str,
    wanted: &str,
) -> io::Result<bool> {
    let is_same = found == wanted;
    if is_same {
        println!(rt; "{name}: {steps} steps are as wanted")?;
    } else {
        let line = first_difference(found, wanted);
        println!(rt; "{name}: line {line} differs")?;
        eprintln!(rt; "{found}")?;
    }
    Ok(is_same)
}

/// Goes through a transcript.
fn run_one<R>(rt: &R, name: &str) -> io::Result<bool>
where
    R: AllocGlobal
        + Threads
        + Wait
        + Sync
        + Files<File = File>
        + Drop
        + Clone
        + Clock
        + Print
        + Eprint
        + RandomSource
        + Net<Stream = TcpStream, Listener = TcpListener>,
    R::File: Send,
    R::Dir: Send,
{
    let transcript = fs::read_to_string(rt, name)?;
    let mut answer = Answer::new(rt.alloc());
    let steps = go_through(rt, transcript.as_str(), &mut answer);
    tell(rt, name, steps, answer.text()?, transcript.as_str())
}

/// Goes through all transcripts, and answers whether all are as they stand there.
fn run_transcripts<R>(rt: &R) -> io::Result<bool>
where
    R: AllocGlobal
        + Threads
        + Wait
        + Sync
        + Files<File = File>
        + Drop
        + Clone
        + Clock
        + Print
        + Eprint
        + RandomSource
        + Net<Stream = TcpStream, Listener = TcpListener>,
    R::File: Send,
    R::Dir: Send,
{
    let mut are_same = true;
    for name in &TRANSCRIPTS {
        are_same &= run_one(rt, name)?;
    }
    Ok(are_same)
}

fn main(rt: HostRuntime) -> ExitCode {
    match run_transcripts(&rt) {
        Ok(true) => ExitCode::SUCCESS,
        Ok(false) => ExitCode::from(DIFFERS_STATUS),
        Err(error) => {
            let _ = eprintln!(&rt; "service_tests: {error}");
            ExitCode::from(NOTHING_STATUS)
        }
    }
}
