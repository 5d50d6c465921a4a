//! The command line of `compass`, and nothing else: what the words ask for, the ports of the
//! process, the line of a fault and the exit status.
#![tactic(auto)]

mod serving;
mod stopping;
mod streams;
mod words;

ghost use Rattle.std.specs.Prelude.{◌≡◌, ℕ, ◌<◌, pos};

use asm_main::AsmFault;
use clap::{ArgMatches, Command, Error};
use command_line::{asm_words, assemble, diff, diff_words, dump, dump_words, log, log_words, tell};
use serving::{MEMORY_STATUS, run_service, serve_words, settings_of};
use session_line::VERSION;
use std::alloc::{AllocError, Global};
use std::fs::File;
use std::io::IsTerminal;
use std::net::{Net, TcpListener, TcpStream};
use std::process::ExitCode;
use std::random::RandomSource;
use std::rt::Files;
use std::sync::Wait;
use std::thread::Threads;
use std::time::Clock;
use stopping::{stop_service, stop_words};
use streams::hold_streams;
use words::{WordsFault, words_of};

/// The status of a fault of the command line.
const COMMAND_LINE_STATUS: u8 = 2;

/// A command line with one more command.
fn with_command<'a>(
    line: Command<'a>,
    command: Result<Command<'a>, AllocError>,
) -> Result<Command<'a>, AllocError> {
    line.subcommand(command?)
}

/// The command line: its commands are `asm`, `dump`, `diff`, `log`, `serve` and `stop`.
fn line_of_commands<'a>(alloc: Global) -> Result<Command<'a>, AllocError> {
    let line = Command::new(alloc, "compass")
        .version(VERSION)
        .about("COMPASS for the Control Data 6000 series, proved")
        .subcommand_required(true);
    let line = with_command(line, asm_words(alloc))?;
    let line = with_command(line, dump_words(alloc))?;
    let line = with_command(line, diff_words(alloc))?;
    let line = with_command(line, log_words(alloc))?;
    let line = with_command(line, serve_words(alloc))?;
    with_command(line, stop_words(alloc))
}

/// What words say on the command line; `clap` writes its texts.
fn read_words<'a>(alloc: Global, words: &'a [String]) -> Result<ArgMatches<'a>, Error> {
    line_of_commands(alloc)?.try_get_matches_from(words)
}

/// Does what the words ask for; standard error may be a terminal.
fn run<R>(rt: &R, words: &[String], at_terminal: bool) -> ExitCode
where
    R: AllocGlobal
        + Input
        + Print
        + Eprint
        + Threads
        + Wait
        + Sync
        + Files<File = File>
        + Clone
        + Drop
        + Clock
        + RandomSource
        + Net<Listener = TcpListener, Stream = TcpStream>,
    R::File: Send,
    R::Dir: Send,
{
    let matches = match read_words(rt.alloc(), words) {
        Ok(matches) => matches,
        Err(error) => return answer(rt, &error),
    };
    if let Some(words) = matches.subcommand_matches("asm") {
        return assemble(rt, words, at_terminal);
    }
    if let Some(words) = matches.subcommand_matches("dump") {
        return dump(rt, words);
    }
    if let Some(words) = matches.subcommand_matches("diff") {
        return diff(rt, words);
    }
    if let Some(words) = matches.subcommand_matches("log") {
        return log(rt, words);
    }
    if let Some(words) = matches.subcommand_matches("stop") {
        return stop_service(rt, words);
    }
    match matches.subcommand_matches("serve") {
        Some(words) => match settings_of(rt, words) {
            Some(settings) => run_service(rt, &settings, words),
            None => refuse_numbers(rt),
        },
        None => refuse_numbers(rt),
    }
}

/// Reports that a number of the command line is out of its range, with the status of such faults.
fn refuse_numbers<R: Eprint>(rt: &R) -> ExitCode {
    let _ = eprintln!(rt;
        "compass: an option is missing or out of its range; see compass serve --help"
    );
    ExitCode::from(COMMAND_LINE_STATUS)
}

/// Reports what `clap` answers to words that ask for no run: help, version or a fault, with its
/// status; want of memory is a fault as in a run.
fn answer<R: Print + Eprint>(rt: &R, error: &Error) -> ExitCode {
    if error.kind() == clap::error::ErrorKind::OutOfMemory {
        return tell(rt, &Err(AsmFault::OutOfMemory));
    }
    let _ = error.print(rt);
    ExitCode::from(status_of(error.exit_code()))
}

/// The status that `clap` gives to words that it answers itself: 0 for help and version, 2 for a
/// fault.
fn status_of(exit_code: i32) -> u8
    ensures { (k : ℕ) → k < 256 → exit_code ≡ pos k → result ≡ k }
{
    u8::try_from(exit_code).unwrap_or(COMMAND_LINE_STATUS)
}

/// Reports that the command line is no text: a fault of it as those that `clap` shows, with their
/// status.
fn refuse_words<R: Eprint>(rt: &R, fault: WordsFault) -> ExitCode {
    let _ = eprintln!(rt; "compass: {fault}");
    ExitCode::from(COMMAND_LINE_STATUS)
}

/// Reports that a standard stream is closed and its number can't be taken, with the status of want of memory.
fn refuse_streams<R: Eprint>(rt: &R) -> ExitCode {
    let _ = eprintln!(rt; "compass: no file can be opened");
    ExitCode::from(MEMORY_STATUS)
}

fn main(rt: HostRuntime) -> ExitCode {
    let Ok(_held) = hold_streams(&rt, rt.alloc()) else {
        return refuse_streams(&rt);
    };
    match words_of(&rt) {
        Ok(words) => run(&rt, words.as_slice(), rt.stderr().is_terminal()),
        Err(WordsFault::OutOfMemory) => tell(&rt, &Err(AsmFault::OutOfMemory)),
        Err(fault) => refuse_words(&rt, fault),
    }
}
