//! The faults of `compass asm`, and their lines on standard error.
ghost use Rattle.std.specs.Prelude.{◌≡◌};
ghost use Rattle.std.specs.Process.{exit_status};
ghost use Rattle.asm_main.specs.Runs.{run_status};

use crate::input_files::InputFault;
use crate::journal_files::{JOURNAL_STATUS, JournalError};
use crate::outputs::{Clash, FileName};
use crate::tab_places::{FileColumns, column_at};
use asm_main::{AsmFault, Chained, LinePlace, Tally, asm_status, column_of};
use std::process::ExitCode;
use std::{fmt, io};
use thiserror::Error;

/// The status of a fault of the command line.
const COMMAND_LINE_STATUS: u8 = 2;

/// A line of a file of the input that is refused, and why.
#[derive(Clone, Copy, Debug, Error)]
pub(crate) struct LineFault<'a> {
    pub name: &'a str,
    pub line: u64,
    /// The column of the file, where one is known.
    pub column: Option<usize>,
    pub words: &'static str,
    /// The character that is in no set.
    pub character: BadCharacter,
    pub fault: AsmFault,
}

/// The character that a refused line is about, if it is about one.
#[derive(Clone, Copy, Debug)]
pub(crate) struct BadCharacter(pub Option<u8>);

/// The character, and a comma behind it: one that can't be shown by its number. Of a tab and a carriage return
/// the words of the line say enough.
impl fmt::Display for BadCharacter {
    fn fmt<W: fmt::Write>(&self, f: &mut fmt::Formatter<W>) -> fmt::Result {
        match self.0 {
            None | Some(b'\t' | b'\r') => Ok(()),
            Some(character) if matches!(character, b' '..=b'~') => {
                let character = char::from(character);
                write!(f, "{character}, ")
            }
            Some(character) => write!(f, "byte {character:02x} in base 16, "),
        }
    }
}

/// `FILE:LINE:COLUMN: words [fault]`, the column where one is known, and before the words the character, if it
/// is one.
impl fmt::Display for LineFault<'_> {
    fn fmt<W: fmt::Write>(&self, f: &mut fmt::Formatter<W>) -> fmt::Result {
        let LineFault {
            name,
            line,
            column,
            words,
            character,
            fault,
        } = *self;
        match column {
            Some(column) => write!(f, "{name}:{line}:{column}: {character}{words} [{fault}]"),
            None => write!(f, "{name}:{line}: {character}{words} [{fault}]"),
        }
    }
}

/// Why a run wrote no whole output.
#[derive(Clone, Copy, Debug, Error)]
pub(crate) enum RunFault<'a> {
    /// The input, the memory or standard output.
    #[error(transparent)]
    Asm(#[from] AsmFault),
    /// A file of the input can't be read.
    #[error(transparent)]
    Input(#[from] InputFault<'a>),
    /// A line of a file of the input is refused, and that is told.
    #[error(transparent)]
    Told(AsmFault),
    /// The journal has not what is asked for.
    #[error("{name}: {error}")]
    Journal {
        name: &'a str,
        error: JournalError,
    },
    /// A file of the output can't be written.
    #[error("{name}: {error}")]
    Output {
        name: &'a str,
        error: io::Error,
    },
    /// The text beside packed words can't be written.
    #[error("{name}: {error}")]
    Beside {
        name: FileName<'a>,
        error: io::Error,
    },
    /// Standard output can't be written, by what the system says.
    #[error("standard output: {error} [{fault}]")]
    Standard {
        fault: AsmFault,
        error: io::Error,
    },
}

/// The column of the file that a fault of a line at this place is about, where one is known.
pub(crate) fn fault_column<I: FileColumns>(
    fault: AsmFault,
    chain: &Chained<I>,
    place: LinePlace,
) -> Option<usize> {
    match column_of(fault) {
        Some(column) => Some(column_at(chain, place, column)),
        None => None,
    }
}

/// A read fault with the name of the file and what the system says.
pub(crate) fn named<'a, I>(fault: AsmFault, chain: &Chained<I>, names: &[&'a str]) -> RunFault<'a> {
    match (fault, chain.fault(), names.get(chain.asked())) {
        (AsmFault::ReadFault, Some(error), Some(name)) => {
            RunFault::Input(InputFault { name: *name, error })
        }
        _ => RunFault::Asm(fault),
    }
}

/// The status of a run that wrote no whole output.
fn status_of(fault: &RunFault<'_>) -> u8 {
    match fault {
        RunFault::Asm(fault) => asm_status(&Err(*fault)),
        RunFault::Input(_) => asm_status(&Err(AsmFault::ReadFault)),
        RunFault::Told(fault) => asm_status(&Err(*fault)),
        RunFault::Journal { .. } => JOURNAL_STATUS,
        RunFault::Output { .. } | RunFault::Beside { .. } => asm_status(&Err(AsmFault::WriteFault {
            sent: 0,
        })),
        RunFault::Standard { fault, .. } => asm_status(&Err(*fault)),
    }
}

/// The line of a fault on standard error, unless it is told, and the status of a run.
pub(crate) fn tell_run<R: Eprint>(rt: &R, outcome: &Result<Tally, RunFault<'_>>) -> ExitCode {
    let fault = match outcome {
        Ok(tally) => return tell(rt, &Ok(*tally)),
        Err(fault) => fault,
    };
    let _ = match fault {
        RunFault::Told(_) => Ok(()),
        fault => eprintln!(rt; "compass: {fault}"),
    };
    ExitCode::from(status_of(fault))
}

/// The line of two words that name one file, and the status of faults of the command line.
pub(crate) fn tell_clash<R: Eprint>(rt: &R, clash: Clash<'_>) -> ExitCode {
    let Clash { output, other } = clash;
    let _ = eprintln!(rt;
        "compass: {output} would be written over {other}, the same file; nothing was read or written"
    );
    ExitCode::from(COMMAND_LINE_STATUS)
}

/// The line of a word that wants a plain file and names none, and the status of faults of the command line.
pub(crate) fn tell_no_file<R: Eprint>(rt: &R, name: &str) -> ExitCode {
    let _ = eprintln!(rt; "compass: --binary {name} is no plain file; nothing was read or written");
    ExitCode::from(COMMAND_LINE_STATUS)
}

/// The line of a fault on standard error, if there is one, and the status of a run.
pub fn tell<R: Eprint>(rt: &R, outcome: &Result<Tally, AsmFault>) -> ExitCode
    ensures { exit_status result ≡ run_status outcome.now }
{
    if let Err(fault) = outcome {
        let _ = eprintln!(rt; "compass: {fault}");
    }
    ExitCode::from(asm_status(outcome))
}
