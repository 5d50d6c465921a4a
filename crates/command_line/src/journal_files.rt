//! Journals on the command line: the decks of a version, and the changes as lines.

use crate::standard_output::standard_output;
use crate::words::{Takes, Word, with_words};
use asm_main::{AsmFault, asm_status};
use cards::DeckName;
use clap::{ArgMatches, Command};
use deck_cuts::Deck;
use desk_core::{Change, Desk, NewDeck, StoredDeck};
use journal::{
    Ending, Entry, JournalFault, Next, Place, Record, ReplayFault, Replayed, log_line, next_record,
    record_text, replay,
};
use std::alloc::{AllocError, Global};
use std::fs;
use std::io::{self, BufReader, Read, Write};
use std::process::ExitCode;
use std::rt::Files;
use text_ports::{Broken, Counted, put_all};
use thiserror::Error;

/// The status of a journal that can't be gone through.
pub const JOURNAL_STATUS: u8 = 8;

/// What is wrong with a journal.
#[derive(Clone, Copy, Debug, Error)]
pub(crate) enum JournalError {
    /// The file can't be opened, by what the system says.
    #[error(transparent)]
    NoFile(io::Error),
    /// The file can't be read.
    #[error("the journal can't be read")]
    ReadFault,
    /// This record, counted from 1, is damaged, or shows a change that can't be made again. It begins at
    /// this byte.
    #[error("record {number}, at byte {begin}, is damaged or can't be made again")]
    BadRecord { number: u64, begin: u64 },
    /// It has no such version.
    #[error("there is no version {version}")]
    NoVersion { version: u64 },
}

/// Why the decks of a journal can't be had.
#[derive(Clone, Copy, Debug, Error)]
pub(crate) enum DecksFault {
    /// The memory failed.
    #[error(transparent)]
    Asm(#[from] AsmFault),
    /// The journal has not what is asked for.
    #[error(transparent)]
    Journal(#[from] JournalError),
}

impl From<AllocError> for DecksFault {
    fn from(_: AllocError) -> DecksFault {
        DecksFault::from(AsmFault::OutOfMemory)
    }
}

impl From<ReplayFault> for DecksFault {
    fn from(fault: ReplayFault) -> DecksFault {
        match fault {
            ReplayFault::ReadFault => DecksFault::from(JournalError::ReadFault),
            ReplayFault::OutOfMemory => DecksFault::from(AsmFault::OutOfMemory),
            ReplayFault::Unmade { number, begin } => {
                DecksFault::from(JournalError::BadRecord { number, begin })
            }
        }
    }
}

/// A deck of a desk, to be assembled.
fn deck_of(alloc: Global, stored: &StoredDeck) -> Result<Deck, AllocError> {
    let NewDeck { name, cards } = stored.copied(alloc)?;
    Ok(Deck::of(name, cards))
}

/// The decks of a desk, to be assembled.
fn decks_of(alloc: Global, desk: &Desk) -> Result<Vec<Deck>, AllocError> {
    let mut decks = Vec::new(alloc);
    for stored in desk.decks() {
        decks.push(deck_of(alloc, stored)?)?;
    }
    Ok(decks)
}

/// The decks of a desk that a journal leaves, if it ended well and at the version that is asked for.
fn decks_in(
    alloc: Global,
    desk: &Desk,
    ending: Option<Ending>,
    version: Option<u64>,
) -> Result<Vec<Deck>, DecksFault> {
    if let Some(Ending::Faulty { number, begin }) = ending {
        return Err(DecksFault::from(JournalError::BadRecord { number, begin }));
    }
    match version {
        Some(version) if version != desk.version() => {
            Err(DecksFault::from(JournalError::NoVersion { version }))
        }
        _ => Ok(decks_of(alloc, desk)?),
    }
}

/// The decks that a journal leaves, as they were at a version where one is asked for.
pub(crate) fn decks_at<R: Files>(
    rt: &R,
    alloc: Global,
    path: &str,
    version: Option<u64>,
) -> Result<Vec<Deck>, DecksFault> {
    let file = fs::open(rt, path).map_err(JournalError::NoFile)?;
    let Ok(reader) = BufReader::new(alloc, file) else {
        return Err(DecksFault::from(AsmFault::OutOfMemory));
    };
    let last = version.unwrap_or(u64::MAX);
    let Replayed { desk, ending } = replay(alloc, &mut Counted::new(reader), last)?;
    let decks = decks_in(alloc, &desk, ending, version);
    desk.free();
    decks
}

/// The words of `compass log`.
const LOG_WORDS: [Word; 2] = [
    Word {
        name: "FILE",
        takes: Takes::Place,
        help: "The journal of a service",
        without: &[],
    },
    Word {
        name: "deck",
        takes: Takes::Text("NAME"),
        help: "Prints the changes of this deck alone, each with its cards or edits after it",
        without: &[],
    },
];

/// `compass log` with its words.
pub fn log_words<'a>(alloc: Global) -> Result<Command<'a>, AllocError> {
    let command = Command::new(alloc, "log").about(
        "Prints the changes that a journal has, a line each",
    );
    with_words(alloc, command, LOG_WORDS.as_slice())
}

/// Why not all records of a journal were printed.
#[derive(Clone, Copy, Debug, Error)]
enum LogFault {
    /// The memory or standard output.
    #[error(transparent)]
    Asm(#[from] AsmFault),
    /// The journal can't be gone through.
    #[error(transparent)]
    Journal(#[from] JournalError),
}

impl From<JournalFault> for LogFault {
    fn from(fault: JournalFault) -> LogFault {
        match fault {
            JournalFault::ReadFault => LogFault::from(JournalError::ReadFault),
            JournalFault::OutOfMemory => LogFault::from(AsmFault::OutOfMemory),
        }
    }
}

impl From<AllocError> for LogFault {
    fn from(_: AllocError) -> LogFault {
        LogFault::from(AsmFault::OutOfMemory)
    }
}

impl From<Broken> for LogFault {
    fn from(broken: Broken) -> LogFault {
        LogFault::from(AsmFault::WriteFault { sent: broken.sent })
    }
}

/// The deck that a record changes, if it changes one.
fn deck_changed(entry: &Entry) -> Option<&DeckName> {
    match entry {
        Entry::Begun => None,
        Entry::Made(Change::AddDeck(deck)) => Some(&deck.name),
        Entry::Made(Change::PutDeck { deck, .. }) => Some(&deck.name),
        Entry::Made(Change::DropDeck { name, .. }) => Some(name),
        Entry::Made(Change::EditDeck { name, .. }) => Some(name),
        Entry::Made(Change::Undo { name, .. }) => Some(name),
    }
}

/// Whether a record changes the deck of this name.
fn is_of_deck(entry: &Entry, deck: &[u8]) -> bool {
    match deck_changed(entry) {
        Some(name) => name.as_slice() == deck,
        None => false,
    }
}

/// Writes the lines of a record that stand behind its first: those of its cards or edits, which begin with a
/// blank.
fn write_behind<W: Write>(
    alloc: Global,
    record: &Record,
    output: &mut Counted<W>,
) -> Result<(), LogFault> {
    let text = record_text(alloc, record)?;
    for line in text.as_slice().split(|byte| *byte == b'\n') {
        if line.first().copied() == Some(b' ') {
            put_all(output, line)?;
            put_all(output, b"\n")?;
        }
    }
    Ok(())
}

/// Writes the line of a record.
fn write_line<W: Write>(
    alloc: Global,
    record: &Record,
    output: &mut Counted<W>,
) -> Result<(), LogFault> {
    put_all(output, log_line(alloc, record)?.as_slice())?;
    Ok(())
}

/// Writes the line of a record; where one deck is asked for, those of its records alone, with the lines
/// behind.
fn write_record<W: Write>(
    alloc: Global,
    record: &Record,
    deck: Option<&str>,
    output: &mut Counted<W>,
) -> Result<(), LogFault> {
    match deck {
        None => write_line(alloc, record, output),
        Some(deck) if is_of_deck(&record.entry, deck.as_bytes()) => {
            write_line(alloc, record, output)?;
            write_behind(alloc, record, output)
        }
        Some(_) => Ok(()),
    }
}

/// Writes the records of a journal, those of one deck where it is asked for. A last record that is cut has
/// none.
fn write_log<F: Read, W: Write>(
    alloc: Global,
    input: &mut Counted<F>,
    deck: Option<&str>,
    output: &mut Counted<W>,
) -> Result<(), LogFault> {
    let mut place = Place::at_start();
    for _ in 0..u64::MAX {
        match next_record(alloc, input, &mut place)? {
            Next::Found(record) => write_record(alloc, &record, deck, output)?,
            Next::Ended(Ending::Faulty { number, begin }) => {
                return Err(LogFault::from(JournalError::BadRecord { number, begin }));
            }
            Next::Ended(_) => return Ok(()),
        }
    }
    Ok(())
}

/// The lines of an open journal on standard output.
fn log_file<R: AllocGlobal + Print + Files>(
    rt: &R,
    file: R::File,
    deck: Option<&str>,
) -> Result<(), LogFault> {
    let Ok(reader) = BufReader::new(rt.alloc(), file) else {
        return Err(LogFault::from(AsmFault::OutOfMemory));
    };
    let Ok(writer) = io::BufWriter::new(rt.alloc(), standard_output(rt)) else {
        return Err(LogFault::from(AsmFault::OutOfMemory));
    };
    let mut output = Counted::new(writer);
    write_log(rt.alloc(), &mut Counted::new(reader), deck, &mut output)?;
    if output.flush() {
        Ok(())
    } else {
        Err(LogFault::from(AsmFault::WriteFault { sent: 0 }))
    }
}

/// The status of a run of `compass log` that did not print all.
fn log_status(fault: LogFault) -> u8 {
    match fault {
        LogFault::Asm(fault) => asm_status(&Err(fault)),
        LogFault::Journal(_) => JOURNAL_STATUS,
    }
}

/// `compass log`.
pub fn log<R: AllocGlobal + Print + Eprint + Files>(rt: &R, words: &ArgMatches<'_>) -> ExitCode {
    let path = words.get_str("FILE").unwrap_or("");
    let told = match fs::open(rt, path) {
        Ok(file) => log_file(rt, file, words.get_str("deck")),
        Err(error) => Err(LogFault::from(JournalError::NoFile(error))),
    };
    match told {
        Ok(()) => ExitCode::SUCCESS,
        Err(fault) => {
            let _ = eprintln!(rt; "compass: {path}: {fault}");
            ExitCode::from(log_status(fault))
        }
    }
}
