//! The files that the command line names, as one reader.
ghost use Rattle.std.specs.Io.{ReadsAtMost};

use crate::tab_places::{FileColumns, Noting};
use asm_main::{AsmFault, Chained, Filter, Filtered, Part};
use std::alloc::{AllocError, Global};
use std::io::{BufReader, Read};
use std::os::unix::fs::FileTypeExt;
use std::rt::Files;
use std::{fs, io};
use thiserror::Error;

/// The name that stands for standard input.
pub(crate) const STANDARD_INPUT: &str = "-";

/// How many bytes of a file are taken at once at most.
const MOST_BYTES: u64 = 1 << 30;

/// What a name of the command line stands for.
#[derive(Drop)]
pub(crate) enum InputFile<F, S> {
    /// A file that is open.
    File(F),
    /// The standard input of the process.
    Standard(S),
}

/// An input file, as it is or behind a filter, which may take its tabs as blanks.
#[derive(Drop)]
pub(crate) enum Given<F, S> {
    Plain(InputFile<F, S>),
    Filtered(Filtered<BufReader<InputFile<F, S>>>),
    WithTabs(Filtered<BufReader<Noting<InputFile<F, S>>>>),
}

/// Why a file of the command line can't be read.
#[derive(Clone, Copy, Debug, Error)]
#[error("{name}: {error} [{fault}]", fault = AsmFault::ReadFault)]
pub(crate) struct InputFault<'a> {
    pub name: &'a str,
    pub error: io::Error,
}

impl<F: Read, S: Read> Read for InputFile<F, S> {
    fn read(&mut self, buf: &mut [u8]) -> io::Result<usize> {
        match self {
            InputFile::File(file) => file.read(buf),
            InputFile::Standard(reader) => reader.read(buf),
        }
    }
}

impl<F: Read, S: Read> Read for Given<F, S> {
    fn read(&mut self, buf: &mut [u8]) -> io::Result<usize> {
        match self {
            Given::Plain(file) => file.read(buf),
            Given::Filtered(reader) => reader.read(buf),
            Given::WithTabs(reader) => reader.read(buf),
        }
    }
}

impl<F: Read, S: Read> FileColumns for Given<F, S> {
    fn file_column(&self, line: u64, column: usize) -> usize {
        match self {
            Given::Plain(_) | Given::Filtered(_) => column,
            Given::WithTabs(filtered) => { filtered.reader().get_ref().file_column(line, column) }
        }
    }

    fn tab_blanks(&self, line: u64, columns: usize) -> usize {
        match self {
            Given::Plain(_) | Given::Filtered(_) => 0,
            Given::WithTabs(filtered) => { filtered.reader().get_ref().tab_blanks(line, columns) }
        }
    }
}

/// A file, behind a filter where one is asked for.
fn behind_filter<F: Read + Drop, S: Read + Drop>(
    alloc: Global,
    file: InputFile<F, S>,
    filter: Option<Filter>,
) -> io::Result<Given<F, S>> {
    match filter {
        Some(filter) if filter.tabs => {
            let reader = BufReader::new(alloc, Noting::new(alloc, file))?;
            Ok(Given::WithTabs(Filtered::new(reader, filter)))
        }
        Some(filter) => {
            let reader = BufReader::new(alloc, file)?;
            Ok(Given::Filtered(Filtered::new(reader, filter)))
        }
        None => Ok(Given::Plain(file)),
    }
}

/// Standard input, behind a filter where one is asked for.
pub(crate) fn standard_input<R: Files + Input>(
    rt: &R,
    alloc: Global,
    filter: Option<Filter>,
) -> io::Result<Given<R::File, R::Reader>> {
    behind_filter(alloc, InputFile::Standard(rt.reader()), filter)
}

/// Whether a name is a pipe's in a folder: to open it waits for who writes into it.
fn is_named_pipe<R: Files>(rt: &R, name: &str) -> bool {
    match fs::symlink_metadata(rt, name) {
        Ok(about) => about.file_type().is_fifo(),
        Err(_) => false,
    }
}

/// Opens a file. Of a pipe it is reported that it is one: nothing may ever write into it.
fn open_file<R: Files + Eprint>(rt: &R, name: &str) -> io::Result<R::File> {
    if is_named_pipe(rt, name) {
        let _ = eprintln!(rt;
            "compass: {name}: this is a pipe; it is read once a program writes into it"
        );
    }
    fs::open(rt, name)
}

/// Opens what a name stands for.
fn open<R: Files + Input + Eprint>(
    rt: &R,
    alloc: Global,
    name: &str,
    filter: Option<Filter>,
) -> io::Result<Given<R::File, R::Reader>> {
    if name == STANDARD_INPUT {
        standard_input(rt, alloc, filter)
    } else {
        behind_filter(alloc, InputFile::File(open_file(rt, name)?), filter)
    }
}

/// The files of these names, all open, one after the other, each behind a filter where one is asked for.
/// Want of memory is a fault of the file that had no room.
pub(crate) fn input_of<'a, R: Files + Input + Eprint>(
    rt: &R,
    alloc: Global,
    names: &[&'a str],
    filter: Option<Filter>,
) -> Result<Chained<Given<R::File, R::Reader>>, InputFault<'a>> {
    let mut parts = Vec::new(alloc);
    for name in names {
        let name = *name;
        match open(rt, alloc, name, filter) {
            Ok(file) => match parts.push(Part::new(file)) {
                Ok(()) => {}
                Err(_) => {
                    let error = io::Error::from(io::ErrorKind::OutOfMemory);
                    return Err(InputFault { name, error });
                }
            },
            Err(error) => return Err(InputFault { name, error }),
        }
    }
    Ok(Chained::new(parts))
}

/// All bytes of what a name stands for. More than a gigabyte is a fault, so what never ends does not take all
/// memory.
pub(crate) fn bytes_of<R: Files + Input + Eprint>(
    rt: &R,
    alloc: Global,
    name: &str,
) -> io::Result<Vec<u8>> {
    let mut file = open(rt, alloc, name, None)?.take(MOST_BYTES + 1);
    let mut bytes = Vec::new(alloc);
    file.read_to_end(&mut bytes)?;
    if bytes.len() as u64 > MOST_BYTES {
        return Err(io::Error::from(io::ErrorKind::FileTooLarge));
    }
    Ok(bytes)
}

/// The names of files as messages show them: standard input has another name where one is said.
pub(crate) fn shown_names<'a>(
    alloc: Global,
    names: &[&'a str],
    standard: Option<&'a str>,
) -> Result<Vec<&'a str>, AllocError> {
    let mut shown = Vec::new(alloc);
    for name in names {
        let name = *name;
        let other = if name == STANDARD_INPUT {
            standard
        } else {
            None
        };
        shown.push(other.unwrap_or(name))?;
    }
    Ok(shown)
}
