//! `compass dump` and `compass diff`: the images that they read, what they print of them, and their faults.

use crate::input_files::{STANDARD_INPUT, bytes_of};
use crate::outputs::FileName;
use crate::standard_output::standard_output;
use crate::words::{Takes, Word, with_words};
use asm_main::{AsmFault, Remembering, asm_status};
use clap::{ArgMatches, Command};
use images::{Comparison, Image, ImageFault, section_lines};
use std::alloc::{AllocError, Global};
use std::fs;
use std::io::{self, ErrorKind, Write};
use std::process::ExitCode;
use std::rt::Files;
use text_ports::{Broken, Counted, put_all};
use thiserror::Error;

/// The status where two images are not the same.
const DIFFERENT_STATUS: u8 = 1;

/// What stands behind the help of both.
const IMAGE_HELP: &str =
    "An image in octal, a dump, or packed words with FILE.sections beside them; - is standard input";

/// Why a file gives no image.
#[derive(Clone, Copy, Debug, Error)]
enum FileFault<'a> {
    /// The system reads none of it.
    #[error("compass: {name}: {error} [{fault}]", fault = AsmFault::ReadFault)]
    System { name: &'a str, error: io::Error },
    /// A line of it is none of an image.
    #[error("{name}:{line}: no line of an image")]
    Line { name: &'a str, line: u64 },
    /// A line of the text beside it is none of such a text.
    #[error("{name}.sections:{line}: neither the title of a section nor address and length of packed words")]
    PlaceLine { name: &'a str, line: u64 },
    /// The packed words are others than the text beside them says.
    #[error("compass: {name}: the packed words are not as many as {name}.sections says")]
    Length { name: &'a str },
    #[error("compass: {fault}", fault = AsmFault::OutOfMemory)]
    OutOfMemory,
    /// Standard output can't be written.
    #[error("compass: standard output: {error} [{fault}]")]
    Standard { fault: AsmFault, error: io::Error },
}

impl From<AllocError> for FileFault<'_> {
    fn from(_: AllocError) -> Self {
        FileFault::OutOfMemory
    }
}

/// Why a text is not printed.
#[derive(Clone, Copy, Debug, Error)]
enum PrintFault {
    #[error(transparent)]
    OutOfMemory(#[from] AllocError),
    #[error(transparent)]
    Broken(#[from] Broken),
}

/// The word of an image that is read.
const FILE: Word = Word {
    name: "FILE",
    takes: Takes::Place,
    help: IMAGE_HELP,
    without: &[],
};

/// The word of another, which it is compared with.
const OTHER: Word = Word {
    name: "OTHER",
    takes: Takes::Place,
    help: IMAGE_HELP,
    without: &[],
};

/// The words of `compass dump`.
const DUMP_WORDS: [Word; 1] = [FILE];

/// The words of `compass diff`.
const DIFF_WORDS: [Word; 2] = [FILE, OTHER];

/// `compass dump` with its words.
pub fn dump_words<'a>(alloc: Global) -> Result<Command<'a>, AllocError> {
    let command = Command::new(alloc, "dump").about(
        "Prints the words of an image with their characters and instructions",
    );
    with_words(alloc, command, DUMP_WORDS.as_slice())
}

/// `compass diff` with its words.
pub fn diff_words<'a>(alloc: Global) -> Result<Command<'a>, AllocError> {
    let command = Command::new(alloc, "diff").about(
        "Compares two images instruction by instruction; status 1 where they differ",
    );
    with_words(alloc, command, DIFF_WORDS.as_slice())
}

/// The name of the text beside packed words.
pub(crate) fn sections_beside(word: &str) -> FileName<'_> {
    FileName {
        word,
        behind: ".sections",
    }
}

/// A fault of the system at a file; want of memory is one of its own.
fn system_fault<'a>(name: &'a str, error: io::Error) -> FileFault<'a> {
    if error.kind() == ErrorKind::OutOfMemory {
        FileFault::OutOfMemory
    } else {
        FileFault::System { name, error }
    }
}

/// The text beside packed words, where there is one.
fn places_of<'a, R: Files + Input + Eprint>(
    rt: &R,
    alloc: Global,
    name: &'a str,
) -> Result<Option<Vec<u8>>, FileFault<'a>> {
    if name == STANDARD_INPUT {
        return Ok(None);
    }
    let sections = sections_beside(name);
    let beside = format!(in alloc; "{sections}")?;
    let beside = beside.as_str();
    match fs::metadata(rt, beside) {
        Err(error) if error.kind() == ErrorKind::NotFound => return Ok(None),
        _ => {}
    }
    match bytes_of(rt, alloc, beside) {
        Ok(places) => Ok(Some(places)),
        Err(error) => Err(system_fault(name, error)),
    }
}

/// The image of packed words.
fn unpacked<'a>(
    alloc: Global,
    name: &'a str,
    bytes: &[u8],
    places: &[u8],
) -> Result<Image, FileFault<'a>> {
    Image::unpacked(alloc, bytes, places).map_err(|fault| match fault {
        ImageFault::BadLine { line } => FileFault::PlaceLine { name, line },
        ImageFault::BadLength => FileFault::Length { name },
        ImageFault::OutOfMemory => FileFault::OutOfMemory,
    })
}

/// The image of a text.
fn read<'a>(alloc: Global, name: &'a str, text: &[u8]) -> Result<Image, FileFault<'a>> {
    Image::read(alloc, text).map_err(|fault| match fault {
        ImageFault::BadLine { line } => FileFault::Line { name, line },
        ImageFault::BadLength => FileFault::Length { name },
        ImageFault::OutOfMemory => FileFault::OutOfMemory,
    })
}

/// The image in a file: packed words where a text stands beside it that shows their places, and else octal text.
fn image_at<'a, R: Files + Input + Eprint>(
    rt: &R,
    alloc: Global,
    name: &'a str,
) -> Result<Image, FileFault<'a>> {
    let bytes = match bytes_of(rt, alloc, name) {
        Ok(bytes) => bytes,
        Err(error) => return Err(system_fault(name, error)),
    };
    match places_of(rt, alloc, name)? {
        Some(places) => unpacked(alloc, name, bytes.as_slice(), places.as_slice()),
        None => read(alloc, name, bytes.as_slice()),
    }
}

/// Writes the lines of an image, section by section.
fn write_dump<W: Write>(
    alloc: Global,
    image: &Image,
    output: &mut Counted<W>,
) -> Result<(), PrintFault> {
    for section in image.sections() {
        put_all(output, section_lines(alloc, section)?.as_slice())?;
    }
    Ok(put_all(output, b"END\n")?)
}

/// Writes what differs in two images, section by section.
fn write_differences<W: Write>(
    alloc: Global,
    comparison: &Comparison<'_>,
    output: &mut Counted<W>,
) -> Result<(), PrintFault> {
    for number in 0..comparison.parts() {
        put_all(output, comparison.part(alloc, number)?.as_slice())?;
    }
    Ok(())
}

/// The fault of a text that was not printed, with what the system said.
fn print_fault<'a>(fault: PrintFault, error: Option<io::Error>) -> FileFault<'a> {
    match fault {
        PrintFault::OutOfMemory(_) => FileFault::OutOfMemory,
        PrintFault::Broken(broken) => FileFault::Standard {
            fault: AsmFault::WriteFault { sent: broken.sent },
            error: error.unwrap_or(io::Error::from(ErrorKind::WriteZero)),
        },
    }
}

/// Prints an image.
fn dump_file<'a, R>(rt: &R, name: &'a str) -> Result<u8, FileFault<'a>>
where
    R: AllocGlobal + Input + Print + Eprint + Files,
{
    let image = image_at(rt, rt.alloc(), name)?;
    let mut output = Counted::new(Remembering::new(standard_output(rt)));
    match write_dump(rt.alloc(), &image, &mut output) {
        Ok(()) => Ok(0),
        Err(fault) => Err(print_fault(fault, output.into_inner().fault())),
    }
}

/// Prints what differs in two images; 0 where nothing does.
fn diff_images<'a, R>(rt: &R, one: &Image, other: &Image) -> Result<u8, FileFault<'a>>
where
    R: AllocGlobal + Print + Files,
{
    let comparison = Comparison::new(rt.alloc(), one, other)?;
    let mut output = Counted::new(Remembering::new(standard_output(rt)));
    match write_differences(rt.alloc(), &comparison, &mut output) {
        Ok(()) if comparison.is_same() => Ok(0),
        Ok(()) => Ok(DIFFERENT_STATUS),
        Err(fault) => Err(print_fault(fault, output.into_inner().fault())),
    }
}

/// Prints what differs in the images of two files.
fn diff_files<'a, R>(rt: &R, one: &'a str, other: &'a str) -> Result<u8, FileFault<'a>>
where
    R: AllocGlobal + Input + Print + Eprint + Files,
{
    let image = image_at(rt, rt.alloc(), one)?;
    let beside = image_at(rt, rt.alloc(), other)?;
    diff_images(rt, &image, &beside)
}

/// The status of a run that gave no whole output.
fn status_of(fault: FileFault<'_>) -> u8 {
    match fault {
        FileFault::OutOfMemory => asm_status(&Err(AsmFault::OutOfMemory)),
        FileFault::Standard { fault, .. } => asm_status(&Err(fault)),
        _ => asm_status(&Err(AsmFault::ReadFault)),
    }
}

/// The line of a fault on standard error, if there is one, and the status of a run.
fn tell_images<R: Eprint>(rt: &R, outcome: Result<u8, FileFault<'_>>) -> ExitCode {
    match outcome {
        Ok(status) => ExitCode::from(status),
        Err(fault) => {
            let _ = eprintln!(rt; "{fault}");
            ExitCode::from(status_of(fault))
        }
    }
}

/// `compass dump`.
pub fn dump<R>(rt: &R, words: &ArgMatches<'_>) -> ExitCode
where
    R: AllocGlobal + Input + Print + Eprint + Files,
{
    tell_images(rt, dump_file(rt, words.get_str("FILE").unwrap_or("")))
}

/// `compass diff`.
pub fn diff<R>(rt: &R, words: &ArgMatches<'_>) -> ExitCode
where
    R: AllocGlobal + Input + Print + Eprint + Files,
{
    let one = words.get_str("FILE").unwrap_or("");
    let other = words.get_str("OTHER").unwrap_or("");
    tell_images(rt, diff_files(rt, one, other))
}
