//! How many bytes a file may have: the limit that the system has set for the process. A write past it would
//! end the process by a signal, so none is made there, and the file is reported as full.
ghost use Rattle.std.specs.Prelude.{◌≡◌, ◌==◌, ◌<◌, ◌+◌, ◌≤◌, ◌-◌, ◌^◌, ◌↔◌, IfSome, IsTrue, length, min, position, take};
ghost use Rattle.definitions.specs.Numerals.{number_of};
ghost use Rattle.deck_files.specs.SizeLimits.{behind_line, limit_in, number_at, size_in};

use definitions::{digit_count, is_same_text};
use std::fs;
use std::io::{self, ErrorKind, Read, Write};
use std::rt::Files;

/// Where the system reports the limits of the process.
const LIMITS: &str = "/proc/self/limits";

/// How much of it is read: its first lines.
const ROOM: usize = 512;

/// What stands in front of the limit in its line.
const NAME: &[u8] = b"Max file size             ";

/// How many bytes a file may have where no limit is set.
pub const NO_LIMIT: u64 = u64::MAX;

/// A limit that no file reaches, which stands for all above it.
const MOST: u64 = 1 << 60;

/// The number that decimal digits make, or 2^60 where it is greater.
fn capped_number(digits: &[u8]) -> u64
    ensures { result ≡ min (number_of 10 digits.now) (2 ^ 60) }
{
    let mut number: u64 = 0;
    for digit in digits {
        number = (number * 10 + u64::from(digit.saturating_sub(b'0'))).min(MOST);
    }
    number
}

/// The number that a text begins with, if it begins with a digit.
fn number_at(text: &[u8]) -> Option<u64>
    ensures { result ≡ number_at text.now }
{
    let count = digit_count(text);
    if count == 0 {
        None
    } else {
        Some(capped_number(text.split_at(count).0))
    }
}

/// Where the first line of a text ends, if a line feed ends it.
fn line_end(text: &[u8]) -> Option<usize>
    ensures place { result ≡ position (λ byte. byte == 10) text.now }
    ensures inside { IfSome result (λ end. end < length text.now) }
{
    text.iter().position(|byte| *byte == b'\n')
}

/// What stands behind the first line of a text.
fn behind_line(text: &[u8]) -> &[u8]
    ensures { result.now ≡ behind_line text.now }
{
    match line_end(text) {
        Some(end) => text.split_at(end + 1).1,
        None => &[],
    }
}

/// The limit in the line of the size of files; none where the line is another, or shows no number, as it does
/// where there is no limit.
fn size_in(line: &[u8]) -> Option<u64>
    ensures { result ≡ size_in line.now }
{
    if line.len() < NAME.len() {
        return None;
    }
    let (name, value) = line.split_at(NAME.len());
    if is_same_text(name, NAME) {
        number_at(value)
    } else {
        None
    }
}

/// The limit of the size of files in what the system reports of all: its third line shows it.
fn limit_in(text: &[u8]) -> Option<u64>
    ensures { result ≡ limit_in text.now }
{
    size_in(behind_line(behind_line(text)))
}

/// What the system reports now.
fn read_limit<R: Files>(rt: &R) -> io::Result<Option<u64>> {
    let mut room = [0u8; ROOM];
    let count = fs::open(rt, LIMITS)?.read(&mut room)?;
    Ok(limit_in(room.split_at(count).0))
}

/// How many bytes a file may have; `NO_LIMIT` where none is set, or the system doesn't report.
pub fn size_limit<R: Files>(rt: &R) -> u64 {
    match read_limit(rt) {
        Ok(Some(most)) => most,
        Ok(None) | Err(_) => NO_LIMIT,
    }
}

/// Whether a file of so many bytes may have so many more, where it may have at most this many.
pub fn has_room(length: u64, more: usize, most: u64) -> bool
    ensures { IsTrue result ↔ (length + more ≤ most) }
{
    length <= most && more as u64 <= most - length
}

/// The first of these bytes, as many as may be written.
fn fitting(bytes: &[u8], left: u64) -> &[u8]
    ensures { result.now ≡ take (min (length bytes.now) left) bytes.now }
{
    bytes.split_at(bytes.len().min(left as usize)).0
}

/// A new file that gets no more bytes than a file may have: one more is refused as the system refuses it
/// where it ends nobody by a signal.
#[derive(Drop)]
pub struct Limited<F> {
    file: F,
    left: u64,
}

impl<F> Limited<F> {
    /// A file that may get so many bytes.
    pub fn new(file: F, left: u64) -> Limited<F>
        ensures { result ≡ record { file = file; left = left } }
    {
        Limited { file, left }
    }

    /// The file as it is.
    pub fn file(&self) -> &F
        ensures { result.now ≡ self.now.file }
    {
        &self.file
    }

    /// The file, where all is written.
    pub fn into_inner(self) -> F
        ensures { result ≡ self.file }
    {
        self.file
    }

    /// Counts bytes that were written.
    fn count(&mut self, written: usize)
        ensures { self.new ≡ record self.old { left = self.old.left - written } }
    {
        self.left = self.left.saturating_sub(written as u64);
    }
}

impl<F: Write> Write for Limited<F> {
    fn write(&mut self, buf: &[u8]) -> io::Result<usize> {
        let bytes = fitting(buf, self.left);
        if bytes.is_empty() && !buf.is_empty() {
            return Err(io::Error::from(ErrorKind::FileTooLarge));
        }
        let written = self.file.write(bytes)?;
        self.count(written);
        Ok(written)
    }

    fn flush(&mut self) -> io::Result<()> {
        self.file.flush()
    }
}
