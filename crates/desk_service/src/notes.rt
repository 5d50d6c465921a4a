//! Notes of how much of a journal is kept: a line of one length, which is written again where it stands.
ghost use Rattle.std.specs.Prelude.{◌≡◌, ◌≤◌, IfOk, IfSome};
ghost use Rattle.std.specs.List.{list_all};
ghost use Rattle.definitions.specs.Characters.{is_digit};
ghost use Rattle.desk_service.specs.Versions.{is_note, mark_in, mark_line, number_in};

use definitions::is_same_text;
use journal::Mark;
use std::alloc::{AllocError, Global};
use std::fs::OpenFile;
use std::io::{Seek, SeekFrom, Write};
use text_ports::Text;

/// How many bytes the line of a note has, whatever it tells.
pub(crate) const NOTE: usize = 37;

/// Where the notes of a journal go: a file, and at which byte of it.
#[derive(Drop)]
pub struct Notes<F> {
    alloc: Global,
    file: F,
    at: u64,
}

/// The line of a note.
pub(crate) fn mark_line(alloc: Global, mark: Mark) -> Result<Text, AllocError>
    ensures { IfOk result (λ line. line ≡ mark_line mark) }
{
    let mut line = Text::new(alloc);
    line.push_bytes(b"MARK ")?;
    line.push_padded(20, mark.length)?;
    line.push_byte(b' ')?;
    line.push_padded(10, u64::from(mark.sum))?;
    line.push_byte(b'\n')?;
    Ok(line)
}

/// Whether these are decimal digits.
fn are_digits(text: &[u8]) -> bool
    ensures { result ≡ list_all is_digit text.now }
{
    text.iter().all(|c| c.is_ascii_digit())
}

/// The number that decimal digits make, leading zeros among them, if it is at most this one.
pub(crate) fn number_in(most: u64, text: &[u8]) -> Option<u64>
    ensures number { result ≡ number_in most text.now }
    ensures within { IfSome result (λ number. number ≤ most) }
{
    if text.is_empty() || !are_digits(text) {
        return None;
    }
    let Ok(digits) = str::from_utf8(text) else {
        return None;
    };
    let Ok(number) = digits.parse::<u64>() else {
        return None;
    };
    if number > most { None } else { Some(number) }
}

/// Whether the parts of a line beside its two numbers are those of a note.
fn is_note(word: &[u8], blank: &[u8], end: &[u8]) -> bool
    ensures { result ≡ is_note word.now blank.now end.now }
{
    is_same_text(word, b"MARK ") && is_same_text(blank, b" ") && is_same_text(end, b"\n")
}

/// What the line of a note tells, if it is one.
pub(crate) fn mark_in(line: &[u8]) -> Option<Mark>
    ensures { result ≡ mark_in line.now }
{
    if line.len() != NOTE {
        return None;
    }
    let (word, rest) = line.split_at(5);
    let (length, rest) = rest.split_at(20);
    let (blank, rest) = rest.split_at(1);
    let (sum, end) = rest.split_at(10);
    if !is_note(word, blank, end) {
        return None;
    }
    match (
        number_in(u64::MAX, length),
        number_in(u64::from(u32::MAX), sum),
    ) {
        (Some(length), Some(sum)) => Some(Mark {
            length,
            sum: sum as u32,
        }),
        _ => None,
    }
}

impl<F> Notes<F> {
    pub(crate) fn new(alloc: Global, file: F, at: u64) -> Notes<F> {
        Notes { alloc, file, at }
    }
}

impl<F: Write + Seek> Notes<F> {
    /// Writes a note in the place of the one before: whether it is written. The system keeps it in its own
    /// time, and in order with no other file.
    pub(crate) fn write(&mut self, mark: Mark) -> bool {
        let Ok(line) = mark_line(self.alloc, mark) else {
            return false;
        };
        let found = self.file.seek(SeekFrom::Start(self.at));
        found.is_ok() && self.file.write_all(line.as_slice()).is_ok()
    }
}

impl<F: Write + Seek + OpenFile> Notes<F> {
    /// Writes a note in the place of the one before: whether the system has kept it.
    pub(crate) fn keep(&mut self, mark: Mark) -> bool {
        self.write(mark) && self.file.sync_data().is_ok()
    }
}
