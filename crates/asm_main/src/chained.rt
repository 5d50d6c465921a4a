//! Readers one after the other as one reader, which knows where its lines stand.
ghost use Rattle.std.specs.Prelude.{◌≡◌, ◌<◌, ◌-◌, take, [], vec_len, slice_get, option_map, IfOk, false, None, Some};
ghost use Rattle.std.specs.Io.{ReadsAtMost};
ghost use Rattle.std.specs.Io.KnownBytes.{Consumes, IsAtEnd, ReadConsumes};
ghost use Rattle.asm_main.specs.Joins.Chains.{IsBehindRead, IsBehindTurn, TurnReads, ends_behind, given_in, is_open_behind, left_of, lines_given, next_after, place_in};
ghost use Rattle.asm_main.specs.Joins.LatestFaults.{latest_fault};

use std::io;
use std::io::Read;

/// One of the readers, with the count of the line feeds that it gave, and whether its last line is
/// open: begun, and not ended so far.
#[derive(Drop)]
pub struct Part<R> {
    reader: R,
    lines: u64,
    is_open: bool,
}

/// Where a line stands: the number of its part, from 0, and its own number there, from 1.
#[derive(Clone, Copy)]
pub struct LinePlace {
    pub part: usize,
    pub line: u64,
}

/// Readers one after the other as one. One that ends within a line is the last that is read, so that
/// no line is made of two.
#[derive(Drop)]
pub struct Chained<R> {
    parts: Vec<Part<R>>,
    /// The part that the next read asks; those before it are read.
    next: usize,
    /// The part that was asked last.
    asked: usize,
    /// The error of the latest read that failed.
    fault: Option<io::Error>,
}

/// What one turn of a read came to.
#[derive(Clone, Copy)]
enum Turn {
    /// So many bytes were read.
    Read(usize),
    /// The part had no more.
    Ended,
}

/// Whether a line is open behind these bytes, which stand behind an open line or not.
fn is_open_behind(was_open: bool, bytes: &[u8]) -> bool
    ensures { result ≡ is_open_behind was_open bytes.now }
{
    let mut is_open = was_open;
    for byte in bytes {
        is_open = *byte != b'\n';
    }
    is_open
}

/// The count of lines behind these bytes. It stays at its greatest value.
fn lines_behind(count: u64, bytes: &[u8]) -> u64
    ensures { result ≡ ends_behind count bytes.now }
{
    let mut lines = count;
    for byte in bytes {
        if *byte == b'\n' {
            lines = lines.saturating_add(1);
        }
    }
    lines
}

/// How many lines these parts gave. The count stays at its greatest value.
fn lines_given<R>(parts: &[Part<R>]) -> u64
    ensures { result ≡ lines_given 0 parts.now }
{
    let mut lines = 0u64;
    for part in parts {
        lines = lines.saturating_add(part.lines);
    }
    lines
}

/// Where the line with this number stands, in one of these parts or in the part behind them.
fn place_in<R>(parts: &[Part<R>], line: u64) -> LinePlace
    ensures { result ≡ place_in parts.now 0 line }
{
    let mut left = line;
    for (number, part) in parts.iter().enumerate() {
        if left <= part.lines {
            return LinePlace {
                part: number,
                line: left,
            };
        }
        left -= part.lines;
    }
    LinePlace {
        part: parts.len(),
        line: left,
    }
}

impl<R> Part<R> {
    /// A reader that gave nothing so far.
    pub fn new(reader: R) -> Part<R>
        ensures { result ≡ record { reader = reader; lines = 0; is_open = false } }
    {
        Part {
            reader,
            lines: 0,
            is_open: false,
        }
    }
}

impl<R: Read> Part<R> {
    /// Reads once.
    fn read(&mut self, buf: &mut [u8]) -> io::Result<usize>
        ensures bound { ReadsAtMost result buf.new }
        ensures bytes { ReadConsumes (R.remaining self.old.reader) (R.remaining self.new.reader) result buf.new }
        ensures line { self.new.is_open ≡ is_open_behind self.old.is_open (given_in result buf.new) }
        ensures lines { self.new.lines ≡ ends_behind self.old.lines (given_in result buf.new) }
    {
        let count = self.reader.read(buf)?;
        let (given, _) = buf.split_at(count);
        self.is_open = is_open_behind(self.is_open, given);
        self.lines = lines_behind(self.lines, given);
        Ok(count)
    }
}

impl<R> Chained<R> {
    /// These parts in this order.
    pub fn new(parts: Vec<Part<R>>) -> Chained<R>
        ensures { result ≡ record { parts = parts; next = 0; asked = 0; fault = None } }
    {
        Chained {
            parts,
            next: 0,
            asked: 0,
            fault: None,
        }
    }

    /// The number of the part that was asked last, from 0.
    pub fn asked(&self) -> usize
        ensures { result ≡ self.now.asked }
    {
        self.asked
    }

    /// The error of the latest read that failed.
    pub fn fault(&self) -> Option<io::Error>
        ensures { result ≡ self.now.fault }
    {
        self.fault
    }

    /// How many lines a reader took whole that still holds these bytes of them.
    pub fn lines_taken(&self, held: &[u8]) -> u64
        ensures { result ≡ lines_given 0 self.now.parts.items - ends_behind 0 held.now }
    {
        lines_given(self.parts.as_slice()).saturating_sub(lines_behind(0, held))
    }

    /// Where the line with this number stands, counted from 1: in the part that was asked last, or in
    /// one before it.
    pub fn place_of(&self, line: u64) -> LinePlace
        ensures { result ≡ place_in (take self.now.asked self.now.parts.items) 0 line }
    {
        let asked = self.asked.min(self.parts.len());
        place_in(self.parts.as_slice().split_at(asked).0, line)
    }

    /// The reader of the part with this number, from 0; none where there is no such part.
    pub fn reader(&self, part: usize) -> Option<&R>
        ensures { option_map (λ reader. reader.now) result ≡ option_map (λ part. part.reader) (slice_get self.now.parts.items part) }
    {
        match self.parts.get(part) {
            Some(part) => Some(&part.reader),
            None => None,
        }
    }

    /// Goes on behind the part that ended: to the next, or to the end where a line is open.
    fn go_on(&mut self, is_open: bool)
        requires { self.old.next < vec_len self.old.parts }
        ensures { self.new ≡ record self.old { next = next_after is_open self.old.next (vec_len self.old.parts) } }
    {
        self.next = if is_open {
            self.parts.len()
        } else {
            self.next + 1
        };
    }
}

impl<R: Read> Chained<R> {
    /// Asks the next part once, and goes on to the part behind it where that had no more.
    fn read_part(&mut self, buf: &mut [u8]) -> io::Result<Turn>
        requires { self.old.next < vec_len self.old.parts }
        ensures bytes { TurnReads (left_of R.remaining self.old) (left_of R.remaining self.new) result buf.new }
        ensures count { vec_len self.new.parts ≡ vec_len self.old.parts }
        ensures next { IfOk result (λ turn. turn ≡ Turn.Ended → self.old.next < self.new.next) }
        ensures asked { self.new.asked ≡ self.old.next }
        ensures behind { IsBehindTurn self.new result }
        ensures fault { self.new.fault ≡ latest_fault self.old.fault result }
    {
        let part = &mut self.parts[self.next];
        self.asked = self.next;
        match part.read(buf) {
            Ok(count) if count > 0 || buf.is_empty() => Ok(Turn::Read(count)),
            Ok(_) => {
                let is_open = part.is_open;
                self.go_on(is_open);
                Ok(Turn::Ended)
            }
            Err(error) => {
                self.fault = Some(error);
                Err(error)
            }
        }
    }
}

impl<R: Read> Read for Chained<R> {
    ghost use Rattle.asm_main.specs.Joins.Chains.{left_of};

    ghost remaining = { left_of R.remaining };

    fn read(&mut self, buf: &mut [u8]) -> io::Result<usize>
        ensures bound { ReadsAtMost result buf.new }
        ensures bytes { ReadConsumes (left_of R.remaining self.old) (left_of R.remaining self.new) result buf.new }

        // The part that failed or gave bytes was asked last, and is next still; at the end one that ended was.
        ensures asked { IsBehindRead self.old self.new result buf.new }
        ensures fault { self.new.fault ≡ latest_fault self.old.fault result }
    {
        while self.next < self.parts.len() {
            if let Turn::Read(count) = self.read_part(buf)? {
                return Ok(count);
            }
        }
        Ok(0)
    }
}
