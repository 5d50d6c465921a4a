//! Old decks as people have them, made into cards: a filter in front of the input.
ghost use Rattle.std.specs.Prelude.{◌≡◌, ◌≤◌, ◌<◌, ◌∷◌, ◌++◌, ℕ, List, replicate};
ghost use Rattle.definitions.specs.Characters.{blank};
ghost use Rattle.asm_main.specs.Joins.Filters.{EndGives, GivesNext, columns_behind, columns_with, end_of, filtered, filtered_left, folded, is_filled, tab_blanks};

use std::io;
use std::io::Read;

/// The column behind which no more are counted.
const MOST_COLUMNS: usize = 256;

/// What is changed of an input.
#[derive(Clone, Copy)]
pub struct Filter {
    /// Small letters are taken as capitals.
    pub fold_case: bool,
    /// A tab fills to columns 11, 18 and 30, and then to the next eighth.
    pub tabs: bool,
    /// A line feed is put behind a last line that has none.
    pub last_line: bool,
}

/// A reader behind a filter.
#[derive(Drop)]
pub struct Filtered<R> {
    reader: R,
    filter: Filter,
    /// How many columns of the open line were given.
    columns: usize,
    /// How many blanks of a tab are still to be given.
    blanks: usize,
}

/// A small letter as its capital, where letters are folded.
fn folded(filter: Filter, byte: u8) -> u8
    ensures { result ≡ folded filter byte }
{
    match byte {
        b'a'..=b'z' if filter.fold_case => byte - 32,
        _ => byte,
    }
}

/// How many blanks stand for a tab behind so many columns of its line.
pub fn tab_blanks(columns: usize) -> usize
    ensures blanks { result ≡ tab_blanks columns }
    ensures some { 0 < result }
    ensures few { result ≤ 12 }
{
    match columns {
        0..=9 => 10 - columns,
        10..=16 => 17 - columns,
        17..=28 => 29 - columns,
        _ => 8 - columns % 8,
    }
}

/// So many columns more; no more than 256 are counted.
fn columns_with(columns: usize, more: usize) -> usize
    requires { more ≤ 12 }
    ensures { result ≡ columns_with columns more }
{
    if columns >= MOST_COLUMNS {
        MOST_COLUMNS
    } else {
        (columns + more).min(MOST_COLUMNS)
    }
}

/// How many columns of its line stand behind a byte.
fn columns_behind(columns: usize, byte: u8) -> usize
    ensures { result ≡ columns_behind columns byte }
{
    if byte == b'\n' {
        0
    } else {
        columns_with(columns, 1)
    }
}

impl Filter {
    /// Whether a byte is a tab that is filled.
    fn fills(self, byte: u8) -> bool
        ensures { result ≡ is_filled self byte }
    {
        self.tabs && byte == b'\t'
    }
}

impl<R> Filtered<R> {
    /// A reader that gave nothing so far, behind a filter.
    pub fn new(reader: R, filter: Filter) -> Filtered<R>
        ensures { result ≡ record { reader = reader; filter = filter; columns = 0; blanks = 0 } }
    {
        Filtered {
            reader,
            filter,
            columns: 0,
            blanks: 0,
        }
    }

    /// The reader in front of which the filter stands.
    pub fn reader(&self) -> &R
        ensures { result.now ≡ self.now.reader }
    {
        &self.reader
    }

    /// What a byte of the reader becomes; the blanks of a tab behind the first are still to be given.
    fn given_for(&mut self, byte: u8) -> u8
        requires { self.old.blanks ≡ 0 }
        ensures reader { self.new.reader ≡ self.old.reader }
        ensures bytes { (bytes : List ℕ) → filtered self.old.filter self.old.columns (byte ∷ bytes)
            ≡ result ∷ (replicate self.new.blanks blank ++ filtered self.new.filter self.new.columns bytes) }
    {
        if self.filter.fills(byte) {
            let blanks = tab_blanks(self.columns);
            self.columns = columns_with(self.columns, blanks);
            self.blanks = blanks - 1;
            b' '
        } else {
            self.columns = columns_behind(self.columns, byte);
            folded(self.filter, byte)
        }
    }

    /// The line feed behind an open last line, where one is put there.
    fn end(&mut self) -> Option<u8>
        requires { self.old.blanks ≡ 0 }
        ensures reader { self.new.reader ≡ self.old.reader }
        ensures bytes { EndGives result (end_of self.old.filter self.old.columns)
            (replicate self.new.blanks blank ++ end_of self.new.filter self.new.columns) }
    {
        if self.filter.last_line && self.columns > 0 {
            self.columns = 0;
            Some(b'\n')
        } else {
            None
        }
    }
}

/// Reads a byte, if there is one.
fn read_one<R: Read>(reader: &mut R) -> io::Result<Option<u8>>
    ensures { GivesNext (R.remaining reader.old) (R.remaining reader.new) result }
{
    let mut byte = [0u8; 1];
    match reader.read(&mut byte) {
        Ok(0) => Ok(None),
        Ok(_) => Ok(Some(byte[0])),
        Err(error) => Err(error),
    }
}

impl<R: Read> Filtered<R> {
    /// The next byte, if there is one.
    fn next_byte(&mut self) -> io::Result<Option<u8>>
        ensures { GivesNext (filtered_left R.remaining self.old) (filtered_left R.remaining self.new) result }
    {
        if self.blanks > 0 {
            self.blanks -= 1;
            return Ok(Some(b' '));
        }
        match read_one(&mut self.reader)? {
            None => Ok(self.end()),
            Some(byte) => Ok(Some(self.given_for(byte))),
        }
    }
}

impl<R: Read> Read for Filtered<R> {
    ghost use Rattle.asm_main.specs.Joins.Filters.{filtered_left};

    ghost remaining = { filtered_left R.remaining };

    fn read(&mut self, buf: &mut [u8]) -> io::Result<usize> {
        if buf.is_empty() {
            return Ok(0);
        }
        match self.next_byte()? {
            Some(byte) => {
                buf[0] = byte;
                Ok(1)
            }
            None => Ok(0),
        }
    }
}
