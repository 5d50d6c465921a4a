//! How far a journal is kept: a note of so many bytes, and what a journal may lose by it.
ghost use Rattle.std.specs.Prelude.{◌≡◌, ◌+◌, ◌^◌, ◌≤◌, IfNone, IfOk, IfSome, length};
ghost use Rattle.journal.specs.Marks.{IsFront, first_mark, is_behind, is_noted, is_same_mark, kept_length, mark_behind};

use crate::check_sums::{FIRST_SUM, sum_over};
use crate::places::Ending;
use std::io::{self, ErrorKind, Read};

/// How many bytes are read at once.
const PIECE: usize = 4096;

/// So many bytes of a journal, and the check sum of them.
#[derive(Clone, Copy)]
pub struct Mark {
    pub length: u64,
    pub sum: u32,
}

impl Mark {
    /// The mark of no bytes.
    pub fn first() -> Mark
        ensures { result ≡ first_mark }
    {
        Mark {
            length: 0,
            sum: FIRST_SUM,
        }
    }

    /// The mark with more bytes behind those that it is of; none where they are too many to be counted.
    pub fn behind(&self, bytes: &[u8]) -> Option<Mark>
        ensures some { IfSome result (λ mark. mark ≡ mark_behind self.now bytes.now) }
        ensures none { IfNone result (2 ^ 64 ≤ self.now.length + length bytes.now) }
    {
        let length = self.length.checked_add(bytes.len() as u64)?;
        Some(Mark {
            length,
            sum: sum_over(self.sum, bytes),
        })
    }

    /// Whether it is this one.
    pub fn is_same(&self, other: &Mark) -> bool
        ensures { result ≡ is_same_mark self.now other.now }
    {
        self.length == other.length && self.sum == other.sum
    }
}

/// The mark of the first bytes of a reader: so many, or all, where it has fewer.
pub fn mark_of_front<R: Read>(input: &mut R, most: u64) -> io::Result<Mark>
    ensures { IfOk result (λ mark. IsFront (R.remaining input.old) (R.remaining input.new) most mark) }
{
    let mut mark = Mark::first();
    let mut piece = [0u8; PIECE];
    for _ in 0..u64::MAX {
        let room = most.saturating_sub(mark.length).min(PIECE as u64) as usize;
        let count = input.read(piece.split_at_mut(room).0)?;
        if count == 0 {
            return Ok(mark);
        }
        let Some(behind) = mark.behind(piece.split_at(count).0) else {
            return Err(io::Error::from(ErrorKind::Other));
        };
        mark = behind;
    }
    Err(io::Error::from(ErrorKind::Other))
}

/// Whether a journal of so many bytes has all that is noted, and the record that begins at a byte is of it.
fn is_noted(begin: u64, length: u64, noted: Option<Mark>) -> bool
    ensures { result ≡ is_noted begin length noted }
{
    match noted {
        Some(mark) => begin < mark.length && mark.length <= length,
        None => false,
    }
}

/// Whether all that is noted stands in front of a byte.
fn is_behind(begin: u64, noted: Option<Mark>) -> bool
    ensures { result ≡ is_behind begin noted }
{
    match noted {
        Some(mark) => mark.length <= begin,
        None => false,
    }
}

/// How many bytes stay of a journal of so many bytes that ends like this, by what is noted of it, and
/// whether it holds that; none where nothing may be cut off.
pub fn kept_length(ending: Ending, length: u64, noted: Option<Mark>, is_held: bool) -> Option<u64>
    ensures { result ≡ kept_length ending length noted is_held }
{
    match ending {
        Ending::Whole => Some(length),
        Ending::Cut { begin } => {
            if is_noted(begin, length, noted) {
                None
            } else {
                Some(begin)
            }
        }
        Ending::Faulty { begin, .. } => {
            if is_held && is_behind(begin, noted) {
                Some(begin)
            } else {
                None
            }
        }
    }
}
