//! Lines of a reader, byte by byte.
ghost use Rattle.std.specs.Prelude.{◌≡◌, ◌+◌, ◌<◌, ◌≤◌, ◌++◌, ◌∷◌, [], length, IsTrue, ◌↔◌};
ghost use Rattle.definitions.specs.InputLines.{without_cr};
ghost use Rattle.text_ports.specs.Lines.{ReadsLine, ReadsWholeLine};
ghost use Rattle.text_ports.specs.Faults.{count_after_line};

use crate::counted::{ByteIs, Counted};
use std::io::Read;
use std::marker::Model;

/// How many bytes a line may have before its line feed; a carriage return counts among them.
pub(crate) const MOST_BYTES: usize = 256;

/// The bytes of one line, at most 256. Contracts see it as their list.
#[derive(Drop)]
pub struct LineBuf {
    bytes: [u8; MOST_BYTES],
    len: usize,
}

impl Model for LineBuf {
    ghost use Rattle.std.specs.Prelude.{ℕ, List, take, ◌≤◌};

    ghost Value = { List ℕ };

    ghost view = { λ b. take b.len b.bytes };

    ghost invariant = { λ b. b.len ≤ 256 };
}

impl LineBuf {
    pub fn new() -> LineBuf
        ensures { result ≡ [] }
    {
        LineBuf {
            bytes: [0; MOST_BYTES],
            len: 0,
        }
    }

    pub fn as_slice(&self) -> &[u8]
        ensures value { result.now ≡ self.now }
        ensures short { length self.now ≤ 256 }
    {
        self.bytes.split_at(self.len).0
    }

    fn is_empty(&self) -> bool
        ensures { IsTrue result ↔ (self.now ≡ []) }
    {
        self.len == 0
    }

    fn is_full(&self) -> bool
        ensures full { IsTrue result ↔ (length self.now ≡ 256) }
        ensures short { length self.now ≤ 256 }
    {
        self.len == MOST_BYTES
    }

    pub(crate) fn clear(&mut self)
        ensures { self.new ≡ [] }
    {
        self.len = 0;
    }

    fn push(&mut self, byte: u8)
        requires { length self.old < 256 }
        ensures { self.new ≡ self.old ++ byte ∷ [] }
    {
        self.bytes[self.len] = byte;
        self.len += 1;
    }

    /// Puts these bytes in the place of its own.
    pub(crate) fn set(&mut self, text: &[u8])
        requires { length text.now ≤ 256 }
        ensures { self.new ≡ text.now }
    {
        self.bytes.split_at_mut(text.len()).0.copy_from_slice(text);
        self.len = text.len();
    }

    pub(crate) fn drop_cr(&mut self)
        ensures { self.new ≡ without_cr self.old }
    {
        if self.len > 0 && self.bytes[self.len - 1] == b'\r' {
            self.len -= 1;
        }
    }
}

/// What `next_line` found.
#[derive(Clone, Copy, Debug)]
pub enum LineIs {
    /// A line: the buffer has its bytes without the line feed, and without one carriage return
    /// directly before it.
    Line,
    /// The end of the input, and no byte before it.
    End,
    /// The end of the input behind bytes that no line feed ends.
    Cut,
    /// 257 bytes, and no line feed among them.
    TooLong,
    /// The port failed.
    Fault,
}

/// Reads the next line, and no byte behind its line feed. At most 257 bytes are read. The buffer has
/// all that stands in front of the line feed, and is empty after every answer but `Line`.
pub fn next_whole_line<R: Read>(input: &mut Counted<R>, line: &mut LineBuf) -> LineIs
    ensures reads { ReadsWholeLine (R.remaining input.old.0) (R.remaining input.new.0) result line.new }
    ensures count { input.new.1 ≡ count_after_line result input.old.1 }
{
    line.clear();
    for _ in 0..=MOST_BYTES {
        match input.read_byte() {
            ByteIs::Byte(b'\n') => return LineIs::Line,
            ByteIs::Byte(byte) => {
                if line.is_full() {
                    line.clear();
                    return LineIs::TooLong;
                }
                line.push(byte);
            }
            ByteIs::End => {
                let is_empty = line.is_empty();
                line.clear();
                return if is_empty { LineIs::End } else { LineIs::Cut };
            }
            ByteIs::Fault => {
                line.clear();
                return LineIs::Fault;
            }
        }
    }
    line.clear();
    LineIs::TooLong
}

/// Reads the next line as `next_whole_line` does, without one carriage return directly before its line
/// feed.
pub fn next_line<R: Read>(input: &mut Counted<R>, line: &mut LineBuf) -> LineIs
    ensures reads { ReadsLine (R.remaining input.old.0) (R.remaining input.new.0) result line.new }
    ensures count { input.new.1 ≡ count_after_line result input.old.1 }
{
    let answer = next_whole_line(input, line);
    if let LineIs::Line = answer {
        line.drop_cr();
    }
    answer
}
