//! One line of a reply.
ghost use Rattle.std.specs.Prelude.{◌≡◌, ◌+◌, ◌<◌, ◌≤◌, ◌++◌, ◌∷◌, [], length, decimal};
ghost use Rattle.definitions.specs.Characters.{line_feed};

use itoa::Buffer;
use std::marker::Model;

/// How many bytes a line has at most that is no card's. The longest is that of a flagged statement, with
/// its card.
const MOST_BYTES: usize = 128;

/// The bytes of one line, at most 128. Contracts see it as their list.
#[derive(Drop)]
pub(crate) struct ReplyLine {
    bytes: [u8; MOST_BYTES],
    len: usize,
}

impl Model for ReplyLine {
    ghost use Rattle.std.specs.Prelude.{ℕ, List, take, ◌≤◌};

    ghost Value = { List ℕ };

    ghost view = { λ l. take l.len l.bytes };

    ghost invariant = { λ l. l.len ≤ 128 };
}

impl ReplyLine {
    pub(crate) fn new() -> ReplyLine
        ensures { result ≡ [] }
    {
        ReplyLine {
            bytes: [0; MOST_BYTES],
            len: 0,
        }
    }

    pub(crate) fn as_slice(&self) -> &[u8]
        ensures value { result.now ≡ self.now }
        ensures short { length self.now ≤ 128 }
    {
        self.bytes.split_at(self.len).0
    }

    fn push(&mut self, byte: u8)
        requires { length self.old < 128 }
        ensures text { self.new ≡ self.old ++ byte ∷ [] }
        ensures len { length self.new ≡ length self.old + 1 }
    {
        self.bytes[self.len] = byte;
        self.len += 1;
    }

    pub(crate) fn put(&mut self, text: &[u8])
        requires { length self.old + length text.now ≤ 128 }
        ensures text { self.new ≡ self.old ++ text.now }
        ensures len { length self.new ≡ length self.old + length text.now }
    {
        for byte in text {
            self.push(*byte);
        }
    }

    pub(crate) fn put_number(&mut self, number: u64)
        requires { length self.old ≤ 100 }
        ensures text { self.new ≡ self.old ++ decimal number }
        ensures len { length self.new ≤ length self.old + 20 }
    {
        let mut buffer = Buffer::new();
        self.put(buffer.format(number).as_bytes());
    }

    pub(crate) fn end(&mut self)
        requires { length self.old < 128 }
        ensures { self.new ≡ self.old ++ line_feed ∷ [] }
    {
        self.push(b'\n');
    }
}
