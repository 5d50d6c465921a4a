//! Replies in memory.
ghost use Rattle.std.specs.Prelude.{◌≡◌, ◌+◌, ◌≤◌, ◌++◌, [], length, IfErr, IfOk, OnOk, OnErr};
ghost use Rattle.std.specs.Io.{WritesAtMost};
ghost use Rattle.std.specs.Io.KnownBytes.{Keeps, WriteAppends};
ghost use Rattle.std.specs.IoError.{error_kind};

use bytes::Bytes;
use std::alloc::{AllocError, Global};
use std::io;
use std::io::{Error, ErrorKind, Write};
use std::marker::Model;

/// How many bytes all replies to one request have at most: 32 MiB.
pub const MOST_REPLIES: usize = 33_554_432;

/// Replies in memory, 32 MiB at most. A write that finds no room, or no memory, fails, and takes nothing.
/// Contracts see the list of their bytes.
#[derive(Drop)]
pub struct Replies {
    bytes: Vec<u8>,
}

impl Model for Replies {
    ghost use Rattle.std.specs.Prelude.{ℕ, List, ◌≤◌, length};

    ghost Value = { List ℕ };

    ghost view = { λ r. r.bytes.items };

    ghost invariant = { λ r. length r.bytes.items ≤ 33554432 };
}

impl Replies {
    /// No reply yet, and no memory for one.
    pub fn new(alloc: Global) -> Replies
        ensures { result ≡ [] }
    {
        Replies {
            bytes: Vec::new(alloc),
        }
    }

    /// Their bytes.
    pub fn as_slice(&self) -> &[u8]
        ensures value { result.now ≡ self.now }
        ensures few { length self.now ≤ 33554432 }
    {
        self.bytes.as_slice()
    }

    /// Their bytes, to be sent without a copy.
    pub(crate) fn into_bytes(self) -> Result<Bytes, AllocError>
        ensures { IfOk result (λ bytes. bytes ≡ self) }
    {
        Ok(Bytes::from_vec(self.bytes)?)
    }
}

impl Write for Replies {
    ghost use Rattle.std.specs.Prelude.{Some};

    ghost contents = { λ r. Some r };

    fn write(&mut self, buf: &[u8]) -> io::Result<usize>
        ensures bound { WritesAtMost result buf.now }
        ensures bytes { WriteAppends (Some self.old) (Some self.new) result buf.now }
        ensures all { OnOk result (self.new ≡ self.old ++ buf.now) }
        ensures none { OnErr result (self.new ≡ self.old) }
        ensures room { length self.old + length buf.now ≤ 33554432 → IfErr result (λ fault. error_kind fault ≡ ErrorKind.OutOfMemory) }
    {
        if buf.len() > MOST_REPLIES - self.bytes.len() {
            return Err(Error::from(ErrorKind::StorageFull));
        }
        self.bytes.extend_from_slice(buf)?;
        Ok(buf.len())
    }

    fn flush(&mut self) -> io::Result<()>
        ensures bytes { Keeps (Some self.old) (Some self.new) }
        ensures unchanged { self.new ≡ self.old }
    {
        Ok(())
    }
}
