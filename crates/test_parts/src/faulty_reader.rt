//! A reader over memory that fails in one of its calls.
ghost use Rattle.std.specs.Prelude.{◌≡◌, ◌≢◌, ◌<◌, ◌++◌, min, length, take, drop, IfOk, OnOk, IfErr};
ghost use Rattle.std.specs.Io.{ReadsAtMost};
ghost use Rattle.std.specs.Io.KnownBytes.{ReadConsumes};
ghost use Rattle.std.specs.IoError.{error_kind};
ghost use Rattle.std.specs.declared.io.ErrorKind.TheVariants.{Interrupted};
ghost use Rattle.test_parts.specs.FaultyPorts.{after_call, left_after};

use crate::call_count::is_due;
use std::io::{Error, ErrorKind, Read, Result};
use std::marker::Model;

/// A reader that gives its bytes in pieces, and fails in one call. Contracts see its bytes, its
/// piece and the number of the call that fails.
#[derive(Drop)]
pub struct FaultyReader<'a> {
    unread: &'a [u8],
    piece: usize,
    fails_in: u64,
}

impl<'a> Model for FaultyReader<'a> {
    ghost use Rattle.std.specs.Prelude.{◌<◌};
    ghost use Rattle.test_parts.specs.FaultyPorts.{FaultyPort};

    ghost Value = { FaultyPort };

    ghost view = { λ r. record { bytes = r.unread.now; piece = r.piece; fails_in = r.fails_in } };

    ghost invariant = { λ r. 0 < r.piece };
}

impl<'a> FaultyReader<'a> {
    /// A reader of these bytes that gives at most `piece` of them in one call, and whose call
    /// number `fails_at` fails, counted from 1; with 0 none does.
    pub fn new(bytes: &'a [u8], piece: usize, fails_at: u64) -> FaultyReader<'a>
        requires { 0 < piece }
        ensures { result ≡ record { bytes = bytes.now; piece = piece; fails_in = fails_at } }
    {
        FaultyReader {
            unread: bytes,
            piece,
            fails_in: fails_at,
        }
    }
}

/// Copies as many bytes as the buffer has room for, and gives the others back.
fn give<'a>(unread: &'a [u8], most: usize, buf: &mut [u8]) -> (usize, &'a [u8])
    ensures count { result.0 ≡ min most (min (length buf.old) (length unread.now)) }
    ensures rest { result.1.now ≡ drop result.0 unread.now }
    ensures given { buf.new ≡ take result.0 unread.now ++ drop result.0 buf.old }
{
    let count = most.min(buf.len().min(unread.len()));
    let (given, rest) = unread.split_at(count);
    buf.split_at_mut(count).0.copy_from_slice(given);
    (count, rest)
}

/// The call that fails is an interrupted one, which others tend to make again.
impl Read for FaultyReader<'_> {
    ghost use Rattle.std.specs.Prelude.{Some};

    ghost remaining = { λ r. Some r.bytes };

    fn read(&mut self, buf: &mut [u8]) -> Result<usize>
        ensures bound { ReadsAtMost result buf.new }
        ensures bytes { ReadConsumes (Some self.old.bytes) (Some self.new.bytes) result buf.new }
        ensures sound { OnOk result (self.old.fails_in ≢ 1) }
        ensures due { IfErr result (λ e. (self.old.fails_in ≡ 1) × (error_kind e ≡ Interrupted)) }
        ensures count { IfOk result (λ n. n ≡ min self.old.piece (min (length buf.old) (length self.old.bytes))) }
        ensures given { IfOk result (λ n. buf.new ≡ take n self.old.bytes ++ drop n buf.old) }
        ensures after { self.new ≡ after_call self.old (left_after result self.old.bytes) }
    {
        if is_due(&mut self.fails_in) {
            return Err(Error::from(ErrorKind::Interrupted));
        }
        let (count, rest) = give(self.unread, self.piece, buf);
        self.unread = rest;
        Ok(count)
    }
}
