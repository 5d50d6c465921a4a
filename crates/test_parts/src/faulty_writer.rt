//! A writer to memory that fails in one of its calls.
ghost use Rattle.std.specs.Prelude.{◌≡◌, ◌≢◌, ◌==◌, ◌<◌, [], min, length, IfOk, OnOk, IfErr, if◌then◌else◌};
ghost use Rattle.std.specs.Io.{WritesAtMost};
ghost use Rattle.std.specs.Io.KnownBytes.{Keeps, WriteAppends};
ghost use Rattle.std.specs.IoError.{error_kind};
ghost use Rattle.std.specs.declared.io.ErrorKind.TheVariants.{Interrupted, OutOfMemory};
ghost use Rattle.test_parts.specs.FaultyPorts.{after_call, taken_after};

use crate::call_count::is_due;
use std::alloc::Global;
use std::io::{Error, ErrorKind, Result, Write};
use std::marker::Model;

/// A writer that takes bytes in pieces, and fails in one call. Contracts see the bytes that it
/// took, its piece and the number of the call that fails.
#[derive(Drop)]
pub struct FaultyWriter {
    taken: Vec<u8>,
    piece: usize,
    fails_in: u64,
}

impl Model for FaultyWriter {
    ghost use Rattle.std.specs.Prelude.{◌<◌};
    ghost use Rattle.test_parts.specs.FaultyPorts.{FaultyPort};

    ghost Value = { FaultyPort };

    ghost view = { λ w. record { bytes = w.taken.items; piece = w.piece; fails_in = w.fails_in } };

    ghost invariant = { λ w. 0 < w.piece };
}

impl FaultyWriter {
    /// A writer that took nothing yet, takes at most `piece` bytes in one call, and whose call
    /// number `fails_at` fails, counted from 1; with 0 none does.
    pub fn new(alloc: Global, piece: usize, fails_at: u64) -> FaultyWriter
        requires { 0 < piece }
        ensures { result ≡ record { bytes = []; piece = piece; fails_in = fails_at } }
    {
        FaultyWriter {
            taken: Vec::new(alloc),
            piece,
            fails_in: fails_at,
        }
    }

    /// The bytes that it took.
    pub fn taken(&self) -> &[u8]
        ensures { result.now ≡ self.now.bytes }
    {
        self.taken.as_slice()
    }
}

/// The call that fails is an interrupted one, which others tend to make again. A call that finds no
/// memory fails too, and takes nothing.
impl Write for FaultyWriter {
    ghost use Rattle.std.specs.Prelude.{Some};

    ghost contents = { λ w. Some w.bytes };

    fn write(&mut self, buf: &[u8]) -> Result<usize>
        ensures bound { WritesAtMost result buf.now }
        ensures bytes { WriteAppends (Some self.old.bytes) (Some self.new.bytes) result buf.now }
        ensures sound { OnOk result (self.old.fails_in ≢ 1) }
        ensures kind { IfErr result (λ e. error_kind e ≡ (if self.old.fails_in == 1 then Interrupted else OutOfMemory)) }
        ensures count { IfOk result (λ n. n ≡ min self.old.piece (length buf.now)) }
        ensures after { self.new ≡ after_call self.old (taken_after result self.old.bytes buf.now) }
    {
        if is_due(&mut self.fails_in) {
            return Err(Error::from(ErrorKind::Interrupted));
        }
        let count = self.piece.min(buf.len());
        self.taken.extend_from_slice(buf.split_at(count).0)?;
        Ok(count)
    }

    fn flush(&mut self) -> Result<()>
        ensures bytes { Keeps (Some self.old.bytes) (Some self.new.bytes) }
        ensures unchanged { self.new ≡ self.old }
    {
        Ok(())
    }
}
