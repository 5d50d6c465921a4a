//! A reader or a writer with the count of its faults.
ghost use Rattle.std.specs.Prelude.{◌≡◌, take};
ghost use Rattle.std.specs.Io.KnownBytes.{Keeps};
ghost use Rattle.text_ports.specs.Faults.{GivesByte, Takes, TakesHeld, count_up, count_after_read, count_after_write, count_after_flush, count_after_held};

use crate::held_lines::{HeldIs, take_held};
use crate::lines::LineBuf;
use std::io::{BufRead, Read, Write};
use std::marker::Model;

/// A port, and how many faults it passed on. A fault is an error of the port, an interrupted call
/// among them, or a write that takes none of its bytes; nothing is tried again after one.
///
/// Contracts see it as the pair of the port and the count.
#[derive(Drop)]
pub struct Counted<T> {
    port: T,
    faults: u64,
}

impl<T> Model for Counted<T> {
    ghost use Rattle.std.specs.Prelude.{ℕ};

    ghost Value = { T × ℕ };

    ghost view = { λ c. (c.port, c.faults) };
}

/// What one read of one byte gave.
pub(crate) enum ByteIs {
    Byte(u8),
    End,
    Fault,
}

impl<T> Counted<T> {
    /// A port that has passed on no fault yet.
    pub fn new(port: T) -> Counted<T>
        ensures { result ≡ (port, 0) }
    {
        Counted { port, faults: 0 }
    }

    /// How many faults the port passed on so far. The count stays at its greatest value.
    pub fn faults(&self) -> u64
        ensures { result ≡ self.now.1 }
    {
        self.faults
    }

    fn count_fault(&mut self)
        ensures { self.new ≡ (self.old.0, count_up self.old.1) }
    {
        let faults = &mut self.faults;
        *faults = faults.saturating_add(1);
    }

    /// The port; the count is freed.
    pub fn into_inner(self) -> T
        ensures { result ≡ self.0 }
    {
        self.port
    }
}

impl<R: Read> Counted<R> {
    /// The next byte.
    pub(crate) fn read_byte(&mut self) -> ByteIs
        ensures bytes { GivesByte (R.remaining self.old.0) (R.remaining self.new.0) result }
        ensures count { self.new.1 ≡ count_after_read result self.old.1 }
    {
        let mut byte = [0u8; 1];
        match self.port.read(&mut byte) {
            Ok(0) => ByteIs::End,
            Ok(_) => ByteIs::Byte(byte[0]),
            Err(_) => {
                self.count_fault();
                ByteIs::Fault
            }
        }
    }
}

impl<R: BufRead> Counted<R> {
    /// The line that begins what the port holds, if all of it is held.
    pub(crate) fn take_held_line(&mut self, line: &mut LineBuf) -> HeldIs
        ensures bytes { TakesHeld (R.remaining self.old.0) (R.remaining self.new.0) result line.new }
        ensures count { self.new.1 ≡ count_after_held result self.old.1 }
    {
        let answer = take_held(&mut self.port, line);
        match answer {
            HeldIs::Line => {}
            HeldIs::Other => {}
            HeldIs::Fault => self.count_fault(),
        }
        answer
    }
}

impl<W: Write> Counted<W> {
    /// Offers the bytes once: how many of them the port took, at least one, or none at a fault.
    pub(crate) fn write_some(&mut self, bytes: &[u8]) -> Option<usize>
        ensures bytes { Takes (W.contents self.old.0) (W.contents self.new.0) result bytes.now }
        ensures count { self.new.1 ≡ count_after_write result self.old.1 }
    {
        match self.port.write(bytes) {
            Ok(count) if count > 0 => Some(count),
            _ => {
                self.count_fault();
                None
            }
        }
    }

    /// Sends on what the port keeps back: whether it did.
    pub fn flush(&mut self) -> bool
        ensures bytes { Keeps (W.contents self.old.0) (W.contents self.new.0) }
        ensures count { self.new.1 ≡ count_after_flush result self.old.1 }
    {
        match self.port.flush() {
            Ok(()) => true,
            Err(_) => {
                self.count_fault();
                false
            }
        }
    }
}
