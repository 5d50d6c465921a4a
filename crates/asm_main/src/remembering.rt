//! A writer that remembers the error of its latest call that failed.
ghost use Rattle.std.specs.Prelude.{◌≡◌, None};
ghost use Rattle.std.specs.Io.{WritesAtMost};
ghost use Rattle.std.specs.Io.KnownBytes.{Keeps, WriteAppends};
ghost use Rattle.asm_main.specs.Joins.LatestFaults.{latest_fault};

use crate::latest_fault::latest_fault;
use std::io;
use std::io::Write;

/// A writer that remembers the error of its latest call that failed.
#[derive(Drop)]
pub struct Remembering<W> {
    writer: W,
    fault: Option<io::Error>,
}

impl<W> Remembering<W> {
    /// A writer that did not fail so far.
    pub fn new(writer: W) -> Remembering<W>
        ensures { result ≡ record { writer = writer; fault = None } }
    {
        Remembering {
            writer,
            fault: None,
        }
    }

    /// The error of the latest call that failed.
    pub fn fault(&self) -> Option<io::Error>
        ensures { result ≡ self.now.fault }
    {
        self.fault
    }
}

impl<W: Write> Write for Remembering<W> {
    ghost contents = { λ r. W.contents r.writer };

    fn write(&mut self, buf: &[u8]) -> io::Result<usize>
        ensures bound { WritesAtMost result buf.now }
        ensures bytes { WriteAppends (W.contents self.old.writer) (W.contents self.new.writer) result buf.now }
        ensures fault { self.new.fault ≡ latest_fault self.old.fault result }
    {
        let written = self.writer.write(buf);
        self.fault = latest_fault(self.fault, &written);
        written
    }

    fn flush(&mut self) -> io::Result<()>
        ensures bytes { Keeps (W.contents self.old.writer) (W.contents self.new.writer) }
        ensures fault { self.new.fault ≡ latest_fault self.old.fault result }
    {
        let flushed = self.writer.flush();
        self.fault = latest_fault(self.fault, &flushed);
        flushed
    }
}
