//! Ports that give and take bytes in pieces, and fail where they are to.
ghost use Rattle.std.specs.Prelude.{◌<◌};

use crate::faulty_reader::FaultyReader;
use crate::faulty_writer::FaultyWriter;
use crate::words::cut_number;
use std::alloc::Global;
use text_ports::Counted;

/// How many bytes a call of a port gives or takes at most, and the numbers of the read and of the write that
/// fail, counted from 1; none where it is 0.
#[derive(Clone, Copy)]
pub struct Failing {
    pub piece: usize,
    pub read: u64,
    pub write: u64,
}

impl Failing {
    /// Ports that give and take so many bytes at a time, and never fail.
    pub fn never(piece: usize) -> Failing {
        let (read, write) = (0, 0);
        Failing { piece, read, write }
    }

    /// Ports by the three numbers that begin a text, and what stands behind these.
    pub fn cut(text: &str) -> (Failing, &str) {
        let (piece, rest) = cut_number(text);
        let (read, rest) = cut_number(rest);
        let (write, rest) = cut_number(rest);
        let piece = piece as usize;
        (Failing { piece, read, write }, rest)
    }

    /// How many bytes a call gives or takes: one at least.
    fn bytes(self) -> usize
        ensures { 0 < result }
    {
        self.piece.max(1)
    }

    pub fn reader(self, bytes: &[u8]) -> FaultyReader<'_> {
        FaultyReader::new(bytes, self.bytes(), self.read)
    }

    pub fn writer(self, alloc: Global) -> Counted<FaultyWriter> {
        Counted::new(FaultyWriter::new(alloc, self.bytes(), self.write))
    }
}
