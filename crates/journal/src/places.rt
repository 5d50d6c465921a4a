//! Where the reading of a journal is, and how it ends.
ghost use Rattle.std.specs.Prelude.{◌≡◌, ◌+◌, ◌≤◌};
ghost use Rattle.journal.specs.Places.{advanced, at_start, behind_record};
ghost use Rattle.journal.specs.Journals.{cut_at, faulty_at};

/// How a journal ends.
#[derive(Clone, Copy, Debug, PartialEq, Eq)]
pub enum Ending {
    /// Behind a whole record, or it has none.
    Whole,
    /// The last record is cut, or its check sum is wrong. It begins at this byte.
    Cut { begin: u64 },
    /// This record, counted from 1, is none, and not the last. It begins at this byte.
    Faulty { number: u64, begin: u64 },
}

/// Where the reading of a journal is. The numbers stay at their greatest value.
#[derive(Clone, Copy)]
pub struct Place {
    /// How many records were read.
    pub records: u64,
    /// At which byte the next record begins.
    pub begin: u64,
    /// How many bytes were read.
    pub bytes: u64,
}

impl Place {
    /// The place in front of a journal.
    pub fn at_start() -> Place
        ensures { result ≡ at_start }
    {
        Place {
            records: 0,
            begin: 0,
            bytes: 0,
        }
    }

    /// The bytes of a line and its line feed were read.
    pub(crate) fn advance(&mut self, line: usize)
        requires { line ≤ 256 }
        ensures { self.new ≡ advanced (line + 1) self.old }
    {
        self.bytes = self.bytes.saturating_add(line as u64 + 1);
    }

    /// They end a record.
    pub(crate) fn end_record(&mut self)
        ensures { self.new ≡ behind_record self.old }
    {
        self.records = self.records.saturating_add(1);
        self.begin = self.bytes;
    }

    /// The record that begins here is the last, and cut or damaged.
    pub(crate) fn cut(&self) -> Ending
        ensures { result ≡ cut_at self.now }
    {
        Ending::Cut { begin: self.begin }
    }

    /// What begins here is no record.
    pub(crate) fn faulty(&self) -> Ending
        ensures { result ≡ faulty_at self.now }
    {
        Ending::Faulty {
            number: self.records.saturating_add(1),
            begin: self.begin,
        }
    }
}
