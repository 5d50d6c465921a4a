//! A file of the system as the file of a journal.

use crate::notes::Notes;
use deck_files::{NO_LIMIT, has_room};
use journal::{Mark, RecordsFile};
use std::fs::OpenFile;
use std::io::{Seek, Write};

/// An open file of the system, which is written at its end alone, and where its notes go, if anywhere. Each
/// call passes on what is asked and whether it was done; no contract sees that. Bytes that would make it
/// greater than a file may be are not written.
#[derive(Drop)]
pub struct SystemFile<F> {
    file: F,
    most: u64,
    notes: Option<Notes<F>>,
}

impl<F> SystemFile<F> {
    /// A file that may have any number of bytes.
    pub fn new(file: F) -> SystemFile<F> {
        SystemFile::within(file, NO_LIMIT)
    }

    /// A file that may have so many bytes.
    pub fn within(file: F, most: u64) -> SystemFile<F> {
        SystemFile {
            file,
            most,
            notes: None,
        }
    }
}

impl<F: OpenFile> SystemFile<F> {
    /// Whether the file may have so many bytes more.
    fn may_grow(&self, bytes: usize) -> bool {
        self.most == NO_LIMIT
            || match self.file.metadata() {
                Ok(about) => has_room(about.len(), bytes, self.most),
                Err(_) => false,
            }
    }
}

impl<F: Drop> SystemFile<F> {
    /// The file, whose notes go there from now on.
    pub(crate) fn noting(self, notes: Option<Notes<F>>) -> SystemFile<F> {
        let mut file = self;
        file.notes = notes;
        file
    }
}

impl<F: Write + OpenFile + Seek> RecordsFile for SystemFile<F> {
    ghost use Rattle.std.specs.Prelude.{⊤};

    ghost has_done = { λ _ _. ⊤ };

    fn append(&mut self, bytes: &[u8]) -> bool {
        self.may_grow(bytes.len()) && self.file.write_all(bytes).is_ok()
    }

    fn sync(&mut self) -> bool {
        self.file.sync_data().is_ok()
    }

    fn cut_to(&mut self, bytes: u64) -> bool {
        self.file.set_len(bytes).is_ok()
    }

    fn note(&mut self, mark: Mark) -> bool {
        match &mut self.notes {
            Some(notes) => notes.write(mark),
            None => true,
        }
    }
}
