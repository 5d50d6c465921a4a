//! The file system as a folder.

use crate::file_rows::{DeckEntry, MOST_FILES, deck_in};
use crate::folders::{Folder, Standing};
use crate::size_limits::{Limited, size_limit};
use crate::unwaiting::{check_stands, open_plain, plain_at};
use crate::whole_files::take_owner_and_mode;
use moments::Moment;
use std::alloc::{AllocGlobal, Global};
use std::fs::{DirEntry, File, Metadata, OpenOptions};
use std::io::ErrorKind;
use std::os::unix::fs::MetadataExt;
use std::rt::Files;
use std::{fs, io};

/// The file system of the process. Each call passes on what is asked and what is answered; no contract
/// sees that.
#[derive(Drop)]
pub struct SystemFolder<'a, R> {
    rt: &'a R,
}

impl<'a, R> SystemFolder<'a, R> {
    pub fn new(rt: &'a R) -> SystemFolder<'a, R> {
        SystemFolder { rt }
    }
}

/// When a file was last written; the first moment of 1970 stands for any before it.
fn written_at(about: &Metadata) -> Moment {
    Moment::of_seconds(u64::try_from(about.mtime()).unwrap_or(0))
}

/// The deck whose file an entry of a folder is, if it is one's that still stands there. A name that is no
/// text is no deck's.
fn deck_of<R: Files + Drop>(
    rt: &R,
    entry: io::Result<DirEntry<R>>,
) -> io::Result<Option<DeckEntry>> {
    let entry = match entry {
        Ok(entry) => entry,
        Err(error) if error.kind() == ErrorKind::InvalidFilename => return Ok(None),
        Err(error) => return Err(error),
    };
    let Some(name) = deck_in(entry.file_name().as_bytes()) else {
        return Ok(None);
    };
    match fs::symlink_metadata(rt, entry.path().as_str()) {
        Ok(about) => Ok(Some(DeckEntry {
            name,
            written: written_at(&about),
        })),
        Err(_) => Ok(None),
    }
}

impl<R: Files<File = File> + AllocGlobal + Clone + Drop> Folder for SystemFolder<'_, R> {
    ghost use Rattle.std.specs.Prelude.{⊤};

    type File = File;

    type NewFile = Limited<File>;

    ghost has_done = { λ _ _. ⊤ };

    fn look(&mut self, path: &str) -> io::Result<Standing> {
        match fs::symlink_metadata(self.rt, path) {
            Ok(about) if about.is_file() => Ok(Standing::PlainFile),
            Ok(_) => Ok(Standing::Other),
            Err(error) if error.kind() == ErrorKind::NotFound => Ok(Standing::Nothing),
            Err(error) => Err(error),
        }
    }

    fn open(&mut self, path: &str) -> io::Result<File> {
        open_plain(self.rt, path)
    }

    fn make(&mut self, path: &str) -> io::Result<Limited<File>> {
        let mut how = OpenOptions::new();
        how.write(true).create_new(true);
        let file = how.open(self.rt, path)?;
        Ok(Limited::new(file, size_limit(self.rt)))
    }

    fn take_after(&mut self, file: &Limited<File>, path: &str) -> io::Result<()> {
        match plain_at(self.rt, path)? {
            Some(old) => take_owner_and_mode(file.file(), &old),
            None => Ok(()),
        }
    }

    fn keep(&mut self, file: &Limited<File>) -> io::Result<()> {
        file.file().sync_all()
    }

    fn put(&mut self, file: Limited<File>, new: &str, path: &str) -> io::Result<()> {
        check_stands(self.rt, file.file(), new)?;
        fs::rename(self.rt, new, path)?;
        check_stands(self.rt, file.file(), path)
    }

    fn rename(&mut self, from: &str, to: &str) -> io::Result<()> {
        fs::rename(self.rt, from, to)
    }

    fn link(&mut self, path: &str, other: &str) -> io::Result<()> {
        fs::hard_link(self.rt, path, other)
    }

    fn remove(&mut self, path: &str) -> io::Result<()> {
        match fs::remove_file(self.rt, path) {
            Err(error) if error.kind() == ErrorKind::NotFound => Ok(()),
            removed => removed,
        }
    }

    fn keep_folder(&mut self, folder: &str) -> io::Result<()> {
        fs::open(self.rt, folder)?.sync_all()
    }

    fn decks(&mut self, alloc: Global, folder: &str) -> io::Result<Vec<DeckEntry>> {
        let mut decks = Vec::new(alloc);
        for entry in fs::read_dir(self.rt, folder)? {
            let Some(deck) = deck_of(self.rt, entry)? else {
                continue;
            };
            if decks.len() >= MOST_FILES {
                return Err(io::Error::from(ErrorKind::FileTooLarge));
            }
            decks.push(deck)?;
        }
        Ok(decks)
    }
}
