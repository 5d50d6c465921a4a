//! The files of a folder that a service knows, for all of its shelves, and the file in which that is kept.
//!
//! A file is known by what it has: its length, its digest and the version of the deck whose cards these are.
//! That is kept in the file `.beskloun.files` of the folder, so that a service knows the files of an earlier
//! one. It is written again after each save and each load that a desk took: first as `.beskloun.files.NEW0`,
//! which takes its place once the system has kept it. Where it can't be written, the save stands as it is, and
//! that is reported to nobody: a later service does not know that file, and asks before it is written over. So does one
//! that finds a line that is damaged, which knows none.

ghost use Rattle.std.specs.Prelude.{◌≡◌, ◌⊎◌, string_bytes, IfOk, OnErr, OnOk};
ghost use Rattle.std.specs.Option.{option_map};
ghost use Rattle.deck_files.specs.KnownTexts.{rows_in, rows_text};
ghost use Rattle.deck_files.specs.Steps.{ChangesOnly};
ghost use Rattle.deck_files.specs.WholeFiles.{Replaces};

use crate::deck_places::path_of;
use crate::file_sums::FileSum;
use crate::known_rows::{Known, KnownRows, SavedVersion};
use crate::known_texts::row_in;
use crate::placing::{WholeFiles, replace};
use crate::save_turns::{SaveTurns, Turn};
use crate::unwaiting::open_plain;
use crate::whole_files::SystemFiles;
use cards::DeckName;
use std::alloc::{AllocError, AllocGlobal, Global};
use std::fs::File;
use std::hash::RandomState;
use std::io::{self, ErrorKind, Read};
use std::rt::Files;
use std::sync::{Mutex, Wait};
use text_ports::{Counted, LineBuf, LineIs, next_line};

/// The file of a folder in which it is kept what is known.
pub const FILES: &str = ".beskloun.files";

/// How many bytes of it are read at most.
const MOST_BYTES: u64 = 1 << 24;

/// Where it is kept what is known: the path of the file, and that under which it is written first.
#[derive(Drop)]
struct KeptAt {
    path: String,
    new: String,
}

/// The files of a folder that a service knows, for all of its shelves. What is known is looked up without
/// waiting for a disk. Saves are made one after the other.
#[derive(Drop)]
pub struct KnownFiles {
    alloc: Global,
    rows: Mutex<KnownRows>,
    /// Held by the save whose turn it is.
    saving: Mutex<()>,
    /// Held by who writes what is known.
    keeping: Mutex<()>,
    kept: Option<KeptAt>,
}

/// What a file of rows shows a desk that goes on behind a version, line by line; none where one of them is no
/// row. A fault is that of memory; bytes that are there are read without one.
fn rows_of(
    alloc: Global,
    keys: RandomState,
    text: &[u8],
    last: u64,
) -> Result<Option<KnownRows>, AllocError>
    ensures rows { IfOk result (λ rows. option_map (λ known. known.files) rows ≡ rows_in last text.now) }
{
    let mut rows = KnownRows::new(alloc, keys);
    let mut input = Counted::new(text);
    let mut line = LineBuf::new();
    loop {
        match next_line(&mut input, &mut line) {
            LineIs::Line => {
                let Some(row) = row_in(line.as_slice()) else {
                    return Ok(None);
                };
                rows.add(&row.name, row.known.up_to(last))?;
            }
            LineIs::End => return Ok(Some(rows)),
            LineIs::Cut => return Ok(None),
            LineIs::TooLong => return Ok(None),
            LineIs::Fault => return Err(AllocError),
        }
    }
}

/// The bytes of a plain file, as many as are read.
fn bytes_at<R>(rt: &R, alloc: Global, path: &str) -> io::Result<Vec<u8>>
where
    R: Files<File = File> + AllocGlobal + Clone + Drop,
{
    let mut bytes = Vec::new(alloc);
    let mut file = open_plain(rt, path)?.take(MOST_BYTES);
    file.read_to_end(&mut bytes)?;
    Ok(bytes)
}

/// Makes the file of what is known anew, with this text.
fn write_text<W: WholeFiles>(files: &mut W, kept: &KeptAt, text: &[u8]) -> io::Result<()>
    ensures written { OnOk result (Replaces W.has_done (string_bytes kept.now.new) (string_bytes kept.now.path) text.now files.old files.new) }
    ensures fault { OnErr result (ChangesOnly W.has_done (λ at. at ≡ string_bytes kept.now.new) files.old files.new) }
{
    replace(files, kept.new.as_str(), kept.path.as_str(), text)
}

/// Makes the file of what is known anew: a row for each file that is known, and no others.
fn write_rows<W: WholeFiles>(files: &mut W, kept: &KeptAt, rows: &KnownRows) -> io::Result<()>
    ensures written { OnOk result (Replaces W.has_done (string_bytes kept.now.new) (string_bytes kept.now.path) (rows_text rows.now.files) files.old files.new) }
    ensures fault { OnErr result ((files.new ≡ files.old) ⊎ ChangesOnly W.has_done (λ at. at ≡ string_bytes kept.now.new) files.old files.new) }
{
    match rows.text() {
        Ok(text) => write_text(files, kept, text.as_slice()),
        Err(_) => Err(io::Error::from(ErrorKind::OutOfMemory)),
    }
}

impl KeptAt {
    fn new(alloc: Global, folder: &str) -> Result<KeptAt, AllocError> {
        let folder = path_of(folder);
        Ok(KeptAt {
            path: format!(in alloc; "{folder}/{FILES}")?,
            new: format!(in alloc; "{folder}/{FILES}.NEW0")?,
        })
    }
}

impl KnownFiles {
    fn over(alloc: Global, rows: KnownRows, kept: Option<KeptAt>) -> KnownFiles {
        KnownFiles {
            alloc,
            rows: Mutex::new(rows),
            saving: Mutex::new(()),
            keeping: Mutex::new(()),
            kept,
        }
    }

    /// No file is known, and what comes to be known is kept nowhere.
    pub fn new(alloc: Global, keys: RandomState) -> KnownFiles {
        KnownFiles::over(alloc, KnownRows::new(alloc, keys), None)
    }

    /// The files that are known in a folder, by what was kept there, for a desk that goes on behind the version
    /// `last`; what comes to be known is kept there, too. The empty text is the folder that the process runs in.
    /// None is known where nothing is kept there, or it can't be read, or a line of it is damaged. A fault is
    /// that of memory, or of the file that is written again before anything is known by it.
    ///
    /// A version that is kept there means the cards that the deck had then, as long as the folder gives out no
    /// version twice. A version up to `last` is in the journal, or was given out before the desk of another journal
    /// was begun anew, whose decks have versions behind all that were given out in the folder. A greater one was
    /// shown, and its record was never kept: the desk will give it to other cards, so it is left out here, and in
    /// the file before the desk gives any. What the file has stays known.
    pub fn kept_in<R>(
        rt: &R,
        alloc: Global,
        keys: RandomState,
        folder: &str,
        last: u64,
    ) -> io::Result<KnownFiles>
    where
        R: Files<File = File> + AllocGlobal + Clone + Drop,
    {
        let kept = KeptAt::new(alloc, folder)?;
        let rows = match bytes_at(rt, alloc, kept.path.as_str()) {
            Ok(bytes) => rows_of(alloc, keys, &bytes, last)?,
            Err(error) if error.kind() == ErrorKind::OutOfMemory => return Err(error),
            Err(_) => None,
        };
        let Some(rows) = rows else {
            return Ok(KnownFiles::over(alloc, KnownRows::new(alloc, keys), Some(kept)));
        };
        write_rows(&mut SystemFiles::new(rt), &kept, &rows)?;
        Ok(KnownFiles::over(alloc, rows, Some(kept)))
    }

    /// Keeps what is known by now, as far as that can be done.
    fn keep<R>(&self, rt: &R)
    where
        R: Files<File = File> + AllocGlobal + Clone + Drop + Wait,
    {
        let Some(kept) = &self.kept else {
            return;
        };
        let _keeping = self.keeping.lock(rt);
        let text = self.rows.lock(rt).text();
        if let Ok(text) = text {
            let _ = write_text(&mut SystemFiles::new(rt), kept, text.as_slice());
        }
    }

    /// The turn of a save, as long as it is held.
    pub(crate) fn saving(&self) -> &Mutex<()> {
        &self.saving
    }
}

/// The known files of a folder, as one shelf asks for them. What is known stands behind a lock, so contracts see
/// only that each answer is that of what was known at some moment; what shows that a version was saved comes from
/// there alone.
#[derive(Drop)]
pub struct Turns<'a, R> {
    rt: &'a R,
    known: &'a KnownFiles,
}

impl<'a, R> Turns<'a, R> {
    pub(crate) fn new(rt: &'a R, known: &'a KnownFiles) -> Turns<'a, R> {
        Turns { rt, known }
    }
}

impl<R> SaveTurns for Turns<'_, R>
where
    R: Files<File = File> + AllocGlobal + Clone + Drop + Wait,
{
    ghost use Rattle.std.specs.Prelude.{⊤};
    ghost use Rattle.deck_files.specs.KnownFiles.{IsNewestOfSome, IsSavedAmongSome};
    ghost use Rattle.deck_files.specs.SaveTurns.{IsTurnOfSome};

    ghost turns = { λ _ name version turn _. IsTurnOfSome name version turn };

    ghost lacks = { λ _ _. ⊤ };

    ghost notes = { λ _ _ _ _. ⊤ };

    ghost tells_newest = { λ _ name seen _. IsNewestOfSome name seen };

    ghost places = { λ _ _ _. ⊤ };

    ghost notes_loaded = { λ _ _ _ _ _. ⊤ };

    ghost shows_saved = { λ _ name version shown _. IsSavedAmongSome name version shown };

    fn begin(&mut self, name: &DeckName, version: u64) -> Result<Turn, AllocError> {
        self.known.rows.lock(self.rt).begin(name, version)
    }

    /// Notes what was saved, and keeps it.
    fn note(&mut self, name: &DeckName, sum: FileSum, version: u64) -> SavedVersion {
        let shown = self.known.rows.lock(self.rt).note(name, sum, version);
        self.known.keep(self.rt);
        shown
    }

    fn newest(&mut self, name: &DeckName) -> Option<u64> {
        self.known.rows.lock(self.rt).newest(name)
    }

    fn reserve(&mut self, name: &DeckName) -> Result<(), AllocError> {
        self.known.rows.lock(self.rt).reserve(name)
    }

    /// Notes what the desk took, and keeps it.
    fn note_loaded(&mut self, name: &DeckName, seen: Option<u64>, known: Known) {
        self.known.rows.lock(self.rt).note_loaded(name, seen, known);
        self.known.keep(self.rt);
    }

    fn saved(&mut self, name: &DeckName, version: u64) -> Option<SavedVersion> {
        self.known.rows.lock(self.rt).saved(name, version)
    }
}
