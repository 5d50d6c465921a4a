//! What a shelf asks of a folder.

use crate::file_rows::DeckEntry;
use std::alloc::Global;
use std::io;
use std::io::{Read, Write};

/// What stands at a path.
#[derive(Clone, Copy)]
pub enum Standing {
    Nothing,
    PlainFile,
    /// A folder, a link, a pipe.
    Other,
}

/// The files of a folder, by their paths, as a shelf uses them. Each call is one step that the folder was
/// asked, with its answer; the member says which steps a folder may have behind it. A step that is refused
/// changes nothing.
pub trait Folder {
    ghost use Rattle.std.specs.Prelude.{◌≤◌, List, IfOk, length};
    ghost use Rattle.deck_files.specs.FileRows.{most_files};
    ghost use Rattle.deck_files.specs.Steps.{Step, TakesStep, done_if, found_if, gave_if, holds_if};
    ghost use Rattle.deck_files.specs.Steps.{Decks, Keep, KeepFolder, Link, Look, Make, Open, Put, Remove, Rename, TakeAfter};

    /// A file that is read.
    type File: Read + Drop;

    /// A file that was made, and is written.
    type NewFile: Write + Drop;

    // What the folder was asked so far, and what it answered, the newest first.
    ghost has_done: { Self → List Step → Type 0 };

    /// What stands at the path. A link is itself what stands there.
    fn look(&mut self, path: &str) -> io::Result<Standing>
        ensures { TakesStep has_done self.old (Look path.now, found_if result) self.new };

    /// Opens the plain file at the path. Refused where another has come to stand there, or a link.
    fn open(&mut self, path: &str) -> io::Result<Self::File>
        ensures { TakesStep has_done self.old (Open path.now, gave_if Self.File.remaining result) self.new };

    /// Makes a file where nothing stands; `AlreadyExists` where something does.
    fn make(&mut self, path: &str) -> io::Result<Self::NewFile>
        ensures { TakesStep has_done self.old (Make path.now, gave_if Self.NewFile.contents result) self.new };

    /// Gives a new file the mode and the owner of the plain file at a path, if one stands there.
    fn take_after(&mut self, file: &Self::NewFile, path: &str) -> io::Result<()>
        ensures { TakesStep has_done self.old (TakeAfter (Self.NewFile.contents file.now) path.now, done_if result) self.new };

    /// Waits until all that was written into a new file is kept, also if the machine fails.
    fn keep(&mut self, file: &Self::NewFile) -> io::Result<()>
        ensures { TakesStep has_done self.old (Keep (Self.NewFile.contents file.now), done_if result) self.new };

    /// Gives a new file, which was made at one path, another, in place of what stood there: at each moment that
    /// path has the one or the other, whole. Refused where another file has come to stand at one of the two.
    fn put(&mut self, file: Self::NewFile, new: &str, path: &str) -> io::Result<()>
        ensures { TakesStep has_done self.old (Put (Self.NewFile.contents file) new.now path.now, done_if result) self.new };

    /// Gives a file another path, in place of what stood there: at each moment that path has the one or the
    /// other, whole.
    fn rename(&mut self, from: &str, to: &str) -> io::Result<()>
        ensures { TakesStep has_done self.old (Rename from.now to.now, done_if result) self.new };

    /// Gives the file at a path another path too, where nothing stands.
    fn link(&mut self, path: &str, other: &str) -> io::Result<()>
        ensures { TakesStep has_done self.old (Link path.now other.now, done_if result) self.new };

    /// Takes the file at a path away, if one stands there.
    fn remove(&mut self, path: &str) -> io::Result<()>
        ensures { TakesStep has_done self.old (Remove path.now, done_if result) self.new };

    /// Waits until it is kept which files a folder has, also if the machine fails.
    fn keep_folder(&mut self, folder: &str) -> io::Result<()>
        ensures { TakesStep has_done self.old (KeepFolder folder.now, done_if result) self.new };

    /// The decks that have files in a folder, in any order, and when each file was last written; refused
    /// where there are more than 1,000.
    fn decks(&mut self, alloc: Global, folder: &str) -> io::Result<Vec<DeckEntry>>
        ensures told { TakesStep has_done self.old (Decks folder.now, holds_if result) self.new }
        ensures few { IfOk result (λ entries. length entries.items ≤ most_files) };
}
