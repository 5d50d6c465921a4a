//! Shelves: where the decks of a desk are kept as files.

use crate::file_rows::FileRow;
use crate::load_fault::LoadFault;
use cards::{Card, DeckName};
use thiserror::Error;

/// Why a deck was not loaded from a shelf.
#[derive(Clone, Copy, Debug, Error)]
pub enum ShelfLoadFault {
    /// The deck's file is not there, or does not open.
    #[error("the deck's file is not there, or does not open")]
    CannotOpen,
    /// The file is not read as cards.
    #[error(transparent)]
    BadFile(LoadFault),
}

/// What a save may write over.
#[derive(Clone, Copy, Debug)]
pub enum SaveOver {
    /// A file that has just what was saved on this shelf, or was loaded and its version noted.
    Known,
    /// Any file.
    Any,
}

/// Why a deck was not saved on a shelf.
#[derive(Clone, Copy, Debug, Error)]
pub enum ShelfSaveFault {
    /// The deck's file can't be made.
    #[error("the deck's file can't be made")]
    CannotOpen,
    /// A file stands there that is not known: it has something else than what was saved on this shelf, or loaded
    /// and its version noted.
    #[error("a file stands there that is not known")]
    FileExists,
    /// The writer failed when it had taken `sent` bytes.
    #[error("the write failed behind {sent} bytes")]
    WriteFault { sent: usize },
    /// No memory was left.
    #[error("no memory was left")]
    OutOfMemory,
}

/// Where decks are kept, each as a file under its name. The relations say what one call makes of the
/// shelf: which shelf it finds and leaves, and what it answers.
pub trait Shelf {
    ghost use Rattle.std.specs.Prelude.{Ok, Err};
    ghost use Rattle.deck_files.specs.FileRows.{most_files};
    ghost use Rattle.deck_files.specs.Savings.{saving};
    ghost use Rattle.deck_files.specs.ShelfRelations.{ShelfRelations};
    ghost use Rattle.std.specs.Prelude.{◌≤◌, length, IfOk, OnOk, IfErr};

    ghost relations: { ShelfRelations Self };

    /// Loads the deck with this name. The file is known once its version is noted, and not before.
    fn load(&mut self, name: &DeckName) -> Result<Vec<Card>, ShelfLoadFault>
        ensures cards { IfOk result (λ cards. relations.loads self.old name.now cards.items self.new) }
        ensures fault { IfErr result (λ fault. relations.refuses_to_load self.old name.now fault self.new) };

    /// Saves the deck of this name, with the cards that it had at this version, in place of what stood
    /// there, if it may be written over. Where others save on the shelf too, an older version never takes
    /// the place of a newer.
    fn save(
        &mut self,
        name: &DeckName,
        over: SaveOver,
        version: u64,
        cards: &[Card],
    ) -> Result<(), ShelfSaveFault>
        requires { length cards.now ≤ 20000 }
        ensures saved { OnOk result (relations.saves self.old (saving name.now over version cards.now) self.new) }
        ensures fault { IfErr result (λ fault. relations.refuses_to_save self.old (saving name.now over version cards.now) fault self.new) };

    /// The files of decks that are there, in the order of their names.
    fn list(&mut self) -> Result<Vec<FileRow>, ShelfLoadFault>
        ensures rows { IfOk result (λ rows. relations.lists self.old (Ok rows.items) self.new) }
        ensures few { IfOk result (λ rows. length rows.items ≤ most_files) }
        ensures fault { IfErr result (λ fault. relations.lists self.old (Err fault) self.new) };

    /// The deck of this name, the last that was loaded here, has this version on the desk.
    fn note(&mut self, name: &DeckName, version: u64)
        ensures { relations.notes self.old name.now version self.new };

    /// Whether the deck's file has the cards of this version, by what was loaded and saved here.
    fn is_saved(&mut self, name: &DeckName, version: u64) -> bool
        ensures { relations.tells_saved self.old name.now version result self.new };
}
