//! A shelf in memory.
ghost use Rattle.std.specs.Prelude.{◌≡◌, ◌≤◌, [], length, Ok, OnOk, IfOk, IfErr, OnErr};
ghost use Rattle.std.specs.Option.{option_map};
ghost use Rattle.deck_files.specs.DeckFiles.{cards_of_file, file_of};
ghost use Rattle.deck_files.specs.Loads.{FaultsSo};
ghost use Rattle.desk_tests.specs.MemoryFiles.{bytes_of, kept_file, version_of};
ghost use Rattle.deck_files.specs.Files.{named, with_named};

use cards::{Card, DeckName};
use deck_files::{
    FileRow, LoadFault, SaveOver, Shelf, ShelfLoadFault, ShelfSaveFault, is_at, load, save_file,
};
use indexmap::IndexMap;
use std::alloc::{AllocError, Global};
use std::hash::RandomState;
use std::marker::Model;
use text_ports::Counted;

/// A file, and the version of the deck whose cards it has, 0 where none is known.
#[derive(Drop)]
struct MemoryFile {
    bytes: Vec<u8>,
    version: u64,
}

/// Files in memory, each under the name of its deck; a save writes over any. Contracts see the list of names
/// and files, each with the version of the deck whose cards it has.
#[derive(Drop)]
pub struct MemoryShelf {
    alloc: Global,
    files: IndexMap<Vec<u8>, MemoryFile, RandomState>,
}

impl Model for MemoryShelf {
    ghost use Rattle.std.specs.Prelude.{map, vec_items};
    ghost use Rattle.desk_tests.specs.MemoryFiles.{Files, kept_file};

    ghost Value = { Files };

    ghost view = { λ s. map (λ e. (vec_items e.0, kept_file e.1.bytes.items e.1.version)) s.files.entries };
}

impl MemoryShelf {
    /// A shelf without files, whose table is kept by these keys.
    pub fn new(alloc: Global, keys: RandomState) -> MemoryShelf
        ensures { result ≡ [] }
    {
        MemoryShelf {
            alloc,
            files: IndexMap::with_hasher(alloc, keys),
        }
    }

    /// Puts a file under the name of a deck, with the cards of this version.
    fn put_at(&mut self, name: &DeckName, bytes: Vec<u8>, version: u64) -> Result<(), AllocError>
        ensures put { OnOk result (self.new ≡ with_named name.now (kept_file bytes.items version) self.old) }
        ensures unchanged { OnErr result (self.new ≡ self.old) }
    {
        let key = Vec::from_slice(self.alloc, name.as_slice())?;
        self.files.insert(key, MemoryFile { bytes, version })?;
        Ok(())
    }

    /// Puts a file under the name of a deck, whatever its bytes are.
    pub fn put(&mut self, name: &DeckName, file: Vec<u8>) -> Result<(), AllocError>
        ensures put { OnOk result (self.new ≡ with_named name.now (kept_file file.items 0) self.old) }
        ensures unchanged { OnErr result (self.new ≡ self.old) }
    {
        self.put_at(name, file, 0)
    }

    /// The file under the name of a deck.
    pub fn file(&self, name: &DeckName) -> Option<&[u8]>
        ensures { option_map (λ file. file.now) result ≡ bytes_of (named name.now self.now) }
    {
        match self.files.get(name.as_slice()) {
            Some(file) => Some(file.bytes.as_slice()),
            None => None,
        }
    }

    /// The version of the deck whose cards its file has, where there is one.
    fn version(&self, name: &DeckName) -> Option<u64>
        ensures { result ≡ version_of (named name.now self.now) }
    {
        match self.files.get(name.as_slice()) {
            Some(file) => Some(file.version),
            None => None,
        }
    }
}

/// The cards of a file in memory.
fn load_file(alloc: Global, file: &[u8]) -> Result<Vec<Card>, LoadFault>
    ensures cards { IfOk result (λ cards. cards_of_file file.now ≡ Ok cards.items) }
    ensures fault { IfErr result (λ fault. FaultsSo fault file.now) }
{
    load(alloc, &mut Counted::new(file))
}

impl Shelf for MemoryShelf {
    ghost use Rattle.desk_tests.specs.MemoryFiles.{LoadsFrom, LoadsNotFrom, after_note, bytes_of, version_of};
    ghost use Rattle.deck_files.specs.KnownFiles.{is_at};
    ghost use Rattle.std.specs.Prelude.{Err};
    ghost use Rattle.deck_files.specs.declared.deck_shelf.ShelfLoadFault.TheVariants.{CannotOpen};
    ghost use Rattle.deck_files.specs.declared.deck_shelf.ShelfSaveFault.TheVariants.{OutOfMemory};

    ghost relations = { record {
      loads = λ old name cards new. (new ≡ old) × LoadsFrom (bytes_of (named name old)) cards;
      refuses_to_load = λ old name fault new. (new ≡ old) × LoadsNotFrom (bytes_of (named name old)) fault;
      saves = λ old saving new. new ≡ with_named saving.name (kept_file (file_of saving.cards) saving.version) old;
      refuses_to_save = λ old saving fault new. (new ≡ old) × (fault ≡ OutOfMemory);
      lists = λ old listed new. (new ≡ old) × (listed ≡ Err CannotOpen);
      notes = λ old name version new. new ≡ after_note name version old;
      tells_saved = λ old name version saved new. (new ≡ old) × (saved ≡ is_at version (version_of (named name old)));
    } };

    fn load(&mut self, name: &DeckName) -> Result<Vec<Card>, ShelfLoadFault> {
        let Some(file) = self.file(name) else {
            return Err(ShelfLoadFault::CannotOpen);
        };
        match load_file(self.alloc, file) {
            Ok(cards) => Ok(cards),
            Err(fault) => Err(ShelfLoadFault::BadFile(fault)),
        }
    }

    fn save(
        &mut self,
        name: &DeckName,
        _over: SaveOver,
        version: u64,
        cards: &[Card],
    ) -> Result<(), ShelfSaveFault> {
        let Ok(file) = save_file(self.alloc, cards) else {
            return Err(ShelfSaveFault::OutOfMemory);
        };
        match self.put_at(name, file, version) {
            Ok(()) => Ok(()),
            Err(_) => Err(ShelfSaveFault::OutOfMemory),
        }
    }

    /// There is no folder that could be read.
    fn list(&mut self) -> Result<Vec<FileRow>, ShelfLoadFault> {
        Err(ShelfLoadFault::CannotOpen)
    }

    fn note(&mut self, name: &DeckName, version: u64) {
        let Some(file) = self.files.get_mut(name.as_slice()) else {
            return;
        };
        file.version = version;
    }

    fn is_saved(&mut self, name: &DeckName, version: u64) -> bool {
        is_at(version, self.version(name))
    }
}
