//! A shelf over a folder.
ghost use Rattle.std.specs.Prelude.{◌≡◌, ◌⊎◌, ◌≤◌, length, IfOk, IfErr, OnErr, OnOk};
ghost use Rattle.deck_files.specs.DeckFiles.{file_of};
ghost use Rattle.deck_files.specs.FileSums.{sum_of};
ghost use Rattle.deck_files.specs.Folders.{deck_path};
ghost use Rattle.deck_files.specs.FolderLoads.{LoadFails, LoadsFile};
ghost use Rattle.deck_files.specs.FolderSaves.{IsAsideIf, IsUnkept, LeavesInPlace, PutsInPlace, SavesSo, second_of};
ghost use Rattle.deck_files.specs.KnownFiles.{known_as};
ghost use Rattle.deck_files.specs.Savings.{saving};
ghost use Rattle.deck_files.specs.TurnSaves.{FailsInTurn, SavesInTurn};
ghost use Rattle.deck_files.specs.Steps.{Done};

use crate::deck_places::DeckPlace;
use crate::deck_shelf::{SaveOver, Shelf, ShelfLoadFault, ShelfSaveFault};
use crate::file_rows::FileRow;
use crate::file_sums::FileSum;
use crate::folder_lists::{Within, list_files};
use crate::folder_loads::load_deck;
use crate::folder_saves::make_way;
use crate::folders::Folder;
use crate::known_files::{KnownFiles, Turns};
use crate::known_rows::Known;
use crate::load_fault::LoadFault;
use crate::loading::Loaded;
use crate::new_files::make_anew;
use crate::save_turns::{SaveTurns, Turn};
use crate::saving::save_file;
use crate::second_names::{Aside, settle};
use crate::system_folder::SystemFolder;
use cards::{Card, DeckName};
use std::alloc::Global;
use std::marker::Model;
use std::sync::Wait;

/// A shelf over a folder: deck NAME is the file `NAME.DECK` in it. No name leads out of the folder,
/// since a name has letters and digits alone.
///
/// A save makes the file anew. It writes a file of a name that no file has, `NAME.NEW` with the shelf's
/// number and that of a try behind it, also where another service writes in the folder. Once the folder
/// has kept all its bytes it takes the place of the deck's file, and the save waits until that is kept,
/// too. So who loads the deck meanwhile, or after the machine failed, finds the file that was there, or
/// the new one whole, with the mode and the owner that the old one had. Only a plain file is loaded or
/// written over. Saves are made one after the other, and the cards of an older version than one that was
/// saved are not written any more. A file is known that has just what a shelf of the folder's services saved, or
/// loaded for a desk that took it: it is read before it is written over. Any other is not written over but where
/// any may be; what stood there is `NAME.OLD` then, once the new one has its place.
///
/// Contracts see the folder, its text, the shelf's number, who knows the files, and what was loaded last: what is
/// loaded are the cards of the deck's file as the folder gave it, a save is the steps that it asked the folder for,
/// or none where a newer version is known, and what is known of a file is what was asked and noted. What a file of
/// the system has or takes no contract sees.
#[derive(Drop)]
pub struct FolderShelf<'a, R, F = SystemFolder<'a, R>, K = Turns<'a, R>> {
    rt: &'a R,
    alloc: Global,
    files: F,
    folder: &'a str,
    number: usize,
    known: &'a KnownFiles,
    /// What gives what is known, and notes it.
    turns: K,
    /// The newest version that was known of the deck loaded last, before its file was read.
    seen: Option<u64>,
    /// What that file had.
    loaded: Option<FileSum>,
}

impl<'a, R, F, K> Model for FolderShelf<'a, R, F, K> {
    ghost use Rattle.deck_files.specs.FolderShelves.{FolderShelf};

    ghost Value = { FolderShelf F K };

    ghost view = { λ s. record { files = s.files; folder = s.folder.now; number = s.number; turns = s.turns; seen = s.seen; loaded = s.loaded } };
}

impl<'a, R> FolderShelf<'a, R> {
    /// A shelf over this folder of the system, whether it is there or not; the empty text is the folder
    /// that the process runs in. The number is its own among the shelves of the folder, and the known
    /// files are those of them all.
    pub fn new(
        rt: &'a R,
        alloc: Global,
        folder: &'a str,
        number: usize,
        known: &'a KnownFiles,
    ) -> FolderShelf<'a, R>
        ensures folder { result.folder ≡ folder.now }
        ensures number { result.number ≡ number }
    {
        FolderShelf::over(SystemFolder::new(rt), rt, alloc, folder, number, known)
    }
}

impl<'a, R, F> FolderShelf<'a, R, F> {
    /// A shelf over a folder of any files.
    pub fn over(
        files: F,
        rt: &'a R,
        alloc: Global,
        folder: &'a str,
        number: usize,
        known: &'a KnownFiles,
    ) -> FolderShelf<'a, R, F>
        ensures files { result.files ≡ files }
        ensures folder { result.folder ≡ folder.now }
        ensures number { result.number ≡ number }
    {
        FolderShelf {
            rt,
            alloc,
            files,
            folder,
            number,
            known,
            turns: Turns::new(rt, known),
            seen: None,
            loaded: None,
        }
    }
}

/// Loads the cards of a deck's file, and gives the deck a place among the known ones: so its version can be
/// noted once the desk has taken the cards, and nothing is known before.
fn load_placed<F: Folder, K: SaveTurns>(
    files: &mut F,
    turns: &mut K,
    place: &DeckPlace<'_>,
    name: &DeckName,
) -> Result<Loaded, ShelfLoadFault>
    ensures cards { IfOk result (λ loaded. LoadsFile F.has_done (deck_path place.now) loaded.cards.items loaded.sum files.old files.new) }
    ensures placed { OnOk result (K.places turns.old name.now turns.new) }
    ensures fault { IfErr result (λ fault. LoadFails F.has_done place.now fault files.old files.new) }
    ensures unplaced { OnErr result ((turns.new ≡ turns.old) ⊎ K.lacks turns.old turns.new) }
{
    let loaded = match load_deck(files, place) {
        Ok(loaded) => loaded,
        Err(fault) => return Err(fault),
    };
    match turns.reserve(name) {
        Ok(()) => Ok(loaded),
        Err(_) => Err(ShelfLoadFault::BadFile(LoadFault::OutOfMemory)),
    }
}

/// A deck's file that was made anew: what it has, and the second name of what stood there, where it keeps one.
#[derive(Drop)]
struct Placed {
    sum: FileSum,
    aside: Option<Aside>,
}

/// Makes the file of a deck anew, where it may be written over; what stood there has a second name, where it
/// keeps one.
fn save_cards<F: Folder>(
    files: &mut F,
    place: &DeckPlace<'_>,
    over: SaveOver,
    known: Option<FileSum>,
    cards: &[Card],
) -> Result<Placed, ShelfSaveFault>
    requires { length cards.now ≤ 20000 }
    ensures sum { IfOk result (λ placed. placed.sum ≡ sum_of (file_of cards.now)) }
    ensures aside { IfOk result (λ placed. IsAsideIf place.now placed.aside) }
    ensures placed { IfOk result (λ placed. PutsInPlace F.has_done place.now over known (file_of cards.now) (second_of placed.aside) files.old files.new) }
    ensures fault { IfErr result (λ fault. LeavesInPlace F.has_done place.now over known (file_of cards.now) fault files.old files.new) }
{
    let Ok(deck) = place.deck_path() else {
        return Err(ShelfSaveFault::OutOfMemory);
    };
    let Ok(file) = save_file(place.alloc(), cards) else {
        return Err(ShelfSaveFault::OutOfMemory);
    };
    let keeps = match make_way(files, place, deck.as_str(), over, known) {
        Ok(keeps) => keeps,
        Err(fault) => return Err(fault),
    };
    let sum = FileSum::of(file.as_slice());
    match make_anew(files, place, deck.as_str(), file.as_slice(), keeps) {
        Ok(aside) => Ok(Placed { sum, aside }),
        Err(fault) => Err(fault),
    }
}

/// What is saved: the deck, with the cards that it had at this version, and what may be written over.
#[derive(Drop)]
struct Saved<'a> {
    name: &'a DeckName,
    over: SaveOver,
    version: u64,
    cards: &'a [Card],
}

/// Makes the file of a deck anew and notes what it has as soon as it has its place, also where what stood there
/// gets no other name or the folder is not kept then.
fn save_placed<F: Folder, K: SaveTurns>(
    files: &mut F,
    turns: &mut K,
    place: &DeckPlace<'_>,
    saved: &Saved<'_>,
    known: Option<FileSum>,
) -> Result<(), ShelfSaveFault>
    requires { length saved.now.cards.now ≤ 20000 }
    ensures saved { OnOk result (K.notes turns.old saved.now.name.now (known_as (file_of saved.now.cards.now) saved.now.version) turns.new
        × SavesSo F.has_done Done place.now saved.now.over known (file_of saved.now.cards.now) files.old files.new) }
    ensures fault { IfErr result (λ fault.
        ((turns.new ≡ turns.old) × LeavesInPlace F.has_done place.now saved.now.over known (file_of saved.now.cards.now) fault files.old files.new)
        ⊎ (K.notes turns.old saved.now.name.now (known_as (file_of saved.now.cards.now) saved.now.version) turns.new
        × IsUnkept F.has_done place.now saved.now.over known (file_of saved.now.cards.now) fault files.old files.new)) }
{
    let Placed { sum, aside } = match save_cards(files, place, saved.over, known, saved.cards) {
        Ok(placed) => placed,
        Err(fault) => return Err(fault),
    };
    let _ = turns.note(saved.name, sum, saved.version);
    settle(files, place, &aside)
}

/// Saves a deck in its turn: where a newer version was saved, nothing is written.
fn save_in_turn<F: Folder, K: SaveTurns>(
    files: &mut F,
    turns: &mut K,
    place: &DeckPlace<'_>,
    saved: &Saved<'_>,
) -> Result<(), ShelfSaveFault>
    requires { length saved.now.cards.now ≤ 20000 }
    ensures saved { OnOk result (SavesInTurn K.turns K.lacks K.notes F.has_done place.now (saving saved.now.name.now saved.now.over saved.now.version saved.now.cards.now) turns.old turns.new files.old files.new) }
    ensures fault { IfErr result (λ fault. FailsInTurn K.turns K.lacks K.notes F.has_done place.now (saving saved.now.name.now saved.now.over saved.now.version saved.now.cards.now) fault turns.old turns.new files.old files.new) }
{
    match turns.begin(saved.name, saved.version) {
        Ok(Turn::Newer(_)) => Ok(()),
        Ok(Turn::Older(known)) => save_placed(files, turns, place, saved, known),
        Err(_) => Err(ShelfSaveFault::OutOfMemory),
    }
}

impl<'a, R: Wait, F: Folder, K: SaveTurns> Shelf for FolderShelf<'a, R, F, K> {
    ghost use Rattle.deck_files.specs.FolderShelves.{ListsDecks, LoadsDeck, LoadsNoDeck, NotesDeck, SavesDeck, SavesNoDeck, TellsSaved};

    ghost relations = { record {
      loads = LoadsDeck F.has_done K.tells_newest K.places;
      refuses_to_load = LoadsNoDeck F.has_done K.tells_newest K.lacks;
      saves = SavesDeck F.has_done K.turns K.lacks K.notes;
      refuses_to_save = SavesNoDeck F.has_done K.turns K.lacks K.notes;
      lists = ListsDecks F.has_done;
      notes = NotesDeck K.notes_loaded;
      tells_saved = TellsSaved K.shows_saved;
    } };

    fn load(&mut self, name: &DeckName) -> Result<Vec<Card>, ShelfLoadFault> {
        self.loaded = None;
        let Some(place) = DeckPlace::new(self.alloc, self.folder, self.number, name) else {
            return Err(ShelfLoadFault::CannotOpen);
        };
        self.seen = self.turns.newest(name);
        match load_placed(&mut self.files, &mut self.turns, &place, name) {
            Ok(loaded) => {
                self.loaded = Some(loaded.sum);
                Ok(loaded.cards)
            }
            Err(fault) => Err(fault),
        }
    }

    fn save(
        &mut self,
        name: &DeckName,
        over: SaveOver,
        version: u64,
        cards: &[Card],
    ) -> Result<(), ShelfSaveFault> {
        let Some(place) = DeckPlace::new(self.alloc, self.folder, self.number, name) else {
            return Err(ShelfSaveFault::CannotOpen);
        };
        let saved = Saved {
            name,
            over,
            version,
            cards,
        };
        let _turn = self.known.saving().lock(self.rt);
        save_in_turn(&mut self.files, &mut self.turns, &place, &saved)
    }

    fn list(&mut self) -> Result<Vec<FileRow>, ShelfLoadFault> {
        let within = Within {
            alloc: self.alloc,
            folder: self.folder,
            number: self.number,
        };
        list_files(&mut self.files, &within)
    }

    fn note(&mut self, name: &DeckName, version: u64) {
        if let Some(sum) = self.loaded {
            let version = Some(version);
            self.turns
                .note_loaded(name, self.seen, Known { sum, version });
        }
    }

    fn is_saved(&mut self, name: &DeckName, version: u64) -> bool {
        self.turns.saved(name, version).is_some()
    }
}
