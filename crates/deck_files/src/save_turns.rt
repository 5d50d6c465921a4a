//! What a shelf asks of those who know the files of a folder.

use crate::file_sums::FileSum;
use crate::known_rows::{Known, KnownRows, SavedVersion};
use cards::DeckName;
use std::alloc::AllocError;

/// What a save may do in its turn.
#[derive(Drop)]
pub enum Turn {
    /// A newer version was saved, this one: nothing is to be written.
    Newer(SavedVersion),
    /// The file may be made anew; this is known of the one that is there.
    Older(Option<FileSum>),
}

/// Who knows the files of a folder. The members say what each call makes of what is known, and what it may answer.
pub trait SaveTurns {
    ghost use Rattle.std.specs.Prelude.{ℕ, ◌≡◌, List, Option, Some, IfOk, IfSome, OnErr, OnOk};
    ghost use Rattle.deck_files.specs.declared.known_rows.Known.{Known as KnownFile};
    ghost use Rattle.deck_files.specs.declared.save_turns.Turn.{Turn as TurnIs};
    ghost use Rattle.deck_files.specs.SaveTurns.{IsTurnFor};
    ghost use Rattle.deck_files.specs.SavedVersions.{SavedVersion as SavedIs, saved_version};

    // Before, the name and the version, what the save may do, and after.
    ghost turns: { Self → List ℕ → ℕ → TurnIs → Self → Type 0 };

    // Before, and after where no memory was left.
    ghost lacks: { Self → Self → Type 0 };

    // Before, the name, what its file has now, and after.
    ghost notes: { Self → List ℕ → KnownFile → Self → Type 0 };

    // Before, the name, the newest version that is known of it, and after.
    ghost tells_newest: { Self → List ℕ → Option ℕ → Self → Type 0 };

    // Before, the name that gets a place, and after.
    ghost places: { Self → List ℕ → Self → Type 0 };

    // Before, the name, the version that was seen before its file was read, what the file has with the version
    // that the desk gave to it, and after.
    ghost notes_loaded: { Self → List ℕ → Option ℕ → KnownFile → Self → Type 0 };

    // Before, the name, the version, what shows that the file has its cards, and after.
    ghost shows_saved: { Self → List ℕ → ℕ → Option SavedIs → Self → Type 0 };

    /// What a save of this version may do, and a place for the deck, so that what it does can be noted without
    /// memory.
    fn begin(&mut self, name: &DeckName, version: u64) -> Result<Turn, AllocError>
        ensures turn { IfOk result (λ turn. turns self.old name.now version turn self.new) }
        ensures newer { IfOk result (IsTurnFor name.now version) }
        ensures lacking { OnErr result (lacks self.old self.new) };

    /// Notes what the deck's file has, and its version, as soon as it has its place. The version comes back as
    /// one that was noted.
    fn note(&mut self, name: &DeckName, sum: FileSum, version: u64) -> SavedVersion
        ensures noted { notes self.old name.now (record { sum = sum; version = Some version }) self.new }
        ensures shown { result ≡ saved_version name.now version };

    /// The newest version of the deck whose cards its file has, none where it is not known.
    fn newest(&mut self, name: &DeckName) -> Option<u64>
        ensures { tells_newest self.old name.now result self.new };

    /// Gives the deck a place, so that its version can be noted without memory. Nothing is known by it.
    fn reserve(&mut self, name: &DeckName) -> Result<(), AllocError>
        ensures placed { OnOk result (places self.old name.now self.new) }
        ensures lacking { OnErr result (lacks self.old self.new) };

    /// Notes the version that the desk gave to what was loaded, where the version that is known is the one that
    /// was seen before the file was read.
    fn note_loaded(&mut self, name: &DeckName, seen: Option<u64>, known: Known)
        ensures { notes_loaded self.old name.now seen known self.new };

    /// This version of the deck, where its file has the cards of it.
    fn saved(&mut self, name: &DeckName, version: u64) -> Option<SavedVersion>
        ensures saved { shows_saved self.old name.now version result self.new }
        ensures shown { IfSome result (λ shown. shown ≡ saved_version name.now version) };
}

impl SaveTurns for KnownRows {
    ghost use Rattle.std.specs.Prelude.{◌≡◌};
    ghost use Rattle.deck_files.specs.KnownFiles.{after_note, after_place, after_save, saved_of, version_known};
    ghost use Rattle.deck_files.specs.SaveTurns.{turn_of};

    ghost turns = { λ old name version turn new. (turn ≡ turn_of name version old.files) × (new.files ≡ after_place name old.files) };

    ghost lacks = { λ old new. new.files ≡ old.files };

    ghost notes = { λ old name known new. new.files ≡ after_save name known old.files };

    ghost tells_newest = { λ old name seen new. (new ≡ old) × (seen ≡ version_known name old.files) };

    ghost places = { λ old name new. new.files ≡ after_place name old.files };

    ghost notes_loaded = { λ old name seen known new. new.files ≡ after_note name seen known old.files };

    ghost shows_saved = { λ old name version shown new. (new ≡ old) × (shown ≡ saved_of name version old.files) };

    fn begin(&mut self, name: &DeckName, version: u64) -> Result<Turn, AllocError> {
        let turn = match self.newer(name, version) {
            Some(newer) => Turn::Newer(newer),
            None => Turn::Older(self.known_sum(name)),
        };
        self.make_place(name)?;
        Ok(turn)
    }

    fn note(&mut self, name: &DeckName, sum: FileSum, version: u64) -> SavedVersion {
        self.note_saved(name, sum, version)
    }

    fn newest(&mut self, name: &DeckName) -> Option<u64> {
        self.known_version(name)
    }

    fn reserve(&mut self, name: &DeckName) -> Result<(), AllocError> {
        self.make_place(name)
    }

    fn note_loaded(&mut self, name: &DeckName, seen: Option<u64>, known: Known) {
        self.note_seen(name, seen, known);
    }

    fn saved(&mut self, name: &DeckName, version: u64) -> Option<SavedVersion> {
        self.saved_at(name, version)
    }
}
