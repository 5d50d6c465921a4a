//! What a service knows of the files of a folder: what each has, and the newest version of its deck.
ghost use Rattle.std.specs.Prelude.{◌≡◌, ◌≤◌, ℕ, List, Option, Some, [], true, IfOk, IfSome, OnErr, OnOk};
ghost use Rattle.deck_files.specs.Files.{named, with_named};
ghost use Rattle.deck_files.specs.KnownFiles.{IsNewer, IsSaved, after_note, after_place, after_save, file_known, has_place, is_at, is_same, is_still, known_up_to, newer_saved, saved_of, sum_at, version_at, version_known};
ghost use Rattle.deck_files.specs.SavedVersions.{saved_version};
ghost use Rattle.deck_files.specs.KnownTexts.{rows_text};

use crate::file_sums::FileSum;
use crate::known_texts::push_known;
use cards::DeckName;
use indexmap::IndexMap;
use std::alloc::{AllocError, Global};
use std::hash::RandomState;
use std::marker::Model;
use text_ports::Text;

/// What is known of a deck's file: what it has, and the version of the deck whose cards these are, where that
/// is known.
#[derive(Clone, Copy)]
pub struct Known {
    pub(crate) sum: FileSum,
    pub(crate) version: Option<u64>,
}

impl Known {
    /// The same for a desk that goes on behind a version: a greater one is not known.
    pub(crate) fn up_to(self, last: u64) -> Known
        ensures { result ≡ known_up_to last self }
    {
        let version = match self.version {
            Some(version) if version <= last => Some(version),
            _ => None,
        };
        Known {
            sum: self.sum,
            version,
        }
    }
}

/// Shows that a version of a deck was saved, or given by the desk to what was loaded. Only what is known of the
/// files of a folder gives it: where it was told so.
#[derive(Drop)]
pub struct SavedVersion {
    name: DeckName,
    version: u64,
}

impl Model for SavedVersion {
    ghost use Rattle.deck_files.specs.KnownFiles.{IsSaved};
    ghost use Rattle.deck_files.specs.SavedVersions as saved;

    ghost Value = { saved.SavedVersion };

    ghost view = { λ s. record { name = s.name; version = s.version } };

    ghost invariant = { λ s. IsSaved s.name s.version };
}

impl SavedVersion {
    fn of(name: &DeckName, version: u64) -> SavedVersion
        requires { IsSaved name.now version }
        ensures { result ≡ saved_version name.now version }
    {
        SavedVersion {
            name: name.copied(),
            version,
        }
    }
}

/// The decks whose files in a folder are known, since they were saved or the desk took what was loaded, with
/// what each file has and the newest version of the deck; and those that have a place only, since their files
/// were loaded, or are being saved, and the desk was not asked yet, or refused. The versions of one desk grow,
/// also where a deck was dropped and added again. Contracts see the list of names and what is known, and for
/// how many more memory is there.
#[derive(Drop)]
pub(crate) struct KnownRows {
    alloc: Global,
    files: IndexMap<Vec<u8>, Option<Known>, RandomState>,
}

impl Model for KnownRows {
    ghost use Rattle.std.specs.Prelude.{map, vec_items};
    ghost use Rattle.indexmap.specs.IndexMap.{spare};
    ghost use Rattle.deck_files.specs.KnownFiles.{KnownRows};

    ghost Value = { KnownRows };

    ghost view = { λ s. record { files = map (λ e. (vec_items e.0, e.1)) s.files.entries; room = spare s.files } };
}

/// Whether this is the version that is known.
pub fn is_at(version: u64, known: Option<u64>) -> bool
    ensures { result ≡ is_at version known }
{
    match known {
        Some(known) => known == version,
        None => false,
    }
}

/// Whether the version that is known, if one is, is the one that was seen before.
fn is_same(seen: Option<u64>, known: Option<u64>) -> bool
    ensures { result ≡ is_same seen known }
{
    match known {
        Some(version) => is_at(version, seen),
        None => seen.is_none(),
    }
}

/// The version of the deck, where it is known.
fn version_at(known: Option<Known>) -> Option<u64>
    ensures { result ≡ version_at known }
{
    match known {
        Some(known) => known.version,
        None => None,
    }
}

/// What the file has, where it is known.
fn sum_at(known: Option<Known>) -> Option<FileSum>
    ensures { result ≡ sum_at known }
{
    match known {
        Some(known) => Some(known.sum),
        None => None,
    }
}

/// Whether a deck has a place, and the version that is known there is the one that was seen before.
fn is_still(seen: Option<u64>, place: Option<Option<Known>>) -> bool
    ensures { result ≡ is_still seen place }
{
    match place {
        Some(known) => is_same(seen, version_at(known)),
        None => false,
    }
}

impl KnownRows {
    /// No file is known.
    pub(crate) fn new(alloc: Global, keys: RandomState) -> KnownRows
        ensures { result.files ≡ [] }
    {
        KnownRows {
            alloc,
            files: IndexMap::with_hasher(alloc, keys),
        }
    }

    /// The place of the deck, if it has one, with what is known.
    fn place(&self, name: &DeckName) -> Option<Option<Known>>
        ensures { result ≡ named name.now self.now.files }
    {
        match self.files.get(name.as_slice()) {
            Some(known) => Some(*known),
            None => None,
        }
    }

    /// What is known of the deck's file.
    fn known(&self, name: &DeckName) -> Option<Known>
        ensures { result ≡ file_known name.now self.now.files }
    {
        match self.place(name) {
            Some(known) => known,
            None => None,
        }
    }

    /// The newest version of the deck whose cards its file has, none where it is not known.
    pub(crate) fn known_version(&self, name: &DeckName) -> Option<u64>
        ensures { result ≡ version_known name.now self.now.files }
    {
        version_at(self.known(name))
    }

    /// The newest version of the deck that was saved, where it is newer than this one.
    pub(crate) fn newer(&self, name: &DeckName, version: u64) -> Option<SavedVersion>
        ensures saved { result ≡ newer_saved name.now version (version_known name.now self.now.files) }
        ensures newer { IfSome result (IsNewer name.now version) }
    {
        match self.known_version(name) {
            Some(saved) if version < saved => Some(SavedVersion::of(name, saved)),
            _ => None,
        }
    }

    /// What the deck's file has, where it is known.
    pub(crate) fn known_sum(&self, name: &DeckName) -> Option<FileSum>
        ensures { result ≡ sum_at (file_known name.now self.now.files) }
    {
        sum_at(self.known(name))
    }

    /// This version of the deck, where it is the one that is known.
    pub(crate) fn saved_at(&self, name: &DeckName, version: u64) -> Option<SavedVersion>
        ensures saved { result ≡ saved_of name.now version self.now.files }
        ensures shown { IfSome result (λ shown. shown ≡ saved_version name.now version) }
    {
        match self.known_version(name) {
            Some(saved) if saved == version => Some(SavedVersion::of(name, version)),
            _ => None,
        }
    }

    /// A key for the deck, with memory for one file more.
    fn make_room(&mut self, name: &DeckName) -> Result<Vec<u8>, AllocError>
        ensures key { IfOk result (λ key. key.items ≡ name.now) }
        ensures room { OnOk result (1 ≤ self.new.room) }
        ensures unchanged { self.new.files ≡ self.old.files }
    {
        let key = Vec::from_slice(self.alloc, name.as_slice())?;
        self.files.reserve(1)?;
        Ok(key)
    }

    /// Puts what is known under a key.
    fn insert(&mut self, key: Vec<u8>, known: Option<Known>)
        requires { 1 ≤ self.old.room }
        ensures { self.new.files ≡ with_named key.items known self.old.files }
    {
        match self.files.insert(key, known) {
            Ok(_) => {}
            Err(_) => unreachable!(),
        }
    }

    /// Puts what was kept of the deck's file.
    pub(crate) fn add(&mut self, name: &DeckName, known: Known) -> Result<(), AllocError>
        ensures added { OnOk result (self.new.files ≡ with_named name.now (Some known) self.old.files) }
        ensures unchanged { OnErr result (self.new.files ≡ self.old.files) }
    {
        let key = self.make_room(name)?;
        self.insert(key, Some(known));
        Ok(())
    }

    /// Gives the deck a place, so that what is known can be noted without memory. Nothing is known by it.
    pub(crate) fn make_place(&mut self, name: &DeckName) -> Result<(), AllocError>
        ensures placed { OnOk result (self.new.files ≡ after_place name.now self.old.files) }
        ensures unchanged { OnErr result (self.new.files ≡ self.old.files) }
    {
        if self.place(name).is_some() {
            return Ok(());
        }
        let key = self.make_room(name)?;
        self.insert(key, None);
        Ok(())
    }

    /// Puts what is known for a deck that has a place.
    fn put(&mut self, name: &DeckName, known: Known)
        requires { has_place name.now self.old.files ≡ true }
        ensures { self.new.files ≡ with_named name.now (Some known) self.old.files }
    {
        let Some(place) = self.files.get_mut(name.as_slice()) else {
            return;
        };
        *place = Some(known);
    }

    /// Notes what the file of a deck has, if the deck has a place: this version was saved.
    pub(crate) fn note_saved(&mut self, name: &DeckName, sum: FileSum, version: u64) -> SavedVersion
        ensures noted { self.new.files ≡ after_save name.now (record { sum = sum; version = Some version }) self.old.files }
        ensures shown { result ≡ saved_version name.now version }
    {
        if self.place(name).is_some() {
            let version = Some(version);
            self.put(name, Known { sum, version });
        }
        SavedVersion::of(name, version)
    }

    /// Notes what was loaded, if the version that is known is the one that was seen before.
    pub(crate) fn note_seen(&mut self, name: &DeckName, seen: Option<u64>, known: Known)
        ensures { self.new.files ≡ after_note name.now seen known self.old.files }
    {
        if is_still(seen, self.place(name)) {
            self.put(name, known);
        }
    }

    /// All that is known, as text: a row for each file, in the order in which they came to be known.
    pub(crate) fn text(&self) -> Result<Text, AllocError>
        ensures { IfOk result (λ text. text ≡ rows_text self.now.files) }
    {
        let mut text = Text::new(self.alloc);
        for (name, known) in self.files.iter() {
            push_known(self.alloc, &mut text, name, *known)?;
        }
        Ok(text)
    }
}
