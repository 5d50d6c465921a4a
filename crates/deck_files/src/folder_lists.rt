//! Lists the files of decks in a folder: how many cards each has, in the order of their names.
ghost use Rattle.std.specs.Prelude.{◌≡◌, ◌≤◌, ◌+◌, ℕ, Option, length, IfOk, IfErr, OnOk, OnErr};
ghost use Rattle.deck_files.specs.FileRows.{most_files, row_of, with_row};
ghost use Rattle.deck_files.specs.FolderLists.{Counts, ListFails, ListsFiles, ReadsRows, StopsAt, StopsWithin, is_lacking};
ghost use Rattle.deck_files.specs.FolderLoads.{LoadFails};
ghost use Rattle.deck_files.specs.Folders.{place};

use crate::deck_places::{DeckPlace, path_of};
use crate::deck_shelf::ShelfLoadFault;
use crate::file_rows::{DeckEntry, FileRow, put_row};
use crate::folder_loads::{load_deck, load_fault};
use crate::folders::Folder;
use crate::load_fault::LoadFault;
use cards::DeckName;
use std::alloc::{AllocError, Global};

/// Where the files are, and the number of the shelf.
#[derive(Drop)]
pub(crate) struct Within<'a> {
    pub(crate) alloc: Global,
    pub(crate) folder: &'a str,
    pub(crate) number: usize,
}

/// How many cards the file of a deck has, none where it is not loaded.
fn count_cards<F: Folder>(
    files: &mut F,
    within: &Within<'_>,
    name: &DeckName,
) -> Result<Option<usize>, AllocError>
    ensures count { IfOk result (λ count. Counts F.has_done (place within.now.folder.now name.now within.now.number) count files.old files.new) }
    ensures lacking { OnErr result (LoadFails F.has_done (place within.now.folder.now name.now within.now.number) is_lacking files.old files.new) }
{
    let place = DeckPlace::new(within.alloc, within.folder, within.number, name);
    let Some(place) = place else {
        return Ok(None);
    };
    match load_deck(files, &place) {
        Ok(loaded) => Ok(Some(loaded.cards.len())),
        Err(ShelfLoadFault::BadFile(LoadFault::OutOfMemory)) => Err(AllocError),
        Err(_) => Ok(None),
    }
}

/// Reads the file of a deck, and puts its row in its place.
fn add_row<F: Folder>(
    files: &mut F,
    within: &Within<'_>,
    entry: &DeckEntry,
    rows: &mut Vec<FileRow>,
) -> Result<(), AllocError>
    ensures row { OnOk result ((count : Option ℕ) × Counts F.has_done (place within.now.folder.now entry.now.name within.now.number) count files.old files.new
        × (rows.new.items ≡ with_row (row_of entry.now count) rows.old.items)) }
    ensures longer { OnOk result (length rows.new.items ≡ length rows.old.items + 1) }
    ensures lacking { OnErr result (StopsAt F.has_done (place within.now.folder.now entry.now.name within.now.number) files.old files.new) }
{
    let cards = match count_cards(files, within, &entry.name) {
        Ok(cards) => cards,
        Err(fault) => return Err(fault),
    };
    let row = FileRow {
        name: entry.name.copied(),
        cards,
        written: entry.written.copied(),
    };
    put_row(rows, row)
}

/// Reads the files of decks one after the other.
fn read_rows<F: Folder>(
    files: &mut F,
    within: &Within<'_>,
    entries: &[DeckEntry],
) -> Result<Vec<FileRow>, AllocError>
    requires { length entries.now ≤ most_files }
    ensures rows { IfOk result (λ rows. ReadsRows F.has_done within.now.folder.now within.now.number files.old entries.now rows.items files.new) }
    ensures few { IfOk result (λ rows. length rows.items ≤ most_files) }
    ensures lacking { OnErr result (StopsWithin F.has_done within.now.folder.now within.now.number files.old files.new) }
{
    let mut rows = Vec::new(within.alloc);
    for entry in entries {
        if let Err(fault) = add_row(files, within, entry, &mut rows) {
            return Err(fault);
        }
    }
    Ok(rows)
}

/// The rows of the files of decks in a folder.
pub(crate) fn list_files<F: Folder>(
    files: &mut F,
    within: &Within<'_>,
) -> Result<Vec<FileRow>, ShelfLoadFault>
    ensures rows { IfOk result (λ rows. ListsFiles F.has_done within.now.folder.now within.now.number rows.items files.old files.new) }
    ensures few { IfOk result (λ rows. length rows.items ≤ most_files) }
    ensures fault { IfErr result (λ fault. ListFails F.has_done within.now.folder.now within.now.number fault files.old files.new) }
{
    let entries = match files.decks(within.alloc, path_of(within.folder)) {
        Ok(entries) => entries,
        Err(error) => return Err(load_fault(error.kind())),
    };
    match read_rows(files, within, &entries) {
        Ok(rows) => Ok(rows),
        Err(_) => Err(ShelfLoadFault::BadFile(LoadFault::OutOfMemory)),
    }
}
