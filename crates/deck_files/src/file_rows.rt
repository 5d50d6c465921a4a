//! Which decks have files in a folder, and the row of each, in the order of their names.
ghost use Rattle.std.specs.Prelude.{◌≡◌, ◌≤◌, ◌+◌, OnOk, length, position};
ghost use Rattle.deck_files.specs.FileRows.{deck_in, deck_named, is_before, place_in, with_row};

use cards::DeckName;
use definitions::is_same_text;
use moments::Moment;
use std::alloc::AllocError;

/// How many files of decks are listed at most.
pub const MOST_FILES: usize = 1_000;

/// A deck that has a file, and when that was last written.
#[derive(Drop)]
pub struct DeckEntry {
    pub name: DeckName,
    pub written: Moment,
}

/// The file of a deck: how many cards it has, none where it is not read as cards, and when it was last
/// written.
#[derive(Drop)]
pub struct FileRow {
    pub name: DeckName,
    pub cards: Option<usize>,
    pub written: Moment,
}

/// The deck that is named so, if a deck may be.
pub(crate) fn deck_named(stem: &[u8]) -> Option<DeckName>
    ensures { result ≡ deck_named stem.now }
{
    match DeckName::read(stem) {
        Ok(name) => Some(name),
        Err(_) => None,
    }
}

/// The deck whose file has this name, if it is one's: `NAME.DECK`.
pub(crate) fn deck_in(file: &[u8]) -> Option<DeckName>
    ensures { result ≡ deck_in file.now }
{
    let (stem, ending) = file.split_at(file.len().saturating_sub(5));
    if is_same_text(ending, b".DECK") {
        deck_named(stem)
    } else {
        None
    }
}

/// Whether a name comes before another, byte by byte.
fn is_before(name: &[u8], other: &[u8]) -> bool
    ensures { result ≡ is_before name.now other.now }
{
    name.cmp(other).is_lt()
}

/// The first row that comes behind a name.
fn first_behind(name: &[u8], rows: &[FileRow]) -> Option<usize>
    ensures { result ≡ position (λ row. is_before name.now row.name) rows.now }
{
    rows.iter()
        .position(|row| is_before(name, row.name.as_slice()))
}

/// Where a row of this name stands among others.
fn place_in(name: &[u8], rows: &[FileRow]) -> usize
    ensures place { result ≡ place_in name.now rows.now }
    ensures inside { result ≤ length rows.now }
{
    match first_behind(name, rows) {
        Some(place) => place,
        None => rows.len(),
    }
}

/// Puts a row in its place by name, where there is memory.
pub(crate) fn put_row(rows: &mut Vec<FileRow>, row: FileRow) -> Result<(), AllocError>
    ensures put { OnOk result (rows.new.items ≡ with_row row rows.old.items) }
    ensures longer { OnOk result (length rows.new.items ≡ length rows.old.items + 1) }
{
    let place = place_in(row.name.as_slice(), rows);
    match rows.insert(place, row) {
        Ok(()) => Ok(()),
        Err(_) => Err(AllocError),
    }
}
