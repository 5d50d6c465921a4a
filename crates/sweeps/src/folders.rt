//! A scenario of a folder: decks that are saved there and loaded, by reads and writes of the system.

use crate::decks::{DECKS, DeckText, are_same};
use crate::scene::Scene;
use cards::{Card, DeckName, MOST_CARDS};
use deck_files::{FolderShelf, KnownFiles, SaveOver, Shelf, ShelfLoadFault, ShelfSaveFault};
use std::alloc::{AllocGlobal, Global};
use std::fs::File;
use std::rt::Files;
use std::sync::Wait;
use test_parts::{Got, cards_of, fixed_keys, name_of};

/// A deck with its cards, and the version that is saved.
#[derive(Drop)]
struct Saved {
    name: DeckName,
    cards: Vec<Card>,
    version: u64,
}

/// Whether the shelf gives these cards, if it gives any.
fn gives_once<S: Shelf>(shelf: &mut S, name: &DeckName, cards: &[Card]) -> Option<bool> {
    let found = shelf.load(name).ok()?;
    Some(are_same(&found, cards))
}

/// Whether the shelf gives these cards; once more where it finds no memory or a read fails.
fn gives<S: Shelf>(scene: &mut Scene, shelf: &mut S, name: &DeckName, cards: &[Card]) -> bool {
    let mut given = gives_once(shelf, name, cards);
    if given.is_none() {
        scene.journal.refused("Shelf::load", true);
        given = gives_once(shelf, name, cards);
    }
    given == Some(true)
}

/// Whether the shelf gives what may be there after a save that failed: what it gave before, no file where there were
/// no cards, or, unless a write failed, what was saved, since the last thing that a save waits for is the folder.
fn gives_either<S: Shelf>(
    scene: &mut Scene,
    shelf: &mut S,
    saved: &Saved,
    before: &[Card],
    fault: ShelfSaveFault,
) -> bool {
    let is_before = if before.is_empty() {
        matches!(shelf.load(&saved.name), Err(ShelfLoadFault::CannotOpen))
    } else {
        gives(scene, shelf, &saved.name, before)
    };
    let is_write_fault = matches!(fault, ShelfSaveFault::WriteFault { .. });
    is_before || (!is_write_fault && gives(scene, shelf, &saved.name, &saved.cards))
}

/// Saves a deck. Where that fails, the shelf gives the whole old file or the whole new one.
fn save_once<S: Shelf>(scene: &mut Scene, shelf: &mut S, saved: &Saved, before: &[Card]) -> bool {
    if saved.cards.len() > MOST_CARDS {
        return false;
    }
    let over = SaveOver::Any;
    match shelf.save(&saved.name, over, saved.version, &saved.cards) {
        Ok(()) => true,
        Err(fault) => {
            let holds = gives_either(scene, shelf, saved, before, fault);
            scene.journal.refused("Shelf::save", holds);
            false
        }
    }
}

/// Saves a deck, once more where that fails, and finds that the shelf gives it.
fn save<S: Shelf>(scene: &mut Scene, shelf: &mut S, saved: &Saved, before: &[Card]) {
    let is_saved = save_once(scene, shelf, saved, before) || save_once(scene, shelf, saved, before);
    let is_given = is_saved && gives(scene, shelf, &saved.name, &saved.cards);
    scene.journal.made("Shelf::save", is_given);
}

/// A deck of this name with the cards of another.
fn saved_of(alloc: Global, of: &DeckText, version: u64) -> Got<Saved> {
    Ok(Saved {
        name: name_of("SWEPT")?,
        cards: cards_of(alloc, of.lines)?,
        version,
    })
}

/// Saves three versions of a deck, one over the other.
fn save_all<S: Shelf>(scene: &mut Scene, shelf: &mut S) -> Got<()> {
    let mut before = Vec::new(scene.alloc);
    for (number, deck) in DECKS.iter().enumerate() {
        let saved = saved_of(scene.alloc, deck, number as u64)?;
        save(scene, shelf, &saved, &before);
        before = saved.cards;
    }
    Ok(())
}

/// Whether the shelf shows that the deck has so many cards; none where it shows nothing of it, or its file was not read.
fn tells<S: Shelf>(shelf: &mut S, cards: usize) -> Option<bool> {
    let rows = shelf.list().ok()?;
    for row in &rows {
        if row.name.as_slice() == b"SWEPT".as_slice() {
            return Some(row.cards? == cards);
        }
    }
    Some(false)
}

/// Lists the files of the shelf, once more where there is no memory or a read fails, and finds the last version
/// of the deck.
fn list<S: Shelf>(scene: &mut Scene, shelf: &mut S) -> Got<()> {
    let cards = cards_of(scene.alloc, DECKS[2].lines)?.len();
    let mut told = tells(shelf, cards);
    if told.is_none() {
        scene.journal.refused("Shelf::list", true);
        told = tells(shelf, cards);
    }
    scene.journal.made("Shelf::list", told == Some(true));
    Ok(())
}

/// Saves decks, and lists their files.
fn save_and_list<S: Shelf>(scene: &mut Scene, shelf: &mut S) -> Got<()> {
    save_all(scene, shelf)?;
    list(scene, shelf)
}

/// Three versions of a deck that are saved in the folder in which the program runs, one over the other; and
/// the list of the files there.
pub fn folder<R: AllocGlobal + Files<File = File> + Clone + Drop + Wait>(
    rt: &R,
    scene: &mut Scene,
) -> Got<()> {
    let known = KnownFiles::new(scene.alloc, fixed_keys()?);
    let mut shelf = FolderShelf::new(rt, scene.alloc, "", 0, &known);
    let done = save_and_list(scene, &mut shelf);
    drop(shelf);
    drop(known);
    done
}
