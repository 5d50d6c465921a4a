//! What a desk gives out.

use crate::deck_cards::DeckCards;
use crate::held::Held;
use crate::listed::Listed;
use cards::{DeckName, Edit};
use deck_listing::ListedObject;

/// What a deck job begins with.
#[derive(Drop)]
pub enum Start {
    /// The record as it was handed over.
    FromRecord(Held),
    /// The cards.
    FromCards(DeckCards),
}

impl Start {
    /// Frees it. Crates above call this in place of `drop` (CONTRIBUTING).
    pub fn free(self) {
        drop(self);
    }
}

/// A deck job: its lease, the deck's identity, version and name, what it begins with, and the edits
/// that are to be made.
#[derive(Drop)]
pub struct DeckWork {
    pub lease: u64,
    pub deck: u64,
    pub version: u64,
    pub name: DeckName,
    pub start: Start,
    pub edits: Listed<Edit>,
}

/// A link job: its lease, the version, and the objects in order.
#[derive(Drop)]
pub struct LinkWork {
    pub lease: u64,
    pub version: u64,
    pub objects: Listed<ListedObject>,
}
