//! The desk: what it keeps, and where it finds it.
ghost use Rattle.std.specs.Prelude.{◌≡◌, length, is_some};
ghost use Rattle.desk_core.specs.Desks.{new_desk_at, is_named, deck_named};
ghost use Rattle.desk_core.specs.Joins.OwnNames.{IsPlaceOf};
ghost use Rattle.desk_core.specs.Answers.{against_next};

use crate::deck_list::DeckList;
use crate::leases::Lease;
use crate::replies::Refusal;
use crate::shared_publication::SharedPublication;
use crate::stored_deck::StoredDeck;
use cards::DeckName;
use std::alloc::Global;
use std::marker::Model;

/// The greatest version, and the greatest number of a lease.
const GREATEST_NUMBER: u64 = 4_611_686_018_427_387_904;

/// The desk: the version that its last change made, how many leases it gave, its decks in order of addition, the
/// lease of a link, and the last publication. It keeps where its memory comes from.
#[derive(Drop)]
pub struct Desk {
    pub(crate) alloc: Global,
    pub(crate) version: u64,
    pub(crate) leases: u64,
    pub(crate) decks: DeckList,
    pub(crate) link: Option<Lease>,
    pub(crate) publication: Option<SharedPublication>,
}

impl Model for Desk {
    ghost use Rattle.desk_core.specs.Desks as desks;

    ghost Value = { desks.Desk };

    ghost view = { λ d. record { version = d.version; leases = d.leases; decks = d.decks; link = d.link; publication = d.publication } };
}

impl Desk {
    /// A new desk.
    pub fn new(alloc: Global) -> Desk
        ensures { result ≡ new_desk_at 0 }
    {
        Desk::behind(alloc, 0)
    }

    /// A new desk that goes on behind a version: its first change makes the next one.
    pub fn behind(alloc: Global, version: u64) -> Desk
        ensures { result ≡ new_desk_at version }
    {
        Desk {
            alloc,
            version,
            leases: 0,
            decks: DeckList::new(alloc),
            link: None,
            publication: None,
        }
    }

    /// Where the deck of a name stands.
    pub(crate) fn place_of(&self, name: &DeckName) -> Option<usize>
        ensures { IsPlaceOf (is_named name.now) result self.now.decks }
    {
        self.decks.place_of(name)
    }

    /// Whether a deck has this name.
    pub(crate) fn has_name(&self, name: &DeckName) -> bool
        ensures { result ≡ is_some (deck_named name.now self.now) }
    {
        self.place_of(name).is_some()
    }

    /// Its decks, in order of addition.
    pub fn decks(&self) -> &[StoredDeck]
        ensures { result.now ≡ self.now.decks }
    {
        self.decks.as_slice()
    }

    pub(crate) fn deck_count(&self) -> usize
        ensures { result ≡ length self.now.decks }
    {
        self.decks.as_slice().len()
    }

    /// How many changes it accepted.
    pub fn version(&self) -> u64
        ensures { result ≡ self.now.version }
    {
        self.version
    }

    /// Frees it. Crates above call this in place of `drop` (CONTRIBUTING).
    pub fn free(self) {
        drop(self);
    }
}

/// What speaks against one version more, or one lease more.
pub(crate) fn against_next(number: u64) -> Option<Refusal>
    ensures { result ≡ against_next number }
{
    if number >= GREATEST_NUMBER {
        Some(Refusal::VersionsSpent)
    } else {
        None
    }
}
