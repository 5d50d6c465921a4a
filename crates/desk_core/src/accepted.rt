//! What is reported of a change that is made.
ghost use Rattle.std.specs.Prelude.{◌≡◌};

use crate::stored_deck::StoredDeck;
use deck_listing::ListedObject;
use std::marker::Model;

/// The desk's new version, which a change made; with what is not there any more by it, so that who asked for the
/// change lets it go, and no turn does: the deck as it was, or its object. Contracts see the version.
#[derive(Drop)]
pub struct Accepted {
    version: u64,
    gone: Option<StoredDeck>,
    object: Option<ListedObject>,
}

impl Model for Accepted {
    ghost use Rattle.std.specs.Prelude.{ℕ};

    ghost Value = { ℕ };

    ghost view = { λ a. a.version };
}

impl Accepted {
    /// A change by which no deck goes.
    pub fn new(version: u64) -> Accepted
        ensures { result ≡ version }
    {
        Accepted {
            version,
            gone: None,
            object: None,
        }
    }

    /// A change by which a deck goes, or its cards and its record.
    pub(crate) fn without(version: u64, deck: StoredDeck) -> Accepted
        ensures { result ≡ version }
    {
        Accepted {
            version,
            gone: Some(deck),
            object: None,
        }
    }

    /// A change by which the object of a deck goes, if it had one.
    pub(crate) fn behind(version: u64, object: Option<ListedObject>) -> Accepted
        ensures { result ≡ version }
    {
        Accepted {
            version,
            gone: None,
            object,
        }
    }

    /// The desk's new version.
    pub fn version(&self) -> u64
        ensures { result ≡ self.now }
    {
        self.version
    }

    /// Frees it. Crates above call this in place of `drop` (CONTRIBUTING).
    pub fn free(self) {
        drop(self);
    }
}
