//! An object that several hold, with what its listing counts.
ghost use Rattle.std.specs.Prelude.{◌≡◌, length, IfOk};
ghost use Rattle.definitions.specs.Listing.{deck_listing};
ghost use Rattle.definitions.specs.Objects.{object_of};
ghost use Rattle.deck_listing.specs.DecksBehind.{decks_behind};
ghost use Rattle.deck_listing.specs.ListedObjects.{lines_in};

use crate::decks_behind::decks_behind;
use crate::whole::{lines_in, listing};
use deck_objects::{Object, SharedObject};
use std::alloc::{AllocError, Global};
use std::marker::Model;

/// An object that several hold, each as its own, with how many lines and bytes the listing of its deck has, and how
/// many decks begin behind its END. Contracts see the deck: that these numbers are that deck's is the invariant of
/// the type.
#[derive(Drop)]
pub struct ListedObject {
    object: SharedObject,
    lines: usize,
    len: usize,
    behind: usize,
}

impl Model for ListedObject {
    ghost use Rattle.definitions.specs.DeckInput.{Deck};
    ghost use Rattle.deck_listing.specs.ListedObjects.{IsListed};

    ghost Value = { Deck };

    ghost view = { λ l. l.object };

    ghost invariant = { λ l. IsListed l.object l.lines l.len l.behind };
}

impl ListedObject {
    /// The object, whose listing is made here, measured and freed.
    pub fn new(alloc: Global, object: SharedObject) -> Result<ListedObject, AllocError>
        ensures { IfOk result (λ listed. listed ≡ object) }
    {
        let text = listing(alloc, object.object())?;
        let lines = lines_in(text.as_slice());
        let len = text.len();
        let behind = decks_behind(object.object());
        Ok(ListedObject {
            object,
            lines,
            len,
            behind,
        })
    }

    /// The same object with the same counts once more.
    pub fn share(&self) -> Result<ListedObject, AllocError>
        ensures { IfOk result (λ shared. shared ≡ self.now) }
    {
        Ok(ListedObject {
            object: self.object.share()?,
            lines: self.lines,
            len: self.len,
            behind: self.behind,
        })
    }

    /// The object alone once more.
    pub fn share_object(&self) -> Result<SharedObject, AllocError>
        ensures { IfOk result (λ shared. shared ≡ self.now) }
    {
        self.object.share()
    }

    pub fn object(&self) -> &Object
        ensures { result.now ≡ self.now }
    {
        self.object.object()
    }

    /// Frees it. Crates above call this in place of `drop` (CONTRIBUTING).
    pub fn free(self) {
        drop(self);
    }

    /// How many lines the listing of its deck has.
    pub fn lines(&self) -> usize
        ensures { result ≡ lines_in (deck_listing (object_of self.now)) }
    {
        self.lines
    }

    /// How many bytes that listing has.
    pub fn len(&self) -> usize
        ensures { result ≡ length (deck_listing (object_of self.now)) }
    {
        self.len
    }

    /// How many decks begin behind its END.
    pub fn decks_behind(&self) -> usize
        ensures { result ≡ decks_behind self.now }
    {
        self.behind
    }
}
