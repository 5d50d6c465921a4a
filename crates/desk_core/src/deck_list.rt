//! The decks of a desk.
ghost use Rattle.std.specs.Prelude.{◌≡◌, ◌<◌, ◌≤◌, [], ◌∷◌, ◌++◌, length, map, position, find, slice_get, remove, is_ok, Some, None, IfOk, if◌then◌else◌};
ghost use Rattle.std.specs.List.{list_any};
ghost use Rattle.std.specs.Option.{ForSome};
ghost use Rattle.desk_core.specs.Desks.{is_named, deck_of};
ghost use Rattle.desk_core.specs.Joins.Edits.{first_fault};
ghost use Rattle.desk_core.specs.Changing.{edited_deck, replaced_deck};
ghost use Rattle.desk_core.specs.Claiming.{is_behind, is_free, given, deck_work};
ghost use Rattle.desk_core.specs.Delivering.{lost, given_back, stored};
ghost use Rattle.desk_core.specs.Joins.OwnNames.{HaveOwnNames, IsPlaceOf, has_lease, with_at};

use crate::held::Held;
use crate::jobs::DeckWork;
use crate::stored_deck::StoredDeck;
use cards::{Card, DeckName, Edit};
use deck_listing::ListedObject;
use std::alloc::{AllocError, Global};
use std::marker::Model;

/// The decks of a desk in order of addition, each with a name of its own.
#[derive(Drop)]
pub(crate) struct DeckList {
    decks: Vec<StoredDeck>,
}

impl Model for DeckList {
    ghost use Rattle.std.specs.Prelude.{List};
    ghost use Rattle.desk_core.specs.Desks.{DeskDeck};
    ghost use Rattle.desk_core.specs.Joins.OwnNames.{HaveOwnNames};

    ghost Value = { List DeskDeck };

    ghost view = { λ d. d.decks.items };

    ghost invariant = { λ d. HaveOwnNames d.decks.items };
}

impl DeckList {
    pub(crate) fn new(alloc: Global) -> DeckList
        ensures { result ≡ [] }
    {
        DeckList {
            decks: Vec::new(alloc),
        }
    }

    pub(crate) fn as_slice(&self) -> &[StoredDeck]
        ensures decks { result.now ≡ self.now }
        ensures names { HaveOwnNames self.now }
    {
        self.decks.as_slice()
    }

    /// Where the deck of a name stands.
    pub(crate) fn place_of(&self, name: &DeckName) -> Option<usize>
        ensures { IsPlaceOf (is_named name.now) result self.now }
    {
        place_named(self.as_slice(), name)
    }

    /// Where the deck stands whose lease this is.
    pub(crate) fn place_leased(&self, number: u64) -> Option<usize>
        ensures { IsPlaceOf (has_lease number) result self.now }
    {
        place_leased(self.as_slice(), number)
    }

    /// Where the first deck stands that is behind and that nobody has.
    pub(crate) fn place_free(&self) -> Option<usize>
        ensures { IsPlaceOf is_free result self.now }
    {
        place_free(self.as_slice())
    }

    /// Whether a deck is behind.
    pub(crate) fn has_behind(&self) -> bool
        ensures { result ≡ list_any is_behind self.now }
    {
        has_behind(self.as_slice())
    }

    /// The deck at a place.
    pub(crate) fn deck_at(&self, place: usize) -> &StoredDeck
        requires { place < length self.now }
        ensures { slice_get self.now place ≡ Some result.now }
    {
        &self.decks[place]
    }

    /// The object of the deck at a place once more, if there is one that can be shared.
    pub(crate) fn object_at(&self, place: usize) -> Option<ListedObject> {
        self.decks.get(place)?.object_once_more()
    }

    /// A deck of a new name comes in behind them.
    pub(crate) fn push(&mut self, deck: StoredDeck) -> Result<(), AllocError>
        requires { find (is_named deck.name) self.old ≡ None }
        ensures { self.new ≡ (if is_ok result then self.old ++ deck ∷ [] else self.old) }
    {
        self.decks.push(deck)?;
        Ok(())
    }

    /// The deck at a place goes: this one.
    pub(crate) fn remove(&mut self, place: usize) -> StoredDeck
        requires { place < length self.old }
        ensures { self.new ≡ remove self.old place }
    {
        self.decks.remove(place)
    }

    /// The deck at a place has other cards from this version on: the deck as it was.
    pub(crate) fn replace_at(
        &mut self,
        alloc: Global,
        place: usize,
        version: u64,
        cards: Vec<Card>,
    ) -> Result<StoredDeck, AllocError>
        requires within { place < length self.old }
        requires few { length cards.items ≤ 20000 }
        ensures { self.new ≡ (if is_ok result then with_at place (replaced_deck version cards.items) self.old else self.old) }
    {
        let deck = &mut self.decks[place];
        deck.replace(alloc, version, cards)
    }

    /// Makes edits of which each applies to the deck at a place, as one change.
    pub(crate) fn edit_at(
        &mut self,
        alloc: Global,
        place: usize,
        version: u64,
        by: &DeckName,
        edits: &[Edit],
    ) -> Result<(), AllocError>
        requires within { place < length self.old }
        requires applies { ForSome (slice_get self.old place) (λ deck. first_fault edits.now deck.cards ≡ None) }
        ensures { self.new ≡ (if is_ok result then with_at place (edited_deck version by.now edits.now) self.old else self.old) }
    {
        let deck = &mut self.decks[place];
        deck.edit(alloc, version, by, edits)
    }

    /// Gives the deck at a place out.
    pub(crate) fn give_out_at(
        &mut self,
        alloc: Global,
        place: usize,
        number: u64,
    ) -> Result<DeckWork, AllocError>
        requires { place < length self.old }
        ensures decks { self.new ≡ (if is_ok result then with_at place (given number) self.old else self.old) }
        ensures work { IfOk result (λ work. ForSome (slice_get self.old place) (λ deck. work ≡ deck_work number deck)) }
    {
        let deck = &mut self.decks[place];
        deck.give_out(alloc, number)
    }

    /// The deck at a place loses its record.
    pub(crate) fn lose_at(&mut self, place: usize)
        requires { place < length self.old }
        ensures { self.new ≡ with_at place lost self.old }
    {
        let deck = &mut self.decks[place];
        deck.lose();
    }

    /// The deck at a place gets its record back.
    pub(crate) fn give_back_at(&mut self, place: usize, kept: Held)
        requires { place < length self.old }
        ensures { self.new ≡ with_at place (given_back (Some kept)) self.old }
    {
        let deck = &mut self.decks[place];
        deck.give_back(kept);
    }

    /// The deck at a place gets its record and its object.
    pub(crate) fn store_at(&mut self, alloc: Global, place: usize, kept: Held, object: ListedObject)
        requires within { place < length self.old }
        requires object { ForSome (slice_get self.old place) (λ deck. object ≡ deck_of deck) }
        ensures { self.new ≡ with_at place (stored (Some kept)) self.old }
    {
        let deck = &mut self.decks[place];
        deck.store(alloc, kept, object);
    }
}

/// Where the deck of a name stands.
fn place_named(decks: &[StoredDeck], name: &DeckName) -> Option<usize>
    ensures { result ≡ position (is_named name.now) decks.now }
{
    decks.iter().position(|deck| deck.is_named(name))
}

/// Where the deck stands whose lease this is.
fn place_leased(decks: &[StoredDeck], number: u64) -> Option<usize>
    ensures { result ≡ position (has_lease number) decks.now }
{
    decks.iter().position(|deck| deck.is_leased(number))
}

/// Where the first deck stands that is behind and that nobody has.
fn place_free(decks: &[StoredDeck]) -> Option<usize>
    ensures { result ≡ position is_free decks.now }
{
    decks.iter().position(|deck| deck.is_free())
}

/// Whether a deck is behind.
fn has_behind(decks: &[StoredDeck]) -> bool
    ensures { result ≡ list_any is_behind decks.now }
{
    decks.iter().any(|deck| deck.is_behind())
}
