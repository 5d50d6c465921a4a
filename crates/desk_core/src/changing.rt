//! Calls that change decks.
ghost use Rattle.std.specs.Prelude.{◌≡◌, ◌+◌, ◌<◌, ◌≤◌, length, is_ok, None, Some, slice_get, remove, IfOk, if◌then◌else◌};
ghost use Rattle.std.specs.Option.{ForSome};
ghost use Rattle.desk_core.specs.Desks.{is_named, deck_named};
ghost use Rattle.desk_core.specs.Joins.Edits.{first_fault};
ghost use Rattle.desk_core.specs.Answers.{against_next};
ghost use Rattle.desk_core.specs.Changing.{add_deck, added, accepted, against_add, put_deck, replaced_deck, against_put, drop_deck, against_drop, edit_deck, edited_deck, against_edits, shown};
ghost use Rattle.desk_core.specs.Joins.OwnNames.{IsPlaceOf, changed_at};
ghost use Rattle.desk_core.specs.Joins.Turns.{IsAnswer, MayAnswer};

use crate::accepted::Accepted;
use crate::desk::{Desk, against_next};
use crate::new_deck::NewDeck;
use crate::replies::{Refusal, Reply};
use crate::stored_deck::StoredDeck;
use cards::{Card, DeckName, Edit, MOST_CARDS, first_fault};
use std::alloc::AllocError;

/// How many decks a desk has at most.
const MOST_DECKS: usize = 64;

/// How many edits a change has at most.
pub(crate) const MOST_EDITS: usize = 100;

impl Desk {
    /// A deck more.
    pub(crate) fn add_deck(&mut self, deck: NewDeck) -> Reply
        ensures { MayAnswer self.old (add_deck deck self.old) result self.new }
    {
        match self.against_add(&deck) {
            Some(refusal) => {
                drop(deck);
                Reply::Refused(refusal)
            }
            None => self.add(deck),
        }
    }

    fn against_add(&self, deck: &NewDeck) -> Option<Refusal>
        ensures { result ≡ against_add deck.now self.now }
    {
        if self.has_name(&deck.name) {
            return Some(Refusal::NameTaken);
        }
        if self.deck_count() >= MOST_DECKS {
            return Some(Refusal::TooManyDecks);
        }
        if deck.cards.len() > MOST_CARDS {
            return Some(Refusal::DeckFull);
        }
        against_next(self.version())
    }

    fn add(&mut self, deck: NewDeck) -> Reply
        requires { against_add deck self.old ≡ None }
        ensures { MayAnswer self.old (accepted (added deck self.old)) result self.new }
    {
        match self.push(deck) {
            Ok(version) => Reply::Changed(Accepted::new(version)),
            Err(_) => Reply::Refused(Refusal::OutOfMemory),
        }
    }

    /// A deck comes in behind the others, as the next change.
    fn push(&mut self, deck: NewDeck) -> Result<u64, AllocError>
        requires { against_add deck self.old ≡ None }
        ensures desk { self.new ≡ (if is_ok result then added deck self.old else self.old) }
        ensures version { IfOk result (λ version. version ≡ self.old.version + 1) }
    {
        let version = self.version + 1;
        let deck = StoredDeck::new(self.alloc, version, deck)?;
        self.decks.push(deck)?;
        self.version = version;
        Ok(version)
    }

    /// The deck takes the place of the one of its name, whose lease goes with it; or it is one more where
    /// none was seen.
    pub(crate) fn put_deck(&mut self, deck: NewDeck, seen: u64) -> Reply
        ensures { MayAnswer self.old (put_deck deck seen self.old) result self.new }
    {
        let Some(place) = self.place_of(&deck.name) else {
            return self.put_new(deck, seen);
        };
        match self.against_put(place, seen, &deck) {
            Some(refusal) => Reply::Refused(refusal),
            None => self.put(place, deck.cards),
        }
    }

    /// A deck whose name no other has.
    fn put_new(&mut self, deck: NewDeck, seen: u64) -> Reply
        requires { deck_named deck.name self.old ≡ None }
        ensures { MayAnswer self.old (put_deck deck seen self.old) result self.new }
    {
        if seen == 0 {
            self.add_deck(deck)
        } else {
            Reply::Refused(Refusal::NoDeck)
        }
    }

    fn against_put(&self, place: usize, seen: u64, new: &NewDeck) -> Option<Refusal>
        requires { place < length self.now.decks }
        ensures { result ≡ against_put seen new.now self.now (slice_get self.now.decks place) }
    {
        let deck = self.decks.deck_at(place);
        if seen != deck.version() {
            return Some(Refusal::OldVersion(deck.version()));
        }
        if new.cards.len() > MOST_CARDS {
            return Some(Refusal::DeckFull);
        }
        against_next(self.version)
    }

    /// Puts cards in place of those of the deck at a place.
    fn put(&mut self, place: usize, cards: Vec<Card>) -> Reply
        requires within { place < length self.old.decks }
        requires few { length cards.items ≤ 20000 }
        requires room { against_next self.old.version ≡ None }
        ensures { MayAnswer self.old (accepted (changed_at place (replaced_deck (self.old.version + 1) cards.items) (record self.old { version = self.old.version + 1 }))) result self.new }
    {
        match self.put_at(place, cards) {
            Ok(made) => Reply::Changed(made),
            Err(_) => Reply::Refused(Refusal::OutOfMemory),
        }
    }

    /// Puts cards in place of those of the deck at a place, as the next change.
    fn put_at(&mut self, place: usize, cards: Vec<Card>) -> Result<Accepted, AllocError>
        requires within { place < length self.old.decks }
        requires few { length cards.items ≤ 20000 }
        requires room { against_next self.old.version ≡ None }
        ensures desk { self.new ≡ (if is_ok result then changed_at place (replaced_deck (self.old.version + 1) cards.items) (record self.old { version = self.old.version + 1 }) else self.old) }
        ensures version { IfOk result (λ version. version ≡ self.old.version + 1) }
    {
        let version = self.version + 1;
        let before = self.decks.replace_at(self.alloc, place, version, cards)?;
        self.version = version;
        Ok(Accepted::without(version, before))
    }

    /// The deck goes, and its lease with it.
    pub(crate) fn drop_deck(&mut self, name: &DeckName, seen: u64) -> Reply
        ensures { IsAnswer (drop_deck name.now seen self.old) result self.new }
    {
        let Some(place) = self.place_of(name) else {
            return Reply::Refused(Refusal::NoDeck);
        };
        match self.against_drop(place, seen) {
            Some(refusal) => Reply::Refused(refusal),
            None => Reply::Changed(self.drop_at(place)),
        }
    }

    fn against_drop(&self, place: usize, seen: u64) -> Option<Refusal>
        requires { place < length self.now.decks }
        ensures { result ≡ against_drop seen self.now (slice_get self.now.decks place) }
    {
        let deck = self.decks.deck_at(place);
        if seen != deck.version() {
            return Some(Refusal::OldVersion(deck.version()));
        }
        against_next(self.version)
    }

    fn drop_at(&mut self, place: usize) -> Accepted
        requires within { place < length self.old.decks }
        requires room { against_next self.old.version ≡ None }
        ensures desk { self.new ≡ record self.old { version = self.old.version + 1; decks = remove self.old.decks place } }
        ensures version { result ≡ self.old.version + 1 }
    {
        self.version += 1;
        let deck = self.decks.remove(place);
        Accepted::without(self.version, deck)
    }

    /// Edits of the deck by who saw its present version, one alone or several, all or none, as one change.
    pub(crate) fn edit_deck(
        &mut self,
        single: bool,
        name: &DeckName,
        seen: u64,
        edits: &[Edit],
        by: &DeckName,
    ) -> Reply
        ensures { MayAnswer self.old (edit_deck single name.now seen edits.now by.now self.old) result self.new }
    {
        let Some(place) = self.place_of(name) else {
            return Reply::Refused(Refusal::NoDeck);
        };
        if let Some(refusal) = self.against_edits(place, seen, edits) {
            return Reply::Refused(shown(single, refusal));
        }
        let object = self.decks.object_at(place);
        match self.edit_at(place, by, edits) {
            Ok(version) => Reply::Changed(Accepted::behind(version, object)),
            Err(_) => {
                drop(object);
                Reply::Refused(Refusal::OutOfMemory)
            }
        }
    }

    fn against_edits(&self, place: usize, seen: u64, edits: &[Edit]) -> Option<Refusal>
        requires { place < length self.now.decks }
        ensures { result ≡ against_edits seen edits.now self.now (slice_get self.now.decks place) }
    {
        let deck = self.decks.deck_at(place);
        if seen != deck.version() {
            return Some(Refusal::OldVersion(deck.version()));
        }
        if edits.is_empty() || edits.len() > MOST_EDITS {
            return Some(Refusal::BatchSize);
        }
        match first_fault(edits, deck.card_count()) {
            Some((number, fault)) => Some(Refusal::BadEdit(number, fault)),
            None => against_next(self.version),
        }
    }

    /// Makes edits of which each applies to the deck at a place, as the next change.
    pub(crate) fn edit_at(
        &mut self,
        place: usize,
        by: &DeckName,
        edits: &[Edit],
    ) -> Result<u64, AllocError>
        requires within { place < length self.old.decks }
        requires applies { ForSome (slice_get self.old.decks place) (λ deck. first_fault edits.now deck.cards ≡ None) }
        requires room { against_next self.old.version ≡ None }
        ensures desk { self.new ≡ (if is_ok result then changed_at place (edited_deck (self.old.version + 1) by.now edits.now) (record self.old { version = self.old.version + 1 }) else self.old) }
        ensures version { IfOk result (λ version. version ≡ self.old.version + 1) }
    {
        let version = self.version + 1;
        self.decks.edit_at(self.alloc, place, version, by, edits)?;
        self.version = version;
        Ok(version)
    }
}

/// A refusal of edits, which shows no number where it is of one alone.
pub(crate) fn shown(single: bool, refusal: Refusal) -> Refusal
    ensures { result ≡ shown single refusal }
{
    match refusal {
        Refusal::BadEdit(_, fault) if single => Refusal::from(fault),
        other => other,
    }
}
