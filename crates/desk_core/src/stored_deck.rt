//! A deck as the desk keeps it.
ghost use Rattle.std.specs.Prelude.{◌≡◌, ◌≤◌, ◌||◌, ◌&&◌, length, None, Some, [], ◌∷◌, is_ok, is_some, option_map, Ok, true, IfOk, if◌then◌else◌};
ghost use Rattle.desk_core.specs.Desks.{is_named, is_leased, deck_of};
ghost use Rattle.desk_core.specs.Joins.Edits.{fault_of, first_fault};
ghost use Rattle.desk_core.specs.Changing.{added_deck, bad_edit, replaced_deck, edited_deck};
ghost use Rattle.desk_core.specs.Claiming.{is_behind, is_free, given, deck_work};
ghost use Rattle.desk_core.specs.Delivering.{is_for, same_deck, lost, given_back, stored};
ghost use Rattle.desk_core.specs.Joins.Causes.{first_cause};
ghost use Rattle.desk_core.specs.Carrying.{cards_of, carried_since, against_carried};
ghost use Rattle.desk_core.specs.Undoing.{backs_at};
ghost use Rattle.desk_core.specs.Joins.Stored.{backs_from};
ghost use Rattle.desk_core.specs.Reading.{decks_behind_of, row_of, state_of};

use crate::calls::Done;
use crate::card_pieces::CardPieces;
use crate::comparing::same_name;
use crate::deck_cards::DeckCards;
use crate::edit_both::{edit_waiting, wait_all};
use crate::held::Held;
use crate::jobs::{DeckWork, Start};
use crate::leases::{Lease, is_leased, is_leased_at};
use crate::listed::Listed;
use crate::new_deck::NewDeck;
use crate::past::{Back, Past, edited_cards, made_edits, undo_of};
use crate::replies::{Refusal, Row, State};
use crate::told_cards::ToldCards;
use cards::{Card, DeckName, Edit, carry, first_fault};
use deck_listing::ListedObject;
use std::alloc::{AllocError, Global};
use std::marker::Model;
use std::mem::replace;

/// A deck on the desk: its name and cards; its identity, which is the version that its addition made, or
/// that of the last deck put in its place;
/// the version of the last change of it; its object, if it has one of that version; its record, if it is here, and the
/// edits that the record lacks; the lease, if one is out; and what is kept of its changes. Its cards lie in the object
/// that was stored last, but for those that edits left since.
/// It has at most 20,000 cards, and its past led to them.
#[derive(Drop)]
pub struct StoredDeck {
    name: DeckName,
    cards: CardPieces,
    identity: u64,
    version: u64,
    object: Option<ListedObject>,
    kept: Option<Held>,
    waiting: Vec<Edit>,
    lease: Option<Lease>,
    past: Past,
}

impl Model for StoredDeck {
    ghost use Rattle.desk_core.specs.Desks.{DeskDeck};
    ghost use Rattle.desk_core.specs.Joins.Stored.{stored_deck, IsStored};

    ghost Value = { DeskDeck };

    ghost view = { λ d. stored_deck d.name d.cards d.identity d.version d.object d.kept d.waiting.items d.lease d.past };

    ghost invariant = { λ d. IsStored d.name d.cards d.object d.past };
}

impl StoredDeck {
    /// The deck that an addition makes.
    pub(crate) fn new(alloc: Global, version: u64, deck: NewDeck) -> Result<StoredDeck, AllocError>
        requires { length deck.cards ≤ 20000 }
        ensures { IfOk result (λ stored. stored ≡ added_deck version deck) }
    {
        Ok(StoredDeck {
            name: deck.name,
            cards: CardPieces::of_cards(alloc, deck.cards)?,
            identity: version,
            version,
            object: None,
            kept: None,
            waiting: Vec::new(alloc),
            lease: None,
            past: Past::begun_at(alloc, version),
        })
    }

    /// Whether it has this name.
    pub(crate) fn is_named(&self, name: &DeckName) -> bool
        ensures { result ≡ is_named name.now self.now }
    {
        same_name(name, &self.name)
    }

    /// Whether its lease has this number.
    pub(crate) fn is_leased(&self, number: u64) -> bool
        ensures { result ≡ is_leased number self.now.lease }
    {
        is_leased(number, self.lease)
    }

    pub(crate) fn name(&self) -> &DeckName
        ensures { result.now ≡ self.now.name }
    {
        &self.name
    }

    /// How many cards it has.
    pub(crate) fn card_count(&self) -> usize
        ensures { result ≡ length self.now.cards }
    {
        self.cards.len()
    }

    pub(crate) fn version(&self) -> u64
        ensures { result ≡ self.now.version }
    {
        self.version
    }

    /// Whether edits wait: it has a record, or its lease is out.
    fn keeps_edits(&self) -> bool
        ensures { result ≡ (is_some self.now.kept || is_some self.now.lease) }
    {
        self.kept.is_some() || self.lease.is_some()
    }

    /// Makes edits of which each applies, as one change of this version by who has this name: one alone where it
    /// lies. Without memory nothing changes.
    pub(crate) fn edit(
        &mut self,
        alloc: Global,
        version: u64,
        by: &DeckName,
        edits: &[Edit],
    ) -> Result<(), AllocError>
        requires { first_fault edits.now self.old.cards ≡ None }
        ensures { self.new ≡ (if is_ok result then edited_deck version by.now edits.now self.old else self.old) }
    {
        match edits {
            [edit] => self.edit_one(alloc, version, by, edit),
            _ => self.edit_all(alloc, version, by, edits),
        }
    }

    /// Makes an edit that applies, as the change of this version by who has this name. Without memory
    /// nothing changes.
    fn edit_one(
        &mut self,
        alloc: Global,
        version: u64,
        by: &DeckName,
        edit: &Edit,
    ) -> Result<(), AllocError>
        requires { fault_of edit.now self.old.cards ≡ None }
        ensures { self.new ≡ (if is_ok result then edited_deck version by.now (edit.now ∷ []) self.old else self.old) }
    {
        let keeps = self.keeps_edits();
        let count = self.past.len();
        let back = Back {
            edit: undo_of(edit, &self.cards),
            by: by.copied(),
        };
        self.past.push(version, edit.copied(), back)?;
        if let Err(fault) = edit_waiting(alloc, &mut self.cards, &mut self.waiting, keeps, edit) {
            self.past.truncate(count);
            return Err(fault);
        }
        self.past.trim();
        self.version = version;
        self.object = None;
        Ok(())
    }

    /// Makes edits of which each applies, as one change of this version by who has this name. Without
    /// memory nothing changes.
    fn edit_all(
        &mut self,
        alloc: Global,
        version: u64,
        by: &DeckName,
        edits: &[Edit],
    ) -> Result<(), AllocError>
        requires { first_fault edits.now self.old.cards ≡ None }
        ensures { self.new ≡ (if is_ok result then edited_deck version by.now edits.now self.old else self.old) }
    {
        let keeps = self.keeps_edits();
        let count = self.past.len();
        let made = made_edits(alloc, version, edits)?;
        let (cards, backs) = edited_cards(alloc, &self.cards, edits, by)?;
        self.past.append(made, backs)?;
        if let Err(fault) = wait_all(alloc, &mut self.waiting, keeps, edits) {
            self.past.truncate(count);
            return Err(fault);
        }
        self.past.trim();
        self.cards = cards;
        self.version = version;
        self.object = None;
        Ok(())
    }

    /// Other cards take the place of its own, and it is as a deck that was added at this version: the deck as it
    /// was. Without memory nothing changes.
    pub(crate) fn replace(
        &mut self,
        alloc: Global,
        version: u64,
        cards: Vec<Card>,
    ) -> Result<StoredDeck, AllocError>
        requires { length cards.items ≤ 20000 }
        ensures { self.new ≡ (if is_ok result then replaced_deck version cards.items self.old else self.old) }
    {
        let deck = NewDeck {
            name: self.name.copied(),
            cards,
        };
        let added = StoredDeck::new(alloc, version, deck)?;
        Ok(replace(self, added))
    }

    /// What is kept of its changes.
    pub(crate) fn past(&self) -> &Past
        ensures { result.now ≡ self.now.past }
    {
        &self.past
    }

    /// What takes its edits of the change of a version back, in the order of these edits.
    pub(crate) fn backs_at(&self, version: u64) -> &[Back]
        ensures edits { backs_from result.now ≡ backs_at version self.now }
        ensures count { length result.now ≡ length (backs_at version self.now) }
    {
        self.past.backs_at(version)
    }

    /// Carries edits over what others changed since a version that their sender saw, or returns what speaks
    /// against them: they have to apply to the cards of that version, and then to those of now.
    pub(crate) fn carry(&self, seen: u64, edits: &mut [Edit]) -> Option<Refusal>
        requires { length edits.old ≤ 100 }
        ensures refusal { result ≡ first_cause (option_map bad_edit (first_fault edits.old (cards_of seen self.now)) ∷ against_carried (carried_since seen edits.old self.now) self.now.cards ∷ []) }
        ensures carried { result ≡ None → carried_since seen edits.old self.now ≡ Ok edits.new }
    {
        let (count, made) = self.past.seen_at(seen, &self.cards);
        if let Some((number, fault)) = first_fault(edits, count) {
            return Some(Refusal::BadEdit(number, fault));
        }
        if let Err(touched) = carry(edits, made) {
            return Some(Refusal::TouchedCard(touched.card, touched.version));
        }
        match first_fault(edits, self.card_count()) {
            Some((number, fault)) => Some(Refusal::BadEdit(number, fault)),
            None => None,
        }
    }

    /// Its row in the status of the desk.
    pub(crate) fn row(&self) -> Row
        ensures { result ≡ row_of self.now }
    {
        Row {
            name: self.name.copied(),
            version: self.version,
            cards: self.card_count(),
            state: self.state(),
            decks_behind: self.decks_behind(),
        }
    }

    fn decks_behind(&self) -> usize
        ensures { result ≡ decks_behind_of self.now }
    {
        match &self.object {
            Some(object) => object.decks_behind(),
            None => 0,
        }
    }

    fn state(&self) -> State
        ensures { result ≡ state_of self.now }
    {
        if self.lease.is_some() {
            State::Out
        } else if self.object.is_some() {
            State::Ready
        } else {
            State::Behind
        }
    }

    /// Whether it has no object of its version.
    pub(crate) fn is_behind(&self) -> bool
        ensures { result ≡ is_behind self.now }
    {
        self.object.is_none()
    }

    /// Whether it has none, and nobody has it.
    pub(crate) fn is_free(&self) -> bool
        ensures { result ≡ is_free self.now }
    {
        self.is_behind() && self.lease.is_none()
    }

    /// Whether an object is of it, by name and cards.
    pub(crate) fn is_of_object(&self, object: &ListedObject) -> bool
        ensures { result ≡ same_deck object.now (deck_of self.now) }
    {
        let object = object.object();
        same_name(object.name(), &self.name) && self.cards.are_same(object.cards())
    }

    /// Whether record and object are of it, by name and cards.
    pub(crate) fn is_of_result(&self, held: &Held, object: &ListedObject) -> bool
        ensures { result ≡ (same_deck held.now.deck (deck_of self.now) && same_deck object.now (deck_of self.now)) }
    {
        let kept = held.kept();
        let object = object.object();
        if !same_name(kept.name(), &self.name) {
            return false;
        }
        if !same_name(object.name(), &self.name) {
            return false;
        }
        self.cards.are_both_same(kept.cards(), object.cards())
    }

    /// Its object once more, so that it outlives a change of the deck; none where there is none, or it can't be
    /// shared.
    pub(crate) fn object_once_more(&self) -> Option<ListedObject> {
        match &self.object {
            Some(object) => match object.share() {
                Ok(object) => Some(object),
                Err(_) => None,
            },
            None => None,
        }
    }

    /// Whether a result names it and the version of its lease.
    pub(crate) fn is_for(&self, done: &Done) -> bool
        ensures { result ≡ is_for done.now self.now }
    {
        done.deck == self.identity && is_leased_at(done.version, self.lease)
    }

    /// Its name and a copy of its cards.
    pub fn copied(&self, alloc: Global) -> Result<NewDeck, AllocError>
        ensures deck { IfOk result (λ deck. deck ≡ deck_of self.now) }
        ensures few { IfOk result (λ deck. length deck.cards ≤ 20000) }
    {
        let cards = self.cards.joined(alloc)?;
        Ok(NewDeck::new(self.name.copied(), cards))
    }

    /// Its object once more.
    pub(crate) fn share_object(&self) -> Result<ListedObject, AllocError>
        requires { self.now.built ≡ true }
        ensures { IfOk result (λ object. object ≡ deck_of self.now) }
    {
        match &self.object {
            Some(object) => object.share(),
            None => unreachable!(),
        }
    }

    /// Its job under this lease: record and edits move into it, or its cards are shared. Without memory
    /// nothing changes.
    pub(crate) fn give_out(&mut self, alloc: Global, number: u64) -> Result<DeckWork, AllocError>
        ensures deck { self.new ≡ (if is_ok result then given number self.old else self.old) }
        ensures work { IfOk result (λ work. work ≡ deck_work number self.old) }
    {
        let cards = self.cards_for_job(alloc)?;
        let waiting = replace(&mut self.waiting, Vec::new(alloc));
        let (start, edits) = match self.kept.take() {
            Some(kept) => (Start::FromRecord(kept), waiting),
            None => (Start::FromCards(cards), Vec::new(alloc)),
        };
        self.lease = Some(Lease {
            number,
            version: self.version,
        });
        Ok(DeckWork {
            lease: number,
            deck: self.identity,
            version: self.version,
            name: self.name.copied(),
            start,
            edits: Listed::new(edits),
        })
    }

    /// The cards once more where a job begins with them.
    fn cards_for_job(&self, alloc: Global) -> Result<DeckCards, AllocError>
        ensures { IfOk result (λ cards. cards ≡ (if is_some self.now.kept then [] else self.now.cards)) }
    {
        if self.kept.is_some() {
            return Ok(DeckCards::shared(CardPieces::empty(alloc)));
        }
        Ok(DeckCards::shared(self.cards.share(alloc)?))
    }

    /// Its cards, to be shown.
    pub(crate) fn told_cards(&self, alloc: Global) -> Result<ToldCards, AllocError>
        ensures { IfOk result (λ cards. cards ≡ self.now.cards) }
    {
        ToldCards::new(alloc, self.cards.share(alloc)?)
    }

    /// The record is lost, and with it what waited for it; the lease ends.
    pub(crate) fn lose(&mut self)
        ensures { self.new ≡ lost self.old }
    {
        drop(self.kept.take());
        self.waiting.clear();
        self.lease = None;
    }

    /// The record comes back, without an object of the present version; the lease ends.
    pub(crate) fn give_back(&mut self, kept: Held)
        ensures { self.new ≡ given_back (Some kept) self.old }
    {
        drop(replace(&mut self.kept, Some(kept)));
        self.lease = None;
    }

    /// Its cards lie in this object of it from then on, where there is memory to say so.
    fn lie_in(&mut self, alloc: Global, object: &ListedObject)
        requires { object.now ≡ deck_of self.old }
        ensures { self.new ≡ self.old }
    {
        if let Ok(cards) = cards_in(alloc, object) {
            self.hold(cards);
        }
    }

    /// The same cards, which lie elsewhere.
    fn hold(&mut self, cards: CardPieces)
        requires { cards ≡ self.old.cards }
        ensures { self.new ≡ self.old }
    {
        self.cards = cards;
    }

    /// Record and object come in, in which its cards lie from then on, where there is memory to say so; the lease
    /// ends.
    pub(crate) fn store(&mut self, alloc: Global, kept: Held, object: ListedObject)
        requires { object ≡ deck_of self.old }
        ensures { self.new ≡ stored (Some kept) self.old }
    {
        self.lie_in(alloc, &object);
        drop(replace(&mut self.kept, Some(kept)));
        drop(replace(&mut self.object, Some(object)));
        self.lease = None;
    }
}

/// The cards of an object, which lie in it.
fn cards_in(alloc: Global, object: &ListedObject) -> Result<CardPieces, AllocError>
    ensures { IfOk result (λ cards. cards ≡ object.now.cards) }
{
    CardPieces::of_object(alloc, object.share_object()?)
}
