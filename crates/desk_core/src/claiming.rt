//! What is due next.
ghost use Rattle.std.specs.Prelude.{◌≡◌, ◌+◌, ◌<◌, false, length, map, slice_get, is_ok, None, Some, Ok, IfOk, if◌then◌else◌};
ghost use Rattle.std.specs.List.{list_any};
ghost use Rattle.std.specs.Option.{ForSome};
ghost use Rattle.desk_core.specs.Desks.{deck_of, is_leased_at};
ghost use Rattle.desk_core.specs.Joins.Calls.{LinkJob};
ghost use Rattle.desk_core.specs.Answers.{against_next};
ghost use Rattle.desk_core.specs.Claiming.{is_behind, is_free, claim_link, claim, given, deck_work, hand_out_link};
ghost use Rattle.desk_core.specs.Joins.OwnNames.{IsPlaceOf, changed_at};
ghost use Rattle.desk_core.specs.Joins.Turns.{MayAnswer};

use crate::desk::{Desk, against_next};
use crate::jobs::{DeckWork, LinkWork};
use crate::leases::{Lease, is_leased_at};
use crate::listed::Listed;
use crate::replies::{Refusal, Reply};
use crate::stored_deck::StoredDeck;
use deck_listing::ListedObject;
use std::alloc::{AllocError, Global};

impl Desk {
    /// What is due next.
    pub(crate) fn claim(&mut self) -> Reply
        ensures { MayAnswer self.old (claim self.old) result self.new }
    {
        if !self.has_behind() {
            return self.claim_link();
        }
        let Some(place) = self.place_free() else {
            return Reply::AllOut;
        };
        if let Some(refusal) = self.against_lease() {
            return Reply::Refused(refusal);
        }
        match self.give_out_at(place) {
            Ok(work) => Reply::DeckJob(work),
            Err(_) => Reply::Refused(Refusal::OutOfMemory),
        }
    }

    /// What speaks against one lease more.
    fn against_lease(&self) -> Option<Refusal>
        ensures { result ≡ against_next self.now.leases }
    {
        against_next(self.leases)
    }

    /// Gives the deck at a place out under the next lease.
    fn give_out_at(&mut self, place: usize) -> Result<DeckWork, AllocError>
        requires within { place < length self.old.decks }
        requires room { against_next self.old.leases ≡ None }
        ensures desk { self.new ≡ (if is_ok result then changed_at place (given (self.old.leases + 1)) (record self.old { leases = self.old.leases + 1 }) else self.old) }
        ensures work { IfOk result (λ work. ForSome (slice_get self.old.decks place) (λ deck. work ≡ deck_work (self.old.leases + 1) deck)) }
    {
        let number = self.leases + 1;
        let work = self.decks.give_out_at(self.alloc, place, number)?;
        self.leases = number;
        Ok(work)
    }

    /// Where no deck is behind: the link of the present version, if that is neither published nor out.
    fn claim_link(&mut self) -> Reply
        requires { list_any is_behind self.old.decks ≡ false }
        ensures { MayAnswer self.old (claim_link self.old) result self.new }
    {
        if self.published() == Some(self.version()) {
            return Reply::Idle(self.version());
        }
        if self.is_linked() {
            return Reply::AllOut;
        }
        if let Some(refusal) = self.against_lease() {
            return Reply::Refused(refusal);
        }
        match self.give_link_out() {
            Ok(work) => Reply::LinkJob(work),
            Err(_) => Reply::Refused(Refusal::OutOfMemory),
        }
    }

    /// Whether the link of this version is out.
    pub(crate) fn is_linked(&self) -> bool
        ensures { result ≡ is_leased_at self.now.version self.now.link }
    {
        is_leased_at(self.version, self.link)
    }

    /// Gives the link of this version out, which ends an older link's lease.
    fn give_link_out(&mut self) -> Result<LinkWork, AllocError>
        requires built { list_any is_behind self.old.decks ≡ false }
        requires room { against_next self.old.leases ≡ None }
        ensures desk { self.new ≡ (if is_ok result then (hand_out_link self.old).desk else self.old) }
        ensures work { IfOk result (λ work. LinkJob work ≡ (hand_out_link self.old).reply) }
    {
        let objects = objects(self.alloc, self.decks.as_slice())?;
        let number = self.leases + 1;
        self.leases = number;
        self.link = Some(Lease {
            number,
            version: self.version,
        });
        Ok(LinkWork {
            lease: number,
            version: self.version,
            objects: Listed::new(objects),
        })
    }

    pub(crate) fn has_behind(&self) -> bool
        ensures { result ≡ list_any is_behind self.now.decks }
    {
        self.decks.has_behind()
    }

    fn place_free(&self) -> Option<usize>
        ensures { IsPlaceOf is_free result self.now.decks }
    {
        self.decks.place_free()
    }
}

/// The objects of decks that all have one, in order.
pub(crate) fn objects(alloc: Global, decks: &[StoredDeck]) -> Result<Vec<ListedObject>, AllocError>
    requires { list_any is_behind decks.now ≡ false }
    ensures { IfOk result (λ objects. objects.items ≡ map deck_of decks.now) }
{
    let mut objects = Vec::with_capacity(alloc, decks.len())?;
    for deck in decks {
        objects.push(deck.share_object()?)?;
    }
    Ok(objects)
}
