//! Calls that end a lease. None but `Publish` is refused for want of memory.
ghost use Rattle.std.specs.Prelude.{◌≡◌, ◌<◌, ◌&&◌, None, length, slice_get};
ghost use Rattle.std.specs.Option.{ForSome};
ghost use Rattle.desk_core.specs.Desks.{deck_of};
ghost use Rattle.desk_core.specs.Joins.Delivered.{foreign_at, kept_at, record_at, result_at};
ghost use Rattle.desk_core.specs.Answers.{answers};
ghost use Rattle.desk_core.specs.Joins.Calls.{Cleared};
ghost use Rattle.desk_core.specs.Delivering.{lost, same_deck, deliver_deck, deliver_link, take_link, give_up, give_up_of};
ghost use Rattle.desk_core.specs.Joins.OwnNames.{IsPlaceOf, changed_at, has_lease};
ghost use Rattle.desk_core.specs.Joins.Turns.{IsAnswer};

use crate::calls::Done;
use crate::comparing::same_decks;
use crate::desk::Desk;
use crate::held::Held;
use crate::leases::{is_leased, is_leased_at};
use crate::replies::{Refusal, Reply};
use crate::shared_publication::SharedPublication;
use deck_listing::ListedObject;

impl Desk {
    /// The result of a deck job. A stale one gives its record back; one that is not the deck's loses it.
    pub(crate) fn deliver_deck(&mut self, done: Done) -> Reply
        ensures { IsAnswer (deliver_deck done self.old) result self.new }
    {
        match self.place_leased(done.lease) {
            Some(place) => self.take_result(place, done),
            None => {
                drop(done);
                Reply::Refused(Refusal::UnknownJob)
            }
        }
    }

    fn place_leased(&self, lease: u64) -> Option<usize>
        ensures { IsPlaceOf (has_lease lease) result self.now.decks }
    {
        self.decks.place_leased(lease)
    }

    fn take_result(&mut self, place: usize, done: Done) -> Reply
        requires { place < length self.old.decks }
        ensures { ForSome (slice_get self.old.decks place) (λ deck. IsAnswer (result_at place done self.old deck) result self.new) }
    {
        if !self.decks.deck_at(place).is_for(&done) {
            drop(done);
            return self.lose_foreign(place);
        }
        let Done {
            version,
            kept,
            object,
            ..
        } = done;
        match kept {
            None => {
                drop(object);
                self.lose_foreign(place)
            }
            Some(kept) => self.take_record(place, version, kept, object),
        }
    }

    fn take_record(&mut self, place: usize, version: u64, kept: Held, object: ListedObject) -> Reply
        requires { place < length self.old.decks }
        ensures { ForSome (slice_get self.old.decks place) (λ deck. IsAnswer (record_at place version kept object self.old deck) result self.new) }
    {
        let current = self.decks.deck_at(place).version();
        if version != current {
            self.decks.give_back_at(place, kept);
            drop(object);
            return Reply::Refused(Refusal::Stale(current));
        }
        if !self.is_sound(place, &kept, &object) {
            drop(kept);
            drop(object);
            return self.lose_foreign(place);
        }
        self.decks.store_at(self.alloc, place, kept, object);
        Reply::Stored
    }

    /// Whether record and object are of the deck at a place.
    fn is_sound(&self, place: usize, kept: &Held, object: &ListedObject) -> bool
        requires { place < length self.now.decks }
        ensures { ForSome (slice_get self.now.decks place) (λ deck. result ≡ (same_deck kept.now.deck (deck_of deck) && same_deck object.now (deck_of deck))) }
    {
        let deck = self.decks.deck_at(place);
        deck.is_of_result(kept, object)
    }

    /// The deck at a place loses its record to a result that is not the deck's.
    fn lose_foreign(&mut self, place: usize) -> Reply
        requires { place < length self.old.decks }
        ensures { IsAnswer (foreign_at place self.old) result self.new }
    {
        self.decks.lose_at(place);
        Reply::Refused(Refusal::Foreign)
    }

    /// The result of a link job.
    pub(crate) fn deliver_link(&mut self, lease: u64, publication: SharedPublication) -> Reply
        ensures { IsAnswer (deliver_link lease publication self.old) result self.new }
    {
        if is_leased(lease, self.link) {
            self.take_link(publication)
        } else {
            Reply::Refused(Refusal::UnknownJob)
        }
    }

    /// A publication of these decks under this version is the last one.
    fn take_link(&mut self, publication: SharedPublication) -> Reply
        ensures { IsAnswer (take_link publication self.old) result self.new }
    {
        let lease = self.link.take();
        let version = publication.publication().version();
        if !is_leased_at(version, lease) {
            return Reply::Refused(Refusal::Foreign);
        }
        if version != self.version {
            return Reply::Refused(Refusal::Stale(self.version));
        }
        if !same_decks(publication.publication().objects(), self.decks.as_slice()) {
            return Reply::Refused(Refusal::Foreign);
        }
        self.publication = Some(publication);
        Reply::Stored
    }

    /// The lease ends without a result, and the record is lost.
    pub(crate) fn give_up(&mut self, lease: u64) -> Reply
        ensures { IsAnswer (give_up lease self.old) result self.new }
    {
        match self.place_leased(lease) {
            Some(place) => self.lose(place),
            None => self.give_link_up(lease),
        }
    }

    fn lose(&mut self, place: usize) -> Reply
        requires { place < length self.old.decks }
        ensures { IsAnswer (answers Cleared (changed_at place lost self.old)) result self.new }
    {
        self.decks.lose_at(place);
        Reply::Cleared
    }

    fn give_link_up(&mut self, lease: u64) -> Reply
        ensures { IsAnswer (give_up_of lease self.old None) result self.new }
    {
        if is_leased(lease, self.link) {
            self.link = None;
            Reply::Cleared
        } else {
            Reply::Refused(Refusal::UnknownJob)
        }
    }
}
