//! The bells, on which those who wait for their turn sleep. Two things keep a wakeup from being lost,
//! and neither is left to the reader's care: no two tickets that are out have the same bell, which the
//! contract of `bell_of` says; and a bell is watched before the look after which its watcher sleeps,
//! since only `watch` makes a `Watched`, only its `look` a `Missed`, and nothing but that can sleep.
ghost use Rattle.std.specs.Prelude.{◌≡◌, ℕ, ◌%◌, ◌^◌, MatchResult};
ghost use Rattle.turn_office.specs.Joins.Bells.{AreOutTogether, IsBell, bell_of};
ghost use Rattle.turn_office.specs.Boards.{IsPlaceOf, IsSamePlace};
ghost use Rattle.turn_office.specs.Rule.{HasTurn, IsFloor, WaitsFor};

use crate::rule::{Floor, Place, Ring};
use crate::sequential::Sequential;
use crate::turn::takes_turn;
use std::sync::Wait;

/// The first of the bells.
const FIRST_BELL: usize = 2;

/// How many bells there are: one for each seat that an office may have, and so for each ticket that
/// can be out.
const BELLS: u64 = 64;

/// How many words the table of an office has.
pub(crate) const WORDS: usize = FIRST_BELL + BELLS as usize;

/// The bell that the holder of a ticket sleeps on. Two tickets that may be out at the same time have
/// different ones: so who is woken is who is served, and nobody makes a bell even but who rings it
/// for the one that sleeps on it, or late for one before.
fn bell_of(ticket: u64) -> usize
    ensures bell { (result ≡ bell_of ticket) × IsBell result }
    ensures own { (t other : ℕ) → ticket ≡ t % 2 ^ 64 → AreOutTogether t other → bell_of (other % 2 ^ 64) ≡ result → other ≡ t }
{
    FIRST_BELL + (ticket % BELLS) as usize
}

/// Whether somebody sleeps on a bell, or is about to: its number is odd.
fn is_watched(bell: u64) -> bool {
    bell % 2 == 1
}

/// The bell of a ticket, with the number that it had when it was watched.
#[derive(Drop)]
pub(crate) struct Watched {
    ticket: u64,
    number: u64,
}

/// A look that did not find the ticket served, and came after the bell was watched.
#[derive(Drop)]
pub(crate) struct Missed {
    watched: Watched,
}

/// Kind 9: makes the number of the ticket's bell odd where it is even, and returns what it is then.
/// Another may have made it odd meanwhile, so it may be even: then it is to be watched again.
pub(crate) fn watch<O: Sequential>(floor: &Floor<O>, place: &mut Place<O>, ticket: u64) -> Watched
    requires own { IsPlaceOf floor.now.table_id place.old }
    ensures own { IsSamePlace place.old place.new }
    ensures same { place.new.me ≡ place.old.me }
    ensures ticket { result.ticket ≡ ticket }
{
    let bell = bell_of(ticket);
    let found = floor.peek(bell);
    let number = if is_watched(found) {
        found
    } else {
        floor.fetch_add::<Ring>(place, bell, 1).wrapping_add(1)
    };
    Watched { ticket, number }
}

impl Watched {
    /// Kind 3, while the bell is watched: the turn, or leave to sleep. A turn that ends after this look
    /// finds the bell watched, and rings it. Where it finds it even after all, who rings late for an
    /// older ticket with this bell has just changed it, and wakes too.
    pub(crate) fn look<O: Sequential>(
        self,
        floor: &Floor<O>,
        place: &mut Place<O>,
    ) -> Result<(), Missed>
        requires own { IsPlaceOf floor.now.table_id place.old }
        requires waits { WaitsFor self.ticket place.old.me.0 }
        ensures own { IsSamePlace place.old place.new }
        ensures turn { MatchResult result (λ turn. HasTurn place.old.me place.new.me) (λ missed. (place.new.me ≡ place.old.me) × (missed.watched ≡ self)) }
    {
        if takes_turn(floor, place, self.ticket) {
            Ok(())
        } else {
            Err(Missed { watched: self })
        }
    }
}

impl Missed {
    /// Sleeps until the bell has another number than when it was watched, or wakes for no reason.
    pub(crate) fn sleep<O: Sequential, R: Wait>(self, rt: &R, floor: &Floor<O>)
        requires { IsFloor floor.now.table_id }
    {
        let Watched { ticket, number } = self.watched;
        if is_watched(number) {
            floor.park(rt, bell_of(ticket), (number % (1 << 32)) as u32);
        }
    }
}

/// Kind 9: where somebody watches the bell of a ticket, makes its number even and wakes who sleeps on
/// it.
pub(crate) fn ring<O: Sequential>(floor: &Floor<O>, place: &mut Place<O>, ticket: u64)
    requires own { IsPlaceOf floor.now.table_id place.old }
    ensures own { IsSamePlace place.old place.new }
    ensures same { place.new.me ≡ place.old.me }
{
    let bell = bell_of(ticket);
    if is_watched(floor.peek(bell)) {
        floor.fetch_add::<Ring>(place, bell, 1);
        floor.wake_all(bell);
    }
}
