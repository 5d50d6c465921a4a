//! The steps of a turn, each of one kind of the table in the crate's documentation.
ghost use Rattle.std.specs.Prelude.{◌≡◌, ◌≤◌, [], ◌∷◌, length, MatchBool, Some, None};
ghost use Rattle.turn_office.specs.declared.views.Stage.TheVariants.{Idle};
ghost use Rattle.turn_office.specs.Boards.{IsPlaceOf, IsSamePlace};
ghost use Rattle.turn_office.specs.Rule.{CanEnd, HasDrawn, HasEnded, HasLearned, HasTurn, WaitsFor, seen_of};
ghost use Rattle.turn_office.specs.Joins.Told.{opened, ended};

use crate::bells::{ring, watch};
use crate::rule::{Draw, Floor, Give, Learn, Look, Place, Said};
use crate::sequential::Sequential;
use std::hint;
use std::snapshot::Snapshot;
use std::sync::Wait;

/// The word of the turns that have ended: the ticket that is served.
const SERVING: usize = 0;

/// The word of the tickets drawn: the next ticket.
const TICKET: usize = 1;

/// How many turns may be ahead of a seat that looks before it sleeps: with more, it sleeps at once.
const NEAR: u64 = 3;

/// How often a seat looks before it sleeps: about as long as falling asleep and waking take.
const LOOKS: u32 = 4000;

/// The slot of the object.
const OBJECT: usize = 0;

/// Kind 2: draws a ticket.
pub(crate) fn draw<O: Sequential>(floor: &Floor<O>, place: &mut Place<O>) -> u64
    requires own { IsPlaceOf floor.now.table_id place.old }
    requires rests { (place.old.me.0.stage ≡ Idle) × (1 ≤ length place.old.me.0.chairs) }
    ensures own { IsSamePlace place.old place.new }
    ensures drawn { HasDrawn result place.old.me place.new.me }
{
    floor.fetch_add::<Draw>(place, TICKET, 1)
}

/// Kind 3: looks whether the ticket is served, and takes the slot then.
pub(crate) fn takes_turn<O: Sequential>(floor: &Floor<O>, place: &mut Place<O>, ticket: u64) -> bool
    requires own { IsPlaceOf floor.now.table_id place.old }
    requires waits { WaitsFor ticket place.old.me.0 }
    ensures own { IsSamePlace place.old place.new }
    ensures turn { MatchBool result (HasTurn place.old.me place.new.me) (place.new.me ≡ place.old.me) }
{
    let serving = floor.load::<Look>(place, SERVING);
    serving == ticket
}

/// Waits until the ticket is served, and takes the slot then. Most turns are far shorter than a
/// sleep, so a seat that is soon next looks for a while before it sleeps.
pub(crate) fn wait_turn<O: Sequential, R: Wait>(
    rt: &R,
    floor: &Floor<O>,
    place: &mut Place<O>,
    ticket: u64,
)
    requires own { IsPlaceOf floor.now.table_id place.old }
    requires waits { WaitsFor ticket place.old.me.0 }
    ensures own { IsSamePlace place.old place.new }
    ensures turn { HasTurn place.old.me place.new.me }
{
    let ahead = ticket.wrapping_sub(floor.peek(SERVING));
    let looks = if ahead > NEAR { 0 } else { LOOKS };
    if !takes_turn_soon(floor, place, ticket, looks) {
        sleep_until_turn(rt, floor, place, ticket);
    }
}

/// Looks for the turn so many times.
fn takes_turn_soon<O: Sequential>(
    floor: &Floor<O>,
    place: &mut Place<O>,
    ticket: u64,
    looks: u32,
) -> bool
    requires own { IsPlaceOf floor.now.table_id place.old }
    requires waits { WaitsFor ticket place.old.me.0 }
    ensures own { IsSamePlace place.old place.new }
    ensures turn { MatchBool result (HasTurn place.old.me place.new.me) (place.new.me ≡ place.old.me) }
{
    for _ in 0..looks {
        if takes_turn(floor, place, ticket) {
            return true;
        }
        hint::spin_loop();
    }
    false
}

/// Sleeps on the ticket's bell until the ticket is served.
fn sleep_until_turn<O: Sequential, R: Wait>(
    rt: &R,
    floor: &Floor<O>,
    place: &mut Place<O>,
    ticket: u64,
)
    requires own { IsPlaceOf floor.now.table_id place.old }
    requires waits { WaitsFor ticket place.old.me.0 }
    ensures own { IsSamePlace place.old place.new }
    ensures turn { HasTurn place.old.me place.new.me }
{
    for _ in rt.forever() {
        let watched = watch(floor, place, ticket);
        let Err(missed) = watched.look(floor, place) else {
            return;
        };
        missed.sleep(rt, floor);
    }
    unreachable!()
}

/// Kind 7: the object out of its slot.
pub(crate) fn take_out<O: Sequential>(floor: &Floor<O>, place: &mut Place<O>) -> O
    requires own { place.old.table_id ≡ floor.now.table_id }
    requires turn { (d : O) × (place.old.me.1 ≡ (0, Some d) ∷ []) }
    ensures own { IsSamePlace place.old place.new }
    ensures out { (place.old.me.1 ≡ (0, Some result) ∷ []) × (place.new.me ≡ (place.old.me.0, (0, None) ∷ [])) }
{
    let Some(object) = floor.exchange(place, OBJECT, None) else {
        unreachable!()
    };
    object
}

/// Kind 8: the object home into its slot.
pub(crate) fn put_home<O: Sequential>(floor: &Floor<O>, place: &mut Place<O>, object: O)
    requires own { place.old.table_id ≡ floor.now.table_id }
    requires out { place.old.me.1 ≡ (0, None) ∷ [] }
    ensures own { IsSamePlace place.old place.new }
    ensures home { place.new.me ≡ (place.old.me.0, (0, Some object) ∷ []) }
{
    let before = floor.exchange(place, OBJECT, Some(object));
    let None = before else { unreachable!() };
}

/// Kind 4: ends the turn, and wakes who sleeps for the next one. The number, the call and the reply
/// are for the proof alone.
pub(crate) fn end_turn<O: Sequential, W: Said<O, O::Call, O::Reply>>(
    floor: &Floor<O>,
    place: &mut Place<O>,
    number: usize,
    call: &Snapshot<O::Call>,
    reply: &O::Reply,
)
    requires own { IsPlaceOf floor.now.table_id place.old }
    requires told { W.told ≡ Some (ended floor.now.key.seats floor.now.key.first.value call.now.value reply.now) }
    requires stepped { CanEnd O.allowed call.now.value reply.now number (seen_of place.old.me.0) place.old.me }
    ensures own { IsSamePlace place.old place.new }
    ensures ended { HasEnded O.allowed (ended floor.now.key.seats floor.now.key.first.value call.now.value reply.now) call.now.value reply.now number (seen_of place.old.me.0) place.new.me }
{
    let _ = number;
    let _ = call;
    let _ = reply;
    let ticket = floor.fetch_add::<Give<W>>(place, SERVING, 1);
    ring(floor, place, ticket.wrapping_add(1));
}

/// Kind 6: sees the history so far.
pub(crate) fn learn<O: Sequential, W: Said<O, O::Call, O::Reply>>(
    floor: &Floor<O>,
    place: &mut Place<O>,
)
    requires own { IsPlaceOf floor.now.table_id place.old }
    requires told { W.told ≡ Some (opened floor.now.key.seats floor.now.key.first.value) }
    requires rests { place.old.me.0.stage ≡ Idle }
    ensures own { IsSamePlace place.old place.new }
    ensures learned { HasLearned O.allowed (opened floor.now.key.seats floor.now.key.first.value) place.old.me place.new.me }
{
    floor.load::<Learn<W>>(place, SERVING);
}
