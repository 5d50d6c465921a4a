//! A worker at its seat.
ghost use Rattle.std.specs.Prelude.{◌≡◌, ◌∷◌, []};
ghost use Rattle.turn_office.specs.Histories.{IsLegal, entry};
ghost use Rattle.desk_core.specs.Steps.{Steps};
ghost use Rattle.deck_workers.specs.Jobs.{MayMake};
ghost use Rattle.deck_workers.specs.Joins.Rests.{is_refused, is_starved, told_as, went_well};
ghost use Rattle.deck_workers.specs.Rounds.{call_of};
ghost use Rattle.deck_workers.specs.Working.{Calls, MakesRound, Works};

use crate::bells::{Bell, Patience, Round, goes_on};
use crate::gates::Gate;
use crate::subscribers::{Subscriber, tell_after};
use crate::{Job, Made, Runs, job_in};
use crossbeam_channel::Receiver;
use deck_listing::ListedObject;
use desk_core::{Call, DeckCards, Desk, Refusal, Reply, Work};
use std::alloc::{AllocError, Global};
use std::hash::RandomState;
use std::sync::Wait;
use std::time::Clock;
use turn_office::{Office, Seat};
use work_meter::Meter;

/// Works at a seat of the office until it is asked to stop, and hands the seat back. It claims; a job
/// that it gets it runs between `enter` and `leave` of the gate, and then ends it by one call: it delivers the deck
/// that it made, has the desk publish what the link job was for, or gives the lease up. After such a call, refused
/// or not, it claims again; after it gave a lease up, or the desk had no memory to publish, or its claim was
/// refused, as for want of memory, it sleeps for a while, the longer the more often, or until a bell comes; after
/// all else until a bell comes. `Stop` ends it, and so does a channel that no bell can come from.
///
/// What the seat had seen begins what it has seen then, and its calls since are rounds: each is a
/// claim, followed by the one call that ends the job, where the claim gave one, and by no other. Of each publication
/// that the desk made for it the subscriber hears once, behind the reply, and of nothing else.
pub fn worker<R: Wait + Clock, G: Gate, S: Subscriber>(
    rt: &R,
    alloc: Global,
    keys: RandomState,
    office: &Office<Desk>,
    mut seat: Seat<Desk>,
    gate: &G,
    subscriber: &mut S,
    bells: Receiver<Bell>,
) -> Seat<Desk>
    requires { seat.office ≡ office.now.id }
    ensures same { (result.office ≡ seat.office) × (result.number ≡ seat.number) }
    ensures works { Works S.hears seat.number seat.seen result.seen subscriber.old subscriber.new }
    ensures legal { IsLegal Steps office.now.seats office.now.first result.seen }
{
    let mut meter = work_meter::begin();
    let mut patience = Patience::new();
    for _ in rt.forever() {
        let round = make_round(
            rt, alloc, keys, office, &mut seat, gate, subscriber, &mut meter,
        );
        if !goes_on(rt, &bells, round, &mut patience) {
            return seat;
        }
    }
    unreachable!()
}

/// Claims, and does the job that the claim gives, if it gives one; and returns what that came to.
fn make_round<R: Wait, G: Gate, S: Subscriber>(
    rt: &R,
    alloc: Global,
    keys: RandomState,
    office: &Office<Desk>,
    seat: &mut Seat<Desk>,
    gate: &G,
    subscriber: &mut S,
    meter: &mut Meter,
) -> Round
    requires { seat.old.office ≡ office.now.id }
    ensures same { (seat.new.office ≡ seat.old.office) × (seat.new.number ≡ seat.old.number) }
    ensures round { (made : MakesRound S.hears seat.old.number seat.old.seen seat.new.seen subscriber.old subscriber.new) × (result ≡ told_as made.round) }
    ensures legal { IsLegal Steps office.now.seats office.now.first seat.new.seen }
{
    let reply = seat.call(rt, office, Call::Do(Work::Claim));
    let is_refused = is_refused(&reply);
    match job_in(reply) {
        Some(job) => {
            let before = job.cards_before(alloc);
            let made = run(alloc, keys, gate, job, meter);
            let is_result = made.is_result();
            let published = made.published();
            let answered = end_job(rt, office, seat, made);
            tell_after(subscriber, published, &answered);
            free_cards(before);
            let is_well = went_well(is_result, &answered);
            answered.free();
            Round::with_job(is_well)
        }
        None => Round::without_job(is_refused),
    }
}

/// Frees the cards that a deck job began with, if they are held.
fn free_cards(before: Result<Option<DeckCards>, AllocError>) {
    match before {
        Ok(Some(cards)) => cards.free(),
        Ok(None) | Err(_) => {}
    }
}

/// Frees the object of a deck, if it is held.
fn free_object(object: Option<ListedObject>) {
    match object {
        Some(object) => object.free(),
        None => {}
    }
}

/// Ends a job by one call, and lets what was made of it go where the desk did not take it.
fn end_job<R: Wait>(rt: &R, office: &Office<Desk>, seat: &mut Seat<Desk>, made: Made) -> Reply
    requires { seat.old.office ≡ office.now.id }
    ensures same { (seat.new.office ≡ seat.old.office) × (seat.new.number ≡ seat.old.number) }
    ensures called { Calls seat.old.number (entry seat.old.number (call_of made) result ∷ []) seat.old.seen seat.new.seen }
    ensures legal { IsLegal Steps office.now.seats office.now.first seat.new.seen }
{
    let object = made.object();
    let answered = seat.call(rt, office, made.into_call());
    free_object(object);
    answered
}

/// Whether something was made of a job, and the desk had the memory that it takes to publish.
fn went_well(is_result: bool, answered: &Reply) -> bool
    ensures { result ≡ went_well is_result answered.now }
{
    is_result && !is_starved(answered)
}

/// Whether a reply is a refusal.
fn is_refused(reply: &Reply) -> bool
    ensures { result ≡ is_refused reply.now }
{
    matches!(reply, Reply::Refused(_))
}

/// Whether a reply shows want of memory.
fn is_starved(reply: &Reply) -> bool
    ensures { result ≡ is_starved reply.now }
{
    matches!(reply, Reply::Refused(Refusal::OutOfMemory))
}

/// Runs a job behind the gate.
fn run<G: Gate>(alloc: Global, keys: RandomState, gate: &G, job: Job, meter: &mut Meter) -> Made
    ensures { MayMake job result }
{
    let lease = job.lease();
    gate.enter(lease);
    let made = job.run(alloc, keys, meter);
    gate.leave(lease);
    made
}
