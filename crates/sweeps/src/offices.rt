//! A scenario of an office: it opens, two seats call its desk and meet, and it closes.
ghost use Rattle.std.specs.Prelude.{◌≡◌, IfOk};
ghost use Rattle.turn_office.specs.Seats.{new_seats};

use crate::decks::{DECKS, DeckText};
use crate::jobs::{Told, told_of};
use crate::scene::Scene;
use desk_core::{Call, Desk, Question, Refusal};
use desk_tests::{addition, ask_from, closed};
use std::alloc::AllocError;
use std::mem;
use std::sync::Wait;
use test_parts::Got;
use turn_office::{Office, Seat, SeatList};

/// An office of two seats; or the desk comes back where there is no memory.
fn open_once(scene: &mut Scene) -> Got<(Office<Desk>, SeatList<Desk>)>
    ensures { IfOk result (λ opened. opened.1.items ≡ new_seats opened.0.id 2) }
{
    let desk = mem::replace(&mut scene.desk, Desk::new(scene.alloc));
    match Office::open(scene.alloc, desk, 2) {
        Ok(opened) => Ok(opened),
        Err(failed) => {
            mem::replace(&mut scene.desk, failed.value).free();
            Err(AllocError)
        }
    }
}

/// An office of two seats, opened once more where there is no memory: the desk comes back as it was.
fn open(scene: &mut Scene) -> Got<(Office<Desk>, SeatList<Desk>)>
    ensures { IfOk result (λ opened. opened.1.items ≡ new_seats opened.0.id 2) }
{
    let before = scene.state();
    match open_once(scene) {
        Ok(opened) => Ok(opened),
        Err(_) => {
            let is_kept = scene.state() == before;
            scene.journal.refused("Office::open", is_kept);
            open_once(scene)
        }
    }
}

/// An office that is open, and the runtime by which its seats wait.
#[derive(Drop)]
struct Opened<'a, R> {
    rt: &'a R,
    office: &'a Office<Desk>,
}

impl<R: Wait> Opened<'_, R> {
    /// The version of the desk, unless the scenario's own memory was refused.
    fn version(&self, scene: &mut Scene, seat: &mut Seat<Desk>) -> u64
        requires { seat.old.office ≡ self.now.office.now.id }
        ensures { seat.new.office ≡ seat.old.office }
    {
        match told_of(ask_from(self.rt, self.office, seat, Call::Ask(Question::Status))) {
            Told::Version(version) => version,
            _ => {
                scene.journal.is_lacking = true;
                0
            }
        }
    }

    /// Adds a deck from a seat, and answers whether it did. Without memory the version is as before.
    fn add_once(&self, scene: &mut Scene, seat: &mut Seat<Desk>, deck: &DeckText) -> Got<bool>
        requires { seat.old.office ≡ self.now.office.now.id }
        ensures { seat.new.office ≡ seat.old.office }
    {
        let call = addition(scene.alloc, deck.name, deck.lines)?;
        let before = self.version(scene, seat);
        let told = told_of(ask_from(self.rt, self.office, seat, call));
        let after = self.version(scene, seat);
        if told == Told::Refused(Refusal::OutOfMemory) {
            scene.journal.refused("Seat::call", before == after);
        }
        Ok(before < after && told == Told::Version(after))
    }

    /// Adds a deck from a seat, once more where there is no memory.
    fn add(&self, scene: &mut Scene, seat: &mut Seat<Desk>, deck: &DeckText) -> Got<()>
        requires { seat.old.office ≡ self.now.office.now.id }
        ensures { seat.new.office ≡ seat.old.office }
    {
        let is_added = self.add_once(scene, seat, deck)? || self.add_once(scene, seat, deck)?;
        scene.journal.made("Seat::call", is_added);
        Ok(())
    }
}

/// Both seats add a deck, and meet.
fn call_and_meet<R: Wait>(
    rt: &R,
    scene: &mut Scene,
    office: &Office<Desk>,
    first: &mut Seat<Desk>,
    second: &mut Seat<Desk>,
) -> Got<()>
    requires first { first.old.office ≡ office.now.id }
    requires second { second.old.office ≡ office.now.id }
    ensures first { first.new.office ≡ first.old.office }
    ensures second { second.new.office ≡ second.old.office }
{
    let opened = Opened { rt, office };
    opened.add(scene, first, &DECKS[1])?;
    opened.add(scene, second, &DECKS[2])?;
    let have_met = first.meet(rt, office, second).is_ok();
    scene.journal.made("meet", have_met);
    Ok(())
}

/// Calls from both seats, and closes the office: the desk.
fn use_office<R: Wait>(
    rt: &R,
    scene: &mut Scene,
    office: Office<Desk>,
    mut seats: SeatList<Desk>,
) -> Got<Desk>
    requires { seats.items ≡ new_seats office.id 2 }
{
    let (Some(mut second), Some(mut first)) = (seats.pop(), seats.pop()) else {
        return Err(AllocError);
    };
    call_and_meet(rt, scene, &office, &mut first, &mut second)?;
    seats.push(first)?;
    seats.push(second)?;
    closed(office, seats)
}

/// An office from its opening to its end, and what its desk then has.
pub fn office<R: Wait>(rt: &R, scene: &mut Scene) -> Got<()> {
    scene.load_first();
    let (office, seats) = open(scene)?;
    let desk = use_office(rt, scene, office, seats)?;
    mem::replace(&mut scene.desk, desk).free();
    scene.journal.made("close", true);
    scene.settle_as_asm()
}
