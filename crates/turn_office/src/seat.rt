//! A seat of an office, and what a thread does with it.
ghost use Rattle.std.specs.Prelude.{◌≡◌, Ok};
ghost use Rattle.turn_office.specs.Histories.{Answers, Continues, IsLegal};

use crate::office::Office;
use crate::rule::{Deal, Leave, Place, TakeIn};
use crate::sequential::Sequential;
use crate::turn::{draw, end_turn, learn, put_home, take_out, wait_turn};
use std::alloc::AllocError;
use std::marker::{Brand, Model};
use std::snapshot::Snapshot;
use std::sync::Wait;

/// A seat, with which one thread at a time calls the object of its office.
/// Contracts see its office, its number there and the history that it has seen.
#[derive(Drop)]
pub struct Seat<O: Sequential> {
    pub(crate) place: Place<O>,
    pub(crate) number: usize,
}

impl<O: Sequential> Model for Seat<O> {
    ghost use Rattle.turn_office.specs.Seats.{SeatFacts};

    ghost Value = { SeatFacts O.Call O.Reply };

    ghost use Rattle.turn_office.specs.Boards.{seat_facts, IsSeated};

    ghost view = { λ s. seat_facts s.number s.place };

    ghost invariant = { λ s. IsSeated s.number s.place };
}

impl<O: Sequential> Seat<O> {
    /// The seat's number in its office, from 0.
    pub fn number(&self) -> usize
        ensures { result ≡ self.now.number }
    {
        self.number
    }

    /// Makes one call of the office's object, in a turn of its own. It waits for the turn, in which
    /// it does nothing but the step.
    pub fn call<R: Wait>(&mut self, rt: &R, office: &Office<O>, call: O::Call) -> O::Reply
        requires { self.old.office ≡ office.now.id }
        ensures same { (self.new.office ≡ self.old.office) × (self.new.number ≡ self.old.number) }
        ensures history { Answers O.allowed office.now.seats office.now.first self.old.number call result self.old.seen self.new.seen }
    {
        let floor = &office.board.shared;
        let said = Snapshot::of(&call);
        let ticket = draw(floor, &mut self.place);
        wait_turn(rt, floor, &mut self.place, ticket);
        let mut object = take_out(floor, &mut self.place);
        let reply = object.step(call);
        put_home(floor, &mut self.place, object);
        end_turn::<O, Brand>(floor, &mut self.place, self.number, &said, &reply);
        reply
    }

    /// Both seats see one history, which begins with what each had seen. It waits for nobody, and
    /// takes no memory: all that the other has goes over to this seat (kinds 1 and 5), which looks at
    /// the history for both (kind 6), and the other's number goes back (kind 1).
    pub fn meet<R>(
        &mut self,
        rt: &R,
        office: &Office<O>,
        other: &mut Seat<O>,
    ) -> Result<(), AllocError>
        requires { (self.old.office ≡ office.now.id) × (other.old.office ≡ office.now.id) }
        ensures met { result ≡ Ok tt }
        ensures same { (self.new.office ≡ self.old.office) × (self.new.number ≡ self.old.number) × (other.new.office ≡ other.old.office) × (other.new.number ≡ other.old.number) }
        ensures one { other.new.seen ≡ self.new.seen }
        ensures legal { IsLegal O.allowed office.now.seats office.now.first self.new.seen }
        ensures seen { Continues self.old.number self.old.seen self.new.seen × Continues other.old.number other.old.seen self.new.seen }
    {
        let _ = rt;
        let floor = &office.board.shared;
        let all = floor.split_seat::<Leave>(&mut other.place);
        floor.join_seat::<TakeIn>(&mut self.place, all);
        learn::<O, Brand>(floor, &mut self.place);
        other.place = floor.split_seat::<Deal>(&mut self.place);
        Ok(())
    }
}
