//! A desk that is called from a seat of its office.
ghost use Rattle.std.specs.Prelude.{◌≡◌};

use crate::calls::{Called, Calls, unnamed};
use crate::greetings::Greeting;
use cards::DeckName;
use desk_core::{Call, Change, Desk, Question, Reply};
use std::alloc::Global;
use std::sync::Wait;
use turn_office::{Office, Seat};

/// A seat, the office that it is of, and the runtime by which it waits for its turn.
#[derive(Drop)]
pub struct SeatCalls<'a, R> {
    rt: &'a R,
    office: &'a Office<Desk>,
    seat: Seat<Desk>,
    ghost seated: { seat.office ≡ office.now.id },
}

impl<'a, R> SeatCalls<'a, R> {
    /// Calls from this seat of the office.
    pub fn new(rt: &'a R, office: &'a Office<Desk>, seat: Seat<Desk>) -> SeatCalls<'a, R>
        requires { seat.office ≡ office.now.id }
        ensures office { result.office.now ≡ office.now }
        ensures seat { result.seat ≡ seat }
    {
        SeatCalls { rt, office, seat }
    }

    /// The seat, when nothing more is called.
    pub fn into_seat(self) -> Seat<Desk>
        ensures seat { result ≡ self.entry.seat }
        ensures office { result.office ≡ self.entry.office.now.id }
    {
        let SeatCalls { seat, .. } = self;
        seat
    }
}

/// Each reply is the desk's at one point of one legal history, which begins with all that the seat
/// had seen and ends with the call.
impl<R: Wait> Called for SeatCalls<'_, R> {
    ghost use Rattle.session_line.specs.DeskRelations.{asks_seat};

    ghost makes = { asks_seat (λ calls. calls.office.now) (λ calls. calls.seat) };

    fn call(&mut self, call: Call) -> Reply {
        self.seat.call(self.rt, self.office, call)
    }
}

/// A seat by itself knows of no bell, so it answers at once who waits, and of no session, so it keeps no names.
impl<R: Wait> Calls for SeatCalls<'_, R> {
    ghost use Rattle.session_line.specs.DeskRelations.{alone, asks_seat};

    ghost relations = { alone (asks_seat (λ calls. calls.office.now) (λ calls. calls.seat)) };

    fn change(&mut self, change: Change) -> Reply {
        self.call(unnamed(change))
    }

    fn ask(&mut self, question: Question) -> Reply {
        self.call(Call::Ask(question))
    }

    fn await_version(&mut self, version: u64) -> Reply {
        let _ = version;
        self.call(Call::Ask(Question::Status))
    }

    fn greet(&mut self, alloc: Global, name: &DeckName) -> Greeting {
        let _ = name;
        Greeting::alone(alloc, self.call(Call::Ask(Question::Status)))
    }

    fn begin_session(&mut self) {}
}
