//! The office: a shared object with its seats.
ghost use Rattle.std.specs.Prelude.{◌≡◌, ◌≤◌, [], ◌∷◌, length, Some, IfErr, IfOk};
ghost use Rattle.turn_office.specs.Rule.{undealt};
ghost use Rattle.turn_office.specs.Seats.{AreOf, new_seats};

use crate::bells::WORDS;
use crate::rule::{Board, Deal, Opening, Place};
use crate::seat::Seat;
use crate::sequential::Sequential;
use atomic_table::{Refused, Table};
use std::alloc::{AllocFailed, Global};
use std::marker::Model;
use std::snapshot::Snapshot;

/// Seats of one office, in any order. A new office gives them in the order of their numbers.
pub type SeatList<O> = Vec<Seat<O>>;

/// A shared object, at which its seats take turns. Threads share it by reference.
/// Contracts see which office it is, how many seats it has, and the state that it was opened with.
#[derive(Drop)]
pub struct Office<O: Sequential> {
    pub(crate) board: Board<O>,
    pub(crate) seats: usize,
}

impl<O: Sequential> Model for Office<O> {
    ghost use Rattle.turn_office.specs.Seats.{OfficeFacts};

    ghost Value = { OfficeFacts O };

    ghost use Rattle.turn_office.specs.Boards.{office_facts, IsOpen};

    ghost view = { λ o. office_facts o.board.shared.table_id o.board.shared.key };

    ghost invariant = { λ o. IsOpen o.seats o.board.shared.table_id o.board.shared.key };
}

impl<O: Sequential> Office<O> {
    /// Opens an office with 1 to 64 seats, numbered from 0, which have seen nothing. Where there
    /// is no memory, the object comes back.
    pub fn open(
        alloc: Global,
        object: O,
        seats: usize,
    ) -> Result<(Office<O>, SeatList<O>), AllocFailed<O>>
        requires { (1 ≤ seats) × (seats ≤ 64) }
        ensures office { IfOk result (λ r. (r.0.seats ≡ seats) × (r.0.first ≡ object)) }
        ensures seats { IfOk result (λ r. (r.1.items ≡ new_seats r.0.id seats) × AreOf r.0.id r.1.items) }
        ensures err { IfErr result (λ failed. failed.value ≡ object) }
    {
        let Ok(list) = Vec::with_capacity(alloc, seats) else {
            return Err(AllocFailed { value: object });
        };
        let (office, dealer) = lay(alloc, object, seats)?;
        let list = office.deal(dealer, list);
        Ok((office, list))
    }

    /// Kind 1: each number goes to a seat of its own.
    fn deal(&self, mut dealer: Place<O>, mut list: SeatList<O>) -> SeatList<O>
        requires own { dealer.table_id ≡ self.now.id }
        requires all { dealer.me ≡ (undealt self.now.seats, []) }
        requires room { (list.items ≡ []) × (self.now.seats ≤ list.cap) }
        ensures { result.items ≡ new_seats self.now.id self.now.seats }
    {
        for number in 0..self.seats {
            let place = self.board.shared.split_seat::<Deal>(&mut dealer);
            list.push_reserved(Seat { place, number });
        }
        list
    }
}

/// The table of a new office, and the seat that has all numbers.
fn lay<O: Sequential>(
    alloc: Global,
    object: O,
    seats: usize,
) -> Result<(Office<O>, Place<O>), AllocFailed<O>>
    requires { (1 ≤ seats) × (seats ≤ 64) }
    ensures office { IfOk result (λ r. (r.0.seats ≡ seats) × (r.0.first ≡ object)) }
    ensures dealer { IfOk result (λ r. (r.1.table_id ≡ r.0.id) × (r.1.me ≡ (undealt seats, []))) }
    ensures err { IfErr result (λ failed. failed.value ≡ object) }
{
    let about = Opening {
        seats,
        first: Snapshot::of(&object),
    };
    let mut slots = Vec::new(alloc);
    if slots.reserve(1).is_err() {
        slots.destroy_empty();
        return Err(AllocFailed { value: object });
    }
    slots.push_reserved(Some(object));
    match Table::new(alloc, &[0; WORDS], slots, &about) {
        Ok((board, dealer)) => Ok((Office { board, seats }, dealer)),
        Err(Refused { slots }) => Err(AllocFailed { value: only(slots) }),
    }
}

/// The object of a row of one slot.
fn only<O>(mut slots: Vec<Option<O>>) -> O
    requires { (object : O) × (slots.items ≡ Some object ∷ []) }
    ensures { slots.items ≡ Some result ∷ [] }
{
    let Some(Some(object)) = slots.pop() else {
        unreachable!()
    };
    slots.destroy_empty();
    object
}
