//! The end of an office.
ghost use Rattle.std.specs.Prelude.{◌≡◌, ◌≤◌, ◌==◌, true, false, [], length, map, IfErr, IfOk, MatchResult};
ghost use Rattle.turn_office.specs.Rule.{Ends, IsFloor, view};
ghost use Rattle.turn_office.specs.Boards.{chair_of};
ghost use Rattle.turn_office.specs.Seats.{AreOf, Closes, is_whole};
ghost use Rattle.std.specs.List.{list_any};
ghost use Rattle.turn_office.specs.declared.views.Stage.TheVariants.{Idle};
ghost use Rattle.turn_office.specs.declared.close.CloseFault.TheVariants.{SeatsOut};

use crate::office::{Office, SeatList};
use crate::rule::{Floor, Place, TakeIn};
use crate::seat::Seat;
use crate::sequential::Sequential;
use std::fmt;
use thiserror::Error;

/// Why an office does not close. It comes back with the seats that were handed in, untouched.
#[derive(Drop, Error)]
pub enum CloseFault<O: Sequential> {
    /// The list is not all seats of the office.
    #[error("the list is not all seats of the office")]
    SeatsOut {
        office: Office<O>,
        seats: SeatList<O>,
    },
    /// Want of memory, which `close` never meets.
    #[error("no memory was left")]
    OutOfMemory {
        office: Office<O>,
        seats: SeatList<O>,
    },
}

/// Shows the name alone, since what comes back has none.
impl<O: Sequential> fmt::Debug for CloseFault<O> {
    fn fmt<W: fmt::Write>(&self, f: &mut fmt::Formatter<W>) -> fmt::Result {
        match self {
            CloseFault::SeatsOut { .. } => write!(f, "SeatsOut"),
            CloseFault::OutOfMemory { .. } => write!(f, "OutOfMemory"),
        }
    }
}

impl<O: Sequential> Office<O> {
    /// Closes the office, with all its seats, and hands back the object. It waits for nobody, and
    /// takes no memory. Where a seat of the office was dropped, no list is all of them ever again, and
    /// the answer is `SeatsOut` from then on.
    pub fn close(self, seats: SeatList<O>) -> Result<O, CloseFault<O>>
        requires { AreOf self.id seats.items }
        ensures whole { MatchResult result (λ object. is_whole self.seats seats.items ≡ true) (λ fault. is_whole self.seats seats.items ≡ false) }
        ensures object { IfOk result (λ object. Closes O.allowed self.seats self.first seats.items object) }
        ensures back { IfErr result (λ fault. fault ≡ SeatsOut self seats) }
    {
        if !is_whole(self.seats, seats.as_slice()) {
            return Err(CloseFault::SeatsOut {
                office: self,
                seats,
            });
        }
        let keeper = gather(&self.board.shared, seats);
        Ok(self.end(keeper))
    }

    /// Takes the object out of the table of an office all of whose numbers the keeper has.
    fn end(self, keeper: Place<O>) -> O
        requires own { keeper.table_id ≡ self.id }
        requires all { (keeper.me ≡ (view Idle keeper.me.0.chairs, [])) × (length keeper.me.0.chairs ≡ self.seats) }
        ensures { Ends O.allowed self.seats self.first keeper.me.0.chairs result }
    {
        let Office { board, seats: _ } = self;
        let mut closed = board.close_with(keeper);
        let Some(object) = closed.take(0) else {
            unreachable!()
        };
        closed.free();
        object
    }
}

/// Whether the list has as many seats as the office, and every number of it.
fn is_whole<O: Sequential>(seats: usize, list: &[Seat<O>]) -> bool
    ensures { result ≡ is_whole seats list.now }
{
    list.len() == seats && (0..seats).all(|number| has_number(list, number))
}

/// Whether a seat of the list has the number.
fn has_number<O: Sequential>(list: &[Seat<O>], number: usize) -> bool
    ensures { result ≡ list_any (λ seat. seat.number == number) list.now }
{
    list.iter().any(|seat| seat.number == number)
}

/// Kind 5: one seat takes in the numbers of all. It stands for them in the order of the list.
fn gather<O: Sequential>(floor: &Floor<O>, mut list: SeatList<O>) -> Place<O>
    requires own { AreOf floor.now.table_id list.items × IsFloor floor.now.table_id }
    requires some { 1 ≤ length list.items }
    ensures own { result.table_id ≡ floor.now.table_id }
    ensures all { result.me ≡ (view Idle (map chair_of list.items), []) }
{
    let Some(last) = list.pop() else {
        unreachable!()
    };
    let mut keeper = last.place;
    while let Some(seat) = list.pop() {
        floor.join_seat::<TakeIn>(&mut keeper, seat.place);
    }
    list.destroy_empty();
    keeper
}
