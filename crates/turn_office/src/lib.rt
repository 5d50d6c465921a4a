//! Turns at one shared object: an office opens with an object and its seats, each thread calls the
//! object from a seat of its own, and each reply is proved to be the object's at one point of one
//! legal history.
//!
//! An object is any `Sequential`: its calls, its replies, a `step`, and the relation that `step`
//! meets. A history has an entry for each turn: the number of the seat, the call and the reply. It
//! is legal where each entry is a step that the object may make, from the state that the office was
//! opened with. Histories, and what a seat has seen of them, exist in proofs alone: a seat is its
//! number, however many calls it makes.
//!
//! Two words and a slot carry the turns: `ticket` is the number of tickets drawn, `serving` the
//! number of turns that have ended, and the slot has the object while nobody has the turn. Each
//! step of the code that touches them is of one of these kinds:
//!
//! | Kind | Step | Where | What it changes of what seats know |
//! |---|---|---|---|
//! | 1 | a load in splitting a seat | `Office::open`, `Seat::meet` | a new seat has the first number of the old one, or all that it has |
//! | 2 | a `fetch_add` on `ticket` | `Seat::call` | the caller has this ticket |
//! | 3 | a load of `serving` | `Seat::call` | where it is the ticket, the caller takes the slot and has the turn |
//! | 4 | a `fetch_add` on `serving` | `Seat::call` | the caller gives the slot back; the entry ends the history, all of which the caller has seen |
//! | 5 | a load in joining a seat | `Seat::meet`, `Office::close` | the keeper has the other's numbers, with what was seen under each; the other has none |
//! | 6 | a load of `serving` | `Seat::meet` | the caller has seen the history so far under each of its numbers |
//! | 7, 8 | the exchange of the slot, out and home | `Seat::call` | nothing |
//! | 9 | a `fetch_add` on a bell | `Seat::call` | nothing |
//!
//! The bells are words more, one for each ticket that can be out (`bells.rt`). Who waits long makes the
//! bell of its ticket odd, looks once more and sleeps on it; the end of a turn looks at the bell of the
//! next ticket, and where it is odd makes it even and wakes. Sleeping, waking and looking at a word
//! without a seat change nothing that is known. `Office::close` takes the table apart: the last seat
//! has then seen the whole history. All steps are sequentially consistent.
//!
//! A seat that is dropped takes its number with it: the other seats go on, but `Office::close` answers
//! `SeatsOut` for ever, and the object does not come back.
//!
//! Not promised: that a call gets its turn, in what time, or in which order seats that never met
//! make their calls.
#![tactic(auto)]

mod bells;
mod close;
mod history;
mod office;
mod rule;
mod seat;
mod sequential;
mod turn;
mod views;

pub use close::CloseFault;
pub use history::Entry;
pub use office::{Office, SeatList};
pub use seat::Seat;
pub use sequential::Sequential;
