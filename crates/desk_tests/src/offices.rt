//! An office over a sum, and a session from the seat of an office.
//!
//! `meet TOTAL AMOUNT`: one seat adds to a sum, another meets it and reads it; `close TOTAL AMOUNT`: one
//! seat adds, and the office is closed with one seat and with both; `threads`: eight seats add 1 a thousand
//! times each, in threads of their own; `seat LINES`: commands of a session on a desk; `seats`: one seat of an
//! office over a desk adds a deck, and another meets it and reads the deck; then the office is closed, with one seat
//! and with both.
ghost use Rattle.std.specs.Prelude.{◌≡◌, ◌+◌, ◌-◌, ◌^◌, ◌≤◌, min, IfOk};
ghost use Rattle.turn_office.specs.Seats.{AreOf};

use crate::jobs::{addition, push_told};
use crate::memory_shelf::MemoryShelf;
use crate::place::serve_ports;
use desk_core::{Call, Desk, Question, Reply};
use session_line::SeatCalls;
use std::alloc::{AllocError, AllocGlobal, Global};
use std::mem::size_of;
use std::sync::Wait;
use std::thread;
use std::thread::Threads;
use test_parts::{Answer, Failing, Got, cut_number, fixed_keys, name_of, number};
use turn_office::{CloseFault, Office, Seat, SeatList, Sequential};

/// How many calls each thread makes.
const CALLS: u64 = 1000;

/// Makes a step of this word, if it is one of offices, and answers whether it is.
pub fn make<R: AllocGlobal + Threads + Wait + Sync>(
    rt: &R,
    word: &str,
    rest: &str,
    answer: &mut Answer,
) -> bool {
    let (first, second) = cut_number(rest);
    let second = number(second);
    let done = match word {
        "meet" => meet(rt, first, second, answer),
        "close" => close(rt, first, second, answer),
        "threads" => add_in_threads(rt, answer),
        "seat" => say_all(rt, rest, answer),
        "seats" => meet_at_desk(rt, answer),
        _ => return false,
    };
    answer.keep(done);
    answer.line("");
    true
}

/// A sum, which stays at its greatest value. A call adds to it, and the reply is the sum then.
#[derive(Drop)]
struct Sum {
    total: u64,
}

impl Sequential for Sum {
    type Call = u64;

    type Reply = u64;

    ghost allowed = { λ old call reply new. (reply ≡ min (old.total + call) (2 ^ 64 - 1)) × (new.total ≡ reply) };

    fn step(&mut self, call: u64) -> u64 {
        self.total = self.total.saturating_add(call);
        self.total
    }
}

/// One seat adds, another meets it and reads the sum: it is proved that it reads what was added, at
/// least, whoever else adds at the same time.
fn add_and_read<R: Wait>(
    rt: &R,
    office: &Office<Sum>,
    first: &mut Seat<Sum>,
    second: &mut Seat<Sum>,
    amount: u64,
) -> Got<u64>
    requires { (first.old.office ≡ office.now.id) × (second.old.office ≡ office.now.id) }
    ensures same { (first.new.office ≡ first.old.office) × (second.new.office ≡ second.old.office) }
    ensures read { IfOk result (λ sum. amount ≤ sum) }
{
    first.call(rt, office, amount);
    second.meet(rt, office, first)?;
    Ok(second.call(rt, office, 0))
}

/// Adds 1 so many times.
fn add_ones<R: Wait>(rt: &R, office: &Office<Sum>, mut seat: Seat<Sum>, calls: u64) -> Seat<Sum>
    requires { seat.office ≡ office.now.id }
    ensures { result.office ≡ office.now.id }
{
    for _ in 0..calls {
        seat.call(rt, office, 1);
    }
    seat
}

/// Each seat adds 1 a thousand times, in a thread of its own.
fn add_from_all<R: Threads + Wait + Sync>(
    rt: &R,
    office: &Office<Sum>,
    seats: SeatList<Sum>,
) -> Got<SeatList<Sum>>
    requires { AreOf office.now.id seats.items }
    ensures { IfOk result (λ list. AreOf office.now.id list.items) }
{
    thread::map_vec(rt, seats, &|seat| add_ones(rt, office, seat, CALLS))
}

/// An office over an object, and its seats.
pub fn open<T: Sequential + Drop>(
    alloc: Global,
    object: T,
    seats: usize,
) -> Got<(Office<T>, SeatList<T>)>
    requires { (1 ≤ seats) × (seats ≤ 64) }
    ensures { IfOk result (λ opened. AreOf opened.0.id opened.1.items) }
{
    Ok(Office::open(alloc, object, seats)?)
}

/// An office over an object, and its two seats.
fn open_two<T: Sequential + Drop>(alloc: Global, object: T) -> Got<(Office<T>, Seat<T>, Seat<T>)>
    ensures { IfOk result (λ r. (r.1.office ≡ r.0.id) × (r.2.office ≡ r.0.id)) }
{
    let (office, mut seats) = open(alloc, object, 2)?;
    match (seats.pop(), seats.pop()) {
        (Some(second), Some(first)) => Ok((office, first, second)),
        _ => Err(AllocError),
    }
}

/// One seat adds, and another meets it and reads.
fn meet<R: AllocGlobal + Wait>(rt: &R, total: u64, amount: u64, answer: &mut Answer) -> Got<()> {
    let (office, mut first, mut second) = open_two(rt.alloc(), Sum { total })?;
    answer.number("seats ", first.number() as u64);
    answer.number(" and ", second.number() as u64);
    answer.push(", read ");
    answer.debug(&add_and_read(rt, &office, &mut first, &mut second, amount));
    Ok(())
}

/// What an office was over, which is closed with all its seats.
pub fn closed<T: Sequential + Drop>(office: Office<T>, seats: SeatList<T>) -> Got<T>
    requires { AreOf office.id seats.items }
{
    match office.close(seats) {
        Ok(object) => Ok(object),
        Err(fault) => {
            drop(fault);
            Err(AllocError)
        }
    }
}

/// The same with these seats and one more.
fn closed_with<T: Sequential + Drop>(office: Office<T>, seats: SeatList<T>, last: Seat<T>) -> Got<T>
    requires own { AreOf office.id seats.items }
    requires last { last.office ≡ office.id }
{
    let mut all = seats;
    all.push(last)?;
    closed(office, all)
}

/// The same with one of two seats, and then with both.
fn closed_in_turn<T: Sequential + Drop>(
    office: Office<T>,
    first: Seat<T>,
    second: Seat<T>,
    answer: &mut Answer,
) -> Got<T>
    requires first { first.office ≡ office.id }
    requires second { second.office ≡ office.id }
{
    let mut one = Vec::new(answer.alloc);
    one.push(first)?;
    match office.close(one) {
        Err(CloseFault::SeatsOut { office, seats }) => {
            answer.number(", not closed with ", seats.len() as u64);
            closed_with(office, seats, second)
        }
        other => {
            drop(other);
            Err(AllocError)
        }
    }
}

/// Closes an office with one seat, and then with both.
fn close<R: AllocGlobal + Wait>(rt: &R, total: u64, amount: u64, answer: &mut Answer) -> Got<()> {
    let (office, first, mut second) = open_two(rt.alloc(), Sum { total })?;
    answer.number("reply ", second.call(rt, &office, amount));
    let sum = closed_in_turn(office, first, second, answer)?;
    answer.number(", sum ", sum.total);
    Ok(())
}

/// Eight seats add in threads of their own: the sum, and how many words a seat has.
fn add_in_threads<R: AllocGlobal + Threads + Wait + Sync>(rt: &R, answer: &mut Answer) -> Got<()> {
    let (office, seats) = open(rt.alloc(), Sum { total: 0 }, 8)?;
    let seats = add_from_all(rt, &office, seats)?;
    answer.debug(&(size_of::<Seat<Sum>>() == size_of::<usize>()));
    let sum = closed(office, seats)?;
    answer.number(", sum ", sum.total);
    Ok(())
}

/// Asks from a seat. What it answers is looked at and no contract of it, and so who asks has no facts of it.
pub fn ask_from<R: Wait>(rt: &R, office: &Office<Desk>, seat: &mut Seat<Desk>, call: Call) -> Reply
    requires { seat.old.office ≡ office.now.id }
    ensures { seat.new.office ≡ seat.old.office }
{
    seat.call(rt, office, call)
}

/// One seat adds a deck, and another meets it and reads the deck.
fn add_and_show<R: Wait>(
    rt: &R,
    office: &Office<Desk>,
    first: &mut Seat<Desk>,
    second: &mut Seat<Desk>,
    answer: &mut Answer,
) -> Got<()>
    requires { (first.old.office ≡ office.now.id) × (second.old.office ≡ office.now.id) }
    ensures same { (first.new.office ≡ first.old.office) × (second.new.office ≡ second.old.office) }
{
    let name = name_of("M")?;
    let call = addition(answer.alloc, "M", "*A")?;
    push_told(answer, ask_from(rt, office, first, call));
    answer.push(", ");
    second.meet(rt, office, first)?;
    push_told(
        answer,
        ask_from(rt, office, second, Call::Ask(Question::Cards(name))),
    );
    Ok(())
}

/// An office over a desk, whose seats meet; closed with one of them, and with both.
fn meet_at_desk<R: AllocGlobal + Wait>(rt: &R, answer: &mut Answer) -> Got<()> {
    let desk = Desk::new(rt.alloc());
    let (office, mut first, mut second) = open_two(rt.alloc(), desk)?;
    let done = add_and_show(rt, &office, &mut first, &mut second, answer);
    answer.keep(done);
    let desk = closed_in_turn(office, first, second, answer)?;
    answer.number(", version ", desk.version());
    desk.free();
    Ok(())
}

/// Says commands of a session on a desk, each from the second seat of its office: the number of the seat.
fn say_all<R: AllocGlobal + Wait>(rt: &R, lines: &str, answer: &mut Answer) -> Got<()> {
    let keys = fixed_keys()?;
    let desk = Desk::new(rt.alloc());
    let (office, _, seat) = open_two(rt.alloc(), desk)?;
    let mut shelf = MemoryShelf::new(rt.alloc(), keys);
    let mut desk = SeatCalls::new(rt, &office, seat);
    for line in lines.split_inclusive('\n') {
        serve_ports(&mut desk, &mut shelf, line, Failing::never(1), answer);
    }
    answer.number("seat ", desk.into_seat().number() as u64);
    drop(shelf);
    drop(office);
    Ok(())
}
