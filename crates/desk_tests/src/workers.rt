//! Workers work at the same time, and stop.
//!
//! `work_both`: two workers at their seats and the jobs of two decks, the first of which waits for the second;
//! `work_alone`: a worker whose bell can't ring again; `work_much`: the same with so many cards that the desk
//! publishes by itself.
ghost use Rattle.std.specs.Prelude.{◌≡◌, IfOk};
ghost use Rattle.std.specs.Thread.{IsSync};

use crate::jobs::{addition, ask, push_asked};
use crate::offices::open;
use crossbeam_channel::Receiver;
use deck_workers::{Bell, Gate, NoSubscriber, OpenGate, worker};
use desk_core::{Call, Desk, Question, Work};
use session_line::{Called, SeatCalls};
use std::alloc::{AllocError, AllocGlobal, Global};
use std::hash::RandomState;
use std::sync::Wait;
use std::sync::atomic::{AtomicU64, Ordering};
use std::thread;
use std::thread::Threads;
use std::time::Clock;
use test_parts::{Answer, Got, fixed_keys};
use turn_office::{Office, Seat};

/// Makes a step of this word, if it is one of workers, and answers whether it is.
pub fn make<R: AllocGlobal + Threads + Wait + Clock + Sync>(
    rt: &R,
    word: &str,
    answer: &mut Answer,
) -> bool {
    let done = match word {
        "work_both" => work_both(rt, rt.alloc(), answer),
        "work_alone" => work_alone(rt, rt.alloc(), CARD, answer),
        "work_much" => work_much(rt, rt.alloc(), answer),
        _ => return false,
    };
    answer.keep(done);
    answer.line("");
    true
}

/// How often a job looks for another before it goes on.
const LOOKS: u64 = 1_000_000;

/// A gate that holds the first job until a second has entered, for so many looks at most.
#[derive(Drop)]
struct MeetingGate {
    /// How many jobs have entered.
    entered: AtomicU64,
    /// How many of them were not alone: another had entered by the time when they went on.
    met: AtomicU64,
    /// How many have left.
    left: AtomicU64,
}

impl Gate for MeetingGate {
    fn enter(&self, _lease: u64) {
        self.entered.fetch_add(1, Ordering::SeqCst);
        for _ in 0..LOOKS {
            if self.entered.load(Ordering::SeqCst) >= 2 {
                self.met.fetch_add(1, Ordering::SeqCst);
                return;
            }
            thread::yield_now();
        }
    }

    fn leave(&self, _lease: u64) {
        self.left.fetch_add(1, Ordering::SeqCst);
    }
}

/// A worker at a seat, of whom nobody asks for publications. What it does is looked at and no contract of it.
fn work<R: Wait + Clock, G: Gate>(
    rt: &R,
    alloc: Global,
    keys: RandomState,
    office: &Office<Desk>,
    seat: Seat<Desk>,
    gate: &G,
    bells: Receiver<Bell>,
) -> Seat<Desk>
    requires { seat.office ≡ office.now.id }
{
    let none = &mut NoSubscriber;
    worker(rt, alloc, keys, office, seat, gate, none, bells)
}

/// Two workers at their seats.
fn work_at_seats<R: Threads + Wait + Clock + Sync>(
    rt: &R,
    alloc: Global,
    keys: RandomState,
    office: &Office<Desk>,
    seats: (Seat<Desk>, Seat<Desk>),
    gate: &MeetingGate,
    bells: (Receiver<Bell>, Receiver<Bell>),
) -> (Seat<Desk>, Seat<Desk>)
    requires { (seats.0.office ≡ office.now.id) × (seats.1.office ≡ office.now.id) }
{
    let (first, second) = seats;
    let (to_first, to_second) = bells;
    thread::join(
        rt,
        move || -> Seat<Desk>
            requires { IsSync R.row × (first.office ≡ office.now.id) }
        { work(rt, alloc, keys, office, first, gate, to_first) },
        move || -> Seat<Desk>
            requires { IsSync R.row × (second.office ≡ office.now.id) }
        { work(rt, alloc, keys, office, second, gate, to_second) },
    )
}

/// An office over a desk, and its three seats, the first in front.
fn open_three(alloc: Global) -> Got<(Office<Desk>, Seat<Desk>, Seat<Desk>, Seat<Desk>)>
    ensures { IfOk result (λ r. (r.1.office ≡ r.0.id) × (r.2.office ≡ r.0.id) × (r.3.office ≡ r.0.id)) }
{
    let desk = Desk::new(alloc);
    let (office, mut seats) = open(alloc, desk, 3)?;
    match (seats.pop(), seats.pop(), seats.pop()) {
        (Some(third), Some(second), Some(first)) => Ok((office, first, second, third)),
        _ => Err(AllocError),
    }
}

/// The one card of a small deck.
const CARD: &str = "          BX6    X1";

/// How many cards a deck has of which two have more than are delivered at once.
const MANY: u32 = 10_001;

/// Adds the decks A and B.
fn add_two<D: Called>(desk: &mut D, alloc: Global, lines: &str) -> Got<()> {
    for of in &["A", "B"] {
        let call = addition(alloc, of, lines)?;
        ask(desk, call).free();
    }
    Ok(())
}

/// What a claim finds to do, and how many decks the publication has.
fn push_published<D: Called>(desk: &mut D, answer: &mut Answer) {
    push_asked(desk, Call::Do(Work::Claim), answer);
    answer.push(", ");
    push_asked(desk, Call::Ask(Question::Show), answer);
}

/// The end of a channel with this bell, so many times.
fn rung<R: Wait>(rt: &R, alloc: Global, bell: Bell, times: usize) -> Got<Receiver<Bell>> {
    let (ring, bells) = crossbeam_channel::unbounded(alloc)?;
    for _ in 0..times {
        let _ = ring.send(rt, bell);
    }
    Ok(bells)
}

fn work_both<R: Threads + Wait + Clock + Sync>(
    rt: &R,
    alloc: Global,
    answer: &mut Answer,
) -> Got<()> {
    let keys = fixed_keys()?;
    let bells = rung(rt, alloc, Bell::Stop, 2)?;
    let bells = (bells.clone()?, bells);
    let (office, first, second, third) = open_three(alloc)?;
    let mut desk = SeatCalls::new(rt, &office, third);
    answer.keep(add_two(&mut desk, alloc, CARD));
    let gate = MeetingGate {
        entered: AtomicU64::new(0),
        met: AtomicU64::new(0),
        left: AtomicU64::new(0),
    };
    work_at_seats(rt, alloc, keys, &office, (first, second), &gate, bells);
    answer.number("entered ", gate.entered.into_inner());
    answer.number(", met ", gate.met.into_inner());
    answer.number(", left ", gate.left.into_inner());
    answer.push(", ");
    push_published(&mut desk, answer);
    drop(desk);
    drop(office);
    Ok(())
}

fn work_alone<R: Wait + Clock>(rt: &R, alloc: Global, lines: &str, answer: &mut Answer) -> Got<()> {
    let keys = fixed_keys()?;
    let bells = rung(rt, alloc, Bell::Work, 1)?;
    let (office, first, _, third) = open_three(alloc)?;
    let mut desk = SeatCalls::new(rt, &office, third);
    answer.keep(add_two(&mut desk, alloc, lines));
    let first = work(rt, alloc, keys, &office, first, &OpenGate, bells);
    answer.number("seat ", first.number() as u64);
    answer.push(", ");
    push_published(&mut desk, answer);
    drop(desk);
    drop(office);
    Ok(())
}

fn work_much<R: Wait + Clock>(rt: &R, alloc: Global, answer: &mut Answer) -> Got<()> {
    let mut lines = String::new(alloc);
    for _ in 0..MANY {
        lines.push_str("*\n")?;
    }
    work_alone(rt, alloc, &lines, answer)
}
