//! A counter behind an office and behind a lock, with a common start for all threads of a run.
ghost use Rattle.std.specs.Prelude.{◌≡◌, ◌+◌, ◌*◌, ◌%◌, ◌^◌, ◌≤◌, IfOk};
ghost use Rattle.turn_office.specs.Seats.{AreOf};

use std::alloc::{AllocError, Global};
use std::sync::{Barrier, Mutex, Wait};
use std::thread::Threads;
use std::time::{Clock, Duration, Instant};
use std::{io, thread};
use turn_office::{Office, Seat, SeatList, Sequential};

/// A counter. A call adds 1, and the reply is the count then.
#[derive(Drop)]
pub struct Counter {
    count: u64,
}

impl Sequential for Counter {
    type Call = ();

    type Reply = u64;

    ghost allowed = { λ old _ reply new. (new.count ≡ (old.count + 1) % 2 ^ 64) × (reply ≡ new.count) };

    fn step(&mut self, _call: ()) -> u64 {
        self.count = self.count.wrapping_add(1);
        self.count
    }
}

/// What a run counted, and how long it took.
#[derive(Drop)]
pub struct Counted {
    pub count: u64,
    pub time: Duration,
}

/// The start of a run: nobody calls before all threads are there, and the time counts from when the
/// last of them came. Where a thread cannot be made, the others wait for ever.
#[derive(Drop)]
struct Start {
    gate: Barrier,
    last_came: Mutex<Option<Instant>>,
}

impl Start {
    fn new(threads: usize) -> Start {
        Start {
            gate: Barrier::new(threads),
            last_came: Mutex::new(None),
        }
    }

    /// Waits until all threads are there.
    fn wait<R: Wait + Clock>(&self, rt: &R) {
        *self.last_came.lock(rt) = Instant::now(rt).ok();
        self.gate.wait(rt);
    }

    /// The time since the last thread came.
    fn elapsed<R: Wait + Clock>(&self, rt: &R) -> io::Result<Duration> {
        let came = *self.last_came.lock(rt);
        match came {
            Some(came) => came.elapsed(rt),
            None => Err(io::Error::other("the clock can't be read")),
        }
    }
}

/// Calls so many times from one seat.
fn count_from<R: Wait + Clock>(
    rt: &R,
    start: &Start,
    office: &Office<Counter>,
    mut seat: Seat<Counter>,
    calls: u64,
) -> Seat<Counter>
    requires { seat.office ≡ office.now.id }
    ensures { result.office ≡ office.now.id }
{
    start.wait(rt);
    for _ in 0..calls {
        seat.call(rt, office, ());
    }
    seat
}

/// Calls so many times from each seat, each in a thread of its own.
fn count_from_all<R: Threads + Wait + Sync + Clock>(
    rt: &R,
    start: &Start,
    office: &Office<Counter>,
    seats: SeatList<Counter>,
    calls: u64,
) -> Result<SeatList<Counter>, AllocError>
    requires { AreOf office.now.id seats.items }
    ensures { IfOk result (λ list. AreOf office.now.id list.items) }
{
    thread::map_vec(
        rt,
        seats,
        &|seat| count_from(rt, start, office, seat, calls),
    )
}

/// So many threads take turns at an office.
pub fn count_by_turns<R: Threads + Wait + Sync + Clock>(
    rt: &R,
    alloc: Global,
    threads: usize,
    calls: u64,
) -> io::Result<Counted>
    requires { (1 ≤ threads) × (threads ≤ 64) }
{
    let (office, seats) = Office::open(alloc, Counter { count: 0 }, threads)?;
    let start = Start::new(threads);
    let seats = count_from_all(rt, &start, &office, seats, calls)?;
    let time = start.elapsed(rt)?;
    match office.close(seats) {
        Ok(Counter { count }) => Ok(Counted { count, time }),
        Err(fault) => {
            drop(fault);
            Err(io::Error::from(AllocError))
        }
    }
}

/// So many threads take a lock.
pub fn count_by_lock<R: Threads + Wait + Sync + Clock>(
    rt: &R,
    alloc: Global,
    threads: usize,
    calls: u64,
) -> io::Result<Counted> {
    let counter = Mutex::new(Counter { count: 0 });
    let start = Start::new(threads);
    thread::map_indices(
        rt,
        alloc,
        threads,
        &|_| {
            start.wait(rt);
            for _ in 0..calls {
                counter.lock(rt).step(());
            }
        },
    )?;
    let time = start.elapsed(rt)?;
    let count = counter.lock(rt).count;
    Ok(Counted { count, time })
}
