//! How many turns a second an office gives, beside a lock round the same counter, and what it
//! costs to wait for a turn. All threads of a run start together, and a run that is measured takes at
//! least half a second. Measured, it is a table; a small run prints the same whatever the schedule.
ghost use Rattle.std.specs.Prelude.{◌≤◌};

use crate::counting::{Counted, count_by_lock, count_by_turns};
use crate::holding::wait_behind;
use std::alloc::{AllocGlobal, Global};
use std::sync::Wait;
use std::thread::Threads;
use std::time::{Clock, CpuClock, Duration};
use std::{io, thread};

/// How many calls all threads of the first run of a measurement make together. Each further run
/// makes `MORE` times as many.
const FIRST_CALLS: u64 = 100_000;

/// How many times as many calls the next run makes.
const MORE: u64 = 4;

/// How many runs a measurement makes at most.
const RUNS: u32 = 12;

/// How long a run has to take to be the one that counts.
const LEAST_MILLIS: u128 = 500;

/// How many calls the small run makes.
const SMALL: u64 = 4000;

/// How threads get at the counter.
#[derive(Clone, Copy)]
enum Way {
    Turns,
    Lock,
}

/// Calls a second.
fn rate(calls: u64, time: Duration) -> u64 {
    let nanos = time.as_nanos().max(1);
    u64::try_from(u128::from(calls) * 1_000_000_000 / nanos).unwrap_or(u64::MAX)
}

/// So many calls from each of so many threads.
fn count<R: AllocGlobal + Threads + Wait + Sync + Clock>(
    rt: &R,
    way: Way,
    threads: usize,
    calls: u64,
) -> io::Result<Counted>
    requires { (1 ≤ threads) × (threads ≤ 64) }
{
    match way {
        Way::Turns => count_by_turns(rt, rt.alloc(), threads, calls),
        Way::Lock => count_by_lock(rt, rt.alloc(), threads, calls),
    }
}

/// Calls a second, in the first run that is long enough.
fn measured_rate<R: AllocGlobal + Threads + Wait + Sync + Clock>(
    rt: &R,
    way: Way,
    threads: usize,
) -> io::Result<u64>
    requires { (1 ≤ threads) × (threads ≤ 64) }
{
    let mut calls = FIRST_CALLS;
    for _ in 0..RUNS {
        let run = count(rt, way, threads, calls / threads as u64)?;
        if run.time.as_millis() >= LEAST_MILLIS {
            return Ok(rate(run.count, run.time));
        }
        calls = calls.saturating_mul(MORE);
    }
    Err(io::Error::other("no run took long enough"))
}

/// One line of the table: threads, turns a second, locks a second and the turns in 100 locks.
fn print_line<R: AllocGlobal + Threads + Wait + Sync + Clock + Print>(
    rt: &R,
    threads: usize,
) -> io::Result<()>
    requires { (1 ≤ threads) × (threads ≤ 64) }
{
    let turns = measured_rate(rt, Way::Turns, threads)?;
    let locks = measured_rate(rt, Way::Lock, threads)?;
    let percent = u128::from(turns) * 100 / u128::from(locks.max(1));
    println!(rt; "{threads} {turns} {locks} {percent}%")
}

/// Measures, and prints the table.
pub fn measure<
    R: AllocGlobal + Threads + Wait + Sync + Send + Drop + Clone + Clock + CpuClock + Print,
>(rt: &R) -> io::Result<()> {
    println!(rt; "{} processors", thread::available_parallelism(rt)?)?;
    println!(rt; "threads turns/s locks/s turns:locks")?;
    for threads in [1, 2, 4, 16] {
        print_line(rt, threads)?;
    }
    let spent = wait_behind(rt, rt.alloc())?;
    println!(rt;
        "15 seats waiting for a second: {} microseconds of processor time",
        spent.as_micros()
    )
}

/// A small run, which prints the same each time.
pub fn try_out<R: AllocGlobal + Threads + Wait + Sync + Clock + Print>(rt: &R) -> io::Result<()> {
    let turns = count_by_turns(rt, rt.alloc(), 4, SMALL / 4)?;
    let locks = count_by_lock(rt, rt.alloc(), 4, SMALL / 4)?;
    println!(rt; "{} turns, {} locks", turns.count, locks.count)
}
