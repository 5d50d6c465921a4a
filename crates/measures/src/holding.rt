//! An object whose step takes as long as it is asked to, and seats that wait for it.
ghost use Rattle.std.specs.Prelude.{◌≡◌};

use std::alloc::{AllocError, Global};
use std::sync::Wait;
use std::thread::Threads;
use std::time::{Clock, CpuClock, Duration};
use std::{io, thread};
use turn_office::{Office, Seat, Sequential};

/// How many seats wait.
pub const WAITING: usize = 15;

/// An object that sleeps.
#[derive(Drop)]
struct Sleeper<C: Clock> {
    clock: C,
}

impl<C: Clock> Sequential for Sleeper<C> {
    type Call = Duration;

    type Reply = ();

    ghost allowed = { λ _ _ _ _. Unit {0} };

    fn step(&mut self, call: Duration) {
        thread::sleep(&self.clock, call);
    }
}

/// The seat with number 0 holds its turn for a second. The others come after it, and wait.
fn take_turn<R: Wait + Clock, C: Clock>(
    rt: &R,
    office: &Office<Sleeper<C>>,
    mut seat: Seat<Sleeper<C>>,
)
    requires { seat.office ≡ office.now.id }
{
    if seat.number() == 0 {
        seat.call(rt, office, Duration::from_secs(1));
    } else {
        thread::sleep(rt, Duration::from_millis(100));
        seat.call(rt, office, Duration::ZERO);
    }
}

/// The processor time of the process while one seat has the turn for a second and the others wait
/// for theirs.
pub fn wait_behind<R: Threads + Wait + Sync + Send + Drop + Clone + Clock + CpuClock>(
    rt: &R,
    alloc: Global,
) -> io::Result<Duration> {
    let sleeper = Sleeper { clock: rt.clone()? };
    let (office, seats) = Office::open(alloc, sleeper, 1 + WAITING)?;
    let before = rt.process_cpu_time()?;
    thread::map_vec(rt, seats, &|seat| take_turn(rt, &office, seat))?;
    Ok(rt.process_cpu_time()?.saturating_sub(before))
}
