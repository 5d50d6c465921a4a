//! What a service knows of its publications: who waits for one sleeps here until a worker delivered it.
ghost use Rattle.std.specs.Prelude.{◌≡◌, Some};
ghost use Rattle.desk_service.specs.Deliveries.{later_of};

use deck_workers::Subscriber;
use kept_desk::{Woken, is_reached};
use std::sync::{Condvar, Mutex, Wait};
use std::time::{Clock, Duration};

/// How long a session waits for a publication at most, in seconds.
const LONGEST: u64 = 60;

/// The latest version that was delivered once this one was, too.
fn later_of(version: u64, latest: Option<u64>) -> Option<u64>
    ensures { result ≡ Some (later_of version latest) }
{
    match latest {
        Some(latest) => Some(latest.max(version)),
        None => Some(version),
    }
}

/// What the threads of a service know.
#[derive(Drop)]
struct Known {
    /// The latest version that was delivered.
    latest: Option<u64>,
    /// The service ends, and nobody waits any more.
    is_over: bool,
}

impl Known {
    /// Whether who waits for a version sleeps on.
    fn is_before(&self, version: u64) -> bool {
        !self.is_over && !is_reached(version, self.latest)
    }
}

/// The publications of a service, as who waits for one knows them.
#[derive(Drop)]
pub(crate) struct Publications {
    known: Mutex<Known>,
    /// Something was delivered, or the service ends.
    told: Condvar,
}

impl Publications {
    /// Those of a service that has delivered none.
    pub(crate) fn new() -> Publications {
        Publications {
            known: Mutex::new(Known {
                latest: None,
                is_over: false,
            }),
            told: Condvar::new(),
        }
    }

    /// A publication of this version was delivered: who waits wakes. Two deliveries may be shown in the
    /// other order.
    fn deliver<R: Wait>(&self, rt: &R, version: u64) {
        let mut known = self.known.lock(rt);
        known.latest = later_of(version, known.latest);
        drop(known);
        self.told.notify_all();
    }

    /// The service ends: who waits wakes.
    pub(crate) fn end<R: Wait>(&self, rt: &R) {
        self.known.lock(rt).is_over = true;
        self.told.notify_all();
    }

    /// Sleeps until this version or a later one was delivered, for a minute at most.
    pub(crate) fn sleep<R: Wait + Clock>(&self, rt: &R, version: u64) -> Woken {
        let (known, slept) = self.told.wait_timeout_while(
            rt,
            self.known.lock(rt),
            Duration::from_secs(LONGEST),
            |known| known.is_before(version),
        );
        if slept.timed_out() || known.is_over {
            Woken::TimeUp
        } else {
            Woken::Delivered
        }
    }
}

/// The end of the publications that a worker has, and the runtime by which it is waited for.
/// Contracts see nothing of what is known there.
#[derive(Drop)]
pub(crate) struct PublicationsEnd<'a, R> {
    rt: &'a R,
    publications: &'a Publications,
}

impl<'a, R> PublicationsEnd<'a, R> {
    pub(crate) fn new(rt: &'a R, publications: &'a Publications) -> PublicationsEnd<'a, R> {
        PublicationsEnd { rt, publications }
    }
}

/// A worker's end: what it delivered is known.
impl<R: Wait> Subscriber for PublicationsEnd<'_, R> {
    ghost use Rattle.std.specs.Prelude.{◌≡◌};

    ghost hears = { λ old version new. new ≡ old };

    fn hear(&mut self, version: u64) {
        self.publications.deliver(self.rt, version);
    }
}
