//! Connections that have come and wait for something, the first come first.

use std::alloc::Global;
use std::collections::VecDeque;
use std::time::{Clock, Duration, Instant};

/// How many wait at once.
const MOST_GUESTS: usize = 64;

/// A connection that waits, and since when; without a clock it has waited for long enough.
#[derive(Drop)]
pub(crate) struct Guest<S> {
    pub(crate) stream: S,
    pub(crate) since: Option<Instant>,
}

impl<S> Guest<S> {
    /// A connection that has come now.
    pub(crate) fn new<R: Clock>(rt: &R, stream: S) -> Guest<S> {
        Guest {
            stream,
            since: Instant::now(rt).ok(),
        }
    }

    /// Whether it has waited for so long.
    pub(crate) fn has_waited<R: Clock>(&self, rt: &R, most: Duration) -> bool {
        let Some(since) = self.since else {
            return true;
        };
        match since.elapsed(rt) {
            Ok(waited) => waited >= most,
            Err(_) => true,
        }
    }
}

/// What a look at a connection that does not wait finds.
#[derive(Clone, Copy)]
pub(crate) enum Heard {
    /// Nothing has come.
    Nothing,
    /// What is waited for has come.
    Something,
    /// The connection is over, or what came is something else.
    Gone,
}

/// A connection at which is listened without waiting.
pub(crate) trait Speak {
    fn hear(&self) -> Heard;
}

/// The connections that wait.
#[derive(Drop)]
pub(crate) struct Lobby<S> {
    guests: VecDeque<Guest<S>>,
}

impl<S: Drop> Lobby<S> {
    /// One in which nobody waits.
    pub(crate) fn new(alloc: Global) -> Lobby<S> {
        Lobby {
            guests: VecDeque::new(alloc),
        }
    }

    pub(crate) fn is_empty(&self) -> bool {
        self.guests.is_empty()
    }

    /// How many wait.
    pub(crate) fn len(&self) -> usize {
        self.guests.len()
    }

    pub(crate) fn is_full(&self) -> bool {
        self.guests.len() >= MOST_GUESTS
    }

    /// Takes out who came first.
    pub(crate) fn take_first(&mut self) -> Option<Guest<S>> {
        self.guests.pop_front()
    }

    /// Puts who was taken out in front again. Where there is no memory for that, the guest comes back.
    pub(crate) fn put_back(&mut self, guest: Guest<S>) -> Result<(), Guest<S>> {
        match self.guests.push_front(guest) {
            Ok(()) => Ok(()),
            Err(failed) => Err(failed.value),
        }
    }

    /// Lets one in behind the others. Where there is no memory for that, the guest comes back.
    pub(crate) fn let_in(&mut self, guest: Guest<S>) -> Result<(), Guest<S>> {
        match self.guests.push_back(guest) {
            Ok(()) => Ok(()),
            Err(failed) => Err(failed.value),
        }
    }

    /// Lets one in behind the others; where too many wait, who came first goes for it.
    pub(crate) fn crowd_in(&mut self, guest: Guest<S>) {
        if self.is_full() {
            drop(self.take_first());
        }
        let _ = self.let_in(guest);
    }
}

impl<S: Speak + Drop> Lobby<S> {
    /// What one who waits does: stays, goes, or has said something and is taken out.
    fn look_at<R: Clock>(&mut self, rt: &R, guest: Guest<S>, most: Duration) -> Option<S> {
        match guest.stream.hear() {
            Heard::Something => return Some(guest.stream),
            Heard::Gone => return None,
            Heard::Nothing => {}
        }
        if !guest.has_waited(rt, most) {
            let _ = self.let_in(guest);
        }
        None
    }

    /// Takes out the first who has said something. Who is gone, or has been silent for so long, loses its connection;
    /// the others stay in their order.
    pub(crate) fn take_speaker<R: Clock>(&mut self, rt: &R, most: Duration) -> Option<S> {
        let mut speaker = None;
        for _ in 0..self.guests.len() {
            let Some(guest) = self.take_first() else {
                return speaker;
            };
            if speaker.is_some() {
                let _ = self.let_in(guest);
            } else {
                speaker = self.look_at(rt, guest, most);
            }
        }
        speaker
    }
}
