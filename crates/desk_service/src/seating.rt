//! The places of all threads of a service, and the channels that they talk by.
ghost use Rattle.std.specs.Prelude.{◌≡◌, ◌≤◌, ◌+◌, length, IfOk, IfSome};
ghost use Rattle.desk_service.specs.Seating.{page_threads, session_count};
ghost use Rattle.turn_office.specs.Seats.{AreOf};

use crate::arrivals::Arrivals;
use crate::clients::{ToEdit, ToRead};
use crate::pages::{PagePlace, page_places};
use crate::places::{SessionPlace, Site, WorkerPlace, session_places, worker_places};
use crossbeam_channel::{Receiver, Sender, bounded, unbounded};
use deck_workers::Bell;
use desk_core::Desk;
use journal::RecordsFile;
use std::alloc::{AllocError, Global};
use turn_office::SeatList;

/// What the threads of a service talk by: the bell of the workers, and the clients that arrive.
#[derive(Drop)]
pub(crate) struct Channels {
    pub(crate) bells: Sender<Bell>,
    heard: Receiver<Bell>,
    arrivals: Arrivals,
    pub(crate) received: Receiver<ToEdit>,
    pub(crate) received_to_read: Receiver<ToRead>,
}

impl Channels {
    /// Where clients are sent to. All other ends here are gone then, so that who receives hears when the
    /// last of those who send has ended.
    pub(crate) fn into_arrivals(self) -> Arrivals {
        let Channels { arrivals, .. } = self;
        arrivals
    }
}

/// Channels at which nobody waits.
pub(crate) fn open_channels(alloc: Global) -> Result<Channels, AllocError> {
    let (bells, heard) = unbounded(alloc)?;
    let (to_edit, received) = bounded(alloc, 0)?;
    let (to_read, received_to_read) = bounded(alloc, 0)?;
    Ok(Channels {
        bells,
        heard,
        arrivals: Arrivals { to_edit, to_read },
        received,
        received_to_read,
    })
}

/// The places of the threads at a desk.
#[derive(Drop)]
pub(crate) struct Places<'a, R, F: RecordsFile> {
    pub(crate) workers: Vec<WorkerPlace<'a, R>>,
    pub(crate) sessions: Vec<SessionPlace<'a, R, F>>,
    pub(crate) pages: Vec<PagePlace<'a, R, F>>,
}

/// The places of the threads of a service, each with one of the seats: the workers', then the page's, if
/// there is a door for browsers, and the sessions'.
pub(crate) fn seat_all<'a, R, F: RecordsFile>(
    site: &Site<'a, R, F>,
    seats: SeatList<Desk>,
    channels: &Channels,
) -> Result<Places<'a, R, F>, AllocError>
    requires own { AreOf site.now.office.now.id seats.items }
    requires enough { site.now.settings.now.workers + (session_count site.now.settings.now + page_threads site.now.door) ≤ length seats.items }
    requires few { session_count site.now.settings.now ≤ 32 }
    requires kept { IfSome site.now.journal (λ journal. session_count site.now.settings.now + page_threads site.now.door ≤ journal.now) }
    ensures workers { IfOk result (λ places. length places.workers.items ≡ site.now.settings.now.workers) }
    ensures sessions { IfOk result (λ places. length places.sessions.items ≡ session_count site.now.settings.now) }
    ensures pages { IfOk result (λ places. length places.pages.items ≡ page_threads site.now.door) }
{
    let mut left = seats;
    let workers = worker_places(site, &mut left, &channels.heard)?;
    let pages = page_places(site, &mut left, &channels.bells)?;
    let sessions = session_places(site, &mut left, channels)?;
    Ok(Places {
        workers,
        sessions,
        pages,
    })
}
