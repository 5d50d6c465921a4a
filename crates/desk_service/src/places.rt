//! The places of a service's threads: what each works with, made before any thread starts.
ghost use Rattle.std.specs.Prelude.{◌≡◌, ◌-◌, ◌<◌, ◌≤◌, All, length, map, IfOk, IfSome, OnOk};
ghost use Rattle.desk_service.specs.Connections.{rights_of};
ghost use Rattle.desk_service.specs.Seating.{session_count, AreForSessions, IsPlaceOf, IsServedFor};
ghost use Rattle.turn_office.specs.Seats.{AreOf};

use crate::clients::{Clients, clients_for};
use crate::company::rights_at;
use crate::connections::{Serving, serve_connections};
use crate::journals::Journal;
use crate::pages::Entrance;
use crate::publications::PublicationsEnd;
use crate::seating::Channels;
use crate::service_end::ServiceEnd;
use crate::session_ends::{Others, SessionEnds};
use crate::settings::Settings;
use crossbeam_channel::{Receiver, Sender};
use deck_files::{FolderShelf, KnownFiles};
use deck_workers::{Bell, OpenGate, worker};
use desk_core::Desk;
use journal::RecordsFile;
use kept_desk::Door;
use session_line::SeatCalls;
use std::alloc::{AllocError, AllocGlobal, Global};
use std::fs::File;
use std::hash::RandomState;
use std::rt::Files;
use std::sync::Wait;
use std::time::{Clock, Duration};
use turn_office::{Office, Seat, SeatList};

/// What a thread works with. That it may go to a thread of its own is shown where it is served, with no more known
/// of the runtime than its work needs: with all that is known of it, the search takes minutes.
pub(crate) trait Serve: Send + Drop {
    /// Does the work of the thread, to its end.
    fn serve(self);
}

/// What the places of a service are made of.
#[derive(Drop)]
pub(crate) struct Site<'a, R, F: RecordsFile> {
    pub(crate) rt: &'a R,
    pub(crate) alloc: Global,
    pub(crate) keys: RandomState,
    pub(crate) settings: &'a Settings<'a>,
    pub(crate) office: &'a Office<Desk>,
    pub(crate) journal: Option<&'a Journal<F>>,
    pub(crate) known: &'a KnownFiles,
    pub(crate) end: &'a ServiceEnd,
    pub(crate) door: Option<Entrance<'a>>,
}

/// What a worker works with: a seat of the office, the end of the bell that it hears, and where it reports
/// of what it published.
#[derive(Drop)]
pub(crate) struct WorkerPlace<'a, R> {
    rt: &'a R,
    alloc: Global,
    keys: RandomState,
    office: &'a Office<Desk>,
    seat: Seat<Desk>,
    bells: Receiver<Bell>,
    published: PublicationsEnd<'a, R>,
    ghost seated: { seat.office ≡ office.now.id },
}

/// A worker works until no bell can come any more.
impl<R: Wait + Clock + Sync> Serve for WorkerPlace<'_, R> {
    fn serve(self) {
        let mut place = self;
        let (rt, alloc, keys, office) = (place.rt, place.alloc, place.keys, place.office);
        let (seat, bells, told) = (place.seat, place.bells, &mut place.published);
        worker(rt, alloc, keys, office, seat, &OpenGate, told, bells);
    }
}

/// The door of a session.
pub(crate) type SessionDoor<'a, R, F> = Door<'a, R, SeatCalls<'a, R>, SessionEnds<'a, R, F>>;

/// What a session thread works with: a desk, and a shelf.
#[derive(Drop)]
pub(crate) struct SessionPlace<'a, R, F: RecordsFile> {
    clients: Clients,
    serving: Serving<'a, R>,
    desk: SessionDoor<'a, R, F>,
    shelf: FolderShelf<'a, R>,
}

/// A session thread serves connections until none can come any more.
impl<
    R: Wait + Clock + Eprint + Files<File = File> + AllocGlobal + Clone + Drop + Sync,
    F: RecordsFile + Drop + Send,
> Serve for SessionPlace<'_, R, F>
where
    R::File: Send,
    R::Dir: Send,
{
    fn serve(self) {
        let SessionPlace {
            clients,
            serving,
            mut desk,
            mut shelf,
        } = self;
        serve_connections(&serving, &clients, &mut desk, &mut shelf);
    }
}

/// A seat from the list.
pub(crate) fn take_seat(office: &Office<Desk>, seats: &mut SeatList<Desk>) -> Seat<Desk>
    requires own { AreOf office.now.id seats.old.items }
    requires some { 1 ≤ length seats.old.items }
    ensures seat { result.office ≡ office.now.id }
    ensures own { AreOf office.now.id seats.new.items }
    ensures left { length seats.new.items ≡ length seats.old.items - 1 }
{
    let Some(seat) = seats.pop() else {
        unreachable!()
    };
    seat
}

/// Places for the workers of a service, with seats from the list.
pub(crate) fn worker_places<'a, R, F: RecordsFile>(
    site: &Site<'a, R, F>,
    seats: &mut SeatList<Desk>,
    bells: &Receiver<Bell>,
) -> Result<Vec<WorkerPlace<'a, R>>, AllocError>
    requires own { AreOf site.now.office.now.id seats.old.items }
    requires enough { site.now.settings.now.workers ≤ length seats.old.items }
    ensures own { OnOk result (AreOf site.now.office.now.id seats.new.items) }
    ensures left { OnOk result (length seats.new.items ≡ length seats.old.items - site.now.settings.now.workers) }
    ensures all { IfOk result (λ places. length places.items ≡ site.now.settings.now.workers) }
    ensures office { IfOk result (λ places. All (λ place. place.seat.office ≡ site.now.office.now.id) places.items) }
{
    let mut places = Vec::new(site.alloc);
    for _ in 0..site.settings.workers {
        places.push(WorkerPlace {
            rt: site.rt,
            alloc: site.alloc,
            keys: site.keys,
            office: site.office,
            seat: take_seat(site.office, seats),
            bells: bells.clone()?,
            published: PublicationsEnd::new(site.rt, site.end.publications()),
        })?;
    }
    Ok(places)
}

/// The door of the session of this number, at a seat from the list, and its shelf. It rings the bell that it
/// is given, and may sleep until a version is published, or not.
pub(crate) fn door_and_shelf<'a, R, F: RecordsFile>(
    site: &Site<'a, R, F>,
    seats: &mut SeatList<Desk>,
    number: usize,
    bells: Sender<Bell>,
    may_sleep: bool,
) -> (SessionDoor<'a, R, F>, FolderShelf<'a, R>)
    requires own { AreOf site.now.office.now.id seats.old.items }
    requires some { 1 ≤ length seats.old.items }
    requires place { IfSome site.now.journal (λ journal. number < journal.now) }
    ensures own { AreOf site.now.office.now.id seats.new.items }
    ensures left { length seats.new.items ≡ length seats.old.items - 1 }
    ensures door { IsPlaceOf site.now.settings.now site.now.office.now.id result.1.folder result.0.0.seat.office }
    ensures session { (result.0.1.session ≡ number) × (result.1.number ≡ number) }
{
    let (rt, alloc, office, end) = (site.rt, site.alloc, site.office, site.end);
    let others = Others {
        bells,
        end,
        may_sleep,
    };
    let calls = SeatCalls::new(rt, office, take_seat(office, seats));
    let ends = SessionEnds::new(rt, alloc, site.journal, number).among(others);
    let shelf = FolderShelf::new(rt, alloc, site.settings.root, number, site.known);
    (Door::new(rt, calls, ends), shelf)
}

/// Places for the sessions of a service, those that may edit first, with seats from the list; each has an end
/// of the bell, waits for connections, keeps its changes in the journal, if there is one, and has a shelf of a number of its own
/// over the folder; all note what they loaded and saved at one place.
pub(crate) fn session_places<'a, R, F: RecordsFile>(
    site: &Site<'a, R, F>,
    seats: &mut SeatList<Desk>,
    channels: &Channels,
) -> Result<Vec<SessionPlace<'a, R, F>>, AllocError>
    requires own { AreOf site.now.office.now.id seats.old.items }
    requires enough { session_count site.now.settings.now ≤ length seats.old.items }
    requires few { session_count site.now.settings.now ≤ 32 }
    requires kept { IfSome site.now.journal (λ journal. session_count site.now.settings.now ≤ journal.now) }
    ensures all { IfOk result (λ places. length places.items ≡ session_count site.now.settings.now) }
    ensures numbers { IfOk result (λ places. AreForSessions (session_count site.now.settings.now) (map (λ place. place.shelf.number) places.items) (map (λ place. place.serving.session) places.items) (map (λ place. place.desk.1.session) places.items)) }
    ensures served { IfOk result (λ places. All (λ place. IsServedFor site.now.settings.now place.serving.session place.serving.rights place.serving.once place.shelf.folder) places.items) }
    ensures clients { IfOk result (λ places. All (λ place. rights_of place.clients ≡ place.serving.rights) places.items) }
    ensures office { IfOk result (λ places. All (λ place. place.desk.0.seat.office ≡ site.now.office.now.id) places.items) }
{
    let settings = site.settings;
    let mut places = Vec::new(site.alloc);
    for number in 0..settings.sessions + settings.readers {
        let rights = rights_at(settings.sessions, number);
        let clients = clients_for(rights, channels)?;
        let bells = channels.bells.clone()?;
        let (desk, shelf) = door_and_shelf(site, seats, number, bells, true);
        let serving = Serving {
            rt: site.rt,
            alloc: site.alloc,
            keys: site.keys,
            session: number,
            rights,
            idle: Duration::from_secs(settings.idle),
            once: settings.once,
            end: site.end,
        };
        places.push(SessionPlace {
            clients,
            serving,
            desk,
            shelf,
        })?;
    }
    Ok(places)
}
