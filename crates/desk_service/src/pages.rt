//! The threads of the page: each answers browsers, one connection after the other.
//!
//! They wait at a listener of their own, and have seats, a shelf and places in the journal of their own. One of
//! those that serve nobody keeps the door: it takes connections, and gives itself the first that says something.
//! A browser that says nothing holds no thread, and goes after a second, or when too many come; one that does
//! not finish its request, or does not take its answer, holds a thread for some seconds.
ghost use Rattle.std.specs.Prelude.{◌≡◌, ◌+◌, ◌-◌, ◌≤◌, All, length, map, IfOk, IfSome, OnOk};
ghost use Rattle.turn_office.specs.Seats.{AreOf};
ghost use Rattle.desk_service.specs.Seating.{page_threads, session_count, AreForPage, IsPlaceOf};

use crate::lobby::{Guest, Heard, Lobby, Speak};
use crate::page_lines::DeskLines;
use crate::places::{Serve, SessionDoor, Site, door_and_shelf};
use crate::service_end::ServiceEnd;
use crate::timed_stream::TimedStream;
use crossbeam_channel::Sender;
use deck_files::{FolderShelf, Shelf};
use deck_workers::Bell;
use desk_core::Desk;
use journal::RecordsFile;
use page::{PageService, serve_page};
use session_line::Calls;
use std::alloc::{AllocError, AllocGlobal, Global};
use std::fs::File;
use std::hash::RandomState;
use std::io::{ErrorKind, Read};
use std::net::{Shutdown, TcpListener, TcpStream};
use std::rt::Files;
use std::sync::{Mutex, Wait};
use std::thread;
use std::time::{Clock, Duration};
use turn_office::SeatList;

/// How many connections of browsers are served at once, each by a thread of its own; others wait.
pub(crate) const PAGE_THREADS: usize = 4;

/// How long a request may take once its connection has said something, in seconds.
const REQUEST_SECONDS: u64 = 3;

/// How long a connection may be silent before its request, in milliseconds.
const SILENCE: u64 = 1_000;

/// How long the door is not looked at while connections are silent and none comes, in milliseconds.
const LOOK: u64 = 10;

/// How long an answer may take to be sent, in seconds.
const ANSWER_SECONDS: u64 = 5;

/// How long a browser has to close a connection behind its answer, in milliseconds.
const CLOSING: u64 = 500;

/// How often something is read that stands behind a request.
const MOST_READS: u32 = 64;

/// How long a thread sleeps after it could not accept a connection, in milliseconds.
const PAUSE: u64 = 100;

/// A connection of a browser that has said nothing yet.
#[derive(Drop)]
pub(crate) struct Browser(TcpStream);

impl Speak for Browser {
    fn hear(&self) -> Heard {
        let mut byte = [0; 1];
        match self.0.peek(&mut byte) {
            Ok(0) => Heard::Gone,
            Ok(_) => Heard::Something,
            Err(error) if error.kind() == ErrorKind::WouldBlock => Heard::Nothing,
            Err(_) => Heard::Gone,
        }
    }
}

/// Where browsers come in: the listener, those who have said nothing yet, and the keys by which the names of
/// their fields are spread.
#[derive(Clone, Copy)]
pub(crate) struct Entrance<'a> {
    pub(crate) listener: &'a TcpListener,
    pub(crate) silent: &'a Mutex<Lobby<Browser>>,
    pub(crate) port: u16,
    pub(crate) keys: RandomState,
}

/// What page threads do their work at: a desk whose changes are kept, and a shelf.
type PageDesk<'a, R, F> = DeskLines<SessionDoor<'a, R, F>, FolderShelf<'a, R>>;

/// What a page thread works with.
#[derive(Drop)]
pub(crate) struct PagePlace<'a, R, F: RecordsFile> {
    rt: &'a R,
    alloc: Global,
    door: Entrance<'a>,
    session: usize,
    end: &'a ServiceEnd,
    page: PageService<PageDesk<'a, R, F>>,
}

/// Takes what stands behind a request, for a moment, and lets it go: where the connection was closed with
/// something unread, its last answer would be lost.
fn let_go<R: Clock>(rt: &R, stream: &TcpStream) {
    let _ = stream.shutdown(Shutdown::Write);
    let mut rest = TimedStream::new(rt, stream, Duration::from_millis(CLOSING));
    let mut bytes = [0; 4096];
    for _ in 0..MOST_READS {
        match rest.read(&mut bytes) {
            Ok(count) if count > 0 => {}
            _ => return,
        }
    }
}

/// Serves one connection of a browser.
fn serve_browser<R: Clock, C: Calls, S: Shelf>(
    rt: &R,
    alloc: Global,
    keys: RandomState,
    stream: &TcpStream,
    page: &mut PageService<DeskLines<C, S>>,
) {
    let _ = stream.set_nodelay(true);
    let mut reader = TimedStream::new(rt, stream, Duration::from_secs(REQUEST_SECONDS));
    let mut writer = TimedStream::new(rt, stream, Duration::from_secs(ANSWER_SECONDS));
    let _ = serve_page(alloc, keys, page, &mut reader, &mut writer);
    let_go(rt, stream);
}

/// Takes a connection that comes; while others are silent it does not wait for one.
fn let_browser_in<R: Wait + Clock>(rt: &R, listener: &TcpListener, silent: &mut Lobby<Browser>) {
    let _ = listener.set_nonblocking(!silent.is_empty());
    match listener.accept() {
        Ok((stream, _)) => {
            let _ = stream.set_nonblocking(true);
            silent.crowd_in(Guest::new(rt, Browser(stream)));
        }
        Err(error) if error.kind() == ErrorKind::WouldBlock => {
            let _ = thread::sleep(rt, Duration::from_millis(LOOK));
        }
        Err(_) => {
            let _ = thread::sleep(rt, Duration::from_millis(PAUSE));
        }
    }
}

/// Keeps the door until a connection says something; none where the end of the service is asked for. Others
/// who serve nobody wait for the door meanwhile.
fn next_browser<R: Wait + Clock>(
    rt: &R,
    door: Entrance<'_>,
    end: &ServiceEnd,
) -> Option<TcpStream> {
    let mut silent = door.silent.lock(rt);
    for _ in rt.forever() {
        if end.is_asked(rt) {
            return None;
        }
        if let Some(browser) = silent.take_speaker(rt, Duration::from_millis(SILENCE)) {
            let _ = browser.0.set_nonblocking(false);
            return Some(browser.0);
        }
        let_browser_in(rt, door.listener, &mut silent);
    }
    None
}

/// Serves the next connection that says something: whether another may come.
fn serve_next<R: Wait + Clock, C: Calls, S: Shelf>(
    rt: &R,
    alloc: Global,
    door: Entrance<'_>,
    session: usize,
    end: &ServiceEnd,
    page: &mut PageService<DeskLines<C, S>>,
) -> bool {
    let Some(stream) = next_browser(rt, door, end) else {
        return false;
    };
    if end.enter(rt, session, &stream) {
        serve_browser(rt, alloc, door.keys, &stream, page);
        end.leave(rt, session);
    }
    !end.is_asked(rt)
}

/// A page thread serves connections until the end of the service is asked for.
impl<
    R: Wait + Clock + Eprint + Files<File = File> + AllocGlobal + Clone + Drop + Sync,
    F: RecordsFile + Drop + Send,
> Serve for PagePlace<'_, R, F>
where
    R::File: Send,
    R::Dir: Send,
{
    fn serve(self) {
        let mut place = self;
        let (rt, alloc, door) = (place.rt, place.alloc, place.door);
        for _ in rt.forever() {
            if !serve_next(rt, alloc, door, place.session, place.end, &mut place.page) {
                return;
            }
        }
    }
}

/// How many threads a page has, if there is a door.
pub(crate) fn page_threads(door: Option<Entrance<'_>>) -> usize
    ensures count { result ≡ page_threads door.entry }
    ensures few { result ≤ 4 }
{
    match door {
        Some(_) => PAGE_THREADS,
        None => 0,
    }
}

/// Places for the threads of the page, if there is a door, with seats from the list. Their numbers, in the
/// journal and among the shelves of the folder, are those behind the sessions' and the readers'.
pub(crate) fn page_places<'a, R, F: RecordsFile>(
    site: &Site<'a, R, F>,
    seats: &mut SeatList<Desk>,
    bells: &Sender<Bell>,
) -> Result<Vec<PagePlace<'a, R, F>>, AllocError>
    requires own { AreOf site.now.office.now.id seats.old.items }
    requires enough { page_threads site.now.door ≤ length seats.old.items }
    requires few { session_count site.now.settings.now ≤ 32 }
    requires kept { IfSome site.now.journal (λ journal. session_count site.now.settings.now + page_threads site.now.door ≤ journal.now) }
    ensures own { OnOk result (AreOf site.now.office.now.id seats.new.items) }
    ensures left { OnOk result (length seats.new.items ≡ length seats.old.items - page_threads site.now.door) }
    ensures all { IfOk result (λ places. length places.items ≡ page_threads site.now.door) }
    ensures numbers { IfOk result (λ places. AreForPage site.now.settings.now site.now.door (map (λ place. place.page.1.1.number) places.items) (map (λ place. place.page.1.0.1.session) places.items)) }
    ensures served { IfOk result (λ places. All (λ place. IsPlaceOf site.now.settings.now site.now.office.now.id place.page.1.1.folder place.page.1.0.0.seat.office) places.items) }
    ensures port { IfSome site.now.door (λ door. IfOk result (λ places. All (λ place. place.page.0 ≡ door.port) places.items)) }
{
    let mut places = Vec::new(site.alloc);
    let Some(door) = site.door else {
        return Ok(places);
    };
    for turn in 0..PAGE_THREADS {
        let session = site.settings.sessions + site.settings.readers + turn;
        let (desk, shelf) = door_and_shelf(site, seats, session, bells.clone()?, false);
        let lines = DeskLines::new(site.alloc, door.keys, desk, shelf);
        let page = PageService::new(site.alloc, door.port, lines);
        places.push(PagePlace {
            rt: site.rt,
            alloc: site.alloc,
            door,
            session,
            end: site.end,
            page,
        })?;
    }
    Ok(places)
}
