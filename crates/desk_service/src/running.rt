//! The service: its threads start, and end.
ghost use Rattle.std.specs.Prelude.{◌≡◌, ◌+◌, ◌≤◌, IfSome, length};
ghost use Rattle.turn_office.specs.Seats.{AreOf};
ghost use Rattle.desk_service.specs.Seating.{page_threads, session_count};
ghost use Rattle.desk_service.specs.Services.{AreInRange, IsLocal};

use crate::arrivals::{Arrivals, receive_clients};
use crate::control::{Control, answer, try_path};
use crate::faults::ServeFault;
use crate::journals::Journal;
use crate::lobby::Lobby;
use crate::opening::{Opened, open};
use crate::pages::{Entrance, PAGE_THREADS, page_threads};
use crate::places::{Serve, Site};
use crate::root::{JournalLock, take_folder, take_journal, try_files};
use crate::seating::{Places, open_channels, seat_all};
use crate::service_end::ServiceEnd;
use crate::settings::{JOURNAL, Settings};
use crate::system_file::SystemFile;
use crate::versions::{Seen, VERSIONS};
use deck_files::{FILES, KnownFiles, clear_folder};
use desk_core::Desk;
use std::alloc::{AllocError, AllocGlobal, Global};
use std::fs::File;
use std::hash::RandomState;
use std::io::ErrorKind;
use std::net::{IpAddr, Ipv4Addr, Net, SocketAddr, TcpListener, TcpStream};
use std::random::RandomSource;
use std::rt::Files;
use std::sync::{Mutex, Wait};
use std::thread;
use std::thread::{JoinHandle, Scope, Threads};
use std::time::{Clock, Duration};
use turn_office::{Office, SeatList};

/// How long waking a thread that waits at a port may take, in milliseconds.
const WAKING: u64 = 200;

/// The address of a port on this machine, which no other reaches.
fn local_address(port: u16) -> SocketAddr
    ensures { IsLocal result port }
{
    SocketAddr::new(IpAddr::V4(Ipv4Addr::new(127, 0, 0, 1)), port)
}

/// The port at which a listener listens that was to have one.
fn port_of(listener: &TcpListener, port: u16) -> u16 {
    match listener.local_addr() {
        Ok(address) => address.port(),
        Err(_) => port,
    }
}

/// Wakes so many threads that wait at a port: each takes a connection, and finds that the end was asked for.
fn wake<R: Net>(rt: &R, port: u16, threads: usize) {
    let (address, waking) = (local_address(port), Duration::from_millis(WAKING));
    for _ in 0..threads {
        let _ = TcpStream::connect_timeout(rt, &address, waking);
    }
}

/// What a service is before its folder is asked: where clients come in, and browsers, if there is a door for
/// them.
#[derive(Drop)]
struct Service<'a, R> {
    rt: &'a R,
    alloc: Global,
    keys: RandomState,
    settings: &'a Settings<'a>,
    listener: &'a TcpListener,
    door: Option<Entrance<'a>>,
}

impl<R> Service<'_, R> {
    /// The port at which it listens.
    fn port(&self) -> u16 {
        port_of(self.listener, self.settings.port)
    }

    /// The port of its page, if it has one.
    fn page(&self) -> Option<u16> {
        Some(self.door?.port)
    }

    /// After how many connections it ends, where it does.
    fn most_clients(&self) -> Option<usize> {
        if self.settings.once {
            Some(self.settings.sessions.saturating_add(self.settings.readers))
        } else {
            None
        }
    }

    /// How many of its threads change decks: those of its sessions and readers, and of the page, if there is a
    /// door for browsers.
    fn changing_threads(&self) -> usize
        requires { AreInRange self.now.settings.now }
        ensures count { result ≡ session_count self.now.settings.now + page_threads self.now.door }
        ensures few { result ≤ 36 }
    {
        self.settings.sessions + self.settings.readers + page_threads(self.door)
    }
}

impl<R: Eprint> Service<'_, R> {
    /// Reports on standard error that it listens: where, for which folder, with how many workers and sessions;
    /// how many further connections may ask, and where the page is, if there is one.
    fn announce(&self) {
        let address = local_address(self.port());
        let Settings {
            root,
            workers,
            sessions,
            readers,
            ..
        } = *self.settings;
        let _ = eprintln!(self.rt;
            "compass: listening on {address}, folder {root}, workers {workers}, sessions {sessions}"
        );
        if readers > 0 {
            let _ = eprintln!(self.rt; "compass: up to {readers} connections more may read");
        }
        if let Some(port) = self.page() {
            let _ = eprintln!(self.rt; "compass: the page is at http://127.0.0.1:{port}/");
        }
    }
}

/// What watches over a service: its end, and who waits for that at its control connection, if there is one.
#[derive(Drop)]
struct Watch<'a, R> {
    service: &'a Service<'a, R>,
    control: Option<&'a Control>,
    end: &'a ServiceEnd,
}

/// What receives the clients of a service.
#[derive(Drop)]
struct Receiving<'a, R> {
    watch: &'a Watch<'a, R>,
    arrivals: Arrivals,
}

/// It reports that the service listens, and receives clients to the end of the service.
impl<R: Wait + Clock + Eprint + Sync> Serve for Receiving<'_, R> {
    fn serve(self) {
        let (service, end) = (self.watch.service, self.watch.end);
        service.announce();
        receive_clients(
            service.rt,
            service.alloc,
            service.listener,
            &self.arrivals,
            service.most_clients(),
            end,
        );
    }
}

/// What hears of the end of a service.
trait Hear: Serve + Copy {
    /// The service ends by itself: nobody waits any more.
    fn close(self);
}

impl<R: Wait + Net> Watch<'_, R> {
    /// Asks for the end, and wakes who waits at the ports of the service.
    fn ask(&self) {
        let rt = self.service.rt;
        self.end.ask(rt);
        wake(rt, self.service.port(), 1);
        if let Some(port) = self.service.page() {
            wake(rt, port, PAGE_THREADS);
        }
    }
}

/// It waits until somebody says `STOP`, or the service ends by itself.
impl<R: Wait + Clock + Net + Sync> Serve for &Watch<'_, R>
where
    R::Listener: Send,
    R::Stream: Send,
{
    fn serve(self) {
        let rt = self.service.rt;
        let Some(control) = self.control else {
            return;
        };
        if let Some(stream) = control.asked_by(rt, self.end) {
            self.ask();
            answer(rt, stream, self.end);
        }
    }
}

impl<R: Wait + Clock + Files + Net + Sync> Hear for &Watch<'_, R>
where
    R::Listener: Send,
    R::Stream: Send,
{
    fn close(self) {
        self.ask();
        if let Some(control) = self.control {
            control.close(self.service.rt);
        }
    }
}

/// Serves a place in a thread of its own; want of memory where none can be made.
fn start<'s, E, P: Serve + 's>(
    scope: &Scope<'s, E>,
    place: P,
) -> Result<JoinHandle<()>, AllocError> {
    Ok(scope.spawn(move || place.serve())?)
}

/// Serves each place in a thread of its own; want of memory where one can't be made.
fn start_all<'s, E, P: Serve + 's>(
    scope: &Scope<'s, E>,
    places: Vec<P>,
    threads: &mut Vec<JoinHandle<()>>,
) -> Result<(), AllocError> {
    for place in places {
        threads.push(start(scope, place)?)?;
    }
    Ok(())
}

/// Starts the threads of a service: one for each place, and one that hears of the end.
fn start_threads<'s, E, W: Serve + 's, S: Serve + 's, P: Serve + 's, C: Serve + 's, H: Hear + 's>(
    scope: &Scope<'s, E>,
    alloc: Global,
    workers: Vec<W>,
    sessions: Vec<S>,
    pages: Vec<P>,
    receiving: C,
    hearing: H,
) -> Result<(Vec<JoinHandle<()>>, JoinHandle<()>), AllocError> {
    let mut threads = Vec::new(alloc);
    start_all(scope, workers, &mut threads)?;
    start_all(scope, sessions, &mut threads)?;
    start_all(scope, pages, &mut threads)?;
    threads.push(start(scope, receiving)?)?;
    Ok((threads, start(scope, hearing)?))
}

/// Runs each place in a thread of its own, and returns when all have ended. Where a thread can't be made,
/// those that were made end at once.
fn run<R: Threads + Wait + Sync, W: Serve, S: Serve, P: Serve, C: Serve, H: Hear>(
    rt: &R,
    alloc: Global,
    workers: Vec<W>,
    sessions: Vec<S>,
    pages: Vec<P>,
    receiving: C,
    hearing: H,
) -> Result<(), AllocError> {
    thread::scope(
        thread::scope_env(),
        rt,
        move |scope| -> Result<(), AllocError> {
            let Ok((threads, heard)) = start_threads(
                scope, alloc, workers, sessions, pages, receiving, hearing,
            ) else {
                hearing.close();
                return Err(AllocError);
            };
            for thread in threads {
                thread.join(rt);
            }
            hearing.close();
            heard.join(rt);
            Ok(())
        },
    )
}

impl<R> Service<'_, R>
where
    R: Threads
        + Wait
        + Sync
        + Files<File = File>
        + AllocGlobal
        + Clone
        + Drop
        + Clock
        + Eprint
        + Net,
    R::File: Send,
    R::Dir: Send,
    R::Listener: Send,
    R::Stream: Send,
{
    /// Serves at an office, whose journal has a place for each thread that changes decks: each worker and each
    /// session has a seat of its own, and so has each thread of the page.
    fn serve_at(
        &self,
        office: &Office<Desk>,
        seats: SeatList<Desk>,
        journal: Option<&Journal<SystemFile<R::File>>>,
        known: &KnownFiles,
        control: Option<&Control>,
    ) -> Result<(), ServeFault>
        requires range { AreInRange self.now.settings.now }
        requires own { AreOf office.now.id seats.items }
        requires enough { length seats.items ≡ self.now.settings.now.workers + (session_count self.now.settings.now + page_threads self.now.door) }
        requires places { IfSome journal (λ journal. journal.now ≡ session_count self.now.settings.now + page_threads self.now.door) }
    {
        let (alloc, settings) = (self.alloc, self.settings);
        let sessions = settings.sessions + settings.readers;
        let threads = self.changing_threads();
        let end = &ServiceEnd::new(alloc, threads, sessions, settings.sessions)?;
        let channels = open_channels(alloc)?;
        let site = Site {
            rt: self.rt,
            alloc,
            keys: self.keys,
            settings,
            office,
            journal,
            known,
            end,
            door: self.door,
        };
        let Places {
            workers,
            sessions,
            pages,
        } = seat_all(&site, seats, &channels)?;
        let watch = &Watch {
            service: self,
            control,
            end,
        };
        let arrivals = channels.into_arrivals();
        let receiving = Receiving { watch, arrivals };
        Ok(run(self.rt, alloc, workers, sessions, pages, receiving, watch)?)
    }

    /// Serves what was opened.
    fn serve_opened(
        &self,
        opened: Opened<SystemFile<R::File>>,
        known: &KnownFiles,
        control: Option<&Control>,
    ) -> Result<(), ServeFault>
        requires range { AreInRange self.now.settings.now }
        requires places { IfSome opened.journal (λ journal. journal ≡ session_count self.now.settings.now + page_threads self.now.door) }
    {
        let Opened { desk, journal } = opened;
        let threads = self.changing_threads();
        let (office, seats) = Office::open(self.alloc, desk, self.settings.workers + threads)?;
        self.serve_at(&office, seats, journal.as_ref(), known, control)
    }

    /// The files that are known in the folder, for a desk that goes on behind a version.
    fn known(&self, last: u64) -> Result<KnownFiles, ServeFault> {
        match KnownFiles::kept_in(self.rt, self.alloc, self.keys, self.settings.root, last) {
            Ok(known) => Ok(known),
            Err(error) if error.kind() == ErrorKind::OutOfMemory => Err(ServeFault::OutOfMemory),
            Err(_) => Err(ServeFault::NoFolder),
        }
    }

    /// Serves the folder, whose journal is taken.
    fn serve_folder(&self, lock: &mut JournalLock) -> Result<(), ServeFault>
        requires { AreInRange self.now.settings.now }
    {
        let (rt, alloc, settings) = (self.rt, self.alloc, self.settings);
        let seen = Seen::read(rt, alloc, settings.root)?;
        let opened = open(rt, alloc, settings, self.changing_threads(), &seen, lock)?;
        let control = Control::open(rt, alloc, settings.root);
        let known = self.known(opened.desk.version())?;
        self.serve_opened(opened, &known, control.as_ref())
    }
}

/// Serves at a listener: the desk is new, or as its journal leaves it; each worker and each session has a
/// seat of its own at it. What its folder has seen of versions is not asked, and it has no control
/// connection and no page.
/// With `once` it returns when each session thread has served one connection; else it returns only
/// where a thread can't be made.
pub fn serve_on<'a, R>(
    rt: &'a R,
    alloc: Global,
    listener: &'a TcpListener,
    settings: &'a Settings<'a>,
) -> Result<(), ServeFault>
where
    R: Threads
        + Wait
        + Sync
        + Files<File = File>
        + AllocGlobal
        + Clone
        + Drop
        + Clock
        + Eprint
        + RandomSource
        + Net,
    R::File: Send,
    R::Dir: Send,
    R::Listener: Send,
    R::Stream: Send,
    requires { AreInRange settings.now }
{
    let Ok(keys) = RandomState::new(rt) else {
        return Err(ServeFault::ReadFault);
    };
    let service = Service {
        rt,
        alloc,
        keys,
        settings,
        listener,
        door: None,
    };
    let (seen, threads) = (Seen::unasked(alloc), service.changing_threads());
    let mut lock = JournalLock::new(alloc, settings.journal);
    let opened = open(rt, alloc, settings, threads, &seen, &mut lock)?;
    service.serve_opened(opened, &KnownFiles::new(alloc, keys), None)
}

/// Serves on a port of 127.0.0.1, where no other service has the folder; what saves of a killed service
/// left there is taken away. With a port for the page, browsers are served there, at 127.0.0.1 too. The faults
/// come in this order: want of memory for the name of a file, `NoFolder`, `FolderTaken`, `NoLocks`, `LongRoot`,
/// `FewFiles`, the journal's `FolderTaken` and `JournalTaken`, `SocketFault`, `ReadFault`,
/// `PageFault`, then those of versions and journal, and want of memory. A port that can't be listened on is
/// the one fault that is shown of sockets: later ones end a session at most. It returns without a fault where
/// `STOP` is said at the control connection of the folder, and with `once` as `serve_on`, where there is no
/// page. A thread that hangs in the system holds the return up.
pub fn serve<'a, R>(
    rt: &'a R,
    alloc: Global,
    settings: &'a Settings<'a>,
    page: Option<u16>,
) -> Result<(), ServeFault>
where
    R: Threads
        + Wait
        + Sync
        + Files<File = File>
        + AllocGlobal
        + Clone
        + Drop
        + Clock
        + Eprint
        + RandomSource
        + Net<Listener = TcpListener, Stream = TcpStream>,
    R::File: Send,
    R::Dir: Send,
    requires { AreInRange settings.now }
{
    let taken = take_folder(rt, alloc, settings.root)?;
    try_path(alloc, settings.root)?;
    try_files(
        alloc,
        &taken,
        settings.sessions + settings.readers + PAGE_THREADS,
    )?;
    let mut lock = take_journal(rt, alloc, settings)?;
    clear_folder(rt, settings.root, &[VERSIONS, JOURNAL, FILES]);
    let Ok(listener) = TcpListener::bind(rt, local_address(settings.port)) else {
        return Err(ServeFault::SocketFault);
    };
    let Ok(keys) = RandomState::new(rt) else {
        return Err(ServeFault::ReadFault);
    };
    let browsers = match page {
        Some(port) => match TcpListener::bind(rt, local_address(port)) {
            Ok(browsers) => Some((browsers, port)),
            Err(_) => return Err(ServeFault::PageFault),
        },
        None => None,
    };
    let silent = Mutex::new(Lobby::new(alloc));
    let door = match &browsers {
        Some((listener, port)) => Some(Entrance {
            listener,
            silent: &silent,
            port: port_of(listener, *port),
            keys,
        }),
        None => None,
    };
    let service = Service {
        rt,
        alloc,
        keys,
        settings,
        listener: &listener,
        door,
    };
    service.serve_folder(&mut lock)
}
