//! `compass serve`: its words, its run and its faults.
ghost use Rattle.std.specs.Prelude.{◌≡◌, ℕ, IfSome};
ghost use Rattle.desk_service.specs.Services.{AreInRange};

use clap::{ArgMatches, Command};
use command_line::{JOURNAL_STATUS, Takes, Word, with_words};
use desk_service::{Journaling, ServeFault, Settings, serve};
use std::alloc::{AllocError, Global};
use std::fs::File;
use std::net::{Net, TcpListener, TcpStream};
use std::process::ExitCode;
use std::random::RandomSource;
use std::rt::Files;
use std::sync::Wait;
use std::thread;
use std::thread::Threads;
use std::time::Clock;

/// How many workers, how many sessions, and how many readers a service has at most.
const MOST_THREADS: usize = 16;

/// How many seconds a client may be idle where nothing else is said.
const IDLE_SECONDS: u64 = 900;

/// The status of a read that failed.
const READ_STATUS: u8 = 3;

/// The status of want of memory.
pub(crate) const MEMORY_STATUS: u8 = 4;

/// The status of a socket fault before the first accept.
const SOCKET_STATUS: u8 = 6;

/// The status of a folder that can't be had, or that no service has.
pub(crate) const FOLDER_STATUS: u8 = 7;

/// What stands below the help.
const EXAMPLE: &str = "Example:
  compass serve --root decks --port 7070 --workers 2 --sessions 4 &
  printf 'ADD M\\nINS M 1 1 *A\\nCARDS M\\nBYE\\n' | nc 127.0.0.1 7070";

/// The words of `compass serve`.
const WORDS: [Word; 10] = [
    Word {
        name: "root",
        takes: Takes::Needed("DIR"),
        help: "The folder of the deck files, NAME.DECK for deck NAME",
        without: &[],
    },
    Word {
        name: "port",
        takes: Takes::Port("P"),
        help: "The port on 127.0.0.1, 1 to 65535; one that is free unless said, or at 0",
        without: &[],
    },
    Word {
        name: "page",
        takes: Takes::Port("P"),
        help: "The port on 127.0.0.1 of a page for browsers, one that is free at 0; no page unless said, and none with --once",
        without: &["once"],
    },
    Word {
        name: "workers",
        takes: Takes::Within("W", 1, 17),
        help: "How many threads assemble and link, 1 to 16; one for each processor unless said",
        without: &[],
    },
    Word {
        name: "sessions",
        takes: Takes::Within("S", 1, 17),
        help: "How many connections are served at once, 1 to 16; 16 unless said",
        without: &[],
    },
    Word {
        name: "readers",
        takes: Takes::Within("N", 0, 17),
        help: "How many further connections may ask and change nothing, 0 to 16; none unless said",
        without: &[],
    },
    Word {
        name: "idle",
        takes: Takes::Within("SECONDS", 1, 1_000_000_000),
        help: "How long a client may be silent before its session ends; 900 unless said",
        without: &[],
    },
    Word {
        name: "journal",
        takes: Takes::Text("FILE"),
        help: "The file that keeps all changes, none for no such file; beskloun.journal in DIR unless said",
        without: &[],
    },
    Word {
        name: "compact",
        takes: Takes::Nothing,
        help: "Begins the journal anew with the decks that it leaves",
        without: &[],
    },
    Word {
        name: "once",
        takes: Takes::Nothing,
        help: "Ends when each session and each reader has served one connection",
        without: &[],
    },
];

/// `compass serve` with its words.
pub(crate) fn serve_words<'a>(alloc: Global) -> Result<Command<'a>, AllocError> {
    let command = Command::new(alloc, "serve")
        .about("Serves a desk of decks that several people edit over TCP")
        .after_help(EXAMPLE);
    with_words(alloc, command, WORDS.as_slice())
}

/// Where the words want the journal.
fn journaling_of<'a>(words: &ArgMatches<'a>) -> Journaling<'a> {
    match words.get_str("journal") {
        None => Journaling::InRoot,
        Some("none") => Journaling::Off,
        Some(path) => Journaling::At(path),
    }
}

/// A number of the words, or else what it is unless said.
fn number_or(words: &ArgMatches<'_>, name: &str, unless_said: usize) -> usize {
    words.get_one(name).unwrap_or(unless_said)
}

/// How many processors the system lets the process have; 1 where it doesn't report.
fn processors(rt: &impl Threads) -> usize {
    match thread::available_parallelism(rt) {
        Ok(count) => count.get(),
        Err(_) => 1,
    }
}

/// What the words of `compass serve` ask for. None comes only where `clap` let through what it was
/// asked to refuse.
pub(crate) fn settings_of<'a>(rt: &impl Threads, words: &ArgMatches<'a>) -> Option<Settings<'a>>
    ensures { IfSome result AreInRange }
{
    let root = words.get_str("root")?;
    let port = words.get_one("port").unwrap_or(0);
    let workers = number_or(words, "workers", processors(rt).min(MOST_THREADS));
    let sessions = number_or(words, "sessions", MOST_THREADS);
    let readers = number_or(words, "readers", 0);
    let idle = words.get_one("idle").unwrap_or(IDLE_SECONDS);
    if workers < 1
        || workers > MOST_THREADS
        || sessions < 1
        || sessions > MOST_THREADS
        || readers > MOST_THREADS
        || idle < 1
    {
        return None;
    }
    Some(Settings {
        root,
        journal: journaling_of(words),
        compact: words.get_flag("compact"),
        port,
        workers,
        sessions,
        readers,
        idle,
        once: words.get_flag("once"),
    })
}

/// Which port the words want for a page.
fn page_of(words: &ArgMatches<'_>) -> Option<u16> {
    words.get_one("page")
}

/// Runs the service that the words ask for, and reports a fault in one line on standard error.
pub(crate) fn run_service<R>(rt: &R, settings: &Settings<'_>, words: &ArgMatches<'_>) -> ExitCode
where
    R: AllocGlobal
        + Threads
        + Wait
        + Sync
        + Files<File = File>
        + Clone
        + Drop
        + Clock
        + Eprint
        + RandomSource
        + Net<Listener = TcpListener, Stream = TcpStream>,
    R::File: Send,
    R::Dir: Send,
    requires { AreInRange settings.now }
{
    let page = page_of(words);
    match serve(rt, rt.alloc(), settings, page) {
        Ok(()) => ExitCode::SUCCESS,
        Err(fault) => {
            tell(rt, fault, settings, page.unwrap_or(0));
            ExitCode::from(status_of(fault))
        }
    }
}

/// The line of a fault, with what can be done.
fn tell<R: Eprint>(rt: &R, fault: ServeFault, settings: &Settings<'_>, page: u16) {
    let Settings { root, port, .. } = *settings;
    let _ = match fault {
        ServeFault::SocketFault => eprintln!(rt;
            "compass: {fault}: 127.0.0.1:{port} can't be listened on; another program may have the port, choose another with --port"
        ),
        ServeFault::PageFault => eprintln!(rt;
            "compass: {fault}: the page can't be at 127.0.0.1:{page}; another program may have the port, choose another with --page"
        ),
        ServeFault::ReadFault => eprintln!(rt;
            "compass: {fault}: the system gives no random numbers"
        ),
        ServeFault::OutOfMemory => eprintln!(rt;
            "compass: {fault}: free some, or take fewer --workers, --sessions and --readers"
        ),
        ServeFault::NoFolder => eprintln!(rt;
            "compass: {fault}: {root} is not there, is no folder, or can't be written in; make it, or choose another with --root"
        ),
        ServeFault::FolderTaken => eprintln!(rt;
            "compass: {fault}: another service runs on {root}; stop it, or choose another folder with --root"
        ),
        ServeFault::NoLocks => eprintln!(rt;
            "compass: {fault}: the file system of {root} has no locks, by which a service has its folder; choose a folder on another with --root"
        ),
        ServeFault::LongRoot => eprintln!(rt;
            "compass: {fault}: {root} is too long for the socket by which the service is stopped; start it inside of the folder with --root ., or choose a shorter one"
        ),
        ServeFault::FewFiles => eprintln!(rt;
            "compass: {fault}: the process may open too few files to serve; let it open more (ulimit -n), or take fewer --sessions and --readers"
        ),
        ServeFault::JournalTaken => eprintln!(rt;
            "compass: {fault}: another service keeps its changes in that journal; stop it, or choose another with --journal"
        ),
        ServeFault::NoJournal => eprintln!(rt;
            "compass: {fault}: the journal can't be read or written; look at the file and its folder, or choose another with --journal"
        ),
        ServeFault::BadVersions => eprintln!(rt;
            "compass: {fault}: {root}/.beskloun.versions has no version; put a number above all that were given out there, a blank and a name into it"
        ),
        ServeFault::BadJournal { number, begin } => eprintln!(rt;
            "compass: {fault}: record {number} of the journal, at byte {begin}, is damaged or can't be made again; nothing was changed; mend the file, or choose another with --journal"
        ),
    };
}

/// The status of a fault.
fn status_of(fault: ServeFault) -> u8
    ensures socket { fault ≡ ServeFault.SocketFault → result ≡ 6 }
    ensures page { fault ≡ ServeFault.PageFault → result ≡ 6 }
    ensures read { fault ≡ ServeFault.ReadFault → result ≡ 3 }
    ensures memory { fault ≡ ServeFault.OutOfMemory → result ≡ 4 }
    ensures none { fault ≡ ServeFault.NoFolder → result ≡ 7 }
    ensures taken { fault ≡ ServeFault.FolderTaken → result ≡ 7 }
    ensures locks { fault ≡ ServeFault.NoLocks → result ≡ 7 }
    ensures root { fault ≡ ServeFault.LongRoot → result ≡ 7 }
    ensures files { fault ≡ ServeFault.FewFiles → result ≡ 6 }
    ensures kept { fault ≡ ServeFault.JournalTaken → result ≡ 8 }
    ensures versions { fault ≡ ServeFault.BadVersions → result ≡ 7 }
    ensures journal { fault ≡ ServeFault.NoJournal → result ≡ 8 }
    ensures record { (number begin : ℕ) → fault ≡ ServeFault.BadJournal number begin → result ≡ 8 }
{
    match fault {
        ServeFault::SocketFault | ServeFault::PageFault => SOCKET_STATUS,
        ServeFault::FewFiles => SOCKET_STATUS,
        ServeFault::ReadFault => READ_STATUS,
        ServeFault::OutOfMemory => MEMORY_STATUS,
        ServeFault::NoFolder | ServeFault::FolderTaken | ServeFault::BadVersions => FOLDER_STATUS,
        ServeFault::NoLocks | ServeFault::LongRoot => FOLDER_STATUS,
        ServeFault::NoJournal | ServeFault::BadJournal { .. } => JOURNAL_STATUS,
        ServeFault::JournalTaken => JOURNAL_STATUS,
    }
}
