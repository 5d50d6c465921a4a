//! A service of a folder, with a page, in one process: it begins with what the folder has seen, and is stopped
//! once its clients have spoken.
//!
//! `host FOLDER JOURNAL WORKERS SESSIONS [READERS] LINES`: as `serve`, whose lines clients say. A line `page LINES`
//! is said to the page, whose status and replies are shown. `serve_faults`: the faults of a service, as texts.
ghost use Rattle.std.specs.Prelude.{◌≡◌, true};
ghost use Rattle.desk_service.specs.Services.{AreInRange};

use crate::sockets::{ADDRESS, Addresses, Client, are_in_range, gather, say_all, settings_of};
use desk_service::{ServeFault, Settings, serve, stop};
use std::alloc::{AllocGlobal, Global};
use std::fs::File;
use std::net::{Net, SocketAddr, TcpListener, TcpStream};
use std::random::RandomSource;
use std::rt::Files;
use std::sync::Wait;
use std::thread::Threads;
use std::time::{Clock, Duration};
use std::{io, thread};
use test_parts::Answer;

/// How often it is looked whether a service listens: a thousandth of a second lies between two looks.
const LOOKS: u64 = 1_000;

/// Faults of a service.
const SERVE_FAULTS: [ServeFault; 6] = [
    ServeFault::SocketFault,
    ServeFault::OutOfMemory,
    ServeFault::NoFolder,
    ServeFault::FolderTaken,
    ServeFault::NoJournal,
    ServeFault::BadVersions,
];

fn push_faults(answer: &mut Answer) {
    for fault in &SERVE_FAULTS {
        answer.shown(fault);
        answer.line("");
    }
}

/// Two ports that are free.
fn free_addresses<R: Net<Stream = TcpStream, Listener = TcpListener>>(
    rt: &R,
) -> io::Result<Addresses> {
    let (service, page) = (
        TcpListener::bind(rt, ADDRESS)?,
        TcpListener::bind(rt, ADDRESS)?,
    );
    Ok(Addresses {
        service: service.local_addr()?,
        page: Some(page.local_addr()?),
    })
}

/// Waits until somebody listens there.
fn await_service<R: Net<Stream = TcpStream> + Clock>(rt: &R, address: SocketAddr) {
    for _ in 0..LOOKS {
        if TcpStream::connect(rt, address).is_ok() {
            return;
        }
        let _ = thread::sleep(rt, Duration::from_millis(1));
    }
}

/// Serves by these settings, if they are in range, with a page at this port, and returns whether that ended well.
fn host_in_range<R>(
    rt: &R,
    alloc: Global,
    settings: &Settings<'_>,
    page: Option<SocketAddr>,
) -> bool
where
    R: Threads
        + Wait
        + Sync
        + Files<File = File>
        + AllocGlobal
        + Clone
        + Drop
        + Clock
        + Eprint
        + RandomSource
        + Net<Stream = TcpStream, Listener = TcpListener>,
    R::File: Send,
    R::Dir: Send,
{
    let page = page.map(|address| address.port());
    are_in_range(settings) && serve(rt, alloc, settings, page).is_ok()
}

/// Clients say what a script has, and one stops the service.
fn talk_and_stop<R: Threads + Sync + Files + Net<Stream = TcpStream> + Clock>(
    rt: &R,
    alloc: Global,
    addresses: &Addresses,
    folder: &str,
    script: &str,
) -> Answer {
    let mut answer = Answer::new(alloc);
    await_service(rt, addresses.service);
    let done = if script == "gather" {
        gather(rt, alloc, addresses.service, &mut answer)
    } else {
        say_all(rt, alloc, addresses, script, &mut answer)
    };
    if done.is_err() {
        answer.push("broken ");
    }
    let is_stopped = stop(rt, alloc, folder);
    answer.push("stopped ");
    answer.debug(&is_stopped);
    answer.push(", ");
    answer
}

/// Makes a step of this word, if it is one of services with a page, and answers whether it is.
pub fn make<R>(rt: &R, alloc: Global, word: &str, rest: &str, answer: &mut Answer) -> bool
where
    R: Threads
        + Wait
        + Sync
        + Files<File = File>
        + AllocGlobal
        + Clone
        + Drop
        + Clock
        + Eprint
        + RandomSource
        + Net<Stream = TcpStream, Listener = TcpListener>,
    R::File: Send,
    R::Dir: Send,
{
    if word == "serve_faults" {
        push_faults(answer);
        return true;
    }
    if word != "host" {
        return false;
    }
    let (settings, script) = settings_of(rest);
    if let Ok(addresses) = free_addresses(rt) {
        let settings = Settings {
            port: addresses.service.port(),
            once: false,
            ..settings
        };
        let (is_served, told) = thread::join(
            rt,
            || host_in_range(rt, alloc, &settings, addresses.page),
            || talk_and_stop(rt, alloc, &addresses, settings.root, script),
        );
        answer.push(told.text().unwrap_or("no memory"));
        answer.push("served ");
        answer.debug(&is_served);
        answer.line("");
    }
    true
}

/// Posts lines to the page at an address: the status of the answer, and the replies.
pub(crate) fn post<R: Net<Stream = TcpStream>>(
    rt: &R,
    alloc: Global,
    page: SocketAddr,
    lines: &str,
    answer: &mut Answer,
) -> io::Result<()> {
    let (port, length) = (page.port(), lines.len().saturating_add(1));
    let request = format!(in alloc;
        "POST /session HTTP/1.1\r\nHost: 127.0.0.1:{port}\r\nOrigin: http://127.0.0.1:{port}\r\nContent-Length: {length}\r\n\r\n{lines}\n"
    )?;
    let mut browser = Client::connect(rt, alloc, page)?;
    browser.send(request.as_str())?;
    let told = browser.read_all()?;
    if let Some((head, replies)) = told.split_once("\r\n\r\n") {
        answer.push(head.split_once("\r\n").unwrap_or((head, "")).0);
        answer.line("");
        answer.push(replies);
    }
    Ok(())
}
