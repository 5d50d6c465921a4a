//! Clients that come: each gets a session that is free, or one that may ask alone, or is answered that there is none.
//!
//! Who finds no session free waits for one for a moment, beside others who do, so that a client that comes just
//! as a session ends gets it, and none waits for those in front of it. Where too many wait, who comes then is
//! turned away at once.

use crate::clients::{ToEdit, ToRead};
use crate::lobby::{Guest, Lobby};
use crate::service_end::ServiceEnd;
use crossbeam_channel::{SendTimeoutError, Sender, TrySendError};
use session_commands::Refusal;
use session_line::{Reply, write_reply};
use std::alloc::Global;
use std::io::ErrorKind;
use std::net::{Shutdown, TcpListener, TcpStream};
use std::sync::Wait;
use std::thread;
use std::time::{Clock, Duration};
use text_ports::Counted;

/// How long the service sleeps after it could not accept a connection, in milliseconds.
const PAUSE: u64 = 100;

/// How long a client waits for a session to come free, in milliseconds.
const WAIT: u64 = 200;

/// How long a session is waited for while clients wait and none comes, in milliseconds.
const LOOK: u64 = 10;

/// What became of a connection.
#[derive(Clone, Copy)]
enum Arrival {
    /// A session has it.
    Taken,
    /// It could not be accepted.
    Failed,
    /// No session was free.
    TurnedAway,
    /// It waits for a session, or none came.
    Waiting,
    /// All sessions have ended, or the end of the service is asked for.
    NoSessions,
}

/// Reports to a client that all sessions are taken, and closes the connection. Nothing waits for the client:
/// the line finds room in a new connection.
fn turn_away(stream: &TcpStream) {
    let _ = stream.set_write_timeout(Some(Duration::from_millis(WAIT)));
    let _ = write_reply(&mut Counted::new(stream), &Reply::Refused(Refusal::Busy));
    let _ = stream.shutdown(Shutdown::Write);
}

/// Where clients are sent to: those that may edit, and those that may ask.
#[derive(Drop)]
pub(crate) struct Arrivals {
    pub(crate) to_edit: Sender<ToEdit>,
    pub(crate) to_read: Sender<ToRead>,
}

/// Gives a connection to a session that may ask and waits for one, or turns it away.
fn offer_to_read<R: Wait>(rt: &R, stream: TcpStream, to_read: &Sender<ToRead>) -> Arrival {
    match to_read.try_send(rt, ToRead(stream)) {
        Ok(()) => Arrival::Taken,
        Err(
            TrySendError::Disconnected(ToRead(stream))
            | TrySendError::Full(ToRead(stream))
            | TrySendError::OutOfMemory(ToRead(stream)),
        ) => {
            turn_away(&stream);
            Arrival::TurnedAway
        }
    }
}

/// Lets a client wait behind the others; where too many do it gets a session that may ask, or is turned away.
fn let_wait<R: Wait + Clock>(
    rt: &R,
    lobby: &mut Lobby<TcpStream>,
    stream: TcpStream,
    arrivals: &Arrivals,
) -> Arrival {
    if lobby.is_full() {
        return offer_to_read(rt, stream, &arrivals.to_read);
    }
    match lobby.let_in(Guest::new(rt, stream)) {
        Ok(()) => Arrival::Waiting,
        Err(guest) => offer_to_read(rt, guest.stream, &arrivals.to_read),
    }
}

/// What becomes of the first client that waits where no session that may edit took it: it waits on, or its
/// time is over, and it gets one that may ask, or is turned away.
fn wait_on<R: Wait + Clock>(
    rt: &R,
    lobby: &mut Lobby<TcpStream>,
    guest: Guest<TcpStream>,
    arrivals: &Arrivals,
) -> Arrival {
    if guest.has_waited(rt, Duration::from_millis(WAIT)) {
        return offer_to_read(rt, guest.stream, &arrivals.to_read);
    }
    match lobby.put_back(guest) {
        Ok(()) => Arrival::Waiting,
        Err(guest) => offer_to_read(rt, guest.stream, &arrivals.to_read),
    }
}

/// Gives the first client that waits to a session that may edit, for which so long is waited.
fn offer_first<R: Wait + Clock>(
    rt: &R,
    lobby: &mut Lobby<TcpStream>,
    arrivals: &Arrivals,
    waiting: Duration,
) -> Arrival {
    let Some(guest) = lobby.take_first() else {
        return Arrival::Waiting;
    };
    let Guest { stream, since } = guest;
    match arrivals.to_edit.send_timeout(rt, ToEdit(stream), waiting) {
        Ok(()) => Arrival::Taken,
        Err(SendTimeoutError::Disconnected(_)) => Arrival::NoSessions,
        Err(
            SendTimeoutError::Timeout(ToEdit(stream))
            | SendTimeoutError::OutOfMemory(ToEdit(stream)),
        ) => wait_on(rt, lobby, Guest { stream, since }, arrivals),
    }
}

/// Looks for a client at the port, and for a session for the first client that waits. While none waits it
/// sleeps until one comes; while some do, and none comes, for a moment.
fn receive_next<R: Wait + Clock>(
    rt: &R,
    listener: &TcpListener,
    lobby: &mut Lobby<TcpStream>,
    arrivals: &Arrivals,
    end: &ServiceEnd,
) -> Arrival {
    let _ = listener.set_nonblocking(!lobby.is_empty());
    let coming = listener.accept();
    if end.is_asked(rt) {
        return Arrival::NoSessions;
    }
    match coming {
        Ok((stream, _)) => match let_wait(rt, lobby, stream, arrivals) {
            Arrival::Waiting => offer_first(rt, lobby, arrivals, Duration::ZERO),
            arrival => arrival,
        },
        Err(error) if error.kind() == ErrorKind::WouldBlock => {
            offer_first(rt, lobby, arrivals, Duration::from_millis(LOOK))
        }
        Err(_) => {
            let _ = thread::sleep(rt, Duration::from_millis(PAUSE));
            Arrival::Failed
        }
    }
}

/// Turns away who waits still.
fn turn_all_away(lobby: &mut Lobby<TcpStream>) {
    for _ in 0..lobby.len() {
        if let Some(guest) = lobby.take_first() {
            turn_away(&guest.stream);
        }
    }
}

/// Accepts connections and gives each to a session that waits for one. A client that finds none is answered
/// so within a moment, and its connection is closed. With a number it ends after so many that were taken or
/// could not be accepted, and else with the first that comes once the end of the service is asked for; a
/// service that can't accept sleeps for a moment, so that a fault that stays costs nothing.
pub(crate) fn receive_clients<R: Wait + Clock>(
    rt: &R,
    alloc: Global,
    listener: &TcpListener,
    arrivals: &Arrivals,
    most: Option<usize>,
    end: &ServiceEnd,
) {
    let mut lobby = Lobby::new(alloc);
    let mut served: usize = 0;
    for _ in rt.forever() {
        if most == Some(served) {
            return turn_all_away(&mut lobby);
        }
        match receive_next(rt, listener, &mut lobby, arrivals, end) {
            Arrival::Taken | Arrival::Failed => served = served.saturating_add(1),
            Arrival::TurnedAway | Arrival::Waiting => {}
            Arrival::NoSessions => return,
        }
    }
}
