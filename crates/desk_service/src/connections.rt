//! Connections: a session over each, one after the other.
ghost use Rattle.std.specs.Prelude.{ℕ};
ghost use Rattle.desk_service.specs.Connections.{EndsAfter, ServesConnection, ServesConnections};

use crate::clients::Clients;
use crate::patience::{PatientReader, PatientWriter};
use crate::service_end::ServiceEnd;
use crate::sessions::{Ending, serve_session};
use deck_files::Shelf;
use session_line::{Calls, Rights};
use std::alloc::Global;
use std::hash::RandomState;
use std::io::{BufReader, BufWriter};
use std::net::{Shutdown, TcpStream};
use std::sync::Wait;
use std::time::{Clock, Duration};
use text_ports::Counted;

/// Why a thread serves no further connection.
#[derive(Clone, Copy)]
pub(crate) enum Closed {
    /// None can come any more.
    NoMore,
    /// It was to serve one, which came.
    Once,
    /// The end of the service is asked for.
    Asked,
}

/// Closes a connection that could not be written to, before what its writer keeps back waits once more.
fn close_unwritten(stream: &TcpStream, ending: Ending) {
    if let Ending::WriteFault = ending {
        let _ = stream.shutdown(Shutdown::Both);
    }
}

/// How a session serves connections.
#[derive(Drop)]
pub(crate) struct Serving<'a, R> {
    pub(crate) rt: &'a R,
    pub(crate) alloc: Global,
    /// The keys of its tables.
    pub(crate) keys: RandomState,
    /// The number of its place.
    pub(crate) session: usize,
    /// What its clients may do.
    pub(crate) rights: Rights,
    /// How long a client may be idle.
    pub(crate) idle: Duration,
    /// Whether it ends after one connection.
    pub(crate) once: bool,
    pub(crate) end: &'a ServiceEnd,
}

/// Serves a connection to its end, whose client may take nothing of a reply for half a minute at most. Where
/// there is no memory for its buffers it is closed at once.
fn serve_connection<R: Clock, C: Calls, S: Shelf>(
    serving: &Serving<'_, R>,
    stream: &TcpStream,
    desk: &mut C,
    shelf: &mut S,
)
    ensures { ServesConnection serving.now.rights C.relations S.relations desk.old shelf.old desk.new shelf.new }
{
    let (alloc, keys, idle) = (serving.alloc, serving.keys, serving.idle);
    let _ = stream.set_nodelay(true);
    let Ok(reader) = BufReader::new(alloc, PatientReader::new(serving.rt, stream, idle)) else {
        return;
    };
    let Ok(writer) = BufWriter::new(alloc, PatientWriter::new(stream, idle)) else {
        return;
    };
    let (mut input, mut output) = (Counted::new(reader), Counted::new(writer));
    let rights = serving.rights;
    let ending = serve_session(alloc, keys, rights, &mut input, &mut output, desk, shelf);
    close_unwritten(stream, ending);
}

/// Serves a connection that came; where the end of the service is asked for it is closed at once.
fn serve_arrival<R: Wait + Clock, C: Calls, S: Shelf>(
    serving: &Serving<'_, R>,
    stream: &TcpStream,
    desk: &mut C,
    shelf: &mut S,
)
    ensures { ServesConnection serving.now.rights C.relations S.relations desk.old shelf.old desk.new shelf.new }
{
    if serving.end.enter(serving.rt, serving.session, stream) {
        serve_connection(serving, stream, desk, shelf);
        serving.end.leave(serving.rt, serving.session);
    }
}

/// Serves the connections that come, each to its end, until none can come any more or the end of the
/// service is asked for; with `once` it ends after one. Desk and shelf are called by these sessions and
/// by nothing else.
pub(crate) fn serve_connections<R: Wait + Clock, C: Calls, S: Shelf>(
    serving: &Serving<'_, R>,
    clients: &Clients,
    desk: &mut C,
    shelf: &mut S,
) -> Closed
    ensures { (count : ℕ) × ServesConnections serving.now.rights C.relations S.relations desk.old shelf.old desk.new shelf.new count × EndsAfter result serving.now.once count }
{
    for _ in serving.rt.forever() {
        let Ok(stream) = clients.next(serving.rt) else {
            return Closed::NoMore;
        };
        serve_arrival(serving, &stream, desk, shelf);
        if serving.once {
            return Closed::Once;
        }
        if serving.end.is_asked(serving.rt) {
            return Closed::Asked;
        }
    }
    unreachable!()
}
