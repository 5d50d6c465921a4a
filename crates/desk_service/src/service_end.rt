//! The end of a service, where it is asked for: no connection is taken any more, nothing more is read of
//! those that are open, who waits for a publication is answered, and what is being answered goes out.

ghost use Rattle.std.specs.Prelude.{IfOk};
ghost use Rattle.desk_service.specs.Company.{AreListed};

use crate::company::Company;
use crate::publications::Publications;
use cards::DeckName;
use journal::session_name;
use session_line::Connected;
use std::alloc::{AllocError, Global};
use std::net::{Shutdown, TcpStream};
use std::os::unix::net::UnixStream;
use std::sync::{Mutex, Wait};

/// What the threads of a service know of its end.
#[derive(Drop)]
struct Known {
    is_asked: bool,
    /// The connection of who asked for it, which stays open until the service is over.
    asked_by: Option<UnixStream>,
    /// The connection of each session, where it serves one.
    open: Vec<Option<TcpStream>>,
    /// The names of those that are connected; the page's threads are none.
    company: Company,
}

/// The end of a service.
#[derive(Drop)]
pub(crate) struct ServiceEnd {
    known: Mutex<Known>,
    /// Where sessions sleep that the end wakes.
    publications: Publications,
}

/// Ends one direction of each connection that is open, or both.
fn shut(open: &[Option<TcpStream>], how: Shutdown) {
    for stream in open.iter().flatten() {
        let _ = stream.shutdown(how);
    }
}

impl ServiceEnd {
    /// The end of a service in which so many threads serve connections, the first of them sessions, those that
    /// may edit first; nobody has asked for it.
    pub(crate) fn new(
        alloc: Global,
        threads: usize,
        sessions: usize,
        editors: usize,
    ) -> Result<ServiceEnd, AllocError> {
        let mut open = Vec::new(alloc);
        for _ in 0..threads {
            open.push(None)?;
        }
        Ok(ServiceEnd {
            known: Mutex::new(Known {
                is_asked: false,
                asked_by: None,
                open,
                company: Company::new(alloc, sessions, editors)?,
            }),
            publications: Publications::new(),
        })
    }

    /// The publications of the service, which it has to wake who waits for one.
    pub(crate) fn publications(&self) -> &Publications {
        &self.publications
    }

    /// Whether somebody has asked for it.
    pub(crate) fn is_asked<R: Wait>(&self, rt: &R) -> bool {
        self.known.lock(rt).is_asked
    }

    /// A session of this number begins to serve a connection: whether it may. It may not where the end was
    /// asked for, or where the system has no descriptor to end it by.
    pub(crate) fn enter<R: Wait>(&self, rt: &R, session: usize, stream: &TcpStream) -> bool {
        let mut known = self.known.lock(rt);
        if known.is_asked {
            return false;
        }
        match (stream.try_clone(), known.open.get_mut(session)) {
            (Ok(same), Some(place)) => {
                *place = Some(same);
                known.company.note(session, session_name(session as u64));
                true
            }
            _ => false,
        }
    }

    /// A session has served its connection.
    pub(crate) fn leave<R: Wait>(&self, rt: &R, session: usize) {
        let mut known = self.known.lock(rt);
        known.company.leave(session);
        if let Some(place) = known.open.get_mut(session) {
            *place = None;
        }
    }

    /// The session of this number has given this name.
    pub(crate) fn note<R: Wait>(&self, rt: &R, session: usize, name: &DeckName) {
        self.known.lock(rt).company.note(session, name.copied());
    }

    /// The sessions that are connected; the one of this number gives this name.
    pub(crate) fn list<R: Wait>(
        &self,
        rt: &R,
        alloc: Global,
        session: usize,
        name: &DeckName,
    ) -> Result<Vec<Connected>, AllocError>
        ensures { IfOk result (λ sessions. AreListed session name.now sessions.items) }
    {
        self.known.lock(rt).company.listed(alloc, session, name)
    }

    /// Asks for the end: nothing more is read of the connections that are open, and nobody waits for a
    /// publication any more.
    pub(crate) fn ask<R: Wait>(&self, rt: &R) {
        let mut known = self.known.lock(rt);
        known.is_asked = true;
        shut(known.open.as_slice(), Shutdown::Read);
        drop(known);
        self.publications.end(rt);
    }

    /// Keeps the connection of who asked for it open until the service is over.
    pub(crate) fn keep_open<R: Wait>(&self, rt: &R, stream: UnixStream) {
        self.known.lock(rt).asked_by = Some(stream);
    }

    /// Whether no connection is open any more.
    pub(crate) fn is_over<R: Wait>(&self, rt: &R) -> bool {
        self.known.lock(rt).open.iter().all(|place| place.is_none())
    }

    /// Closes what is open still.
    pub(crate) fn cut<R: Wait>(&self, rt: &R) {
        shut(self.known.lock(rt).open.as_slice(), Shutdown::Both);
    }
}
