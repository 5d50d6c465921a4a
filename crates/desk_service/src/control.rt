//! The control connection of a service: who may write in its folder ends it there.
//!
//! It is a socket in the folder, `.beskloun.control`, which the user of the service alone can open. A line
//! `STOP` ends the service: what is being answered goes out, for at most a moment, and then all threads
//! end. The toolchain knows no signals; a signal ends the process at once, and the journal keeps what was
//! answered.

ghost use Rattle.std.specs.Prelude.{◌≡◌};
ghost use Rattle.desk_service.specs.Services.{fits_socket};

use crate::faults::ServeFault;
use crate::lobby::{Guest, Heard, Lobby, Speak};
use crate::root::path_in;
use crate::service_end::ServiceEnd;
use std::alloc::Global;
use std::fs::Permissions;
use std::io::{ErrorKind, Read, Write};
use std::net::Net;
use std::os::unix::fs::PermissionsExt;
use std::os::unix::net::{UnixListener, UnixStream};
use std::rt::Files;
use std::sync::Wait;
use std::time::{Clock, Duration};
use std::{fs, thread};

/// The name of the control connection in its folder.
const CONTROL: &str = ".beskloun.control";

/// How many bytes the address of a socket has for its path, with a zero behind it.
const MOST_PATH: usize = 108;

/// How long the service sleeps before it looks again, in milliseconds.
const PAUSE: u64 = 50;

/// How often it looks whether all replies are out before it closes the connections.
const LOOKS: u32 = 12;

/// How long who connects may take for its line, in milliseconds.
const PATIENCE: u64 = 1_000;

/// How long the control connection is not looked at while somebody there has said nothing yet, in milliseconds.
const LOOK: u64 = 20;

/// The control connection of a service.
#[derive(Drop)]
pub(crate) struct Control {
    alloc: Global,
    listener: UnixListener,
    path: String,
}

/// Whether a path has room in the address of a socket.
fn fits_socket(path: &str) -> bool
    ensures { result ≡ fits_socket path.now }
{
    path.len() < MOST_PATH
}

/// Whether the control connection of a folder can have its place; `LongRoot` where the path is too long.
pub(crate) fn try_path(alloc: Global, folder: &str) -> Result<(), ServeFault> {
    let path = path_in(alloc, folder, CONTROL)?;
    if fits_socket(path.as_str()) {
        Ok(())
    } else {
        Err(ServeFault::LongRoot)
    }
}

/// The operator at the control connection, who has said nothing yet.
#[derive(Drop)]
struct Operator(UnixStream);

impl Speak for Operator {
    fn hear(&self) -> Heard {
        let mut line = [0; 8];
        let mut input = &self.0;
        match input.read(&mut line) {
            Ok(count) if line.get(..count) == Some(b"STOP\n".as_slice()) => Heard::Something,
            Ok(_) => {
                tell(&self.0, b"NO BadCommand\n");
                Heard::Gone
            }
            Err(error) if error.kind() == ErrorKind::WouldBlock => Heard::Nothing,
            Err(_) => Heard::Gone,
        }
    }
}

/// Reports one line over the connection.
fn tell(stream: &UnixStream, line: &[u8]) {
    let mut output = stream;
    let _ = output.write_all(line);
}

/// Takes who connects; while somebody has said nothing yet it does not wait for that.
fn let_operator_in<R: Wait + Clock>(rt: &R, listener: &UnixListener, silent: &mut Lobby<Operator>) {
    let _ = listener.set_nonblocking(!silent.is_empty());
    match listener.accept() {
        Ok((stream, _)) => {
            let _ = stream.set_nonblocking(true);
            silent.crowd_in(Guest::new(rt, Operator(stream)));
        }
        Err(error) if error.kind() == ErrorKind::WouldBlock => {
            let _ = thread::sleep(rt, Duration::from_millis(LOOK));
        }
        Err(_) => {
            let _ = thread::sleep(rt, Duration::from_millis(PAUSE));
        }
    }
}

impl Control {
    /// The control connection of a folder; none where the system gives none.
    pub(crate) fn open<R: Files + Net>(rt: &R, alloc: Global, folder: &str) -> Option<Control> {
        let path = path_in(alloc, folder, CONTROL).ok()?;
        let _ = fs::remove_file(rt, path.as_str());
        let listener = UnixListener::bind(rt, path.as_str()).ok()?;
        let own = Permissions::from_mode(0o600);
        fs::set_permissions(rt, path.as_str(), own).ok()?;
        Some(Control {
            alloc,
            listener,
            path,
        })
    }

    /// Waits until somebody says `STOP`, or the service ends. Who says nothing keeps nobody waiting.
    pub(crate) fn asked_by<R: Wait + Clock>(&self, rt: &R, end: &ServiceEnd) -> Option<UnixStream> {
        let mut silent = Lobby::new(self.alloc);
        for _ in rt.forever() {
            let_operator_in(rt, &self.listener, &mut silent);
            if end.is_asked(rt) {
                return None;
            }
            if let Some(operator) = silent.take_speaker(rt, Duration::from_millis(PATIENCE)) {
                return Some(operator.0);
            }
        }
        None
    }

    /// Wakes who waits, where the service ends by itself, and takes the socket away.
    pub(crate) fn close<R: Files + Net>(&self, rt: &R) {
        let _ = UnixStream::connect(rt, self.path.as_str());
        let _ = fs::remove_file(rt, self.path.as_str());
    }
}

/// Answers who said `STOP`, once the replies that were under way are out, or a moment is over. The connection
/// stays open until the service is over.
pub(crate) fn answer<R: Wait + Clock>(rt: &R, stream: UnixStream, end: &ServiceEnd) {
    finish(rt, end);
    let _ = stream.set_nonblocking(false);
    tell(&stream, b"OK\n");
    end.keep_open(rt, stream);
}

/// Ends the service of a folder, and waits until it is over: whether there was one that took it.
pub fn stop<R: Files + Net>(rt: &R, alloc: Global, folder: &str) -> bool {
    let Ok(path) = path_in(alloc, folder, CONTROL) else {
        return false;
    };
    let Ok(stream) = UnixStream::connect(rt, path.as_str()) else {
        return false;
    };
    tell(&stream, b"STOP\n");
    let (mut input, mut line) = (&stream, [0; 8]);
    let taken = match input.read(&mut line) {
        Ok(count) => line.get(..count) == Some(b"OK\n".as_slice()),
        Err(_) => false,
    };
    taken && input.read(&mut line).is_ok()
}

/// Waits until no connection is open, for a moment, and closes those that are.
fn finish<R: Wait + Clock>(rt: &R, end: &ServiceEnd) {
    for _ in 0..LOOKS {
        if end.is_over(rt) {
            return;
        }
        let _ = thread::sleep(rt, Duration::from_millis(PAUSE));
    }
    end.cut(rt);
}
