//! The numbers of the standard streams: no file that is opened later has one of them.
ghost use Rattle.std.specs.Prelude.{◌≡◌, ℕ, ◌≤◌, ◌<◌, pos, false, true};

use std::alloc::Global;
use std::os::fd::AsRawFd;
use std::rt::Files;
use std::{fs, io};

/// The greatest number of a standard stream: that of standard error.
const LAST_STREAM: i32 = 2;

/// How many standard streams there are.
const STREAMS: u8 = 3;

/// Whether a number is a standard stream's.
fn is_stream(number: i32) -> bool
    ensures stream { (k : ℕ) → number ≡ pos k → k ≤ 2 → result ≡ true }
    ensures other { (k : ℕ) → number ≡ pos k → 2 < k → result ≡ false }
{
    number <= LAST_STREAM
}

/// Folders that have the numbers of standard streams which were closed: none of them can be read or written
/// as a stream, so a run finds the stream closed as it was, and never a file of its own there.
#[derive(Drop)]
pub(crate) struct HeldStreams<F> {
    folders: Vec<F>,
}

/// Takes each number of a standard stream that is free. The system gives the lowest number that is free
/// first, so none is left once a file gets a greater one.
pub(crate) fn hold_streams<R: Files>(rt: &R, alloc: Global) -> io::Result<HeldStreams<R::File>>
where
    R::File: AsRawFd,
{
    let mut folders = Vec::new(alloc);
    for _ in 0..STREAMS {
        let folder = fs::open(rt, "/")?;
        if !is_stream(folder.as_raw_fd()) {
            break;
        }
        folders.push(folder)?;
    }
    Ok(HeldStreams { folders })
}
