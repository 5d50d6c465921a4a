//! Standard output under the limit on the size of files: where it is a file, no more is written to it than that
//! file may have, since a write past it would end the process by a signal.
ghost use Rattle.std.specs.Prelude.{◌≡◌, ◌-◌, if◌then◌else◌};

use deck_files::{Limited, NO_LIMIT, size_limit};
use std::alloc::{AllocGlobal, Global};
use std::fs;
use std::io::{self, Printer};
use std::rt::Files;

/// The open file of standard output, as the system shows it.
const OUTPUT: &str = "/proc/self/fd/1";

/// What the system reports of it: where the next write goes, and how it was opened.
const ABOUT: &str = "/proc/self/fdinfo/1";

/// The flag of a file that is written at its end alone.
const APPENDS: u64 = 0o2000;

/// How standard output stands.
#[derive(Clone, Copy)]
struct Standing {
    /// How many bytes the file has.
    length: u64,
    /// At which byte the next write goes, where it does not go to the end.
    place: u64,
    /// It goes to the end.
    appends: bool,
}

/// How many bytes more a file gets that may have so many.
fn room_of(most: u64, standing: Standing) -> u64
    ensures { result ≡ (if standing.appends then most - standing.length else most - standing.place) }
{
    let at = if standing.appends {
        standing.length
    } else {
        standing.place
    };
    most.saturating_sub(at)
}

/// What a line shows that begins with this name.
fn told<'a>(text: &'a str, name: &str) -> Option<&'a str> {
    for line in text.lines() {
        if let Some(value) = line.strip_prefix(name) {
            return Some(value.trim());
        }
    }
    None
}

/// Where the next write goes, and whether it goes to the end, by what the system reports of an open file.
fn place_in(text: &str) -> Option<(u64, bool)> {
    let place = told(text, "pos:")?.parse::<u64>().ok()?;
    let flags = u64::from_str_radix(told(text, "flags:")?, 8).ok()?;
    Some((place, flags & APPENDS != 0))
}

/// How standard output stands; none where it is no plain file, or the system doesn't report.
fn output_standing<R: Files>(rt: &R, alloc: Global) -> Option<Standing> {
    let about = fs::metadata(rt, OUTPUT).ok()?;
    if !about.is_file() {
        return None;
    }
    let text = io::read_to_string(alloc, fs::open(rt, ABOUT).ok()?).ok()?;
    let (place, appends) = place_in(text.as_str())?;
    Some(Standing {
        length: about.len(),
        place,
        appends,
    })
}

/// Standard output, to which no more is written than its file may have: a byte more is refused as by a full
/// disk.
pub(crate) fn standard_output<R: AllocGlobal + Print + Files>(rt: &R) -> Limited<Printer<'_, R>> {
    let most = size_limit(rt);
    let left = if most == NO_LIMIT {
        NO_LIMIT
    } else {
        match output_standing(rt, rt.alloc()) {
            Some(standing) => room_of(most, standing),
            None => NO_LIMIT,
        }
    };
    Limited::new(io::writer(rt), left)
}
