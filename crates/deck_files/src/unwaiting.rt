//! Plain files that are opened without waiting. An open for reading alone waits, at a pipe, until somebody opens
//! its other end, and a pipe may come between the look at a name and its open.

use std::fs::{Metadata, OpenFile, OpenOptions};
use std::io::ErrorKind;
use std::os::unix::fs::MetadataExt;
use std::rt::Files;
use std::{fs, io};

/// What the system reports of the plain file at a path, if anything stands there; a link is none.
pub(crate) fn plain_at<R: Files>(rt: &R, path: &str) -> io::Result<Option<Metadata>> {
    match fs::symlink_metadata(rt, path) {
        Ok(about) if about.is_file() => Ok(Some(about)),
        Ok(_) => Err(io::Error::from(ErrorKind::Unsupported)),
        Err(error) if error.kind() == ErrorKind::NotFound => Ok(None),
        Err(error) => Err(error),
    }
}

/// Refused where an open file is another than the one that was seen.
fn check_same(open: &Metadata, seen: &Metadata) -> io::Result<()> {
    if open.dev() == seen.dev() && open.ino() == seen.ino() {
        Ok(())
    } else {
        Err(io::Error::from(ErrorKind::StaleNetworkFileHandle))
    }
}

/// Refused where another file than the open one stands at a path; a link is another.
pub(crate) fn check_stands<R: Files>(rt: &R, file: &R::File, path: &str) -> io::Result<()> {
    check_same(&file.metadata()?, &fs::symlink_metadata(rt, path)?)
}

/// Opens what a path leads to for reading and writing: no pipe makes that wait. Nothing is made.
fn open_both<R: Files>(rt: &R, path: &str) -> io::Result<R::File> {
    let mut how = OpenOptions::new();
    how.read(true).write(true);
    how.open(rt, path)
}

/// Opens what a path leads to, to be read: for reading and writing, though nothing is written, and for reading
/// alone where that is refused. A pipe that may be read and not written is opened so, and waits.
fn open_unwaiting<R: Files>(rt: &R, path: &str) -> io::Result<R::File> {
    match open_both(rt, path) {
        Err(error) if error.kind() != ErrorKind::NotFound => fs::open(rt, path),
        opened => opened,
    }
}

/// Opens the plain file at a path, to be read. Refused where another has come to stand there, or a link.
pub(crate) fn open_plain<R: Files>(rt: &R, path: &str) -> io::Result<R::File> {
    let Some(seen) = plain_at(rt, path)? else {
        return Err(io::Error::from(ErrorKind::NotFound));
    };
    let file = open_unwaiting(rt, path)?;
    check_same(&file.metadata()?, &seen)?;
    Ok(file)
}

/// An open file, where it is a plain one.
fn only_plain<F: OpenFile + Drop>(file: F) -> io::Result<F> {
    if file.metadata()?.is_file() {
        Ok(file)
    } else {
        Err(io::Error::from(ErrorKind::Unsupported))
    }
}

/// Opens the plain file at a path, to be written where it stands. Refused where another has come to stand there,
/// or a link, which leads elsewhere.
pub fn open_standing<R: Files>(rt: &R, path: &str) -> io::Result<R::File> {
    let file = open_both(rt, path)?;
    check_stands(rt, &file, path)?;
    only_plain(file)
}

/// Opens the plain file that a path leads to, to be read. Refused where that is none.
pub fn open_led_to<R: Files>(rt: &R, path: &str) -> io::Result<R::File> {
    only_plain(open_unwaiting(rt, path)?)
}
