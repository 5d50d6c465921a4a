//! Where paths lead: the links of the system followed.

use crate::whole_files::folder_of;
use std::alloc::{AllocError, Global};
use std::fs;
use std::io::{self, ErrorKind};
use std::rt::Files;

/// How many links in a row are followed, as by the system.
const MOST_LINKS: u8 = 40;

/// The path of what a link at a path names.
fn behind_link(alloc: Global, path: &str, link: &str) -> Result<String, AllocError> {
    if link.starts_with("/") {
        format!(in alloc; "{link}")
    } else {
        let folder = folder_of(path);
        format!(in alloc; "{folder}/{link}")
    }
}

/// The name behind the folder of a path.
fn name_of(path: &str) -> &str {
    match path.rsplit_once("/") {
        Some((_, name)) => name,
        None => path,
    }
}

/// The path of a name in its folder, which has no link in it.
fn in_its_folder<R: Files>(rt: &R, alloc: Global, path: &str) -> io::Result<String> {
    let found = rt.canonicalize(alloc, folder_of(path))?;
    let (folder, name) = (found.as_str(), name_of(path));
    Ok(format!(in alloc; "{folder}/{name}")?)
}

/// The path to which a path leads, without a link in it; nothing has to stand there, but its folder has to.
pub fn target_of<R: Files>(rt: &R, alloc: Global, path: &str) -> io::Result<String> {
    let mut target = format!(in alloc; "{path}")?;
    for _ in 0..MOST_LINKS {
        match rt.read_link(alloc, target.as_str()) {
            Ok(link) => target = behind_link(alloc, target.as_str(), link.as_str())?,
            Err(_) => return in_its_folder(rt, alloc, target.as_str()),
        }
    }
    Err(io::Error::from(ErrorKind::FilesystemLoop))
}
