//! The folder of a service, and its journal: they are there, and no other service has them.

ghost use Rattle.std.specs.Prelude.{◌≡◌};
ghost use Rattle.desk_service.specs.Services.{taken_fault};

use crate::faults::ServeFault;
use crate::settings::{Journaling, Settings};
use deck_files::open_led_to;
use std::alloc::{AllocError, Global};
use std::fs;
use std::fs::{File, Metadata, OpenFile, OpenOptions, TryLockError};
use std::os::unix::fs::MetadataExt;
use std::rt::Files;

/// How many files the process has to be able to open for each connection that is served: two for the
/// connection, and one of the folder.
const FILES_EACH: usize = 3;

/// How many more it has to be able to open.
const FILES_MORE: usize = 16;

/// The path of a file of a folder; no text is the one that the process runs in.
pub(crate) fn path_in(alloc: Global, folder: &str, file: &str) -> Result<String, AllocError> {
    let folder = if folder.is_empty() { "." } else { folder };
    format!(in alloc; "{folder}/{file}")
}

/// Takes a folder for as long as the file that is given is there. `NoFolder` where it is none or can't be
/// written in, `FolderTaken` where another service has it, `NoLocks` where its file system has no locks.
pub(crate) fn take_folder<R: Files<File = File>>(
    rt: &R,
    alloc: Global,
    folder: &str,
) -> Result<File, ServeFault> {
    let path = path_in(alloc, folder, ".beskloun.lock")?;
    let mut how = OpenOptions::new();
    how.write(true).create(true);
    let Ok(file) = how.open(rt, path.as_str()) else {
        return Err(ServeFault::NoFolder);
    };
    match file.try_lock() {
        Ok(()) => Ok(file),
        Err(TryLockError::WouldBlock) => Err(ServeFault::FolderTaken),
        Err(TryLockError::Error(_)) => Err(ServeFault::NoLocks),
    }
}

/// Why a service does not start whose journal another one has.
fn taken_fault(journal: Journaling<'_>) -> ServeFault
    ensures { result ≡ taken_fault journal.entry }
{
    match journal {
        Journaling::Off | Journaling::InRoot => ServeFault::FolderTaken,
        Journaling::At(_) => ServeFault::JournalTaken,
    }
}

/// Whether two files are one.
fn is_same_file(one: &Metadata, other: &Metadata) -> bool {
    one.dev() == other.dev() && one.ino() == other.ino()
}

/// The journal of a service, which no other service has for as long as this is there: the file at its path,
/// and those that stood there before.
#[derive(Drop)]
pub(crate) struct JournalLock {
    /// Why a service does not start that finds the journal taken.
    taken: ServeFault,
    files: Vec<File>,
}

impl JournalLock {
    /// That of a journal of which nothing is taken yet.
    pub(crate) fn new(alloc: Global, journal: Journaling<'_>) -> JournalLock {
        JournalLock {
            taken: taken_fault(journal),
            files: Vec::new(alloc),
        }
    }

    /// Whether a file is taken already.
    fn has(&self, file: &Metadata) -> bool {
        self.files.iter().any(|taken| match taken.metadata() {
            Ok(taken) => is_same_file(&taken, file),
            Err(_) => false,
        })
    }

    /// Takes an open file, which stands at the path then.
    fn take_file<R: Files>(&mut self, rt: &R, path: &str, file: File) -> Result<(), ServeFault> {
        if let Err(TryLockError::WouldBlock) = file.try_lock() {
            return Err(self.taken);
        }
        match (file.metadata(), fs::metadata(rt, path)) {
            (Ok(open), Ok(standing)) if is_same_file(&open, &standing) => Ok(
                self.files.push(file)?,
            ),
            _ => Err(self.taken),
        }
    }

    /// Takes a file that stands nowhere yet, so that nobody else can have it.
    pub(crate) fn hold(&mut self, file: &File) -> Result<(), ServeFault> {
        let Ok(same) = file.try_clone() else {
            return Err(ServeFault::NoJournal);
        };
        let _ = same.try_lock();
        Ok(self.files.push(same)?)
    }

    /// Takes the file that stands at the path of the journal, where it is a plain file and not taken yet.
    /// `FolderTaken` or `JournalTaken` where another service has it, or puts another in its place, though the
    /// folder's lock is free. Where the file system has no locks, the folder's lock does.
    pub(crate) fn take<R: Files<File = File>>(
        &mut self,
        rt: &R,
        path: &str,
    ) -> Result<(), ServeFault> {
        match fs::metadata(rt, path) {
            Ok(about) if about.is_file() && !self.has(&about) => {}
            _ => return Ok(()),
        }
        match open_led_to(rt, path) {
            Ok(file) => self.take_file(rt, path, file),
            Err(_) => Ok(()),
        }
    }
}

/// The path of the journal of a service, if it has one.
pub(crate) fn journal_path(
    alloc: Global,
    settings: &Settings<'_>,
) -> Result<Option<String>, AllocError> {
    match settings.journal {
        Journaling::Off => Ok(None),
        Journaling::InRoot => Ok(Some(path_in(alloc, settings.root, settings.journal.name())?)),
        Journaling::At(path) => Ok(Some(format!(in alloc; "{path}")?)),
    }
}

/// Takes the journal of a service, if it has one, and it is there.
pub(crate) fn take_journal<R: Files<File = File>>(
    rt: &R,
    alloc: Global,
    settings: &Settings<'_>,
) -> Result<JournalLock, ServeFault> {
    let mut lock = JournalLock::new(alloc, settings.journal);
    if let Some(path) = journal_path(alloc, settings)? {
        lock.take(rt, path.as_str())?;
    }
    Ok(lock)
}

/// Whether the process can open as many files as it takes to serve so many connections at once: this one is
/// opened as often, and closed again. `FewFiles` where it can't.
pub(crate) fn try_files(alloc: Global, file: &File, connections: usize) -> Result<(), ServeFault> {
    let mut opened = Vec::new(alloc);
    let wanted = connections.saturating_mul(FILES_EACH);
    for _ in 0..wanted.saturating_add(FILES_MORE) {
        match file.try_clone() {
            Ok(same) => opened.push(same)?,
            Err(_) => return Err(ServeFault::FewFiles),
        }
    }
    Ok(())
}
