//! Why a service ends.

use std::alloc::{AllocError, AllocFailed};
use std::fmt;
use thiserror::Error;

/// Why a service does not start. The text is the name.
#[derive(Clone, Copy, Debug, Error)]
pub enum ServeFault {
    /// The port can't be listened on.
    SocketFault,
    /// The port of the page can't be listened on.
    PageFault,
    /// The system gives no random numbers, by which names are spread in tables.
    ReadFault,
    /// No memory was left, for a thread among others.
    OutOfMemory,
    /// The folder is not there, or can't be written in.
    NoFolder,
    /// Another service has the folder, or the journal in it.
    FolderTaken,
    /// The file system of the folder has no locks, by which a service has its folder.
    NoLocks,
    /// The path of the folder is too long for the socket by which a service is stopped.
    LongRoot,
    /// The process may open fewer files than it takes to serve.
    FewFiles,
    /// Another service has the journal, which is not in the folder.
    JournalTaken,
    /// The journal can't be read or written.
    NoJournal,
    /// This record of the journal, counted from 1, is none, and not the last; or it shows a change that the
    /// desk does not make again. It begins at this byte.
    BadJournal { number: u64, begin: u64 },
    /// What the folder shows of its versions is no line of a number and a journal, or can't be read.
    BadVersions,
}

impl fmt::Display for ServeFault {
    ghost use Rattle.std.specs.Prelude.{Some};
    ghost use Rattle.desk_service.specs.FaultTexts.{serve_fault_text};

    ghost output = { λ fault. Some (serve_fault_text fault) };

    fn fmt<W: fmt::Write>(&self, f: &mut fmt::Formatter<W>) -> fmt::Result {
        match self {
            ServeFault::SocketFault => write!(f, "SocketFault"),
            ServeFault::PageFault => write!(f, "PageFault"),
            ServeFault::ReadFault => write!(f, "ReadFault"),
            ServeFault::OutOfMemory => write!(f, "OutOfMemory"),
            ServeFault::NoFolder => write!(f, "NoFolder"),
            ServeFault::FolderTaken => write!(f, "FolderTaken"),
            ServeFault::NoLocks => write!(f, "NoLocks"),
            ServeFault::LongRoot => write!(f, "LongRoot"),
            ServeFault::FewFiles => write!(f, "FewFiles"),
            ServeFault::JournalTaken => write!(f, "JournalTaken"),
            ServeFault::NoJournal => write!(f, "NoJournal"),
            ServeFault::BadJournal { .. } => write!(f, "BadJournal"),
            ServeFault::BadVersions => write!(f, "BadVersions"),
        }
    }
}

impl From<AllocError> for ServeFault {
    ghost use Rattle.std.specs.Prelude.{◌≡◌};
    ghost use Rattle.desk_service.specs.declared.faults.ServeFault.TheVariants.{OutOfMemory};

    ghost from_gives = { λ _ fault. fault ≡ OutOfMemory };

    fn from(_: AllocError) -> ServeFault {
        ServeFault::OutOfMemory
    }
}

impl<T: Drop> From<AllocFailed<T>> for ServeFault {
    ghost use Rattle.std.specs.Prelude.{◌≡◌};
    ghost use Rattle.desk_service.specs.declared.faults.ServeFault.TheVariants.{OutOfMemory};

    ghost from_gives = { λ _ fault. fault ≡ OutOfMemory };

    fn from(_: AllocFailed<T>) -> ServeFault {
        ServeFault::OutOfMemory
    }
}
