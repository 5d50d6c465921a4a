//! Why a file was not loaded.

use cards::CardFault;
use std::alloc::{AllocError, AllocFailed};
use std::fmt;
use thiserror::Error;

/// Why the cards of a file were not loaded. Lines count from 1.
///
/// The text is the name, then the line and the fault of its card, each after one blank.
#[derive(Clone, Copy, Debug, Error)]
pub enum LoadFault {
    /// The reader failed.
    ReadFault,
    /// The line is no card.
    BadLine { line: usize, fault: CardFault },
    /// No line feed ends the last line, so it may be cut.
    LastLineCut,
    /// The file has more than 20,000 cards.
    DeckFull,
    /// No memory was left.
    OutOfMemory,
}

impl fmt::Display for LoadFault {
    ghost use Rattle.std.specs.Prelude.{Some};
    ghost use Rattle.deck_files.specs.FaultTexts.{load_fault_text};

    ghost output = { λ fault. Some (load_fault_text fault) };

    fn fmt<W: fmt::Write>(&self, f: &mut fmt::Formatter<W>) -> fmt::Result {
        match self {
            LoadFault::ReadFault => write!(f, "ReadFault"),
            LoadFault::BadLine { line, fault } => write!(f, "BadLine {line} {fault}"),
            LoadFault::LastLineCut => write!(f, "LastLineCut"),
            LoadFault::DeckFull => write!(f, "DeckFull"),
            LoadFault::OutOfMemory => write!(f, "OutOfMemory"),
        }
    }
}

impl From<AllocError> for LoadFault {
    ghost use Rattle.std.specs.Prelude.{◌≡◌};
    ghost use Rattle.deck_files.specs.declared.load_fault.LoadFault.TheVariants.{OutOfMemory};

    ghost from_gives = { λ _ fault. fault ≡ OutOfMemory };

    fn from(_: AllocError) -> LoadFault {
        LoadFault::OutOfMemory
    }
}

impl<T: Drop> From<AllocFailed<T>> for LoadFault {
    ghost use Rattle.std.specs.Prelude.{◌≡◌};
    ghost use Rattle.deck_files.specs.declared.load_fault.LoadFault.TheVariants.{OutOfMemory};

    ghost from_gives = { λ _ fault. fault ≡ OutOfMemory };

    fn from(_: AllocFailed<T>) -> LoadFault {
        LoadFault::OutOfMemory
    }
}
