//! The faults of a run, and their texts.

use cards::CardFault;
use deck_cuts::CutFault;
use std::alloc::{AllocError, AllocFailed};
use std::fmt;
use thiserror::Error;

/// Why a run wrote no whole output. Lines and columns count from 1.
///
/// The text is the name, then the numbers in decimal, each after one blank.
#[derive(Clone, Copy, Debug, Error)]
pub enum AsmFault {
    /// No memory was left.
    OutOfMemory,
    /// A deck has more than 20,000 cards.
    DeckFull,
    /// A deck has the name of an earlier one.
    NameTaken,
    /// There are more decks than one run takes.
    TooManyDecks,
    /// The reader failed.
    ReadFault,
    /// The line is no card.
    BadLine { line: u64, fault: CardFault },
    /// No line feed ends the last line, so it may be cut.
    LastLineCut,
    /// The writer failed when it had taken `sent` bytes.
    WriteFault { sent: usize },
    /// The first card is no IDENT card, or the name of a deck is not 1 to 7 letters and digits.
    BadName { line: u64 },
}

impl fmt::Display for AsmFault {
    ghost use Rattle.std.specs.Prelude.{Some};
    ghost use Rattle.asm_main.specs.Faults.{fault_text};

    ghost output = { λ fault. Some (fault_text fault) };

    fn fmt<W: fmt::Write>(&self, f: &mut fmt::Formatter<W>) -> fmt::Result {
        match self {
            AsmFault::OutOfMemory => write!(f, "OutOfMemory"),
            AsmFault::DeckFull => write!(f, "DeckFull"),
            AsmFault::NameTaken => write!(f, "NameTaken"),
            AsmFault::TooManyDecks => write!(f, "TooManyDecks"),
            AsmFault::ReadFault => write!(f, "ReadFault"),
            AsmFault::BadLine { line, fault } => write!(f, "BadLine {line} {fault}"),
            AsmFault::LastLineCut => write!(f, "LastLineCut"),
            AsmFault::WriteFault { sent } => write!(f, "WriteFault {sent}"),
            AsmFault::BadName { line } => write!(f, "BadName {line}"),
        }
    }
}

impl From<CutFault> for AsmFault {
    ghost use Rattle.std.specs.Prelude.{◌≡◌};
    ghost use Rattle.asm_main.specs.Inputs.{cut_fault};

    ghost from_gives = { λ fault told. told ≡ cut_fault fault };

    fn from(fault: CutFault) -> AsmFault {
        match fault {
            CutFault::OutOfMemory => AsmFault::OutOfMemory,
            CutFault::DeckFull => AsmFault::DeckFull,
            CutFault::NameTaken => AsmFault::NameTaken,
            CutFault::TooManyDecks => AsmFault::TooManyDecks,
            CutFault::BadName { number } => AsmFault::BadName { line: number },
        }
    }
}

impl From<AllocError> for AsmFault {
    ghost use Rattle.std.specs.Prelude.{◌≡◌};
    ghost use Rattle.asm_main.specs.declared.asm_fault.AsmFault.TheVariants.{OutOfMemory};

    ghost from_gives = { λ _ fault. fault ≡ OutOfMemory };

    fn from(_: AllocError) -> AsmFault {
        AsmFault::OutOfMemory
    }
}

impl<T: Drop> From<AllocFailed<T>> for AsmFault {
    ghost use Rattle.std.specs.Prelude.{◌≡◌};
    ghost use Rattle.asm_main.specs.declared.asm_fault.AsmFault.TheVariants.{OutOfMemory};

    ghost from_gives = { λ _ fault. fault ≡ OutOfMemory };

    fn from(_: AllocFailed<T>) -> AsmFault {
        AsmFault::OutOfMemory
    }
}
