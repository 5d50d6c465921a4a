//! How a session is shown why the desk or the shelf refuses.
ghost use Rattle.std.specs.Prelude.{◌≡◌};
ghost use Rattle.session_line.specs.Reasons.{cut_reason, desk_reason, file_reason, load_reason, save_reason};

use deck_cuts::CutFault;
use deck_files::{LoadFault, ShelfLoadFault, ShelfSaveFault};
use session_commands::Refusal;

/// Why the desk refuses.
pub(crate) fn desk_reason(refusal: desk_core::Refusal) -> Refusal
    ensures { result ≡ desk_reason refusal }
{
    match refusal {
        desk_core::Refusal::OutOfMemory => Refusal::OutOfMemory,
        desk_core::Refusal::NoSuchCard => Refusal::NoSuchCard,
        desk_core::Refusal::DeckFull => Refusal::DeckFull,
        desk_core::Refusal::NameTaken => Refusal::NameTaken,
        desk_core::Refusal::NoDeck => Refusal::NoDeck,
        desk_core::Refusal::OldVersion(current) => Refusal::OldVersion { current },
        desk_core::Refusal::TooManyDecks => Refusal::TooManyDecks,
        desk_core::Refusal::UnknownJob => Refusal::UnknownJob,
        desk_core::Refusal::Stale(current) => Refusal::Stale { current },
        desk_core::Refusal::Foreign => Refusal::Foreign,
        desk_core::Refusal::NoPublication => Refusal::NoPublication,
        desk_core::Refusal::VersionsSpent => Refusal::VersionsSpent,
        desk_core::Refusal::BadEdit(number, fault) => Refusal::BadEdit {
            number: number as u64,
            fault,
        },
        desk_core::Refusal::BatchSize => Refusal::BatchSize,
        desk_core::Refusal::NotKept => Refusal::NotKept,
        desk_core::Refusal::Forgotten(oldest) => Refusal::Forgotten { oldest },
        desk_core::Refusal::TouchedCard(card, version) => Refusal::Touched { card, version },
        desk_core::Refusal::NoChange => Refusal::NoChange,
    }
}

/// Why a file is no deck.
fn file_reason(fault: LoadFault) -> Refusal
    ensures { result ≡ file_reason fault }
{
    match fault {
        LoadFault::ReadFault => Refusal::ReadFault,
        LoadFault::BadLine { line, fault } => Refusal::BadLine { line, fault },
        LoadFault::LastLineCut => Refusal::LastLineCut,
        LoadFault::DeckFull => Refusal::DeckFull,
        LoadFault::OutOfMemory => Refusal::OutOfMemory,
    }
}

/// Why cards are no decks.
pub(crate) fn cut_reason(fault: CutFault) -> Refusal
    ensures { result ≡ cut_reason fault }
{
    match fault {
        CutFault::OutOfMemory => Refusal::OutOfMemory,
        CutFault::DeckFull => Refusal::DeckFull,
        CutFault::NameTaken => Refusal::NameTaken,
        CutFault::TooManyDecks => Refusal::TooManyDecks,
        CutFault::BadName { .. } => Refusal::BadName,
    }
}

/// Why the shelf loads nothing.
pub(crate) fn load_reason(fault: ShelfLoadFault) -> Refusal
    ensures { result ≡ load_reason fault }
{
    match fault {
        ShelfLoadFault::CannotOpen => Refusal::CannotOpen,
        ShelfLoadFault::BadFile(fault) => file_reason(fault),
    }
}

/// Why the shelf saves nothing.
pub(crate) fn save_reason(fault: ShelfSaveFault) -> Refusal
    ensures { result ≡ save_reason fault }
{
    match fault {
        ShelfSaveFault::CannotOpen => Refusal::CannotOpen,
        ShelfSaveFault::FileExists => Refusal::FileExists,
        ShelfSaveFault::WriteFault { sent } => Refusal::WriteFault { sent },
        ShelfSaveFault::OutOfMemory => Refusal::OutOfMemory,
    }
}
