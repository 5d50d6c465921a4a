//! What a save asks of the file that stands there: nobody's file is written over unasked.
ghost use Rattle.std.specs.Prelude.{◌≡◌, ◌≢◌, ◌⊎◌, ℕ, List, IsTrue, IfErr, IfOk, OnOk};
ghost use Rattle.deck_files.specs.declared.deck_shelf.SaveOver.TheVariants.{Any, Known};
ghost use Rattle.deck_files.specs.declared.folders.Standing.{Standing};
ghost use Rattle.deck_files.specs.Folders.{deck_path, old_path};
ghost use Rattle.deck_files.specs.FolderSaves.{BarsWay, Compares, GivesWay, IsFaultOfFolder, LeavesInPlace, MakesWay, may_be_old};
ghost use Rattle.deck_files.specs.Steps.{ChangesOnly, Found, Look, TakesStep};

use crate::deck_places::DeckPlace;
use crate::deck_shelf::{SaveOver, ShelfSaveFault};
use crate::file_sums::FileSum;
use crate::folders::{Folder, Standing};
use std::io::ErrorKind;

/// Why a file was not made.
pub(crate) fn save_fault(kind: ErrorKind) -> ShelfSaveFault
    ensures memory { kind ≡ ErrorKind.OutOfMemory → result ≡ ShelfSaveFault.OutOfMemory }
    ensures other { kind ≢ ErrorKind.OutOfMemory → result ≡ ShelfSaveFault.CannotOpen }
    ensures one { IsFaultOfFolder result }
{
    if kind == ErrorKind::OutOfMemory {
        ShelfSaveFault::OutOfMemory
    } else {
        ShelfSaveFault::CannotOpen
    }
}

/// Looks whether another file may have the name `NAME.OLD`. What is no plain file keeps it.
fn look_at_old<F: Folder>(files: &mut F, place: &DeckPlace<'_>) -> Result<(), ShelfSaveFault>
    ensures free { OnOk result ((old : Standing) × IsTrue (may_be_old old) × TakesStep F.has_done files.old (Look (old_path place.now), Found old) files.new) }
    ensures fault { IfErr result (λ fault. IsFaultOfFolder fault × ChangesOnly F.has_done (λ path. ⊥) files.old files.new) }
{
    let Ok(old) = place.old_path() else {
        return Err(ShelfSaveFault::OutOfMemory);
    };
    match files.look(old.as_str()) {
        Ok(Standing::Nothing) | Ok(Standing::PlainFile) => Ok(()),
        Ok(Standing::Other) => Err(ShelfSaveFault::CannotOpen),
        Err(error) => Err(save_fault(error.kind())),
    }
}

/// Reads the file in a deck's place, and returns whether it has just this sum.
fn compare<F: Folder>(
    files: &mut F,
    place: &DeckPlace<'_>,
    deck: &str,
    sum: &FileSum,
) -> Result<bool, ShelfSaveFault>
    requires { deck.now ≡ deck_path place.now }
    ensures told { IfOk result (λ just. Compares F.has_done place.now sum.now just files.old files.new) }
    ensures fault { IfErr result (λ fault. IsFaultOfFolder fault × ChangesOnly F.has_done (λ path. ⊥) files.old files.new) }
{
    let file = match files.open(deck) {
        Ok(file) => file,
        Err(error) => return Err(save_fault(error.kind())),
    };
    match sum.is_of(place.alloc(), file) {
        Ok(just) => Ok(just),
        Err(error) => Err(save_fault(error.kind())),
    }
}

/// Asks whether the plain file in a deck's place is the one that is known: it is, where it has just that.
fn write_known<F: Folder>(
    files: &mut F,
    place: &DeckPlace<'_>,
    deck: &str,
    known: Option<FileSum>,
) -> Result<bool, ShelfSaveFault>
    requires { deck.now ≡ deck_path place.now }
    ensures way { IfOk result (λ keeps. GivesWay F.has_done place.now Known known keeps files.old files.new) }
    ensures fault { IfErr result (λ fault. BarsWay F.has_done place.now Known known fault files.old files.new
        ⊎ (IsFaultOfFolder fault × ChangesOnly F.has_done (λ path. ⊥) files.old files.new)) }
{
    let Some(sum) = known else {
        return Err(ShelfSaveFault::FileExists);
    };
    match compare(files, place, deck, &sum) {
        Ok(true) => Ok(false),
        Ok(false) => Err(ShelfSaveFault::FileExists),
        Err(fault) => Err(fault),
    }
}

/// Asks whether any file may be written over there, which is to keep a name then.
fn write_any<F: Folder>(
    files: &mut F,
    place: &DeckPlace<'_>,
    known: Option<FileSum>,
) -> Result<bool, ShelfSaveFault>
    ensures way { IfOk result (λ keeps. GivesWay F.has_done place.now Any known keeps files.old files.new) }
    ensures fault { IfErr result (λ fault. BarsWay F.has_done place.now Any known fault files.old files.new
        ⊎ (IsFaultOfFolder fault × ChangesOnly F.has_done (λ path. ⊥) files.old files.new)) }
{
    match look_at_old(files, place) {
        Ok(()) => Ok(true),
        Err(fault) => Err(fault),
    }
}

/// Asks whether the plain file in a deck's place may be written over, and whether it is to keep a name then.
fn write_over<F: Folder>(
    files: &mut F,
    place: &DeckPlace<'_>,
    deck: &str,
    over: SaveOver,
    known: Option<FileSum>,
) -> Result<bool, ShelfSaveFault>
    requires { deck.now ≡ deck_path place.now }
    ensures way { IfOk result (λ keeps. GivesWay F.has_done place.now over known keeps files.old files.new) }
    ensures fault { IfErr result (λ fault. BarsWay F.has_done place.now over known fault files.old files.new
        ⊎ (IsFaultOfFolder fault × ChangesOnly F.has_done (λ path. ⊥) files.old files.new)) }
{
    match over {
        SaveOver::Known => write_known(files, place, deck, known),
        SaveOver::Any => write_any(files, place, known),
    }
}

/// Sees to it that the deck's path may be given to a new file, and returns whether what stands there is to keep
/// a name. What is no plain file is not written over, so a link stays one; a known file is read, and written
/// over where it still has just what is known.
pub(crate) fn make_way<F: Folder>(
    files: &mut F,
    place: &DeckPlace<'_>,
    deck: &str,
    over: SaveOver,
    known: Option<FileSum>,
) -> Result<bool, ShelfSaveFault>
    requires { deck.now ≡ deck_path place.now }
    ensures way { IfOk result (λ keeps. MakesWay F.has_done place.now over known keeps files.old files.new) }
    ensures fault { IfErr result (λ fault. (text : List ℕ) → LeavesInPlace F.has_done place.now over known text fault files.old files.new) }
{
    match files.look(deck) {
        Ok(Standing::Nothing) => Ok(false),
        Ok(Standing::PlainFile) => match write_over(files, place, deck, over, known) {
            Ok(keeps) => Ok(keeps),
            Err(fault) => Err(fault),
        },
        Ok(Standing::Other) => Err(ShelfSaveFault::CannotOpen),
        Err(error) => Err(save_fault(error.kind())),
    }
}
