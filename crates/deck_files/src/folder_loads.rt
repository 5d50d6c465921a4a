//! Loads the file of a deck from a folder.
ghost use Rattle.std.specs.Prelude.{◌≡◌, ◌≢◌, ℕ, List, Option, string_bytes, IfOk, IfErr};
ghost use Rattle.deck_files.specs.Folders.{deck_path};
ghost use Rattle.deck_files.specs.FolderLoads.{DoesNotOpen, IsUnopened, LoadFails, LoadsFile, opened_steps};
ghost use Rattle.deck_files.specs.Loads.{LoadsFault, LoadsSummed};
ghost use Rattle.deck_files.specs.Steps.{Gave, Open, Refused, TakesStep, TakesSteps};

use crate::deck_places::DeckPlace;
use crate::deck_shelf::ShelfLoadFault;
use crate::folders::{Folder, Standing};
use crate::load_fault::LoadFault;
use crate::loading::{Loaded, load_summed};
use std::alloc::Global;
use std::io::{BufReader, ErrorKind, Read};
use text_ports::Counted;

/// The cards of an open file, and what it has.
fn read_cards<R: Read + Drop>(alloc: Global, file: R) -> Result<Loaded, LoadFault>
    ensures cards { IfOk result (λ loaded. (rest : Option (List ℕ)) × LoadsSummed (R.remaining file) rest loaded.cards.items loaded.sum) }
    ensures fault { IfErr result (λ fault. (rest : Option (List ℕ)) × LoadsFault fault (R.remaining file) rest) }
{
    match BufReader::new(alloc, file) {
        Ok(reader) => load_summed(alloc, &mut Counted::new(reader)),
        Err(_) => Err(LoadFault::OutOfMemory),
    }
}

/// Why the file of a deck did not open.
pub(crate) fn load_fault(kind: ErrorKind) -> ShelfLoadFault
    ensures memory { kind ≡ ErrorKind.OutOfMemory → result ≡ ShelfLoadFault.BadFile LoadFault.OutOfMemory }
    ensures other { kind ≢ ErrorKind.OutOfMemory → result ≡ ShelfLoadFault.CannotOpen }
    ensures one { IsUnopened result }
{
    if kind == ErrorKind::OutOfMemory {
        ShelfLoadFault::BadFile(LoadFault::OutOfMemory)
    } else {
        ShelfLoadFault::CannotOpen
    }
}

/// Opens the file at a path, which is a plain one.
fn open_file<F: Folder>(files: &mut F, path: &str) -> Result<F::File, ShelfLoadFault>
    ensures opened { IfOk result (λ file. TakesStep F.has_done files.old (Open path.now, Gave (F.File.remaining file)) files.new) }
    ensures fault { IfErr result (λ fault. IsUnopened fault × TakesStep F.has_done files.old (Open path.now, Refused) files.new) }
{
    match files.open(path) {
        Ok(file) => Ok(file),
        Err(error) => Err(load_fault(error.kind())),
    }
}

/// Opens a plain file. What is none is not opened: a link leads elsewhere, and a pipe would wait for a writer.
fn open_plain<F: Folder>(files: &mut F, path: &str) -> Result<F::File, ShelfLoadFault>
    ensures opened { IfOk result (λ file. TakesSteps F.has_done files.old (opened_steps path.now (F.File.remaining file)) files.new) }
    ensures fault { IfErr result (λ fault. IsUnopened fault × DoesNotOpen F.has_done path.now files.old files.new) }
{
    match files.look(path) {
        Ok(Standing::PlainFile) => open_file(files, path),
        Ok(Standing::Nothing) | Ok(Standing::Other) => Err(ShelfLoadFault::CannotOpen),
        Err(error) => Err(load_fault(error.kind())),
    }
}

/// Loads the cards of a deck's file, and returns what it has.
pub(crate) fn load_deck<F: Folder>(
    files: &mut F,
    place: &DeckPlace<'_>,
) -> Result<Loaded, ShelfLoadFault>
    ensures cards { IfOk result (λ loaded. LoadsFile F.has_done (deck_path place.now) loaded.cards.items loaded.sum files.old files.new) }
    ensures fault { IfErr result (λ fault. LoadFails F.has_done place.now fault files.old files.new) }
{
    let Ok(path) = place.deck_path() else {
        return Err(ShelfLoadFault::BadFile(LoadFault::OutOfMemory));
    };
    let file = match open_plain(files, path.as_str()) {
        Ok(file) => file,
        Err(fault) => return Err(fault),
    };
    match read_cards(place.alloc(), file) {
        Ok(loaded) => Ok(loaded),
        Err(fault) => Err(ShelfLoadFault::BadFile(fault)),
    }
}
