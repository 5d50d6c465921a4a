//! Files of a folder made anew: whoever reads one finds the file that was there, or the new one whole,
//! also after the machine failed.
ghost use Rattle.std.specs.Prelude.{◌≡◌, ℕ, List, Option, Some, ◌∷◌, ◌++◌, is_some, string_bytes, IfErr, IfOk, OnOk};
ghost use Rattle.std.specs.Io.KnownBytes.{Appends};
ghost use Rattle.deck_files.specs.Folders.{deck_path, folder_path, new_path};
ghost use Rattle.deck_files.specs.FolderSaves.{IsAside, IsAsideIf, IsFaultOfFolder, IsFaultOfNew, IsNew, MakesAnew, filled, put_in_place, refused_tries, second_of};
ghost use Rattle.deck_files.specs.Steps.{ChangesOnly, Done, Gave, KeepFolder, Make, Refused, TakesStep, TakesSteps};

use crate::deck_places::DeckPlace;
use crate::deck_shelf::ShelfSaveFault;
use crate::folder_saves::save_fault;
use crate::folders::Folder;
use crate::second_names::{Aside, set_aside};
use std::io::{ErrorKind, Write};
use text_ports::{Counted, put_all};

/// How many names are tried before no file is made. A name is taken where another service writes in the
/// folder, or one was killed while it wrote.
pub(crate) const MOST_TRIES: u64 = 1_000;

/// A file that stood nowhere before, its path, and at which try it was made.
#[derive(Drop)]
struct Unused<N> {
    path: String,
    file: N,
    tries: u64,
}

/// Makes a file that stood nowhere before.
fn make_unused<F: Folder>(
    files: &mut F,
    place: &DeckPlace<'_>,
) -> Result<Unused<F::NewFile>, ShelfSaveFault>
    ensures path { IfOk result (λ unused. string_bytes unused.path ≡ new_path place.now unused.tries) }
    ensures made { IfOk result (λ unused. TakesSteps F.has_done files.old ((Make (new_path place.now unused.tries), Gave (F.NewFile.contents unused.file)) ∷ refused_tries place.now unused.tries) files.new) }
    ensures fault { IfErr result (λ fault. IsFaultOfFolder fault × ChangesOnly F.has_done (IsNew place.now) files.old files.new) }
{
    for tries in 0..MOST_TRIES {
        let Ok(path) = place.new_path(tries) else {
            return Err(ShelfSaveFault::OutOfMemory);
        };
        match files.make(path.as_str()) {
            Ok(file) => return Ok(Unused { path, file, tries }),
            Err(error) if error.kind() == ErrorKind::AlreadyExists => {}
            Err(error) => return Err(save_fault(error.kind())),
        }
    }
    Err(ShelfSaveFault::CannotOpen)
}

/// Writes these bytes into a new file.
pub(crate) fn write<W: Write + Drop>(file: W, bytes: &[u8]) -> Result<W, ShelfSaveFault>
    ensures whole { IfOk result (λ full. Appends (W.contents file) (W.contents full) bytes.now) }
    ensures fault { IfErr result (λ fault. IsFaultOfNew bytes.now fault) }
{
    let mut output = Counted::new(file);
    match put_all(&mut output, bytes) {
        Ok(()) => Ok(output.into_inner()),
        Err(broken) => Err(ShelfSaveFault::WriteFault { sent: broken.sent }),
    }
}

/// Gives a new file owner and mode of the one that stands at a deck's path, if one does, writes these bytes
/// into it, and waits until the folder has kept them.
fn fill<F: Folder>(
    files: &mut F,
    file: F::NewFile,
    deck: &str,
    bytes: &[u8],
) -> Result<F::NewFile, ShelfSaveFault>
    ensures kept { IfOk result (λ full. Appends (F.NewFile.contents file) (F.NewFile.contents full) bytes.now
        × TakesSteps F.has_done files.old (filled (F.NewFile.contents file) (F.NewFile.contents full) deck.now) files.new) }
    ensures fault { IfErr result (λ fault. IsFaultOfNew bytes.now fault × ChangesOnly F.has_done (λ path. ⊥) files.old files.new) }
{
    match files.take_after(&file, deck) {
        Ok(()) => {}
        Err(error) => return Err(save_fault(error.kind())),
    }
    let full = match write(file, bytes) {
        Ok(full) => full,
        Err(fault) => return Err(fault),
    };
    match files.keep(&full) {
        Ok(()) => Ok(full),
        Err(error) => Err(save_fault(error.kind())),
    }
}

/// Gives a new file the path of the deck's, when what stands there has a second name.
fn put_beside<F: Folder>(
    files: &mut F,
    place: &DeckPlace<'_>,
    file: F::NewFile,
    new: &str,
    deck: &str,
) -> Result<Aside, ShelfSaveFault>
    ensures aside { IfOk result (λ aside. IsAside place.now aside) }
    ensures placed { IfOk result (λ aside. TakesSteps F.has_done files.old (put_in_place place.now new.now (F.NewFile.contents file) deck.now (Some aside.tries)) files.new) }
    ensures fault { IfErr result (λ fault. IsFaultOfFolder fault × ChangesOnly F.has_done (IsNew place.now) files.old files.new) }
{
    let aside = match set_aside(files, place, deck) {
        Ok(aside) => aside,
        Err(fault) => return Err(fault),
    };
    match files.put(file, new, deck) {
        Ok(()) => Ok(aside),
        Err(error) => {
            let _ = files.remove(aside.path.as_str());
            Err(save_fault(error.kind()))
        }
    }
}

/// Gives a new file the path of the deck's; what stands there has a second name before, where it keeps one.
fn put_new<F: Folder>(
    files: &mut F,
    place: &DeckPlace<'_>,
    file: F::NewFile,
    new: &str,
    deck: &str,
    keeps: bool,
) -> Result<Option<Aside>, ShelfSaveFault>
    ensures aside { IfOk result (λ aside. IsAsideIf place.now aside) }
    ensures same { IfOk result (λ aside. is_some (second_of aside) ≡ keeps) }
    ensures placed { IfOk result (λ aside. TakesSteps F.has_done files.old (put_in_place place.now new.now (F.NewFile.contents file) deck.now (second_of aside)) files.new) }
    ensures fault { IfErr result (λ fault. IsFaultOfFolder fault × ChangesOnly F.has_done (IsNew place.now) files.old files.new) }
{
    if keeps {
        return match put_beside(files, place, file, new, deck) {
            Ok(aside) => Ok(Some(aside)),
            Err(fault) => Err(fault),
        };
    }
    match files.put(file, new, deck) {
        Ok(()) => Ok(None),
        Err(error) => Err(save_fault(error.kind())),
    }
}

/// Fills a new file and gives it the path of the deck's; what stands there has a second name before, where it
/// keeps one.
fn finish<F: Folder>(
    files: &mut F,
    place: &DeckPlace<'_>,
    new: &str,
    file: F::NewFile,
    deck: &str,
    bytes: &[u8],
    keeps: bool,
) -> Result<Option<Aside>, ShelfSaveFault>
    ensures aside { IfOk result (λ aside. IsAsideIf place.now aside) }
    ensures same { IfOk result (λ aside. is_some (second_of aside) ≡ keeps) }
    ensures placed { IfOk result (λ aside. (kept : Option (List ℕ)) × Appends (F.NewFile.contents file) kept bytes.now
        × TakesSteps F.has_done files.old (put_in_place place.now new.now kept deck.now (second_of aside) ++ filled (F.NewFile.contents file) kept deck.now) files.new) }
    ensures fault { IfErr result (λ fault. IsFaultOfNew bytes.now fault × ChangesOnly F.has_done (IsNew place.now) files.old files.new) }
{
    let full = match fill(files, file, deck, bytes) {
        Ok(full) => full,
        Err(fault) => return Err(fault),
    };
    match put_new(files, place, full, new, deck, keeps) {
        Ok(aside) => Ok(aside),
        Err(fault) => Err(fault),
    }
}

/// Makes a file anew: writes these bytes to one that stood nowhere, and gives it the path once all of them
/// are kept; what stands there has a second name before, where it keeps one. Where that fails, the new file is
/// taken away, as far as that can be done.
pub(crate) fn make_anew<F: Folder>(
    files: &mut F,
    place: &DeckPlace<'_>,
    deck: &str,
    bytes: &[u8],
    keeps: bool,
) -> Result<Option<Aside>, ShelfSaveFault>
    requires { deck.now ≡ deck_path place.now }
    ensures aside { IfOk result (λ aside. IsAsideIf place.now aside) }
    ensures made { IfOk result (λ aside. MakesAnew F.has_done place.now bytes.now keeps (second_of aside) files.old files.new) }
    ensures fault { IfErr result (λ fault. IsFaultOfNew bytes.now fault × ChangesOnly F.has_done (IsNew place.now) files.old files.new) }
{
    let Unused { path, file, .. } = match make_unused(files, place) {
        Ok(unused) => unused,
        Err(fault) => return Err(fault),
    };
    match finish(files, place, path.as_str(), file, deck, bytes, keeps) {
        Ok(aside) => Ok(aside),
        Err(fault) => {
            let _ = files.remove(path.as_str());
            Err(fault)
        }
    }
}

/// Waits until it is kept which files a deck's folder has.
pub(crate) fn keep_folder<F: Folder>(
    files: &mut F,
    place: &DeckPlace<'_>,
) -> Result<(), ShelfSaveFault>
    ensures kept { OnOk result (TakesStep F.has_done files.old (KeepFolder (folder_path place.now.folder), Done) files.new) }
    ensures fault { IfErr result (λ fault. IsFaultOfFolder fault × TakesStep F.has_done files.old (KeepFolder (folder_path place.now.folder), Refused) files.new) }
{
    match files.keep_folder(place.folder()) {
        Ok(()) => Ok(()),
        Err(error) => Err(save_fault(error.kind())),
    }
}
