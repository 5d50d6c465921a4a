//! The file that a save is asked to write over keeps a name: a second one, until the new file has its place,
//! and then `NAME.OLD`.
ghost use Rattle.std.specs.Prelude.{◌≡◌, ℕ, List, ◌⊎◌, string_bytes, IfErr, IfOk, OnOk};
ghost use Rattle.deck_files.specs.Folders.{new_path, old_path};
ghost use Rattle.deck_files.specs.FolderSaves.{IsAside, IsAsideIf, IsFaultOfFolder, IsNew, IsNotOld, linked, refused_links, second_of, settled};
ghost use Rattle.deck_files.specs.Steps.{ChangesOnly, Done, Refused, Rename, TakesStep, TakesSteps};

use crate::deck_places::DeckPlace;
use crate::deck_shelf::ShelfSaveFault;
use crate::folder_saves::save_fault;
use crate::folders::Folder;
use crate::new_files::{MOST_TRIES, keep_folder};
use std::io::ErrorKind;

/// What stands in a deck's place has a second name, found at one try, and is to have the name `NAME.OLD`.
#[derive(Drop)]
pub(crate) struct Aside {
    pub(crate) path: String,
    pub(crate) old: String,
    pub(crate) tries: u64,
}

/// A name, and at which try it was found.
#[derive(Drop)]
struct SecondName {
    path: String,
    tries: u64,
}

/// Gives the file in a deck's place a second name, which no file has.
fn link_unused<F: Folder>(
    files: &mut F,
    place: &DeckPlace<'_>,
    deck: &str,
) -> Result<SecondName, ShelfSaveFault>
    ensures path { IfOk result (λ second. string_bytes second.path ≡ new_path place.now second.tries) }
    ensures linked { IfOk result (λ second. TakesSteps F.has_done files.old (linked place.now deck.now second.tries) files.new) }
    ensures fault { IfErr result (λ fault. IsFaultOfFolder fault × ChangesOnly F.has_done (IsNew place.now) files.old files.new) }
{
    for tries in 0..MOST_TRIES {
        let Ok(path) = place.new_path(tries) else {
            return Err(ShelfSaveFault::OutOfMemory);
        };
        match files.link(deck, path.as_str()) {
            Ok(()) => return Ok(SecondName { path, tries }),
            Err(error) if error.kind() == ErrorKind::AlreadyExists => {}
            Err(error) => return Err(save_fault(error.kind())),
        }
    }
    Err(ShelfSaveFault::CannotOpen)
}

/// Gives the file in a deck's place a second name, which no file has, with the one that it is to have then.
pub(crate) fn set_aside<F: Folder>(
    files: &mut F,
    place: &DeckPlace<'_>,
    deck: &str,
) -> Result<Aside, ShelfSaveFault>
    ensures aside { IfOk result (λ aside. IsAside place.now aside) }
    ensures linked { IfOk result (λ aside. TakesSteps F.has_done files.old (linked place.now deck.now aside.tries) files.new) }
    ensures fault { IfErr result (λ fault. IsFaultOfFolder fault × ChangesOnly F.has_done (IsNew place.now) files.old files.new) }
{
    let Ok(old) = place.old_path() else {
        return Err(ShelfSaveFault::OutOfMemory);
    };
    match link_unused(files, place, deck) {
        Ok(SecondName { path, tries }) => Ok(Aside { path, old, tries }),
        Err(fault) => Err(fault),
    }
}

/// Gives what stood in a deck's place the name `NAME.OLD`, in place of what had it.
fn give_old_name<F: Folder>(
    files: &mut F,
    place: &DeckPlace<'_>,
    aside: &Aside,
) -> Result<(), ShelfSaveFault>
    requires { IsAside place.now aside.now }
    ensures given { OnOk result (TakesStep F.has_done files.old (Rename (new_path place.now aside.now.tries) (old_path place.now), Done) files.new) }
    ensures fault { IfErr result (λ fault. IsFaultOfFolder fault × TakesStep F.has_done files.old (Rename (new_path place.now aside.now.tries) (old_path place.now), Refused) files.new) }
{
    match files.rename(aside.path.as_str(), aside.old.as_str()) {
        Ok(()) => Ok(()),
        Err(error) => Err(save_fault(error.kind())),
    }
}

/// Gives what stood in a deck's place the name `NAME.OLD`, where it keeps a name, and waits until it is kept
/// which files the folder has. Where that name is refused, the second one stays.
pub(crate) fn settle<F: Folder>(
    files: &mut F,
    place: &DeckPlace<'_>,
    aside: &Option<Aside>,
) -> Result<(), ShelfSaveFault>
    requires { IsAsideIf place.now aside.now }
    ensures kept { OnOk result (TakesSteps F.has_done files.old (settled place.now (second_of aside.now) Done) files.new) }
    ensures fault { IfErr result (λ fault. IsFaultOfFolder fault
        × (TakesSteps F.has_done files.old (settled place.now (second_of aside.now) Refused) files.new ⊎ IsNotOld F.has_done place.now (second_of aside.now) files.old files.new)) }
{
    match aside {
        Some(aside) => match give_old_name(files, place, aside) {
            Ok(()) => keep_folder(files, place),
            Err(fault) => Err(fault),
        },
        None => keep_folder(files, place),
    }
}
