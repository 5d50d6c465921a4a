//! The paths of the files of a deck in a folder.
ghost use Rattle.std.specs.Prelude.{◌≡◌, string_bytes, IfOk, IfSome, IfNone, IsUtf8};
ghost use Rattle.deck_files.specs.Folders.{deck_path, folder_path, new_path, old_path, place};

use cards::DeckName;
use std::alloc::{AllocError, Global};
use std::marker::Model;

/// Where a shelf keeps a deck: the folder, the deck's name, and the number of the shelf. The empty text is
/// the folder that the process runs in. Contracts see the three.
#[derive(Drop)]
pub(crate) struct DeckPlace<'a> {
    alloc: Global,
    folder: &'a str,
    name: &'a str,
    number: usize,
}

impl<'a> Model for DeckPlace<'a> {
    ghost use Rattle.deck_files.specs.Folders.{Place, place};

    ghost Value = { Place };

    ghost view = { λ p. place p.folder.now p.name.now p.number };
}

/// A folder by a path of its own.
pub(crate) fn path_of(folder: &str) -> &str
    ensures { result.now ≡ folder_path folder.now }
{
    if folder.is_empty() { "." } else { folder }
}

impl<'a> DeckPlace<'a> {
    /// The place of a deck, whose name is one of letters and digits.
    pub(crate) fn new(
        alloc: Global,
        folder: &'a str,
        number: usize,
        name: &'a DeckName,
    ) -> Option<DeckPlace<'a>>
        ensures place { IfSome result (λ found. found ≡ place folder.now name.now number) }
        ensures none { IfNone result (¬ IsUtf8 name.now) }
    {
        match str::from_utf8(name.as_slice()) {
            Ok(name) => Some(DeckPlace {
                alloc,
                folder,
                name,
                number,
            }),
            Err(_) => None,
        }
    }

    pub(crate) fn alloc(&self) -> Global {
        self.alloc
    }

    /// The folder by a path of its own.
    pub(crate) fn folder(&self) -> &str
        ensures { result.now ≡ folder_path self.now.folder }
    {
        path_of(self.folder)
    }

    /// The path of the deck's file.
    pub(crate) fn deck_path(&self) -> Result<String, AllocError>
        ensures { IfOk result (λ path. string_bytes path ≡ deck_path self.now) }
    {
        let (alloc, folder, name) = (self.alloc, self.folder, self.name);
        if folder.is_empty() {
            format!(in alloc; "{name}.DECK")
        } else {
            format!(in alloc; "{folder}/{name}.DECK")
        }
    }

    /// The path of the file that keeps what a save was asked to write over.
    pub(crate) fn old_path(&self) -> Result<String, AllocError>
        ensures { IfOk result (λ path. string_bytes path ≡ old_path self.now) }
    {
        let (alloc, folder, name) = (self.alloc, self.folder, self.name);
        if folder.is_empty() {
            format!(in alloc; "{name}.OLD")
        } else {
            format!(in alloc; "{folder}/{name}.OLD")
        }
    }

    /// The path of the file that a save writes, at one try.
    pub(crate) fn new_path(&self, tries: u64) -> Result<String, AllocError>
        ensures { IfOk result (λ path. string_bytes path ≡ new_path self.now tries) }
    {
        let (alloc, folder, name, number) = (self.alloc, self.folder, self.name, self.number);
        if folder.is_empty() {
            format!(in alloc; "{name}.NEW{number}.{tries}")
        } else {
            format!(in alloc; "{folder}/{name}.NEW{number}.{tries}")
        }
    }
}
