//! Files that are left of a service that was killed while it wrote one.
ghost use Rattle.std.specs.Prelude.{◌≡◌};
ghost use Rattle.std.specs.List.{list_any};
ghost use Rattle.deck_files.specs.NewNames.{is_of_whole};

use crate::new_names::{is_of_a_save, is_of_whole};
use std::alloc::AllocGlobal;
use std::fs;
use std::rt::Files;

/// Whether a file has the name of one that is written first where a file of one of these names is made
/// anew whole.
fn is_of_one(name: &[u8], wholes: &[&str]) -> bool
    ensures { result ≡ list_any (λ whole. is_of_whole name.now whole.now) wholes.now }
{
    wholes
        .iter()
        .any(|whole| is_of_whole(name, whole.as_bytes()))
}

/// Takes the files away that a service left in a folder when it was killed, as far as that can be done:
/// those of a name that a save writes first, or that a file of these names is written under first, and no
/// others. No service writes there.
pub fn clear_folder<R: Files + AllocGlobal + Clone + Drop>(rt: &R, folder: &str, wholes: &[&str]) {
    let folder = if folder.is_empty() { "." } else { folder };
    let Ok(entries) = fs::read_dir(rt, folder) else {
        return;
    };
    for entry in entries {
        if let Ok(entry) = entry
            && (is_of_a_save(entry.file_name().as_bytes())
                || is_of_one(entry.file_name().as_bytes(), wholes))
        {
            let _ = fs::remove_file(rt, entry.path());
        }
    }
}
