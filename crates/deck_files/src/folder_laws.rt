//! What an operator may rest on, as the contract of a function that does nothing.
ghost use Rattle.std.specs.Prelude.{◌≡◌, ◌≢◌, ◌<◌, ◌-◌, ◌^◌, ℕ, List, Option, Some, true};
ghost use Rattle.definitions.specs.DeckInput.{is_deck_name};
ghost use Rattle.deck_files.specs.Folders.{Place, deck_path, old_path};
ghost use Rattle.deck_files.specs.Files.{Named};
ghost use Rattle.deck_files.specs.FolderSaves.{IsNew};
ghost use Rattle.deck_files.specs.KnownFiles.{after_place, file_known};
ghost use Rattle.deck_files.specs.KnownTexts.{IsWritable, row_in, row_line};
ghost use Rattle.deck_files.specs.FileSums.{has_just, is_same_sum, sum_of};
ghost use Rattle.deck_files.specs.declared.file_sums.FileSum.{FileSum};
ghost use Rattle.deck_files.specs.declared.known_rows.Known.{Known};

/// No path that a save that left the deck's file may have changed is the deck's own, or that of `NAME.OLD`.
pub fn decks_stand_apart()
    ensures deck { (at : Place) (path : List ℕ) → IsNew at path → path ≢ deck_path at }
    ensures old { (at : Place) (path : List ℕ) → IsNew at path → path ≢ old_path at }
{}

/// A load, which gives a deck a place, makes no file known: of each file the same is known as before.
pub fn places_make_nothing_known()
    ensures { (name other : List ℕ) (files : Named (Option Known)) → file_known other (after_place name files) ≡ file_known other files }
{}

/// What is written of a known file is read back: of each deck that may have a name, and each digest of 32 bytes.
pub fn known_files_are_read_back()
    ensures { (name : List ℕ) (known : Known) → is_deck_name name ≡ true → IsWritable known
        → row_in (row_line name known) ≡ Some (record { name = name; known = known }) }
{}

/// What is read of a file to see whether it has a sum, one byte more than it would have, shows that as all of
/// its bytes would.
pub fn a_byte_more_tells_the_file()
    ensures { (sum : FileSum) (bytes : List ℕ) → sum.length < 2 ^ 64 - 1 → has_just sum bytes ≡ is_same_sum (sum_of bytes) sum }
{}
