//! Files of cards: a line for each card of a deck, loaded from any reader and saved to any writer,
//! and shelves of such files. Nothing here knows what a card means.
//!
//! `load` reads line by line and ends at the first fault. `Shelf` names what one call makes of a
//! shelf; `FolderShelf` is one over a folder, where deck NAME is
//! `NAME.DECK`, and a save writes another file beside it and gives it that name at the end, unless a
//! newer version of the deck was saved or the file there is nobody's that is known. `Folder` names what
//! is asked of the folder; `SystemFolder` passes that on to the file system.
#![tactic(auto)]

// One file.
mod card_line;
mod file_sums;
mod load_fault;
mod loading;
mod saving;

// Shelves of files.
mod deck_places;
mod deck_shelf;
mod file_rows;
mod folder_laws;
mod folder_lists;
mod folder_loads;
mod folder_saves;
mod folder_shelf;
mod folders;
mod known_files;
mod known_rows;
mod known_texts;
mod leftovers;
mod new_files;
mod new_names;
mod save_turns;
mod second_names;
mod system_folder;

// Any file.
mod placing;
mod size_limits;
mod target_paths;
mod unwaiting;
mod whole_files;

pub use deck_shelf::{SaveOver, Shelf, ShelfLoadFault, ShelfSaveFault};
pub use file_rows::{DeckEntry, FileRow, MOST_FILES};
pub use folder_laws::{
    a_byte_more_tells_the_file, decks_stand_apart, known_files_are_read_back,
    places_make_nothing_known,
};
pub use folder_shelf::FolderShelf;
pub use folders::{Folder, Standing};
pub use known_files::{FILES, KnownFiles};
pub use known_rows::is_at;
pub use leftovers::clear_folder;
pub use load_fault::LoadFault;
pub use loading::load;
pub use saving::{save, save_file};
pub use size_limits::{Limited, NO_LIMIT, has_room, size_limit};
pub use system_folder::SystemFolder;
pub use target_paths::target_of;
pub use unwaiting::{open_led_to, open_standing};
pub use whole_files::{
    Begun, begin_whole, end_whole, fill_whole, folder_of, replace_whole, sync_folder,
};
