//! The texts of one deck: its listing, with its cards and their numbers, the letters and the octal of
//! each statement, its blocks and the count of its errors; and its octal image, with the words that it
//! stores in order of address.
//!
//! The listing walks lines and cards together; an instruction has one line, other fields are
//! gathered until a word is full, and a BSSZ has none. The stored words of a block are the same in
//! whatever link but for the bits that the link makes. A section leaves out words beyond memory and
//! common blocks, whose words the link shows. What stored words are, and their lines, are made apart:
//! `words_of_blocks` asks for memory, and `push_section` puts these words to a text. A text is put to a
//! `Sheet`, which takes all bytes: what fits in the room that was asked for before needs no memory, and
//! a sheet that grows reports at its end where it lacked some.
#![tactic(auto)]

// What lines are put to.
mod sheet;

// The listing.
mod card_line;
mod decks_behind;
mod field_lines;
mod lines;
mod listed_object;
mod statements;
mod whole;

// The stored words of its blocks: the fields of its statements, put line by line, each into its block.
mod blocks;
mod fields;
mod word_lines;

// The image.
mod alone;
mod image_lines;
mod section_words;
mod sections;

pub use blocks::words_of_blocks;
pub use image_lines::push_image_line;
pub use listed_object::ListedObject;
pub use sections::{image, push_section};
pub use sheet::Sheet;
pub use whole::{errors, lines_in, listing, push_listing};
