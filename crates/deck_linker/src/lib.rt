//! The link: where decks and their common blocks stand, what their entries and externals are worth, and
//! what it publishes, its LINK lines, its map and its octal image behind the listings of its decks,
//! exactly as the definitions have them.
//!
//! `Layout::new` places the decks and behind them the common blocks, and takes what the decks enter
//! into a table; names are looked up in maps. Whether a deck passes the end of its memory is read
//! from the ends of its lines. `DeckLinking` is the link of a deck in a layout; what does not fit
//! its field is 0. A common block's words are each the last deck's. A `Publication` is seen by
//! contracts as its version and decks: that its texts and counts are those of the build of these
//! decks is the invariant of its type. A `ListedPublication` is decks under a version; listings, map,
//! image and sections are made of it when somebody asks, and a `PublishedListing` is written part by part.
#![tactic(auto)]

// Where decks and common blocks stand.
mod based;
mod beyond;
mod common_table;
mod commons;
mod layout;

// What names and forms are worth there.
mod entry_table;
mod linking;
mod values;

// Decks, names and lines.
mod link_text;
mod linked_deck;
mod name_set;

// LINK lines and the map.
mod link_lines;
mod map;
mod unfit_fields;

// The image.
mod common_image;
mod common_words;
mod image;

// All of them: made whole, when somebody asks, or part by part.
mod linked_decks;
mod listed_publication;
mod measuring;
mod publication;
mod published_listing;
mod sending;

pub use based::Based;
pub use commons::Common;
pub use layout::Layout;
pub use linked_decks::LinkedDecks;
pub use linking::DeckLinking;
pub use listed_publication::ListedPublication;
pub use publication::{Publication, link};
pub use published_listing::PublishedListing;
