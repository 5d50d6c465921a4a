//! What is said of decks beside their listings: of a flagged statement the thing that each letter is about, with
//! its place on the cards; of symbols the cards that define and read them, and the decks that enter and read them.
//! The words are ours, and no contract fixes them: the tables of `bench` do.
//!
//! `DeckWords` is made once of a deck, in one pass over its cards; `FlaggedStatement` is one of its statements,
//! and its `message` of a letter looks at the cards of that statement alone, and at nine before them for a comma
//! card. Each letter has a module. What comes is a `Message`, whose words print themselves.
#![tactic(auto)]

// What is printed.
mod words;

// The deck, and a statement of it with its elements and their values.
mod deck_words;
mod elements;
mod first_cards;
mod flagged_statement;
mod seen_values;
mod symbol_keys;

// What each letter is about.
mod defined_twice;
mod left_out;
mod location_words;
mod near_names;
mod operand_forms;
mod operand_words;
mod operation_words;
mod range_words;
mod relative_words;
mod symbol_words;
mod undefined_words;

// Symbols, and the names that decks enter.
mod entered_names;
mod symbols;

pub use deck_words::DeckWords;
pub use entered_names::EnteredNames;
pub use flagged_statement::{FlaggedStatement, Message};
pub use near_names::NearName;
pub use symbols::push_symbols;
pub use words::{Shown, Words};
