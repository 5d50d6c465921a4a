//! One statement: what it is once the state before it is known, and its fields and letters once all
//! names have their values, exactly as the definitions have them.
//!
//! `size` takes a statement with the operand that was read of it and the letters of that (`operand_letters`),
//! the `BlockState` before it and the symbols that earlier statements define (`EarlySymbols`), and promises
//! what the definitions settle of any such state, so an edit may begin anywhere: a sizing in few bytes, a
//! `KeptSizing`. `KeptSizing::effect` is what the statement does to the state.
//! `code` takes the operand with that, the values of all symbols and literals (`FinalSymbols`) and the
//! bases, and gives fields and letters. `kept_operand` has the operand of the `KeptReading` that was made
//! while the statement was sized: that has few bytes, or the text of the operand.
//! No other calls size or code, and each of the two adds one to the `Meter`. Sizing takes memory only
//! for the names of an EXT, and for what is kept of an unusual sizing or operand; coding only for data.
//!
//! An `Item` has a width, at most one letter, and bits that are known or a form for the link: in
//! ABS and PERIPH decks a form becomes a number here, in a REL deck one with a block or external
//! stays. What is longer than a word is listed word by word.
#![tactic(auto)]

// A statement, and what its variable field is to its operation.
mod early_values;
mod externals;
mod kept_readings;
mod location_field;
mod operand_sources;
mod outcomes;
mod placing;
mod read_operands;
mod readings;
mod spellings;
mod statement;
mod statement_cards;

// Where it stands, and what follows from its size or its early value.
mod sizes;

// Its location field, what it defines, its block and its letters.
mod block_changes;
mod definitions_made;
mod size_letters;

// All of it, and what it does to the state.
mod effects;
mod kept_sizing;
mod sized;
mod sizing;
mod usual_sizes;
mod usual_sizing;

// What a value, a counted item or a number is in so many bits of a deck of some kind.
mod instruction_fields;
mod items;
mod numbers;
mod six_bits;
mod values;

// Its fields, once all names have their values.
mod coded;
mod coding;
mod data_items;
mod entry_letters;
mod final_names;
mod item_letters;
mod laws;
mod listing;
mod operand_fields;

pub use coded::{Coded, CodedItems};
pub use coding::code;
pub use definitions_made::Defines;
pub use early_values::EarlySymbols;
pub use final_names::FinalSymbols;
pub use items::{Content, Item, signed};
pub use kept_readings::KeptReading;
pub use kept_sizing::KeptSizing;
pub use laws::lists_keep_bits;
pub use numbers::{BlockBases, number_coded, number_in};
pub use operand_sources::kept_operand;
pub use read_operands::ReadOperand;
pub use readings::{Reading, read_operand};
pub use sized::{operand_letters, size};
pub use sizing::Sizing;
pub use statement::Statement;
pub use statement_cards::known_statement;
pub use work_meter::Meter;
