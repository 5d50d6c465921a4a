//! One deck, from its cards to its object: its statements sized in pieces, with the state before each
//! piece, its symbols, externals, literals and the lengths of its blocks; then its lines with their fields
//! and its entries. What an object is, `deck_objects` says.
//!
//! `assemble` makes the object of a deck, and frees the rest.
//!
//! `SizedDeck::new` takes one statement after the other: reads it, sizes it behind the state so
//! far, takes in its literals and what it defines, and steps lengths and state by its effect. A
//! `Piece` has up to 128 statements, with the state before the first. `object_parts` goes over
//! the pieces and makes a `Line` of each, from what was kept of its operand: no card is read again. Behind
//! END a line has cards alone. Of an edited deck,
//! `SizedDeck::edited` keeps the statements in front of the edited card, and all those from where the
//! deck agrees again with the one before; `edited_parts` takes the lines of both over from the object
//! before, but for those of which `Rebinding` finds a name bound otherwise, and counts no more than those
//! as coded beside what lies between (`code_due`). Where all names mean the same in both decks
//! (`Bindings::are_same`) no statement is asked. In a deck of another kind the neutral statements in front
//! stay (`head_deck`), and so do their lines.
#![tactic(auto)]

// Statements in pieces.
mod pieces;
mod sized_statement;

// The first definition of each symbol, the externals among them, and the literals.
mod definitions_kept;
mod literal_words;
mod operand_names;
mod symbol_key;
mod symbol_table;

// All statements of a deck, sized.
mod early_symbols;
mod early_trial;
mod head_deck;
mod old_deck;
mod sized_deck;
mod sizer;
mod up_to_end;

// The fields of a statement, as a line keeps them.
mod known_bits;
mod line_fields;
mod statement_lines;

// The names that a deck gives to others.
mod deck_names;
mod entry_names;

// All statements of a deck, coded.
mod block_index;
mod copied_lines;
mod deck_lines;
mod deck_view;
mod deck_walk;
mod former;
mod former_lines;
mod line_coder;
mod object_part_list;
mod rebinding;
mod same_bindings;

// The object of a deck.
mod assembling;

pub use assembling::{assemble, object_of};
pub use former::{EditedDeck, Former};
pub use literal_words::literal_word;
pub use object_part_list::{edited_parts, object_parts};
pub use old_deck::OldCards;
pub use pieces::Piece;
pub use sized_deck::SizedDeck;
pub use sized_statement::SizedStatement;
pub use statement_lines::coded_line;
pub use symbol_table::SymbolTable;
