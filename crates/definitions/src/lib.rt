//! The language, in `specs/`: what a program and its definitions name alike (characters, counted
//! items, letters, kinds of decks, number bases, short texts), and the laws of the definitions, each the contract of a function.
//!
//! `specs/Lib.antt` is the table of contents. A reader of this project has to believe these files,
//! and nothing else of the language. Statements are read newest first, so a definition searches all
//! that stand before one without a counter. What a statement sees of those before it is one record
//! (`Seen`), and what an assembler has to keep between two is `BlockState`: the laws of states say
//! that this is enough, and that behind equal states the same cards become the same statements. The
//! worked decks of `proofs/` compute whole outputs, those of `examples/` among them.
#![tactic(auto)]

// What code and definitions name alike.
mod characters;
mod counted_items;
mod deck_kind;
mod item_letter;
mod item_text;
mod letter;
mod number_base;
mod texts;

// Short texts, of which every crate above has some.
mod inline_text;

// The laws of texts, fields, places, bases and builds.
mod laws;

// Those of states: what a statement is rests on the state before it.
mod state_laws;

// Those of settled statements, their places and their fields, and of the object that they make.
mod field_laws;
mod object_laws;
mod place_laws;
mod reach_laws;

// Those of the edits of a deck.
mod edit_laws;

pub use characters::{char_of, display_of, has_display_code};
pub use counted_items::{digit_count, is_digit, item_at};
pub use deck_kind::DeckKind;
pub use edit_laws::{agreement_lasts, bindings_are_enough};
pub use field_laws::{fields_fill, fields_fit, instructions_fill_parcels};
pub use inline_text::InlineText;
pub use item_letter::ItemLetter;
pub use item_text::{ItemSpan, ItemText};
pub use laws::{
    bases_are_sums, octal_reads_back, one_cut_into_fields, places_are_the_least, reads_the_grammar,
    statements_have_all_cards, words_fit,
};
pub use letter::Letter;
pub use number_base::NumberBase;
pub use object_laws::{coded_statements_are_shown, names_of_blocks_differ};
pub use place_laws::{places_rise, statements_are_laid_out};
pub use reach_laws::statements_reach_words;
pub use state_laws::{lengths_follow, states_are_enough, states_step, tails_agree};
pub use texts::is_same_text;
