//! Where a statement stands in its block, at the least lawful place; and what the words of a block
//! hold: fields of bits put into runs of parcels, and the words of all runs. Nothing here knows an
//! operation, a symbol or a card.
//!
//! A run is a list of spans to which fields are put in order, at places in bits: an ORG to a far
//! word is cheap, and zeros are one span, as are all parcels that a field makes whole.
//! Runs are merged in halves, and the later one has what both have.
#![tactic(auto)]

mod fields;
mod filling;
mod gathering;
mod joining;
mod laws;
mod merging;
mod nothing;
mod places;
mod spans;
mod word_spans;
mod words;

pub use fields::Field;
pub use laws::{ends_add, fields_join, runs_follow_statements, statements_fill_parcels};
pub use merging::words_over;
pub use places::place;
pub use word_spans::WordSpan;
pub use words::Words;
