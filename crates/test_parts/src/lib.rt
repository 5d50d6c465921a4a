//! What tests and measurements begin with: keys that are the same in each run, the words of a row, the decks that are
//! written there, and names and blocks that stand where a row says; ports that fail where they are to; records and
//! objects; and the answer that is put together from parts.
#![tactic(auto)]

mod answers;
mod assembling;
mod call_count;
mod decks;
mod failing;
mod faulty_reader;
mod faulty_writer;
mod keys;
mod known_bases;
mod known_names;
mod words;

pub use answers::{Answer, Got};
pub use assembling::{
    asm_answer, assembled, counted_record, new_object, new_record, object_of, record_of,
};
pub use decks::{card_of, cards_of, name_of};
pub use failing::Failing;
pub use faulty_reader::FaultyReader;
pub use faulty_writer::FaultyWriter;
pub use keys::fixed_keys;
pub use known_bases::{NoBases, OneBlock};
pub use known_names::KnownNames;
pub use words::{
    bytes_of, cut, cut_line, cut_number, number, octal, plain_text, signed, size, small,
};
