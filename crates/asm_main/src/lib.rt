//! The main work of `compass asm`: `asm_run` takes decks from a reader to listing, link map and
//! octal image.
//!
//! `read_decks` reads all lines up to the end or the first fault and puts each card to its deck,
//! and what is built of the decks has all memory that their texts need: short texts are made whole, of
//! longer ones each part is measured, and made once more when it is sent. So nothing is written before
//! all is read, and nothing asks for memory behind the first byte. The contract of `asm_run` has two halves. Where the bytes of the ports are known,
//! `answer`, `told` and `part` say that what went out, the fault's text and the status are those of
//! `answer_of`. The other clauses say what was read and in which order, which faults are reported, and
//! when the ports' counts of faults rise.
#![tactic(auto)]

// From bytes to decks.
mod deck_input;

// From decks to texts, and out.
mod built;
mod objects;
mod texts;
mod writing;

// Several readers as one, and a writer that remembers its faults.
mod chained;
mod latest_fault;
mod remembering;

// A filter in front of them.
mod filter_laws;
mod filtered;

// A run.
mod asm_fault;
mod fault_words;
mod link_words;
mod running;

pub use asm_fault::AsmFault;
pub use built::Built;
pub use chained::{Chained, LinePlace, Part};
pub use fault_words::{column_of, line_of, words_of};
pub use filter_laws::plain_stays;
pub use filtered::{Filter, Filtered, tab_blanks};
pub use link_words::words_of_link;
pub use remembering::Remembering;
pub use running::{Tally, asm_build, asm_build_with, asm_run, asm_status};
pub use texts::{Chosen, write_chosen};
