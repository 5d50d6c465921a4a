//! Operations by their names: those that are no instructions, and the classes of all; and what the
//! fields of a statement say before any value is known, the kind of its deck, the number base, END, and
//! the letters that flag it.
//!
//! `KindSearch` is handed one operation after the other, and may be asked at any time; nothing
//! changes what it found. `Letters` is a set, whose text is all that contracts see. Nothing here takes
//! memory.
#![tactic(auto)]

// Operations, and their classes.
mod operation;
mod pseudo_table;
mod settings;

// The kind of a deck, and letters.
mod kind_search;
mod letters;

pub use kind_search::KindSearch;
pub use letters::Letters;
pub use operation::Operation;
pub use pseudo_table::pseudo_instruction;
pub use settings::{is_end, number_base_set};
