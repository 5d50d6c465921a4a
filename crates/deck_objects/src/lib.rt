//! The object of a deck: what is left of it once it is assembled, and what a link makes of its fields.
//!
//! Contracts see an object as its deck; all else of it, a line for each statement with its fields, its
//! blocks, literals, entries and externals, is, by its type, what the definitions' object of that deck
//! has. Who reads one need not know how it was made.
//!
//! A line keeps its fields as one number where they are known and have at most 60 bits, else in the
//! object's list. That need not be the definitions' list of fields: it is as wide, has the same
//! bits in every link, and is unfit in the same words, and nothing that reads an object can see
//! more. `Linking` is how a form gets its bits, and `Unlinked` the link of a listing.
#![tactic(auto)]

// The names that a deck enters, and its statements, a line each.
mod entries;
mod line_bits;
mod lines;

// All of it, held by one or by several.
mod object;
mod shared_object;

// What a link makes of its fields.
mod linking;

pub use entries::Entry;
pub use line_bits::LineBits;
pub use lines::{CodedLine, FieldLists, Line, LineFields, listed};
pub use linking::{Linking, Unlinked, coded_or_zero, linked_bits};
pub use object::{Object, ObjectParts};
pub use shared_object::SharedObject;
