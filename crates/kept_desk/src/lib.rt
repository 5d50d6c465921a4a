//! The door of a session: a desk whose changes are kept, with whatever ends the session has at its service.
//! What a record has, `journal` says, and `session_line` what a session asks; here both meet. Nothing here
//! opens a file.
#![tactic(auto)]

mod door;
mod ends;

// What a client may rest on.
mod laws;

pub use door::{Door, is_reached};
pub use ends::{Ends, Woken};
pub use laws::{refusals_at_a_seat_change_nothing, refusals_change_nothing};
