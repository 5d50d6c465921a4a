//! The record of a deck: its name and its cards, and all that is kept of them, so that its object is
//! at hand.
//!
//! `Kept::new` makes the object of a deck as `assemble` of `deck_assembler` does, and keeps the sized deck
//! beside it. `finish` gives the object, which is at hand. `edit_all` finds the fault of the first edit
//! that does not apply, or makes the record of the edited cards, and is spent where memory runs out on
//! the way: what was sized in front of the edited cards stays, and behind them from where both decks
//! agree again, and so do the lines of these statements unless a name is bound otherwise; the counted
//! work is within what is due. `edit` is the same with one edit. `edit_in_order` makes edits that lie
//! near each other at once, and others one after the other (`near_edits`), so that the counted work is
//! within the sum of what is due for each.
#![tactic(auto)]

mod edited_object;
mod faults;
mod fronts;
mod kept;
mod near;
mod piece_counts;

pub use faults::RecordFault;
pub use kept::{FinishFault, Kept};
