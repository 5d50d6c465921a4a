//! Cards and edits of cards, the names of decks, statements and their fields, exactly as the definitions
//! have them. Nothing here knows an operation but DIS, or a symbol.
//!
//! `statements` gives spans of the deck's cards, in one pass, and copies none; it alone takes
//! memory, and an edit that inserts. `fields` answers parts of the text where it lies: on the card,
//! or in a `StatementRoom` that the caller lends where the statement has comma cards. A variable
//! field has at most 711 characters. Which edit does not apply, and why, rests on the number of
//! cards alone: `fault_of` and `first_fault` count along, take no memory, and cost nothing by the
//! deck. `carry` takes no memory either: an edit goes at most twice over those that others made
//! since, and over those before it in its batch.
#![tactic(auto)]

// Cards, and the names of decks.
mod card;
mod deck_name;

// Edits of a deck's cards.
mod applying;
mod carrying;
mod copies;
mod edits;
mod faults;
mod laws;

// Which cards are one statement, and its text.
mod statement_list;
mod statement_room;

// The three fields of a statement.
mod card_fields;
mod card_parts;
mod field_parts;
mod statement_fields;
mod variable_fields;

pub use applying::apply;
pub use card::{Card, CardFault};
pub use card_fields::fields;
pub use carrying::{MOST_CARRIED, MadeEdit, Touched, carry};
pub use copies::{copied_cards, copied_edits, edited_copy};
pub use deck_name::{BadName, DeckName};
pub use edits::{Edit, EditFault};
pub use faults::{MOST_CARDS, count_after, fault_of, first_fault};
pub use laws::{carried_edits_converge, touched_cards_were_changed};
pub use statement_fields::Fields;
pub use statement_list::{Span, StatementList, statements};
pub use statement_room::StatementRoom;
