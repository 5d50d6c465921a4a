//! One line of a session, read, executed and answered: which calls of the desk and of the shelf its command
//! makes, and the text of the reply. Which line is which command, `session_commands` says. Nothing here knows
//! what a desk does with a call, where a shelf keeps its files, or what a port is.
//!
//! All lines of a batch or a put are read before the first is looked at, so a fault or an end among them
//! makes no call. A `Task` is what a command asks for: a change, a question, a load, a save, the
//! end, or nothing, for a reason; only SAVEALL, LOADALL and RELOAD call the desk more than once. LOAD reads the shelf
//! first, so that a file that is no deck adds none; SAVE asks the desk first. The texts of a publication are made
//! when they are asked for. A reply borrows its cards and texts, and takes no memory. What
//! a change or a question makes of a desk is named by the trait `Calls`, and what one call makes by `Called`: a
//! `Desk` meets that with its own clause, `SeatCalls` with that of `Seat::call`.
#![tactic(auto)]

// What is shown.
mod errors;
mod views;

// Replies.
mod change_lines;
mod change_writing;
mod error_writing;
mod file_texts;
mod line_writing;
mod marked_rows;
mod messages;
mod refusal_texts;
mod replies;
mod reply_line;
mod reply_texts;
mod session_writing;
mod symbol_lines;
mod told_decks;
mod writing;

// The desk that is called.
mod calls;
mod greetings;
mod help;
mod seat_calls;

// What is asked.
mod line_items;
mod reading;
mod rights;
mod tasks;

// What is done and shown.
mod answers;
mod executing;
mod file_status;
mod file_tasks;
mod loading_all;
mod reasons;
mod reloading;
mod replied;
mod saving_all;
mod serving;

// What clients may rest on.
mod desk_laws;

pub use calls::{Called, Calls};
pub use desk_laws::a_desk_answers_sessions;
pub use greetings::{Connected, Greeting, VERSION};
pub use marked_rows::MarkedRow;
pub use replies::Reply;
pub use rights::Rights;
pub use seat_calls::SeatCalls;
pub use serving::{Outcome, serve_one, serve_taken};
pub use told_decks::{DeckOutcome, ToldDeck};
pub use writing::{reply_text, write_reply};
