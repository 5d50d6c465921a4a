//! The commands of a session as its lines have them: which line is which command, or why it is refused; the
//! edits of a batch and the cards of a put; and the words by which anything is refused. Nothing here knows a
//! desk, or what is done for a command.
//!
//! The lines are meant to stay: one is added only where it was none before. Journals have lines of commands,
//! too.
#![tactic(auto)]

// Words and numbers.
mod sought;
mod unknown_words;
mod verbs;
mod words;

// Lines that ask for something.
mod commands;
mod edits;
mod refusals;
mod strangers;
mod views;

// What clients may rest on.
mod laws;

pub use commands::{BatchHead, Command, LinesHead, read_command};
pub use edits::{read_batch_line, read_put_line};
pub use laws::{lines_read_back, words_are_told_whole};
pub use refusals::Refusal;
pub use sought::{begins_with, has_text};
pub use strangers::{is_command, is_request_of_http};
pub use unknown_words::UnknownWord;
pub use views::{CardsView, ErrorsView};
pub use words::{Seen, behind_blank, behind_word, first_number, first_word, from_blank, to_blank};
