//! The desk: decks that several people edit, jobs for those who assemble and link them, and the
//! publication that everybody sees. Its definitions, the laws that hold over each run, and the code
//! that makes each step. Nothing here assembles or reads; nothing is linked or written but what a publication
//! shows, when somebody asks for it (`PublishedTexts`).
//!
//! `specs/Lib.antt` has what a desk may answer: `Changes` the decks that accepted changes leave,
//! `Past` what is kept of them, `Answers`, `Changing`, `Reading`, `Earlier`, `Carrying`, `Undoing`,
//! `Claiming` and `Delivering` the answer to each call, `Steps` a step, which is the answer, or, where
//! that takes memory, the refusal for want of it; `Runs` and `Jobs` what is promised of each run
//! (`every_run`, `jobs_once`), `Progress`, `Making` and `Rounds` that work is handed out, and ends
//! (`work_is_handed_out`, `work_ends`), `published_is_delivered` what the desk publishes by itself;
//! `undo_takes_back` says what an undo leaves, `kept_changes` that
//! what is kept of a deck is what happened, `nobody_is_undone` that edits which are carried undo nothing of
//! others. `Stored`, `Pieces`, `OwnNames`, `Turns` and `Delivered` say how the code keeps a desk, and no law names
//! them. The code has a method for each call, with its part of the relation as its clause. A deck is found
//! by its name and changed at its place; a delivery compares cards by value; growth comes first. Not
//! promised: that a job comes back, or that the desk becomes idle while others change it.
#![tactic(auto)]

// What is asked and answered.
mod accepted;
mod calls;
mod deck_cards;
mod held;
mod jobs;
mod listed;
mod new_deck;
mod published_texts;
mod replies;
mod shared_publication;
mod shown_text;
mod told_cards;

// What the desk keeps.
mod card_pieces;
mod deck_list;
mod desk;
mod leases;
mod past;
mod piece;
mod stored_deck;

// Calls.
mod carrying;
mod changing;
mod claiming;
mod comparing;
mod delivering;
mod earlier;
mod edit_both;
mod own_link;
mod reading;
mod sequence;
mod undoing;

// What holds in every run.
mod laws;

pub use accepted::Accepted;
pub use calls::{Call, Change, Done, Edits, Question, Work};
pub use deck_cards::DeckCards;
pub use desk::Desk;
pub use held::Held;
pub use jobs::{DeckWork, LinkWork, Start};
pub use laws::{
    every_run, jobs_once, kept_changes, nobody_is_undone, published_is_delivered, undo_takes_back,
    work_ends, work_is_handed_out,
};
pub use leases::Lease;
pub use listed::Listed;
pub use new_deck::NewDeck;
pub use past::KeptEdit;
pub use published_texts::{DeckText, PublishedText, show_part, show_text};
pub use replies::{Refusal, Reply, Row, State};
pub use shared_publication::SharedPublication;
pub use shown_text::ShownText;
pub use stored_deck::StoredDeck;
pub use told_cards::ToldCards;
