//! The jobs that a desk gives out, and those who run them: what is made of a deck or of objects, and a
//! worker that claims what is due, runs it outside of any turn, ends it by one call, and sleeps on a bell where
//! nothing is due.
//!
//! A turn at the desk is one claim, one delivery of a deck, one publication that the desk makes of the objects of its
//! decks, or one lease given up; decks are assembled, and their listings made, between two turns, and the texts of a
//! link when somebody asks for them. A bell says that there may be work, or that the worker is to stop. Not promised:
//! that a bell arrives, that a worker gets on, or when a job is run: that two run at once is tested.
#![tactic(auto)]

// What is made of a job; no threads here, and nothing waits.
mod assembling;
mod jobs;
mod made;
mod runs;

// Workers.
mod bells;
mod gates;
mod subscribers;
mod working;

pub use bells::Bell;
pub use gates::{Gate, OpenGate};
pub use jobs::{Job, job_in};
pub use made::Made;
pub use runs::Runs;
pub use subscribers::{NoSubscriber, Subscriber};
pub use working::worker;
