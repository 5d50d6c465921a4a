//! What `service_tests` does that asks for no socket and no service: the steps of its transcripts at a desk, at its
//! jobs, sessions, replies and files, at journals, folders, offices and workers, each of which writes down what comes
//! of it. It is proved beside the service, and not behind it.
#![tactic(auto)]

// A shelf in memory; a desk whose jobs are all done by the one who holds it.
mod memory_shelf;
mod settling;

// A shelf and a folder that fail where they are to.
mod breaking;
mod refusing;

// Steps, lowest first.
mod faults;
mod files;
mod jobs;
mod journals;
mod lines;
mod offices;
mod place;
mod replies;
mod reply_texts;
mod shelves;
mod workers;

use deck_files::KnownFiles;
pub use jobs::{addition, ask, delivery_of};
pub use memory_shelf::MemoryShelf;
pub use offices::{ask_from, closed};
pub use place::{Place, put_file, serve, serve_up_to};
pub use reply_texts::{is_within, text_of};
pub use settling::{Settled, settle};
use std::alloc::AllocGlobal;
use std::fs::File;
use std::rt::Files;
use std::sync::Wait;
use std::thread::Threads;
use std::time::Clock;
use test_parts::Answer;

/// Makes a step, and answers whether there is one of this word.
pub fn make<R: AllocGlobal + Threads + Wait + Sync + Files<File = File> + Clock + Clone + Drop>(
    rt: &R,
    place: &mut Place,
    known: &KnownFiles,
    word: &str,
    rest: &str,
    answer: &mut Answer,
) -> bool {
    place.make(word, rest, answer)
        || files::make(place.file.as_slice(), word, rest, answer)
        || lines::make(word, rest, answer)
        || replies::make(word, rest, answer)
        || journals::make(&mut place.file, word, rest, answer)
        || faults::make(rt.alloc(), word, answer)
        || shelves::make(rt, known, word, rest, answer)
        || offices::make(rt, word, rest, answer)
        || workers::make(rt, word, answer)
}
