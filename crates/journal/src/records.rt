//! The records of a journal.

use cards::DeckName;
use desk_core::Change;
use moments::Moment;

/// What a record shows.
#[derive(Drop)]
pub enum Entry {
    /// The journal begins here: its desk is new, and goes on behind the record's version.
    Begun,
    /// A change, which made the record's version.
    Made(Change),
}

/// A record: a version, when it was made, the name of the session that made it, and what it shows.
#[derive(Drop)]
pub struct Record {
    pub version: u64,
    pub moment: Moment,
    pub by: DeckName,
    pub entry: Entry,
}
