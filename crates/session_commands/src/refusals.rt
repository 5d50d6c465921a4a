//! Why something is refused.

use crate::unknown_words::UnknownWord;
use cards::{CardFault, EditFault};
use thiserror::Error;

/// Why a command, a file or an input is refused. Lines, columns and edits count from 1.
///
/// The text is the name, then the numbers in decimal, or the word, each after one blank.
#[derive(Clone, Copy, Debug, Error)]
pub enum Refusal {
    /// No memory was left.
    #[error("no memory was left")]
    OutOfMemory,
    /// The text of a card is none: `TooWide`, or `BadCharacter` and the column.
    #[error("the text is no card: {0}")]
    BadCard(CardFault),
    /// The deck has no such place.
    #[error("the deck has no such place")]
    NoSuchCard,
    /// A deck has 20,000 cards at most.
    #[error("the deck has 20000 cards, and takes no more")]
    DeckFull,
    /// The record of a deck is spent.
    #[error("the record of the deck is spent")]
    Spent,
    /// There is a deck of this name.
    #[error("there is a deck of this name")]
    NameTaken,
    /// There is no deck of this name.
    #[error("there is no deck of this name")]
    NoDeck,
    /// The deck has another version than the one that was seen: this one.
    #[error("the deck has version {current}")]
    OldVersion { current: u64 },
    /// There are 64 decks.
    #[error("there are 64 decks")]
    TooManyDecks,
    /// No such job is out.
    #[error("no such job is out")]
    UnknownJob,
    /// The deck or the desk has changed since the job was given: it has this version.
    #[error("the job is of an older version than {current}")]
    Stale { current: u64 },
    /// The result is not one of this job.
    #[error("the result is not one of this job")]
    Foreign,
    /// Nothing is published yet.
    #[error("nothing is published yet")]
    NoPublication,
    /// Versions are used up.
    #[error("versions are used up")]
    VersionsSpent,
    /// The reader failed.
    #[error("the reader failed")]
    ReadFault,
    /// The line of a file is no card.
    #[error("line {line} is no card: {fault}")]
    BadLine { line: usize, fault: CardFault },
    /// No line feed ends the last line of a file, so it may be cut.
    #[error("no line feed ends the last line")]
    LastLineCut,
    /// The writer failed when it had taken `sent` bytes.
    #[error("the write failed behind {sent} bytes")]
    WriteFault { sent: usize },
    /// A file does not open.
    #[error("the file does not open")]
    CannotOpen,
    /// The line is no command.
    #[error("the line is no command")]
    BadCommand,
    /// The line is no command, since none begins with this word.
    #[error("no command begins with the first word of the line")]
    UnknownCommand(UnknownWord),
    /// The name of a deck is not 1 to 7 letters and digits.
    #[error("the name of a deck is 1 to 7 letters and digits")]
    BadName,
    /// Seats of the office are out.
    #[error("seats of the office are out")]
    SeatsOut,
    /// This edit of a batch is the first that does not apply.
    #[error("edit {number} does not apply: {fault}")]
    BadEdit { number: u64, fault: EditFault },
    /// A batch has no edit, or more than 100.
    #[error("a batch has 1 to 100 edits")]
    BatchSize,
    /// A file stands there that is not known: it was not saved here, nor loaded into a deck.
    #[error("a file stands there that is not known")]
    FileExists,
    /// All sessions are taken.
    #[error("all sessions are taken")]
    Busy,
    /// No record of a change can be written now, so the desk was not asked for it.
    #[error("no record can be written now")]
    NotKept,
    /// The changes of the deck are kept from this version on.
    #[error("changes are kept from version {oldest} on")]
    Forgotten { oldest: u64 },
    /// This card of those that the sender saw was changed, first in this version.
    #[error("card {card} was changed, first in version {version}")]
    Touched { card: u64, version: u64 },
    /// No change of the deck made this version.
    #[error("no change of the deck made this version")]
    NoChange,
    /// The session may ask, and change nothing.
    #[error("the session may change nothing")]
    ReadOnly,
}
