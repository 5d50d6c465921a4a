//! The replies of a session.

use crate::greetings::Connected;
use crate::marked_rows::MarkedRow;
use crate::told_decks::ToldDeck;
use cards::Card;
use deck_files::FileRow;
use deck_objects::SharedObject;
use desk_core::{KeptEdit, Row};
use session_commands::{ErrorsView, Refusal};

/// The reply to one command.
#[derive(Clone, Copy)]
pub enum Reply<'a> {
    /// `OK version`: what was asked is done, and the version is the deck's.
    Done {
        version: u64,
    },
    /// `UNKEPT version`: what was asked stands on the desk, the version is the deck's, and the record of
    /// the change is not on the disk.
    Unkept {
        version: u64,
    },
    /// `OK version n`, then a line for each card.
    Cards {
        version: u64,
        cards: &'a [Card],
    },
    /// `OK version n`, then for each change of a deck its line, and a line for each of its edits.
    Changes {
        version: u64,
        kept: &'a [KeptEdit],
    },
    /// `OK version n`, then a line for each card that has the text: its number, counted from 1.
    Found {
        version: u64,
        cards: &'a [Card],
        text: &'a [u8],
    },
    /// `OK version n`, then the `n` lines of a text, each of which has its line feed.
    Text {
        version: u64,
        text: &'a [u8],
    },
    /// `OK version n`, then a line for each flagged statement of these decks, and those LINK lines of the
    /// map, that are shown.
    Errors {
        version: u64,
        view: &'a ErrorsView,
        decks: &'a [SharedObject],
        map: &'a [u8],
    },
    /// `OK version n`, then `PUBLISHED version` or `PUBLISHED NONE`, and a line for each deck.
    Status {
        version: u64,
        published: Option<u64>,
        decks: &'a [Row],
    },
    /// `OK version n`, then `PUBLISHED version` or `PUBLISHED NONE`, and a line for each deck, with whether its
    /// file has its cards.
    FileStatus {
        version: u64,
        published: Option<u64>,
        decks: &'a [MarkedRow],
    },
    /// `OK version n`, then a line for each deck that was to be saved or added.
    Decks {
        version: u64,
        decks: &'a [ToldDeck],
    },
    /// `OK version n`, then a line for each file of a deck.
    Files {
        version: u64,
        files: &'a [FileRow],
    },
    /// `OK version n`, then a line for the service, and one for each session that is connected.
    Sessions {
        version: u64,
        sessions: &'a [Connected],
    },
    /// `BYE`
    Bye,
    /// `NO`, and the text of the refusal.
    Refused(Refusal),
}
