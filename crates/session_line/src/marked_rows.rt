//! The decks of a status, with whether the file of each has its cards.
ghost use Rattle.std.specs.Prelude.{◌≡◌, ◌≤◌, length};
ghost use Rattle.session_line.specs.FileStatus.{marked};
ghost use Rattle.session_line.specs.Replies.{line_of, marked_text, saved_word};

use crate::line_writing::ReplyRow;
use crate::reply_line::ReplyLine;
use crate::reply_texts::{put_decks_behind, row_start};
use desk_core::Row;

/// A deck in the status of a desk, and whether its file has its cards.
#[derive(Drop)]
pub struct MarkedRow {
    pub row: Row,
    pub saved: bool,
}

/// The row of a deck, marked so.
pub(crate) fn marked(row: &Row, saved: bool) -> MarkedRow
    ensures { result ≡ marked row.now saved }
{
    MarkedRow {
        row: Row {
            name: row.name.copied(),
            version: row.version,
            cards: row.cards,
            state: row.state,
            decks_behind: row.decks_behind,
        },
        saved,
    }
}

/// The word that shows whether a file has a deck's cards.
fn saved_word(saved: bool) -> &'static [u8]
    ensures text { result.now ≡ saved_word saved }
    ensures short { length result.now ≤ 8 }
{
    if saved { b" SAVED" } else { b" UNSAVED" }
}

/// The line of a deck that is marked.
fn marked_line(deck: &MarkedRow) -> ReplyLine
    ensures { result ≡ line_of (marked_text deck.now) }
{
    let mut line = row_start(&deck.row);
    line.put(saved_word(deck.saved));
    put_decks_behind(&mut line, deck.row.decks_behind);
    line.end();
    line
}

impl ReplyRow for MarkedRow {
    ghost use Rattle.session_line.specs.Replies.{line_of, marked_text};

    ghost line_text = { λ deck. line_of (marked_text deck) };

    fn line(&self) -> ReplyLine {
        marked_line(self)
    }
}
