//! The lines of the files of decks.
ghost use Rattle.std.specs.Prelude.{◌≡◌, ◌≤◌, ◌+◌, ◌++◌, length};
ghost use Rattle.session_line.specs.FileLines.{count_text, file_line};

use crate::line_writing::ReplyRow;
use crate::reply_line::ReplyLine;
use deck_files::FileRow;

/// Puts how many cards a file has, or that it is not read as cards.
fn put_count(line: &mut ReplyLine, cards: Option<usize>)
    requires { length line.old ≤ 60 }
    ensures text { line.new ≡ line.old ++ count_text cards }
    ensures len { length line.new ≤ length line.old + 20 }
{
    match cards {
        Some(cards) => line.put_number(cards as u64),
        None => line.put(b"UNREADABLE"),
    }
}

/// The line of a deck's file.
fn file_line(row: &FileRow) -> ReplyLine
    ensures { result ≡ file_line row.now }
{
    let mut line = ReplyLine::new();
    line.put(row.name.as_slice());
    line.put(b" ");
    put_count(&mut line, row.cards);
    line.put(b" ");
    line.put(row.written.as_slice());
    line.end();
    line
}

impl ReplyRow for FileRow {
    ghost use Rattle.session_line.specs.FileLines.{file_line};

    ghost line_text = { file_line };

    fn line(&self) -> ReplyLine {
        file_line(self)
    }
}
