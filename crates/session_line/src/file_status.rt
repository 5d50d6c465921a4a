//! Asks which decks have their cards in their files.
ghost use Rattle.std.specs.Prelude.{◌≡◌, ◌≤◌, length, IfOk, OnErr};
ghost use Rattle.session_line.specs.Answers.{IsTellable, most_decks};
ghost use Rattle.session_line.specs.FileStatus.{MarksRows, ShowsFileStatus, TellsMarks};

use crate::answers::{Answer, Told, told_of_call};
use crate::calls::Calls;
use crate::executing::called;
use crate::marked_rows::{MarkedRow, marked};
use deck_files::Shelf;
use desk_core::{Listed, Question, Row};
use session_commands::Refusal;
use std::alloc::{AllocError, Global};

/// The rows of decks, with whether the shelf shows that the file of each has its cards. The memory for them is
/// there before the shelf is asked.
fn mark_rows<S: Shelf>(
    alloc: Global,
    shelf: &mut S,
    rows: &[Row],
) -> Result<Vec<MarkedRow>, AllocError>
    ensures marks { IfOk result (λ marks. MarksRows S.relations shelf.old rows.now marks.items shelf.new) }
    ensures len { IfOk result (λ marks. length marks.items ≡ length rows.now) }
    ensures lacking { OnErr result (shelf.new ≡ shelf.old) }
{
    let mut marks = Vec::with_capacity(alloc, rows.len())?;
    for row in rows {
        let saved = shelf.is_saved(&row.name, row.version);
        marks.push_reserved(marked(row, saved));
    }
    Ok(marks)
}

/// A status of these decks, each with whether its file has its cards.
fn tell_marks<S: Shelf>(
    alloc: Global,
    shelf: &mut S,
    version: u64,
    published: Option<u64>,
    rows: &[Row],
) -> Answer
    requires { length rows.now ≤ most_decks }
    ensures tells { TellsMarks S.relations version published rows.now shelf.old shelf.new result }
    ensures fits { IsTellable result.told }
{
    match mark_rows(alloc, shelf, rows) {
        Ok(marks) => called(Told::FileStatus(version, published, Listed::new(marks))),
        Err(_) => called(Told::Refused(Refusal::OutOfMemory)),
    }
}

/// The desk is asked for its status, and then the shelf, deck by deck, whether its file has its cards.
pub(crate) fn show_file_status<C: Calls, S: Shelf>(
    alloc: Global,
    desk: &mut C,
    shelf: &mut S,
) -> Answer
    ensures shows { ShowsFileStatus C.relations.asks S.relations desk.old desk.new shelf.old shelf.new result }
    ensures fits { IsTellable result.told }
{
    match told_of_call(desk.ask(Question::Status)) {
        Told::Status(version, published, rows) => {
            tell_marks(alloc, shelf, version, published, rows.as_slice())
        }
        told => called(told),
    }
}
