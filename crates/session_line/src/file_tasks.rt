//! Asks for the files of decks.
ghost use Rattle.std.specs.Prelude.{◌≡◌};
ghost use Rattle.session_line.specs.Answers.{IsTellable};
ghost use Rattle.session_line.specs.FileTasks.{ShowsFiles, TellsFiles};

use crate::answers::{Answer, Told, told_of_wait};
use crate::calls::Calls;
use crate::executing::called;
use crate::reasons::load_reason;
use deck_files::Shelf;
use desk_core::{Listed, Question};

/// One call of the shelf for its files, which are shown with this version.
fn tell_files<S: Shelf>(shelf: &mut S, version: u64) -> Answer
    ensures tells { TellsFiles S.relations version shelf.old shelf.new result }
    ensures fits { IsTellable result.told }
{
    match shelf.list() {
        Ok(rows) => called(Told::Files(version, Listed::new(rows))),
        Err(fault) => called(Told::Refused(load_reason(fault))),
    }
}

/// The desk is asked for its version, and then the shelf for its files.
pub(crate) fn show_files<C: Calls, S: Shelf>(desk: &mut C, shelf: &mut S) -> Answer
    ensures shows { ShowsFiles C.relations.asks S.relations desk.old desk.new shelf.old shelf.new result }
    ensures fits { IsTellable result.told }
{
    match told_of_wait(desk.ask(Question::Status)) {
        Told::Standing(version, _) => tell_files(shelf, version),
        told => called(told),
    }
}
