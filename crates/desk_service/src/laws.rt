//! What a client may rest on, as the contract of a function that does nothing.
ghost use Rattle.std.specs.Prelude.{ℕ, ◌≡◌, ◌<◌, ◌^◌, ◌++◌, List, Some, length, max, true};
ghost use Rattle.desk_core.specs.declared.calls.Change.{Change};
ghost use Rattle.desk_core.specs.declared.replies.Reply.{Reply};
ghost use Rattle.desk_service.specs.SessionEnds.{IsMadeAndKept, SessionEnds, ends_relations};
ghost use Rattle.desk_service.specs.Versions.{IsMark, mark_in, mark_line, next_bound, seen_of, versions_in, versions_line};
ghost use Rattle.kept_desk.specs.Keeping.{MakesChange, version_told};
ghost use Rattle.journal.specs.declared.marks.Mark.{Mark};

use journal::RecordsFile;
use session_line::Called;

/// Where there is a journal, a change is reported as made with a version only where the desk made it with that
/// version, and the file of the journal has kept the record of just this change, with this version and the name
/// of who asked for it, and all records before it; of edits that are carried, and of an undo, just the edits that the
/// desk made: whatever desk makes the changes, and whatever file has the journal.
pub fn told_changes_are_kept<D: Called, F: RecordsFile>()
    ensures { (old new : D × SessionEnds) (change : Change) (told : Reply) (version : ℕ) → old.1.journaled ≡ true → version_told told ≡ Some version →
        MakesChange D.makes (ends_relations F.has_done) change old.0 old.1 told new.0 new.1 → IsMadeAndKept F.has_done D.makes old.1.name change version old.0 new.0 }
{}

/// What a service writes of the versions of its folder is read back by the next one: each note, and each line
/// with a note behind it, whatever journal it names.
pub fn versions_are_read_back()
    ensures note { (mark : Mark) → IsMark mark → mark_in (mark_line mark) ≡ Some mark }
    ensures text { (bound begun : ℕ) (name : List ℕ) (mark : Mark) → bound < 2 ^ 64 → IsMark mark →
        versions_in (versions_line bound name begun ++ mark_line mark) ≡ Some (seen_of (max bound (next_bound begun)) name (Some mark) (length (versions_line bound name begun))) }
{}
