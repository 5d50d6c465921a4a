//! What a start may rest on, each law as the contract of a function that does nothing.
ghost use Rattle.std.specs.Prelude.{◌≡◌, ◌++◌, ◌<◌, ℕ, List, All, length, take};
ghost use Rattle.desk_core.specs.declared.calls.Change.{Change as Asked};
ghost use Rattle.journal.specs.declared.records.Entry.TheVariants.{Made};
ghost use Rattle.journal.specs.declared.records.Record.{Record};
ghost use Rattle.journal.specs.declared.places.Ending.TheVariants.{Whole, Cut};
ghost use Rattle.journal.specs.Lawful.{IsLawful};
ghost use Rattle.journal.specs.Places.{capped};
ghost use Rattle.journal.specs.Records.{text_behind_version, text_of_record, text_of_records, text_with_version};
ghost use Rattle.journal.specs.Journals.{journal_of};

/// What is written of lawful records reads back as the same records: each change of each kind, with
/// all its cards. Of edits that were carried, and of an undo, the batch that was made is the record.
pub fn records_read_back()
    ensures { (records : List Record) → All IsLawful records →
        journal_of (text_of_records records) ≡ record { records = records; ending = Whole } }
{}

/// What goes into the file for a change, its text with a version in front, is the text of the record that shows
/// this change with this version: so it reads back.
pub fn drafts_are_records()
    ensures { (version : ℕ) (moment by : List ℕ) (change : Asked) →
        text_with_version version (text_behind_version moment by change) ≡ text_of_record (record { version = version; moment = moment; by = by; entry = Made change }) }
{}

/// A journal that is cut at any byte inside its last record reads as the records before it, and shows
/// at which byte the cut one begins.
pub fn cut_records_are_left_out()
    ensures { (records : List Record) (last : Record) (kept : ℕ) → All IsLawful records → IsLawful last →
        0 < kept → kept < length (text_of_record last) →
        journal_of (text_of_records records ++ take kept (text_of_record last)) ≡ record { records = records; ending = Cut (capped (length (text_of_records records))) } }
{}
