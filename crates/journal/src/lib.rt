//! The journal of a desk: the records of its accepted changes as text, with their check sums; a journal
//! read back, record by record; and its changes made again. Nothing here opens a file.
//!
//! A record shows its version, when it was made, the session, and the line that asked for the change;
//! a line behind a blank for each card or edit that belongs to it; and the check sum of these lines:
//!
//! ```text
//! RECORD 4 2026-11-24T10:45:13Z 2 BATCH M 3 2
//!  DEL 1
//!  REP 1 *Z
//! SUM 3248616115
//! ```
//!
//! A deck that was loaded is shown by `ADD` with its cards, and edits that were carried by the batch that was made. A journal may begin with `BEGIN`: its desk
//! goes on behind the version of this record, so its first change makes the next one. The last record
//! may be cut or damaged: it is left out, and the byte is reported at which it begins. Any other fault ends
//! the reading, and reports the record and its byte.
#![tactic(auto)]

// What a record has.
mod check_sums;
mod names;
mod records;

// Records as text.
mod drafted;
mod drafts;
mod record_texts;
mod shared_text;
mod writing;

// Changes that are kept: their records go out to a file.
mod journal_file;
mod kept_records;
mod marks;
mod queue;
mod records_file;

// Records of a text.
mod beginning;
mod places;
mod reading;
mod steps;

// The changes of records made again, and what stands for them.
mod compacting;
mod replaying;

// What a start may rest on.
mod laws;

pub use compacting::compacted_text;
pub use drafted::{Drafted, draft_change, draft_nothing};
pub use drafts::{Draft, Stamp, draft_carried};
pub use journal_file::JournalFile;
pub use kept_records::{KeptBatch, KeptRecords};
pub use laws::{cut_records_are_left_out, drafts_are_records, records_read_back};
pub use marks::{Mark, kept_length, mark_of_front};
pub use names::session_name;
pub use places::{Ending, Place};
pub use queue::{Batch, Queue};
pub use reading::{JournalFault, Next, next_record};
pub use record_texts::RecordText;
pub use records::{Entry, Record};
pub use records_file::RecordsFile;
pub use replaying::{ReplayFault, Replayed, replay};
pub use writing::{log_line, record_text};
