//! What shows that records are kept.
ghost use Rattle.std.specs.Prelude.{◌≡◌, ◌<◌, ◌≤◌, ◌⊎◌, true, false};
ghost use Rattle.journal.specs.JournalFiles.{AreKept, AreKeptAs, IsKept, IsKeptAs};
ghost use Rattle.journal.specs.Queues.{is_record_of};

use crate::record_texts::RecordText;
use crate::records_file::RecordsFile;
use definitions::is_same_text;
use smallvec::SmallVec;
use std::marker::{Model, PhantomData};

/// Shows that the file of a journal has kept the records from the first of these versions on, up to the
/// next one. Only the file itself gives it.
#[derive(Drop)]
pub struct KeptRecords<F: RecordsFile> {
    first: u64,
    next: u64,
    file: PhantomData<F>,
}

impl<F: RecordsFile> Model for KeptRecords<F> {
    ghost use Rattle.journal.specs.JournalFiles as files;

    ghost Value = { files.Versions };

    ghost view = { λ k. record { first = k.first; next = k.next } };

    ghost invariant = { λ k. files.AreKept F.has_done k.first k.next };
}

impl<F: RecordsFile> KeptRecords<F> {
    pub(crate) fn new(first: u64, next: u64) -> KeptRecords<F>
        requires { AreKept F.has_done first next }
        ensures { result ≡ record { first = first; next = next } }
    {
        KeptRecords {
            first,
            next,
            file: PhantomData,
        }
    }

    /// The same once more.
    pub(crate) fn again(&self) -> KeptRecords<F>
        ensures { result ≡ self.now }
    {
        KeptRecords::new(self.first, self.next)
    }

    /// The version behind the last of the records.
    pub fn next(&self) -> u64
        ensures { result ≡ self.now.next }
    {
        self.next
    }

    /// Whether the record of a version is among them.
    pub fn has(&self, version: u64) -> bool
        ensures kept { result ≡ true → IsKept F.has_done version }
        ensures other { result ≡ false → (version < self.now.first) ⊎ (self.now.next ≤ version) }
    {
        self.first <= version && version < self.next
    }
}

/// Shows that the file of a journal has kept these records, the last of those that it has kept. Only the
/// file itself gives it.
#[derive(Drop)]
pub struct KeptBatch<F: RecordsFile> {
    pub(crate) records: KeptRecords<F>,
    pub(crate) from: u64,
    pub(crate) drafts: SmallVec<RecordText, 1>,
}

impl<F: RecordsFile> Model for KeptBatch<F> {
    ghost use Rattle.journal.specs.JournalFiles as files;

    ghost Value = { files.Batch };

    ghost view = { λ k. record { first = k.records.first; next = k.records.next; from = k.from; drafts = k.drafts.items } };

    ghost invariant = { λ k. files.AreKeptAs F.has_done k.records.first k.records.next k.from k.drafts.items };
}

impl<F: RecordsFile> KeptBatch<F> {
    pub(crate) fn new(
        records: KeptRecords<F>,
        from: u64,
        drafts: SmallVec<RecordText, 1>,
    ) -> KeptBatch<F>
        requires { AreKeptAs F.has_done records.first records.next from drafts.items }
        ensures { result ≡ record { first = records.first; next = records.next; from = from; drafts = drafts.items } }
    {
        KeptBatch {
            records,
            from,
            drafts,
        }
    }
}

/// Shows that the file of a journal has kept the record of a version, which has this text behind it. Only
/// the file itself gives it.
#[derive(Drop)]
pub(crate) struct KeptRecord<F: RecordsFile> {
    version: u64,
    draft: RecordText,
    file: PhantomData<F>,
}

impl<F: RecordsFile> Model for KeptRecord<F> {
    ghost use Rattle.journal.specs.JournalFiles as files;
    ghost use Rattle.journal.specs.Queues as queues;

    ghost Value = { queues.Shown };

    ghost view = { λ k. record { version = k.version; draft = k.draft } };

    ghost invariant = { λ k. files.IsKeptAs F.has_done k.version k.draft };
}

impl<F: RecordsFile> KeptRecord<F> {
    pub(crate) fn new(version: u64, draft: RecordText) -> KeptRecord<F>
        requires { IsKeptAs F.has_done version draft }
        ensures { result ≡ record { version = version; draft = draft } }
    {
        KeptRecord {
            version,
            draft,
            file: PhantomData,
        }
    }

    /// Whether it is of this version, and has this text.
    pub(crate) fn is_of(&self, version: u64, text: &RecordText) -> bool
        ensures is { result ≡ is_record_of version text.now self.now }
        ensures kept { result ≡ true → IsKeptAs F.has_done version text.now }
    {
        self.version == version && is_same_text(self.draft.as_slice(), text.as_slice())
    }
}
