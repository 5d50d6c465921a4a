//! The file of a journal: records are appended in the order of their versions, all of a text or none.
ghost use Rattle.std.specs.Prelude.{◌≡◌, true, false, IfNone, IfSome, if◌then◌else◌};
ghost use Rattle.journal.specs.JournalFiles.{AreKeptAs, CutTo, CutsLast, IsCutBack, IsLeft, IsRun, TakesSome, TakesStep, WritesAndNotes};

use crate::kept_records::{KeptBatch, KeptRecords};
use crate::marks::Mark;
use crate::queue::Batch;
use crate::record_texts::RecordText;
use crate::records_file::RecordsFile;
use std::marker::Model;

/// The file of a journal, which is written at its end alone: the mark of the whole records that it was
/// opened with, and of those that it has; the version of its first record behind the former, and of the one
/// that comes next; and whether it has no other bytes. By the steps that it took since it was opened, it has
/// kept the records of these versions, and noted that.
#[derive(Drop)]
pub struct JournalFile<F: RecordsFile> {
    file: F,
    begun: Mark,
    has: Mark,
    first: u64,
    next: u64,
    clean: bool,
}

impl<F: RecordsFile> Model for JournalFile<F> {
    ghost use Rattle.journal.specs.JournalFiles as files;

    ghost Value = { files.JournalFile F };

    ghost view = { λ j. record { file = j.file; begun = j.begun; has = j.has; first = j.first; next = j.next; clean = j.clean } };

    ghost invariant = { λ j. files.HasRecords F.has_done (record { file = j.file; begun = j.begun; has = j.has; first = j.first; next = j.next; clean = j.clean }) };
}

/// Writes bytes, waits until the file has kept them, and notes how much it has then: whether all is done.
fn write_and_note<F: RecordsFile>(file: &mut F, bytes: &[u8], mark: Mark) -> bool
    ensures { WritesAndNotes F.has_done bytes.now mark result file.old file.new }
{
    if !file.append(bytes) {
        return false;
    }
    if !file.sync() {
        return false;
    }
    file.note(mark)
}

impl<F: RecordsFile> JournalFile<F> {
    /// A file whose whole records have this mark, and that has maybe others behind them; the record of this
    /// version comes next.
    pub fn new(file: F, begun: Mark, next: u64) -> JournalFile<F>
        ensures { result ≡ record { file = file; begun = begun; has = begun; first = next; next = next; clean = false } }
    {
        JournalFile {
            file,
            begun,
            has: begun,
            first: next,
            next,
            clean: false,
        }
    }

    /// Which records it has kept since it was opened.
    pub fn kept(&self) -> KeptRecords<F>
        ensures { result ≡ record { first = self.now.first; next = self.now.next } }
    {
        KeptRecords::new(self.first, self.next)
    }

    /// Cuts off what stands behind the whole records: whether nothing does.
    fn cut_back(&mut self) -> bool
        ensures same { self.new ≡ record self.old { file = self.new.file; clean = result } }
        ensures step { TakesStep F.has_done self.old.file (CutTo self.old.has.length, result) self.new.file }
    {
        self.clean = self.file.cut_to(self.has.length);
        self.clean
    }

    /// Cuts off what stands behind the whole records, where anything may: whether nothing does.
    fn make_clean(&mut self) -> bool
        ensures same { self.new ≡ record self.old { file = self.new.file; clean = result } }
        ensures steps { TakesSome F.has_done self.old.file self.new.file }
        ensures cut { result ≡ false → CutsLast F.has_done self.old.has.length result self.old.file self.new.file }
    {
        if self.clean {
            return true;
        }
        self.cut_back()
    }

    /// Writes the text of these records behind the whole ones, where nothing else stands: whether it is kept.
    fn write(&mut self, text: &[u8], drafts: &[RecordText], next: u64) -> bool
        requires clean { self.old.clean ≡ true }
        requires run { IsRun self.old.next drafts.now text.now next }
        ensures begun { self.new.begun ≡ self.old.begun }
        ensures first { self.new.first ≡ self.old.first }
        ensures next { self.new.next ≡ (if result then next else self.old.next) }
        ensures clean { result ≡ true → self.new.clean ≡ true }
        ensures same { result ≡ false → self.new ≡ record self.old { file = self.new.file; clean = self.new.clean } }
        ensures steps { TakesSome F.has_done self.old.file self.new.file }
        ensures kept { result ≡ true → AreKeptAs F.has_done self.new.first self.new.next self.old.next drafts.now }
    {
        let Some(has) = self.has.behind(text) else {
            return false;
        };
        if !write_and_note(&mut self.file, text, has) {
            self.clean = false;
            return false;
        }
        self.has = has;
        self.next = next;
        true
    }

    /// Writes the text of these records behind the whole ones: whether it is kept. Where it is not, what was
    /// written of it is cut off again, now or before the next text.
    fn put(&mut self, text: &[u8], drafts: &[RecordText], next: u64) -> bool
        requires { IsRun self.old.next drafts.now text.now next }
        ensures begun { self.new.begun ≡ self.old.begun }
        ensures first { self.new.first ≡ self.old.first }
        ensures next { self.new.next ≡ (if result then next else self.old.next) }
        ensures clean { result ≡ true → self.new.clean ≡ true }
        ensures left { result ≡ false → IsCutBack F.has_done self.old self.new }
        ensures kept { result ≡ true → AreKeptAs F.has_done self.new.first self.new.next self.old.next drafts.now }
    {
        if !self.make_clean() {
            return false;
        }
        if self.write(text, drafts, next) {
            return true;
        }
        self.cut_back();
        false
    }

    /// Cuts off what stands behind the whole records, waits until these are kept, and notes them: whether all
    /// is done.
    pub fn begin(&mut self) -> bool
        ensures begun { self.new.begun ≡ self.old.begun }
        ensures first { self.new.first ≡ self.old.first }
        ensures next { self.new.next ≡ self.old.next }
        ensures clean { result ≡ true → self.new.clean ≡ true }
    {
        let next = self.next;
        self.put(b"", &[], next)
    }

    /// Appends records that begin with the one that comes next; where there are none, that is all.
    fn put_batch(&mut self, batch: &Batch) -> bool
        requires { batch.now.first ≡ self.old.next }
        ensures begun { self.new.begun ≡ self.old.begun }
        ensures first { self.new.first ≡ self.old.first }
        ensures next { self.new.next ≡ (if result then batch.now.next else self.old.next) }
        ensures left { result ≡ false → IsCutBack F.has_done self.old self.new }
        ensures kept { result ≡ true → AreKeptAs F.has_done self.new.first self.new.next self.old.next batch.now.drafts }
    {
        if batch.next == self.next {
            return true;
        }
        self.put(batch.text.as_slice(), batch.drafts.as_slice(), batch.next)
    }

    /// Appends records, where they begin with the one that comes next: what is kept then, these among them.
    /// Where they are not kept there is nothing, and what was written of them is cut off again, now or before
    /// the next text.
    pub fn append(&mut self, batch: Batch) -> Option<KeptBatch<F>>
        ensures begun { self.new.begun ≡ self.old.begun }
        ensures first { self.new.first ≡ self.old.first }
        ensures kept { IfSome result (λ kept. (kept ≡ record { first = self.old.first; next = batch.next; from = batch.first; drafts = batch.drafts }) × (self.new.next ≡ batch.next)) }
        ensures none { IfNone result (self.new.next ≡ self.old.next) }
        ensures left { IfNone result (IsLeft F.has_done batch.first self.old self.new) }
    {
        if batch.first != self.next {
            return None;
        }
        if self.put_batch(&batch) {
            Some(KeptBatch::new(self.kept(), batch.first, batch.into_drafts()))
        } else {
            None
        }
    }
}
