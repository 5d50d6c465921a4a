//! Records that are not written yet: they go out in the order of their versions, and none is left out.
ghost use Rattle.std.specs.Prelude.{◌≡◌, ◌+◌, ◌<◌, ◌≤◌, ◌^◌, ◌⊎◌, All, IfOk, IfSome, None, OnErr, OnOk, Some, ◌++◌, ◌∷◌, [], true, false, is_some, length, max, nat_lt, option_map, position, set, slice_get};
ghost use Rattle.journal.specs.JournalFiles.{IsKept, IsKeptAs, IsRun};
ghost use Rattle.journal.specs.RecordTexts.{IsLong};
ghost use Rattle.journal.specs.Records.{text_with_version};
ghost use Rattle.smallvec.specs.SmallVec.{HasRoomFor};
ghost use Rattle.journal.specs.Queues.{GoOut, InOrder, all_shown, draft_of, draft_queued, is_at, is_shown, shown_at, unwritten};

use crate::drafts::Draft;
use crate::kept_records::{KeptBatch, KeptRecord, KeptRecords};
use crate::record_texts::{RecordText, Writing};
use crate::records_file::RecordsFile;
use crate::writing::push_with_version;
use smallvec::SmallVec;
use std::alloc::{AllocError, Global};
use std::marker::Model;

/// A record that is not written yet.
#[derive(Drop)]
pub struct Unwritten {
    pub version: u64,
    pub draft: Draft,
}

/// The records of accepted changes that are not written yet. Each session has one place, whose record
/// stays until the next one of the session takes it, and beside it what shows that the latest is kept. The
/// records behind those that are kept are to be written; those below `told` that are not kept were given up,
/// and their sessions answered so; `behind` is above all versions that were put here.
#[derive(Drop)]
pub struct Queue<F: RecordsFile> {
    kept: KeptRecords<F>,
    told: u64,
    behind: u64,
    places: Vec<Option<Unwritten>>,
    shown: Vec<Option<KeptRecord<F>>>,
}

impl<F: RecordsFile> Model for Queue<F> {
    ghost use Rattle.journal.specs.Queues as queues;

    ghost Value = { queues.Queue };

    ghost view = { λ q. record { first = q.kept.first; next = q.kept.next; told = q.told; behind = q.behind; places = q.places.items; shown = q.shown.items } };
}

/// The text of the records from a version on, one version after the other, and the version behind the last
/// of them.
#[derive(Drop)]
pub struct Batch {
    pub text: RecordText,
    pub first: u64,
    pub next: u64,
    pub(crate) drafts: SmallVec<RecordText, 1>,
}

impl Model for Batch {
    ghost use Rattle.journal.specs.JournalFiles as files;
    ghost use Rattle.journal.specs.Queues as queues;

    ghost Value = { queues.Batch };

    ghost view = { λ b. record { text = b.text; first = b.first; next = b.next; drafts = b.drafts.items } };

    ghost invariant = { λ b. files.IsRun b.first b.drafts.items b.text b.next };
}

impl Batch {
    fn new(text: RecordText, first: u64, next: u64, drafts: SmallVec<RecordText, 1>) -> Batch
        requires { IsRun first drafts.items text next }
        ensures { result ≡ record { text = text; first = first; next = next; drafts = drafts.items } }
    {
        Batch {
            text,
            first,
            next,
            drafts,
        }
    }

    /// The records.
    pub(crate) fn into_drafts(self) -> SmallVec<RecordText, 1>
        ensures { result.items ≡ self.drafts }
    {
        self.drafts
    }
}

/// The record of a place, if it is the one of a version.
fn draft_of(place: &Option<Unwritten>, version: u64) -> Option<&Draft>
    ensures { option_map (λ draft. draft.now) result ≡ draft_of version place.now }
{
    match place {
        Some(unwritten) if unwritten.version == version => Some(&unwritten.draft),
        _ => None,
    }
}

/// The record of a version.
fn draft_queued(places: &[Option<Unwritten>], version: u64) -> Option<&Draft>
    ensures { option_map (λ draft. draft.now) result ≡ draft_queued version places.now }
{
    for place in places {
        if let Some(draft) = draft_of(place, version) {
            return Some(draft);
        }
    }
    None
}

/// Puts the record of a version to those that go out.
fn take_record(
    alloc: Global,
    text: &mut Writing,
    drafts: &mut SmallVec<RecordText, 1>,
    version: u64,
    draft: &Draft,
) -> Result<(), AllocError>
    ensures text { OnOk result (text.new ≡ text.old ++ text_with_version version draft.now) }
    ensures drafts { OnOk result (drafts.new.items ≡ drafts.old.items ++ draft.now ∷ []) }
    ensures memory { HasRoomFor drafts.old 1 → OnErr result (IsLong draft.now) }
{
    let draft = draft.text(alloc)?;
    push_with_version(text, version, draft.as_slice());
    Ok(drafts.push(draft)?)
}

/// What goes out from a version on.
fn batch_from(alloc: Global, places: &[Option<Unwritten>], first: u64) -> Result<Batch, AllocError>
    ensures first { IfOk result (λ batch. batch.first ≡ first) }
    ensures out { IfOk result (λ batch. GoOut places.now first batch.drafts batch.text batch.next) }
    ensures order { IfOk result (λ batch. InOrder places.now first batch.drafts batch.text batch.next) }
{
    let (mut text, mut drafts) = (Writing::new(alloc), SmallVec::new(alloc));
    for version in first..u64::MAX {
        let Some(draft) = draft_queued(places, version) else {
            return Ok(Batch::new(text.finish()?, first, version, drafts));
        };
        take_record(alloc, &mut text, &mut drafts, version, draft)?;
    }
    Err(AllocError)
}

/// The record of a version, which goes out alone.
fn batch_of(alloc: Global, places: &[Option<Unwritten>], version: u64) -> Result<Batch, AllocError>
    requires { version + 1 < 2 ^ 64 }
    ensures first { IfOk result (λ batch. batch.first ≡ version) }
    ensures out { IfOk result (λ batch. GoOut places.now version batch.drafts batch.text batch.next) }
    ensures one { IfOk result (λ batch. batch.next ≡ version + 1) }
    ensures memory { OnErr result (IfSome (draft_queued version places.now) (λ draft. IsLong draft)) }
{
    let Some(draft) = draft_queued(places, version) else {
        return Err(AllocError);
    };
    let (mut text, mut drafts) = (Writing::new(alloc), SmallVec::new(alloc));
    take_record(alloc, &mut text, &mut drafts, version, draft)?;
    Ok(Batch::new(text.finish()?, version, version + 1, drafts))
}

/// Whether the record of a place is the one of a version.
fn is_at(place: &Option<Unwritten>, version: u64) -> bool
    ensures { result ≡ is_at version place.now }
{
    match place {
        Some(unwritten) => unwritten.version == version,
        None => false,
    }
}

/// The number of the place that has the record of a version.
fn place_of(places: &[Option<Unwritten>], version: u64) -> Option<usize>
    ensures { result ≡ position (is_at version) places.now }
{
    places.iter().position(|place| is_at(place, version))
}

/// Puts what shows that a record is kept to a place, if there is one.
fn show_at<F: RecordsFile>(
    shown: &mut Vec<Option<KeptRecord<F>>>,
    place: Option<usize>,
    one: KeptRecord<F>,
)
    ensures { shown.new.items ≡ shown_at place one shown.old.items }
{
    let Some(place) = place else {
        return;
    };
    if let Some(shown) = shown.get_mut(place) {
        *shown = Some(one);
    }
}

/// Puts what shows that the records of a batch are kept to the places that have them.
fn show_all<F: RecordsFile>(
    shown: &mut Vec<Option<KeptRecord<F>>>,
    places: &[Option<Unwritten>],
    kept: KeptBatch<F>,
)
    ensures { shown.new.items ≡ all_shown places.now kept.from kept.drafts shown.old.items }
{
    let mut version = kept.records.next();
    let mut drafts = kept.drafts;
    while let Some(draft) = drafts.pop() {
        version = version.saturating_sub(1);
        let place = place_of(places, version);
        show_at(shown, place, KeptRecord::new(version, draft));
    }
}

impl<F: RecordsFile> Queue<F> {
    /// A queue for so many sessions, each with a place, of the records behind those that are kept.
    pub fn new(alloc: Global, sessions: usize, kept: KeptRecords<F>) -> Result<Queue<F>, AllocError>
        ensures first { IfOk result (λ queue. queue.first ≡ kept.first) }
        ensures next { IfOk result (λ queue. queue.next ≡ kept.next) }
        ensures none { IfOk result (λ queue. nat_lt queue.next queue.told ≡ false) }
        ensures places { IfOk result (λ queue. length queue.places ≡ sessions) }
        ensures empty { IfOk result (λ queue. All (λ place. place ≡ None) queue.places) }
        ensures shown { IfOk result (λ queue. length queue.shown ≡ sessions) }
    {
        let (mut places, mut shown) = (Vec::new(alloc), Vec::new(alloc));
        for _ in 0..sessions {
            places.push(None)?;
            shown.push(None)?;
        }
        let next = kept.next();
        Ok(Queue {
            kept,
            told: next,
            behind: next,
            places,
            shown,
        })
    }

    /// Puts the record of a change into the place of its session, whose last one is written.
    pub fn put(&mut self, session: usize, version: u64, draft: Draft)
        ensures first { self.new.first ≡ self.old.first }
        ensures next { self.new.next ≡ self.old.next }
        ensures told { self.new.told ≡ self.old.told }
        ensures behind { version + 1 < 2 ^ 64 → self.new.behind ≡ max self.old.behind (version + 1) }
        ensures place { self.new.places ≡ set self.old.places session (Some (unwritten version draft)) }
        ensures shown { self.new.shown ≡ self.old.shown }
    {
        self.behind = self.behind.max(version.saturating_add(1));
        if let Some(place) = self.places.get_mut(session) {
            *place = Some(Unwritten { version, draft });
        }
    }

    /// Whether the record that is to be written next is there.
    pub fn has_next(&self) -> bool
        ensures { result ≡ is_some (draft_queued self.now.next self.now.places) }
    {
        draft_queued(self.places.as_slice(), self.kept.next()).is_some()
    }

    /// Whether some record of a version is kept.
    pub fn is_kept(&self, version: u64) -> bool
        ensures kept { result ≡ true → IsKept F.has_done version }
        ensures other { result ≡ false → (version < self.now.first) ⊎ (self.now.next ≤ version) }
    {
        self.kept.has(version)
    }

    /// Whether it is shown that the record of a session is kept, of this version and with this text behind it.
    pub fn shows(&self, session: usize, version: u64, text: &RecordText) -> bool
        ensures is { result ≡ is_shown version text.now (slice_get self.now.shown session) }
        ensures kept { result ≡ true → IsKeptAs F.has_done version text.now }
    {
        match self.shown.get(session) {
            Some(Some(record)) => record.is_of(version, text),
            _ => false,
        }
    }

    /// Whether the record of a version, which is not kept, was given up.
    pub fn is_given_up(&self, version: u64) -> bool
        ensures { result ≡ nat_lt version self.now.told }
    {
        version < self.told
    }

    /// Whether any record that was given up is not kept yet.
    pub fn has_given_up(&self) -> bool
        ensures { result ≡ nat_lt self.now.next self.now.told }
    {
        self.kept.next() < self.told
    }

    /// The records that may be written: from the next version on, in the order of their versions and without
    /// a gap, at whichever places they wait, up to the first that is not there.
    pub fn batch(&self, alloc: Global) -> Result<Batch, AllocError>
        ensures first { IfOk result (λ batch. batch.first ≡ self.now.next) }
        ensures out { IfOk result (λ batch. GoOut self.now.places self.now.next batch.drafts batch.text batch.next) }
        ensures order { IfOk result (λ batch. InOrder self.now.places self.now.next batch.drafts batch.text batch.next) }
    {
        batch_from(alloc, self.places.as_slice(), self.kept.next())
    }

    /// The record that comes next alone. It goes out so where there is no memory for all.
    pub fn next_alone(&self, alloc: Global) -> Result<Batch, AllocError>
        ensures first { IfOk result (λ batch. batch.first ≡ self.now.next) }
        ensures out { IfOk result (λ batch. GoOut self.now.places self.now.next batch.drafts batch.text batch.next) }
        ensures one { IfOk result (λ batch. batch.next ≡ self.now.next + 1) }
        ensures memory { self.now.next + 1 < 2 ^ 64 → OnErr result (IfSome (draft_queued self.now.next self.now.places) (λ draft. IsLong draft)) }
    {
        let version = self.kept.next();
        if version == u64::MAX {
            return Err(AllocError);
        }
        batch_of(alloc, self.places.as_slice(), version)
    }

    /// These records are kept.
    pub fn settle(&mut self, kept: KeptBatch<F>)
        ensures { self.new ≡ record self.old { first = kept.first; next = kept.next; shown = all_shown self.old.places kept.from kept.drafts self.old.shown } }
    {
        self.kept = kept.records.again();
        show_all(&mut self.shown, self.places.as_slice(), kept);
    }

    /// The records could not be written: they stay, and who waits for one is answered so.
    pub fn give_up(&mut self)
        ensures { self.new ≡ record self.old { told = self.old.behind } }
    {
        self.told = self.behind;
    }
}
