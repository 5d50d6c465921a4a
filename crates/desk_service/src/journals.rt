//! The journal of a service: the sessions hand their records in, and one of them writes for all that wait.
//!
//! | Who | What |
//! |---|---|
//! | a session whose change was made | puts its record into the queue; writes where the next record is there and nobody writes, and else sleeps |
//! | who writes | takes a copy of all records that may go out, or without memory for them of the first, leaves the queue to others, writes and syncs once, and wakes those who wait |
//! | a session that wants to change | is refused where a record was given up, unless that can be written now |
//!
//! That records can't be written is reported on standard error once, and once that they can be again. Locks show
//! contracts nothing of what they hold, so a session looks whether what was kept is its own record before it
//! says so.
ghost use Rattle.std.specs.Prelude.{◌≡◌, true, false, is_none, IfOk, IsSomeAnd};
ghost use Rattle.journal.specs.JournalFiles.{IsKeptAs};
ghost use Rattle.desk_service.specs.SessionEnds.{IsMadeUp, news_of, queue_behind};

use journal::{Draft, JournalFile, KeptBatch, Queue, RecordText, RecordsFile};
use std::alloc::{AllocError, Global};
use std::marker::Model;
use std::sync::{Condvar, Mutex, MutexGuard, Wait};

/// What is reported of a journal on standard error.
#[derive(Clone, Copy)]
enum News {
    /// It can't be written, as it could before.
    Fails,
    /// It can be written again.
    GoesOn,
}

/// What is shown behind a write, by whether the one before failed, and whether this one did.
fn news_of(failed: bool, fails: bool) -> Option<News>
    ensures { result ≡ news_of failed fails }
{
    match (failed, fails) {
        (false, true) => Some(News::Fails),
        (true, false) => Some(News::GoesOn),
        _ => None,
    }
}

/// Reports it.
fn tell_news<R: Eprint>(rt: &R, news: News) {
    let _ = match news {
        News::Fails => eprintln!(rt;
            "compass: the journal can't be written, as on a full disk; changes are answered UNKEPT, or refused as NotKept, until it can"
        ),
        News::GoesOn => eprintln!(rt;
            "compass: the journal can be written again; all changes up to now are kept"
        ),
    };
}

/// What the sessions share.
#[derive(Drop)]
struct Shared<F: RecordsFile> {
    queue: Queue<F>,
    /// Somebody writes.
    writing: bool,
    /// The last write failed.
    fails: bool,
}

impl<F: RecordsFile> Shared<F> {
    /// Notes what a write kept, if it kept anything: what is told of that. What waits is given up only where
    /// nothing was kept; nobody writes any more.
    fn settle(&mut self, kept: Option<KeptBatch<F>>) -> Option<News>
        ensures queue { self.new.queue ≡ queue_behind kept self.old.queue }
        ensures writing { self.new.writing ≡ false }
        ensures fails { self.new.fails ≡ is_none kept }
        ensures news { result ≡ news_of self.old.fails (is_none kept) }
    {
        let fails = kept.is_none();
        let news = news_of(self.fails, fails);
        self.fails = fails;
        self.writing = false;
        match kept {
            Some(kept) => self.queue.settle(kept),
            None => self.queue.give_up(),
        }
        news
    }

    /// Whether it is shown that the record of a session is kept, of this version and with this text, if there
    /// is one.
    fn shows(&self, session: usize, version: u64, text: &Option<RecordText>) -> bool
        ensures { result ≡ true → IsSomeAnd text.now (λ text. IsKeptAs F.has_done version text) }
    {
        match text {
            Some(text) => self.queue.shows(session, version, text),
            None => false,
        }
    }

    /// Whether a change may be made: no record was given up, and that of this version is kept, if there is
    /// one.
    fn may_change(&self, missed: Option<u64>) -> bool
        ensures { result ≡ true → IsMadeUp F.has_done missed }
    {
        if self.queue.has_given_up() {
            return false;
        }
        match missed {
            Some(version) => self.queue.is_kept(version),
            None => true,
        }
    }
}

/// The journal of a service. Contracts see how many sessions have a place in it.
#[derive(Drop)]
pub struct Journal<F: RecordsFile> {
    alloc: Global,
    places: usize,
    shared: Mutex<Shared<F>>,
    file: Mutex<JournalFile<F>>,
    /// Something was written, or could not be.
    told: Condvar,
}

impl<F: RecordsFile> Model for Journal<F> {
    ghost use Rattle.std.specs.Prelude.{ℕ};

    ghost Value = { ℕ };

    ghost view = { λ j. j.places };
}

impl<F: RecordsFile + Drop> Journal<F> {
    /// A journal for so many sessions, which goes on in this file.
    pub fn new(
        alloc: Global,
        file: JournalFile<F>,
        sessions: usize,
    ) -> Result<Journal<F>, AllocError>
        ensures { IfOk result (λ journal. journal ≡ sessions) }
    {
        Ok(Journal {
            alloc,
            places: sessions,
            shared: Mutex::new(Shared {
                queue: Queue::new(alloc, sessions, file.kept())?,
                writing: false,
                fails: false,
            }),
            file: Mutex::new(file),
            told: Condvar::new(),
        })
    }

    /// Writes what may go out of the queue, or the next record alone where there is no memory for all; wakes those
    /// who wait, and then reports what is news of the journal: nobody waits for standard error but this one.
    fn write<'a, R: Wait + Eprint>(
        &'a self,
        rt: &R,
        mut shared: MutexGuard<'a, Shared<F>>,
    ) -> MutexGuard<'a, Shared<F>> {
        shared.writing = true;
        let batch = match shared.queue.batch(self.alloc) {
            Ok(batch) => Ok(batch),
            Err(_) => shared.queue.next_alone(self.alloc),
        };
        drop(shared);
        let kept = match batch {
            Ok(batch) => self.file.lock(rt).append(batch),
            Err(_) => None,
        };
        let mut shared = self.shared.lock(rt);
        let news = shared.settle(kept);
        self.told.notify_all();
        let Some(news) = news else {
            return shared;
        };
        drop(shared);
        tell_news(rt, news);
        self.shared.lock(rt)
    }

    /// Whether a change may be made: no record was given up, or all such are kept now, that of this version
    /// among them.
    pub(crate) fn may_change<R: Wait + Eprint>(&self, rt: &R, missed: Option<u64>) -> bool
        ensures { result ≡ true → IsMadeUp F.has_done missed }
    {
        let mut shared = self.shared.lock(rt);
        for _ in rt.forever() {
            if shared.may_change(missed) {
                return true;
            }
            if shared.writing {
                shared = self.told.wait(rt, shared);
                continue;
            }
            shared = self.write(rt, shared);
            if shared.fails || !shared.queue.has_next() {
                return shared.may_change(missed);
            }
        }
        false
    }

    /// Waits until the record of a version is kept, or was given up; writes where it is the next and nobody
    /// writes.
    fn await_written<'a, R: Wait + Eprint>(
        &'a self,
        rt: &R,
        mut shared: MutexGuard<'a, Shared<F>>,
        version: u64,
    ) -> MutexGuard<'a, Shared<F>> {
        for _ in rt.forever() {
            if shared.queue.is_kept(version) || shared.queue.is_given_up(version) {
                return shared;
            }
            shared = if !shared.writing && shared.queue.has_next() {
                self.write(rt, shared)
            } else {
                self.told.wait(rt, shared)
            };
        }
        shared
    }

    /// Keeps the record of a session: whether it is kept, and no other in its place, with all before it.
    pub(crate) fn keep<R: Wait + Eprint>(
        &self,
        rt: &R,
        session: usize,
        version: u64,
        draft: Draft,
    ) -> bool
        ensures { result ≡ true → IsKeptAs F.has_done version draft }
    {
        let (draft, text) = draft.with_text(self.alloc);
        let mut shared = self.shared.lock(rt);
        shared.queue.put(session, version, draft);
        let shared = self.await_written(rt, shared, version);
        shared.shows(session, version, &text)
    }
}
