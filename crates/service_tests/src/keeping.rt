//! Changes that are kept: in what order records go out, and what is shown where they can't be written.
//!
//! `keep COUNT`: ten changes are made on a disk whose calls fail from each one on in turn, so many of them, or all
//! behind it where that is 0; `queue`: records that are put in another order than that of their versions; `unkept`:
//! a file whose calls all fail.

use cards::Edit;
use desk_core::{Change, Desk, Edits, NewDeck, Refusal, Reply};
use desk_service::{Journal, SessionEnds, SystemFile};
use journal::{
    Batch, Drafted, Ending, JournalFile, Mark, Queue, RecordsFile, Stamp, draft_change, replay,
};
use kept_desk::Door;
use moments::Moment;
use session_commands::Seen;
use session_line::Calls;
use std::alloc::{AllocError, AllocGlobal, Global};
use std::fs::{Metadata, OpenFile};
use std::io;
use std::io::{ErrorKind, Seek, SeekFrom, Write};
use std::sync::{Mutex, Wait};
use std::time::Clock;
use test_parts::{Answer, FaultyReader, card_of, name_of, number};
use text_ports::Counted;

/// Makes a step of this word, if it is one of what is kept, and answers whether it is.
pub fn make<R: AllocGlobal + Wait + Clock + Eprint>(
    rt: &R,
    word: &str,
    rest: &str,
    answer: &mut Answer,
) -> bool {
    let done = match word {
        "keep" => keep(rt, number(rest), answer),
        "queue" => push_queue(rt, answer),
        "unkept" => push_unkept(rt, answer),
        _ => return false,
    };
    answer.keep(done);
    answer.line("");
    true
}

/// What a file of memory has, how often it was called, and which of its calls fail: from one, counted from
/// 1, up to another. Each write, cut and sync counts.
#[derive(Drop)]
struct Disk {
    bytes: Vec<u8>,
    calls: u64,
    fails_from: u64,
    fails_to: u64,
}

/// A file of memory.
#[derive(Drop)]
struct DiskFile<'a, R> {
    rt: &'a R,
    disk: &'a Mutex<Disk>,
}

impl<R: Wait> DiskFile<'_, R> {
    /// Counts a call, which may fail.
    fn count(&self) -> io::Result<()> {
        let mut disk = self.disk.lock(self.rt);
        disk.calls = disk.calls.saturating_add(1);
        if disk.fails_from <= disk.calls && disk.calls < disk.fails_to {
            return Err(io::Error::from(ErrorKind::Other));
        }
        Ok(())
    }
}

impl<R: Wait> Write for DiskFile<'_, R> {
    fn write(&mut self, buf: &[u8]) -> io::Result<usize> {
        let count = buf.len().min(9);
        self.disk
            .lock(self.rt)
            .bytes
            .extend_from_slice(buf.split_at(count).0)?;
        self.count()?;
        Ok(count)
    }

    fn flush(&mut self) -> io::Result<()> {
        Ok(())
    }
}

impl<R: Wait> Seek for DiskFile<'_, R> {
    fn seek(&mut self, _to: SeekFrom) -> io::Result<u64> {
        Err(io::Error::from(ErrorKind::Unsupported))
    }
}

impl<R: Wait> OpenFile for DiskFile<'_, R> {
    fn metadata(&self) -> io::Result<Metadata> {
        Err(io::Error::from(ErrorKind::Unsupported))
    }

    fn set_len(&self, size: u64) -> io::Result<()> {
        self.count()?;
        self.disk.lock(self.rt).bytes.truncate(size as usize);
        Ok(())
    }

    fn sync_all(&self) -> io::Result<()> {
        self.count()
    }

    fn sync_data(&self) -> io::Result<()> {
        self.count()
    }
}

/// The file of a journal, as a file of the system is one.
impl<R: Wait> RecordsFile for DiskFile<'_, R> {
    ghost use Rattle.std.specs.Prelude.{⊤};

    ghost has_done = { λ _ _. ⊤ };

    fn append(&mut self, bytes: &[u8]) -> bool {
        self.write_all(bytes).is_ok()
    }

    fn sync(&mut self) -> bool {
        self.sync_data().is_ok()
    }

    fn cut_to(&mut self, bytes: u64) -> bool {
        self.set_len(bytes).is_ok()
    }

    fn note(&mut self, _mark: Mark) -> bool {
        self.count().is_ok()
    }
}

/// A disk without bytes whose calls fail from one on, up to another.
fn disk_of(alloc: Global, fails_from: u64, fails_to: u64) -> Mutex<Disk> {
    Mutex::new(Disk {
        bytes: Vec::new(alloc),
        calls: 0,
        fails_from,
        fails_to,
    })
}

/// An edit of deck M that inserts a card in front; the deck first, where nothing was seen.
fn change(alloc: Global, seen: u64) -> Result<Change, AllocError> {
    let name = name_of("M")?;
    if seen == 0 {
        return Ok(Change::AddDeck(NewDeck::new(name, Vec::new(alloc))));
    }
    let card = card_of("*A")?;
    Ok(Change::EditDeck {
        name,
        seen: Seen::Exactly(seen),
        edits: Edits::One(Edit::Insert { at: 1, card }),
    })
}

/// The version that a change left: the one that was seen last, the last that was reported as made, and whether a reply
/// was another than those that are wanted.
#[derive(Clone, Copy)]
struct Versions {
    seen: u64,
    made: u64,
    is_strange: bool,
}

/// What a reply to a change makes of them.
fn behind(versions: &mut Versions, reply: &Reply) {
    match reply {
        Reply::Changed(made) => {
            versions.seen = made.version();
            versions.made = made.version();
        }
        Reply::Refused(Refusal::OldVersion(seen)) => versions.seen = *seen,
        Reply::Refused(Refusal::NameTaken) => versions.seen = 1,
        Reply::Unkept(version) => versions.seen = *version,
        Reply::Refused(Refusal::NotKept) => {}
        _ => versions.is_strange = true,
    }
}

/// Makes ten changes that are kept on a disk, and mends it behind the sixth.
fn make_on_disk<R: Wait + Clock + Eprint>(
    rt: &R,
    alloc: Global,
    disk: &Mutex<Disk>,
) -> Result<Versions, AllocError> {
    let file = JournalFile::new(DiskFile { rt, disk }, Mark::first(), 1);
    let journal = Journal::new(alloc, file, 1)?;
    let ends = SessionEnds::new(rt, alloc, Some(&journal), 0);
    let mut desk = Door::new(rt, Desk::new(alloc), ends);
    let mut versions = Versions {
        seen: 0,
        made: 0,
        is_strange: false,
    };
    for number in 0..10 {
        if number == 6 {
            disk.lock(rt).fails_to = 0;
        }
        let change = change(alloc, versions.seen)?;
        behind(&mut versions, &desk.change(change));
    }
    Ok(versions)
}

/// Whether each change that was reported as made is among these bytes, which are those of whole records.
fn has_kept(alloc: Global, bytes: &[u8], versions: Versions) -> bool {
    let mut input = Counted::new(FaultyReader::new(bytes, 7, 0));
    let made = versions.made;
    match replay(alloc, &mut input, u64::MAX) {
        Ok(again) => {
            let is_whole = again.ending == Some(Ending::Whole) && !versions.is_strange;
            let version = again.desk.version();
            again.desk.free();
            is_whole && 1 <= made && made <= version
        }
        Err(_) => false,
    }
}

/// Makes ten changes on a disk whose calls fail from one on, so many of them: whether what was reported as made is
/// kept, and how often the disk was called.
fn ten_changes<R: Wait + Clock + Eprint>(
    rt: &R,
    alloc: Global,
    fails_from: u64,
    count: u64,
) -> Result<(bool, u64), AllocError> {
    let disk = disk_of(alloc, fails_from, fails_from.saturating_add(count));
    let versions = make_on_disk(rt, alloc, &disk)?;
    let disk = disk.lock(rt);
    Ok((has_kept(alloc, &disk.bytes, versions), disk.calls))
}

fn keep<R: AllocGlobal + Wait + Clock + Eprint>(
    rt: &R,
    count: u64,
    answer: &mut Answer,
) -> Result<(), AllocError> {
    let count = if count == 0 { u64::MAX } else { count };
    let mut calls = u64::MAX;
    let mut are_kept = true;
    for fails_from in 1..1000 {
        if fails_from <= calls {
            let (is_kept, found) = ten_changes(rt, rt.alloc(), fails_from, count)?;
            are_kept &= is_kept;
            calls = found;
        }
    }
    answer.debug(&(are_kept && calls < 1000));
    Ok(())
}

/// Puts the record of a change behind others: the deck M is dropped.
fn put_dropped<F: RecordsFile>(
    alloc: Global,
    queue: &mut Queue<F>,
    session: usize,
    version: u64,
) -> Result<(), AllocError> {
    let (name, by) = (name_of("M")?, name_of("2")?);
    let moment = Moment::of_seconds(0);
    let change = Change::DropDeck { name, seen: 1 };
    let known = draft_change(alloc, Stamp { moment, by }, &change);
    change.free();
    if let Drafted::Whole(draft) = known? {
        queue.put(session, version, draft);
    }
    Ok(())
}

/// Sessions and the versions of their changes, as they are put.
const PUT: [(usize, u64); 3] = [(2, 7), (0, 6), (1, 5)];

/// Puts them all: up to which version a batch of the queue goes before each is put.
fn put_all<F: RecordsFile>(
    alloc: Global,
    queue: &mut Queue<F>,
    answer: &mut Answer,
) -> Result<(), AllocError> {
    for (session, version) in &PUT {
        answer.number("next ", queue.batch(alloc)?.next);
        answer.push(", ");
        put_dropped(alloc, queue, *session, *version)?;
    }
    Ok(())
}

/// What a queue shows of itself and of versions.
fn push_told<F: RecordsFile>(queue: &Queue<F>, answer: &mut Answer) {
    let told = (queue.has_given_up(), queue.is_given_up(7));
    answer.debug(&told);
    let kept = (queue.is_kept(4), queue.is_kept(5), queue.is_kept(7));
    answer.debug(&kept);
}

/// A file takes a batch once, and no second one of the same records, and the queue has kept it then.
fn append_twice<F: RecordsFile>(
    queue: &mut Queue<F>,
    file: &mut JournalFile<F>,
    batch: Batch,
    again: Batch,
    answer: &mut Answer,
) {
    if let Some(kept) = file.append(batch) {
        queue.settle(kept);
    }
    push_told(queue, answer);
    answer.debug(&file.append(again).is_none());
}

/// Fills a queue, which gives up, and whose records are then appended all the same.
fn fill<F: RecordsFile>(
    alloc: Global,
    queue: &mut Queue<F>,
    file: &mut JournalFile<F>,
    answer: &mut Answer,
) -> Result<(), AllocError> {
    put_all(alloc, queue, answer)?;
    let (batch, again) = (queue.batch(alloc)?, queue.batch(alloc)?);
    answer.number("next ", batch.next);
    answer.number(", alone ", queue.next_alone(alloc)?.next);
    queue.give_up();
    push_told(queue, answer);
    append_twice(queue, file, batch, again, answer);
    answer.line("");
    Ok(())
}

/// A queue before a disk, and what the disk has then.
fn push_queue<R: AllocGlobal + Wait>(rt: &R, answer: &mut Answer) -> Result<(), AllocError> {
    let disk = disk_of(rt.alloc(), 0, 0);
    let system = SystemFile::new(DiskFile { rt, disk: &disk });
    let mut file = JournalFile::new(system, Mark::first(), 5);
    let mut queue = Queue::new(rt.alloc(), 3, file.kept())?;
    let done = fill(rt.alloc(), &mut queue, &mut file, answer);
    answer.bytes(&disk.lock(rt).bytes);
    done
}

/// Whether each call of a file that fails is shown.
fn push_unkept<R: AllocGlobal + Wait>(rt: &R, answer: &mut Answer) -> Result<(), AllocError> {
    let disk = disk_of(rt.alloc(), 0, u64::MAX);
    let mut system = SystemFile::new(DiskFile { rt, disk: &disk });
    answer.debug(&(system.append(b"A"), system.sync(), system.cut_to(0)));
    Ok(())
}
