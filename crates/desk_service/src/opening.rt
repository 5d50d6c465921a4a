//! The desk of a service at its start: new, or as its journal leaves it.
ghost use Rattle.std.specs.Prelude.{◌≡◌, ◌+◌, ◌-◌, ◌^◌, false, min, IfOk, IfSome};

use crate::faults::ServeFault;
use crate::journals::Journal;
use crate::root::{JournalLock, journal_path};
use crate::settings::{Journaling, Settings};
use crate::system_file::SystemFile;
use crate::versions::Seen;
use deck_files::{begin_whole, fill_whole, folder_of, open_led_to, size_limit, sync_folder};
use desk_core::Desk;
use journal::{
    Ending, JournalFile, Mark, Next, Place, RecordsFile, ReplayFault, compacted_text, kept_length,
    mark_of_front, next_record, replay,
};
use moments::Moment;
use std::alloc::Global;
use std::fs;
use std::fs::{File, OpenOptions};
use std::io::{BufReader, ErrorKind};
use std::mem::replace;
use std::rt::Files;
use std::time::Clock;
use text_ports::Counted;

/// What a service begins with: its desk, and the journal that goes on behind it, if it has one.
#[derive(Drop)]
pub(crate) struct Opened<F: RecordsFile> {
    pub(crate) desk: Desk,
    pub(crate) journal: Option<Journal<F>>,
}

impl From<ReplayFault> for ServeFault {
    fn from(fault: ReplayFault) -> ServeFault {
        match fault {
            ReplayFault::ReadFault => ServeFault::NoJournal,
            ReplayFault::OutOfMemory => ServeFault::OutOfMemory,
            ReplayFault::Unmade { number, begin } => ServeFault::BadJournal { number, begin },
        }
    }
}

/// A journal as it is read: the desk that its whole records leave, how it ends, and how many bytes it has.
#[derive(Drop)]
struct Records {
    desk: Desk,
    ending: Ending,
    length: u64,
}

/// What a service goes on with of its journal, which may have been begun anew: the desk that it leaves, and the
/// mark of the whole records that stay; how many bytes it had before, how many of them were kept, and behind
/// which version the service goes on, where the journal is not the latest of its folder.
#[derive(Drop)]
struct Found {
    desk: Desk,
    mark: Mark,
    length: u64,
    kept: u64,
    behind: Option<u64>,
}

/// The file of a journal whose whole records have this mark and leave this desk: the record of the version
/// behind the desk's comes next.
fn file_behind<F: RecordsFile>(file: F, mark: Mark, desk: &Desk) -> JournalFile<F>
    ensures first { result.next ≡ min (desk.now.version + 1) (2 ^ 64 - 1) }
    ensures begun { result.begun ≡ mark }
    ensures clean { result.clean ≡ false }
{
    JournalFile::new(file, mark, desk.version().saturating_add(1))
}

/// Where the journal of a service is, and what its folder has seen of versions.
#[derive(Drop)]
struct Site<'a, R> {
    rt: &'a R,
    alloc: Global,
    settings: &'a Settings<'a>,
    path: &'a str,
    seen: &'a Seen,
}

impl<R: Files<File = File> + Eprint + Clock> Site<'_, R> {
    /// How many bytes the file of the journal has; none where it is not there.
    fn length(&self) -> Result<Option<u64>, ServeFault> {
        match fs::metadata(self.rt, self.path) {
            Ok(about) if about.is_file() => Ok(Some(about.len())),
            Err(error) if error.kind() == ErrorKind::NotFound => Ok(None),
            _ => Err(ServeFault::NoJournal),
        }
    }

    /// A reader of that file.
    fn input(&self) -> Result<Counted<BufReader<R::File>>, ServeFault> {
        let Ok(file) = open_led_to(self.rt, self.path) else {
            return Err(ServeFault::NoJournal);
        };
        match BufReader::new(self.alloc, file) {
            Ok(reader) => Ok(Counted::new(reader)),
            Err(_) => Err(ServeFault::OutOfMemory),
        }
    }

    /// Makes the changes of the journal again. A file that is not there has none.
    fn records(&self) -> Result<Records, ServeFault> {
        let Some(length) = self.length()? else {
            return Ok(Records {
                desk: Desk::new(self.alloc),
                ending: Ending::Whole,
                length: 0,
            });
        };
        let replayed = replay(self.alloc, &mut self.input()?, u64::MAX)?;
        Ok(Records {
            desk: replayed.desk,
            ending: replayed.ending.unwrap_or(Ending::Whole),
            length,
        })
    }

    /// The mark of the first bytes of the journal: so many, or all, where it has fewer.
    fn front(&self, most: u64) -> Result<Mark, ServeFault> {
        if most == 0 {
            return Ok(Mark::first());
        }
        match open_led_to(self.rt, self.path) {
            Ok(mut file) => mark_of_front(&mut file, most).map_err(|_| ServeFault::NoJournal),
            Err(error) if error.kind() == ErrorKind::NotFound => Ok(Mark::first()),
            Err(_) => Err(ServeFault::NoJournal),
        }
    }

    /// Which record of the journal, counted from 1, begins behind the whole ones.
    fn number_behind(&self) -> Result<u64, ServeFault> {
        let mut input = self.input()?;
        let mut place = Place::at_start();
        for _ in 0..u64::MAX {
            let records = place.records;
            match next_record(self.alloc, &mut input, &mut place) {
                Ok(Next::Found(_)) => {}
                Ok(Next::Ended(_)) => return Ok(records.saturating_add(1)),
                Err(_) => return Err(ServeFault::NoJournal),
            }
        }
        Err(ServeFault::NoJournal)
    }

    /// Why a journal that ends like this can't be gone on with.
    fn fault_of(&self, ending: Ending) -> ServeFault {
        match ending {
            Ending::Whole => ServeFault::NoJournal,
            Ending::Cut { begin } => match self.number_behind() {
                Ok(number) => ServeFault::BadJournal { number, begin },
                Err(fault) => fault,
            },
            Ending::Faulty { number, begin } => ServeFault::BadJournal { number, begin },
        }
    }

    /// The mark of what is kept of a journal that ends like this and has so many bytes, and whether it is the
    /// latest of its folder.
    fn kept(&self, ending: Ending, length: u64) -> Result<(Mark, bool), ServeFault> {
        let noted = self.seen.noted(self.settings.journal);
        let most = match noted {
            Some(mark) => mark.length,
            None => 0,
        };
        let is_latest = self
            .seen
            .is_latest(self.settings.journal, &self.front(most)?);
        match kept_length(ending, length, noted, is_latest) {
            Some(kept) => Ok((self.front(kept)?, is_latest)),
            None => Err(self.fault_of(ending)),
        }
    }

    /// What a service goes on with of the journal, by what its folder has seen.
    fn find(&self) -> Result<Found, ServeFault> {
        let Records {
            desk,
            ending,
            length,
        } = self.records()?;
        let (mark, is_latest) = self.kept(ending, length)?;
        let last = desk.version();
        let begun = self.seen.begun(is_latest, last);
        Ok(Found {
            desk,
            mark,
            length,
            kept: mark.length,
            behind: if begun > last { Some(begun) } else { None },
        })
    }

    /// Makes the file of the journal anew with this text. It is taken before it stands at its path.
    fn write_anew(&self, text: &[u8], lock: &mut JournalLock) -> Result<(), ServeFault> {
        let Ok(mut begun) = begin_whole(self.rt, self.alloc, self.path) else {
            return Err(ServeFault::NoJournal);
        };
        lock.hold(begun.file().file())?;
        fill_whole(self.rt, begun, text).map_err(|_| ServeFault::NoJournal)
    }

    /// Begins the journal anew with the decks that it leaves, behind the version that the service goes on
    /// after, and makes its changes again.
    fn begin_anew(&self, found: &mut Found, lock: &mut JournalLock) -> Result<(), ServeFault> {
        let (now, desk) = (Moment::now(self.rt), &found.desk);
        let begun = found.behind.unwrap_or(desk.version());
        let text = compacted_text(self.alloc, &now, begun, desk.decks())?;
        self.write_anew(text.as_slice(), lock)?;
        let Records { desk, length, .. } = self.records()?;
        replace(&mut found.desk, desk).free();
        found.mark = self.front(length)?;
        Ok(())
    }

    /// Opens the file of the journal, or makes it, and writes at its end. It is opened for reading too, so that
    /// a pipe that came there keeps nobody waiting.
    fn file_at_end(&self) -> Result<R::File, ServeFault> {
        let mut how = OpenOptions::new();
        how.read(true).append(true).create(true);
        match how.open(self.rt, self.path) {
            Ok(file) => Ok(file),
            Err(_) => Err(ServeFault::NoJournal),
        }
    }

    /// Makes the file of the journal where nothing stands at its path, and takes it: what is read of it and
    /// written in it afterwards is nobody else's.
    fn make_and_take(&self, lock: &mut JournalLock) -> Result<(), ServeFault> {
        if self.length()?.is_none() {
            drop(self.file_at_end()?);
        }
        lock.take(self.rt, self.path)
    }

    /// Opens the file of the journal, and cuts off what stands behind so many bytes: the system has kept it
    /// when this is done.
    fn open_cut(&self, length: u64) -> Result<SystemFile<R::File>, ServeFault> {
        let mut file = SystemFile::within(self.file_at_end()?, size_limit(self.rt));
        let is_there = sync_folder(self.rt, folder_of(self.path)).is_ok();
        if is_there && file.cut_to(length) && file.sync() {
            Ok(file)
        } else {
            Err(ServeFault::NoJournal)
        }
    }

    /// Reports on standard error what was cut off of the journal, and behind which version the service goes on,
    /// where the journal is not the latest of the folder.
    fn tell(&self, found: &Found) {
        let (path, kept) = (self.path, found.kept);
        if kept < found.length {
            let count = found.length - kept;
            let _ = eprintln!(self.rt;
                "compass: {count} bytes of {path}, from byte {kept} on, are no whole record; they were cut off"
            );
        }
        if let Some(version) = found.behind {
            let _ = eprintln!(self.rt;
                "compass: {path} is not the latest journal of the folder; it was begun anew with its decks, and the versions go on after {version}"
            );
        }
    }

    /// The journal behind what was found of it, for so many threads that change decks; it is begun anew first
    /// where the settings say so, or where the folder has seen versions that are not in it. What is kept of it
    /// is noted in the folder before anything else is.
    fn journal_behind(
        &self,
        found: &mut Found,
        threads: usize,
        lock: &mut JournalLock,
    ) -> Result<Journal<SystemFile<R::File>>, ServeFault>
        ensures places { IfOk result (λ journal. journal ≡ threads) }
    {
        if self.settings.compact || found.behind.is_some() {
            self.begin_anew(found, lock)?;
        }
        let (mark, last) = (found.mark, found.desk.version());
        let file = self.open_cut(mark.length)?;
        let notes = (self.seen).take(self.rt, self.alloc, self.settings, last, Some(mark))?;
        let mut file = file_behind(file.noting(notes), mark, &found.desk);
        if !file.begin() {
            return Err(ServeFault::NoJournal);
        }
        self.tell(found);
        Ok(Journal::new(self.alloc, file, threads)?)
    }

    /// The desk that the journal leaves, and the journal. It is taken before anything is read or written.
    fn open(
        &self,
        threads: usize,
        lock: &mut JournalLock,
    ) -> Result<Opened<SystemFile<R::File>>, ServeFault>
        ensures places { IfOk result (λ opened. IfSome opened.journal (λ journal. journal ≡ threads)) }
    {
        self.make_and_take(lock)?;
        let mut found = self.find()?;
        match self.journal_behind(&mut found, threads, lock) {
            Ok(journal) => Ok(Opened {
                desk: found.desk,
                journal: Some(journal),
            }),
            Err(fault) => {
                found.desk.free();
                Err(fault)
            }
        }
    }
}

/// What a service of these settings begins with in a folder that has seen this, where so many threads change
/// decks: the folder has kept the versions that it may give out, and the journal, if there is one, is taken and
/// has a place for each of them.
pub(crate) fn open<R: Files<File = File> + Eprint + Clock>(
    rt: &R,
    alloc: Global,
    settings: &Settings<'_>,
    threads: usize,
    seen: &Seen,
    lock: &mut JournalLock,
) -> Result<Opened<SystemFile<R::File>>, ServeFault>
    ensures places { IfOk result (λ opened. IfSome opened.journal (λ journal. journal ≡ threads)) }
{
    let Some(path) = journal_path(alloc, settings)? else {
        let begun = seen.begun(false, 0);
        seen.take(rt, alloc, settings, begun, None)?;
        return Ok(Opened {
            desk: Desk::behind(alloc, begun),
            journal: None,
        });
    };
    let path = path.as_str();
    let site = Site {
        rt,
        alloc,
        settings,
        path,
        seen,
    };
    site.open(threads, lock)
}
