//! The versions that a folder has seen: no version is given out twice there of different cards, whatever journal a
//! service has, or none.
//!
//! The file `.beskloun.versions` has a line with a number and a journal: all versions that were given out in the
//! folder are below the number, and those that the journal has are behind one another. The line behind it
//! notes how much of that journal is kept: so many bytes, and their check sum. It is written again where it
//! stands, for the records that are synced together, before any of them is reported as kept. A service whose
//! journal has this name, and begins with the bytes that are noted, goes on behind its last record; any other
//! begins at the number. A file that has anything else is damaged, and no service goes on with it.
ghost use Rattle.std.specs.Prelude.{◌≡◌, ◌++◌, ◌&&◌, IfErr, IfOk, is_some, string_bytes};
ghost use Rattle.std.specs.IoError.{error_kind};
ghost use Rattle.desk_service.specs.Versions.{TellsFault, TellsVersions, begun_behind, has_note, holds_noted, is_far, is_latest, is_of, journal_name, line_of, mark_line, next_bound, noted_of, nothing_seen, versions_in, versions_line};

use crate::faults::ServeFault;
use crate::notes::{NOTE, Notes, mark_in, mark_line, number_in};
use crate::root::path_in;
use crate::settings::{Journaling, Settings};
use deck_files::{open_led_to, open_standing, replace_whole};
use definitions::is_same_text;
use journal::Mark;
use session_commands::{begins_with, behind_blank, from_blank, has_text, to_blank};
use std::alloc::{AllocError, Global};
use std::fs;
use std::io::{self, ErrorKind};
use std::os::fd::AsFd;
use std::rt::Files;
use text_ports::Text;

/// How many versions a service may give out before it has to be started again: 10^12.
const BLOCK: u64 = 1_000_000_000_000;

/// The file of a folder's versions.
pub(crate) const VERSIONS: &str = ".beskloun.versions";

/// What a folder has seen.
#[derive(Drop)]
pub(crate) struct Seen {
    /// All versions that were given out are below this one.
    bound: u64,
    /// The journal that has the last of them.
    owner: Text,
    /// How much of that journal is kept, where it is noted.
    noted: Option<Mark>,
    /// At which byte of the folder's file the note begins.
    begin: u64,
    /// Whether the folder keeps what it has seen.
    is_kept: bool,
}

/// Whether a journal whose first bytes, as many as are noted, have this mark holds what is noted.
fn holds_noted(noted: Option<Mark>, front: &Mark) -> bool
    ensures { result ≡ holds_noted noted front.now }
{
    match noted {
        Some(mark) => mark.is_same(front),
        None => true,
    }
}

/// Below which version all of those are that a service gives out which goes on behind one.
fn next_bound(begun: u64) -> u64
    ensures { result ≡ next_bound begun }
{
    begun.saturating_add(BLOCK)
}

/// Whether a bound of versions is far enough for a service that goes on behind one: half of those that it may
/// give out are left.
fn is_far(bound: u64, begun: u64) -> bool
    ensures { result ≡ is_far bound begun }
{
    bound >= begun.saturating_add(BLOCK / 2)
}

/// A text of the system, in memory.
fn text_at<R: Files>(rt: &R, alloc: Global, path: &str) -> io::Result<String> {
    io::read_to_string(alloc, open_led_to(rt, path)?)
}

/// The text of a folder: its line, and a note behind that.
fn noted_text(alloc: Global, line: &str, mark: Mark) -> Result<Text, AllocError>
    ensures { IfOk result (λ text. text ≡ line.now ++ mark_line mark) }
{
    let mut text = Text::new(alloc);
    text.push_bytes(line.as_bytes())?;
    text.append(mark_line(alloc, mark)?)?;
    Ok(text)
}

/// What the line of a folder tells of a number and a journal, with what is noted of that.
fn line_of(alloc: Global, line: &[u8], noted: Option<Mark>) -> Result<Option<Seen>, AllocError>
    ensures { IfOk result (λ seen. seen ≡ line_of line.now noted) }
{
    let (told, end) = line.split_at(line.len().saturating_sub(1));
    let name = from_blank(told);
    if name.is_empty() || !is_same_text(end, b"\n") {
        return Ok(None);
    }
    let Some(bound) = number_in(u64::MAX, to_blank(told)) else {
        return Ok(None);
    };
    let mut owner = Text::new(alloc);
    owner.push_bytes(behind_blank(name))?;
    Ok(Some(Seen {
        bound,
        owner,
        noted,
        begin: line.len() as u64,
        is_kept: true,
    }))
}

/// Whether a text ends with a note, behind a line feed.
fn has_note(text: &[u8]) -> bool
    ensures { result ≡ has_note text.now }
{
    let (_, end) = text.split_at(text.len().saturating_sub(NOTE + 1));
    begins_with(b"\nMARK ", end)
}

/// What the text of a folder tells: a line with a note, or one line alone. None where it is damaged.
fn seen_in(alloc: Global, text: &[u8]) -> Result<Option<Seen>, AllocError>
    ensures { IfOk result (λ seen. seen ≡ versions_in text.now) }
{
    if has_note(text) {
        let (line, note) = text.split_at(text.len().saturating_sub(NOTE));
        return match mark_in(note) {
            Some(mark) => line_of(alloc, line, Some(mark)),
            None => Ok(None),
        };
    }
    let (told, _) = text.split_at(text.len().saturating_sub(1));
    if has_text(b"\n", told) {
        return Ok(None);
    }
    line_of(alloc, text, None)
}

/// What a folder has seen, by the text of its file.
fn seen_by_text(alloc: Global, text: &[u8]) -> Result<Seen, ServeFault>
    ensures { TellsVersions text.now result }
{
    match seen_in(alloc, text)? {
        Some(seen) => Ok(seen),
        None => Err(ServeFault::BadVersions),
    }
}

/// What a folder has seen, by the fault for which its file could not be read: nothing where it has none yet.
fn seen_by_fault(alloc: Global, kind: ErrorKind) -> Result<Seen, ServeFault>
    ensures { TellsFault kind result }
{
    match kind {
        ErrorKind::NotFound => Ok(Seen::nothing(alloc)),
        ErrorKind::OutOfMemory => Err(ServeFault::OutOfMemory),
        _ => Err(ServeFault::BadVersions),
    }
}

/// What a folder has seen, by what was read of its file.
fn seen_by(alloc: Global, read: io::Result<String>) -> Result<Seen, ServeFault>
    ensures text { IfOk read (λ text. TellsVersions (string_bytes text) result) }
    ensures fault { IfErr read (λ error. TellsFault (error_kind error) result) }
{
    match read {
        Ok(text) => seen_by_text(alloc, text.as_bytes()),
        Err(error) => seen_by_fault(alloc, error.kind()),
    }
}

impl Seen {
    /// A folder that has seen nothing.
    pub(crate) fn nothing(alloc: Global) -> Seen
        ensures { result ≡ nothing_seen }
    {
        Seen {
            bound: 0,
            owner: Text::new(alloc),
            noted: None,
            begin: 0,
            is_kept: true,
        }
    }

    /// A folder that is not asked what it has seen, and keeps nothing of it.
    pub(crate) fn unasked(alloc: Global) -> Seen {
        Seen {
            is_kept: false,
            ..Seen::nothing(alloc)
        }
    }

    /// What a folder has seen: nothing where it says nothing yet.
    pub(crate) fn read<R: Files>(rt: &R, alloc: Global, folder: &str) -> Result<Seen, ServeFault> {
        let path = path_in(alloc, folder, VERSIONS)?;
        seen_by(alloc, text_at(rt, alloc, path.as_str()))
    }

    /// Whether the last versions that were given out are in a journal of this name.
    fn is_of(&self, journal: Journaling<'_>) -> bool
        ensures { result ≡ is_of self.now journal.entry }
    {
        journal.is_kept() && is_same_text(self.owner.as_slice(), journal.name().as_bytes())
    }

    /// How much of this journal is kept, where that is noted.
    pub(crate) fn noted(&self, journal: Journaling<'_>) -> Option<Mark>
        ensures { result ≡ noted_of self.now journal.entry }
    {
        if self.is_of(journal) {
            self.noted
        } else {
            None
        }
    }

    /// Whether this journal, whose first bytes have this mark, is the latest of the folder.
    pub(crate) fn is_latest(&self, journal: Journaling<'_>, front: &Mark) -> bool
        ensures { result ≡ is_latest (is_of self.now journal.entry) self.now.noted front.now }
    {
        self.is_of(journal) && holds_noted(self.noted, front)
    }

    /// Behind which version a service goes on whose journal ends with this version, and is the latest of the
    /// folder or not.
    pub(crate) fn begun(&self, is_latest: bool, last: u64) -> u64
        ensures { result ≡ begun_behind last self.now.bound is_latest }
    {
        if is_latest {
            last
        } else {
            last.max(self.bound)
        }
    }

    /// The line of a service that goes on behind a version.
    fn line(&self, alloc: Global, journal: Journaling<'_>, begun: u64) -> Result<String, AllocError>
        ensures { IfOk result (λ line. string_bytes line ≡ versions_line self.now.bound (journal_name journal.entry) begun) }
    {
        let bound = self.bound.max(next_bound(begun));
        let name = journal.name();
        format!(in alloc; "{bound} {name}\n")
    }

    /// Whether what the folder says will do for a service of this journal that goes on behind a version.
    fn has_room(&self, journal: Journaling<'_>, begun: u64) -> bool
        ensures { result ≡ (is_some (noted_of self.now journal.entry) && is_far self.now.bound begun) }
    {
        self.noted(journal).is_some() && is_far(self.bound, begun)
    }

    /// Takes versions for a service of these settings that goes on behind this one, and notes how much of its
    /// journal is kept, if it has one: the system has kept that when this is done. Further notes go to what
    /// it gives.
    pub(crate) fn take<R: Files>(
        &self,
        rt: &R,
        alloc: Global,
        settings: &Settings<'_>,
        begun: u64,
        mark: Option<Mark>,
    ) -> Result<Option<Notes<R::File>>, ServeFault>
    where
        R::File: AsFd,
    {
        if !self.is_kept {
            return Ok(None);
        }
        let path = path_in(alloc, settings.root, VERSIONS)?;
        let line = self.line(alloc, settings.journal, begun)?;
        let Some(mark) = mark else {
            write_versions(rt, alloc, path.as_str(), line.as_bytes())?;
            return Ok(None);
        };
        if self.has_room(settings.journal, begun) && !is_link(rt, path.as_str()) {
            return note_at(rt, alloc, path.as_str(), self.begin, mark);
        }
        let text = noted_text(alloc, line.as_str(), mark)?;
        write_versions(rt, alloc, path.as_str(), text.as_slice())?;
        note_at(rt, alloc, path.as_str(), line.len() as u64, mark)
    }
}

/// Whether a link stands at a path.
fn is_link<R: Files>(rt: &R, path: &str) -> bool {
    match fs::symlink_metadata(rt, path) {
        Ok(about) => about.is_symlink(),
        Err(_) => false,
    }
}

/// Opens the file of a folder's versions for notes at this byte, and writes one, which the system has kept
/// when this is done.
fn note_at<R: Files>(
    rt: &R,
    alloc: Global,
    path: &str,
    at: u64,
    mark: Mark,
) -> Result<Option<Notes<R::File>>, ServeFault> {
    let Ok(file) = open_standing(rt, path) else {
        return Err(ServeFault::NoFolder);
    };
    let mut notes = Notes::new(alloc, file, at);
    if notes.keep(mark) {
        Ok(Some(notes))
    } else {
        Err(ServeFault::NoFolder)
    }
}

/// Makes the file of a folder's versions anew. A link there is replaced, and not followed.
fn write_versions<R: Files>(
    rt: &R,
    alloc: Global,
    path: &str,
    text: &[u8],
) -> Result<(), ServeFault> {
    replace_whole(rt, alloc, path, text).map_err(|_| ServeFault::NoFolder)
}
