//! The ends that a session has at its service: its place in the journal, the bell of the workers, where publications
//! are heard of, and who is connected.
ghost use Rattle.std.specs.Prelude.{◌≡◌, ◌<◌, is_some, IfOk, IfSome, None};
ghost use Rattle.journal.specs.Names.{session_name};
ghost use Rattle.desk_service.specs.Company.{AreListed};

use crate::journals::Journal;
use crate::service_end::ServiceEnd;
use cards::DeckName;
use crossbeam_channel::Sender;
use deck_workers::Bell;
use desk_core::{Change, Refusal};
use journal::{Draft, Drafted, RecordsFile, Stamp, draft_change, draft_nothing, session_name};
use kept_desk::{Ends, Woken};
use moments::Moment;
use session_line::Connected;
use std::alloc::{AllocError, Global};
use std::marker::Model;
use std::sync::Wait;
use std::time::Clock;

/// What a session has of its service beside the journal.
#[derive(Drop)]
pub(crate) struct Others<'a> {
    /// The bell of the workers.
    pub(crate) bells: Sender<Bell>,
    /// Who is connected, and what is published.
    pub(crate) end: &'a ServiceEnd,
    /// Whether it may sleep until a version is published; it is answered at once that its time is up where it may not.
    pub(crate) may_sleep: bool,
}

/// The ends that a session has at its service; without a journal all changes pass, and none is kept. Contracts see
/// whether there is a journal, the number of the session, the version of its latest change that was reported as not
/// kept: until that record is kept, it makes no other; and the name by which it asks for changes: the one that
/// it gave, or its number. They see nothing of bells, sleeps and other sessions.
#[derive(Drop)]
pub struct SessionEnds<'a, R, F: RecordsFile> {
    rt: &'a R,
    alloc: Global,
    journal: Option<&'a Journal<F>>,
    /// None for one that stands beside no others.
    others: Option<Others<'a>>,
    session: usize,
    missed: Option<u64>,
    /// By which name it asks for changes.
    name: DeckName,
}

impl<'a, R, F: RecordsFile> Model for SessionEnds<'a, R, F> {
    ghost use Rattle.std.specs.Prelude.{is_some};
    ghost use Rattle.desk_service.specs.SessionEnds as of_session;

    ghost Value = { of_session.SessionEnds };

    ghost view = { λ e. record { journaled = is_some e.journal; session = e.session; missed = e.missed; name = e.name } };
}

impl<'a, R, F: RecordsFile> SessionEnds<'a, R, F> {
    /// The ends of a session that has a place in the journal, if there is one, and stands beside no others.
    pub fn new(
        rt: &'a R,
        alloc: Global,
        journal: Option<&'a Journal<F>>,
        session: usize,
    ) -> SessionEnds<'a, R, F>
        requires { IfSome journal (λ journal. session < journal.now) }
        ensures journaled { result.journaled ≡ is_some journal.entry }
        ensures session { result.session ≡ session }
        ensures missed { result.missed ≡ None }
        ensures name { result.name ≡ session_name session }
    {
        SessionEnds {
            rt,
            alloc,
            journal,
            others: None,
            session,
            missed: None,
            name: session_name(session as u64),
        }
    }

    /// The same beside others.
    pub(crate) fn among(self, others: Others<'a>) -> SessionEnds<'a, R, F>
        ensures { result ≡ self.entry }
    {
        let mut ends = self;
        ends.others = Some(others);
        ends
    }
}

/// Those who are connected, where there are others.
fn listed<R: Wait>(
    rt: &R,
    alloc: Global,
    others: &Option<Others<'_>>,
    session: usize,
    name: &DeckName,
) -> Result<Vec<Connected>, AllocError>
    ensures { IfOk result (λ sessions. AreListed session name.now sessions.items) }
{
    match others {
        Some(others) => others.end.list(rt, alloc, session, name),
        None => Ok(Vec::new(alloc)),
    }
}

impl<R: Wait + Clock + Eprint, F: RecordsFile + Drop> Ends for SessionEnds<'_, R, F> {
    ghost use Rattle.desk_service.specs.SessionEnds.{ends_relations};

    ghost relations = { ends_relations F.has_done };

    fn begin(&mut self, change: &Change) -> Result<Drafted, Refusal> {
        if let Some(journal) = self.journal {
            if !journal.may_change(self.rt, self.missed) {
                return Err(Refusal::NotKept);
            }
        }
        let stamp = Stamp {
            moment: Moment::now(self.rt),
            by: self.name.copied(),
        };
        if self.journal.is_none() {
            return Ok(draft_nothing(stamp, change));
        }
        match draft_change(self.alloc, stamp, change) {
            Ok(known) => Ok(known),
            Err(_) => Err(Refusal::OutOfMemory),
        }
    }

    /// A bell that finds no memory is not sent.
    fn ring(&mut self) {
        if let Some(others) = &self.others {
            let _ = others.bells.send(self.rt, Bell::Work);
        }
    }

    fn keep(&mut self, version: u64, draft: Draft) -> bool {
        let Some(journal) = self.journal else {
            return true;
        };
        if journal.keep(self.rt, self.session, version, draft) {
            return true;
        }
        self.missed = Some(version);
        false
    }

    fn who(&self) -> DeckName {
        self.name.copied()
    }

    fn sleep(&mut self, version: u64) -> Woken {
        match &self.others {
            Some(others) if others.may_sleep => others.end.publications().sleep(self.rt, version),
            _ => Woken::TimeUp,
        }
    }

    fn list(&mut self, alloc: Global, name: &DeckName) -> Result<Vec<Connected>, AllocError> {
        listed(self.rt, alloc, &self.others, self.session, name)
    }

    fn be_named(&mut self, name: Option<&DeckName>) {
        self.name = match name {
            Some(name) => name.copied(),
            None => session_name(self.session as u64),
        };
        if let (Some(others), Some(name)) = (&self.others, name) {
            others.end.note(self.rt, self.session, name);
        }
    }
}
