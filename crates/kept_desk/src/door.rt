//! The door of a session: a desk whose changes are kept, and the ends that the session has at its service.
ghost use Rattle.std.specs.Prelude.{◌≡◌, Some};
ghost use Rattle.desk_core.specs.Runs.{accepts};
ghost use Rattle.journal.specs.declared.drafted.Drafted.TheVariants.{Open, Whole};
ghost use Rattle.session_line.specs.Greetings.{WhereMet, is_status_reply};
ghost use Rattle.kept_desk.specs.Greeting.{GreetsAmong};
ghost use Rattle.kept_desk.specs.Keeping.{MakesChange, TellsKept, told_of};
ghost use Rattle.kept_desk.specs.Waiting.{AwaitsPublication, is_reached, is_shown};

use crate::ends::{Ends, Woken};
use cards::DeckName;
use desk_core::{Accepted, Call, Change, Listed, Question, Refusal, Reply};
use journal::{Draft, Drafted, Stamp, draft_carried};
use session_line::{Called, Calls, Greeting};
use std::alloc::Global;
use std::marker::Model;
use std::sync::Wait;

/// A desk, and the ends that a session has at its service. A change for whose record there is no memory, or that the
/// journal does not take, is not asked of the desk. One that the desk makes is reported as made where its record is kept,
/// and else as `Unkept`. Contracts see the two as a pair.
#[derive(Drop)]
pub struct Door<'a, R, D, E> {
    rt: &'a R,
    desk: D,
    ends: E,
}

impl<'a, R, D, E> Model for Door<'a, R, D, E> {
    ghost Value = { D × E };

    ghost view = { λ d. (d.desk, d.ends) };
}

impl<'a, R, D, E> Door<'a, R, D, E> {
    pub fn new(rt: &'a R, desk: D, ends: E) -> Door<'a, R, D, E>
        ensures { result ≡ (desk, ends) }
    {
        Door { rt, desk, ends }
    }
}

/// Rings where a reply accepts a change.
fn ring_after<E: Ends>(ends: &mut E, reply: &Reply)
    ensures { WhereMet E.relations.rings (accepts reply.now) ends.old ends.new }
{
    match reply {
        Reply::Changed(_) | Reply::Carried { .. } => ends.ring(),
        _ => {}
    }
}

/// What is reported of a change whose record was kept, or was not.
fn told_of(made: Accepted, kept: bool) -> Reply
    ensures { result ≡ told_of made kept }
{
    if kept {
        Reply::Changed(made)
    } else {
        let version = made.version();
        made.free();
        Reply::Unkept(version)
    }
}

/// What is reported of a change whose record was known.
fn whole_reply<E: Ends>(ends: &mut E, reply: Reply, draft: Draft) -> Reply
    ensures { TellsKept E.relations (Whole draft) reply ends.old result ends.new }
{
    match reply {
        Reply::Changed(made) => {
            let kept = ends.keep(made.version(), draft);
            told_of(made, kept)
        }
        Reply::Carried {
            version,
            seen,
            edits,
        } => {
            let _ = (version, seen);
            drop(edits);
            Reply::Refused(Refusal::Foreign)
        }
        reply => reply,
    }
}

/// What is reported of a change of this deck that was carried: its record has the edits as they were made.
fn carried_reply<E: Ends>(ends: &mut E, reply: Reply, stamp: Stamp, name: DeckName) -> Reply
    ensures { TellsKept E.relations (Open stamp name) reply ends.old result ends.new }
{
    match reply {
        Reply::Carried {
            version,
            seen,
            edits,
        } => {
            let draft = draft_carried(stamp, name, seen, edits);
            let kept = ends.keep(version, draft);
            told_of(Accepted::new(version), kept)
        }
        Reply::Changed(made) => {
            made.free();
            Reply::Refused(Refusal::Foreign)
        }
        reply => reply,
    }
}

/// What is reported of a change, by what was known of its record.
fn kept_reply<E: Ends>(ends: &mut E, reply: Reply, known: Drafted) -> Reply
    ensures { TellsKept E.relations known reply ends.old result ends.new }
{
    match known {
        Drafted::Whole(draft) => whole_reply(ends, reply, draft),
        Drafted::Open(stamp, name) => carried_reply(ends, reply, stamp, name),
    }
}

/// Makes a change, in five steps: may the journal take it; the desk makes it; the bell rings; the record is kept; it is
/// reported.
fn make_change<D: Called, E: Ends>(desk: &mut D, ends: &mut E, change: Change) -> Reply
    ensures { MakesChange D.makes E.relations change desk.old ends.old result desk.new ends.new }
{
    match ends.begin(&change) {
        Ok(known) => {
            let by = ends.who();
            let reply = desk.call(Call::Make { by, change });
            ring_after(ends, &reply);
            kept_reply(ends, reply, known)
        }
        Err(refusal) => {
            change.free();
            Reply::Refused(refusal)
        }
    }
}

/// Whether a version or a later one is published.
pub fn is_reached(version: u64, published: Option<u64>) -> bool
    ensures { result ≡ is_reached version published }
{
    match published {
        Some(published) => version <= published,
        None => false,
    }
}

/// Whether nothing is to be waited for behind a reply.
fn is_shown(version: u64, reply: &Reply) -> bool
    ensures { result ≡ is_shown version reply.now }
{
    match reply {
        Reply::StatusIs(_, published, _) => is_reached(version, *published),
        _ => true,
    }
}

/// The status of a desk once a version or a later one is published, or when a sleep's time is up.
fn await_publication<R: Wait, D: Called, E: Ends>(
    rt: &R,
    desk: &mut D,
    ends: &mut E,
    version: u64,
) -> Reply
    ensures { AwaitsPublication D.makes E.relations.sleeps version desk.old ends.old result desk.new ends.new }
{
    for _ in rt.forever() {
        let reply = desk.call(Call::Ask(Question::Status));
        if is_shown(version, &reply) {
            return reply;
        }
        reply.free();
        let woken = ends.sleep(version);
        if let Woken::TimeUp = woken {
            return desk.call(Call::Ask(Question::Status));
        }
    }
    unreachable!()
}

/// Notes the name of the session, where it holds.
fn name_where<E: Ends>(ends: &mut E, holds: bool, name: &DeckName)
    ensures { WhereMet (λ before after. E.relations.names before (Some name.now) after) holds ends.old ends.new }
{
    if holds {
        ends.be_named(Some(name));
    }
}

/// Whether a reply shows a status.
fn is_status(reply: &Reply) -> bool
    ensures { result ≡ is_status_reply reply.now }
{
    matches!(reply, Reply::StatusIs(..))
}

/// Greets a desk among others.
fn greet_among<D: Called, E: Ends>(
    alloc: Global,
    desk: &mut D,
    ends: &mut E,
    name: &DeckName,
) -> Greeting
    ensures { GreetsAmong D.makes E.relations name.now desk.old ends.old result desk.new ends.new }
{
    let Ok(sessions) = ends.list(alloc, name) else {
        return Greeting::alone(alloc, Reply::Refused(Refusal::OutOfMemory));
    };
    let status = desk.call(Call::Ask(Question::Status));
    name_where(ends, is_status(&status), name);
    Greeting {
        status,
        sessions: Listed::new(sessions),
    }
}

/// Questions are the desk's; changes are, but for those that are refused, or not kept. Who waits asks the desk for the
/// status, and sleeps between two questions; who greets is shown who is connected, and the name is noted where it holds.
impl<R: Wait, D: Called, E: Ends> Calls for Door<'_, R, D, E> {
    ghost use Rattle.kept_desk.specs.Doors.{door_of};

    ghost relations = { door_of D.makes E.relations };

    fn change(&mut self, change: Change) -> Reply {
        make_change(&mut self.desk, &mut self.ends, change)
    }

    fn ask(&mut self, question: Question) -> Reply {
        self.desk.call(Call::Ask(question))
    }

    fn await_version(&mut self, version: u64) -> Reply {
        await_publication(self.rt, &mut self.desk, &mut self.ends, version)
    }

    fn greet(&mut self, alloc: Global, name: &DeckName) -> Greeting {
        greet_among(alloc, &mut self.desk, &mut self.ends, name)
    }

    fn begin_session(&mut self) {
        self.ends.be_named(None);
    }
}
