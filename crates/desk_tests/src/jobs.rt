//! Steps that workers make. The deck is M, but for `result`.
//!
//! `claim`: the job, which is out then; `deliver`: its result is made and handed in; `giveup LEASE`;
//! `result LEASE DECK VERSION RECORD OBJECT`: a result made of single cards, the record's deck and a colon
//! in front of its card, or `-` for no record; `link LEASE VERSION CARD ..`: a publication of decks of a
//! card each; `publish LEASE`; `batch SEEN COUNT`: so many edits; `settle TURNS`; `image`: the version that is shown,
//! and the last 32 bytes of its image; `meter`: how many statements were sized and coded; `lost`: a job whose edit
//! does not apply.

use crate::settling::settle;
use cards::{Card, Edit};
use deck_linker::ListedPublication;
use deck_listing::ListedObject;
use deck_workers::{Job, Made, Runs, job_in};
use desk_core::{
    Call, Change, DeckCards, DeckWork, Desk, Done, Edits, Held, Listed, NewDeck, Question, Reply,
    SharedPublication, Start, Work,
};
use session_commands::Seen;
use session_line::Called;
use std::alloc::{AllocError, Global};
use std::hash::RandomState;
use test_parts::{
    Answer, Got, card_of, cards_of, cut, cut_number, fixed_keys, name_of, number, object_of,
    record_of, small,
};
use text_ports::Text;
use work_meter::Meter;

/// The job that is out, and what was done for all.
#[derive(Drop)]
pub struct Jobs {
    alloc: Global,
    keys: RandomState,
    out: Option<Job>,
    meter: Meter,
}

impl Jobs {
    pub fn new(alloc: Global, keys: RandomState) -> Jobs {
        Jobs {
            alloc,
            keys,
            out: None,
            meter: work_meter::begin(),
        }
    }

    /// Makes a step of this word, if it is a worker's, and answers whether it is.
    pub fn make(&mut self, desk: &mut Desk, word: &str, rest: &str, answer: &mut Answer) -> bool {
        match word {
            "claim" => self.claim(desk, answer),
            "deliver" => self.deliver(desk, answer),
            "settle" => {
                let ended = settle(self.alloc, self.keys, desk, &mut self.meter, small(rest));
                answer.debug(&ended);
            }
            "image" => push_image(desk, answer),
            "meter" => {
                answer.number("", self.meter.sized());
                answer.number(" ", self.meter.coded());
            }
            "lost" => push_lost(self.alloc, self.keys, answer),
            _ => match call_of(self.alloc, word, rest) {
                Some(call) => push_call(desk, call, answer),
                None => return false,
            },
        }
        answer.line("");
        true
    }

    /// Claims a job, which is out then.
    fn claim(&mut self, desk: &mut Desk, answer: &mut Answer) {
        let reply = ask(desk, Call::Do(Work::Claim));
        push_reply(answer, &reply);
        if let Some(job) = job_in(reply) {
            drop(self.out.replace(job));
        }
    }

    /// Runs the job that is out, and hands in what it makes.
    fn deliver(&mut self, desk: &mut Desk, answer: &mut Answer) {
        if let Some(job) = self.out.take() {
            let made = job.run(self.alloc, self.keys, &mut self.meter);
            if !made.is_result() {
                answer.push("lost, ");
            }
            push_asked(desk, delivery_of(made), answer);
        }
    }
}

/// The call that hands in what was made of a job: a publication is delivered, too.
pub fn delivery_of(made: Made) -> Call {
    match made {
        Made::Link { lease, publication } => { Call::Do(Work::DeliverLink { lease, publication }) }
        other => other.into_call(),
    }
}

/// The call that these words say, if they say one.
fn call_of(alloc: Global, word: &str, rest: &str) -> Option<Got<Call>> {
    let call = match word {
        "giveup" => Ok(Call::Do(Work::GiveUp(number(rest)))),
        "result" => result_of(alloc, rest),
        "link" => link_of(alloc, rest),
        "publish" => Ok(Call::Do(Work::Publish(number(rest)))),
        "batch" => batch_of(alloc, rest),
        _ => return None,
    };
    Some(call)
}

/// Makes a call, if there is memory for it.
fn push_call(desk: &mut Desk, call: Got<Call>, answer: &mut Answer) {
    if let Some(call) = answer.kept(call) {
        push_asked(desk, call, answer);
    }
}

/// The call that makes a change of who has given no name.
pub fn asked(change: Change) -> Got<Call> {
    let by = name_of("0")?;
    Ok(Call::Make { by, change })
}

/// The call that adds a deck of these lines.
pub fn addition(alloc: Global, of: &str, lines: &str) -> Got<Call> {
    let name = name_of(of)?;
    let cards = cards_of(alloc, lines)?;
    asked(Change::AddDeck(NewDeck::new(name, cards)))
}

/// Asks a desk, or from a seat. What it answers is looked at and no contract of it, and so who asks has no facts of it.
pub fn ask<D: Called>(desk: &mut D, call: Call) -> Reply {
    desk.call(call)
}

/// Asks a desk, or from a seat, and shows what it answers.
pub fn push_asked<D: Called>(desk: &mut D, call: Call, answer: &mut Answer) {
    push_told(answer, ask(desk, call));
}

/// The version of a publication, and the last 32 bytes of its image.
fn push_publication(answer: &mut Answer, publication: &ListedPublication) {
    answer.number("", publication.version());
    answer.push(" ");
    let image = image_of(answer.alloc, publication);
    if let Some(image) = answer.kept(image) {
        let bytes = image.as_slice();
        answer.bytes(bytes.split_at(bytes.len().saturating_sub(32)).1);
    }
}

/// Its image.
fn image_of(alloc: Global, publication: &ListedPublication) -> Got<Text> {
    publication.image(alloc, fixed_keys()?)
}

/// The publication that a desk shows.
fn push_image(desk: &mut Desk, answer: &mut Answer) {
    let reply = ask(desk, Call::Ask(Question::Show));
    match &reply {
        Reply::Shown(shown) => push_publication(answer, shown.publication()),
        other => push_reply(answer, other),
    }
    reply.free();
}

/// A reply of the desk.
pub fn push_reply(answer: &mut Answer, reply: &Reply) {
    match reply {
        Reply::Changed(made) => answer.number("changed ", made.version()),
        Reply::Carried { version, .. } => answer.number("carried ", *version),
        Reply::Idle(version) => answer.number("idle ", *version),
        Reply::AllOut => answer.push("all out"),
        Reply::Stored => answer.push("stored"),
        Reply::Published(before) => push_before(answer, before),
        Reply::Cleared => answer.push("cleared"),
        Reply::Refused(refusal) => answer.debug(refusal),
        Reply::Shown(shown) => {
            let decks = shown.publication().objects().len() as u64;
            answer.number("what a session asks for, decks ", decks);
        }
        Reply::LinkJob(work) => push_out(answer, "link", work.lease, work.version),
        Reply::DeckJob(work) => push_job(answer, work),
        _ => answer.push("what a session asks for"),
    }
}

/// A reply that may have the cards of a deck.
pub fn push_told(answer: &mut Answer, reply: Reply) {
    match reply {
        Reply::CardsAre(version, cards) => {
            answer.number("cards ", version);
            push_cards(answer, &cards.into_items());
        }
        other => {
            push_reply(answer, &other);
            other.free();
        }
    }
}

/// That the desk published its decks, and the version that was published before.
fn push_before(answer: &mut Answer, before: &Option<SharedPublication>) {
    match before {
        Some(before) => answer.number("published behind ", before.publication().version()),
        None => answer.push("published, the first"),
    }
}

/// A lease of something at a version.
fn push_out(answer: &mut Answer, what: &str, lease: u64, version: u64) {
    answer.push(what);
    answer.number(" ", lease);
    answer.number(" at ", version);
}

/// A job of a deck: with how many cards or with which record it begins, and the edits that go with it.
fn push_job(answer: &mut Answer, work: &DeckWork) {
    answer.bytes(work.name.as_slice());
    push_out(answer, "", work.lease, work.version);
    match &work.start {
        Start::FromCards(cards) => answer.number(" cards ", cards.len() as u64),
        Start::FromRecord(held) => push_record(answer, held.kept().cards()),
    }
    answer.number(" edits ", work.edits.as_slice().len() as u64);
    for edit in work.edits.as_slice() {
        push_edit(answer, edit);
    }
}

/// How many cards a record has, and the cards, where they are one or two.
fn push_record(answer: &mut Answer, cards: &[Card]) {
    answer.number(" record ", cards.len() as u64);
    if cards.len() <= 2 {
        push_cards(answer, cards);
    }
}

/// Cards, each behind a blank.
fn push_cards(answer: &mut Answer, cards: &[Card]) {
    for card in cards {
        answer.push(" ");
        answer.bytes(card.as_slice());
    }
}

fn push_edit(answer: &mut Answer, edit: &Edit) {
    match edit {
        Edit::Insert { at, card } | Edit::Replace { at, card } => {
            answer.number(" ", *at);
            answer.bytes(card.as_slice());
        }
        Edit::Remove { at } => answer.number(" ", *at),
    }
}

/// The record of a deck, whose name and a colon stand in front of its one card; none for `-`.
fn held_of(alloc: Global, text: &str) -> Got<Option<Held>> {
    match text.split_once(":") {
        Some((of, line)) => Ok(Held::new(record_of(alloc, of, line)?)),
        None => Ok(None),
    }
}

/// The object of M with this one card.
fn listed_of(alloc: Global, line: &str) -> Got<ListedObject> {
    ListedObject::new(alloc, object_of(alloc, "M", line)?)
}

fn result_of(alloc: Global, text: &str) -> Got<Call> {
    let (lease, rest) = cut_number(text);
    let (deck, rest) = cut_number(rest);
    let (version, rest) = cut_number(rest);
    let (record, object) = cut(rest);
    let kept = held_of(alloc, record)?;
    match listed_of(alloc, object) {
        Ok(object) => Ok(Call::Do(Work::DeliverDeck(Done {
            lease,
            deck,
            version,
            kept,
            object,
        }))),
        Err(error) => {
            drop(kept);
            Err(error)
        }
    }
}

/// The objects of decks of these cards, one each.
fn objects_of(alloc: Global, lines: &str) -> Got<Vec<ListedObject>> {
    let mut objects = Vec::new(alloc);
    for line in lines.split_whitespace() {
        objects.push(listed_of(alloc, line)?)?;
    }
    Ok(objects)
}

/// The link of their publication.
fn link_of(alloc: Global, text: &str) -> Got<Call> {
    let (lease, rest) = cut_number(text);
    let (version, lines) = cut_number(rest);
    let publication = ListedPublication::new(version, objects_of(alloc, lines)?);
    let publication = SharedPublication::new(alloc, publication)?;
    Ok(Call::Do(Work::DeliverLink { lease, publication }))
}

/// Edits by which the second card of a deck goes and comes again, so many in all.
fn edits_of(alloc: Global, count: u64) -> Got<Listed<Edit>> {
    let mut edits = Vec::new(alloc);
    for edit in 0..count {
        let edit = if edit % 2 == 0 {
            Edit::Remove { at: 2 }
        } else {
            let card = card_of("*B")?;
            Edit::Insert { at: 2, card }
        };
        edits.push(edit)?;
    }
    Ok(Listed::new(edits))
}

/// So many edits of M.
fn batch_of(alloc: Global, text: &str) -> Got<Call> {
    let (seen, count) = cut_number(text);
    let name = name_of("M")?;
    let (seen, edits) = (Seen::Exactly(seen), edits_of(alloc, number(count))?);
    asked(Change::EditDeck {
        name,
        seen,
        edits: Edits::Batch(edits),
    })
}

/// A job of a deck of one card, of which the second is removed.
fn job_that_does_not_apply(alloc: Global) -> Got<Job> {
    let name = name_of("M")?;
    let edits = edits_of(alloc, 1)?;
    let start = Start::FromCards(DeckCards::new(alloc, cards_of(alloc, "*A")?)?);
    Ok(Job::Deck(DeckWork {
        lease: 7,
        deck: 1,
        version: 2,
        name,
        start,
        edits,
    }))
}

/// Runs it, and shows what it made: nothing.
fn push_lost(alloc: Global, keys: RandomState, answer: &mut Answer) {
    let Some(job) = answer.kept(job_that_does_not_apply(alloc)) else {
        return;
    };
    match job.run(alloc, keys, &mut work_meter::begin()) {
        Made::Lost { lease, fault } => {
            answer.number("lost ", lease);
            answer.push(" ");
            answer.debug(&fault);
        }
        made => {
            answer.push("made");
            drop(made);
        }
    }
}
