//! The longest turns of a desk with as much on it as it may have: 64 decks of 20,000 cards, which are edited, read,
//! replaced and dropped, and each time assembled, linked and published as workers do it. A line for each kind of
//! calls shows how many turns there were, and the longest of them in microseconds of processor time.

use cards::{Card, DeckName, Edit};
use deck_workers::{Job, Made, Runs, job_in};
use desk_core::{Call, Change, DeckCards, Desk, Edits, Listed, NewDeck, Question, Reply, Work};
use session_commands::Seen;
use std::alloc::{AllocError, AllocGlobal, Global};
use std::hash::RandomState;
use std::io;
use std::time::{CpuClock, Duration};
use test_parts::{card_of, fixed_keys, name_of};
use work_meter::Meter;

/// How many decks there are.
const DECKS: usize = 64;

/// How many cards each has.
const CARDS: usize = 20_000;

/// How many edits a batch has at most.
const MOST_EDITS: usize = 100;

/// How many jobs a desk has at once at most: its decks and their link.
const MOST_JOBS: usize = DECKS + 1;

/// The statements of a deck.
const STATEMENTS: [&str; 5] = [
    "          SB1    1",
    "          BX6    X1",
    "          SX2    B3+1234B",
    "          BX7    X1*X2",
    "          EQ     100B",
];

/// The kinds of calls that no round asks.
const KINDS: [&str; 4] = ["deck added", "claim", "delivery", "publish"];

/// The turns of one kind of calls.
#[derive(Clone, Copy)]
struct Row {
    kind: &'static str,
    count: u64,
    longest: Duration,
}

impl Row {
    /// None yet of this kind.
    fn of(kind: &'static str) -> Row {
        Row {
            kind,
            count: 0,
            longest: Duration::ZERO,
        }
    }
}

/// A row for each kind of calls.
fn all_rows(alloc: Global) -> Result<Vec<Row>, AllocError> {
    let mut rows = Vec::new(alloc);
    for kind in &KINDS {
        rows.push(Row::of(kind))?;
    }
    for round in &ROUNDS {
        rows.push(Row::of(round.1))?;
    }
    Ok(rows)
}

/// The processor time of the process; none where it can't be read.
fn time_of<R: CpuClock>(rt: &R) -> Duration {
    match rt.process_cpu_time() {
        Ok(time) => time,
        Err(_) => Duration::ZERO,
    }
}

/// Frees the cards that a job began with, if they are held.
fn free_cards(before: Result<Option<DeckCards>, AllocError>) {
    match before {
        Ok(Some(cards)) => cards.free(),
        Ok(None) | Err(_) => {}
    }
}

/// A desk, and what its turns take.
#[derive(Drop)]
struct Timed {
    alloc: Global,
    keys: RandomState,
    desk: Desk,
    meter: Meter,
    rows: Vec<Row>,
}

impl Timed {
    fn new(alloc: Global) -> Result<Timed, AllocError> {
        let keys = fixed_keys()?;
        let rows = all_rows(alloc)?;
        Ok(Timed {
            alloc,
            keys,
            desk: Desk::new(alloc),
            meter: work_meter::begin(),
            rows,
        })
    }

    /// Notes a turn of this kind.
    fn note(&mut self, kind: &str, spent: Duration) {
        for row in self.rows.iter_mut() {
            if row.kind == kind {
                row.count = row.count.saturating_add(1);
                row.longest = row.longest.max(spent);
            }
        }
    }

    /// Asks the desk, and notes what that took.
    fn ask<R: CpuClock>(&mut self, rt: &R, kind: &str, call: Call) -> Reply {
        let before = time_of(rt);
        let reply = ask(&mut self.desk, call);
        self.note(kind, time_of(rt).saturating_sub(before));
        reply
    }

    /// Has all decks assembled and published.
    fn settle<R: CpuClock>(&mut self, rt: &R) {
        for _ in 0..MOST_JOBS {
            match self.claim(rt) {
                Some(job) => self.end(rt, job),
                None => return,
            }
        }
    }

    /// The job that is due next, if one is.
    fn claim<R: CpuClock>(&mut self, rt: &R) -> Option<Job> {
        job_in(self.ask(rt, "claim", Call::Do(Work::Claim)))
    }

    /// Does a job, and hands in what is made of it. What the job began with is held until it is answered, as a
    /// worker does.
    fn end<R: CpuClock>(&mut self, rt: &R, job: Job) {
        let before = job.cards_before(self.alloc);
        let made = job.run(self.alloc, self.keys, &mut self.meter);
        self.hand_in(rt, made);
        free_cards(before);
    }

    /// Hands in what was made of a job: a result is delivered, and the desk publishes its own decks.
    fn hand_in<R: CpuClock>(&mut self, rt: &R, made: Made) {
        let what = if made.published().is_some() {
            "publish"
        } else {
            "delivery"
        };
        self.ask(rt, what, made.into_call()).free();
    }
}

/// Asks a desk. What it answers is looked at and no contract of it, and so who asks has no facts of it.
fn ask(desk: &mut Desk, call: Call) -> Reply {
    desk.step(call)
}

/// The name of a deck.
fn name_at(alloc: Global, number: usize) -> Result<DeckName, AllocError> {
    let name = format!(in alloc; "D{number}")?;
    name_of(name.as_str())
}

/// The first card of a deck.
fn first_card(alloc: Global, number: usize) -> Result<Card, AllocError> {
    let first = format!(in alloc; "          IDENT  D{number}")?;
    card_of(first.as_str())
}

/// The cards of a deck.
fn cards_at(alloc: Global, number: usize) -> Result<Vec<Card>, AllocError> {
    let first = first_card(alloc, number)?;
    let mut cards = Vec::with_capacity(alloc, CARDS)?;
    cards.push(first)?;
    for statement in STATEMENTS.iter().cycle().take(CARDS - 2) {
        cards.push(card_of(statement)?)?;
    }
    cards.push(card_of("          END")?)?;
    Ok(cards)
}

/// A deck.
fn deck_at(alloc: Global, number: usize) -> Result<NewDeck, AllocError> {
    Ok(NewDeck::new(name_at(alloc, number)?, cards_at(alloc, number)?))
}

/// An edit in front of a card of the deck.
fn insertion(at: u64) -> Result<Edit, AllocError> {
    let card = card_of("          SB2    2")?;
    Ok(Edit::Insert { at, card })
}

/// An edit of a card in the middle of a deck.
fn replacement() -> Result<Edit, AllocError> {
    let at = (CARDS / 2) as u64;
    let card = card_of("          SB3    3")?;
    Ok(Edit::Replace { at, card })
}

/// A hundred edits of a deck: cards come in at its front, and as many go at its end.
fn edits_of(alloc: Global) -> Result<Listed<Edit>, AllocError> {
    let mut edits = Vec::with_capacity(alloc, MOST_EDITS)?;
    for _ in 0..MOST_EDITS / 2 {
        edits.push(Edit::Remove {
            at: (CARDS - 1) as u64,
        })?;
        edits.push(insertion(2)?)?;
    }
    Ok(Listed::new(edits))
}

/// What is asked of a desk of full decks.
#[derive(Clone, Copy)]
enum Asked {
    Edit,
    Batch,
    Undo,
    Cards,
    CardsAt,
    Changes,
    Status,
    Put,
    Drop,
}

/// What is asked, what that is called, of how many decks in turn, and how often in all.
const ROUNDS: [(Asked, &str, usize, usize); 11] = [
    (Asked::Edit, "edit of one deck", 1, 20),
    (
        Asked::Edit,
        "edit of one deck after the other",
        DECKS,
        DECKS,
    ),
    (Asked::Batch, "batch of 100", 8, 8),
    (Asked::Undo, "batch of 100 taken back", 8, 8),
    (Asked::Batch, "batch of 100 of one deck", 1, 8),
    (Asked::Cards, "cards", 8, 8),
    (Asked::CardsAt, "cards of an older version", 8, 8),
    (Asked::Changes, "changes", 8, 8),
    (Asked::Status, "status", 8, 8),
    (Asked::Put, "deck put", 8, 8),
    (Asked::Drop, "deck dropped", 8, 8),
];

/// What is asked of a deck that has this version.
fn call_of(alloc: Global, asked: Asked, number: usize, seen: u64) -> Result<Call, AllocError> {
    let name = name_at(alloc, number)?;
    let before = seen.saturating_sub(1);
    Ok(match asked {
        Asked::Edit => made(edited(name, seen, Edits::One(replacement()?)))?,
        Asked::Batch => made(edited(name, seen, Edits::Batch(edits_of(alloc)?)))?,
        Asked::Undo => made(Change::Undo {
            name,
            version: seen,
        })?,
        Asked::Cards => Call::Ask(Question::Cards(name)),
        Asked::CardsAt => Call::Ask(Question::CardsAt {
            name,
            version: before,
        }),
        Asked::Changes => Call::Ask(Question::Changes {
            name,
            since: before,
        }),
        Asked::Status => Call::Ask(Question::Status),
        Asked::Put => {
            let deck = deck_at(alloc, number)?;
            made(Change::PutDeck { deck, seen })?
        }
        Asked::Drop => made(Change::DropDeck { name, seen })?,
    })
}

/// Edits of a deck by who saw its version.
fn edited(name: DeckName, seen: u64, edits: Edits) -> Change {
    let seen = Seen::Exactly(seen);
    Change::EditDeck { name, seen, edits }
}

/// The call that makes a change.
fn made(change: Change) -> Result<Call, AllocError> {
    let by = name_of("KEEPER")?;
    Ok(Call::Make { by, change })
}

/// Adds all decks, two at a time, and answers the version of each.
fn add_all<R: CpuClock>(rt: &R, timed: &mut Timed) -> Result<Vec<u64>, AllocError> {
    let mut seen = Vec::with_capacity(timed.alloc, DECKS)?;
    for number in 0..DECKS {
        let deck = deck_at(timed.alloc, number)?;
        timed
            .ask(rt, "deck added", made(Change::AddDeck(deck))?)
            .free();
        seen.push(timed.desk.version())?;
        if number % 2 == 1 {
            timed.settle(rt);
        }
    }
    Ok(seen)
}

/// Asks once, of the deck of a number, and notes the version that it has then.
fn ask_once<R: CpuClock>(
    rt: &R,
    timed: &mut Timed,
    asked: Asked,
    kind: &'static str,
    number: usize,
    seen: &mut [u64],
) -> Result<(), AllocError> {
    let Some(version) = seen.get_mut(number) else {
        return Ok(());
    };
    let before = timed.desk.version();
    let call = call_of(timed.alloc, asked, number, *version)?;
    timed.ask(rt, kind, call).free();
    if timed.desk.version() != before {
        *version = timed.desk.version();
    }
    timed.settle(rt);
    Ok(())
}

/// Asks of some decks in turn, so often in all.
fn ask_often<R: CpuClock>(
    rt: &R,
    timed: &mut Timed,
    round: &(Asked, &'static str, usize, usize),
    seen: &mut [u64],
) -> Result<(), AllocError> {
    let (asked, kind, decks, times) = *round;
    for time in 0..times {
        ask_once(rt, timed, asked, kind, time % decks.max(1), seen)?;
    }
    Ok(())
}

/// Goes through all rounds.
fn go_through<R: CpuClock>(rt: &R, timed: &mut Timed) -> Result<(), AllocError> {
    let mut seen = add_all(rt, timed)?;
    for round in &ROUNDS {
        ask_often(rt, timed, round, seen.as_mut_slice())?;
    }
    Ok(())
}

/// Measures, and prints the table.
pub fn measure<R: AllocGlobal + CpuClock + Print>(rt: &R) -> io::Result<()> {
    let mut timed = Timed::new(rt.alloc())?;
    let done = go_through(rt, &mut timed);
    let Timed {
        alloc,
        keys,
        desk,
        meter,
        rows,
    } = timed;
    let _ = (alloc, keys);
    drop(meter);
    desk.free();
    done?;
    for row in &rows {
        let Row {
            kind,
            count,
            longest,
        } = row;
        println!(rt;
            "{kind}: {count} turns, {} microseconds at most",
            longest.as_micros()
        )?;
    }
    Ok(())
}
