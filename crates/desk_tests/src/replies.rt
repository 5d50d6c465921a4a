//! Replies of sessions as texts, faults as texts, and moments.
//!
//! `replies`, `refusals`, `faults`: those of tables; `cards LINES`, `found TEXT|LINES`: replies that show
//! cards; `status`, `saved`: replies that show two decks, and what became of them; `broken`: a reply whose
//! writer fails at each byte in turn; `moment SECONDS`.

use crate::reply_texts::text_of;
use cards::{Card, CardFault, EditFault};
use deck_files::LoadFault;
use desk_core::{Row, State};
use moments::Moment;
use session_commands::Refusal;
use session_line::{DeckOutcome, MarkedRow, Reply, ToldDeck, write_reply};
use std::alloc::{AllocError, Global};
use test_parts::{Answer, FaultyWriter, cards_of, cut_line, name_of, number};
use text_ports::Counted;

/// Makes a step of this word, if it is one of replies, and answers whether it is.
pub fn make(word: &str, rest: &str, answer: &mut Answer) -> bool {
    match word {
        "replies" => push_replies(answer),
        "refusals" => push_refusals(answer),
        "cards" => show_cards(answer, rest),
        "found" => show_found(answer, rest),
        "status" => show_status(answer),
        "saved" => show_saved(answer),
        "broken" => push_broken(answer),
        "faults" => push_faults(answer),
        "moment" => push_moment(answer, number(rest)),
        _ => return false,
    }
    true
}

/// A reply as its text.
fn push_reply(answer: &mut Answer, reply: &Reply<'_>) {
    match text_of(answer.alloc, reply) {
        Ok(text) => answer.bytes(&text),
        Err(error) => answer.keep(Err(error)),
    }
}

/// Replies that show neither cards nor decks.
const REPLIES: [Reply<'static>; 3] = [
    Reply::Done { version: 1 },
    Reply::Bye,
    Reply::Text {
        version: 0,
        text: b"MAP\nEND\n",
    },
];

fn push_replies(answer: &mut Answer) {
    for reply in &REPLIES {
        push_reply(answer, reply);
    }
}

const BAD: CardFault = CardFault::BadCharacter { column: 1 };

const REFUSALS: [Refusal; 16] = [
    Refusal::BadCommand,
    Refusal::BadName,
    Refusal::NoPublication,
    Refusal::OldVersion { current: 1 },
    Refusal::NoSuchCard,
    Refusal::BadCard(BAD),
    Refusal::BadCard(CardFault::TooWide),
    Refusal::NoDeck,
    Refusal::Forgotten { oldest: 12 },
    Refusal::Touched {
        card: 1,
        version: 4,
    },
    Refusal::NoChange,
    Refusal::ReadOnly,
    Refusal::LastLineCut,
    Refusal::WriteFault { sent: 3 },
    Refusal::BadLine {
        line: 1,
        fault: BAD,
    },
    Refusal::BadEdit {
        number: 2,
        fault: EditFault::NoSuchCard,
    },
];

fn push_refusals(answer: &mut Answer) {
    for refusal in &REFUSALS {
        push_reply(answer, &Reply::Refused(*refusal));
    }
}

/// The cards of some lines, none where there is no memory.
fn cards_in(answer: &mut Answer, lines: &str) -> Vec<Card> {
    match cards_of(answer.alloc, lines) {
        Ok(cards) => cards,
        Err(error) => {
            answer.keep(Err(error));
            Vec::new(answer.alloc)
        }
    }
}

fn show_cards(answer: &mut Answer, lines: &str) {
    let cards = cards_in(answer, lines);
    let reply = Reply::Cards {
        version: 5,
        cards: &cards,
    };
    push_reply(answer, &reply);
}

fn show_found(answer: &mut Answer, text: &str) {
    let (text, lines) = cut_line(text);
    let cards = cards_in(answer, lines);
    let reply = Reply::Found {
        version: 5,
        cards: &cards,
        text: text.as_bytes(),
    };
    push_reply(answer, &reply);
}

/// A deck that is behind.
fn behind() -> Result<Row, AllocError> {
    Ok(Row {
        name: name_of("M")?,
        version: 1,
        cards: 0,
        state: State::Behind,
        decks_behind: 0,
    })
}

/// A deck that is full and ready.
fn full() -> Result<Row, AllocError> {
    Ok(Row {
        name: name_of("N")?,
        version: 12,
        cards: 20_000,
        state: State::Ready,
        decks_behind: 3,
    })
}

/// A deck that is behind, and one that is full and ready.
fn rows() -> Result<[Row; 2], AllocError> {
    Ok([behind()?, full()?])
}

fn push_status(answer: &mut Answer, version: u64, published: Option<u64>, decks: &[Row]) {
    let reply = Reply::Status {
        version,
        published,
        decks,
    };
    push_reply(answer, &reply);
}

fn show_status(answer: &mut Answer) {
    match rows() {
        Ok(rows) => {
            push_status(answer, 1, None, rows.split_at(1).0);
            push_status(answer, 12, Some(11), &rows);
        }
        Err(error) => answer.keep(Err(error)),
    }
}

/// Pushes a status of a deck whose file has not its cards, and of one whose file has.
fn push_marked(answer: &mut Answer) -> Result<(), AllocError> {
    let decks = [
        MarkedRow {
            row: behind()?,
            saved: false,
        },
        MarkedRow {
            row: full()?,
            saved: true,
        },
    ];
    let reply = Reply::FileStatus {
        version: 12,
        published: Some(11),
        decks: &decks,
    };
    push_reply(answer, &reply);
    Ok(())
}

/// Pushes what became of a deck that was saved, and of one that was not.
fn push_saved(answer: &mut Answer) -> Result<(), AllocError> {
    let decks = [
        ToldDeck {
            name: name_of("M")?,
            outcome: DeckOutcome::Done(7),
        },
        ToldDeck {
            name: name_of("N")?,
            outcome: DeckOutcome::Refused(Refusal::WriteFault { sent: 3 }),
        },
    ];
    let reply = Reply::Decks {
        version: 12,
        decks: &decks,
    };
    push_reply(answer, &reply);
    Ok(())
}

fn show_saved(answer: &mut Answer) {
    let pushed = push_marked(answer);
    answer.keep(pushed);
    let pushed = push_saved(answer);
    answer.keep(pushed);
}

/// Writes a reply by a writer that takes a byte a call, and fails at the call of this number: how many bytes went
/// out, which, and how many faults there were.
fn push_cut(answer: &mut Answer, fails_at: u64) {
    let mut output = Counted::new(FaultyWriter::new(answer.alloc, 1, fails_at));
    let written = write_reply(&mut output, &Reply::Done { version: 2 });
    answer.debug(&written);
    answer.number(" ", output.faults());
    answer.push(" ");
    answer.bytes(output.into_inner().taken());
    answer.line("");
}

fn push_broken(answer: &mut Answer) {
    for call in 1..6 {
        push_cut(answer, call);
    }
}

/// Faults of files.
const LOAD_FAULTS: [LoadFault; 5] = [
    LoadFault::BadLine {
        line: 1,
        fault: BAD,
    },
    LoadFault::LastLineCut,
    LoadFault::DeckFull,
    LoadFault::ReadFault,
    LoadFault::OutOfMemory,
];

fn push_faults(answer: &mut Answer) {
    for fault in &LOAD_FAULTS {
        answer.shown(fault);
        answer.line("");
    }
}

fn push_moment(answer: &mut Answer, seconds: u64) {
    answer.bytes(Moment::of_seconds(seconds).as_slice());
    answer.line("");
}
