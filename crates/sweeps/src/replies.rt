//! A scenario of replies: each as a text in memory, and as it is written.
use crate::decks::DECKS;
use crate::scene::Scene;
use cards::CardFault;
use desk_core::{Row, State};
use desk_tests::{is_within, text_of};
use session_commands::Refusal;
use session_line::{Connected, Reply, Rights, write_reply};
use std::alloc::{AllocError, Global};
use test_parts::{Got, cards_of, name_of};
use text_ports::Counted;

/// How many bytes a reply has at most.
const ROOM: usize = 2000;

/// The replies whose texts have a length of their own.
const FEW: [Reply<'static>; 5] = [
    Reply::Done { version: 3 },
    Reply::Bye,
    Reply::Text {
        version: 12,
        text: b"MAP\nEND\n",
    },
    Reply::Refused(Refusal::OldVersion { current: 17 }),
    Reply::Refused(Refusal::BadLine {
        line: 4,
        fault: CardFault::BadCharacter { column: 9 },
    }),
];

/// A reply as it is written.
fn written(alloc: Global, reply: &Reply<'_>) -> Got<Vec<u8>> {
    if !is_within(reply) {
        return Err(AllocError);
    }
    let mut output = Counted::new(Vec::with_capacity(alloc, ROOM)?);
    write_reply(&mut output, reply).map_err(|_| AllocError)?;
    Ok(output.into_inner())
}

/// A reply as a text and as it is written, which are the same.
fn compare(scene: &mut Scene, reply: &Reply<'_>) -> Got<()> {
    let text = text_of(scene.alloc, reply);
    let text = scene.journal.got("reply_text", text)?;
    let other = written(scene.alloc, reply);
    let other = scene.journal.got("write_reply", other)?;
    scene.journal.made("reply_text", text == other);
    Ok(())
}

/// A row of a status.
fn row_of(name: &str, cards: usize, state: State) -> Got<Row> {
    Ok(Row {
        name: name_of(name)?,
        version: 5,
        cards,
        state,
        decks_behind: 2,
    })
}

/// The replies that show cards.
fn compare_cards(scene: &mut Scene) -> Got<()> {
    let cards = cards_of(scene.alloc, DECKS[0].lines)?;
    let many = Reply::Cards {
        version: 5,
        cards: &cards,
    };
    let found = Reply::Found {
        version: 5,
        cards: &cards,
        text: b"A",
    };
    compare(scene, &many)?;
    compare(scene, &found)
}

/// The reply that shows how decks stand.
fn compare_status(scene: &mut Scene) -> Got<()> {
    let rows = [
        row_of("MAIN", 12, State::Behind)?,
        row_of("N", 20_000, State::Out)?,
    ];
    let status = Reply::Status {
        version: 12,
        published: Some(11),
        decks: &rows,
    };
    compare(scene, &status)
}

/// The reply that shows who is connected.
fn compare_sessions(scene: &mut Scene) -> Got<()> {
    let sessions = [
        Connected {
            number: 0,
            who: name_of("PAT")?,
            rights: Rights::Edits,
        },
        Connected {
            number: 15,
            who: name_of("15")?,
            rights: Rights::Reads,
        },
    ];
    let greeted = Reply::Sessions {
        version: 12,
        sessions: &sessions,
    };
    compare(scene, &greeted)
}

/// Each sort of reply.
pub fn replies(scene: &mut Scene) -> Got<()> {
    for reply in &FEW {
        compare(scene, reply)?;
    }
    compare_cards(scene)?;
    compare_status(scene)?;
    compare_sessions(scene)
}
