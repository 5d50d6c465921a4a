//! Scenarios of much: a hundred edits that go with one job, and a desk with as many decks as it may
//! have.

use crate::jobs::{End, do_jobs};
use crate::scene::Scene;
use std::alloc::Global;
use test_parts::Got;

/// How many decks a desk has at most.
const DECK_COUNT: u64 = 64;

/// Edits of the first deck, which leave it with one card more.
const LINES: &str = "INS 5           SA4    =77\nREP 5           SA4    =78,X\nINS 6 *A\nDEL 6\n";

/// How often they are in the batch: a hundred edits, as many as it may have.
const TIMES: usize = 25;

/// The batch of a hundred edits.
fn batch(alloc: Global) -> Got<Vec<u8>> {
    let mut lines = Vec::from_slice(alloc, b"BATCH MAIN 1 100\n")?;
    for _ in 0..TIMES {
        lines.extend_from_slice(LINES.as_bytes())?;
    }
    Ok(lines)
}

/// A job of a hundred edits on a record.
pub fn edits(scene: &mut Scene) -> Got<()> {
    scene.load_decks();
    scene.settle_as_asm()?;
    let lines = batch(scene.alloc)?;
    scene.say("BATCH", &lines, b"OK 4\n");
    do_jobs(scene, &[End::Delivered], 2);
    scene.settle_as_asm()
}

/// Puts a deck of a few cards whose name has a number, as one of these versions.
fn put_numbered(scene: &mut Scene, number: u64) -> Got<()> {
    let lines = format!(in scene.alloc;
        "PUT D{number} 0 3\n          IDENT  D{number}\nLAB       SA1    =7\n          END\n"
    )?;
    let reply = format!(in scene.alloc; "OK {number}\n")?;
    scene.say("PUT", lines.as_bytes(), reply.as_bytes());
    Ok(())
}

/// What is said to the desk of 64 decks that is published.
const FULL: &str = "> ADD MORE
NO TooManyDecks
> INS D1 1 2 *A
OK 65
";

/// What it shows when that edit is published, too.
const SHOWN: &str = "> LIST D64
OK 65 8
DECK D64 REL
00001           IDENT  D64
00002 LAB       SA1    =7
  000000 0 5110000001
00003           END
BLOCK 0 00000000 00000001
BLOCK = 00000001 00000001
ERRORS 0
> ERRORS
OK 65 1
END
";

/// Asks how the desk stands before its decks are assembled.
fn ask_status(scene: &mut Scene) -> Got<()> {
    let mut reply = Vec::from_slice(scene.alloc, b"OK 64 65\nPUBLISHED NONE\n")?;
    for before in 0..DECK_COUNT {
        let number = before.saturating_add(1);
        let row = format!(in scene.alloc; "D{number} {number} 3 BEHIND\n")?;
        reply.extend_from_slice(row.as_bytes())?;
    }
    scene.say("STATUS", b"STATUS\n", &reply);
    Ok(())
}

/// A desk of 64 decks that is claimed from, by a job of a deck and by that of their link, and shown.
pub fn decks(scene: &mut Scene) -> Got<()> {
    for before in 0..DECK_COUNT {
        put_numbered(scene, before.saturating_add(1))?;
    }
    ask_status(scene)?;
    scene.settle_as_asm()?;
    scene.say_all(FULL);
    do_jobs(scene, &[End::Delivered], 2);
    scene.say_all(SHOWN);
    scene.settle_as_asm()
}
