//! Scenarios of ports: each read and each write of a run, of a file that is loaded and of one that is
//! saved fails in turn.

use crate::decks::DECKS;
use crate::notes::Called;
use crate::pieces::{Came, Tries, fail_all, held, try_twice, written};
use crate::scene::Scene;
use asm_main::AsmFault;
use cards::{Card, MOST_CARDS};
use deck_files::{LoadFault, load, save};
use std::alloc::{AllocError, Global};
use std::io::BufReader;
use test_parts::{Failing, Got, asm_answer, assembled, cards_of};
use text_ports::Counted;

/// A deck with few bytes of output.
const SMALL: &str = "          IDENT  T
          SB1    1
          BX6    X1
          END
";

/// Whether so many bytes of a text went out, and no more.
pub fn went_out(taken: &[u8], wanted: &[u8], sent: usize) -> bool {
    taken.len() == sent && wanted.starts_with(taken)
}

/// A run of this input has this output.
#[derive(Drop)]
pub struct AsmRun<'i> {
    pub input: &'i [u8],
    pub output: Vec<u8>,
}

impl<'i> Tries for AsmRun<'i> {
    /// Before all is read nothing is written; after a fault of the writer exactly the bytes that are
    /// shown went out.
    fn try_once(&self, alloc: Global, failing: Failing) -> Got<Came> {
        let reader = BufReader::new(alloc, failing.reader(self.input)).map_err(|_| AllocError)?;
        let mut input = Counted::new(reader);
        let mut output = failing.writer(alloc);
        let outcome = assembled(alloc, &mut input, &mut output);
        let faults = output.faults();
        let writer = output.into_inner();
        let taken = writer.taken();
        let is_silent = taken.is_empty() && faults == 0;
        Ok(match outcome {
            Ok(_) => held(taken == self.output.as_slice() && faults == 0, Came::Whole),
            Err(AsmFault::ReadFault) => held(is_silent, Came::Failed),
            Err(AsmFault::OutOfMemory) => held(is_silent, Came::Lacking),
            Err(AsmFault::WriteFault { sent }) => {
                written(failing, went_out(taken, &self.output, sent) && faults == 1)
            }
            Err(_) => Came::Wrong,
        })
    }
}

/// A file of so many cards.
#[derive(Drop)]
struct Loaded {
    file: &'static str,
    count: usize,
}

impl Tries for Loaded {
    fn try_once(&self, alloc: Global, failing: Failing) -> Got<Came> {
        let mut reader = Counted::new(failing.reader(self.file.as_bytes()));
        let outcome = load(alloc, &mut reader);
        let faults = reader.faults();
        Ok(match outcome {
            Ok(cards) => held(cards.len() == self.count && faults == 0, Came::Whole),
            Err(LoadFault::ReadFault) => held(faults == 1, Came::Failed),
            Err(LoadFault::OutOfMemory) => held(faults == 0, Came::Lacking),
            Err(_) => Came::Wrong,
        })
    }
}

/// Cards and their file.
#[derive(Drop)]
struct Saved {
    file: &'static str,
    cards: Vec<Card>,
}

impl Tries for Saved {
    fn try_once(&self, alloc: Global, failing: Failing) -> Got<Came> {
        if self.cards.len() > MOST_CARDS {
            return Ok(Came::Wrong);
        }
        let file = self.file.as_bytes();
        let mut output = failing.writer(alloc);
        let outcome = save(&mut output, &self.cards);
        let faults = output.faults();
        let writer = output.into_inner();
        let taken = writer.taken();
        Ok(match outcome {
            Ok(()) => held(taken == file && faults == 0, Came::Whole),
            Err(broken) => written(failing, went_out(taken, file, broken.sent) && faults == 1),
        })
    }
}

/// What a run, a load and a save of these lines are held against.
fn all_of(scene: &mut Scene, lines: &'static str) -> Got<(AsmRun<'static>, Loaded, Saved)> {
    let answer = asm_answer(scene.alloc, lines.as_bytes());
    let output = scene.journal.got("asm_run", answer)?;
    let cards = cards_of(scene.alloc, lines)?;
    let (input, file, count) = (lines.as_bytes(), lines, cards.len());
    let (run, loaded) = (AsmRun { input, output }, Loaded { file, count });
    Ok((run, loaded, Saved { file, cards }))
}

/// Each read and each write of these, in pieces.
fn fail_ports(scene: &mut Scene, run: &AsmRun<'_>, loaded: &Loaded, saved: &Saved) -> Got<()> {
    fail_all(scene, "asm_run", run, &[true, false])?;
    fail_all(scene, "load", loaded, &[true])?;
    fail_all(scene, "save", saved, &[false])
}

/// Each read and each write of a run, and of its cards as a file, in pieces.
pub fn ports(scene: &mut Scene) -> Got<()> {
    let (run, loaded, saved) = all_of(scene, SMALL)?;
    fail_ports(scene, &run, &loaded, &saved)
}

/// Tries where no port fails.
pub fn try_whole<T: Tries>(scene: &mut Scene, call: Called, tried: &T) -> Got<()> {
    let came = try_twice(scene, call, tried, Failing::never(80))?;
    scene.journal.made(call, came == Came::Whole);
    Ok(())
}

/// These, where no port fails.
fn try_ports(scene: &mut Scene, run: &AsmRun<'_>, loaded: &Loaded, saved: &Saved) -> Got<()> {
    try_whole(scene, "asm_run", run)?;
    try_whole(scene, "load", loaded)?;
    try_whole(scene, "save", saved)
}

/// A run, a load and a save of a deck in which no port fails.
fn run_deck(scene: &mut Scene, lines: &'static str) -> Got<()> {
    let (run, loaded, saved) = all_of(scene, lines)?;
    try_ports(scene, &run, &loaded, &saved)
}

/// Runs, loads and saves of each deck in which no port fails.
pub fn runs(scene: &mut Scene) -> Got<()> {
    for deck in &DECKS {
        run_deck(scene, deck.lines)?;
    }
    Ok(())
}
