//! Scenarios of decks whose texts are long, so that a run makes and sends them part by part: what goes
//! out is held against the texts that are made whole.

use crate::decks::DeckText;
use crate::pieces::{Came, Tries, fail_each, held, written};
use crate::ports::{AsmRun, try_whole, went_out};
use crate::scene::Scene;
use asm_main::{AsmFault, Built, Chosen, asm_build, write_chosen};
use deck_linker::{Publication, link};
use deck_objects::SharedObject;
use std::alloc::Global;
use std::io::BufRead;
use test_parts::{Failing, Got, fixed_keys, object_of};
use text_ports::Counted;

/// How the decks begin: they enter names for each other, one that no deck enters is missing, and both
/// store in a common block.
const HEADS: [DeckText; 2] = [
    DeckText {
        name: "LONG1",
        lines: "          IDENT  LONG1
          ENTRY  FIRST
          EXT    SECOND
FIRST     SA1    SECOND
          USE    /TAB/
          DATA   1,2
          USE    0
",
    },
    DeckText {
        name: "LONG2",
        lines: "          IDENT  LONG2
          ENTRY  SECOND
          EXT    FIRST,NONE
SECOND    SA1    FIRST
          SA2    NONE
          USE    /TAB/
          DATA   3
          USE    0
",
    },
];

/// A statement of a hundred words.
const WORDS: &str = "          DIS    100,A
";

/// How many of them a deck has. Both have 140,000 words with as many fields, which is more than a run
/// makes whole.
const TIMES: usize = 700;

/// In pieces of how many bytes their texts go out.
const MEGABYTE: usize = 1_000_000;

/// How they end.
const END: &str = "          END
";

/// Puts the lines of a deck behind others.
fn push_deck(lines: &mut Vec<u8>, deck: &DeckText) -> Got<()> {
    lines.extend_from_slice(deck.lines.as_bytes())?;
    for _ in 0..TIMES {
        lines.extend_from_slice(WORDS.as_bytes())?;
    }
    lines.extend_from_slice(END.as_bytes())
}

/// The lines of both decks.
fn input_of(alloc: Global) -> Got<Vec<u8>> {
    let mut lines = Vec::new(alloc);
    for deck in &HEADS {
        push_deck(&mut lines, deck)?;
    }
    Ok(lines)
}

/// The objects of both decks.
fn objects_of(alloc: Global) -> Got<Vec<SharedObject>> {
    let mut objects = Vec::new(alloc);
    for deck in &HEADS {
        let mut lines = Vec::new(alloc);
        push_deck(&mut lines, deck)?;
        let lines = str::from_utf8(&lines).unwrap_or("");
        objects.push(object_of(alloc, deck.name, lines)?)?;
    }
    Ok(objects)
}

/// The publication of both decks, whose texts are made whole.
fn published(alloc: Global) -> Got<Publication> {
    link(alloc, fixed_keys()?, objects_of(alloc)?, 0)
}

/// What is held against what goes out.
fn whole_of(scene: &mut Scene) -> Got<Publication> {
    let published = published(scene.alloc);
    scene.journal.got("link", published)
}

/// The output of a run with these texts.
fn output_of(alloc: Global, whole: &Publication) -> Got<Vec<u8>> {
    let mut output = Vec::from_slice(alloc, whole.listing())?;
    output.extend_from_slice(whole.image())?;
    Ok(output)
}

/// What a run of these lines is held against.
fn run_of<'i>(scene: &mut Scene, input: &'i [u8]) -> Got<AsmRun<'i>> {
    let whole = whole_of(scene)?;
    let output = output_of(scene.alloc, &whole);
    drop(whole);
    Ok(AsmRun {
        input,
        output: output?,
    })
}

/// A run in which no port fails.
pub fn run(scene: &mut Scene) -> Got<()> {
    let input = input_of(scene.alloc)?;
    let run = run_of(scene, &input)?;
    try_whole(scene, "asm_run", &run)
}

/// Each write of a run, in pieces of a megabyte.
pub fn ports(scene: &mut Scene) -> Got<()> {
    let input = input_of(scene.alloc)?;
    let run = run_of(scene, &input)?;
    fail_each(scene, "asm_run", &run, MEGABYTE, false)
}

/// One of the texts, which goes to an output of its own.
fn choice_of(text: &str) -> Chosen {
    Chosen {
        listing: text == "listing",
        map: text == "map",
        image: text == "image",
    }
}

/// The texts of these lines, each to an output of its own.
#[derive(Drop)]
struct Outputs<'p> {
    input: &'p [u8],
    whole: &'p Publication,
}

/// Builds decks. What comes of it is looked at and no contract of it.
fn build_of<R: BufRead>(alloc: Global, input: &mut Counted<R>) -> Result<Built, AsmFault> {
    asm_build(alloc, fixed_keys()?, input)
}

/// Writes one of the texts to an output of its own.
fn write_part(alloc: Global, failing: Failing, built: &mut Built, part: &str, text: &[u8]) -> Came {
    let mut output = failing.writer(alloc);
    let outcome = write_chosen(&mut output, built, choice_of(part));
    let faults = output.faults();
    let writer = output.into_inner();
    let taken = writer.taken();
    match outcome {
        Ok(()) => held(taken == text && faults == 0, Came::Whole),
        Err(broken) => written(failing, went_out(taken, text, broken.sent) && faults == 1),
    }
}

impl<'p> Outputs<'p> {
    /// Writes all texts, the first of them behind the others once more: a fault of one output leaves
    /// the others what they are. What is reported is that of the first that did not come to its end.
    fn write(&self, alloc: Global, failing: Failing, built: &mut Built) -> Came {
        let parts = [
            ("image", self.whole.image()),
            ("listing", self.whole.listings()),
            ("map", self.whole.map()),
            ("image", self.whole.image()),
        ];
        let mut came = Came::Whole;
        for (part, text) in &parts {
            let other = write_part(alloc, failing, built, *part, *text);
            if came == Came::Whole {
                came = other;
            }
        }
        came
    }
}

impl<'p> Tries for Outputs<'p> {
    fn try_once(&self, alloc: Global, failing: Failing) -> Got<Came> {
        match build_of(alloc, &mut Counted::new(self.input)) {
            Ok(mut built) => {
                let came = self.write(alloc, failing, &mut built);
                built.free();
                Ok(came)
            }
            Err(AsmFault::OutOfMemory) => Ok(Came::Lacking),
            Err(_) => Ok(Came::Wrong),
        }
    }
}

/// Each write of the texts that go to outputs of their own, in pieces of a megabyte.
pub fn parts(scene: &mut Scene) -> Got<()> {
    let input = input_of(scene.alloc)?;
    let whole = whole_of(scene)?;
    let outputs = Outputs {
        input: &input,
        whole: &whole,
    };
    let done = fail_each(scene, "asm_run", &outputs, MEGABYTE, false);
    drop(whole);
    done
}
