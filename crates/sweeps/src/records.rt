//! Scenarios of records and of texts: a record that is edited is spent for want of memory, and its
//! cards are as they were; texts and links are made of them.

use crate::decks::{DECKS, DeckText, are_same, push_lines};
use crate::notes::Called;
use crate::scene::Scene;
use cards::{Card, Edit, copied_cards};
use deck_linker::{Publication, link};
use deck_listing::{image, listing};
use deck_objects::SharedObject;
use edit_core::{FinishFault, Kept, RecordFault};
use session_commands::read_batch_line;
use std::alloc::{AllocError, Global};
use std::hash::RandomState;
use std::mem;
use test_parts::{Got, asm_answer, cards_of, name_of, new_record};
use text_ports::Text;

/// Edits of a deck, and the fault of each where there is memory.
const EDITS: [(&str, Option<RecordFault>); 5] = [
    ("INS 3 LAB       DATA   =3", None),
    ("REP 2 *A", None),
    ("DEL 99", Some(RecordFault::NoSuchCard)),
    ("INS 2           PERIPH", None),
    ("DEL 2", None),
];

/// The edit of a line.
fn edit_of(line: &str) -> Got<Edit> {
    read_batch_line(line.as_bytes()).map_err(|_| AllocError)
}

/// Edits a record, and answers its fault, if there is one.
fn fault_of_edit(
    alloc: Global,
    keys: RandomState,
    kept: &mut Kept,
    edit: &Edit,
) -> Option<RecordFault> {
    let mut meter = work_meter::begin();
    kept.edit(alloc, keys, edit, &mut meter).err()
}

/// Whether a record has these cards, and is spent: nothing is edited and nothing comes of it.
fn is_spent_with(
    alloc: Global,
    keys: RandomState,
    kept: &mut Kept,
    cards: &[Card],
    edit: &Edit,
) -> bool {
    let finished = kept.finish();
    let gives_nothing = matches!(&finished, Err(FinishFault::Spent));
    drop(finished);
    let is_spent = kept.is_spent() && gives_nothing;
    let is_fault = fault_of_edit(alloc, keys, kept, edit) == Some(RecordFault::Spent);
    is_spent && is_fault && are_same(kept.cards(), cards)
}

/// Puts a new record of these cards in the place of one that is spent by an edit, as it is to be.
fn renew(scene: &mut Scene, kept: &mut Kept, before: &[Card], edit: &Edit) -> Got<()> {
    let holds = is_spent_with(scene.alloc, scene.keys, kept, before, edit);
    scene.journal.refused("edit", holds);
    let cards = copied_cards(scene.alloc, before)?;
    let renewed = new_record(scene.alloc, kept.name().copied(), cards)?;
    mem::replace(kept, renewed).free();
    Ok(())
}

/// Edits a record, and answers its fault, if there is one. Where there is no memory, the record is
/// spent, and a new one takes its place.
fn edit_once(scene: &mut Scene, kept: &mut Kept, edit: &Edit) -> Got<Option<RecordFault>> {
    let before = copied_cards(scene.alloc, kept.cards())?;
    let fault = fault_of_edit(scene.alloc, scene.keys, kept, edit);
    if fault == Some(RecordFault::OutOfMemory) {
        renew(scene, kept, &before, edit)?;
    }
    let is_kept = fault.is_none() || (!kept.is_spent() && are_same(kept.cards(), &before));
    scene.journal.kept("edit", is_kept);
    Ok(fault)
}

/// Edits a record, once more where that finds no memory.
fn edit(scene: &mut Scene, kept: &mut Kept, line: &str, wanted: Option<RecordFault>) -> Got<()> {
    let edit = edit_of(line)?;
    let mut fault = edit_once(scene, kept, &edit)?;
    if fault == Some(RecordFault::OutOfMemory) {
        fault = edit_once(scene, kept, &edit)?;
    }
    scene.journal.made("edit", fault == wanted);
    Ok(())
}

/// The record of a deck.
fn record(scene: &mut Scene, deck: &DeckText) -> Got<Kept> {
    let name = name_of(deck.name)?;
    let cards = cards_of(scene.alloc, deck.lines)?;
    let kept = new_record(scene.alloc, name, cards);
    scene.journal.got("Kept::new", kept)
}

/// The object of a record, once more where that finds no memory: it is not spent by it.
fn finish(scene: &mut Scene, kept: &Kept) -> Got<SharedObject> {
    for _ in 0..2 {
        match kept.finish() {
            Ok(object) => {
                scene.journal.made("finish", true);
                return Ok(object);
            }
            Err(fault) => {
                let holds = fault == FinishFault::OutOfMemory;
                scene.journal.refused("finish", holds);
            }
        }
    }
    Err(AllocError)
}

/// The object of a record after all edits, and its cards behind those of the decks before.
fn finish_edited(scene: &mut Scene, kept: &mut Kept, input: &mut Vec<u8>) -> Got<SharedObject> {
    for (line, fault) in &EDITS {
        edit(scene, kept, *line, *fault)?;
    }
    push_lines(input, kept.cards())?;
    finish(scene, kept)
}

/// The object of a deck after all edits, and its cards behind those of the decks before.
fn edited(scene: &mut Scene, deck: &DeckText, input: &mut Vec<u8>) -> Got<SharedObject> {
    let mut kept = record(scene, deck)?;
    let object = finish_edited(scene, &mut kept, input);
    kept.free();
    object
}

/// What was made of objects holds what `asm_run` writes for these decks.
fn compare(scene: &mut Scene, found: &Publication, input: &[u8]) -> Got<()> {
    let answer = asm_answer(scene.alloc, input);
    let wanted = scene.journal.got("asm_run", answer)?;
    let image = wanted.as_slice().strip_prefix(found.listing());
    scene.journal.made("link", image == Some(found.image()));
    Ok(())
}

/// The object of each deck after all edits, and the cards of all.
fn all_edited(scene: &mut Scene, input: &mut Vec<u8>) -> Got<Vec<SharedObject>> {
    let mut objects = Vec::new(scene.alloc);
    for deck in &DECKS {
        objects.push(edited(scene, deck, input)?)?;
    }
    Ok(objects)
}

/// A record of each deck, edited and linked with the others: the bytes of `asm_run` for the edited
/// cards.
pub fn records(scene: &mut Scene) -> Got<()> {
    let mut input = Vec::new(scene.alloc);
    let objects = all_edited(scene, &mut input)?;
    let found = link(scene.alloc, scene.keys, objects, 7);
    let found = scene.journal.got("link", found)?;
    let compared = compare(scene, &found, &input);
    drop(found);
    compared
}

/// Where a deck alone stands.
const BASE: u64 = 64;

/// A text of an object: its listing, or its image where it stands alone.
fn text_of(scene: &mut Scene, call: Called, object: &SharedObject) -> Got<Text> {
    let text = if call == "image" {
        image(scene.alloc, object.object(), BASE)
    } else {
        listing(scene.alloc, object.object())
    };
    scene.journal.got(call, text)
}

/// A text of an object, which is the same a second time.
fn text_twice(scene: &mut Scene, call: Called, object: &SharedObject) -> Got<()> {
    let first = text_of(scene, call, object)?;
    let second = text_of(scene, call, object)?;
    let is_same = first.as_slice() == second.as_slice();
    scene.journal.made(call, is_same);
    Ok(())
}

/// The object of a deck.
fn object(scene: &mut Scene, deck: &DeckText) -> Got<SharedObject> {
    let kept = record(scene, deck)?;
    let object = finish(scene, &kept);
    kept.free();
    object
}

/// The texts of an object alone.
fn texts_of(scene: &mut Scene, object: &SharedObject) -> Got<()> {
    text_twice(scene, "listing", object)?;
    text_twice(scene, "image", object)
}

/// The texts of each deck alone.
pub fn texts(scene: &mut Scene) -> Got<()> {
    for deck in &DECKS {
        let object = object(scene, deck)?;
        let made = texts_of(scene, &object);
        drop(object);
        made?;
    }
    Ok(())
}
