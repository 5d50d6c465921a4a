//! A deck assembled from what a job begins with, and objects as a publication.
ghost use Rattle.std.specs.Prelude.{◌≡◌, ◌+◌, ◌≤◌, ◌⊎◌, false, None, Some, length, IfOk, IfErr, OnOk};
ghost use Rattle.statement_coder.specs.Meters.{CountsAtMost, RisesBy};
ghost use Rattle.deck_workers.specs.Joins.Language.{edits_fault, statement_count, statements_sum};
ghost use Rattle.deck_workers.specs.Jobs.{start_deck, start_cards, start_bound, deck_edited, CountsDue, CountsWithin};

use cards::{Card, DeckName, Edit, first_fault};
use deck_linker::ListedPublication;
use deck_listing::ListedObject;
use desk_core::{Held, SharedPublication, Start};
use edit_core::{Kept, RecordFault};
use std::alloc::{AllocError, Global};
use std::hash::RandomState;
use work_meter::Meter;

/// How many cards a job begins with.
fn start_len(start: &Start) -> usize
    ensures { length (start_cards start.now) ≡ result }
{
    match start {
        Start::FromRecord(held) => held.kept().cards().len(),
        Start::FromCards(cards) => cards.len(),
    }
}

/// Why the first edit of a job does not apply that doesn't; this takes no memory.
fn edits_fault(start: &Start, edits: &[Edit]) -> Option<RecordFault>
    ensures { result ≡ edits_fault edits.now (start_cards start.now) }
{
    match first_fault(edits, start_len(start)) {
        Some(found) => Some(RecordFault::from(found.1)),
        None => None,
    }
}

/// Record and object of the deck of a job, its edits made in order, those that lie near each other at
/// once; the object with what its listing counts. An edit that does not apply is shown before anything takes memory.
pub(crate) fn assembled(
    alloc: Global,
    keys: RandomState,
    name: DeckName,
    start: Start,
    edits: &[Edit],
    meter: &mut Meter,
) -> Result<(Held, ListedObject), RecordFault>
    ensures record { IfOk result (λ made. made.0 ≡ record { deck = deck_edited name start edits.now }) }
    ensures object { IfOk result (λ made. made.1 ≡ deck_edited name start edits.now) }
    ensures applied { IfOk result (λ made. edits_fault edits.now (start_cards start) ≡ None) }
    ensures fault { IfErr result (λ fault. ((fault ≡ RecordFault.OutOfMemory) × (edits_fault edits.now (start_cards start) ≡ None)) ⊎ (edits_fault edits.now (start_cards start) ≡ Some fault)) }
    ensures meter { CountsAtMost (start_bound start + statements_sum edits.now (start_deck name start).cards) meter.old meter.new }
    ensures all { OnOk result (CountsWithin (start_bound start) (start_bound start + statements_sum edits.now (start_deck name start).cards) meter.old meter.new) }
    ensures due { CountsDue start edits.now (start_deck name start).cards meter.old meter.new }
{
    if let Some(fault) = edits_fault(&start, edits) {
        start.free();
        return Err(fault);
    }
    let mut kept = begun(alloc, keys, name, start, meter)?;
    match kept.edit_in_order(alloc, keys, edits, meter) {
        Ok(()) => finished(alloc, kept),
        Err(fault) => {
            kept.free();
            Err(fault)
        }
    }
}

/// The record that a job begins with.
fn begun(
    alloc: Global,
    keys: RandomState,
    name: DeckName,
    start: Start,
    meter: &mut Meter,
) -> Result<Kept, RecordFault>
    ensures deck { IfOk result (λ kept. (kept.name ≡ (start_deck name start).name) × (kept.cards ≡ (start_deck name start).cards)) }
    ensures cards { IfOk result (λ kept. kept.cards ≡ start_cards start) }
    ensures unspent { IfOk result (λ kept. kept.is_spent ≡ false) }
    ensures fault { IfErr result (λ fault. fault ≡ RecordFault.OutOfMemory) }
    ensures meter { CountsAtMost (start_bound start) meter.old meter.new }
    ensures all { OnOk result (RisesBy (start_bound start) meter.old.sized meter.new.sized × RisesBy (start_bound start) meter.old.coded meter.new.coded) }
{
    match start {
        Start::FromRecord(held) => Ok(held.into_kept()),
        Start::FromCards(cards) => match cards.into_items(alloc) {
            Ok(cards) => begun_anew(alloc, keys, name, cards, meter),
            Err(_) => Err(RecordFault::OutOfMemory),
        },
    }
}

/// A new record of cards.
fn begun_anew(
    alloc: Global,
    keys: RandomState,
    name: DeckName,
    cards: Vec<Card>,
    meter: &mut Meter,
) -> Result<Kept, RecordFault>
    requires { length cards.items ≤ 20000 }
    ensures deck { IfOk result (λ kept. (kept.name ≡ name) × (kept.cards ≡ cards.items)) }
    ensures unspent { IfOk result (λ kept. kept.is_spent ≡ false) }
    ensures fault { IfErr result (λ fault. fault ≡ RecordFault.OutOfMemory) }
    ensures meter { CountsAtMost (statement_count cards.items) meter.old meter.new }
    ensures all { OnOk result (RisesBy (statement_count cards.items) meter.old.sized meter.new.sized × RisesBy (statement_count cards.items) meter.old.coded meter.new.coded) }
{
    match Kept::new(alloc, keys, name, cards, meter) {
        Ok(kept) => Ok(kept),
        Err(_) => Err(RecordFault::OutOfMemory),
    }
}

/// The object of a record that is not spent, with what its listing counts.
fn listed(alloc: Global, kept: &Kept) -> Result<ListedObject, RecordFault>
    requires { kept.now.is_spent ≡ false }
    ensures object { IfOk result (λ object. object ≡ record { name = kept.now.name; cards = kept.now.cards }) }
    ensures fault { IfErr result (λ fault. fault ≡ RecordFault.OutOfMemory) }
{
    let Ok(object) = kept.finish() else {
        return Err(RecordFault::OutOfMemory);
    };
    match ListedObject::new(alloc, object) {
        Ok(listed) => Ok(listed),
        Err(_) => Err(RecordFault::OutOfMemory),
    }
}

/// A record that is not spent, with its object and what the listing of that counts.
fn finished(alloc: Global, kept: Kept) -> Result<(Held, ListedObject), RecordFault>
    requires { kept.is_spent ≡ false }
    ensures record { IfOk result (λ made. made.0 ≡ record { deck = record { name = kept.name; cards = kept.cards } }) }
    ensures object { IfOk result (λ made. made.1 ≡ record { name = kept.name; cards = kept.cards }) }
    ensures fault { IfErr result (λ fault. fault ≡ RecordFault.OutOfMemory) }
{
    match listed(alloc, &kept) {
        Ok(object) => match Held::new(kept) {
            Some(held) => Ok((held, object)),
            None => unreachable!(),
        },
        Err(fault) => {
            kept.free();
            Err(fault)
        }
    }
}

/// The publication of objects under a version.
pub(crate) fn published(
    alloc: Global,
    objects: Vec<ListedObject>,
    version: u64,
) -> Result<SharedPublication, AllocError>
    ensures { IfOk result (λ publication. publication ≡ record { version = version; decks = objects.items }) }
{
    SharedPublication::new(alloc, ListedPublication::new(version, objects))
}
