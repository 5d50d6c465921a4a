//! Records and objects of decks, and what `asm_run` makes of decks. What comes of a call is looked at and no contract
//! of it, and so who calls has no facts of it. A meter lives for one call alone.

use crate::decks::{cards_of, name_of};
use crate::keys::fixed_keys;
use asm_main::{AsmFault, Tally, asm_run};
use cards::{Card, DeckName, MOST_CARDS};
use deck_assembler::assemble;
use deck_objects::SharedObject;
use edit_core::Kept;
use std::alloc::{AllocError, Global};
use std::io::{BufRead, Write};
use text_ports::Counted;
use work_meter::Meter;

/// A new record of these cards, and what was done for it.
pub fn counted_record(
    alloc: Global,
    name: DeckName,
    cards: Vec<Card>,
    meter: &mut Meter,
) -> Result<Kept, AllocError> {
    let keys = fixed_keys()?;
    if cards.len() > MOST_CARDS {
        return Err(AllocError);
    }
    Kept::new(alloc, keys, name, cards, meter)
}

/// A new record of these cards.
pub fn new_record(alloc: Global, name: DeckName, cards: Vec<Card>) -> Result<Kept, AllocError> {
    let mut meter = work_meter::begin();
    counted_record(alloc, name, cards, &mut meter)
}

/// The record of a deck of these lines.
pub fn record_of(alloc: Global, name: &str, lines: &str) -> Result<Kept, AllocError> {
    let name = name_of(name)?;
    new_record(alloc, name, cards_of(alloc, lines)?)
}

/// The object of these cards.
pub fn new_object(
    alloc: Global,
    name: DeckName,
    cards: Vec<Card>,
) -> Result<SharedObject, AllocError> {
    let keys = fixed_keys()?;
    if cards.len() > MOST_CARDS {
        return Err(AllocError);
    }
    let mut meter = work_meter::begin();
    assemble(alloc, keys, name, cards, &mut meter)
}

/// The object of a deck of these lines.
pub fn object_of(alloc: Global, name: &str, lines: &str) -> Result<SharedObject, AllocError> {
    let name = name_of(name)?;
    new_object(alloc, name, cards_of(alloc, lines)?)
}

/// Assembles decks.
pub fn assembled<R: BufRead, W: Write>(
    alloc: Global,
    input: &mut Counted<R>,
    output: &mut Counted<W>,
) -> Result<Tally, AsmFault> {
    asm_run(alloc, fixed_keys()?, input, output)
}

/// What `asm_run` writes for decks.
pub fn asm_answer(alloc: Global, input: &[u8]) -> Result<Vec<u8>, AllocError> {
    let mut output = Counted::new(Vec::new(alloc));
    match assembled(alloc, &mut Counted::new(input), &mut output) {
        Ok(_) => Ok(output.into_inner()),
        Err(_) => Err(AllocError),
    }
}
