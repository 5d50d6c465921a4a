//! From decks to their objects.
ghost use Rattle.std.specs.Prelude.{◌≡◌, IfOk};
ghost use Rattle.definitions.specs.DeckInput as definitions;

use deck_assembler::assemble;
use deck_cuts::Deck;
use deck_objects::SharedObject;
use std::alloc::{AllocError, Global};
use std::hash::RandomState;
use work_meter::Meter;

/// A deck, assembled.
fn object_of(
    alloc: Global,
    keys: RandomState,
    deck: Deck,
    meter: &mut Meter,
) -> Result<SharedObject, AllocError>
    ensures { IfOk result (λ object. object ≡ deck) }
{
    let (name, cards) = deck.into_parts();
    assemble(alloc, keys, name, cards, meter)
}

/// All decks, assembled in order.
pub(crate) fn objects_of(
    alloc: Global,
    keys: RandomState,
    decks: Vec<Deck>,
) -> Result<Vec<SharedObject>, AllocError>
    ensures { IfOk result (λ objects. objects.items ≡ decks.items) }
{
    let mut meter = work_meter::begin();
    let mut objects = Vec::with_capacity(alloc, decks.len())?;
    for deck in decks {
        objects.push(object_of(alloc, keys, deck, &mut meter)?)?;
    }
    Ok(objects)
}
