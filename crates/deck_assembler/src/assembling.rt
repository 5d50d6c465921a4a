//! A deck assembled.
ghost use Rattle.std.specs.Prelude.{◌≡◌, ◌≤◌, ◌+◌, length, reverse, IfOk, OnOk};
ghost use Rattle.definitions.specs.DeckKinds.{up_to_end};
ghost use Rattle.definitions.specs.Statements.{statements_of};
ghost use Rattle.statement_coder.specs.Meters.{RisesBy};
ghost use Rattle.deck_assembler.specs.Joins.SizedDecks.{IsSizedDeck};

use crate::object_part_list::object_parts;
use crate::sized_deck::SizedDeck;
use cards::{Card, DeckName};
use deck_objects::{Object, SharedObject};
use statement_coder::Meter;
use std::alloc::{AllocError, Global};
use std::hash::RandomState;

/// The object of the deck of this name and these cards, whose statements are sized. Each up to END is
/// coded once.
pub fn object_of(
    alloc: Global,
    keys: RandomState,
    name: DeckName,
    cards: Vec<Card>,
    sized: &SizedDeck,
    meter: &mut Meter,
) -> Result<SharedObject, AllocError>
    requires few { length cards.items ≤ 20000 }
    requires deck { IsSizedDeck cards.items sized.now }
    ensures object { IfOk result (λ object. object ≡ record { name = name; cards = cards.items }) }
    ensures sized { meter.new.sized ≡ meter.old.sized }
    ensures coded { meter.new.coded ≤ meter.old.coded + length (up_to_end (statements_of (reverse cards.items))) }
    ensures coded_rises { meter.old.coded ≤ meter.new.coded }
    ensures coded_all { OnOk result (RisesBy (length (up_to_end (statements_of (reverse cards.items)))) meter.old.coded meter.new.coded) }
{
    let parts = object_parts(alloc, keys, &cards, sized, meter)?;
    SharedObject::new(alloc, Object::new(name, cards, parts))
}

/// The object of the deck of this name and these cards, of which there are at most 20,000. The meter
/// counts one statement sized, and one coded, for each up to END; where memory runs out, for some.
pub fn assemble(
    alloc: Global,
    keys: RandomState,
    name: DeckName,
    cards: Vec<Card>,
    meter: &mut Meter,
) -> Result<SharedObject, AllocError>
    requires { length cards.items ≤ 20000 }
    ensures object { IfOk result (λ object. object ≡ record { name = name; cards = cards.items }) }
    ensures sized { meter.new.sized ≤ meter.old.sized + length (up_to_end (statements_of (reverse cards.items))) }
    ensures sized_rises { meter.old.sized ≤ meter.new.sized }
    ensures sized_all { OnOk result (RisesBy (length (up_to_end (statements_of (reverse cards.items)))) meter.old.sized meter.new.sized) }
    ensures coded { meter.new.coded ≤ meter.old.coded + length (up_to_end (statements_of (reverse cards.items))) }
    ensures coded_rises { meter.old.coded ≤ meter.new.coded }
    ensures coded_all { OnOk result (RisesBy (length (up_to_end (statements_of (reverse cards.items)))) meter.old.coded meter.new.coded) }
{
    let sized = SizedDeck::new(alloc, keys, &cards, meter)?;
    let made = object_of(alloc, keys, name, cards, &sized, meter);
    sized.free();
    made
}
