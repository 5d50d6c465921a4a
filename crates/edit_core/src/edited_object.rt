//! An edited deck assembled.
ghost use Rattle.std.specs.Prelude.{◌≡◌, ◌≤◌, ◌+◌, length, reverse, IfOk, OnOk};
ghost use Rattle.definitions.specs.DeckKinds.{kind_of_statements, up_to_end};
ghost use Rattle.definitions.specs.Statements.{statements_of};
ghost use Rattle.deck_assembler.specs.Joins.DueCodes.{CodePlan, IsPlanOf, RisesReboundOf, code_due_of};
ghost use Rattle.deck_assembler.specs.Joins.Formers.{IsFormerOf, known_in};
ghost use Rattle.deck_assembler.specs.Joins.SizedDecks.{IsSizedDeck};
ghost use Rattle.deck_assembler.specs.Joins.Tails.{IsEditedOf};

use cards::Card;
use deck_assembler::{EditedDeck, edited_parts};
use deck_objects::{Object, SharedObject};
use statement_coder::Meter;
use std::alloc::{AllocError, Global};
use std::hash::RandomState;

/// The object of an edited deck with these cards, of which this one is the object before. Each
/// statement up to END is coded once at most: one of the unchanged cards in front, or of the tail that
/// stayed as it was sized, keeps its line, unless a name is bound otherwise.
pub(crate) fn edited_object(
    alloc: Global,
    keys: RandomState,
    object: &Object,
    cards: Vec<Card>,
    edited: &EditedDeck,
    meter: &mut Meter,
) -> Result<SharedObject, AllocError>
    requires few { length cards.items ≤ 20000 }
    requires deck { IsSizedDeck cards.items edited.now.deck }
    requires former { IsFormerOf object.now.cards edited.now.former }
    requires edited { IsEditedOf object.now.cards cards.items edited.now.former }
    ensures object { IfOk result (λ made. made ≡ record { name = object.now.name; cards = cards.items }) }
    ensures sized { meter.new.sized ≡ meter.old.sized }
    ensures coded { meter.new.coded ≤ meter.old.coded + length (up_to_end (statements_of (reverse cards.items))) }
    ensures coded_due { (plan : CodePlan) → IsPlanOf (kind_of_statements (known_in cards.items)) object.now.cards cards.items edited.now.former plan → meter.new.coded ≤ meter.old.coded + code_due_of cards.items plan }
    ensures coded_anew { OnOk result (RisesReboundOf object.now.cards cards.items meter.old.coded meter.new.coded) }
    ensures coded_rises { meter.old.coded ≤ meter.new.coded }
{
    let parts = edited_parts(alloc, keys, &cards, edited, object, meter)?;
    SharedObject::new(alloc, Object::new(object.name().copied(), cards, parts))
}
