//! The parts of the object of a deck whose statements are sized.
ghost use Rattle.std.specs.Prelude.{ℕ, ◌≡◌, ◌≤◌, ◌+◌, [], List, IfOk, IfSome, None, OnOk, true, false, length, reverse};
ghost use Rattle.definitions.specs.DeckInput.{Deck};
ghost use Rattle.definitions.specs.DeckKinds.{kind_of_statements, up_to_end};
ghost use Rattle.definitions.specs.Objects.{object_of};
ghost use Rattle.definitions.specs.Statements.{statements_of};
ghost use Rattle.statement_coder.specs.Meters.{RisesBy};
ghost use Rattle.deck_objects.specs.Joins.PartsOf.{ArePartsOf};
ghost use Rattle.deck_assembler.specs.Joins.DueCodes.{CodePlan, IsPlanOf, RisesReboundOf, code_due_of};
ghost use Rattle.deck_assembler.specs.Joins.FormerLines.{IsBare, IsBeside, MeanAsViewed};
ghost use Rattle.deck_assembler.specs.Joins.Formers.{IsFormerOf, known_in};
ghost use Rattle.deck_assembler.specs.Joins.SizedDecks.{IsSizedDeck};
ghost use Rattle.deck_assembler.specs.Joins.Tails.{IsEditedOf};
ghost use Rattle.deck_assembler.specs.Joins.Puttings.{ArePartsOfCards, CountsPartsAnew, CountsPartsDue};

use crate::SizedDeck;
use crate::deck_view::DeckView;
use crate::deck_walk::walk;
use crate::former::EditedDeck;
use crate::former_lines::FormerLines;
use cards::Card;
use deck_objects::{FieldLists, Object, ObjectParts};
use statement_coder::Meter;
use std::alloc::{AllocError, Global};
use std::hash::RandomState;
use use_blocks::Bases;

/// The lines of the object before, or none.
fn lines_or_none<'a>(
    former: Option<FormerLines<'a>>,
    view: &DeckView<'a>,
    nothing: &'a FieldLists,
) -> FormerLines<'a>
    ensures some { IfSome former.entry (λ lines. result ≡ lines) }
    ensures none { former.entry ≡ None → IsBare result }
{
    match former {
        Some(lines) => lines,
        None => FormerLines::none(view, nothing),
    }
}

/// Whether there are lines of an object before, and all names mean what they did there.
fn do_mean_same(former: &Option<FormerLines<'_>>, view: &DeckView<'_>) -> bool
    ensures same { result ≡ true → IfSome former.now (λ lines. MeanAsViewed lines.bindings view.now) }
    ensures none { former.now ≡ None → result ≡ false }
{
    match former {
        Some(lines) => lines.bindings.are_same(&view.bindings()),
        None => false,
    }
}

/// The parts of the object of a deck with at most 20,000 cards, beside the lines of the object before,
/// if there are any.
fn parts_beside<'a>(
    alloc: Global,
    keys: RandomState,
    cards: &'a [Card],
    deck: &'a SizedDeck,
    former: Option<FormerLines<'a>>,
    meter: &mut Meter,
) -> Result<ObjectParts, AllocError>
    requires deck { IsSizedDeck cards.now deck.now }
    requires few { length cards.now ≤ 20000 }
    requires beside { IfSome former (λ lines. IsBeside deck.now.kind cards.now [] (reverse (known_in cards.now)) 0 lines) }
    ensures parts { IfOk result (λ parts. ArePartsOfCards cards.now parts) }
    ensures coded { meter.new.coded ≤ meter.old.coded + length (up_to_end (statements_of (reverse cards.now))) }
    ensures rises { meter.old.coded ≤ meter.new.coded }
    ensures due { CountsPartsDue deck.now.kind cards.now former.entry meter.old meter.new }
    ensures anew { OnOk result (CountsPartsAnew cards.now former.entry meter.old meter.new) }
    ensures all { former.entry ≡ None → OnOk result (RisesBy (length (up_to_end (statements_of (reverse cards.now)))) meter.old.coded meter.new.coded) }
    ensures sized { meter.new.sized ≡ meter.old.sized }
{
    let literals = Vec::from_slice(alloc, deck.literals().words())?;
    let externals = Vec::from_slice(alloc, deck.externals())?;
    let bases = Bases::new(alloc, deck.lengths(), deck.literals())?;
    let view = DeckView {
        cards,
        deck,
        bases: &bases,
    };
    let nothing = FieldLists::none(alloc);
    let same = do_mean_same(&former, &view);
    let made = walk(
        alloc,
        keys,
        &view,
        lines_or_none(former, &view, &nothing),
        same,
        meter,
    )?;
    let lines = made.lines;
    let entries = made.names.into_entries(alloc)?;
    Ok(ObjectParts {
        kind: deck.kind(),
        lines: lines.lines,
        fields: lines.fields,
        bases,
        literals,
        entries,
        externals,
    })
}

/// The parts of the object of a deck with at most 20,000 cards, whatever its name is. Each statement
/// up to END is coded once at most, and counted in the meter; none is sized.
pub fn object_parts<'a>(
    alloc: Global,
    keys: RandomState,
    cards: &'a [Card],
    deck: &'a SizedDeck,
    meter: &mut Meter,
) -> Result<ObjectParts, AllocError>
    requires deck { IsSizedDeck cards.now deck.now }
    requires few { length cards.now ≤ 20000 }
    ensures parts { IfOk result (λ parts. (name : List ℕ) → let given : Deck = record { name = name; cards = cards.now } in ArePartsOf cards.now parts (object_of given)) }
    ensures coded { meter.new.coded ≤ meter.old.coded + length (up_to_end (statements_of (reverse cards.now))) }
    ensures rises { meter.old.coded ≤ meter.new.coded }
    ensures all { OnOk result (RisesBy (length (up_to_end (statements_of (reverse cards.now)))) meter.old.coded meter.new.coded) }
    ensures sized { meter.new.sized ≡ meter.old.sized }
{
    parts_beside(alloc, keys, cards, deck, None, meter)
}

/// The parts of the object of an edited deck, as `object_parts` makes them: a statement of the
/// unchanged cards in front, or of the tail that stayed as it was sized, keeps its line in the object
/// before, unless a name is bound otherwise; and no more are coded than are due (`code_due_of`). Each that
/// is bound otherwise counts one.
pub fn edited_parts<'a>(
    alloc: Global,
    keys: RandomState,
    cards: &'a [Card],
    edited: &'a EditedDeck,
    object: &'a Object,
    meter: &mut Meter,
) -> Result<ObjectParts, AllocError>
    requires deck { IsSizedDeck cards.now edited.now.deck }
    requires few { length cards.now ≤ 20000 }
    requires former { IsFormerOf object.now.cards edited.now.former }
    requires edited { IsEditedOf object.now.cards cards.now edited.now.former }
    ensures parts { IfOk result (λ parts. (name : List ℕ) → let given : Deck = record { name = name; cards = cards.now } in ArePartsOf cards.now parts (object_of given)) }
    ensures coded { meter.new.coded ≤ meter.old.coded + length (up_to_end (statements_of (reverse cards.now))) }
    ensures rises { meter.old.coded ≤ meter.new.coded }
    ensures due { (plan : CodePlan) → IsPlanOf (kind_of_statements (known_in cards.now)) object.now.cards cards.now edited.now.former plan → meter.new.coded ≤ meter.old.coded + code_due_of cards.now plan }
    ensures anew { OnOk result (RisesReboundOf object.now.cards cards.now meter.old.coded meter.new.coded) }
    ensures sized { meter.new.sized ≡ meter.old.sized }
{
    let lines = edited.former.lines(
        edited.deck.kind(),
        object.parts(),
        object.cards().len(),
        cards.len(),
    );
    parts_beside(alloc, keys, cards, &edited.deck, Some(lines), meter)
}
