//! What is kept of a deck from one edit to the next.
ghost use Rattle.std.specs.Prelude.{◌≡◌, ◌≤◌, ◌<◌, ◌==◌, ◌∷◌, [], ◌+◌, ◌-◌, ◌*◌, true, false, All, length, reverse, take, None, Err, IfOk, IfErr, OnOk, ◌↔◌};
ghost use Rattle.std.specs.List.{sum};
ghost use Rattle.definitions.specs.DeckKinds.{up_to_end};
ghost use Rattle.definitions.specs.Statements.{statements_of};
ghost use Rattle.cards.specs.Edits.{edited, edited_by, first_fault};
ghost use Rattle.statement_coder.specs.Meters.{CountsAtMost, RisesBy};
ghost use Rattle.deck_assembler.specs.Joins.SizedDecks.{IsSizedDeck};
ghost use Rattle.edit_core.specs.Edited.{statement_count, CountsAnew, CountsAtOnce, CountsToDue, CountsWithinDue, EndsAs, IsRecordOf, RisesBehindFront};
ghost use Rattle.edit_core.specs.Faults.{against, against_all};
ghost use Rattle.edit_core.specs.Records.{ArePieces};
ghost use Rattle.edit_core.specs.Sums.{cards_between, statements_sum, CountsAnewInGroups, CountsInOrder, CountsWithinSums};
ghost use Rattle.edit_core.specs.Joins.Groups.{IsFirstMade};

use crate::edited_object::edited_object;
use crate::faults::RecordFault;
use crate::fronts::{cards_before_all, cards_behind_all};
use crate::near::near_edits;
use crate::piece_counts::piece_counts;
use cards::{Card, DeckName, Edit, edited_copy, first_fault};
use deck_assembler::{OldCards, SizedDeck, object_of};
use deck_objects::SharedObject;
use statement_coder::Meter;
use std::alloc::{AllocError, Global};
use std::hash::RandomState;
use std::marker::Model;
use std::slice;
use thiserror::Error;

/// The record of a deck of at most 20,000 cards: its statements up to END in pieces of at most 128,
/// each with the state before it, and its object. Contracts see its name, its cards, whether it is
/// spent, and how many statements each piece has; all else of it is, by its type, what the
/// definitions have of those cards, unless it is spent.
#[derive(Drop)]
pub struct Kept {
    object: SharedObject,
    /// None where the record is spent.
    sized: Option<SizedDeck>,
    pieces: Vec<u32>,
}

/// Why a record gives no object.
#[derive(Clone, Copy, Debug, Error)]
pub enum FinishFault {
    /// The record is spent.
    #[error("the record is spent")]
    Spent,
    /// No memory was left.
    #[error("no memory was left")]
    OutOfMemory,
}

impl Model for Kept {
    ghost use Rattle.std.specs.Prelude.{◌≡◌, ◌≤◌, IfSome, is_none, length};
    ghost use Rattle.deck_assembler.specs.Joins.SizedDecks.{IsSizedDeck};
    ghost use Rattle.edit_core.specs.Records.{Record, piece_counts};

    ghost Value = { Record };

    ghost view = { λ k. record { name = k.object.name; cards = k.object.cards; is_spent = is_none k.sized; pieces = k.pieces.items } };

    ghost invariant = { λ k. (length k.object.cards ≤ 20000) × IfSome k.sized (λ deck. IsSizedDeck k.object.cards deck × (k.pieces.items ≡ piece_counts deck.pieces)) };
}

impl Kept {
    /// The record of the deck of this name and these cards, of which there are at most 20,000. The
    /// meter counts one statement sized, and one coded, for each up to END; where memory runs out, for
    /// some.
    pub fn new(
        alloc: Global,
        keys: RandomState,
        name: DeckName,
        cards: Vec<Card>,
        meter: &mut Meter,
    ) -> Result<Kept, AllocError>
        requires { length cards.items ≤ 20000 }
        ensures name { IfOk result (λ kept. kept.name ≡ name) }
        ensures cards { IfOk result (λ kept. kept.cards ≡ cards.items) }
        ensures unspent { IfOk result (λ kept. kept.is_spent ≡ false) }
        ensures pieces { IfOk result (λ kept. ArePieces (length (up_to_end (statements_of (reverse cards.items)))) kept.pieces) }
        ensures sized { meter.new.sized ≤ meter.old.sized + length (up_to_end (statements_of (reverse cards.items))) }
        ensures sized_rises { meter.old.sized ≤ meter.new.sized }
        ensures sized_all { OnOk result (RisesBy (length (up_to_end (statements_of (reverse cards.items)))) meter.old.sized meter.new.sized) }
        ensures coded { meter.new.coded ≤ meter.old.coded + length (up_to_end (statements_of (reverse cards.items))) }
        ensures coded_rises { meter.old.coded ≤ meter.new.coded }
        ensures coded_all { OnOk result (RisesBy (length (up_to_end (statements_of (reverse cards.items)))) meter.old.coded meter.new.coded) }
    {
        let sized = SizedDeck::new(alloc, keys, &cards, meter)?;
        match object_of(alloc, keys, name, cards, &sized, meter) {
            Ok(object) => Kept::of(alloc, object, sized),
            Err(error) => {
                sized.free();
                Err(error)
            }
        }
    }

    /// The record of an object and of the sized deck of its cards.
    fn of(alloc: Global, object: SharedObject, sized: SizedDeck) -> Result<Kept, AllocError>
        requires few { length object.cards ≤ 20000 }
        requires deck { IsSizedDeck object.cards sized }
        ensures { IfOk result (IsRecordOf object.name object.cards) }
    {
        match piece_counts(alloc, sized.pieces()) {
            Ok(pieces) => Ok(Kept {
                object,
                sized: Some(sized),
                pieces,
            }),
            Err(error) => {
                object.free();
                sized.free();
                Err(error)
            }
        }
    }

    /// Makes an edit. Where the record is spent, or else where the edit doesn't apply, it says so and
    /// changes nothing; where memory runs out it is spent. The statements in front of the edited card
    /// stay as they were sized, and keep their lines in the object unless a name is bound otherwise; and
    /// so do the others from the first piece on behind which all is sized as before. Where the kind of
    /// the deck changes, those in front are what they were but for their counters, and none of the others
    /// stays. The meter counts at most one statement sized, and one coded, for each up to END of the
    /// edited cards; none of those that stand untouched in front of both decks, and behind the first
    /// place where both decks agree again no more than the 128 of a piece, but for those coded that are
    /// bound otherwise. Where it is made each statement that is settled as none of the deck before counts
    /// one as sized, and each that is bound otherwise one as coded.
    pub fn edit(
        &mut self,
        alloc: Global,
        keys: RandomState,
        edit: &Edit,
        meter: &mut Meter,
    ) -> Result<(), RecordFault>
        ensures ends { EndsAs (against edit.now self.old.is_spent self.old.cards) (edited self.old.cards edit.now) self.old self.new meter.old meter.new result }
        ensures counts { CountsAtOnce (edit.now ∷ []) self.old.cards meter.old meter.new }
        ensures anew { OnOk result (CountsAnew (edit.now ∷ []) self.old.cards meter.old meter.new) }
        ensures due { against edit.now self.old.is_spent self.old.cards ≡ None → CountsWithinDue (edit.now ∷ []) self.old.cards meter.old meter.new }
    {
        self.edit_all(alloc, keys, slice::from_ref(edit), meter)
    }

    /// Makes edits in order, all at once: the cards are edited first, and then their statements are
    /// sized and coded as for one edit, those in front of all edited cards and behind them staying as
    /// for one.
    /// Where the record is spent, or else at the first edit that doesn't apply to what the ones before
    /// it leave, it says so and changes nothing; where memory runs out it is spent. The meter counts at
    /// most one statement sized, and one coded, for each up to END of the cards that all of them leave,
    /// and none where there are no edits; none of those that stand untouched in front of both decks, and
    /// behind the first place where both decks agree again no more than the 128 of a piece, but for those
    /// coded that are bound otherwise. Where they are made each statement that is settled as none of the
    /// deck before counts one as sized, and each that is bound otherwise one as coded.
    pub fn edit_all(
        &mut self,
        alloc: Global,
        keys: RandomState,
        edits: &[Edit],
        meter: &mut Meter,
    ) -> Result<(), RecordFault>
        ensures ends { EndsAs (against_all edits.now self.old.is_spent self.old.cards) (edited_by edits.now self.old.cards) self.old self.new meter.old meter.new result }
        ensures counts { CountsAtOnce edits.now self.old.cards meter.old meter.new }
        ensures anew { OnOk result (CountsAnew edits.now self.old.cards meter.old meter.new) }
        ensures due { against_all edits.now self.old.is_spent self.old.cards ≡ None → CountsWithinDue edits.now self.old.cards meter.old meter.new }
        ensures sums { against_all edits.now self.old.is_spent self.old.cards ≡ None → CountsWithinSums edits.now self.old.cards meter.old meter.new }
    {
        match self.fault_against(edits) {
            Some(fault) => Err(fault),
            None => self.edit_soundly(alloc, keys, edits, meter),
        }
    }

    /// Makes edits in order: those that lie near each other at once, as `edit_all` does, and others behind
    /// them. Where the record is spent, or else at the first edit that doesn't apply to what the ones
    /// before it leave, it says so and changes nothing; where memory runs out it is spent. The meter counts
    /// no more than the sum of what is due for each of them, with the 128 of a piece for each, and at most
    /// one statement sized, and one coded, for each up to END of the cards that each of them leaves. Where
    /// they are made, each statement of what those made at once leave counts one as sized that is settled
    /// as none of the deck before these, and one as coded that is bound otherwise.
    pub fn edit_in_order(
        &mut self,
        alloc: Global,
        keys: RandomState,
        edits: &[Edit],
        meter: &mut Meter,
    ) -> Result<(), RecordFault>
        ensures ends { EndsAs (against_all edits.now self.old.is_spent self.old.cards) (edited_by edits.now self.old.cards) self.old self.new meter.old meter.new result }
        ensures counts { against_all edits.now self.old.is_spent self.old.cards ≡ None → CountsInOrder edits.now self.old.cards meter.old meter.new }
        ensures few { CountsAtMost (statements_sum edits.now self.old.cards) meter.old meter.new }
        ensures anew { OnOk result (CountsAnewInGroups edits.now self.old.cards meter.old meter.new) }
    {
        match self.fault_against(edits) {
            Some(fault) => Err(fault),
            None => self.edit_groups(alloc, keys, edits, meter),
        }
    }

    /// Makes edits in order, each of which applies, of a record that is not spent: first those that lie
    /// near the first one, then those that lie near the next one, and so on.
    fn edit_groups(
        &mut self,
        alloc: Global,
        keys: RandomState,
        edits: &[Edit],
        meter: &mut Meter,
    ) -> Result<(), RecordFault>
        requires { against_all edits.now self.old.is_spent self.old.cards ≡ None }
        ensures fault { IfErr result (λ fault. fault ≡ RecordFault.OutOfMemory) }
        ensures made { IfOk result (λ _. IsRecordOf self.old.name (edited_by edits.now self.old.cards) self.new) }
        ensures lost { IfErr result (λ _. self.new.is_spent ≡ true) }
        ensures counts { CountsInOrder edits.now self.old.cards meter.old meter.new }
        ensures anew { OnOk result (CountsAnewInGroups edits.now self.old.cards meter.old meter.new) }
    {
        self.is_whole();
        let mut left = edits;
        'groups: loop {
            let Some((first, others)) = left.split_first() else {
                return Ok(());
            };
            let near = near_edits(first, others, self.cards().len());
            left = self.edit_first(alloc, keys, left, near + 1, meter)?;
        }
    }

    /// Makes so many of some edits at once, which lie near each other, and gives the others.
    fn edit_first<'a>(
        &mut self,
        alloc: Global,
        keys: RandomState,
        edits: &'a [Edit],
        count: usize,
        meter: &mut Meter,
    ) -> Result<&'a [Edit], RecordFault>
        requires apply { against_all edits.now self.old.is_spent self.old.cards ≡ None }
        requires some { 0 < count }
        requires within { count ≤ length edits.now }
        requires near { cards_between (take count edits.now) (length self.old.cards) ≤ 128 * (count - 1) }
        ensures fault { IfErr result (λ fault. fault ≡ RecordFault.OutOfMemory) }
        ensures made { IfOk result (λ others. IsFirstMade count edits.now others.now self.old self.new meter.old meter.new) }
        ensures lost { IfErr result (λ _. self.new.is_spent ≡ true) }
        ensures counts { CountsInOrder edits.now self.old.cards meter.old meter.new }
    {
        let (first, others) = edits.split_at(count);
        match self.edit_all(alloc, keys, first, meter) {
            Ok(()) => Ok(others),
            Err(_) => Err(RecordFault::OutOfMemory),
        }
    }

    /// Makes edits in order, each of which applies, of a record that is not spent.
    fn edit_soundly(
        &mut self,
        alloc: Global,
        keys: RandomState,
        edits: &[Edit],
        meter: &mut Meter,
    ) -> Result<(), RecordFault>
        requires { against_all edits.now self.old.is_spent self.old.cards ≡ None }
        ensures ends { EndsAs None (edited_by edits.now self.old.cards) self.old self.new meter.old meter.new result }
        ensures counts { CountsAtOnce edits.now self.old.cards meter.old meter.new }
        ensures anew { OnOk result (CountsAnew edits.now self.old.cards meter.old meter.new) }
        ensures due { CountsWithinDue edits.now self.old.cards meter.old meter.new }
    {
        if edits.is_empty() {
            self.is_whole();
            return Ok(());
        }
        let Some(sized) = self.sized.take() else {
            return Err(RecordFault::Spent);
        };
        match self.remade(alloc, keys, sized, edits, meter) {
            Ok(made) => {
                *self = made;
                Ok(())
            }
            Err(_) => Err(RecordFault::OutOfMemory),
        }
    }

    /// A record that is not spent is that of its cards.
    fn is_whole(&self)
        requires { self.now.is_spent ≡ false }
        ensures { IsRecordOf self.now.name self.now.cards self.now }
    {
        let _ = self.pieces.len();
    }

    fn fault_against(&self, edits: &[Edit]) -> Option<RecordFault>
        ensures { result ≡ against_all edits.now self.now.is_spent self.now.cards }
    {
        if self.is_spent() {
            return Some(RecordFault::Spent);
        }
        match first_fault(edits, self.cards().len()) {
            Some(found) => Some(RecordFault::from(found.1)),
            None => None,
        }
    }

    /// The record of the cards that some edits leave; the statements of its own cards are these.
    fn remade(
        &self,
        alloc: Global,
        keys: RandomState,
        sized: SizedDeck,
        edits: &[Edit],
        meter: &mut Meter,
    ) -> Result<Kept, AllocError>
        requires some { (length edits.now == 0) ≡ false }
        requires apply { first_fault edits.now self.now.cards ≡ None }
        requires deck { IsSizedDeck self.now.cards sized }
        ensures made { IfOk result (IsRecordOf self.now.name (edited_by edits.now self.now.cards)) }
        ensures few { CountsAtMost (statement_count (edited_by edits.now self.now.cards)) meter.old meter.new }
        ensures sized_front { RisesBehindFront edits.now self.now.cards meter.old.sized meter.new.sized }
        ensures anew { OnOk result (CountsAnew edits.now self.now.cards meter.old meter.new) }
        ensures due { CountsToDue edits.now self.now.cards meter.old meter.new }
    {
        let own = self.cards();
        let old = OldCards {
            cards: own,
            before: cards_before_all(edits),
            behind: cards_behind_all(edits, own.len()),
        };
        let cards = match edited_copy(alloc, own, edits) {
            Ok(cards) => cards,
            Err(error) => {
                sized.free();
                return Err(error);
            }
        };
        let edited = sized.edited(alloc, keys, old, &cards, meter)?;
        match edited_object(alloc, keys, self.object.object(), cards, &edited, meter) {
            Ok(object) => Kept::of(alloc, object, edited.into_deck()),
            Err(error) => {
                edited.free();
                Err(error)
            }
        }
    }

    pub fn name(&self) -> &DeckName
        ensures { result.now ≡ self.now.name }
    {
        self.object.object().name()
    }

    /// Its cards in order, at most 20,000.
    pub fn cards(&self) -> &[Card]
        ensures cards { result.now ≡ self.now.cards }
        ensures few { length self.now.cards ≤ 20000 }
    {
        self.object.object().cards()
    }

    /// Whether an edit ran out of memory, so that nothing is kept any more.
    pub fn is_spent(&self) -> bool
        ensures { result ≡ self.now.is_spent }
    {
        self.sized.is_none()
    }

    /// The object of its deck, which is at hand: nothing is sized or coded. `Spent` where the record
    /// is spent, and else nothing but want of memory keeps it.
    pub fn finish(&self) -> Result<SharedObject, FinishFault>
        ensures object { IfOk result (λ object. object ≡ record { name = self.now.name; cards = self.now.cards }) }
        ensures spent { (result ≡ Err FinishFault.Spent) ↔ (self.now.is_spent ≡ true) }
    {
        if self.is_spent() {
            return Err(FinishFault::Spent);
        }
        match self.object.share() {
            Ok(object) => Ok(object),
            Err(_) => Err(FinishFault::OutOfMemory),
        }
    }

    /// How many statements each piece has, in order: 1 to 128, and together all up to END, unless the
    /// record is spent.
    pub fn pieces(&self) -> &[u32]
        ensures pieces { result.now ≡ self.now.pieces }
        ensures each { self.now.is_spent ≡ false → All (λ count. (0 < count) × (count ≤ 128)) result.now }
        ensures all { self.now.is_spent ≡ false → sum result.now ≡ statement_count self.now.cards }
        ensures filled { self.now.is_spent ≡ false → ArePieces (statement_count self.now.cards) result.now }
    {
        self.pieces.as_slice()
    }

    /// Frees it. Crates above call this in place of `drop` (CONTRIBUTING).
    pub fn free(self) {
        drop(self);
    }
}
