//! All statements of a deck, one after the other: their lines, and the names that they enter.
ghost use Rattle.std.specs.Prelude.{◌≡◌, ◌≤◌, ◌+◌, ◌-◌, ◌^◌, [], List, IfOk, IfSome, None, OnOk, true, length, min, reverse};
ghost use Rattle.definitions.specs.Statements as statements;
ghost use Rattle.statement_coder.specs.Meters.{RisesBy};
ghost use Rattle.deck_assembler.specs.Joins.DeckParts.{sized_in};
ghost use Rattle.deck_assembler.specs.Joins.DeckSteps.{GoesPast, IsCountedAnew, IsUncounted};
ghost use Rattle.deck_assembler.specs.Joins.Walks.{IsWhole, Whole, whole_of};
ghost use Rattle.deck_assembler.specs.Joins.DeckWalks.{IsListing};
ghost use Rattle.deck_assembler.specs.Joins.FormerLines.{IsBare, IsBeside, IsWalkedBeside, MeanAsViewed};
ghost use Rattle.deck_assembler.specs.Joins.Puttings.{CountsAllAnew, CountsAllDue, CountsDueIn, CountsWalkAnew, CountsWalkDue, WalksAll, WalksOn, WalksOnAnew, WalksOnDue, WalksToEnd};

use crate::deck_lines::DeckLines;
use crate::deck_names::{enter, enters};
use crate::deck_view::DeckView;
use crate::entry_names::EntryNames;
use crate::former_lines::{FormerLine, FormerLines};
use crate::{Piece, SizedDeck, SizedStatement};
use deck_objects::FieldLists;
use statement_coder::{Meter, kept_operand};
use std::alloc::{AllocError, Global};
use std::hash::RandomState;

/// The lines of the statements so far, and the names that they enter.
#[derive(Drop)]
pub(crate) struct Making {
    pub(crate) lines: DeckLines,
    pub(crate) names: EntryNames,
}

/// For how many lines there is to be memory: a piece has 128 statements at most.
fn line_room(deck: &SizedDeck) -> usize {
    let pieces = deck.pieces().len().saturating_mul(128);
    pieces.saturating_add(deck.behind().len())
}

impl Making {
    /// Those of no statement, with memory for the lines of all of them, and for so many fields.
    fn new(
        alloc: Global,
        keys: RandomState,
        view: &DeckView<'_>,
        fields: &FieldLists,
    ) -> Result<Making, AllocError>
        ensures made { IfOk result (λ made. (known others : List statements.Statement) (former : FormerLines) → let whole = whole_of view.now known others in
            IsWhole whole → IsBeside whole.deck.kind whole.cards [] (reverse known) 0 former → IsWalkedBeside whole (sized_in whole.deck.pieces) made former) }
        ensures stood { IfOk result (λ made. made.lines.stood ≡ 0) }
    {
        Ok(Making {
            lines: DeckLines::new(alloc, line_room(view.deck), fields)?,
            names: EntryNames::new(alloc, keys),
        })
    }

    /// One statement more, from what was kept of it. Where memory runs out what was made is of no use.
    #[inline(always)]
    fn add_read(
        &mut self,
        view: &DeckView<'_>,
        sized: &SizedStatement,
        found: Option<FormerLine<'_>>,
        meter: &mut Meter,
    ) -> Result<(), AllocError>
        ensures walked { OnOk result (GoesPast view.now sized.now found.entry self.old self.new) }
        ensures coded { meter.new.coded ≤ meter.old.coded + 1 }
        ensures rises { meter.old.coded ≤ meter.new.coded }
        ensures all { found.entry ≡ None → OnOk result (RisesBy 1 meter.old.coded meter.new.coded) }
        ensures kept { IsUncounted view.now sized.now found.entry self.old.lines.stood meter.old.coded meter.new.coded }
        ensures anew { OnOk result (IsCountedAnew view.now sized.now found.entry self.old.lines.stood meter.old.coded meter.new.coded) }
        ensures stood { OnOk result (self.new.lines.stood ≡ min (self.old.lines.stood + sized.now.cards) (2 ^ 64 - 1)) }
        ensures sized { meter.new.sized ≡ meter.old.sized }
    {
        let read = kept_operand(view.deck.kind(), sized.operation, &sized.kept);
        enter(&mut self.names, view, &read)?;
        self.lines.put(view, &read, sized, found, meter)
    }

    /// One statement more, where all names mean what they did in the object before: a line that was found
    /// there is taken over, unless the statement enters names. Where memory runs out what was made is of no
    /// use.
    fn add_same(
        &mut self,
        view: &DeckView<'_>,
        sized: &SizedStatement,
        found: Option<FormerLine<'_>>,
        meter: &mut Meter,
    ) -> Result<(), AllocError>
        requires { IfSome found (λ line. MeanAsViewed line.bindings view.now) }
        ensures walked { OnOk result (GoesPast view.now sized.now found.entry self.old self.new) }
        ensures coded { meter.new.coded ≤ meter.old.coded + 1 }
        ensures rises { meter.old.coded ≤ meter.new.coded }
        ensures all { found.entry ≡ None → OnOk result (RisesBy 1 meter.old.coded meter.new.coded) }
        ensures kept { IsUncounted view.now sized.now found.entry self.old.lines.stood meter.old.coded meter.new.coded }
        ensures anew { OnOk result (IsCountedAnew view.now sized.now found.entry self.old.lines.stood meter.old.coded meter.new.coded) }
        ensures stood { OnOk result (self.new.lines.stood ≡ min (self.old.lines.stood + sized.now.cards) (2 ^ 64 - 1)) }
        ensures sized { meter.new.sized ≡ meter.old.sized }
    {
        match found {
            None => self.add_read(view, sized, found, meter),
            Some(line) => {
                if enters(view.deck.kind(), sized.operation) {
                    return self.add_read(view, sized, found, meter);
                }
                self.lines.copy_same(view, &line, sized)
            }
        }
    }

    /// One statement more; it is said whether all names mean what they did in the object before. Where
    /// memory runs out what was made is of no use.
    fn add(
        &mut self,
        view: &DeckView<'_>,
        sized: &SizedStatement,
        found: Option<FormerLine<'_>>,
        same: bool,
        meter: &mut Meter,
    ) -> Result<(), AllocError>
        requires { same ≡ true → IfSome found (λ line. MeanAsViewed line.bindings view.now) }
        ensures walked { OnOk result (GoesPast view.now sized.now found.entry self.old self.new) }
        ensures coded { meter.new.coded ≤ meter.old.coded + 1 }
        ensures rises { meter.old.coded ≤ meter.new.coded }
        ensures all { found.entry ≡ None → OnOk result (RisesBy 1 meter.old.coded meter.new.coded) }
        ensures kept { IsUncounted view.now sized.now found.entry self.old.lines.stood meter.old.coded meter.new.coded }
        ensures anew { OnOk result (IsCountedAnew view.now sized.now found.entry self.old.lines.stood meter.old.coded meter.new.coded) }
        ensures stood { OnOk result (self.new.lines.stood ≡ min (self.old.lines.stood + sized.now.cards) (2 ^ 64 - 1)) }
        ensures sized { meter.new.sized ≡ meter.old.sized }
    {
        if same {
            self.add_same(view, sized, found, meter)
        } else {
            self.add_read(view, sized, found, meter)
        }
    }

    /// Some statements more.
    fn add_all(
        &mut self,
        view: &DeckView<'_>,
        piece: &[SizedStatement],
        former: &mut FormerLines<'_>,
        same: bool,
        meter: &mut Meter,
    ) -> Result<(), AllocError>
        requires { same ≡ true → MeanAsViewed former.old.bindings view.now }
        ensures walked { OnOk result (WalksOn view.now piece.now self.old self.new former.old former.new) }
        ensures coded { meter.new.coded ≤ meter.old.coded + length piece.now }
        ensures rises { meter.old.coded ≤ meter.new.coded }
        ensures ended { IsBare former.old → IsBare former.new }
        ensures bindings { former.new.bindings ≡ former.old.bindings }
        ensures all { OnOk result (IsBare former.old → RisesBy (length piece.now) meter.old.coded meter.new.coded) }
        ensures due_on { OnOk result (WalksOnDue view.now piece.now self.old self.new former.old former.new meter.old meter.new) }
        ensures due { CountsDueIn view.now piece.now self.old former.old meter.old meter.new }
        ensures anew { OnOk result (WalksOnAnew view.now piece.now self.old self.new former.old meter.old meter.new) }
        ensures sized { meter.new.sized ≡ meter.old.sized }
    {
        for sized in piece {
            let found = former.next(self.lines.stood, sized.cards as u32);
            self.add(view, sized, found, same, meter)?;
        }
        Ok(())
    }

    /// The statements of some pieces more.
    fn add_pieces(
        &mut self,
        view: &DeckView<'_>,
        pieces: &[Piece],
        former: &mut FormerLines<'_>,
        same: bool,
        meter: &mut Meter,
    ) -> Result<(), AllocError>
        requires { same ≡ true → MeanAsViewed former.old.bindings view.now }
        ensures walked { OnOk result (WalksAll view.now (sized_in pieces.now) self.old self.new former.old former.new) }
        ensures coded { meter.new.coded ≤ meter.old.coded + length (sized_in pieces.now) }
        ensures rises { meter.old.coded ≤ meter.new.coded }
        ensures all { OnOk result (IsBare former.old → RisesBy (length (sized_in pieces.now)) meter.old.coded meter.new.coded) }
        ensures due { CountsAllDue view.now (sized_in pieces.now) self.old former.old meter.old meter.new }
        ensures anew { OnOk result (CountsAllAnew view.now (sized_in pieces.now) self.old former.old meter.old meter.new) }
        ensures sized { meter.new.sized ≡ meter.old.sized }
    {
        for piece in pieces {
            self.add_all(view, piece.statements(), former, same, meter)?;
        }
        Ok(())
    }
}

/// The lines of the statements behind END, which have so many cards each, behind those up to END.
fn list_all(lines: &mut DeckLines, counts: &[u32]) -> Result<(), AllocError>
    ensures { OnOk result ((whole : Whole) → IsWhole whole → IsListing whole counts.now lines.old → IsListing whole [] lines.new) }
{
    for count in counts {
        lines.list(*count)?;
    }
    Ok(())
}

/// The lines of a deck, and the names that it enters. The statements up to END are coded, each once, but for those
/// whose lines are taken over from the object before, so that no more are coded than are due, and each
/// that is bound otherwise counts one; where memory runs out, some of them.
pub(crate) fn walk(
    alloc: Global,
    keys: RandomState,
    view: &DeckView<'_>,
    former: FormerLines<'_>,
    same: bool,
    meter: &mut Meter,
) -> Result<Making, AllocError>
    requires { same ≡ true → MeanAsViewed former.bindings view.now }
    ensures done { IfOk result (λ made. WalksToEnd view.now former.entry made) }
    ensures coded { meter.new.coded ≤ meter.old.coded + length (sized_in view.now.deck.now.pieces) }
    ensures rises { meter.old.coded ≤ meter.new.coded }
    ensures all { OnOk result (IsBare former.entry → RisesBy (length (sized_in view.now.deck.now.pieces)) meter.old.coded meter.new.coded) }
    ensures due { CountsWalkDue view.now former.entry meter.old meter.new }
    ensures anew { OnOk result (CountsWalkAnew view.now former.entry meter.old meter.new) }
    ensures sized { meter.new.sized ≡ meter.old.sized }
{
    let mut made = Making::new(alloc, keys, view, former.fields)?;
    let mut left = former;
    made.add_pieces(view, view.deck.pieces(), &mut left, same, meter)?;
    list_all(&mut made.lines, view.deck.behind())?;
    Ok(made)
}
