//! The lines of the statements of a deck, one behind the other.
ghost use Rattle.std.specs.Prelude.{◌≡◌, ◌+◌, ◌-◌, ◌^◌, ◌≤◌, ◌∷◌, ◌++◌, [], List, IfOk, None, OnOk, true, length, take, drop, min};
ghost use Rattle.definitions.specs.Objects.{Shown, coded_of, only_listed, shown_of};
ghost use Rattle.definitions.specs.Lengths.{BlockRow};
ghost use Rattle.definitions.specs.Settling.{settle, settled_all};
ghost use Rattle.definitions.specs.Statements as statements;
ghost use Rattle.statement_coder.specs.Joins.ReadOperands.{IsReadOperand};
ghost use Rattle.statement_coder.specs.Meters.{RisesBy};
ghost use Rattle.deck_objects.specs.Joins.CodedLines.{IsCoded};
ghost use Rattle.deck_assembler.specs.Joins.FormerLines.{MeanAsViewed, WasLine};
ghost use Rattle.deck_assembler.specs.Joins.SizedDecks.{IsListedStatement, IsSizedStatement};
ghost use Rattle.deck_assembler.specs.Joins.Walks.{AreLined, AreLinedAs, IsWhole, Whole, context_in, has_row, whole_of};
ghost use Rattle.deck_assembler.specs.Joins.Puttings.{CopiesSame, CountsRebound, PutsLine};

use crate::SizedStatement;
use crate::block_index::block_index;
use crate::copied_lines::copied_line;
use crate::deck_view::DeckView;
use crate::former_lines::FormerLine;
use crate::line_coder::statement_line;
use cards::Card;
use deck_objects::{FieldLists, Line};
use operations::Letters;
use statement_coder::{Meter, ReadOperand};
use std::alloc::{AllocError, Global};

/// The lines so far with the fields that they list, how many cards they have, and the index of the
/// latest block.
#[derive(Drop)]
pub(crate) struct DeckLines {
    pub(crate) lines: Vec<Line>,
    pub(crate) fields: FieldLists,
    pub(crate) stood: usize,
    block: u32,
}

/// The next so many cards, at most ten.
pub(crate) fn next_cards(cards: &[Card], stood: usize, count: u16) -> &[Card]
    ensures cards { count ≤ 10 → count ≤ length (drop stood cards.now) → result.now ≡ take count (drop stood cards.now) }
    ensures few { length result.now ≤ 10 }
{
    let behind = cards.split_at(stood.min(cards.len())).1;
    behind
        .split_at((count as usize).min(10).min(behind.len()))
        .0
}

/// The cards behind the next so many.
pub(crate) fn later_cards(cards: &[Card], count: usize) -> &[Card]
    ensures { count ≤ length cards.now → result.now ≡ drop count cards.now }
{
    cards.split_at(count.min(cards.len())).1
}

impl DeckLines {
    /// Those of no statement, with memory for so many lines and for so many fields.
    pub(crate) fn new(
        alloc: Global,
        room: usize,
        fields: &FieldLists,
    ) -> Result<DeckLines, AllocError>
        ensures lined { IfOk result (λ lines. (whole : Whole) → AreLined whole [] lines) }
        ensures stood { IfOk result (λ lines. lines.stood ≡ 0) }
    {
        Ok(DeckLines {
            lines: Vec::with_capacity(alloc, room)?,
            fields: FieldLists::with_room(alloc, fields)?,
            stood: 0,
            block: 0,
        })
    }

    /// The line of one statement more, whose operand was read. Where memory runs out the lines are of no use.
    pub(crate) fn add(
        &mut self,
        view: &DeckView<'_>,
        read: &ReadOperand<'_>,
        sized: &SizedStatement,
        meter: &mut Meter,
    ) -> Result<(), AllocError>
        ensures lined { OnOk result ((known others earlier : List statements.Statement) (given : statements.Statement) →
            let whole = whole_of view.now known others in
            let before = settled_all whole.deck.kind earlier in
            IsWhole whole → read.now.kind ≡ whole.deck.kind → IsReadOperand read.now (settle whole.deck.kind before given) → IsSizedStatement whole.deck.kind earlier self.old.stood (drop self.old.stood whole.cards) sized.now given →
            has_row (settle whole.deck.kind before given).block whole.rows ≡ true → AreLined whole earlier self.old → AreLined whole (given ∷ earlier) self.new) }
        ensures stood { OnOk result (self.new.stood ≡ min (self.old.stood + sized.now.cards) (2 ^ 64 - 1)) }
        ensures coded { meter.new.coded ≡ min (meter.old.coded + 1) (2 ^ 64 - 1) }
        ensures rises { meter.old.coded ≤ meter.new.coded }
        ensures sized { meter.new.sized ≡ meter.old.sized }
    {
        let block = block_index(view.bases.rows(), sized.sizing.block(), self.block);
        let line = statement_line(view, read, sized, block, &mut self.fields, meter)?;
        self.lines.push(line)?;
        self.block = block;
        self.stood = self.stood.saturating_add(sized.cards as usize);
        Ok(())
    }

    /// The line of one statement more, as it was in the object before. Where memory runs out the lines
    /// are of no use.
    fn copy(
        &mut self,
        view: &DeckView<'_>,
        found: &FormerLine<'_>,
        sized: &SizedStatement,
    ) -> Result<(), AllocError>
        ensures lined { OnOk result ((known others earlier : List statements.Statement) (given : statements.Statement) (rows : List BlockRow) →
            let whole = whole_of view.now known others in
            let settled = settle whole.deck.kind (settled_all whole.deck.kind earlier) given in
            IsWhole whole → IsSizedStatement whole.deck.kind earlier self.old.stood (drop self.old.stood whole.cards) sized.now given → has_row settled.block whole.rows ≡ true →
            found.now.line.now.letters ≡ (shown_of (context_in whole) settled).letters → IsCoded whole.deck.kind rows found.now.fields.now found.now.coded.now (coded_of (context_in whole) settled) →
            AreLined whole earlier self.old → AreLined whole (given ∷ earlier) self.new) }
        ensures stood { OnOk result (self.new.stood ≡ min (self.old.stood + sized.now.cards) (2 ^ 64 - 1)) }
    {
        let block = block_index(view.bases.rows(), sized.sizing.block(), self.block);
        let line = copied_line(found.coded, block, found.fields, &mut self.fields)?;
        self.lines.push(Line {
            cards: sized.cards as u32,
            letters: found.line.letters.copied(),
            coded: Some(line),
        })?;
        self.block = block;
        self.stood = self.stood.saturating_add(sized.cards as usize);
        Ok(())
    }

    /// The line of one statement more, as it was in the object before, where all names mean what they
    /// did there. Where memory runs out the lines are of no use.
    pub(crate) fn copy_same(
        &mut self,
        view: &DeckView<'_>,
        found: &FormerLine<'_>,
        sized: &SizedStatement,
    ) -> Result<(), AllocError>
        requires { MeanAsViewed found.now.bindings view.now }
        ensures lined { OnOk result ((known others earlier : List statements.Statement) (given : statements.Statement) →
            let whole = whole_of view.now known others in
            let settled = settle whole.deck.kind (settled_all whole.deck.kind earlier) given in
            IsWhole whole → IsSizedStatement whole.deck.kind earlier self.old.stood (drop self.old.stood whole.cards) sized.now given → has_row settled.block whole.rows ≡ true →
            WasLine whole.deck.kind found.now settled → AreLined whole earlier self.old → AreLined whole (given ∷ earlier) self.new) }
        ensures stood { OnOk result (self.new.stood ≡ min (self.old.stood + sized.now.cards) (2 ^ 64 - 1)) }
    {
        self.copy(view, found, sized)
    }

    /// The line of one statement more, whose operand was read: it is taken over from the object before,
    /// where that has it, and coded where that has none or a name is bound otherwise. Where memory runs
    /// out the lines are of no use.
    pub(crate) fn put(
        &mut self,
        view: &DeckView<'_>,
        read: &ReadOperand<'_>,
        sized: &SizedStatement,
        found: Option<FormerLine<'_>>,
        meter: &mut Meter,
    ) -> Result<(), AllocError>
        ensures lined { OnOk result (PutsLine view.now read.now sized.now found.entry self.old self.new) }
        ensures stood { OnOk result (self.new.stood ≡ min (self.old.stood + sized.now.cards) (2 ^ 64 - 1)) }
        ensures coded { meter.new.coded ≤ meter.old.coded + 1 }
        ensures rises { meter.old.coded ≤ meter.new.coded }
        ensures all { found.entry ≡ None → OnOk result (RisesBy 1 meter.old.coded meter.new.coded) }
        ensures kept { CopiesSame view.now read.now sized.now found.entry self.old.stood meter.old.coded meter.new.coded }
        ensures anew { OnOk result (CountsRebound view.now read.now sized.now found.entry self.old.stood meter.old.coded meter.new.coded) }
        ensures sized { meter.new.sized ≡ meter.old.sized }
    {
        match found {
            None => self.add(view, read, sized, meter),
            Some(found) => {
                if found.is_rebound(view, read, &sized.sizing) {
                    self.add(view, read, sized, meter)
                } else {
                    self.copy(view, &found, sized)
                }
            }
        }
    }

    /// The line of a statement of so many cards that is only listed.
    pub(crate) fn list(&mut self, count: u32) -> Result<(), AllocError>
        ensures lined { OnOk result ((whole : Whole) (shown : List Shown) (given : statements.Statement) →
            IsWhole whole → IsListedStatement self.old.stood (drop self.old.stood whole.cards) count given →
            AreLinedAs whole shown self.old → AreLinedAs whole (shown ++ only_listed given ∷ []) self.new) }
        ensures stood { OnOk result (self.new.stood ≡ min (self.old.stood + count) (2 ^ 64 - 1)) }
    {
        self.lines.push(Line {
            cards: count,
            letters: Letters::none(),
            coded: None,
        })?;
        self.stood = self.stood.saturating_add(count as usize);
        Ok(())
    }
}
