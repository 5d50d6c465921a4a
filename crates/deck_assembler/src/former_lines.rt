//! The lines of the object before an edit, as far as they are those of the statements in front of the
//! edited card, or of the tail that stayed as it was sized: they are taken over, unless a name is bound
//! otherwise.
ghost use Rattle.std.specs.Prelude.{◌≡◌, ◌≤◌, ◌+◌, true, IfSome};
ghost use Rattle.definitions.specs.Laws.Rebound.{is_rebound};
ghost use Rattle.definitions.specs.Settled.{Settled, defined};
ghost use Rattle.definitions.specs.StatementItems.{Context};
ghost use Rattle.statement_coder.specs.Joins.ReadOperands.{IsReadOperand};
ghost use Rattle.statement_coder.specs.Joins.Sizings.{location_in, origin_in};
ghost use Rattle.deck_assembler.specs.Joins.FirstSymbols.{symbol_in};
ghost use Rattle.deck_assembler.specs.Joins.FormerLines.{IsBare, IsMissedInFront, IsMissedInTail, IsNextInFront, IsNextInTail, IsNextLine};
ghost use Rattle.deck_assembler.specs.Joins.Rebindings.{AreBindings};

use crate::deck_view::DeckView;
use crate::rebinding::{Bindings, Rebinding};
use deck_objects::{CodedLine, FieldLists, Line};
use statement_coder::{KeptSizing, ReadOperand};

/// The line of a statement in the object before an edit, and what names meant there.
#[derive(Clone, Copy)]
pub(crate) struct FormerLine<'a> {
    pub(crate) line: &'a Line,
    pub(crate) coded: &'a CodedLine,
    pub(crate) fields: &'a FieldLists,
    pub(crate) bindings: Bindings<'a>,
}

/// The lines that are left of a tail whose statements stayed as they were sized, and how many cards
/// stand before the first of these.
#[derive(Clone, Copy)]
pub(crate) struct TailLines<'a> {
    pub(crate) left: &'a [Line],
    pub(crate) at: usize,
}

/// The lines that are left of the object before an edit, those of the tail once more, and how many
/// cards stand unchanged.
#[derive(Drop)]
pub(crate) struct FormerLines<'a> {
    pub(crate) left: &'a [Line],
    pub(crate) tail: TailLines<'a>,
    pub(crate) fields: &'a FieldLists,
    pub(crate) before: usize,
    pub(crate) bindings: Bindings<'a>,
}

/// Whether so many cards behind so many others are among the unchanged ones.
pub(crate) fn ends_within(stood: usize, count: u32, before: usize) -> bool
    ensures within { result ≡ true → stood + count ≤ before }
    ensures all { stood + count ≤ before → result ≡ true }
{
    count as usize <= before && stood <= before - count as usize
}

impl<'a> FormerLines<'a> {
    /// No lines: all statements of this deck are coded.
    pub(crate) fn none(view: &DeckView<'a>, nothing: &'a FieldLists) -> FormerLines<'a>
        ensures { IsBare result }
    {
        FormerLines {
            left: &[],
            tail: TailLines { left: &[], at: 0 },
            fields: nothing,
            before: 0,
            bindings: view.bindings(),
        }
    }

    /// The line of the next statement, which has so many cards behind so many others; where the object
    /// has another statement there, none, and of those behind it none either before the tail.
    pub(crate) fn next(&mut self, stood: usize, count: u32) -> Option<FormerLine<'a>>
        ensures next { IsNextLine self.old self.new stood count result }
        ensures bindings { self.new.bindings ≡ self.old.bindings }
        ensures found { IfSome result (λ line. line.bindings ≡ self.old.bindings) }
    {
        if stood == self.tail.at {
            self.next_in_tail(stood, count)
        } else {
            self.next_in_front(stood, count)
        }
    }

    /// The same in front of the edited card, and behind it.
    fn next_in_front(&mut self, stood: usize, count: u32) -> Option<FormerLine<'a>>
        ensures next { IsNextInFront self.old self.new stood count result }
        ensures missed { IsMissedInFront self.old stood count result }
        ensures bindings { self.new.bindings ≡ self.old.bindings }
        ensures found { IfSome result (λ line. line.bindings ≡ self.old.bindings) }
    {
        let left = self.left;
        self.left = left.split_at(0).0;
        let (line, others) = left.split_first()?;
        let coded = line.coded.as_ref()?;
        if line.cards != count || !ends_within(stood, count, self.before) {
            return None;
        }
        self.left = others;
        Some(FormerLine {
            line,
            coded,
            fields: self.fields,
            bindings: self.bindings,
        })
    }

    /// The same in the tail.
    fn next_in_tail(&mut self, stood: usize, count: u32) -> Option<FormerLine<'a>>
        ensures next { IsNextInTail self.old self.new stood count result }
        ensures missed { IsMissedInTail self.old result }
        ensures bindings { self.new.bindings ≡ self.old.bindings }
        ensures found { IfSome result (λ line. line.bindings ≡ self.old.bindings) }
    {
        self.left = self.left.split_at(0).0;
        let tail = self.tail.left;
        self.tail.left = tail.split_at(0).0;
        let (line, others) = tail.split_first()?;
        let coded = line.coded.as_ref()?;
        self.tail = TailLines {
            left: others,
            at: stood.saturating_add(count as usize),
        };
        Some(FormerLine {
            line,
            coded,
            fields: self.fields,
            bindings: self.bindings,
        })
    }
}

impl FormerLine<'_> {
    /// Whether its statement, which was read, is bound otherwise in the deck that is viewed.
    pub(crate) fn is_rebound(
        &self,
        view: &DeckView<'_>,
        read: &ReadOperand<'_>,
        sizing: &KeptSizing,
    ) -> bool
        ensures { (old new : Context) (settled : Settled) → AreBindings self.now.bindings old →
            symbol_in view.now.deck.now.symbols ≡ (λ name. defined name new.settled) → view.now.deck.now.literals ≡ new.literals → view.now.bases.now ≡ new.rows →
            IsReadOperand read.now settled → location_in view.now.deck.now.kind sizing.now ≡ settled.location → origin_in view.now.deck.now.kind sizing.now ≡ settled.origin → result ≡ is_rebound old new settled }
    {
        let kind = view.deck.kind();
        let rebinding = Rebinding {
            old: self.bindings,
            new: view.bindings(),
            location: sizing.location(kind),
            origin: sizing.origin(kind),
        };
        rebinding.differs(read)
    }
}
