//! The deck that an edited one is made of: what is left of it, one statement after the other, and which
//! of that stays as it was sized.
ghost use Rattle.std.specs.Prelude.{ℕ, ◌≡◌, ◌≤◌, ◌+◌, ◌⊎◌, ◌∷◌, ◌++◌, ◌<◌, true, false, [], List, Ok, None, IfOk, IfSome, OnOk, drop, length};
ghost use Rattle.std.specs.Option.{option_to_list};
ghost use Rattle.cards.specs.Joins.Spans.{IsSpan};
ghost use Rattle.definitions.specs.Cards as deck_cards;
ghost use Rattle.definitions.specs.Statements as statements;
ghost use Rattle.definitions.specs.declared.deck_kind.DeckKind as kinds;
ghost use Rattle.deck_assembler.specs.Joins.Agreements.{left, DoesAgree, HasFront, IsAgreeing, IsOfSameDeck, IsSameFront};
ghost use Rattle.deck_assembler.specs.Joins.DeckParts.{sized_in};
ghost use Rattle.deck_assembler.specs.Joins.Meetings.{HasPiece, IsBegunOf, IsNextOf, KeepsIf};
ghost use Rattle.deck_assembler.specs.Joins.OldDecks.{IsInFront, IsOnSpan};
ghost use Rattle.deck_assembler.specs.Joins.Sizers.{IsSizer};
ghost use Rattle.deck_assembler.specs.declared.old_deck.Stage.TheVariants as stages;
ghost use Rattle.deck_assembler.specs.declared.sized_statement.SizedStatement as code;
ghost use Rattle.deck_assembler.specs.declared.sizer.Sizer as sizers;

use crate::deck_lines::{later_cards, next_cards};
use crate::definitions_kept::define;
use crate::early_trial::{Missed, Trial};
use crate::pieces::Piece;
use crate::sized_statement::SizedStatement;
use crate::sizer::Sizer;
use crate::symbol_table::SymbolTable;
use cards::{Card, Span, StatementRoom};
use definitions::DeckKind;
use statement_coder::Statement;
use std::alloc::{AllocError, Global};
use std::collections::VecDeque;
use std::hash::RandomState;
use use_blocks::BlockState;

/// The cards of a deck before an edit, and how many of the first and of the last of them stand
/// unchanged in the edited deck.
#[derive(Clone, Copy)]
pub struct OldCards<'a> {
    pub cards: &'a [Card],
    pub before: usize,
    pub behind: usize,
}

/// How far an edited deck has come beside the one before.
#[derive(Clone, Copy)]
pub(crate) enum Stage {
    /// The same statements were taken of both.
    Front,
    /// The statements of the edited card were passed, and the decks don't agree yet.
    Between,
    /// The decks agree: all that is left stays.
    Tail,
    /// Nothing more stays.
    Over,
}

/// What is left of a deck: its statements and their cards; and, between front and tail, what the
/// statements make that were passed, and the piece where the decks were found to differ.
#[derive(Drop)]
pub(crate) struct OldDeck<'a> {
    pub(crate) kind: DeckKind,
    pub(crate) ahead: &'a [Card],
    pub(crate) statements: VecDeque<SizedStatement, Global>,
    pub(crate) pieces: VecDeque<Piece, Global>,
    pub(crate) before: usize,
    pub(crate) behind: usize,
    pub(crate) stage: Stage,
    pub(crate) state: BlockState,
    pub(crate) symbols: SymbolTable,
    pub(crate) missed: Option<Missed>,
}

impl<'a> OldDeck<'a> {
    /// All of a deck of this kind, which is made of these cards.
    pub(crate) fn of(
        alloc: Global,
        keys: RandomState,
        old: OldCards<'a>,
        pieces: Vec<Piece>,
        kind: DeckKind,
        stage: Stage,
    ) -> Result<OldDeck<'a>, AllocError>
        ensures kind { IfOk result (λ deck. deck.kind ≡ kind) }
        ensures ahead { IfOk result (λ deck. deck.ahead.now ≡ old.entry.cards.now) }
        ensures left { IfOk result (λ deck. left deck ≡ sized_in pieces.items) }
        ensures begun { IfOk result (λ deck. deck.statements.items ≡ []) }
        ensures pieces { IfOk result (λ deck. deck.pieces.items ≡ pieces.items) }
        ensures before { IfOk result (λ deck. deck.before ≡ old.entry.before) }
        ensures behind { IfOk result (λ deck. deck.behind ≡ old.entry.behind) }
        ensures stage { IfOk result (λ deck. deck.stage ≡ stage) }
    {
        Ok(OldDeck {
            kind,
            ahead: old.cards,
            statements: VecDeque::new(alloc),
            pieces: VecDeque::from_vec(pieces),
            before: old.before,
            behind: old.behind,
            stage,
            state: BlockState::new(alloc)?,
            symbols: SymbolTable::new(alloc, keys),
            missed: None,
        })
    }

    /// Begins the next of its pieces, where nothing is left of the one that was begun.
    #[inline(always)]
    fn begin_piece(&mut self)
        ensures begun { IsBegunOf self.old self.new }
        ensures last { self.new.statements.items ≡ [] → left self.new ≡ [] }
        ensures rest { left self.new ≡ left self.old }
        ensures same { IsSameFront self.old self.new }
    {
        if !self.statements.is_empty() {
            return;
        }
        if let Some(piece) = self.pieces.pop_front() {
            self.statements = VecDeque::from_vec(piece.into_statements());
        }
    }

    /// The next of its statements.
    #[inline(always)]
    pub(crate) fn next(&mut self) -> Option<SizedStatement>
        ensures next { left self.old ≡ option_to_list result ++ left self.new }
        ensures last { result ≡ None → left self.new ≡ [] }
        ensures some { IfSome result (IsNextOf self.old self.new) }
        ensures none { result ≡ None → (self.new.statements.items ≡ self.old.statements.items) × (self.new.pieces.items ≡ self.old.pieces.items) }
        ensures same { IsSameFront self.old self.new }
    {
        self.begin_piece();
        self.statements.pop_front()
    }

    /// Whether the next of its statements, in the piece that was begun, has as many cards as a span.
    #[inline(always)]
    fn is_next_as(&self, span: Span) -> bool
        ensures some { result ≡ true → 0 < length self.now.statements.items }
        ensures count { result ≡ true → (sized : code.SizedStatement) (rest : List code.SizedStatement) → self.now.statements.items ≡ sized ∷ rest → sized.cards ≡ span.count }
        ensures all { (sized : code.SizedStatement) (rest : List code.SizedStatement) → self.now.statements.items ≡ sized ∷ rest → sized.cards ≡ span.count → result ≡ true }
    {
        match self.statements.front() {
            None => false,
            Some(sized) => sized.cards as usize == span.count,
        }
    }

    /// Goes behind a statement, which was the next one. Its externals are not asked for.
    fn pass(
        &mut self,
        alloc: Global,
        sized: &SizedStatement,
        room: &mut StatementRoom,
    ) -> Result<(), AllocError>
        requires front { (cards : List deck_cards.Card) × (later : List code.SizedStatement) × HasFront cards (sized.now ∷ later) self.old }
        ensures front { OnOk result ((cards : List deck_cards.Card) (later : List code.SizedStatement) → HasFront cards (sized.now ∷ later) self.old → HasFront cards later self.new) }
        ensures rest { left self.new ≡ left self.old }
        ensures begun { self.new.statements ≡ self.old.statements }
        ensures pieces { self.new.pieces ≡ self.old.pieces }
        ensures ahead { OnOk result (sized.now.cards ≤ length self.old.ahead.now → self.new.ahead.now ≡ drop sized.now.cards self.old.ahead.now) }
        ensures deck { IsOfSameDeck self.old self.new }
        ensures stage { self.new.stage ≡ self.old.stage }
    {
        let statement = Statement::read(self.kind, next_cards(self.ahead, 0, sized.cards), room);
        let reading = sized.kept.reading(self.kind, sized.operation);
        let defines = sized.sizing.defines(self.kind);
        define(
            &mut self.symbols,
            &mut Vec::new(alloc),
            statement.location,
            &reading,
            defines,
        )?;
        self.state.advance(&sized.sizing.effect(&statement))?;
        self.ahead = later_cards(self.ahead, sized.cards as usize);
        Ok(())
    }

    /// Goes on to where at most so many cards are left, or to the end of its statements.
    fn pass_to(
        &mut self,
        alloc: Global,
        count: usize,
        room: &mut StatementRoom,
    ) -> Result<(), AllocError>
        requires front { (cards : List deck_cards.Card) × HasFront cards (left self.old) self.old }
        ensures front { OnOk result ((cards : List deck_cards.Card) → HasFront cards (left self.old) self.old → HasFront cards (left self.new) self.new) }
        ensures piece { OnOk result ((tail : List code.SizedStatement) (rest : ℕ) → rest ≤ count → HasPiece self.old tail rest → HasPiece self.new tail rest) }
        ensures reached { OnOk result ((length self.new.ahead.now ≤ count) ⊎ (left self.new ≡ [])) }
        ensures deck { IsOfSameDeck self.old self.new }
        ensures stage { self.new.stage ≡ self.old.stage }
    {
        'statements: loop {
            if self.ahead.len() <= count {
                return Ok(());
            }
            match self.next() {
                None => return Ok(()),
                Some(sized) => self.pass(alloc, &sized, room)?,
            }
        }
    }

    /// A trial under these symbols of all that is left.
    fn trial<'t>(&'t self, symbols: &'t SymbolTable) -> Trial<'t>
        ensures kind { result.kind ≡ self.now.kind }
        ensures first { result.first.now ≡ self.now.symbols }
        ensures second { result.second.now ≡ symbols.now }
    {
        Trial {
            kind: self.kind,
            first: &self.symbols,
            second: symbols,
        }
    }

    /// Whether the piece where the decks were found to differ is left, and they still do: so no other
    /// piece need be tried. Asked where a piece begins.
    fn differs_still<'t>(&'t self, symbols: &'t SymbolTable) -> bool
        requires { self.now.statements.items ≡ [] }
        ensures { DoesAgree self.now symbols.now → result ≡ false }
    {
        let Some(missed) = self.missed else {
            return false;
        };
        let pieces = self.pieces.as_slices().0;
        let passed = pieces.len().saturating_sub(missed.pieces);
        let Some(piece) = pieces.split_at(passed).1.first() else {
            return false;
        };
        !self.trial(symbols).are_alike(piece.statements())
    }

    /// The first piece in which something is not alike under these symbols. Asked where a piece begins.
    fn find_missed<'t>(&'t self, symbols: &'t SymbolTable) -> Option<Missed>
        requires { self.now.statements.items ≡ [] }
        ensures alike { result ≡ None → IsAgreeing self.now symbols.now }
        ensures all { DoesAgree self.now symbols.now → result ≡ None }
    {
        let trial = self.trial(symbols);
        let pieces = self.pieces.as_slices();
        match trial.first_missed(pieces.0, pieces.1.len()) {
            Some(missed) => Some(missed),
            None => trial.first_missed(pieces.1, 0),
        }
    }

    /// Whether so many cards are left behind the edited one, and all that is left defines and reads
    /// early what it did, behind the statements that were taken. Asked where a piece begins.
    fn is_met(&mut self, count: usize, sizer: &Sizer) -> bool
        ensures place { result ≡ true → length self.old.ahead.now ≡ count }
        ensures behind { result ≡ true → count ≤ self.old.behind }
        ensures state { result ≡ true → self.old.state ≡ sizer.now.state }
        ensures alike { result ≡ true → IsAgreeing self.old sizer.now.symbols }
        ensures all { length self.old.ahead.now ≡ count → count ≤ self.old.behind → self.old.statements.items ≡ [] → self.old.state ≡ sizer.now.state → DoesAgree self.old sizer.now.symbols → result ≡ true }
        ensures same { IsSameFront self.old self.new }
        ensures rest { left self.new ≡ left self.old }
        ensures begun { self.new.statements ≡ self.old.statements }
        ensures pieces { self.new.pieces ≡ self.old.pieces }
    {
        if self.ahead.len() != count || count > self.behind {
            return false;
        }
        if !self.statements.is_empty() || !self.state.same(&sizer.state) {
            return false;
        }
        if self.missed.is_none() && self.symbols.is_same(&sizer.symbols) {
            return true;
        }
        if self.differs_still(&sizer.symbols) {
            return false;
        }
        self.missed = self.find_missed(&sizer.symbols);
        self.missed.is_none()
    }

    /// Leaves the front with its next statement: what stands in front of that is what was taken of both
    /// decks.
    #[inline(never)]
    fn leave_front(
        &mut self,
        alloc: Global,
        sizer: &Sizer,
        sized: &SizedStatement,
        room: &mut StatementRoom,
    ) -> Result<(), AllocError>
        requires { (old : List deck_cards.Card) × (cards : List deck_cards.Card) × (earlier : List statements.Statement) × (later : List code.SizedStatement) ×
            (IsSizer self.old.kind cards earlier sizer.now × IsInFront old cards earlier (sized.now ∷ later) self.old) }
        ensures front { OnOk result ((old cards : List deck_cards.Card) (earlier : List statements.Statement) (later : List code.SizedStatement) →
            IsSizer self.old.kind cards earlier sizer.now → IsInFront old cards earlier (sized.now ∷ later) self.old → HasFront old later self.new) }
        ensures rest { left self.new ≡ left self.old }
        ensures begun { self.new.statements ≡ self.old.statements }
        ensures pieces { self.new.pieces ≡ self.old.pieces }
        ensures ahead { OnOk result (sized.now.cards ≤ length self.old.ahead.now → self.new.ahead.now ≡ drop sized.now.cards self.old.ahead.now) }
        ensures deck { IsOfSameDeck self.old self.new }
        ensures stage { OnOk result (self.new.stage ≡ stages.Between) }
    {
        let state = sizer.state.copy(alloc)?;
        let symbols = sizer.symbols.copy()?;
        self.state = state;
        self.symbols = symbols;
        self.stage = Stage::Between;
        self.pass(alloc, sized, room)
    }

    /// Whether the next of its statements stays: it ends before the edited card and has the cards of a
    /// span. Else the front is left with it.
    fn stays_in_front(
        &mut self,
        alloc: Global,
        span: Span,
        sizer: &Sizer,
        room: &mut StatementRoom,
    ) -> Result<bool, AllocError>
        requires stage { self.old.stage ≡ stages.Front }
        requires ready { (kind : kinds.DeckKind) × (old : List deck_cards.Card) × (cards : List deck_cards.Card) × (earlier : List statements.Statement) × IsOnSpan kind old cards earlier span sizer.now self.old }
        ensures { IfOk result (λ stays. (cards : List deck_cards.Card) → KeepsIf cards span sizer.now self.old self.new stays) }
    {
        self.begin_piece();
        if self.is_next_as(span) && is_within(span, self.before) {
            self.ahead = later_cards(self.ahead, span.count);
            return Ok(true);
        }
        let Some(sized) = self.statements.pop_front() else {
            self.stage = Stage::Over;
            return Ok(false);
        };
        self.leave_front(alloc, sizer, &sized, room)?;
        Ok(false)
    }

    /// Whether the next of its statements stays, where all that is left does: it has as many cards as a
    /// span.
    #[inline(always)]
    fn stays_in_tail(&mut self, span: Span) -> bool
        requires { self.old.stage ≡ stages.Tail }
        ensures { (cards : List deck_cards.Card) (sizer : sizers.Sizer) → KeepsIf cards span sizer self.old self.new result }
    {
        self.begin_piece();
        if self.is_next_as(span) {
            return true;
        }
        self.stage = Stage::Over;
        false
    }

    /// How many cards of both decks are left where they were found to agree, if all since stayed.
    pub(crate) fn tail(&self) -> usize
        ensures tail { self.now.stage ≡ stages.Tail → result ≡ length self.now.ahead.now }
        ensures none { (result ≡ 0) ⊎ (self.now.stage ≡ stages.Tail) }
    {
        match self.stage {
            Stage::Tail => self.ahead.len(),
            Stage::Front => 0,
            Stage::Between => 0,
            Stage::Over => 0,
        }
    }

    /// Whether the next of its statements stays: the decks agree where as many cards are left of it as a
    /// span and those behind it have.
    #[inline(never)]
    fn stays_between(
        &mut self,
        alloc: Global,
        cards: &[Card],
        span: Span,
        sizer: &Sizer,
        room: &mut StatementRoom,
    ) -> Result<bool, AllocError>
        requires span { IsSpan (length cards.now) span }
        requires stage { self.old.stage ≡ stages.Between }
        requires ready { (kind : kinds.DeckKind) × (old : List deck_cards.Card) × (earlier : List statements.Statement) × IsOnSpan kind old cards.now earlier span sizer.now self.old }
        ensures { IfOk result (KeepsIf cards.now span sizer.now self.old self.new) }
    {
        let count = cards.len() - span.start;
        self.pass_to(alloc, count, room)?;
        if !self.is_met(count, sizer) {
            return Ok(false);
        }
        self.stage = Stage::Tail;
        Ok(self.stays_in_tail(span))
    }

    /// Whether the next of its statements stays as that of a span, which is the next one of the edited
    /// deck. Then it is the first of the piece that was begun.
    pub(crate) fn stays(
        &mut self,
        alloc: Global,
        cards: &[Card],
        span: Span,
        sizer: &Sizer,
        room: &mut StatementRoom,
    ) -> Result<bool, AllocError>
        requires span { IsSpan (length cards.now) span }
        requires ready { (kind : kinds.DeckKind) × (old : List deck_cards.Card) × (earlier : List statements.Statement) × IsOnSpan kind old cards.now earlier span sizer.now self.old }
        ensures stays { IfOk result (KeepsIf cards.now span sizer.now self.old self.new) }
        ensures none { self.old.stage ≡ stages.Over → result ≡ Ok false }
        ensures over { self.old.stage ≡ stages.Over → self.new.stage ≡ stages.Over }
    {
        match self.stage {
            Stage::Front => self.stays_in_front(alloc, span, sizer, room),
            Stage::Between => self.stays_between(alloc, cards, span, sizer, room),
            Stage::Tail => Ok(self.stays_in_tail(span)),
            Stage::Over => Ok(false),
        }
    }
}

/// Whether the cards of a span are among so many first ones.
fn is_within(span: Span, before: usize) -> bool
    ensures within { result ≡ true → span.start + span.count ≤ before }
    ensures all { span.start + span.count ≤ before → result ≡ true }
{
    span.count <= before && span.start <= before - span.count
}
