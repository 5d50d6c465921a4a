//! The statements of a deck up to END, one after the other (COMPASS 60492600, END, ABS, PERIPH).
ghost use Rattle.std.specs.Prelude.{ℕ, ◌≡◌, ◌≤◌, ◌<◌, ◌+◌, ◌-◌, ◌^◌, ◌∷◌, [], List, All, IfOk, OnOk, length, map, min};
ghost use Rattle.cards.specs.Joins.Spans.{IsSpan, statement_at};
ghost use Rattle.cards.specs.declared.statement_list.Span.{Span};
ghost use Rattle.definitions.specs.Cards as deck_cards;
ghost use Rattle.definitions.specs.DeckKinds.{is_end, up_to_end, kind_of_statements};
ghost use Rattle.definitions.specs.Fields.{Fields, fields_of};
ghost use Rattle.definitions.specs.Operations.{operation_of};
ghost use Rattle.definitions.specs.Statements as statements;
ghost use Rattle.definitions.specs.Statements.{AreNumbered};
ghost use Rattle.definitions.specs.Laws.States.{names_of_blocks};
ghost use Rattle.operations.specs.Joins.KindsFound.{kind_found};
ghost use Rattle.operations.specs.Joins.OperationsAs.{operation_as};
ghost use Rattle.use_blocks.specs.Joins.BlockLengths.{block_names};
ghost use Rattle.use_blocks.specs.Joins.Changes.{IsAccepted};
ghost use Rattle.use_blocks.specs.Joins.EffectsAs.{change_as};
ghost use Rattle.deck_assembler.specs.Joins.FirstStatements.{all_statements};
ghost use Rattle.deck_assembler.specs.Joins.OldDecks.{IsOnSpan};
ghost use Rattle.deck_assembler.specs.Joins.SizedDecks.{IsSizedStatement};
ghost use Rattle.deck_assembler.specs.Joins.Sizers.{stood, ahead, IsNext, IsSizer};
ghost use Rattle.deck_assembler.specs.Joins.Takings.{AreTaken, CountsOne, CountsOneTaken, CountsTaken, CountsTaking, HasOld, TakesOne};
ghost use Rattle.deck_assembler.specs.declared.old_deck.Stage.TheVariants as stages;
ghost use Rattle.deck_assembler.specs.declared.sized_statement.SizedStatement as code;

use crate::old_deck::{OldDeck, Stage};
use crate::sized_statement::SizedStatement;
use crate::sizer::Sizer;
use cards::{Card, Span, StatementRoom, fields};
use definitions::DeckKind;
use operations::{KindSearch, is_end};
use statement_coder::{Meter, Statement, known_statement, read_operand};
use std::alloc::{AllocError, Global};
use std::collections::VecDeque;

/// The kind that the operation field of the statement of these cards leaves a search with.
fn read_kind(search: &mut KindSearch, cards: &[Card], room: &mut StatementRoom)
    requires { length cards.now ≤ 10 }
    ensures { (earlier : List Fields) → search.old ≡ kind_found earlier → search.new ≡ kind_found (fields_of cards.now ∷ earlier) }
{
    let fields = fields(cards, room);
    search.read(fields.operation());
}

/// The kind of a deck with these statements.
pub(crate) fn kind_of(cards: &[Card], spans: &[Span]) -> DeckKind
    requires { All (IsSpan (length cards.now)) spans.now }
    ensures { result ≡ kind_of_statements (up_to_end (all_statements cards.now spans.now)) }
{
    let mut room = StatementRoom::new();
    let mut search = KindSearch::new();
    for span in spans {
        if search.is_found() {
            return search.kind();
        }
        read_kind(&mut search, span.of(cards), &mut room);
    }
    search.kind()
}

/// How many statements were taken up to END, and how many cards are left of the old deck and of the
/// edited one where a tail begins that stayed.
#[derive(Clone, Copy)]
pub(crate) struct Taken {
    pub(crate) count: usize,
    pub(crate) tail: usize,
}

impl Sizer {
    /// Sizes the statement of a span, which is the next one, and returns whether it is END.
    #[inline(never)]
    fn take_span(
        &mut self,
        alloc: Global,
        kind: DeckKind,
        cards: &[Card],
        span: Span,
        room: &mut StatementRoom,
        meter: &mut Meter,
    ) -> Result<bool, AllocError>
        requires blocks { block_names self.old.lengths ≡ names_of_blocks self.old.state.blocks }
        requires span { IsSpan (length cards.now) span }
        ensures end { IfOk result (λ ended. ended ≡ is_end (fields_of (statement_at cards.now span).cards)) }
        ensures taken { OnOk result ((earlier : List statements.Statement) → IsNext cards.now earlier span.count (statement_at cards.now span) → IsSizer kind cards.now earlier self.old →
            IsSizer kind cards.now (statement_at cards.now span ∷ earlier) self.new) }
        ensures sized { meter.new.sized ≡ min (meter.old.sized + 1) (2 ^ 64 - 1) }
        ensures rises { meter.old.sized ≤ meter.new.sized }
        ensures coded { meter.new.coded ≡ meter.old.coded }
    {
        let statement = Statement::read(kind, span.of(cards), room);
        let ended = is_end(statement.name);
        let reading = &read_operand(
            kind,
            self.state.number_base(),
            statement.operation,
            statement.name,
            statement.variable,
        );
        self.take(alloc, &statement, reading, span.count as u16, meter)?;
        Ok(ended)
    }

    /// The statement of a span, which is the next one, as it was sized: it is the first of those that are
    /// left, and leaves them. Returns whether it is END. Nothing of it is sized again.
    fn keep_span(
        &mut self,
        alloc: Global,
        kind: DeckKind,
        cards: &[Card],
        span: Span,
        left: &mut VecDeque<SizedStatement, Global>,
        room: &mut StatementRoom,
    ) -> Result<bool, AllocError>
        requires blocks { block_names self.old.lengths ≡ names_of_blocks self.old.state.blocks }
        requires span { IsSpan (length cards.now) span }
        requires some { 0 < length left.old.items }
        requires accepted { (sized : code.SizedStatement) (rest : List code.SizedStatement) → left.old.items ≡ sized ∷ rest → IsAccepted (change_as sized.sizing.change) self.old.state }
        requires operation { (sized : code.SizedStatement) (rest : List code.SizedStatement) → left.old.items ≡ sized ∷ rest →
            operation_as sized.operation ≡ operation_of kind (fields_of (statement_at cards.now span).cards).operation }
        ensures end { IfOk result (λ ended. ended ≡ is_end (fields_of (statement_at cards.now span).cards)) }
        ensures kept { OnOk result ((sized : code.SizedStatement) × (left.old.items ≡ sized ∷ left.new.items) × ((earlier : List statements.Statement) → IsNext cards.now earlier sized.cards (statement_at cards.now span) → IsSizer kind cards.now earlier self.old →
            IsSizedStatement kind earlier (stood earlier) (ahead cards.now earlier) sized (statement_at cards.now span) → IsSizer kind cards.now (statement_at cards.now span ∷ earlier) self.new)) }
    {
        let Some(sized) = left.front() else {
            return Ok(false);
        };
        let statement = known_statement(kind, sized.operation, span.of(cards), room);
        let ended = is_end(statement.name);
        let effect = sized.sizing.effect(&statement);
        self.note_kept(&statement, sized, &effect)?;
        if let Some(sized) = left.pop_front() {
            self.put(alloc, sized, &effect)?;
        }
        Ok(ended)
    }

    /// The statement of a span, which is the next one: it is kept where it stays as it was in the old
    /// deck, and else sized. Returns whether it is END.
    fn take_next(
        &mut self,
        alloc: Global,
        kind: DeckKind,
        cards: &[Card],
        span: Span,
        old_deck: &mut OldDeck<'_>,
        room: &mut StatementRoom,
        meter: &mut Meter,
    ) -> Result<bool, AllocError>
        requires span { IsSpan (length cards.now) span }
        requires ready { (of : List deck_cards.Card) × (earlier : List statements.Statement) × IsOnSpan kind of cards.now earlier span self.old old_deck.old }
        ensures end { IfOk result (λ ended. ended ≡ is_end (fields_of (statement_at cards.now span).cards)) }
        ensures taken { OnOk result (TakesOne kind cards.now span self.old old_deck.old self.new old_deck.new) }
        ensures over { old_deck.old.stage ≡ stages.Over → old_deck.new.stage ≡ stages.Over }
        ensures counts { CountsOne kind cards.now span self.old old_deck.old meter.old meter.new }
        ensures counted { OnOk result (CountsOneTaken kind cards.now span self.old old_deck.old meter.old meter.new) }
    {
        if let Stage::Over = old_deck.stage {
            return self.take_span(alloc, kind, cards, span, room, meter);
        }
        if old_deck.stays(alloc, cards, span, self, room)? {
            self.keep_span(alloc, kind, cards, span, &mut old_deck.statements, room)
        } else {
            self.take_span(alloc, kind, cards, span, room, meter)
        }
    }

    /// Takes the statements of these spans up to END, and returns how many they are, and where the tail
    /// begins: those that stay of the old deck are as they were, the others are sized, and each of them
    /// counts one. Where memory runs out some of them are taken.
    pub(crate) fn take_up_to_end(
        &mut self,
        alloc: Global,
        kind: DeckKind,
        cards: &[Card],
        spans: &[Span],
        old_deck: OldDeck<'_>,
        meter: &mut Meter,
    ) -> Result<Taken, AllocError>
        requires none { IsSizer kind cards.now [] self.old }
        requires spans { All (IsSpan (length cards.now)) spans.now }
        requires numbered { AreNumbered (all_statements cards.now spans.now) }
        requires old_deck { HasOld kind cards.now old_deck }
        ensures taken { IfOk result (λ taken. AreTaken kind cards.now spans.now old_deck.entry self.new taken.count taken.tail) }
        ensures counts { CountsTaking kind cards.now spans.now old_deck.entry meter.old meter.new }
        ensures counted { IfOk result (λ taken. CountsTaken kind cards.now spans.now old_deck.entry taken.count meter.old meter.new) }
    {
        let mut kept = old_deck;
        let mut room = StatementRoom::new();
        for (k, span) in spans.iter().enumerate() {
            if self.take_next(alloc, kind, cards, *span, &mut kept, &mut room, meter)? {
                return Ok(Taken {
                    count: k + 1,
                    tail: kept.tail(),
                });
            }
        }
        Ok(Taken {
            count: spans.len(),
            tail: kept.tail(),
        })
    }
}

/// How many cards each of these statements has.
pub(crate) fn card_counts(alloc: Global, spans: &[Span]) -> Result<Vec<u32>, AllocError>
    requires { (cards : ℕ) × All (IsSpan cards) spans.now }
    ensures { IfOk result (λ counts. counts.items ≡ map (λ (span : Span). span.count) spans.now) }
{
    let mut counts = Vec::with_capacity(alloc, spans.len())?;
    for span in spans {
        counts.push(span.count as u32)?;
    }
    Ok(counts)
}
