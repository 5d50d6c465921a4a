//! The statements of a deck, sized one behind the other.
ghost use Rattle.std.specs.Prelude.{◌≡◌, ◌≤◌, ◌+◌, ◌-◌, ◌^◌, ◌∷◌, [], List, min, reverse, IfOk, OnOk, true};
ghost use Rattle.definitions.specs.Cards as cards;
ghost use Rattle.definitions.specs.Operands as operands;
ghost use Rattle.definitions.specs.Operands.{operand_of};
ghost use Rattle.definitions.specs.Statements as statements;
ghost use Rattle.definitions.specs.Laws.States.{names_of_blocks, advanced};
ghost use Rattle.definitions.specs.declared.deck_kind.DeckKind as kinds;
ghost use Rattle.operations.specs.Joins.OperationsAs.{operation_as};
ghost use Rattle.statement_coder.specs.Joins.KeptReadings.{IsKeptReading};
ghost use Rattle.statement_coder.specs.Joins.Readings.{IsReading, IsLawful};
ghost use Rattle.statement_coder.specs.Joins.Sizings.{defines_in};
ghost use Rattle.statement_coder.specs.Joins.StatementsRead.{IsRead};
ghost use Rattle.use_blocks.specs.Joins.Changes.{IsAccepted};
ghost use Rattle.use_blocks.specs.Joins.EffectsAs.{change_as, effect_as};
ghost use Rattle.use_blocks.specs.Joins.BlockLengths.{block_names};
ghost use Rattle.deck_assembler.specs.Joins.LiteralsRead.{IsBareOperand};
ghost use Rattle.deck_assembler.specs.Joins.PieceSteps.{with_statement};
ghost use Rattle.deck_assembler.specs.Joins.Sizers.{IsNext, IsNoted, IsSizer};

use crate::definitions_kept::{define, define_own};
use crate::literal_words::add_literals;
use crate::pieces::{Piece, add_statement};
use crate::sized_statement::{SizedStatement, label_of};
use crate::symbol_table::SymbolTable;
use expr_forms::Name;
use statement_coder::{Defines, Meter, Reading, Statement, operand_letters, size};
use std::alloc::{AllocError, Global};
use std::hash::RandomState;
use use_blocks::{BlockState, Effect, Lengths, Literals};

/// What the first statements of a deck make.
#[derive(Drop)]
pub(crate) struct Sizer {
    /// The state behind them.
    pub(crate) state: BlockState,
    pub(crate) pieces: Vec<Piece>,
    pub(crate) symbols: SymbolTable,
    pub(crate) externals: Vec<Name>,
    pub(crate) literals: Literals,
    pub(crate) lengths: Lengths,
}

impl Sizer {
    /// What no statement makes.
    pub(crate) fn new(alloc: Global, keys: RandomState) -> Result<Sizer, AllocError>
        ensures { IfOk result (λ sizer. (kind : kinds.DeckKind) (cards : List cards.Card) → IsSizer kind cards [] sizer) }
    {
        Ok(Sizer {
            state: BlockState::new(alloc)?,
            pieces: Vec::new(alloc),
            symbols: SymbolTable::new(alloc, keys),
            externals: Vec::new(alloc),
            literals: Literals::new(alloc, keys),
            lengths: Lengths::new(alloc, keys)?,
        })
    }

    /// Sizes the next statement, whose operand was read, and which has so many cards, and counts it in the
    /// meter. Where memory runs out it is sized in part.
    pub(crate) fn take(
        &mut self,
        alloc: Global,
        statement: &Statement<'_>,
        reading: &Reading<'_>,
        count: u16,
        meter: &mut Meter,
    ) -> Result<(), AllocError>
        requires blocks { block_names self.old.lengths ≡ names_of_blocks self.old.state.blocks }
        requires reading { IsReading reading.now (operand_of statement.now.kind self.old.state.number_base (operation_as statement.now.operation) statement.now.name.now statement.now.variable.now) }
        requires lawful { IsLawful reading.now }
        ensures taken { OnOk result ((kind : kinds.DeckKind) (cards : List cards.Card) (earlier : List statements.Statement) (given : statements.Statement) →
            IsRead kind given.cards statement.now → IsNext cards earlier count given → IsSizer kind cards earlier self.old → IsSizer kind cards (given ∷ earlier) self.new) }
        ensures sized { meter.new.sized ≡ min (meter.old.sized + 1) (2 ^ 64 - 1) }
        ensures rises { meter.old.sized ≤ meter.new.sized }
        ensures coded { meter.new.coded ≡ meter.old.coded }
    {
        let base = self.state.number_base();
        let (state, symbols) = (&self.state, &self.symbols);
        let keys = symbols.keys();
        let letters = operand_letters(alloc, keys, statement, reading, symbols, meter)?;
        let sizing = size(alloc, statement, reading, &letters, state, symbols, meter)?;
        let effect = sizing.effect(statement);
        let is_bare = self.note(
            reading,
            statement.location,
            sizing.defines(statement.kind),
            &effect,
        )?;
        let kept = reading.kept(alloc, statement, base)?;
        let sized = SizedStatement {
            cards: count,
            operation: statement.operation,
            label: label_of(statement.location),
            is_bare,
            kept,
            sizing,
        };
        self.put(alloc, sized, &effect)?;
        Ok(())
    }

    /// Puts a statement of this effect behind the others. Where memory runs out it may stand there
    /// without its effect.
    #[inline(always)]
    pub(crate) fn put(
        &mut self,
        alloc: Global,
        sized: SizedStatement,
        effect: &Effect,
    ) -> Result<(), AllocError>
        requires accepted { IsAccepted (change_as effect.now.change) self.old.state }
        ensures pieces { OnOk result (reverse self.new.pieces.items ≡ with_statement self.old.state sized (reverse self.old.pieces.items)) }
        ensures state { OnOk result (self.new.state ≡ advanced (effect_as effect.now) self.old.state) }
        ensures symbols { self.new.symbols ≡ self.old.symbols }
        ensures externals { self.new.externals.items ≡ self.old.externals.items }
        ensures literals { self.new.literals ≡ self.old.literals }
        ensures lengths { self.new.lengths ≡ self.old.lengths }
    {
        add_statement(alloc, &mut self.pieces, &self.state, sized)?;
        self.state.advance(effect)?;
        Ok(())
    }

    /// Takes in the literals of a statement that was sized before, what it defines, and the words that
    /// it reaches: its operand is not looked at where it is known to have neither literals nor names.
    pub(crate) fn note_kept(
        &mut self,
        statement: &Statement<'_>,
        sized: &SizedStatement,
        effect: &Effect,
    ) -> Result<(), AllocError>
        requires blocks { block_names self.old.lengths ≡ names_of_blocks self.old.state.blocks }
        requires accepted { IsAccepted (change_as effect.now.change) self.old.state }
        ensures noted { OnOk result ((operand : operands.Operand) → IsKeptReading statement.now.kind (operation_as sized.now.operation) sized.now.kept operand → (sized.now.is_bare ≡ true → IsBareOperand operand) →
            IsNoted statement.now.location.now operand (defines_in statement.now.kind sized.now.sizing) (effect_as effect.now) self.old self.new) }
        ensures state { self.new.state ≡ self.old.state }
        ensures pieces { self.new.pieces ≡ self.old.pieces }
    {
        if sized.is_bare {
            return self.note_own(statement, sized, effect);
        }
        let reading = sized.kept.reading(statement.kind, sized.operation);
        let defines = sized.sizing.defines(statement.kind);
        self.note(&reading, statement.location, defines, effect)?;
        Ok(())
    }

    /// Takes in the same of a statement whose operand has neither literals nor names. Some of it is taken
    /// in where memory runs out.
    fn note_own(
        &mut self,
        statement: &Statement<'_>,
        sized: &SizedStatement,
        effect: &Effect,
    ) -> Result<(), AllocError>
        requires blocks { block_names self.old.lengths ≡ names_of_blocks self.old.state.blocks }
        requires accepted { IsAccepted (change_as effect.now.change) self.old.state }
        ensures noted { OnOk result ((operand : operands.Operand) → IsBareOperand operand → IsNoted statement.now.location.now operand (defines_in statement.now.kind sized.now.sizing) (effect_as effect.now) self.old self.new) }
        ensures state { self.new.state ≡ self.old.state }
        ensures pieces { self.new.pieces ≡ self.old.pieces }
    {
        define_own(
            &mut self.symbols,
            statement.kind,
            statement.location,
            &sized.sizing,
        )?;
        self.lengths.follow(&self.state, effect)?;
        Ok(())
    }

    /// Takes in what a statement gives to its deck: its literals, what it defines, and the words that
    /// it reaches; and returns whether its operand is known to have neither literals nor names. Some of it
    /// is taken in where memory runs out.
    fn note(
        &mut self,
        reading: &Reading<'_>,
        location: &[u8],
        defines: Defines,
        effect: &Effect,
    ) -> Result<bool, AllocError>
        requires blocks { block_names self.old.lengths ≡ names_of_blocks self.old.state.blocks }
        requires accepted { IsAccepted (change_as effect.now.change) self.old.state }
        ensures noted { OnOk result ((operand : operands.Operand) → IsReading reading.now operand → IsLawful reading.now → IsNoted location.now operand defines (effect_as effect.now) self.old self.new) }
        ensures bare { IfOk result (λ bare. bare ≡ true → (operand : operands.Operand) → IsReading reading.now operand → IsLawful reading.now → IsBareOperand operand) }
        ensures state { self.new.state ≡ self.old.state }
        ensures pieces { self.new.pieces ≡ self.old.pieces }
    {
        let is_bare = add_literals(&mut self.literals, reading)?;
        define(
            &mut self.symbols,
            &mut self.externals,
            location,
            reading,
            defines,
        )?;
        self.lengths.follow(&self.state, effect)?;
        Ok(is_bare)
    }
}
