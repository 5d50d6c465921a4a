//! The statements of a deck in pieces of at most 128 (ours).
ghost use Rattle.std.specs.Prelude.{◌≡◌, ◌≤◌, ◌<◌, ◌∷◌, ◌++◌, [], false, length, reverse, true, IfOk, OnOk};
ghost use Rattle.deck_assembler.specs.Joins.PieceSteps.{is_full, with_pushed, with_statement, onto_latest};

use crate::sized_statement::SizedStatement;
use std::alloc::{AllocError, Global};
use std::marker::Model;
use use_blocks::BlockState;

/// How many statements a piece has at most.
const MOST_STATEMENTS: usize = 128;

/// Some statements in order, 1 to 128, and the state before the first of them. Contracts see both.
#[derive(Drop)]
pub struct Piece {
    state: BlockState,
    statements: Vec<SizedStatement>,
}

impl Model for Piece {
    ghost use Rattle.std.specs.Prelude.{◌<◌, ◌≤◌, length};
    ghost use Rattle.deck_assembler.specs.Joins.DeckParts.{DeckPiece};

    ghost Value = { DeckPiece };

    ghost view = { λ p. record { state = p.state; statements = p.statements.items } };

    ghost invariant = { λ p. (0 < length p.statements.items) × (length p.statements.items ≤ 128) };
}

impl Piece {
    /// The state before its first statement.
    pub fn state(&self) -> &BlockState
        ensures { result.now ≡ self.now.state }
    {
        &self.state
    }

    /// Its statements in order.
    pub fn statements(&self) -> &[SizedStatement]
        ensures statements { result.now ≡ self.now.statements }
        ensures some { 0 < length self.now.statements }
        ensures few { length self.now.statements ≤ 128 }
    {
        self.statements.as_slice()
    }

    /// Its statements in order, for their own sake.
    pub(crate) fn into_statements(self) -> Vec<SizedStatement>
        ensures statements { result.items ≡ self.statements }
        ensures some { 0 < length self.statements }
    {
        self.statements
    }

    /// A piece of one statement behind this state, with memory for all others.
    fn begin(alloc: Global, state: &BlockState, sized: SizedStatement) -> Result<Piece, AllocError>
        ensures { IfOk result (λ piece. piece ≡ record { state = state.now; statements = sized ∷ [] }) }
    {
        let state = state.copy(alloc)?;
        let mut statements = Vec::with_capacity(alloc, MOST_STATEMENTS)?;
        statements.push(sized)?;
        Ok(Piece { state, statements })
    }

    /// Puts a statement behind the others of a piece that is not full.
    #[inline(always)]
    fn push(&mut self, sized: SizedStatement) -> Result<(), AllocError>
        requires { length self.old.statements < 128 }
        ensures { OnOk result (self.new ≡ with_pushed sized self.old) }
    {
        self.statements.push(sized)?;
        Ok(())
    }
}

/// Whether the next statement begins a piece: there is none yet, or the last one is full.
fn is_full(pieces: &[Piece]) -> bool
    ensures { result ≡ is_full (reverse pieces.now) }
{
    match pieces.last() {
        Some(piece) => piece.statements.len() >= MOST_STATEMENTS,
        None => true,
    }
}

/// Puts a statement behind those of the last piece, which is not full.
#[inline(always)]
fn push_onto_last(pieces: &mut Vec<Piece>, sized: SizedStatement) -> Result<(), AllocError>
    requires { is_full (reverse pieces.old.items) ≡ false }
    ensures { OnOk result (reverse pieces.new.items ≡ onto_latest sized (reverse pieces.old.items)) }
{
    match pieces.last_mut() {
        Some(piece) => piece.push(sized),
        None => Ok(()),
    }
}

/// Begins a piece with a statement behind this state.
#[inline(never)]
fn begin_piece(
    alloc: Global,
    pieces: &mut Vec<Piece>,
    state: &BlockState,
    sized: SizedStatement,
) -> Result<(), AllocError>
    requires { is_full (reverse pieces.old.items) ≡ true }
    ensures { OnOk result (reverse pieces.new.items ≡ with_statement state.now sized (reverse pieces.old.items)) }
{
    pieces.push(Piece::begin(alloc, state, sized)?)?;
    Ok(())
}

/// Puts a statement behind the others; this is the state before it. It takes memory where a piece
/// begins alone.
#[inline(always)]
pub(crate) fn add_statement(
    alloc: Global,
    pieces: &mut Vec<Piece>,
    state: &BlockState,
    sized: SizedStatement,
) -> Result<(), AllocError>
    ensures { OnOk result (reverse pieces.new.items ≡ with_statement state.now sized (reverse pieces.old.items)) }
{
    if is_full(pieces.as_slice()) {
        begin_piece(alloc, pieces, state, sized)
    } else {
        push_onto_last(pieces, sized)
    }
}
