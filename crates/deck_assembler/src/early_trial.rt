//! A trial of the statements that are left of a deck: whether what they define or read early has one
//! value in front of them in two decks (ours).
ghost use Rattle.std.specs.Prelude.{◌≡◌, true, None};
ghost use Rattle.std.specs.List.{AllByRecursion};
ghost use Rattle.deck_assembler.specs.Joins.Agreements.{IsAlikeEver, IsAlikeOnce};
ghost use Rattle.deck_assembler.specs.Joins.DeckParts.{sized_in};

use crate::early_symbols::{is_operand_alike, is_own_alike};
use crate::symbol_table::SymbolTable;
use crate::{Piece, SizedStatement};
use definitions::DeckKind;

/// What is defined in front of the statements that are left, in both decks of a kind.
#[derive(Clone, Copy)]
pub(crate) struct Trial<'a> {
    pub(crate) kind: DeckKind,
    pub(crate) first: &'a SymbolTable,
    pub(crate) second: &'a SymbolTable,
}

/// A piece that was found to differ: so many pieces are left from it on.
#[derive(Clone, Copy)]
pub(crate) struct Missed {
    pub(crate) pieces: usize,
}

impl Trial<'_> {
    /// Whether what a statement defines or reads early is alike.
    fn is_alike(&self, sized: &SizedStatement) -> bool
        ensures alike { result ≡ true → IsAlikeEver self.now sized.now }
        ensures all { IsAlikeOnce self.now sized.now → result ≡ true }
    {
        let label = sized.label.as_slice();
        if !is_own_alike(self.first, self.second, sized.operation, label) {
            return false;
        }
        let reading = sized.kept.reading(self.kind, sized.operation);
        let defines = sized.sizing.defines(self.kind);
        is_operand_alike(self.first, self.second, &reading, sized.operation, defines)
    }

    /// The same of some statements.
    pub(crate) fn are_alike(&self, statements: &[SizedStatement]) -> bool
        ensures alike { result ≡ true → AllByRecursion (IsAlikeEver self.now) statements.now }
        ensures all { AllByRecursion (IsAlikeOnce self.now) statements.now → result ≡ true }
    {
        for sized in statements {
            if !self.is_alike(sized) {
                return false;
            }
        }
        true
    }

    /// The first of some pieces, behind which so many others are left, in which a statement is not alike.
    pub(crate) fn first_missed(&self, pieces: &[Piece], others: usize) -> Option<Missed>
        ensures alike { result ≡ None → AllByRecursion (IsAlikeEver self.now) (sized_in pieces.now) }
        ensures all { AllByRecursion (IsAlikeOnce self.now) (sized_in pieces.now) → result ≡ None }
    {
        let mut left = pieces.len().saturating_add(others);
        for piece in pieces {
            if !self.are_alike(piece.statements()) {
                return Some(Missed { pieces: left });
            }
            left = left.saturating_sub(1);
        }
        None
    }
}
