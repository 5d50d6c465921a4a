//! What the operand of a statement sees once all symbols and literals have their values (COMPASS
//! 60492600, evaluation of expressions).
ghost use Rattle.std.specs.Prelude.{◌≡◌, Result};
ghost use Rattle.definitions.specs.Expressions as expressions;
ghost use Rattle.definitions.specs.Forms as forms;
ghost use Rattle.definitions.specs.Settling.{View};
ghost use Rattle.definitions.specs.declared.letter.Letter as marks;
ghost use Rattle.expr_forms.specs.Joins.Elements.{literal_as};

use crate::kept_sizing::KeptSizing;
use definitions::{DeckKind, Letter};
use expr_forms::{Form, Literal, Names};

/// The values of all symbols and literals of a deck.
pub trait FinalSymbols {
    ghost symbols: { Self → View };

    ghost literals: { Self → expressions.Literal → Result forms.Form marks.Letter };

    /// The value of a symbol's first definition, if a statement of the deck has it.
    fn symbol(&self, name: &[u8]) -> Option<Form>
        ensures { result ≡ symbols self.now name.now };

    /// Where the word of a literal stands, or its letter.
    fn literal(&self, literal: Literal<'_>) -> Result<Form, Letter>
        ensures { result ≡ literals self.now (literal_as literal.entry) };
}

/// What a statement of a deck of this kind sees: those symbols and literals, and its two counters.
#[derive(Drop)]
pub(crate) struct FinalNames<'a, S: FinalSymbols> {
    pub(crate) symbols: &'a S,
    pub(crate) kind: DeckKind,
    pub(crate) sizing: &'a KeptSizing,
}

impl<'a, S: FinalSymbols> Names for FinalNames<'a, S> {
    ghost use Rattle.statement_coder.specs.Joins.Sizings.{location_in, origin_in};

    ghost names = { λ n. record { symbol = S.symbols n.symbols.now; literal = S.literals n.symbols.now; location = location_in n.kind n.sizing.now; origin = origin_in n.kind n.sizing.now } };

    fn symbol(&self, name: &[u8]) -> Option<Form> {
        self.symbols.symbol(name)
    }

    fn literal(&self, literal: Literal<'_>) -> Result<Form, Letter> {
        self.symbols.literal(literal)
    }

    fn location(&self) -> Form {
        self.sizing.location(self.kind)
    }

    fn origin(&self) -> Form {
        self.sizing.origin(self.kind)
    }
}
