//! What elements and expressions of a flagged statement are worth.

use crate::deck_words::DeckWords;
use crate::elements::MOST_CHARACTERS;
use deck_assembler::SizedDeck;
use deck_objects::Unlinked;
use definitions::{DeckKind, Letter, NumberBase};
use expr_forms::{Expr, Form, Literal, Names, value};
use statement_coder::{KeptSizing, number_in};

/// What a statement sees: the symbols of its deck, its two counters, and no literals, each of which is 0.
#[derive(Drop)]
pub(crate) struct SeenNames<'a> {
    deck: &'a SizedDeck,
    sizing: &'a KeptSizing,
}

impl<'a> Names for SeenNames<'a> {
    ghost use Rattle.std.specs.Prelude.{Ok, pos};
    ghost use Rattle.definitions.specs.Forms.{absolute};
    ghost use Rattle.deck_assembler.specs.Joins.FirstSymbols.{symbol_in};
    ghost use Rattle.statement_coder.specs.Joins.Sizings.{location_in, origin_in};

    ghost names = { λ n. record { symbol = symbol_in n.deck.now.symbols; literal = λ literal. Ok (absolute (pos 0)); location = location_in n.deck.now.kind n.sizing.now; origin = origin_in n.deck.now.kind n.sizing.now } };

    fn symbol(&self, name: &[u8]) -> Option<Form> {
        self.deck.symbols().value(name)
    }

    fn literal(&self, literal: Literal<'_>) -> Result<Form, Letter> {
        let _ = literal;
        Ok(Form::absolute(0))
    }

    fn location(&self) -> Form {
        self.sizing.location(self.deck.kind())
    }

    fn origin(&self) -> Form {
        self.sizing.origin(self.deck.kind())
    }
}

/// The values that a statement sees.
#[derive(Clone, Copy)]
pub(crate) struct Values<'a> {
    pub(crate) deck: &'a DeckWords,
    pub(crate) sizing: &'a KeptSizing,
    pub(crate) base: NumberBase,
}

/// The expression that a text spells, if it spells one.
pub(crate) fn expression_of(text: &[u8], base: NumberBase) -> Option<Expr<'_>> {
    if text.len() > MOST_CHARACTERS {
        return None;
    }
    match Expr::parse(text, base) {
        Ok(expression) => Some(expression),
        Err(_) => None,
    }
}

impl<'a> Values<'a> {
    /// The value of an expression, or its letter.
    pub(crate) fn of(&self, expression: &Expr<'_>) -> Result<Form, Letter> {
        let names = SeenNames {
            deck: &self.deck.deck,
            sizing: self.sizing,
        };
        value(expression, &names)
    }

    /// The value of a text: V where it spells no expression.
    pub(crate) fn of_text(&self, text: &[u8]) -> Result<Form, Letter> {
        match expression_of(text, self.base) {
            Some(expression) => self.of(&expression),
            None => Err(Letter::V),
        }
    }

    /// The number of a form: none where the link decides on it. What is out of range of a message is at
    /// its end.
    pub(crate) fn number(&self, form: Form) -> Option<i64> {
        if form.is_absolute() {
            return Some(form.number());
        }
        if self.deck.deck.kind() == DeckKind::Rel {
            return None;
        }
        let number = number_in(
            &Unlinked {
                bases: &self.deck.bases,
            },
            form,
        );
        Some(i64::try_from(number).unwrap_or(i64::MAX))
    }

    /// Whether a text is worth a letter by itself.
    pub(crate) fn has_letter(&self, text: &[u8], letter: FaultLetter) -> bool {
        match (self.of_text(text), letter) {
            (Err(Letter::A), FaultLetter::A) => true,
            (Err(Letter::R), FaultLetter::R) => true,
            _ => false,
        }
    }
}

/// The letters that are looked for in values.
#[derive(Clone, Copy)]
pub(crate) enum FaultLetter {
    A,
    R,
}
