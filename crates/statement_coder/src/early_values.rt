//! The value that BSS, BSSZ, ORG, LOC and EQU take: it sees only the symbols that earlier statements
//! define (COMPASS 60492600, BSS, ORG, LOC, EQU).
ghost use Rattle.std.specs.Prelude.{◌≡◌};
ghost use Rattle.definitions.specs.Operands as definitions;
ghost use Rattle.definitions.specs.EarlyValues.{early_names, early_value, equated};
ghost use Rattle.definitions.specs.Settling.{View};
ghost use Rattle.statement_coder.specs.Joins.Readings.{IsReading};

use crate::readings::Reading;
use definitions::Letter;
use expr_forms::{Form, Literal, Names, value};

/// The values of the symbols that earlier statements define.
pub trait EarlySymbols {
    ghost view: { Self → View };

    /// The value of a symbol, if an earlier statement defines it.
    fn symbol(&self, name: &[u8]) -> Option<Form>
        ensures { result ≡ view self.now name.now };
}

/// What the early value of a statement sees: those symbols and the statement's two counters, and no
/// literal.
#[derive(Drop)]
pub(crate) struct EarlyNames<'a, S: EarlySymbols> {
    pub(crate) symbols: &'a S,
    pub(crate) location: Form,
    pub(crate) origin: Form,
}

impl<'a, S: EarlySymbols> Names for EarlyNames<'a, S> {
    ghost use Rattle.definitions.specs.EarlyValues.{early_names};

    ghost names = { λ n. early_names (S.view n.symbols.now) (record { location = n.location; origin = n.origin }) };

    fn symbol(&self, name: &[u8]) -> Option<Form> {
        self.symbols.symbol(name)
    }

    fn literal(&self, _literal: Literal<'_>) -> Result<Form, Letter> {
        Err(Letter::V)
    }

    fn location(&self) -> Form {
        self.location
    }

    fn origin(&self) -> Form {
        self.origin
    }
}

/// The value of the one expression, where the operation takes one.
pub(crate) fn early_value<N: Names>(
    names: &N,
    reading: &Reading<'_>,
) -> Option<Result<Form, Letter>>
    ensures { (operand : definitions.Operand) → IsReading reading.now operand → result ≡ early_value (N.names names.now) operand }
{
    match reading {
        Reading::Value(expression) => Some(value(expression, names)),
        _ => None,
    }
}

/// What EQU defines: a faulty or missing value counts as absolute 0.
pub(crate) fn equated(value: &Option<Result<Form, Letter>>) -> Form
    ensures { result ≡ equated value.now }
{
    match value {
        Some(Ok(form)) => *form,
        _ => Form::absolute(0),
    }
}
