//! Arithmetic on forms: exact, in range or not at all.
ghost use Rattle.std.specs.Prelude.{◌≡◌, ℤ, ◌*ℤ◌, FitsSigned};
ghost use Rattle.std.specs.Int.{w64};
ghost use Rattle.std.specs.Option.{SomeIff};
ghost use Rattle.definitions.specs.Forms.{is_absolute, in_range, quotient, combined};
ghost use Rattle.expr_forms.specs.Joins.Links.{operator_as};
ghost use Rattle.expr_forms.specs.Joins.Ranges.{ranged};

use crate::forms::Form;
use crate::links::Operator;
use definitions::Letter;

/// The greatest size of a value.
pub(crate) const GREATEST: u64 = (1 << 60) - 1;

/// A number that a checked operation gave, where it is in range, else A.
#[inline(always)]
pub(crate) fn ranged(number: Option<i64>) -> Result<i64, Letter>
    ensures { (n : ℤ) → SomeIff number (FitsSigned w64 n) n → result ≡ ranged n }
{
    match number {
        Some(number) => {
            if number.unsigned_abs() <= GREATEST {
                Ok(number)
            } else {
                Err(Letter::A)
            }
        }
        None => Err(Letter::A),
    }
}

/// The same as a form.
fn absolute_ranged(number: Option<i64>) -> Result<Form, Letter>
    ensures { (n : ℤ) → SomeIff number (FitsSigned w64 n) n → result ≡ in_range n }
{
    Ok(Form::absolute(ranged(number)?))
}

fn product(a: i64, b: i64) -> Result<Form, Letter>
    ensures { result ≡ in_range (a *ℤ b) }
{
    absolute_ranged(a.checked_mul(b))
}

/// The quotient without its fraction.
fn quotient(a: i64, b: i64) -> Result<Form, Letter>
    ensures { result ≡ quotient a b }
{
    if b == 0 {
        return Err(Letter::Z);
    }
    absolute_ranged(a.checked_div(b))
}

/// The product of two forms, or behind a slash their quotient: of absolute forms alone, else R.
pub(crate) fn combined(operator: Operator, a: Form, b: Form) -> Result<Form, Letter>
    ensures { result ≡ combined (operator_as operator) a b }
{
    if !a.is_absolute() || !b.is_absolute() {
        return Err(Letter::R);
    }
    match operator {
        Operator::Divide => quotient(a.number(), b.number()),
        _ => product(a.number(), b.number()),
    }
}
