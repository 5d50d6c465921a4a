//! The variable field of BSS, BSSZ, ORG, LOC and EQU: one expression (COMPASS 60492600, BSS, ORG,
//! LOC, EQU).
ghost use Rattle.std.specs.Prelude.{◌≡◌, ◌≤◌, length, MatchResult};
ghost use Rattle.definitions.specs.Pieces.{pieces_of, subfields_of};
ghost use Rattle.definitions.specs.Operands.{ValueOperand, BadOperand, one_value};
ghost use Rattle.definitions.specs.declared.letter.Letter.TheVariants as letter;

use crate::expressions::Expr;
use crate::subfields::Subfields;
use definitions::{Letter, NumberBase};

/// The expression that is all of a field of at most 711 characters: V where there are more
/// subfields, or where it has registers or literals or is no expression.
pub fn one_value(text: &[u8], base: NumberBase) -> Result<Expr<'_>, Letter>
    requires { length text.now ≤ 711 }
    ensures { let operand = one_value base (subfields_of (pieces_of text.now)) in
        MatchResult result (λ e. operand ≡ ValueOperand e) (λ fault. (fault ≡ letter.V) × (operand ≡ BadOperand)) }
{
    let mut subfields = Subfields::new(text);
    match (subfields.next(), subfields.next()) {
        (Some(first), None) => Expr::plain(first, false, base),
        _ => Err(Letter::V),
    }
}
