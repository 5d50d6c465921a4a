//! How the variable field of an instruction is read: one to three subfields, each a lawful
//! expression (COMPASS 60492600, central and peripheral instructions).
ghost use Rattle.std.specs.Prelude.{◌≡◌, ◌≤◌, ◌∷◌, [], length, false, MatchOption, MatchResult};
ghost use Rattle.std.specs.List.{list_all};
ghost use Rattle.definitions.specs.Pieces.{pieces_of, subfields_of};
ghost use Rattle.expr_forms.specs.Joins.Operands.{IsSubfield, IsOperand, is_subfield, is_operand};

use crate::expressions::Expr;
use crate::operands::{Operand, Subfield};
use crate::subfields::Subfields;
use definitions::{Letter, NumberBase};

/// The next subfield, if one is left: V where it spells no expression.
fn next_subfield<'a>(
    subfields: &mut Subfields<'a>,
    base: NumberBase,
) -> Result<Option<Subfield<'a>>, Letter>
    ensures { MatchResult result
        (λ next. MatchOption next
        ((subfields.old ≡ []) × (subfields.new ≡ []))
        (λ subfield. (subfields.old ≡ pieces_of subfield.text.now ∷ subfields.new) × IsSubfield base (pieces_of subfield.text.now) subfield))
        (λ letter. (letter ≡ Letter.V) × (list_all (is_subfield base) subfields.old ≡ false)) }
{
    match subfields.next() {
        None => Ok(None),
        Some(text) => {
            let expression = Expr::parse(text, base)?;
            Ok(Some(Subfield { text, expression }))
        }
    }
}

/// The operand that a variable field of at most 711 characters is, in this number base: V where it
/// has more than three subfields, or one that spells no expression. A field that is an expression has
/// no comma, so it is not cut.
pub fn operand(text: &[u8], base: NumberBase) -> Result<Operand<'_>, Letter>
    requires { length text.now ≤ 711 }
    ensures { MatchResult result
        (λ operand. IsOperand base (subfields_of (pieces_of text.now)) operand)
        (λ letter. (letter ≡ Letter.V) × (is_operand base (subfields_of (pieces_of text.now)) ≡ false)) }
{
    match Expr::parse(text, base) {
        Ok(expression) => Ok(Operand::One(Subfield { text, expression })),
        Err(_) => operand_by_subfields(text, base),
    }
}

/// The operand that a variable field is, cut at its commas.
#[inline(never)]
#[tactic(auto, using(crate::proofs::OperandLaws::refused_one, crate::proofs::OperandLaws::refused_behind))]
fn operand_by_subfields(text: &[u8], base: NumberBase) -> Result<Operand<'_>, Letter>
    requires { length text.now ≤ 711 }
    ensures { MatchResult result
        (λ operand. IsOperand base (subfields_of (pieces_of text.now)) operand)
        (λ letter. (letter ≡ Letter.V) × (is_operand base (subfields_of (pieces_of text.now)) ≡ false)) }
{
    let mut subfields = Subfields::new(text);
    let Some(first) = next_subfield(&mut subfields, base)? else {
        return Err(Letter::V);
    };
    let Some(second) = next_subfield(&mut subfields, base)? else {
        return Ok(Operand::One(first));
    };
    let Some(third) = next_subfield(&mut subfields, base)? else {
        return Ok(Operand::Two(first, second, base));
    };
    if subfields.next().is_some() {
        return Err(Letter::V);
    }
    Ok(Operand::Three(first, second, third))
}
