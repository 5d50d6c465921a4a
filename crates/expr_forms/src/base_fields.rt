//! The variable field of BASE: the number base that it sets (COMPASS 60492600, BASE).
ghost use Rattle.std.specs.Prelude.{◌≡◌, MatchResult, codes, Some, None};
ghost use Rattle.definitions.specs.Fields.{Fields};
ghost use Rattle.definitions.specs.DeckKinds.{number_base_set};
ghost use Rattle.definitions.specs.Operands.{Unread, BadOperand, base_operand};
ghost use Rattle.definitions.specs.declared.letter.Letter.TheVariants as letter;

use crate::characters::is_lone;
use definitions::{Letter, NumberBase};

/// The base that O or D stands for: V where the field is another one.
pub fn number_base(text: &[u8]) -> Result<NumberBase, Letter>
    ensures operand { MatchResult result
        (λ base. base_operand text.now ≡ Unread)
        (λ fault. (fault ≡ letter.V) × (base_operand text.now ≡ BadOperand)) }
    ensures set { (fields : Fields) → fields.operation ≡ codes "BASE" → fields.variable ≡ text.now → MatchResult result
        (λ base. number_base_set fields ≡ Some base)
        (λ fault. number_base_set fields ≡ None) }
{
    if is_lone(b'O', text) {
        return Ok(NumberBase::Octal);
    }
    if is_lone(b'D', text) {
        return Ok(NumberBase::Decimal);
    }
    Err(Letter::V)
}
