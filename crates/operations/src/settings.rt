//! What single operations set: the number base, and the end of the deck (COMPASS 60492600, BASE, END).
ghost use Rattle.std.specs.Prelude.{◌≡◌, codes};
ghost use Rattle.definitions.specs.Characters.{same_text};
ghost use Rattle.definitions.specs.Fields.{Fields};
ghost use Rattle.definitions.specs.DeckKinds.{is_end, number_base_set};

use definitions::{NumberBase, is_same_text};

/// Whether an operation field names END.
pub fn is_end(operation: &[u8]) -> bool
    ensures { (fields : Fields) → fields.operation ≡ operation.now → result ≡ is_end fields }
{
    match operation {
        [b'E', b'N', b'D'] => true,
        _ => false,
    }
}

fn is_base(operation: &[u8]) -> bool
    ensures { result ≡ same_text operation.now (codes "BASE") }
{
    match operation {
        [b'B', b'A', b'S', b'E'] => true,
        _ => false,
    }
}

/// The number base that a statement with these fields sets, if it is a BASE that is accepted.
pub fn number_base_set(operation: &[u8], variable: &[u8]) -> Option<NumberBase>
    ensures { (fields : Fields) → fields.operation ≡ operation.now → fields.variable ≡ variable.now → result ≡ number_base_set fields }
{
    if !is_base(operation) {
        return None;
    }
    if is_same_text(variable, b"O") {
        return Some(NumberBase::Octal);
    }
    if is_same_text(variable, b"D") {
        return Some(NumberBase::Decimal);
    }
    None
}
