//! One statement of a deck, sized.
ghost use Rattle.std.specs.Prelude.{◌≡◌};
ghost use Rattle.definitions.specs.Laws.Agreement.{own_symbols};
ghost use Rattle.definitions.specs.Operations as op;

use expr_forms::Name;
use operations::Operation;
use statement_coder::{KeptReading, KeptSizing};

/// A statement up to END: how many cards it has, its operation with the symbol of its location field and
/// what is kept of its operand, whether that is known to have neither literals nor names, and what it is
/// behind those before it.
#[derive(Drop)]
pub struct SizedStatement {
    pub cards: u16,
    pub operation: Operation,
    pub label: Name,
    pub is_bare: bool,
    pub kept: KeptReading,
    pub sizing: KeptSizing,
}

/// The text of a location field; none where it is longer than each that is a symbol.
pub(crate) fn label_of(location: &[u8]) -> Name
    ensures { (operation : op.Operation) → own_symbols operation result ≡ own_symbols operation location.now }
{
    if location.len() <= 9 {
        Name::new(location)
    } else {
        Name::new(b"")
    }
}
