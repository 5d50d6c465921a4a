//! The pseudo-instructions by name (COMPASS 60492600, pseudo-instructions).
ghost use Rattle.std.specs.Prelude.{◌≡◌, option_map};
ghost use Rattle.definitions.specs.Operations.{pseudo_among, pseudo_instructions};
ghost use Rattle.operations.specs.Joins.OperationsAs.{operation_as};

use crate::operation::Operation;
use definitions::DeckKind;

/// The pseudo-instruction that an operation field names, if it names one; the empty field does.
pub fn pseudo_instruction(name: &[u8]) -> Option<Operation>
    ensures { option_map operation_as result ≡ pseudo_among name.now pseudo_instructions }
{
    match name {
        [] => Some(Operation::EmptyField),
        [b'I', b'D', b'E', b'N', b'T'] => Some(Operation::Listed),
        [b'T', b'I', b'T', b'L', b'E'] => Some(Operation::Listed),
        [b'E', b'J', b'E', b'C', b'T'] => Some(Operation::Listed),
        [b'S', b'P', b'A', b'C', b'E'] => Some(Operation::Listed),
        [b'L', b'I', b'S', b'T'] => Some(Operation::Listed),
        [b'E', b'N', b'D'] => Some(Operation::End),
        [b'A', b'B', b'S'] => Some(Operation::Kind(DeckKind::Abs)),
        [b'P', b'E', b'R', b'I', b'P', b'H'] => Some(Operation::Kind(DeckKind::Periph)),
        [b'B', b'A', b'S', b'E'] => Some(Operation::Base),
        [b'U', b'S', b'E'] => Some(Operation::Use),
        [b'O', b'R', b'G'] => Some(Operation::Org),
        [b'L', b'O', b'C'] => Some(Operation::Loc),
        [b'E', b'Q', b'U'] => Some(Operation::Equ),
        [b'='] => Some(Operation::Equ),
        [b'B', b'S', b'S'] => Some(Operation::Bss),
        [b'B', b'S', b'S', b'Z'] => Some(Operation::Bssz),
        [b'D', b'A', b'T', b'A'] => Some(Operation::Data),
        [b'C', b'O', b'N'] => Some(Operation::Con),
        [b'V', b'F', b'D'] => Some(Operation::Vfd),
        [b'D', b'I', b'S'] => Some(Operation::Dis),
        [b'E', b'N', b'T', b'R', b'Y'] => Some(Operation::Entry),
        [b'E', b'X', b'T'] => Some(Operation::Ext),
        _ => None,
    }
}
