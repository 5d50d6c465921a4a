//! A statement before any name is known: its fields, and its operation.
ghost use Rattle.std.specs.Prelude.{◌≤◌, length};

use definitions::DeckKind;
use operations::Operation;

/// The fields of a statement in a deck of this kind, its operation, and whether it is a comma card
/// that belongs to no other. The variable field has at most 711 characters.
#[derive(Clone, Copy)]
pub struct Statement<'a> {
    pub kind: DeckKind,
    pub location: &'a [u8],
    /// The operation field.
    pub name: &'a [u8],
    pub variable: &'a [u8],
    pub operation: Operation,
    pub is_stray: bool,
    ghost short: { length variable.now ≤ 711 },
}
