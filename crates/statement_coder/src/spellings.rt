//! The text of an operand, in memory of its own.
ghost use Rattle.std.specs.Prelude.{◌≤◌, length};

use definitions::NumberBase;

/// An operand as its statement spells it: the number base, the operation field and the variable field, which
/// has at most 711 characters.
#[derive(Drop)]
pub struct Spelling {
    pub base: NumberBase,
    pub name: Vec<u8>,
    pub variable: Vec<u8>,
    ghost short: { length variable.items ≤ 711 },
}
