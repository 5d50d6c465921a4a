//! What is kept of each sizing.
ghost use Rattle.std.specs.Prelude.{◌≤◌};

use crate::definitions_made::Definition;
use definitions::NumberBase;
use expr_forms::Name;
use operations::Letters;

/// All that there is of a usual sizing: its statement changes neither block nor location counter, both
/// counters are the word of its block, and its value is a number. Place and end are in units of its block,
/// which has at most 524,288.
#[derive(Drop)]
pub struct UsualSizing {
    /// The block in use.
    pub block: Name,
    /// Whether it has a place of its own.
    pub is_placed: bool,
    /// Whether the next instruction of the block must be upper.
    pub asks: bool,
    pub definition: Definition,
    /// The number base under which its operand was read.
    pub number_base: NumberBase,
    pub place: u32,
    pub end: u32,
    /// Its value, where that is a number of so many bits.
    pub number: i32,
    /// The letters that are known without later statements.
    pub letters: Letters,
    ghost within: { end ≤ 524288 },
}
