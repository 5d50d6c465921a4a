//! What a statement does to the state between statements (COMPASS 60492600, USE, LOC, ORG, BASE).

use crate::positions::{Counting, Position};
use definitions::NumberBase;
use expr_forms::Name;

/// What a statement does to the stack of blocks.
#[derive(Clone, Copy)]
pub enum BlockChange {
    Nothing,
    /// A USE that is accepted opens its block.
    Opens(Name),
    /// `USE *` closes the latest open block.
    Closes,
}

/// What a statement does to the location counter of its block.
#[derive(Clone, Copy, PartialEq, Eq)]
pub enum LocationSetting {
    Unchanged,
    /// LOC sets it.
    Counts(Counting),
    /// ORG ends a setting.
    Ended,
}

/// What a statement does to the state, and how many words of its block it reaches.
#[derive(Clone, Copy)]
pub struct Effect {
    pub change: BlockChange,
    /// The new position of the block in use, where the statement has a place.
    pub position: Option<Position>,
    pub setting: LocationSetting,
    /// The base that a BASE sets.
    pub number_base: Option<NumberBase>,
    /// Whether the kind of the deck may still be set behind the statement.
    pub neutral: bool,
    pub reached: u32,
}
