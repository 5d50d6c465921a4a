//! What statements leave of blocks: the stack of USE, the position, the LOC and the length of each
//! block, the number base, and the literals, exactly as the definitions have them.
//!
//! It knows no operation and no operand: who stands above gives it the `Effect` of a statement. A
//! `BlockState` takes it by `advance`, and `Lengths` by `follow`, beside the same state; the stack
//! of USE is a list of indexes inside, and contracts see names. `Bases` is made of lengths and
//! literals once the last statement is known, the literals last. Memory is taken where one of them
//! is made or copied, where a block is opened and where a literal is taken in; without memory
//! nothing has changed.
#![tactic(auto)]

// The state between statements.
mod block_list;
mod block_state;
mod counters;
mod effects;
mod positions;
mod used_block;

// Literals, and the lengths and bases of blocks.
mod bases;
mod laws;
mod length_steps;
mod lengths;
mod literals;
mod name_key;

pub use bases::{Bases, BlockRow, is_common};
pub use block_state::BlockState;
pub use counters::{location, origin};
pub use effects::{BlockChange, Effect, LocationSetting};
pub use laws::{blocks_are_bounded, blocks_are_few};
pub use lengths::Lengths;
pub use literals::Literals;
pub use name_key::NameKey;
pub use positions::{Counting, Position, is_same_form};
pub use used_block::UsedBlock;
