//! Words packed into bytes, the most significant bit first: two words of 60 bits in fifteen bytes, two of 12
//! bits in three; and taken out again. Which words, and where they go, is not here.
#![tactic(auto)]

mod packing;

pub use packing::{pack, unpack};
