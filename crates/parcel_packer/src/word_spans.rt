//! Finished words one behind the other.

/// So many finished words with equal bits, 60 or in a peripheral deck 12, one behind the other, and
/// the offset of the first in the block, in words.
#[derive(Clone, Copy)]
pub struct WordSpan {
    pub offset: u32,
    pub count: u32,
    pub value: u64,
}
