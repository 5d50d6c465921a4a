//! What the history of an office is made of.

/// One entry of a history: the number of a seat, its call, and the reply that it got.
/// Histories exist in proofs alone, so no value of it is made.
pub struct Entry<C, R> {
    pub by: usize,
    pub call: C,
    pub reply: R,
}
