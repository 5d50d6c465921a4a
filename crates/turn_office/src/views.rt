//! What a seat knows. It exists in proofs alone: no value of these types is made.
use crate::history::Entry;
use std::collections::LinkedList;

/// Where a seat stands in its turn.
pub enum Stage<T> {
    /// It has no ticket.
    Idle,
    /// It has this ticket. Tickets are counted from the opening, past 2^64 too.
    Waits(u64),
    /// It has the turn, and began it with the object in this state.
    Serves(T),
}

/// A number of the office, and the history that was seen under it.
pub struct Chair<C, R> {
    pub number: usize,
    pub seen: LinkedList<Entry<C, R>>,
}

/// A seat's stage and its numbers. Outside of the calls of this crate a seat is idle and has one.
pub struct View<T, C, R> {
    pub stage: Stage<T>,
    pub chairs: LinkedList<Chair<C, R>>,
}
