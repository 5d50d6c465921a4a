//! Moments of time as text: read, shown, and taken from the clock of the system.
#![tactic(auto)]

mod calendar;
mod moment;

pub use moment::Moment;
