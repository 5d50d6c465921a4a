//! How often statements were sized and coded.
//!
//! A `Meter` begins by `begin` and rises by `count_sized` and `count_coded`; nothing else makes one, or
//! changes it. `crates.txt` lets who owns a count name this crate, and `statement_coder`, which counts. The
//! crates between have the type from `statement_coder`: they hand a meter down, and can make none.
#![tactic(auto)]

mod meter;

pub use meter::{Meter, begin, count_coded, count_sized};
