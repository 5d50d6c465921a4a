//! The peripheral instructions: their names, their codes, and what stands behind the codes. How
//! many values an operand has is said here; what they are worth is not.
//!
//! `ignoring` is asked first: PSN has its instruction whatever stands in the field. `find` answers
//! the `Shape` of any other, or O or V; the form of its row says how many values there are, and
//! which field they make. A row that is wrong is mended here and in the definitions. Nothing here
//! takes memory.
#![tactic(auto)]

mod code;
mod shapes;
mod table;

pub use code::{Code, Form};
pub use shapes::{find, ignoring};
pub use table::{is_peripheral, row_of};
