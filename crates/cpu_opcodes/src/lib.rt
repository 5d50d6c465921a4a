//! The central instructions: their names, the patterns of their operands, their codes, and the
//! instruction of an operation with its operand. What an operand is worth is not here.
//!
//! A table has a row for each form, to be compared with the manual row by row; a code is written
//! with a character for each octal digit. `find` takes an operation with its operand, and answers
//! its `Shape`, or O or V. `ignoring` is asked where the field is no operand: PS and NO have their
//! instruction whatever stands there. A row that is wrong is mended here and in the definitions.
//! Nothing here takes memory.
#![tactic(auto)]

// Codes, patterns and the tables.
mod code;
mod code_digits;
mod digits;
mod operand_table;
mod patterns;
mod registers_found;
mod sum_table;
mod tables;

// Operands against rows.
mod central_fits;
mod found;
mod instruction_search;
mod operand_fits;
mod parts;
mod shapes;
mod sum_fits;
mod text_match;

pub use code::{Code, OperandForm, Row, SumForm};
pub use digits::Digits;
pub use instruction_search::{find, ignoring};
pub use patterns::{OperandPattern, SumPattern};
pub use registers_found::RegistersFound;
pub use tables::{central_rows, ignoring_rows, is_central, sum_rows};
