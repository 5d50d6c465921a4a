//! Codes as the manual writes them, a character for each octal digit.
use crate::patterns::{OperandPattern, SumPattern};

/// An instruction of 15 or 30 bits, a character for each three: an octal digit, i, j or k for that
/// of a register, n twice for a count of 6 bits, K six times for 18 bits (6600 reference 60100000,
/// instruction formats).
#[derive(Clone, Copy)]
pub enum Code {
    Short([u8; 5]),
    Long([u8; 10]),
}

/// An operand that is read subfield by subfield, and its code.
#[derive(Clone, Copy)]
pub struct OperandForm {
    pub operand: OperandPattern,
    pub code: Code,
}

/// The registers of a sum, its code where other terms make K, and that where there are none.
#[derive(Clone, Copy)]
pub struct SumForm {
    pub registers: SumPattern,
    pub with_k: Option<Code>,
    pub alone: Option<Code>,
}

/// The name of an operation as three characters, and what a table says of it.
#[derive(Clone, Copy)]
pub struct Row<F> {
    pub name: [u8; 3],
    pub form: F,
}
