//! What is listed of a coded statement: its fields and its letters.
use crate::Item;
use operations::Letters;

/// The fields of a statement.
#[derive(Clone, Copy)]
pub enum CodedItems<'a> {
    /// It has none.
    Absent,
    /// Those of an instruction.
    Instruction(&'a [Item]),
    /// So many at the end of the list; a field of several words is listed word by word.
    Listed(usize),
    /// Zeros from its place to its end, as BSSZ stores them.
    Zeros,
}

/// A statement that is coded: its fields, and all its letters.
#[derive(Drop)]
pub struct Coded<'a> {
    pub items: CodedItems<'a>,
    pub letters: Letters,
}
