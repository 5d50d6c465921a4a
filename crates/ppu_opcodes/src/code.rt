//! The code of a peripheral instruction, and what stands behind its two digits.

/// What stands behind the two digits of an operation (6600 reference 60100000, peripheral
/// instructions).
#[derive(Clone, Copy)]
pub enum Form {
    /// Nothing is read, and d is 0.
    Ignored,
    /// One value: d in 6 bits.
    Short,
    /// One value: a displacement in 6 bits, itself or its distance from the location counter, -37
    /// to 37 octal.
    ShortJump,
    /// One value: -37 to 37 octal, in 6 bits.
    Shift,
    /// One value in 18 bits: d and a second word.
    Wide,
    /// m, in the 12 bits of a second word, and behind it d in 6 bits, 0 where it is not written.
    Long,
}

/// The two octal digits of an operation, and what stands behind them.
#[derive(Clone, Copy)]
pub struct Code {
    pub digits: u8,
    pub form: Form,
}
