//! The digits of the registers i, j and k.
ghost use Rattle.std.specs.Prelude.{◌<◌};

/// The digits, 0 to 7, that an operation and its operand give for i, j and k; 0 where they give
/// none.
#[derive(Clone, Copy)]
pub struct RegistersFound {
    pub i: u8,
    pub j: u8,
    pub k: u8,
    pub ghost octal_i: { i < 8 },
    pub ghost octal_j: { j < 8 },
    pub ghost octal_k: { k < 8 },
}
