//! A register.
ghost use Rattle.std.specs.Prelude.{◌<◌};

/// The three kinds of registers.
#[derive(Clone, Copy)]
pub enum RegisterKind {
    A,
    B,
    X,
}

/// A register: its kind, and its digit, 0 to 7.
#[derive(Clone, Copy)]
pub struct Register {
    pub kind: RegisterKind,
    pub digit: u8,
    pub ghost octal: { digit < 8 },
}
