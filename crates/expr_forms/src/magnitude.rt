//! The size of a number that is in range.
ghost use Rattle.std.specs.Prelude.{◌<◌, ◌^◌};

/// A number from 0 to 2^60 - 1.
#[derive(Clone, Copy)]
pub struct Magnitude {
    pub value: u64,
    pub ghost small: { value < 2 ^ 60 },
}
