//! The bits that a line keeps, as one number.
ghost use Rattle.std.specs.Prelude.{◌≡◌};

use std::marker::Model;

/// A number of 64 bits in two halves, so that nothing pads the line that keeps it. Contracts see the number.
#[derive(Clone, Copy)]
pub struct LineBits {
    low: u32,
    high: u32,
}

impl Model for LineBits {
    ghost use Rattle.std.specs.Prelude.{ℕ, ◌≡◌, ◌<◌, ◌+◌, ◌*◌, ◌/◌, ◌%◌, ◌^◌};
    ghost use Rattle.std.proofs.Common.{arith};

    ghost Value = { ℕ };

    ghost view = { λ b. b.high * 2 ^ 32 + b.low };

    ghost invariant = { λ b. b.low < 2 ^ 32 };

    ghost inverse = { λ v. record { low = v % 2 ^ 32; high = v / 2 ^ 32 } };

    ghost inverse_ok = { λ b h i.
        let low : (b.high * 2 ^ 32 + b.low) % 2 ^ 32 ≡ b.low = omega (arith, h) in
        let high : (b.high * 2 ^ 32 + b.low) / 2 ^ 32 ≡ b.high = omega (arith, h) in
        record { low = low i; high = high i } };
}

impl LineBits {
    /// These bits.
    #[inline(always)]
    pub fn new(bits: u64) -> LineBits
        ensures { result ≡ bits }
    {
        LineBits {
            low: (bits % 0x1_0000_0000) as u32,
            high: (bits >> 32) as u32,
        }
    }

    /// The bits as a number.
    #[inline(always)]
    pub fn get(&self) -> u64
        ensures { result ≡ self.now }
    {
        (u64::from(self.high) << 32) + u64::from(self.low)
    }
}
