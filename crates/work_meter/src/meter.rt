//! The counts, and who makes them rise.
ghost use Rattle.std.specs.Prelude.{◌≡◌, ◌≤◌, ◌+◌, ◌-◌, ◌^◌, min};

use std::marker::Model;

/// How many statements were sized, and how many coded; each count stays at its greatest value. Contracts see
/// both.
#[derive(Drop)]
pub struct Meter {
    sized: u64,
    coded: u64,
}

impl Model for Meter {
    ghost use Rattle.work_meter.specs.Counts.{Counts};

    ghost Value = { Counts };

    ghost view = { λ m. record { sized = m.sized; coded = m.coded } };
}

impl Meter {
    /// How many statements were sized.
    pub fn sized(&self) -> u64
        ensures { result ≡ self.now.sized }
    {
        self.sized
    }

    /// How many statements were coded.
    pub fn coded(&self) -> u64
        ensures { result ≡ self.now.coded }
    {
        self.coded
    }
}

/// A meter that has counted nothing.
pub fn begin() -> Meter
    ensures sized { result.sized ≡ 0 }
    ensures coded { result.coded ≡ 0 }
{
    Meter { sized: 0, coded: 0 }
}

/// Counts a statement that is sized.
pub fn count_sized(meter: &mut Meter)
    ensures sized { meter.new.sized ≡ min (meter.old.sized + 1) (2 ^ 64 - 1) }
    ensures rises { meter.old.sized ≤ meter.new.sized }
    ensures coded { meter.new.coded ≡ meter.old.coded }
{
    meter.sized = meter.sized.saturating_add(1);
}

/// Counts a statement that is coded.
pub fn count_coded(meter: &mut Meter)
    ensures coded { meter.new.coded ≡ min (meter.old.coded + 1) (2 ^ 64 - 1) }
    ensures rises { meter.old.coded ≤ meter.new.coded }
    ensures sized { meter.new.sized ≡ meter.old.sized }
{
    meter.coded = meter.coded.saturating_add(1);
}
