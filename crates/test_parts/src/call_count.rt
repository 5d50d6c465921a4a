//! Counts the calls of a port down to the one that fails.
ghost use Rattle.std.specs.Prelude.{◌≡◌, ◌==◌, ◌-◌};

/// Whether this call is the one that fails: the count stands at 1 then. It goes down by one with
/// each call, and 0 stays 0.
pub(crate) fn is_due(fails_in: &mut u64) -> bool
    ensures due { result ≡ (fails_in.old == 1) }
    ensures less { fails_in.new ≡ fails_in.old - 1 }
{
    let is_due = *fails_in == 1;
    *fails_in = fails_in.saturating_sub(1);
    is_due
}
