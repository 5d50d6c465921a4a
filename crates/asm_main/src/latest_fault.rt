//! The error of the latest call that failed.
ghost use Rattle.std.specs.Prelude.{◌≡◌};
ghost use Rattle.asm_main.specs.Joins.LatestFaults.{latest_fault};

use std::io;

/// The error of the latest call that failed, behind a call that came to `outcome`; `before` is that of the calls
/// before it.
pub(crate) fn latest_fault<T>(
    before: Option<io::Error>,
    outcome: &io::Result<T>,
) -> Option<io::Error>
    ensures { result ≡ latest_fault before outcome.now }
{
    match outcome {
        Ok(_) => before,
        Err(error) => Some(*error),
    }
}
