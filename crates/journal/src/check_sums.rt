//! The check sum of a record.
ghost use Rattle.std.specs.Prelude.{◌≡◌};
ghost use Rattle.journal.specs.CheckSums.{sum_after, sum_over};
ghost use Rattle.journal.specs.Records.{ended};

/// The sum of no bytes.
pub(crate) const FIRST_SUM: u32 = 2_166_136_261;

/// What a sum is multiplied with for each byte.
const PRIME: u32 = 16_777_619;

/// A sum with one byte more.
fn sum_after(sum: u32, byte: u8) -> u32
    ensures { result ≡ sum_after sum byte }
{
    (sum ^ u32::from(byte)).wrapping_mul(PRIME)
}

/// A sum with more bytes.
pub(crate) fn sum_over(first: u32, bytes: &[u8]) -> u32
    ensures { result ≡ sum_over first bytes.now }
{
    let mut sum = first;
    for byte in bytes {
        sum = sum_after(sum, *byte);
    }
    sum
}

/// A sum with a line and its line feed.
pub(crate) fn sum_over_line(first: u32, line: &[u8]) -> u32
    ensures { result ≡ sum_over first (ended line.now) }
{
    sum_after(sum_over(first, line), b'\n')
}
