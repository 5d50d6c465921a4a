//! Numbers as digits, on the stack.
ghost use Rattle.std.specs.Prelude.{◌≡◌, ◌<◌, ◌≤◌, ◌^◌};
ghost use Rattle.definitions.specs.Numerals.{decimal_of, octal_of};

use crate::prepended_text::PrependedText;
use itoa::Buffer;

/// How many digits a number has at most.
const MOST_DIGITS: usize = 20;

/// The last `count` octal digits of a value, leading zeros among them.
#[inline(always)]
pub(crate) fn octal_digits(count: u32, value: u64) -> PrependedText<MOST_DIGITS>
    requires { count ≤ 20 }
    ensures { result ≡ octal_of count value }
{
    let mut text = PrependedText::new();
    text.put_octal(count, value);
    text
}

/// The decimal digits of a value, without leading zeros, as they stand in a buffer.
#[inline(always)]
pub(crate) fn decimal_text(buffer: &mut Buffer, value: u64) -> &[u8]
    ensures { result.now ≡ decimal_of value }
{
    buffer.format(value).as_bytes()
}

/// The value as `digits` octal digits, with leading zeros.
pub fn octal(value: u64, digits: usize) -> PrependedText<MOST_DIGITS>
    requires few { digits ≤ 20 }
    requires fits { value < 8 ^ digits }
    ensures { result ≡ octal_of digits value }
{
    octal_digits(digits as u32, value)
}
