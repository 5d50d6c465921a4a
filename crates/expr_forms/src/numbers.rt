//! Numbers as runs of characters: digits, a suffix and a scale (COMPASS 60492600, numeric constants).
ghost use Rattle.std.specs.Prelude.{◌≡◌, ◌≤◌, ◌*◌, ◌+◌, ◌-◌, ◌^◌, ℕ, min, option_map, nat_lt, Some};
ghost use Rattle.std.specs.List.{list_all};
ghost use Rattle.definitions.specs.Numerals.{number_of};
ghost use Rattle.definitions.specs.Symbols.{scaled, scale_of, behind_digits, bounded, number_read};
ghost use Rattle.expr_forms.specs.Joins.Numbers.{number_as, radix, AreDigits};

use crate::arithmetic::GREATEST;
use crate::magnitude::Magnitude;
use definitions::{NumberBase, digit_count, is_digit};

/// A number up to 2^60 - 1, or one above it.
#[derive(Clone, Copy)]
pub enum Number {
    Value(Magnitude),
    TooGreat,
}

/// The number that digits make and one digit behind them, or 2^60 where it is greater.
#[inline(always)]
pub(crate) fn with_digit(base: NumberBase, value: u64, digit: u8) -> u64
    requires { value ≤ 2 ^ 60 }
    ensures { result ≡ min (value * radix base + (digit - 48)) (2 ^ 60) }
{
    let digit = u64::from(digit.saturating_sub(b'0'));
    match base {
        NumberBase::Decimal => (value * 10 + digit).min(GREATEST + 1),
        NumberBase::Octal => (value * 8 + digit).min(GREATEST + 1),
    }
}

/// The number that digits make, or 2^60 where it is greater.
#[inline(always)]
pub(crate) fn capped_number(base: NumberBase, digits: &[u8]) -> u64
    ensures { result ≡ min (number_of (radix base) digits.now) (2 ^ 60) }
{
    let mut value = 0;
    for digit in digits {
        value = with_digit(base, value, *digit);
    }
    value
}

/// A number times 2^scale; the number is known up to 2^60.
#[inline(always)]
pub(crate) fn with_scale(value: u64, scale: u32) -> Number
    ensures { (number : ℕ) → value ≡ min number (2 ^ 60) → bounded (Some (number * 2 ^ scale)) ≡ Some (number_as result) }
{
    if value == 0 {
        return Number::Value(Magnitude { value: 0 });
    }
    if scale >= 60 {
        return Number::TooGreat;
    }
    if value > GREATEST >> scale {
        return Number::TooGreat;
    }
    Number::Value(Magnitude {
        value: value << scale,
    })
}

#[inline(always)]
fn are_octal(digits: &[u8]) -> bool
    ensures { result ≡ list_all (λ c. nat_lt c 56) digits.now }
{
    digits.iter().all(|c| *c < b'8')
}

#[inline(always)]
fn scaled(base: NumberBase, digits: &[u8], scale: u32) -> Option<Number>
    ensures { option_map number_as result ≡ bounded (scaled base digits.now scale) }
{
    match base {
        NumberBase::Decimal => Some(with_scale(capped_number(base, digits), scale)),
        NumberBase::Octal => {
            if are_octal(digits) {
                Some(with_scale(capped_number(base, digits), scale))
            } else {
                None
            }
        }
    }
}

/// Nothing, or S and one or two decimal digits.
fn scale_of(text: &[u8]) -> Option<u32>
    ensures { result ≡ scale_of text.now }
{
    match text {
        [] => Some(0),
        [b'S', ones] if is_digit(*ones) => Some(u32::from(*ones - b'0')),
        [b'S', tens, ones] if is_digit(*tens) && is_digit(*ones) => {
            Some(u32::from(*tens - b'0') * 10 + u32::from(*ones - b'0'))
        }
        _ => None,
    }
}

/// Digits, and the suffix and scale behind them.
fn behind_digits(base: NumberBase, digits: &[u8], text: &[u8]) -> Option<Number>
    ensures { option_map number_as result ≡ bounded (behind_digits base digits.now text.now) }
{
    match text.split_first() {
        None => scaled(base, digits, 0),
        Some((b'B' | b'O', rest)) => scaled(NumberBase::Octal, digits, scale_of(rest)?),
        Some((b'D', rest)) => scaled(NumberBase::Decimal, digits, scale_of(rest)?),
        Some(_) => scaled(base, digits, scale_of(text)?),
    }
}

/// The number that digits spell, if they spell one.
#[inline(always)]
pub(crate) fn digits_read(base: NumberBase, digits: &[u8]) -> Option<Number>
    requires { AreDigits digits.now }
    ensures { option_map number_as result ≡ number_read base digits.now }
{
    scaled(base, digits, 0)
}

/// The number that a text spells, if it spells one.
pub(crate) fn number_read(base: NumberBase, text: &[u8]) -> Option<Number>
    ensures { option_map number_as result ≡ number_read base text.now }
{
    let count = digit_count(text);
    if count == 0 {
        return None;
    }
    let (digits, rest) = text.split_at(count);
    behind_digits(base, digits, rest)
}
