//! The digits of a code with those of the registers put in.
ghost use Rattle.std.specs.Prelude.{◌≡◌, ◌≤◌, ◌<◌, length, codes};
ghost use Rattle.definitions.specs.Characters.{is_among};
ghost use Rattle.definitions.specs.Matching.{digit_in, code_digits, octal_number};
ghost use Rattle.cpu_opcodes.specs.Joins.RegistersFound.{digits_as};

use crate::registers_found::RegistersFound;

/// The octal digits of a code in front of K or n, as a number, and how many they are.
#[derive(Clone, Copy)]
pub struct Digits {
    pub number: u64,
    pub count: usize,
}

/// The digits of the text of a code.
pub(crate) fn digits_of(text: &[u8], registers: RegistersFound) -> Digits
    requires { length text.now ≤ 10 }
    ensures number { result.number ≡ octal_number 0 (code_digits (digits_as registers) text.now) }
    ensures count { result.count ≡ length (code_digits (digits_as registers) text.now) }
    ensures within { result.count ≤ length text.now }
{
    let mut number = 0;
    for (i, c) in text.iter().enumerate() {
        if is_field(*c) {
            return Digits { number, count: i };
        }
        number = number * 8 + digit_in(registers, *c);
    }
    Digits {
        number,
        count: text.len(),
    }
}

/// Whether a character of a code stands for a field.
fn is_field(c: u8) -> bool
    ensures { result ≡ is_among c (codes "Kn") }
{
    c == b'K' || c == b'n'
}

/// The digit for a character of a code: that of its register, or itself.
fn digit_in(registers: RegistersFound, c: u8) -> u64
    ensures digit { result ≡ digit_in (digits_as registers) c }
    ensures small { result < 256 }
{
    if c == b'i' {
        u64::from(registers.i)
    } else if c == b'j' {
        u64::from(registers.j)
    } else if c == b'k' {
        u64::from(registers.k)
    } else {
        u64::from(c.saturating_sub(b'0'))
    }
}
