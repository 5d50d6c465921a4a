//! Texts against patterns of registers, and the digits that they have.
ghost use Rattle.std.specs.Prelude.{◌≡◌, ◌<◌, ◌∷◌, ℕ, List, option_map, option_and_then};
ghost use Rattle.definitions.specs.Matching.{is_ijk, is_octal_digit, matched, with_ijk};
ghost use Rattle.cpu_opcodes.specs.Joins.RegistersFound.{digits_as};
ghost use Rattle.cpu_opcodes.specs.Joins.Fits.{named_digits};

use crate::registers_found::RegistersFound;

/// Whether a character of a pattern is i, j or k.
fn is_place(c: u8) -> bool
    ensures { result ≡ is_ijk c }
{
    c == b'i' || c == b'j' || c == b'k'
}

pub(crate) fn is_octal_digit(c: u8) -> bool
    ensures { result ≡ is_octal_digit c }
{
    b'0' <= c && c <= b'7'
}

/// The digits with the one for this place set; what is neither i nor j sets k.
fn with_digit(registers: RegistersFound, place: u8, digit: u8) -> RegistersFound
    requires { digit < 8 }
    ensures { digits_as result ≡ with_ijk place digit (digits_as registers) }
{
    let RegistersFound { i, j, k } = registers;
    if place == b'i' {
        RegistersFound { i: digit, j, k }
    } else if place == b'j' {
        RegistersFound { i, j: digit, k }
    } else {
        RegistersFound { i, j, k: digit }
    }
}

/// The digits behind a character of a pattern, where a character of a text fits it.
fn with_character(registers: RegistersFound, p: u8, c: u8) -> Option<RegistersFound>
    ensures { (ps cs : List ℕ) → matched (p ∷ ps) (c ∷ cs) (digits_as registers) ≡ option_and_then (λ found. matched ps cs (digits_as found)) result }
{
    if is_place(p) {
        if is_octal_digit(c) {
            Some(with_digit(registers, p, c - b'0'))
        } else {
            None
        }
    } else if p == c {
        Some(registers)
    } else {
        None
    }
}

/// The digits that a text has where a pattern has i, j or k, beside those before; none where it is
/// not the pattern's otherwise.
pub(crate) fn matched(
    pattern: &[u8],
    text: &[u8],
    registers: RegistersFound,
) -> Option<RegistersFound>
    ensures { option_map digits_as result ≡ matched pattern.now text.now (digits_as registers) }
{
    let mut ps = pattern;
    let mut cs = text;
    let mut found = registers;
    'characters: loop {
        match ps.split_first() {
            None => return if cs.is_empty() { Some(found) } else { None },
            Some((p, patterns)) => match cs.split_first() {
                None => return None,
                Some((c, characters)) => match with_character(found, *p, *c) {
                    None => return None,
                    Some(next) => {
                        ps = patterns;
                        cs = characters;
                        found = next;
                    }
                },
            },
        }
    }
}

/// The digit that the name of an operation has for i: 6 of BX6.
pub(crate) fn named_registers(operation: &[u8]) -> RegistersFound
    ensures { digits_as result ≡ named_digits operation.now }
{
    match operation {
        [_, _, digit] if b'0' <= *digit && *digit <= b'7' => RegistersFound {
            i: *digit - b'0',
            j: 0,
            k: 0,
        },
        _ => RegistersFound { i: 0, j: 0, k: 0 },
    }
}
