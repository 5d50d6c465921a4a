//! The hexadecimal digits of words, taken two at a time, and back.
ghost use Rattle.std.specs.Prelude.{◌≡◌, ◌<◌, ◌≤◌, ◌*◌, ◌+◌, ◌^◌, ℕ, length, IfOk};
ghost use Rattle.word_packing.specs.Packing.{Fit, digit_at, firsts, number_of, packed, regrouped_at, unpacked};

use std::alloc::{AllocError, Global};

/// The digit at a place of words that have so many digits each; 0 behind the words.
fn digit_of_words(digits: usize, words: &[u64], place: usize) -> u64
    requires some { 0 < digits }
    requires few { digits ≤ 15 }
    ensures digit { result ≡ digit_at digits words.now place }
    ensures small { result < 16 }
{
    match words.get(place / digits) {
        Some(word) => (*word >> (4 * (digits - 1 - place % digits))) % 16,
        None => 0,
    }
}

/// The digit at a place of bytes; 0 behind the bytes.
fn digit_of_bytes(bytes: &[u8], place: usize) -> u64
    ensures digit { result ≡ digit_at 2 bytes.now place }
    ensures small { result < 16 }
{
    match bytes.get(place / 2) {
        Some(byte) => (u64::from(*byte) >> (4 * (1 - place % 2))) % 16,
        None => 0,
    }
}

/// Words of so many hexadecimal digits as bytes: the digits one behind the other, two in a byte, and a digit
/// 0 at the end where their count is odd.
pub fn pack(alloc: Global, digits: usize, words: &[u64]) -> Result<Vec<u8>, AllocError>
    requires some { 0 < digits }
    requires few { digits ≤ 15 }
    requires short { length words.now < 2 ^ 32 }
    ensures bytes { IfOk result (λ bytes. bytes.items ≡ packed digits words.now) }
    ensures back { IfOk result (λ bytes. Fit digits words.now → unpacked digits (length words.now) bytes.items ≡ words.now) }
{
    let mut bytes = Vec::new(alloc);
    for place in 0..(words.len() * digits + 1) / 2 {
        let high = digit_of_words(digits, words, place * 2);
        let low = digit_of_words(digits, words, place * 2 + 1);
        bytes.push((high * 16 + low) as u8)?;
    }
    Ok(bytes)
}

/// The word at a place of those that bytes hold.
fn word_of_bytes(digits: usize, bytes: &[u8], number: usize) -> u64
    requires few { digits ≤ 15 }
    requires short { number < 2 ^ 32 }
    ensures { result ≡ regrouped_at 2 digits bytes.now number }
{
    let mut word = 0u64;
    for place in 0..digits {
        word = word * 16 + digit_of_bytes(bytes, number * digits + place);
    }
    word
}

/// So many words of so many hexadecimal digits that bytes hold; what the bytes have not is 0.
pub fn unpack(
    alloc: Global,
    digits: usize,
    count: usize,
    bytes: &[u8],
) -> Result<Vec<u64>, AllocError>
    requires few { digits ≤ 15 }
    requires short { count < 2 ^ 32 }
    ensures words { IfOk result (λ words. words.items ≡ unpacked digits count bytes.now) }
    ensures fit { IfOk result (λ words. Fit digits words.items) }
{
    let mut words = Vec::new(alloc);
    for number in 0..count {
        words.push(word_of_bytes(digits, bytes, number))?;
    }
    Ok(words)
}
