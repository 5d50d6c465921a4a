//! Words and numbers of rows and of steps.

use std::alloc::{AllocError, Global};

/// The first word of a text, and what stands behind the blank.
pub fn cut(text: &str) -> (&str, &str) {
    text.split_once(" ").unwrap_or((text, ""))
}

/// The first line of a text, and what stands behind it.
pub fn cut_line(text: &str) -> (&str, &str) {
    text.split_once("\n").unwrap_or((text, ""))
}

/// A decimal number; 0 where it is none.
pub fn number(text: &str) -> u64 {
    u64::from_str_radix(text, 10).unwrap_or(0)
}

/// The number that begins a text, and what stands behind the blank.
pub fn cut_number(text: &str) -> (u64, &str) {
    let (word, rest) = cut(text);
    (number(word), rest)
}

/// An octal number; 0 where it is none.
pub fn octal(text: &str) -> u64 {
    u64::from_str_radix(text, 8).unwrap_or(0)
}

/// A decimal number of at most 32 bits; 0 where it is greater.
pub fn small(text: &str) -> u32 {
    u32::try_from(number(text)).unwrap_or(0)
}

/// A decimal number as a size; 0 where it is greater than one.
pub fn size(text: &str) -> usize {
    usize::try_from(number(text)).unwrap_or(0)
}

/// A decimal number that may have a sign; 0 where it is none.
pub fn signed(text: &str) -> i64 {
    i64::from_str_radix(text, 10).unwrap_or(0)
}

/// What a character of a step stands for: `|` for the end of a line, `~` for a carriage return and a
/// grave accent for a zero byte; each other for itself.
fn plain(character: char) -> char {
    match character {
        '|' => '\n',
        '~' => '\r',
        '`' => '\0',
        other => other,
    }
}

/// What a step says.
pub fn plain_text(alloc: Global, step: &str) -> Result<String, AllocError> {
    let mut text = String::new(alloc);
    for character in step.chars() {
        text.push(plain(character))?;
    }
    Ok(text)
}

/// The bytes of a text in which `\` and three octal digits stand for a byte.
pub fn bytes_of(alloc: Global, text: &str) -> Result<Vec<u8>, AllocError> {
    let mut bytes = Vec::new(alloc);
    let mut digits_left = 0u8;
    let mut code = 0u8;
    for byte in text.as_bytes() {
        if digits_left > 0 {
            digits_left -= 1;
            code = code.wrapping_mul(8).wrapping_add(byte.wrapping_sub(b'0'));
            if digits_left == 0 {
                bytes.push(code)?;
            }
        } else if *byte == b'\\' {
            digits_left = 3;
            code = 0;
        } else {
            bytes.push(*byte)?;
        }
    }
    Ok(bytes)
}
