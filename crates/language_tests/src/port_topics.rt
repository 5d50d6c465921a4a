//! Characters, digits, lines and writes: what the ports make of bytes.

use crate::outputs::Answer;
use definitions::{char_of, display_of, has_display_code};
use std::alloc::AllocError;
use std::io::Write;
use test_parts::{
    FaultyReader, FaultyWriter, bytes_of, cut, cut_number, number, octal, size, small,
};
use text_ports::{Broken, Counted, LineBuf, LineIs, ShortText, Text, next_line, put_all};

/// The display code of a byte, and the character of that code.
pub fn displays(answer: &mut Answer, text: &str) -> Result<(), AllocError> {
    for byte in &bytes_of(answer.alloc, text)? {
        answer.either(has_display_code(*byte), "has", "none");
        if let Some(code) = display_of(*byte) {
            answer.octal(&u64::from(code));
            if code < 64 {
                answer.quoted(&[char_of(code)]);
            }
        }
    }
    Ok(())
}

/// So many octal digits of an octal number.
pub fn digits(answer: &mut Answer, text: &str) {
    let (count, number) = cut(text);
    let number = octal(number);
    match size(count) {
        0 if number == 0 => answer.quoted(text_ports::octal(0, 0).as_slice()),
        3 if number < 512 => answer.quoted(text_ports::octal(number, 3).as_slice()),
        20 if number < 1 << 60 => answer.quoted(text_ports::octal(number, 20).as_slice()),
        _ => answer.word("no such row"),
    }
}

/// How often a line is asked for at most.
const MOST_LINES: usize = 8;

/// The lines that a reader gives, up to its end; it gives a byte a call and fails at one call.
pub fn lines(answer: &mut Answer, text: &str) -> Result<(), AllocError> {
    let (fails_at, text) = cut_number(text);
    let bytes = bytes_of(answer.alloc, text)?;
    let mut input = Counted::new(FaultyReader::new(bytes.as_slice(), 1, fails_at));
    for _ in 0..MOST_LINES {
        let mut line = LineBuf::new();
        let outcome = next_line(&mut input, &mut line);
        answer.debug(&outcome);
        answer.quoted(line.as_slice());
        if matches!(outcome, LineIs::End) {
            break;
        }
    }
    answer.number(&input.faults());
    Ok(())
}

/// What a writer takes of a text; it takes so many bytes a call and fails at one call, or has room for eight bytes.
pub fn writes(answer: &mut Answer, text: &str) {
    let (fails_at, rest) = cut_number(text);
    let (piece, sent) = cut(rest);
    if piece == "room" {
        let mut room = [0; 8];
        return write(answer, &mut Counted::new(room.as_mut_slice()), sent);
    }
    let piece = size(piece).max(1);
    let mut output = Counted::new(FaultyWriter::new(answer.alloc, piece, fails_at));
    write(answer, &mut output, sent);
    answer.quoted(output.into_inner().taken());
}

/// How a write of a text ends, and how many faults there are then.
fn write<W: Write>(answer: &mut Answer, output: &mut Counted<W>, text: &str) {
    match put_all(output, text.as_bytes()) {
        Ok(()) => answer.word("whole"),
        Err(Broken { sent }) => {
            answer.word("broken");
            answer.number(&sent);
        }
    }
    answer.number(&output.faults())
}

/// Appends what a word says: `_` a blank, `bA` the byte A, `o6:17` six octal digits of the octal
/// number 17, `p5:17` five decimal digits of 17, `d17` the digits of 17.
fn append(text: &mut Text, word: &str) -> Result<(), AllocError> {
    if word == "_" {
        return text.push_byte(b' ');
    }
    if let Some(bytes) = word.strip_prefix("b") {
        return text.push_bytes(bytes.as_bytes());
    }
    if let Some(decimal) = word.strip_prefix("d") {
        return text.push_decimal(number(decimal));
    }
    let (digits, value) = word.split_once(":").unwrap_or(("", ""));
    if let Some(digits) = digits.strip_prefix("o") {
        return text.push_octal(small(digits).min(20), octal(value));
    }
    text.push_padded(small(digits.trim_start_matches("p")).min(20), number(value))
}

/// A text that grows by what its words say.
pub fn grown_text(answer: &mut Answer, words: &str) -> Result<(), AllocError> {
    let mut text = Text::with_room(answer.alloc, 8)?;
    for word in words.split_whitespace() {
        append(&mut text, word)?;
    }
    answer.quoted(text.as_slice());
    answer.number(&text.len());
    Ok(())
}

/// The line of a word and of a number, which grows in front.
pub fn short_text(answer: &mut Answer, text: &str) {
    let (word, decimal) = cut(text);
    let mut line = ShortText::new();
    line.put_byte(b'\n');
    line.put_octal(20, octal(word));
    line.put_byte(b' ');
    line.put_padded(5, number(decimal));
    answer.quoted(line.as_slice());
}
