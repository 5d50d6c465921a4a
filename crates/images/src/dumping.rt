//! An image as lines for people: address, octal digits, display characters, instructions.

use crate::image::Section;
use crate::instructions::{has_second, is_long, push_central, push_peripheral};
use crate::processor::Processor;
use crate::word_rows::WordRow;
use definitions::char_of;
use std::alloc::{AllocError, Global};
use text_ports::{Piece, Text};

/// How many parcels a central word has.
const PARCELS: usize = 4;

/// A parcel of a central word, the first one 0.
pub(crate) fn parcel_of(word: u64, number: usize) -> u64 {
    let parcels = [word >> 45, word >> 30, word >> 15, word];
    parcels.get(number).copied().unwrap_or(0) % 0o100_000
}

/// Writes the characters that a word has, so many.
fn push_characters(text: &mut Piece, word: u64, count: u32) {
    for number in 0..count.min(10) {
        let place = 6 * (count.min(10) - 1 - number);
        text.put([char_of(((word >> place) % 64) as u8)].as_slice());
    }
}

/// Writes the parcels of a central word as digits.
fn push_parcels(text: &mut Piece, word: u64) {
    for number in 0..PARCELS {
        text.put(b" ");
        text.put_octal(5, parcel_of(word, number));
    }
}

/// Writes the instructions of a central word, with a semicolon between two. A long one that would begin in the
/// last parcel is left as digits.
fn push_instructions(text: &mut Piece, word: u64) {
    let mut is_second = false;
    for number in 0..PARCELS {
        if is_second {
            is_second = false;
            continue;
        }
        if number > 0 {
            text.put(b"; ");
        }
        let upper = parcel_of(word, number);
        let lower = (number < PARCELS - 1).then_some(parcel_of(word, number.saturating_add(1)));
        is_second = is_long(upper);
        push_central(text, upper, lower);
    }
}

/// Writes the line of a central word.
fn push_central_line(text: &mut Piece, address: u32, word: u64) {
    text.put_octal(6, u64::from(address));
    push_parcels(text, word);
    text.put(b"  ");
    push_characters(text, word, 10);
    text.put(b"  ");
    push_instructions(text, word);
    text.put(b"\n");
}

/// Writes the digits and the characters of a peripheral word.
fn push_peripheral_word(text: &mut Piece, address: u32, word: u64) {
    text.put_octal(4, u64::from(address));
    text.put(b" ");
    text.put_octal(4, word);
    text.put(b"  ");
    push_characters(text, word, 2);
}

/// Writes the lines of peripheral words, with the instruction of each that is not the second word of one.
fn push_peripheral_lines(text: &mut Piece, row: &WordRow) {
    let words = row.words.as_slice();
    let mut address = row.address;
    let mut is_second = false;
    for (place, word) in words.iter().enumerate() {
        push_peripheral_word(text, address, *word);
        if !is_second {
            text.put(b"  ");
            push_peripheral(text, *word, words.get(place.saturating_add(1)).copied());
        }
        text.put(b"\n");
        is_second = !is_second && has_second(*word);
        address = address.saturating_add(1);
    }
}

/// Writes the lines of central words.
fn push_central_lines(text: &mut Piece, row: &WordRow) {
    let mut address = row.address;
    for word in row.words.as_slice() {
        push_central_line(text, address, *word);
        address = address.saturating_add(1);
    }
}

/// The lines of a section: its title, and a line for each word with its address, its digits, its characters in
/// display code, and its instructions.
pub fn section_lines(alloc: Global, section: &Section) -> Result<Text, AllocError> {
    let mut text = Piece::new(alloc);
    let title = section.title.as_slice();
    if !title.is_empty() {
        text.put(title);
        text.put(b"\n");
    }
    for row in section.rows.as_slice() {
        match section.processor {
            Processor::Central => push_central_lines(&mut text, row),
            Processor::Peripheral => push_peripheral_lines(&mut text, row),
        }
    }
    text.into_text()
}
