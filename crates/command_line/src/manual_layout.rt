//! Listings laid out in the order of a printed COMPASS listing: letters and code at the left, and at their right
//! the card. The columns are ours: letters from column 1, code from 10, the number of the card from 40, the card
//! from 46.

use std::alloc::{AllocError, Global};
use text_ports::Text;

/// How many columns stand in front of code.
const CODE_COLUMN: usize = 9;

/// How many columns stand in front of the number of a card.
const NUMBER_COLUMN: usize = 39;

/// How many characters stand in front of a card: those of its number, and a blank.
const NUMBER_WIDTH: usize = 6;

/// How many cards a statement has at most.
const MOST_CARDS: usize = 10;

/// What stands in front of letters in a listing.
const LETTERS: &[u8] = b"  ERR ";

/// What stands in front of code in a listing.
const CODE: &[u8] = b"  ";

/// The lines of a statement in a listing.
#[derive(Drop)]
struct StatementLines<'a> {
    letters: &'a [u8],
    /// The lines of its code, without the blanks in front.
    codes: Vec<&'a [u8]>,
    /// Its cards, each behind its number.
    cards: Vec<&'a [u8]>,
}

/// The card of a line of a listing, if it has one.
fn card_of(line: &[u8]) -> Option<&[u8]> {
    if line.first()?.is_ascii_digit() {
        Some(line.split_at(line.len().min(NUMBER_WIDTH)).1)
    } else {
        None
    }
}

/// Puts blanks up to a column of the line that began at this place of the text.
fn push_blanks(text: &mut Text, begin: usize, column: usize) -> Result<(), AllocError> {
    for _ in text.len()..begin.saturating_add(column) {
        text.push_byte(b' ')?;
    }
    Ok(())
}

impl<'a> StatementLines<'a> {
    fn new(alloc: Global) -> StatementLines<'a> {
        StatementLines {
            letters: b"",
            codes: Vec::new(alloc),
            cards: Vec::new(alloc),
        }
    }

    /// Writes the line of a card and a line of code, of which one may be missing.
    fn push_row(&self, text: &mut Text, number: usize) -> Result<(), AllocError> {
        let begin = text.len();
        if number == 0 {
            text.push_bytes(self.letters)?;
        }
        if let Some(code) = self.codes.as_slice().get(number) {
            push_blanks(text, begin, CODE_COLUMN)?;
            text.push_bytes(*code)?;
        }
        if let Some(card) = self.cards.as_slice().get(number) {
            push_blanks(text, begin, NUMBER_COLUMN)?;
            text.push_bytes(*card)?;
        }
        text.push_byte(b'\n')
    }

    /// Writes the statement, and begins another one.
    fn flush(&mut self, text: &mut Text) -> Result<(), AllocError> {
        for number in 0..self.codes.len().max(self.cards.len()) {
            self.push_row(text, number)?;
        }
        self.letters = b"";
        self.codes.clear();
        self.cards.clear();
        Ok(())
    }

    /// Whether a card goes with those before it: a comma card behind cards of a statement that is no comment,
    /// has room for it, and had no letters and no code yet.
    fn goes_on_with(&self, card: &[u8]) -> bool {
        let first = self.cards.as_slice().first().copied();
        let is_comment = card_of(first.unwrap_or(b""))
            .unwrap_or(b"*")
            .starts_with(b"*");
        card.starts_with(b",")
            && !is_comment
            && self.cards.len() < MOST_CARDS
            && self.codes.is_empty()
            && self.letters.is_empty()
    }

    /// Takes a line of a listing. Each that is none of a statement is written as it is.
    fn take(&mut self, text: &mut Text, line: &'a [u8]) -> Result<(), AllocError> {
        if let Some(card) = card_of(line) {
            if !self.goes_on_with(card) {
                self.flush(text)?;
            }
            return Ok(self.cards.push(line)?);
        }
        if let Some(letters) = line.strip_prefix(LETTERS) {
            self.letters = letters;
            return Ok(());
        }
        if let Some(code) = line.strip_prefix(CODE) {
            return Ok(self.codes.push(code)?);
        }
        self.flush(text)?;
        text.push_bytes(line)?;
        text.push_byte(b'\n')
    }
}

/// Listings in this layout: each line of the usual one is taken once.
pub(crate) fn manual_listings(alloc: Global, listings: &[u8]) -> Result<Text, AllocError> {
    let mut text = Text::with_room(alloc, listings.len())?;
    let mut statement = StatementLines::new(alloc);
    for line in listings.split(|byte| *byte == b'\n') {
        if !line.is_empty() {
            statement.take(&mut text, line)?;
        }
    }
    statement.flush(&mut text)?;
    Ok(text)
}
