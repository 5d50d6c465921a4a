//! What a message says, and how it is printed.

use crate::near_names::NearName;
use definitions::is_digit;
use std::fmt;

/// How many characters of a card a message shows at most.
const MOST_SHOWN: usize = 24;

/// Characters of a card, as a message shows them: the first of a long text.
#[derive(Clone, Copy)]
pub struct Shown<'a> {
    pub text: &'a [u8],
}

/// A value that does not fit so many bits, whose greatest number is `most`.
#[derive(Clone, Copy)]
pub struct Misfit<'a> {
    pub text: Shown<'a>,
    pub value: i64,
    pub bits: u32,
    pub most: i64,
}

/// A value, and the range that it is not in. `says` shows what has this range, with its mark in front.
#[derive(Clone, Copy)]
pub struct OutOfRange<'a> {
    pub text: Shown<'a>,
    pub value: i64,
    pub says: &'static str,
    pub least: i64,
    pub most: i64,
}

/// An item with too many characters for so many bits, which take `most`.
#[derive(Clone, Copy)]
pub struct LongItem<'a> {
    pub text: Shown<'a>,
    pub characters: usize,
    pub bits: u32,
    pub most: u32,
}

/// What a message says behind the place and the letter.
#[derive(Clone, Copy)]
pub enum Words<'a> {
    /// These words alone.
    Says(&'static str),
    /// What stands on the card, and what is said of it.
    Of(Shown<'a>, &'static str),
    /// The same with the number of a card behind it.
    OfCard(Shown<'a>, &'static str, u32),
    Misfit(Misfit<'a>),
    OutOfRange(OutOfRange<'a>),
    LongItem(LongItem<'a>),
    /// What stands on the card is no operation, and this is one.
    Near(Shown<'a>, NearName),
}

/// Whether a text is a number by itself, whose value needs no showing.
fn is_number(text: &[u8]) -> bool {
    match text.split_first() {
        Some((b'-' | b'+', digits)) => is_unsigned(digits),
        _ => is_unsigned(text),
    }
}

/// Whether a text begins with a digit and has no mark of expressions.
pub(crate) fn is_unsigned(text: &[u8]) -> bool {
    for character in text {
        if matches!(*character, b'+' | b'-' | b'*' | b'/') {
            return false;
        }
    }
    match text.first() {
        Some(first) => is_digit(*first),
        None => false,
    }
}

impl fmt::Display for Shown<'_> {
    fn fmt<W: fmt::Write>(&self, f: &mut fmt::Formatter<W>) -> fmt::Result {
        let (shown, left) = self.text.split_at(self.text.len().min(MOST_SHOWN));
        let shown = str::from_utf8(shown).unwrap_or("");
        if left.is_empty() {
            write!(f, "{shown}")
        } else {
            write!(f, "{shown}..")
        }
    }
}

impl fmt::Display for Misfit<'_> {
    fn fmt<W: fmt::Write>(&self, f: &mut fmt::Formatter<W>) -> fmt::Result {
        let Misfit {
            text,
            value,
            bits,
            most,
        } = *self;
        let limit = if value < 0 { "at least -" } else { "at most " };
        if is_number(text.text) {
            write!(f, "{text} does not fit {bits} bits: {limit}{most}")
        } else {
            write!(
                f,
                "{text} is {value} and does not fit {bits} bits: {limit}{most}"
            )
        }
    }
}

impl fmt::Display for OutOfRange<'_> {
    fn fmt<W: fmt::Write>(&self, f: &mut fmt::Formatter<W>) -> fmt::Result {
        let OutOfRange {
            text,
            value,
            says,
            least,
            most,
        } = *self;
        if is_number(text.text) && matches!(says.as_bytes().first(), Some(b':')) {
            write!(f, "{text} is out of range{says} {least} to {most}")
        } else {
            write!(f, "{text} is {value}{says} {least} to {most}")
        }
    }
}

impl fmt::Display for LongItem<'_> {
    fn fmt<W: fmt::Write>(&self, f: &mut fmt::Formatter<W>) -> fmt::Result {
        let LongItem {
            text,
            characters,
            bits,
            most,
        } = *self;
        write!(
            f,
            "{text} has {characters} characters; {bits} bits take {most}"
        )
    }
}

impl fmt::Display for Words<'_> {
    fn fmt<W: fmt::Write>(&self, f: &mut fmt::Formatter<W>) -> fmt::Result {
        match *self {
            Words::Says(words) => write!(f, "{words}"),
            Words::Of(text, words) => write!(f, "{text}{words}"),
            Words::OfCard(text, words, card) => write!(f, "{text}{words}{card}"),
            Words::Misfit(words) => write!(f, "{words}"),
            Words::OutOfRange(words) => write!(f, "{words}"),
            Words::LongItem(words) => write!(f, "{words}"),
            Words::Near(text, name) => {
                let near = str::from_utf8(name.text()).unwrap_or("");
                write!(f, "{text} is no operation; {near} is the nearest")
            }
        }
    }
}
