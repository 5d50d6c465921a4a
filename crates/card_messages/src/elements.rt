//! The subfields and the elements of a variable field as they stand there, lawful or not, with their places.

use definitions::item_at;
use expr_forms::Subfields;

/// How many characters a variable field has at most.
pub(crate) const MOST_CHARACTERS: usize = 711;

/// A part of a variable field: its text, and how many characters stand before it.
#[derive(Clone, Copy)]
pub(crate) struct Part<'a> {
    pub(crate) start: usize,
    pub(crate) text: &'a [u8],
}

/// The subfields of a variable field that are left.
#[derive(Drop)]
pub(crate) struct Parts<'a> {
    subfields: Option<Subfields<'a>>,
    start: usize,
}

impl<'a> Parts<'a> {
    pub(crate) fn new(text: &'a [u8]) -> Parts<'a> {
        let subfields = if text.len() <= MOST_CHARACTERS {
            Some(Subfields::new(text))
        } else {
            None
        };
        Parts {
            subfields,
            start: 0,
        }
    }

    pub(crate) fn next(&mut self) -> Option<Part<'a>> {
        let Some(subfields) = &mut self.subfields else {
            return None;
        };
        let text = subfields.next()?;
        let start = self.start;
        self.start = start.saturating_add(text.len()).saturating_add(1);
        Some(Part { start, text })
    }
}

/// An element of a variable field, or the place where one is missing, with the marks before it.
#[derive(Clone, Copy)]
pub(crate) struct ElementText<'a> {
    pub(crate) start: usize,
    pub(crate) text: &'a [u8],
    /// The mark before it; that of the first in a field is a comma.
    pub(crate) before: u8,
    /// The element before it.
    pub(crate) earlier: &'a [u8],
    /// The mark before that one.
    pub(crate) earlier_before: u8,
}

impl<'a> ElementText<'a> {
    /// Whether it stands behind the slash of a subfield of VFD, if it is one's.
    pub(crate) fn is_behind_width(&self) -> bool {
        self.before == b'/' && self.earlier_before == b','
    }

    pub(crate) fn part(&self) -> Part<'a> {
        Part {
            start: self.start,
            text: self.text,
        }
    }
}

/// The elements of a variable field that are left, from left to right.
#[derive(Drop)]
pub(crate) struct Elements<'a> {
    rest: &'a [u8],
    next: ElementText<'a>,
    is_over: bool,
}

/// Whether a character is one of the five marks.
pub(crate) fn is_mark(character: u8) -> bool {
    matches!(character, b',' | b'+' | b'-' | b'*' | b'/')
}

/// How many characters stand before the next mark.
fn run_len(text: &[u8]) -> usize {
    for (count, character) in text.iter().enumerate() {
        if is_mark(*character) {
            return count;
        }
    }
    text.len()
}

/// How many characters the counted item has that begins a text; 0 where none does.
fn item_len(text: &[u8]) -> usize {
    match item_at(text) {
        Some(span) => span.taken,
        None => 0,
    }
}

/// A text without so many characters in front.
pub(crate) fn behind(text: &[u8], count: usize) -> &[u8] {
    text.split_at(count.min(text.len())).1
}

/// How many characters stand before the next mark that is in no item.
fn unmarked_len(text: &[u8]) -> usize {
    let taken = item_len(text);
    taken.saturating_add(run_len(behind(text, taken)))
}

/// The same of what stands behind the equals sign of a literal, which may have a sign.
fn signed_len(text: &[u8]) -> usize {
    match text.split_first() {
        Some((b'+' | b'-', digits)) => unmarked_len(digits).saturating_add(1),
        _ => unmarked_len(text),
    }
}

/// How many characters the element has that begins a text.
fn element_len(text: &[u8]) -> usize {
    match text.split_first() {
        Some((b'=', literal)) => signed_len(literal).saturating_add(1),
        Some((b'*', counter)) => run_len(counter).saturating_add(1),
        _ => unmarked_len(text),
    }
}

impl<'a> Elements<'a> {
    pub(crate) fn new(text: &'a [u8]) -> Elements<'a> {
        Elements {
            rest: text,
            next: ElementText {
                start: 0,
                text: &[],
                before: b',',
                earlier: &[],
                earlier_before: b',',
            },
            is_over: false,
        }
    }

    pub(crate) fn next(&mut self) -> Option<ElementText<'a>> {
        if self.is_over {
            return None;
        }
        let len = element_len(self.rest).min(self.rest.len());
        let (text, rest) = self.rest.split_at(len);
        let element = ElementText { text, ..self.next };
        match rest.split_first() {
            Some((mark, others)) => {
                self.rest = others;
                self.next = ElementText {
                    start: element.start.saturating_add(len).saturating_add(1),
                    text: &[],
                    before: *mark,
                    earlier: text,
                    earlier_before: element.before,
                };
            }
            None => self.is_over = true,
        }
        Some(element)
    }
}
