//! An image: the words that decks and common blocks store, section by section.

use crate::processor::Processor;
use crate::word_rows::WordRow;
use std::alloc::{AllocError, Global};

/// How many sections an image has at most: those of 64 decks, and of 64 common blocks of each.
pub(crate) const MOST_SECTIONS: usize = 4_160;

/// The stored words of a deck, or of a common block.
#[derive(Drop)]
pub struct Section {
    /// The line that begins it, `DECK name kind base` or `COMMON /name/ base`; nothing where none does.
    pub(crate) title: Vec<u8>,
    pub(crate) processor: Processor,
    /// Its words in their order, each row of them that stand side by side.
    pub(crate) rows: Vec<WordRow>,
}

/// An image: its sections in their order.
#[derive(Drop)]
pub struct Image {
    pub(crate) sections: Vec<Section>,
}

/// The word that begins the title of a deck.
const DECK: &[u8] = b"DECK ";

/// The word that begins the title of a common block.
const COMMON: &[u8] = b"COMMON ";

/// Whether a line begins a section.
pub(crate) fn is_title(line: &[u8]) -> bool {
    line.starts_with(DECK) || line.starts_with(COMMON)
}

/// A word of a line, counted from 0; nothing where it has none.
fn word_at(line: &[u8], number: usize) -> &[u8] {
    line.split(|byte| *byte == b' ').nth(number).unwrap_or(b"")
}

/// The processor whose words stand below a title.
pub(crate) fn processor_of(title: &[u8]) -> Processor {
    if word_at(title, 2) == b"PERIPH".as_slice() {
        Processor::Peripheral
    } else {
        Processor::Central
    }
}

impl Section {
    /// A section without words.
    pub(crate) fn new(
        alloc: Global,
        title: &[u8],
        processor: Processor,
    ) -> Result<Section, AllocError> {
        let mut line = Vec::new(alloc);
        line.extend_from_slice(title)?;
        Ok(Section {
            title: line,
            processor,
            rows: Vec::new(alloc),
        })
    }

    /// Puts a word behind the others: into the last row where it stands next to its words, and else into a row
    /// of its own.
    pub(crate) fn put(&mut self, alloc: Global, address: u32, word: u64) -> Result<(), AllocError> {
        let goes_on = match self.rows.as_slice().last() {
            Some(row) => row.goes_on_at(address),
            None => false,
        };
        if !goes_on {
            self.rows
                .push(WordRow::new(alloc, self.processor, address))?;
        }
        match self.rows.as_mut_slice().last_mut() {
            Some(row) => row.push(word),
            None => Ok(()),
        }
    }

    /// Whether it is a deck's.
    pub(crate) fn is_deck(&self) -> bool {
        self.title.as_slice().starts_with(DECK)
    }

    /// The name of the deck or the common block.
    pub(crate) fn name(&self) -> &[u8] {
        word_at(self.title.as_slice(), 1)
    }
}
