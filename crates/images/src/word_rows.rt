//! Words that stand side by side: with the address of the first, and as bytes.
ghost use Rattle.std.specs.Prelude.{◌≡◌, ◌≤◌, [], length, IfOk};
ghost use Rattle.images.specs.Processors.{hexadecimal_digits};
ghost use Rattle.word_packing.specs.Packing.{Fit, packed, unpacked};

use crate::processor::Processor;
use std::alloc::{AllocError, Global};
use word_packing::{pack, unpack};

/// How many words stand in a row at most: those of the largest memory.
pub(crate) const MOST_WORDS: usize = 131_072;

/// Words of one processor that stand side by side.
#[derive(Drop)]
pub(crate) struct WordRow {
    pub processor: Processor,
    /// The address of the first word.
    pub address: u32,
    pub words: Vec<u64>,
    ghost short: { length words.items ≤ 131072 },
    ghost fit: { Fit (hexadecimal_digits processor) words.items },
}

impl WordRow {
    /// A row that begins at an address and has no word yet.
    pub(crate) fn new(alloc: Global, processor: Processor, address: u32) -> WordRow
        ensures { result.words.items ≡ [] }
    {
        WordRow {
            processor,
            address,
            words: Vec::new(alloc),
        }
    }

    /// The address behind its last word.
    pub(crate) fn end(&self) -> u32 {
        self.address.saturating_add(self.words.len() as u32)
    }

    /// Whether a word at this address stands next to the last one, and there is room for it.
    pub(crate) fn goes_on_at(&self, address: u32) -> bool {
        self.end() == address && self.words.len() < MOST_WORDS
    }

    /// Puts the last bits of a number behind its words, as many as a word has; a row that is full stays.
    pub(crate) fn push(&mut self, number: u64) -> Result<(), AllocError> {
        if self.words.len() < MOST_WORDS {
            let word = self.processor.word_of(number);
            self.words.push(word)?;
        }
        Ok(())
    }

    /// Its words as bytes: `unpack` makes the same words of them.
    pub(crate) fn packed(&self, alloc: Global) -> Result<Vec<u8>, AllocError>
        ensures bytes { IfOk result (λ bytes. bytes.items ≡ packed (hexadecimal_digits self.now.processor) self.now.words.items) }
        ensures back { IfOk result (λ bytes. unpacked (hexadecimal_digits self.now.processor) (length self.now.words.items) bytes.items ≡ self.now.words.items) }
    {
        pack(
            alloc,
            self.processor.hexadecimal_digits(),
            self.words.as_slice(),
        )
    }

    /// The row of so many words that bytes hold.
    pub(crate) fn unpacked(
        alloc: Global,
        processor: Processor,
        address: u32,
        count: usize,
        bytes: &[u8],
    ) -> Result<WordRow, AllocError>
        requires short { count ≤ 131072 }
        ensures { IfOk result (λ row. row.words.items ≡ unpacked (hexadecimal_digits processor) count bytes.now) }
    {
        let words = unpack(alloc, processor.hexadecimal_digits(), count, bytes)?;
        Ok(WordRow {
            processor,
            address,
            words,
        })
    }
}
