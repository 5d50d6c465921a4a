//! The words that fields fill, a line each.
ghost use Rattle.std.specs.Prelude.{◌≡◌, ◌≤◌, ◌<◌, ◌+◌, ◌-◌, ◌*◌, ◌/◌, ◌%◌, ◌^◌, ◌++◌, List, length, map};
ghost use Rattle.definitions.specs.Kinds.{word_bits};
ghost use Rattle.definitions.specs.Listing.{unlinked};
ghost use Rattle.definitions.specs.Words.{content_bits, cut, joined, width_of};
ghost use Rattle.deck_listing.specs.Joins.WordLines.{behind_full, with_bits, word_line, word_lines};
ghost use Rattle.deck_objects.specs.Joins.LineItems.{AreShort};
ghost use Rattle.statement_coder.specs.Joins.Items.{item_as};
ghost use Rattle.definitions.specs.Laws.Filling.{HasRoom};

use crate::lines::{push_central_line, push_peripheral_line};
use crate::sheet::Sheet;
use deck_objects::{Unlinked, linked_bits};
use definitions::DeckKind;
use statement_coder::Item;
use use_blocks::Bases;

/// A word that fields fill: its number in the block, and the bits that stand in it so far. When it
/// is full, it may have bits of the words behind it too.
#[derive(Clone, Copy)]
pub(crate) struct OpenWord {
    word: u64,
    width: u32,
    bits: u128,
}

/// The bits of a field in a listing.
#[inline(always)]
fn field_bits(bases: &Bases, item: &Item) -> u64
    requires most { item.now.width ≤ 60 }
    requires room { HasRoom item.now.width (item_as item.now).content }
    ensures bits { result ≡ content_bits (unlinked bases.now) item.now.width (item_as item.now).content }
    ensures small { result < 2 ^ item.now.width }
{
    linked_bits(&Unlinked { bases }, item)
}

impl OpenWord {
    /// The word with the bits of a field behind its own.
    #[inline(always)]
    fn with(self, width: u32, bits: u64) -> OpenWord
        requires fits { self.bits < 2 ^ self.width }
        requires small { bits < 2 ^ width }
        requires room { self.width ≤ 60 }
        requires short { width ≤ 60 }
        ensures { result ≡ with_bits self width bits }
    {
        if self.width == 0 {
            return OpenWord {
                word: self.word,
                width,
                bits: u128::from(bits),
            };
        }
        OpenWord {
            word: self.word,
            width: self.width + width,
            bits: (self.bits << width) + bits as u128,
        }
    }
}

/// The line of one word.
#[inline(always)]
fn push_word_line(text: &mut Sheet, kind: DeckKind, word: u64, bits: u64)
    ensures { text.new ≡ text.old ++ word_line kind word bits }
{
    match kind {
        DeckKind::Periph => push_peripheral_line(text, word, bits),
        DeckKind::Rel | DeckKind::Abs => push_central_line(text, word, 0, 60, bits),
    }
}

/// The line of a word that is full; what is behind it stands in the next word.
fn push_full_word(text: &mut Sheet, kind: DeckKind, next: OpenWord) -> OpenWord
    requires full { word_bits kind ≤ next.width }
    requires fits { next.bits < 2 ^ next.width }
    requires most { next.width ≤ 120 }
    requires word { next.word < 2 ^ 60 }
    ensures text { text.new ≡ text.old ++ word_line kind next.word (next.bits / 2 ^ (next.width - word_bits kind)) }
    ensures next { result ≡ behind_full kind next }
{
    let left = next.width - kind.word_bits();
    if left == 0 {
        push_word_line(text, kind, next.word, next.bits as u64);
        return OpenWord {
            word: next.word + 1,
            width: 0,
            bits: 0,
        };
    }
    push_word_line(text, kind, next.word, (next.bits >> left) as u64);
    OpenWord {
        word: next.word + 1,
        width: left,
        bits: next.bits % (1 << left),
    }
}

/// The lines of the words that fields fill, from a word on.
pub(crate) fn push_word_lines(
    text: &mut Sheet,
    kind: DeckKind,
    bases: &Bases,
    word: u64,
    items: &[Item],
)
    requires short { AreShort (map item_as items.now) }
    requires whole { width_of (map item_as items.now) % word_bits kind ≡ 0 }
    requires few { word + width_of (map item_as items.now) < 2 ^ 60 }
    ensures { text.new ≡ text.old ++ word_lines kind word
        (cut (word_bits kind) (width_of (map item_as items.now) / word_bits kind) (joined (unlinked bases.now) (map item_as items.now))) }
{
    let mut next = OpenWord {
        word,
        width: 0,
        bits: 0,
    };
    let mut left = items;
    'fields: loop {
        if next.width >= kind.word_bits() {
            next = push_full_word(text, kind, next);
        } else {
            match left.split_first() {
                None => return,
                Some((item, behind)) => {
                    next = next.with(item.width, field_bits(bases, item));
                    left = behind;
                }
            }
        }
    }
}

/// The lines of words that are known, from one on.
pub(crate) fn push_known_words(text: &mut Sheet, kind: DeckKind, first: u64, words: &[u64])
    requires few { first + length words.now < 2 ^ 60 }
    ensures { text.new ≡ text.old ++ word_lines kind first words.now }
{
    let mut word = first;
    for bits in words {
        push_word_line(text, kind, word, *bits);
        word += 1;
    }
}

/// How many bits fields have together, at most 60, and these bits as one number.
#[inline(always)]
pub(crate) fn joined_fields(bases: &Bases, items: &[Item]) -> (u32, u64)
    requires short { AreShort (map item_as items.now) }
    requires most { width_of (map item_as items.now) ≤ 60 }
    ensures width { result.0 ≡ width_of (map item_as items.now) }
    ensures bits { result.1 ≡ joined (unlinked bases.now) (map item_as items.now) }
{
    let mut all = OpenWord {
        word: 0,
        width: 0,
        bits: 0,
    };
    for item in items {
        all = all.with(item.width, field_bits(bases, item));
    }
    (all.width, all.bits as u64)
}
