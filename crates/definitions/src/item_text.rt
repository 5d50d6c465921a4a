//! A counted item as it is written (COMPASS 60492600, data items).
ghost use Rattle.std.specs.Prelude.{◌≤◌, length};

use crate::item_letter::ItemLetter;

/// A counted item as it is written: its letter, and its 1 to 100 characters.
#[derive(Clone, Copy)]
pub struct ItemText<'a> {
    pub letter: ItemLetter,
    pub characters: &'a [u8],
    ghost some: { 1 ≤ length characters.now },
    ghost few: { length characters.now ≤ 100 },
}

/// A counted item and how many characters of the text it takes, with its count and letter.
#[derive(Clone, Copy)]
pub struct ItemSpan<'a> {
    pub item: ItemText<'a>,
    pub taken: usize,
}
