//! Fields put behind a list, word by word: single ones, and the words of a counted item and of the
//! text of a DIS (COMPASS 60492600, data generation).
ghost use Rattle.std.specs.Prelude.{◌≡◌, ◌*◌, ◌/◌, ◌<◌, ◌≤◌, ◌++◌, ◌∷◌, [], OnOk, length, map, slice_index, unwrap_or};
ghost use Rattle.definitions.specs.Characters.{display_code_of};
ghost use Rattle.definitions.specs.Coding.{counted_item_bits, words_needed};
ghost use Rattle.definitions.specs.Forms.{characters_number};
ghost use Rattle.definitions.specs.Kinds.{word_bits};
ghost use Rattle.definitions.specs.StatementItems.{known};
ghost use Rattle.definitions.specs.Words.{cut};
ghost use Rattle.statement_coder.specs.Joins.Items.{item_as};
ghost use Rattle.statement_coder.specs.Joins.CodedItems.{IsKept};
ghost use Rattle.statement_coder.specs.Joins.WordItems.{known_words};

use crate::{Content, Item};
use definitions::{DeckKind, display_of};
use expr_forms::{CountedItem, DisText, counted_item_word};
use std::alloc::AllocError;

/// A word of known bits.
pub(crate) fn known_word(kind: DeckKind, bits: u64) -> Item
    ensures { item_as result ≡ known (word_bits kind) bits }
{
    Item {
        width: kind.word_bits(),
        content: Content::Known(bits),
        letter: None,
    }
}

/// Puts a field at the end of a list.
pub(crate) fn push(list: &mut Vec<Item>, item: Item) -> Result<(), AllocError>
    ensures kept { IsKept list.old.items list.new.items }
    ensures pushed { OnOk result (map item_as list.new.items ≡ map item_as list.old.items ++ item_as item ∷ []) }
{
    let content = item.content;
    list.push(Item {
        width: item.width,
        content,
        letter: item.letter,
    })?;
    Ok(())
}

/// Puts the words of a counted item of DATA at the end of a list.
pub(crate) fn push_item(
    kind: DeckKind,
    item: &CountedItem<'_>,
    list: &mut Vec<Item>,
) -> Result<(), AllocError>
    ensures kept { IsKept list.old.items list.new.items }
    ensures pushed { OnOk result (let words = words_needed (word_bits kind) item.now in
        map item_as list.new.items ≡ map item_as list.old.items ++ known_words (word_bits kind) (cut (word_bits kind) words (counted_item_bits (words * word_bits kind) item.now))) }
{
    for index in 0..item.words_needed(kind) {
        push(list, known_word(kind, counted_item_word(item, kind, index)))?;
    }
    Ok(())
}

/// How many characters a word of a deck has.
fn word_characters(kind: DeckKind) -> usize
    ensures characters { result ≡ word_bits kind / 6 }
    ensures few { result ≤ 10 }
{
    match kind {
        DeckKind::Periph => 2,
        DeckKind::Rel | DeckKind::Abs => 10,
    }
}

/// The display code of a character, 0 where it has none.
fn code_of(character: u8) -> u64
    ensures code { result ≡ unwrap_or (display_code_of character) 0 }
    ensures small { result < 64 }
{
    display_of(character).map_or(0, u64::from)
}

/// The number of the characters of one of the words of a DIS.
fn text_word(kind: DeckKind, text: &DisText<'_>, index: usize) -> u64
    requires whole { length text.now.characters ≡ text.now.words * (word_bits kind / 6) }
    requires within { index < text.now.words }
    requires few { index < 100 }
    ensures { result ≡ slice_index (cut (word_bits kind) text.now.words (characters_number text.now.characters)) index }
{
    let each = word_characters(kind);
    let from = index * each;
    let mut number = 0;
    for place in from..from + each {
        number = number * 64 + code_of(text.character(place));
    }
    number
}

/// Puts the words of a DIS at the end of a list.
pub(crate) fn push_text(
    kind: DeckKind,
    text: &DisText<'_>,
    list: &mut Vec<Item>,
) -> Result<(), AllocError>
    requires { length text.now.characters ≡ text.now.words * (word_bits kind / 6) }
    ensures kept { IsKept list.old.items list.new.items }
    ensures pushed { OnOk result (map item_as list.new.items ≡ map item_as list.old.items ++ known_words (word_bits kind) (cut (word_bits kind) text.now.words (characters_number text.now.characters))) }
    ensures some { 1 ≤ text.now.words }
{
    for index in 0..text.words() {
        push(list, known_word(kind, text_word(kind, text, index)))?;
    }
    Ok(())
}
