//! How values and items are coded: in a field of up to 60 bits, in the words of DATA, as a number,
//! and as a literal.
ghost use Rattle.std.specs.Prelude.{◌≡◌, ◌≤◌, ◌<◌, ◌+◌, ◌*◌, ◌/◌, ◌^◌, pos, length, take, drop, slice_index, unwrap_or, Ok, Err, MatchResult};
ghost use Rattle.definitions.specs.Characters.{display_code_of};
ghost use Rattle.definitions.specs.CountedItems.{bits_needed};
ghost use Rattle.definitions.specs.Expressions.{OfCountedItem};
ghost use Rattle.definitions.specs.Forms.{absolute, characters_number, counted_item_form};
ghost use Rattle.definitions.specs.Coding.{coded_in, counted_item_bits, counted_item_in, words_needed};
ghost use Rattle.definitions.specs.Kinds.{word_bits};
ghost use Rattle.definitions.specs.Literals.{literal_word};
ghost use Rattle.definitions.specs.Words.{cut};
ghost use Rattle.expr_forms.specs.Joins.CodedItems.{filler, in_places, is_at_end};

use crate::counted_item::CountedItem;
use definitions::{DeckKind, ItemLetter, Letter, display_of};

/// How many bits a character has.
const CHARACTER_BITS: usize = 6;

/// How many characters a number has at most.
const MOST_IN_NUMBER: usize = 10;

/// A value in a field of so many bits, 1 to 60: a negative one is the complement of its size. None
/// where its size is above the greatest of the field.
pub fn coded_in(width: u32, value: i64) -> Option<u64>
    requires some { 1 ≤ width }
    requires most { width ≤ 60 }
    ensures { result ≡ coded_in width value }
{
    let greatest = (1_u64 << width) - 1;
    let size = value.unsigned_abs();
    if size > greatest {
        None
    } else if value < 0 {
        Some(greatest - size)
    } else {
        Some(size)
    }
}

/// The word of a literal that is a number, 0 where that does not fit.
pub fn number_literal(value: i64) -> u64
    ensures { result ≡ unwrap_or (coded_in 60 value) 0 }
{
    coded_in(60, value).unwrap_or(0)
}

/// The word of a literal that is an item, 0 where that does not fit.
pub fn item_literal(item: &CountedItem) -> u64
    ensures { result ≡ literal_word (OfCountedItem item.now) }
{
    counted_item_in(60, item).unwrap_or(0)
}

/// The number that an item is in an expression: A where it has more than 10 characters.
pub fn item_number(item: &CountedItem) -> Result<u64, Letter>
    ensures { MatchResult result
        (λ number. (counted_item_form item.now ≡ Ok (absolute (pos number))) × (number < 2 ^ 60))
        (λ fault. counted_item_form item.now ≡ Err fault) }
{
    let characters = item.characters();
    if characters.len() > MOST_IN_NUMBER {
        return Err(Letter::A);
    }
    Ok(characters_number(characters))
}

/// The number that the codes of up to 10 characters make, six bits each.
pub fn characters_number(characters: &[u8]) -> u64
    requires { length characters.now ≤ 10 }
    ensures number { result ≡ characters_number characters.now }
    ensures small { result < 2 ^ 60 }
{
    let mut number = 0;
    for character in characters {
        number = number * 64 + code_of(*character);
    }
    number
}

/// An item that is all of a field of so many bits, up to 60. None where it has no room there.
pub fn counted_item_in(width: usize, item: &CountedItem) -> Option<u64>
    requires { width ≤ 60 }
    ensures { result ≡ counted_item_in width item.now }
{
    let places = width / CHARACTER_BITS;
    if item.bits_needed() > CHARACTER_BITS * places {
        return None;
    }
    let number = number_in_places(item, places, 0, places);
    if is_at_end(item.letter()) {
        Some(number)
    } else {
        Some(number << (width % CHARACTER_BITS))
    }
}

/// One of the words that an item takes in DATA, by its index.
pub fn counted_item_word(item: &CountedItem, kind: DeckKind, index: usize) -> u64
    requires { index < words_needed (word_bits kind) item.now }
    ensures { let words = words_needed (word_bits kind) item.now in
        result ≡ slice_index (cut (word_bits kind) words (counted_item_bits (words * word_bits kind) item.now)) index }
{
    let in_word = kind.word_bits() as usize / CHARACTER_BITS;
    let places = item.words_needed(kind) * in_word;
    number_in_places(item, places, index * in_word, in_word)
}

/// The number that some of an item's places make.
fn number_in_places(item: &CountedItem, places: usize, from: usize, count: usize) -> u64
    requires room { length item.now.characters ≤ places }
    requires within { from + count ≤ places }
    requires few { count ≤ 10 }
    requires small { places < 1000 }
    ensures { result ≡ characters_number (take count (drop from (in_places places item.now))) }
{
    let mut number = 0;
    for place in from..from + count {
        number = number * 64 + code_of(character_at(item, places, place));
    }
    number
}

/// The character at a place of an item's places.
fn character_at(item: &CountedItem, places: usize, place: usize) -> u8
    requires room { length item.now.characters ≤ places }
    requires within { place < places }
    ensures { result ≡ slice_index (in_places places item.now) place }
{
    let characters = item.characters();
    let letter = item.letter();
    let others = places - characters.len();
    if is_at_end(letter) {
        if place < others {
            filler(letter)
        } else {
            characters[place - others]
        }
    } else if place < characters.len() {
        characters[place]
    } else {
        filler(letter)
    }
}

/// Whether the characters of an item stand at the end of their field.
fn is_at_end(letter: ItemLetter) -> bool
    ensures { result ≡ is_at_end letter }
{
    matches!(letter, ItemLetter::A | ItemLetter::R)
}

/// The character that fills the places beside an item's: a blank, or the one of code 0 for zero bits.
fn filler(letter: ItemLetter) -> u8
    ensures { result ≡ filler letter }
{
    match letter {
        ItemLetter::H | ItemLetter::A => b' ',
        ItemLetter::L | ItemLetter::R | ItemLetter::C => b':',
    }
}

/// The display code of a character, 0 where it has none.
fn code_of(character: u8) -> u64
    ensures code { result ≡ unwrap_or (display_code_of character) 0 }
    ensures small { result < 64 }
{
    display_of(character).map_or(0, u64::from)
}
