//! Counted items where they are written: a count, one of H A L R C, and that many characters
//! (COMPASS 60492600, data items). The extent of a field and the pieces of an expression are both
//! known by them.
ghost use Rattle.std.specs.Prelude.{◌≡◌, ◌≤◌, ◌<◌, ◌+◌, ◌^◌, ℕ, false, None, min, length, option_map, IfSome};
ghost use Rattle.std.specs.List.{prefix_len};
ghost use Rattle.definitions.specs.Characters.{is_digit};
ghost use Rattle.definitions.specs.Numerals.{number_of};
ghost use Rattle.definitions.specs.CountedItems.{counted_item_at, counted_item_behind};
ghost use Rattle.definitions.specs.Laws.ItemTexts.{span_as};

use crate::item_letter::ItemLetter;
use crate::item_text::{ItemSpan, ItemText};

/// How many characters an item has at most, without its count and letter.
const MOST_CHARACTERS: usize = 100;

/// 0 to 9.
#[inline(always)]
pub fn is_digit(c: u8) -> bool
    ensures { result ≡ is_digit c }
{
    b'0' <= c && c <= b'9'
}

/// How many digits begin a text.
#[inline(always)]
pub fn digit_count(text: &[u8]) -> usize
    ensures count { result ≡ prefix_len is_digit text.now }
    ensures within { result ≤ length text.now }
{
    for (i, c) in text.iter().enumerate() {
        if !is_digit(*c) {
            return i;
        }
    }
    text.len()
}

/// The number that digits make, or 101 where it is greater.
#[inline(always)]
fn capped_number(digits: &[u8]) -> usize
    ensures { result ≡ min (number_of 10 digits.now) 101 }
{
    let mut number: usize = 0;
    for digit in digits {
        number = (number * 10 + usize::from(digit.saturating_sub(b'0'))).min(MOST_CHARACTERS + 1);
    }
    number
}

/// The item whose count of so many digits this text follows.
#[inline(always)]
fn item_behind(digits: usize, count: usize, text: &[u8]) -> Option<ItemSpan<'_>>
    requires { digits + length text.now < 2 ^ 64 }
    ensures item { option_map span_as result ≡ counted_item_behind digits count text.now }
    ensures some { IfSome result (λ span. 0 < span.taken) }
    ensures within { IfSome result (λ span. span.taken ≤ digits + length text.now) }
{
    let (c, rest) = text.split_first()?;
    let letter = ItemLetter::read(*c)?;
    if count < 1 || count > MOST_CHARACTERS || count > rest.len() {
        return None;
    }
    Some(ItemSpan {
        item: ItemText {
            letter,
            characters: rest.split_at(count).0,
        },
        taken: digits + 1 + count,
    })
}

/// Whether the letter of an item begins a text, so that the count before it is asked for.
#[inline(always)]
fn begins_with_letter(text: &[u8]) -> bool
    ensures { result ≡ false → (digits count : ℕ) → counted_item_behind digits count text.now ≡ None }
{
    match text.split_first() {
        None => false,
        Some((c, _)) => ItemLetter::read(*c).is_some(),
    }
}

/// The item that begins a text, if one does.
#[inline(always)]
pub fn item_at(text: &[u8]) -> Option<ItemSpan<'_>>
    ensures item { option_map span_as result ≡ counted_item_at text.now }
    ensures some { IfSome result (λ span. 0 < span.taken) }
    ensures within { IfSome result (λ span. span.taken ≤ length text.now) }
{
    let digits = digit_count(text);
    if digits == 0 {
        return None;
    }
    let (count, rest) = text.split_at(digits);
    if !begins_with_letter(rest) {
        return None;
    }
    item_behind(digits, capped_number(count), rest)
}
