//! Where a variable field ends: at the first blank that lies in no counted item.
ghost use Rattle.std.specs.Prelude.{◌≡◌, ℕ, ◌≤◌, ◌+◌, length, drop, is_some, false, None};
ghost use Rattle.definitions.specs.CountedItems.{counted_item_behind};
ghost use Rattle.definitions.specs.Pieces.{AtStart, AtEquals, Inside, field_at, mark_of};

use definitions::{digit_count, item_at};

/// The five marks that separate. No mark has a greater code than `/`, and most characters have.
fn is_mark(c: u8) -> bool
    ensures { result ≡ is_some (mark_of c) }
{
    c <= b'/' && (c == b',' || c == b'+' || c == b'-' || c == b'*' || c == b'/')
}

/// Whether the letter of an item may stand at a place of a text: no digit and no mark has as great a code.
#[inline(always)]
fn may_be_letter(text: &[u8], at: usize) -> bool
    ensures { result ≡ false → (digits count : ℕ) → counted_item_behind digits count (drop at text.now) ≡ None }
{
    if at >= text.len() {
        return false;
    }
    text[at] > b'9'
}

/// How many characters the counted item has that begins a text; where none does, how many digits.
#[inline(always)]
fn item_len(text: &[u8]) -> usize
    ensures within { result ≤ length text.now }
    ensures len { length (field_at AtEquals 0 text.now) ≡ result + length (field_at Inside 0 (drop result text.now)) }
{
    let digits = digit_count(text);
    if may_be_letter(text, digits) {
        match item_at(text) {
            Some(span) => return span.taken,
            None => {}
        }
    }
    digits
}

/// How many characters an equals sign and a counted item have that begin a text, or digits in its place.
#[inline(always)]
fn front_len(text: &[u8]) -> usize
    ensures within { result ≤ length text.now }
    ensures len { length (field_at AtStart 0 text.now) ≡ result + length (field_at Inside 0 (drop result text.now)) }
{
    match text.split_first() {
        Some((b'=', rest)) => 1 + item_len(rest),
        _ => item_len(text),
    }
}

/// How long the variable field is that begins a text.
pub(crate) fn variable_len(text: &[u8]) -> usize
    ensures len { result ≡ length (field_at AtStart 0 text.now) }
    ensures within { result ≤ length text.now }
{
    let mut len = front_len(text);
    while len < text.len() {
        let c = text[len];
        if is_mark(c) {
            len += 1 + front_len(text.split_at(len + 1).1);
        } else if c == b' ' {
            return len;
        } else {
            len += 1;
        }
    }
    len
}
