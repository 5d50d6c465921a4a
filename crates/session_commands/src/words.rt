//! Words of a line, between single blanks, and the numbers that they spell. The rest of a line is
//! nothing, or begins with the blank behind a word.
ghost use Rattle.std.specs.Prelude.{◌≡◌, ◌==◌, ◌≤◌, ◌+◌, ◌*◌, ◌-◌, min, not, drop, length, option_map};
ghost use Rattle.std.specs.List.{list_all, prefix_len};
ghost use Rattle.definitions.specs.Characters.{blank, is_digit};
ghost use Rattle.definitions.specs.Fields.{unbroken_front};
ghost use Rattle.definitions.specs.Numerals.{number_of};
ghost use Rattle.session_commands.specs.Words.{from_blank, first_word, behind_word, number_in, seen_in, first_seen, first_number, greatest_number};

use definitions::is_same_text;

/// The greatest number in a line.
const GREATEST_NUMBER: u64 = 1 << 62;

/// How many digits a number has at most.
const MOST_DIGITS: usize = 19;

/// How many characters stand before the first blank.
fn word_len(text: &[u8]) -> usize
    ensures len { result ≡ prefix_len (λ c. not (c == blank)) text.now }
    ensures within { result ≤ length text.now }
{
    for (i, c) in text.iter().enumerate() {
        if *c == b' ' {
            return i;
        }
    }
    text.len()
}

/// A text up to its first blank.
pub fn to_blank(text: &[u8]) -> &[u8]
    ensures { result.now ≡ unbroken_front text.now }
{
    text.split_at(word_len(text)).0
}

/// A text from its first blank on.
pub fn from_blank(text: &[u8]) -> &[u8]
    ensures { result.now ≡ from_blank text.now }
{
    text.split_at(word_len(text)).1
}

/// What stands behind the blank that begins a rest.
pub fn behind_blank(rest: &[u8]) -> &[u8]
    ensures { result.now ≡ drop 1 rest.now }
{
    match rest.split_first() {
        Some((_, text)) => text,
        None => rest,
    }
}

/// The word behind the blank that begins a rest: none where nothing stands there, or one blank more.
pub fn first_word(rest: &[u8]) -> Option<&[u8]>
    ensures { option_map (λ word. word.now) result ≡ first_word rest.now }
{
    let word = to_blank(behind_blank(rest));
    if word.is_empty() {
        return None;
    }
    Some(word)
}

/// The rest behind that word.
pub fn behind_word(rest: &[u8]) -> &[u8]
    ensures { result.now ≡ behind_word rest.now }
{
    from_blank(behind_blank(rest))
}

fn are_digits(word: &[u8]) -> bool
    ensures { result ≡ list_all is_digit word.now }
{
    word.iter().all(|c| c.is_ascii_digit())
}

/// The number that digits make and one digit behind them, or one above the greatest where it is
/// greater.
fn with_digit(value: u64, digit: u8) -> u64
    ensures { result ≡ min (value * 10 + (digit - 48)) (greatest_number + 1) }
{
    let digit = u64::from(digit.saturating_sub(b'0'));
    value
        .saturating_mul(10)
        .saturating_add(digit)
        .min(GREATEST_NUMBER + 1)
}

/// The number that digits make, or one above the greatest where it is greater.
fn capped_number(digits: &[u8]) -> u64
    ensures { result ≡ min (number_of 10 digits.now) (greatest_number + 1) }
{
    let mut value = 0;
    for digit in digits {
        value = with_digit(value, *digit);
    }
    value
}

/// The number that a word spells, if it spells one: 1 to 19 decimal digits, leading zeros among
/// them, and at most 2^62.
pub(crate) fn number_in(word: &[u8]) -> Option<u64>
    ensures { result ≡ number_in word.now }
{
    if word.is_empty() || word.len() > MOST_DIGITS || !are_digits(word) {
        return None;
    }
    let number = capped_number(word);
    if number > GREATEST_NUMBER {
        return None;
    }
    Some(number)
}

/// The version of a deck that was seen.
#[derive(Clone, Copy)]
pub enum Seen {
    /// The deck has to have this version.
    Exactly(u64),
    /// The deck may have changed since.
    Since(u64),
}

/// The version that a word shows: a number, or one with a plus behind it where the deck may have changed
/// since.
fn seen_in(word: &[u8]) -> Option<Seen>
    ensures { result ≡ seen_in word.now }
{
    let (number, last) = word.split_at(word.len().saturating_sub(1));
    if is_same_text(last, b"+") {
        return Some(Seen::Since(number_in(number)?));
    }
    Some(Seen::Exactly(number_in(word)?))
}

/// The version behind the blank that begins a rest.
pub(crate) fn first_seen(rest: &[u8]) -> Option<Seen>
    ensures { result ≡ first_seen rest.now }
{
    seen_in(first_word(rest)?)
}

/// The number behind the blank that begins a rest.
pub fn first_number(rest: &[u8]) -> Option<u64>
    ensures { result ≡ first_number rest.now }
{
    number_in(first_word(rest)?)
}
