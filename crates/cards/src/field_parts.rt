//! Where the fields lie in the text of a statement.
ghost use Rattle.std.specs.Prelude.{◌≡◌, ◌==◌, ◌≤◌, ◌+◌, not, length, drop, codes};
ghost use Rattle.std.specs.List.{prefix_len};
ghost use Rattle.definitions.specs.Characters.{blank, same_text};
ghost use Rattle.definitions.specs.Fields.{unbroken_front, without_blanks, from_location, variable_of, fields_of_text};
ghost use Rattle.cards.specs.Joins.FieldParts.{part_of, fields_at, AreWithin, in_time};

use crate::variable_fields::variable_len;

/// How many columns stand before the first column in which no field may begin.
const FIELDS_BEGIN_BEFORE: usize = 29;

/// A part of a text: `len` characters behind the first `start`.
#[derive(Clone, Copy)]
pub(crate) struct Part {
    pub(crate) start: usize,
    pub(crate) len: usize,
}

/// Where the three fields of a statement lie in its text.
#[derive(Clone, Copy)]
pub(crate) struct Parts {
    pub(crate) location: Part,
    pub(crate) operation: Part,
    pub(crate) variable: Part,
}

/// The characters of a part.
pub(crate) fn part_text(text: &[u8], place: Part) -> &[u8]
    requires { place.start + place.len ≤ length text.now }
    ensures { result.now ≡ part_of text.now place }
{
    text.split_at(place.start).1.split_at(place.len).0
}

/// How many characters that are not blank begin a text.
fn word_len(text: &[u8]) -> usize
    ensures len { result ≡ prefix_len (λ c. not (c == blank)) text.now }
    ensures within { result ≤ length text.now }
{
    for (i, c) in text.iter().enumerate() {
        if *c == b' ' {
            return i;
        }
    }
    text.len()
}

/// How many blanks begin a text.
fn blanks_len(text: &[u8]) -> usize
    ensures len { result ≡ prefix_len (λ c. c == blank) text.now }
    ensures within { result ≤ length text.now }
{
    for (i, c) in text.iter().enumerate() {
        if *c != b' ' {
            return i;
        }
    }
    text.len()
}

/// The word that begins behind so many characters.
fn word_at(text: &[u8], start: usize) -> Part
    requires { start ≤ length text.now }
    ensures same { result.start ≡ start }
    ensures within { result.start + result.len ≤ length text.now }
    ensures len { result.len ≡ length (unbroken_front (drop start text.now)) }
    ensures word { part_of text.now result ≡ unbroken_front (drop start text.now) }
{
    Part {
        start,
        len: word_len(text.split_at(start).1),
    }
}

/// A location field may begin in column 1 or 2: how many characters stand before it.
fn location_start(text: &[u8]) -> usize
    ensures within { result ≤ length text.now }
    ensures start { drop result text.now ≡ from_location text.now }
{
    match text.split_first() {
        Some((b' ', _)) => 1,
        _ => 0,
    }
}

/// How many characters stand before the field that follows the first `end`: all of them, where the
/// field would begin in column 30 or behind it.
fn start_behind(text: &[u8], end: usize) -> usize
    requires { end ≤ length text.now }
    ensures within { result ≤ length text.now }
    ensures start { drop result text.now ≡ in_time text.now (without_blanks (drop end text.now)) }
{
    let start = end + blanks_len(text.split_at(end).1);
    if start < FIELDS_BEGIN_BEFORE {
        start
    } else {
        text.len()
    }
}

fn is_dis(operation: &[u8]) -> bool
    ensures { result ≡ same_text operation.now (codes "DIS") }
{
    operation == b"DIS".as_slice()
}

/// The variable field that begins behind so many characters; DIS takes the rest of the text.
fn variable_at(text: &[u8], operation: &[u8], start: usize) -> Part
    requires { start ≤ length text.now }
    ensures within { result.start + result.len ≤ length text.now }
    ensures field { part_of text.now result ≡ variable_of operation.now (drop start text.now) }
{
    let rest = text.split_at(start).1;
    Part {
        start,
        len: if is_dis(operation) {
            rest.len()
        } else {
            variable_len(rest)
        },
    }
}

/// The parts of a text that are its fields.
pub(crate) fn cut(text: &[u8]) -> Parts
    ensures within { AreWithin (length text.now) result }
    ensures fields { fields_at text.now result ≡ fields_of_text text.now }
{
    let location = word_at(text, location_start(text));
    let operation = word_at(text, start_behind(text, location.start + location.len));
    let behind = start_behind(text, operation.start + operation.len);
    let variable = variable_at(text, part_text(text, operation), behind);
    Parts {
        location,
        operation,
        variable,
    }
}
