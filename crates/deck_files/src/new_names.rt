//! The names of files that a save writes first.
ghost use Rattle.std.specs.Prelude.{◌≡◌, ◌==◌, ◌≤◌, length, position};
ghost use Rattle.std.specs.List.{list_all};
ghost use Rattle.definitions.specs.Characters.{is_digit};
ghost use Rattle.deck_files.specs.NewNames.{are_numbers, is_behind_point, is_new_ending, is_new_tail, is_number, is_of_a_save, is_of_whole, point_in};

use crate::file_rows::deck_named;
use definitions::{is_digit, is_same_text};

/// Whether these are digits.
fn are_digits(text: &[u8]) -> bool
    ensures { result ≡ list_all is_digit text.now }
{
    text.iter().all(|c| is_digit(*c))
}

/// Whether these are digits, and at least one.
fn is_number(text: &[u8]) -> bool
    ensures { result ≡ is_number text.now }
{
    text.len() > 0 && are_digits(text)
}

/// Where the first point stands, if there is one.
fn first_point(text: &[u8]) -> Option<usize>
    ensures { result ≡ position (λ c. c == 46) text.now }
{
    text.iter().position(|c| *c == b'.')
}

/// Where the first point stands, and the end where there is none.
fn point_in(text: &[u8]) -> usize
    ensures place { result ≡ point_in text.now }
    ensures inside { result ≤ length text.now }
{
    match first_point(text) {
        Some(place) => place,
        None => text.len(),
    }
}

/// Whether a text is a point and a number.
fn is_behind_point(text: &[u8]) -> bool
    ensures { result ≡ is_behind_point text.now }
{
    let (point, number) = text.split_at(text.len().min(1));
    is_same_text(point, b".") && is_number(number)
}

/// Whether a text is two numbers with a point between.
fn are_numbers(text: &[u8]) -> bool
    ensures { result ≡ are_numbers text.now }
{
    let (shelf, tries) = text.split_at(point_in(text));
    is_number(shelf) && is_behind_point(tries)
}

/// Whether a text is `.NEW` and two numbers with a point between.
fn is_new_ending(text: &[u8]) -> bool
    ensures { result ≡ is_new_ending text.now }
{
    let (ending, numbers) = text.split_at(text.len().min(4));
    is_same_text(ending, b".NEW") && are_numbers(numbers)
}

/// Whether a file has the name of one that a save writes first: the deck's, `.NEW`, and two numbers with a
/// point between.
pub(crate) fn is_of_a_save(name: &[u8]) -> bool
    ensures { result ≡ is_of_a_save name.now }
{
    let (deck, ending) = name.split_at(point_in(name));
    deck_named(deck).is_some() && is_new_ending(ending)
}

/// Whether a text is `.NEW` and a number.
fn is_new_tail(text: &[u8]) -> bool
    ensures { result ≡ is_new_tail text.now }
{
    let (ending, number) = text.split_at(text.len().min(4));
    is_same_text(ending, b".NEW") && is_number(number)
}

/// Whether a file has the name of one that is written first where a file of this name is made anew whole: that
/// name, `.NEW`, and a number.
pub(crate) fn is_of_whole(name: &[u8], whole: &[u8]) -> bool
    ensures { result ≡ is_of_whole name.now whole.now }
{
    let (front, tail) = name.split_at(name.len().min(whole.len()));
    is_same_text(front, whole) && is_new_tail(tail)
}
