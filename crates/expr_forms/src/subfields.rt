//! A variable field cut into subfields at its commas, without a copy; a comma in a counted item
//! cuts nothing (COMPASS 60492600, subfields and data items).
ghost use Rattle.std.specs.Prelude.{◌≡◌, ◌≤◌, ◌+◌, ◌∷◌, [], length, drop, option_copied, IfNone, IfSome};
ghost use Rattle.definitions.specs.Pieces.{AtStart, AtEquals, Inside, pieces_of, subfields_of};
ghost use Rattle.expr_forms.specs.Joins.Subfields.{subfield_len, len_to_mark, text_behind};

use crate::pieces::run_len;
use definitions::item_at;
use std::marker::Model;

/// The subfields of a variable field that are left, from left to right; a field without a comma is
/// one subfield. Contracts see the list of the pieces of each.
#[derive(Drop)]
pub struct Subfields<'a> {
    pub(crate) rest: Option<&'a [u8]>,
}

impl<'a> Model for Subfields<'a> {
    ghost use Rattle.std.specs.Prelude.{List, ◌≤◌, length, option_copied, IfSome};
    ghost use Rattle.definitions.specs.Pieces.{Piece};

    ghost Value = { List (List Piece) };

    ghost use Rattle.expr_forms.specs.Joins.Subfields.{subfields_left};

    ghost view = { λ s. subfields_left (option_copied s.rest) };

    ghost invariant = { λ s. IfSome s.rest (λ text. length text.now ≤ 711) };
}

/// How long the item is that begins a text where no literal begins; 0 where none does.
#[inline(always)]
fn item_len(text: &[u8]) -> usize
    ensures len { subfield_len AtEquals 0 text.now ≡ result + subfield_len Inside 0 (drop result text.now) }
    ensures within { result ≤ length text.now }
{
    match item_at(text) {
        Some(span) => span.taken,
        None => 0,
    }
}

/// How long the item and the run are that stand in front of the next mark, where no literal begins.
#[inline(always)]
fn unmarked_len(text: &[u8]) -> usize
    ensures len { subfield_len AtEquals 0 text.now ≡ result + len_to_mark (drop result text.now) }
    ensures within { result ≤ length text.now }
{
    let taken = item_len(text);
    taken + run_len(text.split_at(taken).1)
}

/// How long a part of a field is up to the next mark; an equals sign in front begins a literal.
#[inline(always)]
fn part_len(text: &[u8]) -> usize
    ensures len { subfield_len AtStart 0 text.now ≡ result + len_to_mark (drop result text.now) }
    ensures within { result ≤ length text.now }
{
    match text.split_first() {
        None => 0,
        Some((c, behind)) => {
            if *c == b'=' {
                1 + unmarked_len(behind)
            } else {
                unmarked_len(text)
            }
        }
    }
}

/// How long the first subfield of a field is.
fn first_len(text: &[u8]) -> usize
    ensures len { result ≡ subfield_len AtStart 0 text.now }
    ensures within { result ≤ length text.now }
{
    let mut rest = text;
    'parts: loop {
        let behind = rest.split_at(part_len(rest)).1;
        match behind.split_first() {
            None => return text.len(),
            Some((c, more)) => {
                if *c == b',' {
                    return text.len() - behind.len();
                }
                rest = more;
            }
        }
    }
}

/// What stands behind the comma that begins a text, if one does.
fn behind_comma(text: &[u8]) -> Option<&[u8]>
    ensures rest { option_copied result ≡ text_behind text.now }
    ensures within { IfSome result (λ rest. length rest.now ≤ length text.now) }
{
    Some(text.split_first()?.1)
}

impl<'a> Subfields<'a> {
    /// The subfields of a variable field of at most 711 characters.
    pub fn new(text: &'a [u8]) -> Subfields<'a>
        requires { length text.now ≤ 711 }
        ensures { result ≡ subfields_of (pieces_of text.now) }
    {
        Subfields { rest: Some(text) }
    }

    /// The text of the next subfield, if one is left.
    pub fn next(&mut self) -> Option<&'a [u8]>
        ensures none { IfNone result ((self.old ≡ []) × (self.new ≡ [])) }
        ensures some { IfSome result (λ text. self.old ≡ pieces_of text.now ∷ self.new) }
        ensures short { IfSome result (λ text. length text.now ≤ 711) }
    {
        match self.rest {
            None => None,
            Some(text) => {
                let (first, behind) = text.split_at(first_len(text));
                self.rest = behind_comma(behind);
                Some(first)
            }
        }
    }

    /// The same subfields, to go over them once more.
    pub fn copied(&self) -> Subfields<'a>
        ensures { result ≡ self.now }
    {
        Subfields { rest: self.rest }
    }
}
