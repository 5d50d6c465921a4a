//! The variable field of DIS: a count of words, and the characters that fill them (COMPASS 60492600,
//! DIS).
ghost use Rattle.std.specs.Prelude.{◌≡◌, ◌≤◌, ◌<◌, ◌==◌, not, length, slice_index, option_map, IfSome, MatchResult};
ghost use Rattle.std.specs.List.{prefix_len};
ghost use Rattle.definitions.specs.Characters.{comma};
ghost use Rattle.definitions.specs.Operands.{TextOperand, BadOperand, count_read, word_characters, dis_operand};
ghost use Rattle.definitions.specs.declared.letter.Letter.TheVariants as letter;
ghost use Rattle.expr_forms.specs.Joins.Numbers.{number_as};

use crate::numbers::{Number, number_read};
use definitions::{DeckKind, Letter, NumberBase};
use std::marker::Model;

/// How many words a DIS has at most.
const MOST_WORDS: u64 = 100;

/// How many bits a character has.
const CHARACTER_BITS: usize = 6;

/// The characters of a DIS, with blanks where its text ends, and the count of their words. Contracts
/// see both.
#[derive(Drop)]
pub struct DisText<'a> {
    words: usize,
    places: usize,
    text: &'a [u8],
}

impl<'a> Model for DisText<'a> {
    ghost use Rattle.expr_forms.specs.Joins.TextWords.{TextWords};

    ghost Value = { TextWords };

    ghost use Rattle.std.specs.Prelude.{◌≤◌};
    ghost use Rattle.expr_forms.specs.Joins.TextWords.{filled_text};

    ghost view = { λ d. record { words = d.words; characters = filled_text d.places d.text.now } };

    ghost invariant = { λ d. (1 ≤ d.words) × (d.words ≤ 100) };
}

/// A count from 1 to the greatest that is allowed, if the number is one.
pub(crate) fn count_read(most: u64, number: Option<Number>) -> Option<u64>
    ensures count { result ≡ count_read most (option_map number_as number) }
    ensures some { IfSome result (λ count. 1 ≤ count) }
    ensures most { IfSome result (λ count. count ≤ most) }
{
    match number? {
        Number::Value(size) if 1 <= size.value && size.value <= most => Some(size.value),
        _ => None,
    }
}

fn word_characters(kind: DeckKind) -> usize
    ensures characters { result ≡ word_characters kind }
    ensures few { result ≤ 10 }
{
    kind.word_bits() as usize / CHARACTER_BITS
}

/// How many characters stand before the first comma.
fn count_len(text: &[u8]) -> usize
    ensures len { result ≡ prefix_len (λ c. not (c == comma)) text.now }
    ensures within { result ≤ length text.now }
{
    for (k, c) in text.iter().enumerate() {
        if *c == b',' {
            return k;
        }
    }
    text.len()
}

/// The text of a DIS in a deck of this kind: V without a comma, or without a count from 1 to 100
/// before it.
pub fn dis_text(text: &[u8], base: NumberBase, kind: DeckKind) -> Result<DisText<'_>, Letter>
    ensures { MatchResult result
        (λ dis. dis_operand kind base text.now ≡ TextOperand dis.words dis.characters)
        (λ fault. (fault ≡ letter.V) × (dis_operand kind base text.now ≡ BadOperand)) }
{
    let len = count_len(text);
    if len == text.len() {
        return Err(Letter::V);
    }
    let count = count_read(MOST_WORDS, number_read(base, text.split_at(len).0));
    let words = count.ok_or(Letter::V)? as usize;
    Ok(DisText {
        words,
        places: words * word_characters(kind),
        text: text.split_at(len + 1).1,
    })
}

impl<'a> DisText<'a> {
    /// How many words it fills, 1 to 100.
    pub fn words(&self) -> usize
        ensures words { result ≡ self.now.words }
        ensures some { 1 ≤ result }
        ensures few { result ≤ 100 }
    {
        self.words
    }

    /// How many characters its words have.
    pub fn len(&self) -> usize
        ensures { result ≡ length self.now.characters }
    {
        self.places
    }

    /// One of its characters, from 0 on.
    pub fn character(&self, index: usize) -> u8
        requires { index < length self.now.characters }
        ensures { result ≡ slice_index self.now.characters index }
    {
        if index < self.text.len() {
            self.text[index]
        } else {
            b' '
        }
    }
}
