//! The letters that flag a statement, once each in alphabetical order (ours).
ghost use Rattle.std.specs.Prelude.{◌≡◌, ◌∷◌, ◌++◌, ◌%◌, ◌^◌, ◌==◌, ◌≤◌, ◌+◌, [], List, length, if◌then◌else◌};
ghost use Rattle.definitions.specs.Letters.{letter_text, in_order};
ghost use Rattle.operations.specs.Joins.LetterBits.{is_flagged};

use definitions::{InlineText, Letter};
use std::marker::Model;

/// How many letters there are.
const LETTER_COUNT: usize = 9;

/// The letters in alphabetical order.
const LETTERS: [u8; LETTER_COUNT] = *b"ACDLORUVZ";

/// A set of letters. Contracts see their text, in alphabetical order.
#[derive(Drop)]
pub struct Letters {
    /// The bit of a letter has the number of its place in the alphabet.
    bits: u32,
}

impl Model for Letters {
    ghost use Rattle.std.specs.Prelude.{ℕ, List};

    ghost Value = { List ℕ };

    ghost use Rattle.operations.specs.Joins.LetterBits.{flagged};

    ghost view = { λ l. flagged l.bits };
}

/// Puts a character at the end of a text, where it is flagged.
fn push_if(text: &mut InlineText<LETTER_COUNT>, flagged: bool, character: u8)
    requires { length text.old + 1 ≤ 9 }
    ensures { text.new ≡ (if flagged then text.old ++ character ∷ [] else text.old) }
{
    if flagged {
        text.push(character);
    }
}

/// The character of a letter.
fn character_of(letter: Letter) -> u8
    ensures { result ∷ [] ≡ letter_text letter }
{
    match letter {
        Letter::A => b'A',
        Letter::C => b'C',
        Letter::D => b'D',
        Letter::L => b'L',
        Letter::O => b'O',
        Letter::R => b'R',
        Letter::U => b'U',
        Letter::V => b'V',
        Letter::Z => b'Z',
    }
}

/// The bit of a character.
fn bit_of(character: u8) -> u32
    ensures { result ≡ 2 ^ (character % 32) }
{
    1 << (character % 32)
}

/// Whether the bit of a character is among bits.
fn is_flagged(bits: u32, character: u8) -> bool
    ensures { result ≡ is_flagged bits character }
{
    bits >> (character % 32) & 1 == 1
}

impl Letters {
    /// No letter.
    pub fn none() -> Letters
        ensures { result ≡ in_order [] }
    {
        Letters { bits: 0 }
    }

    /// One letter.
    pub fn of(letter: Letter) -> Letters
        ensures { result ≡ in_order (letter ∷ []) }
    {
        Letters {
            bits: bit_of(character_of(letter)),
        }
    }

    /// The letters of both sets.
    pub fn union(&self, other: &Letters) -> Letters
        ensures { (letters others : List Letter) → self.now ≡ in_order letters → other.now ≡ in_order others →
            result ≡ in_order (letters ++ others) }
    {
        Letters {
            bits: self.bits | other.bits,
        }
    }

    /// These letters and one more.
    pub fn with(&self, letter: Letter) -> Letters
        ensures { (letters : List Letter) → self.now ≡ in_order letters → result ≡ in_order (letters ++ letter ∷ []) }
    {
        self.union(&Letters::of(letter))
    }

    /// The same letters.
    pub fn copied(&self) -> Letters
        ensures { result ≡ self.now }
    {
        Letters { bits: self.bits }
    }

    /// Their text.
    pub fn text(&self) -> InlineText<LETTER_COUNT>
        ensures { result ≡ self.now }
    {
        let mut text = InlineText::new();
        if self.bits == 0 {
            return text;
        }
        let mut left = LETTERS.as_slice();
        'letters: loop {
            match left.split_first() {
                None => return text,
                Some((character, behind)) => {
                    push_if(&mut text, is_flagged(self.bits, *character), *character);
                    left = behind;
                }
            }
        }
    }
}
