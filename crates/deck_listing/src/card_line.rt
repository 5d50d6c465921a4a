//! The line of a card in a listing, with the number of the card in its deck.
ghost use Rattle.std.specs.Prelude.{ℕ, ◌≡◌, ◌≤◌, ◌<◌, ◌+◌, ◌^◌, ◌++◌, [], ◌∷◌, length};
ghost use Rattle.definitions.specs.Listing.{card_lines};
ghost use Rattle.definitions.specs.Numerals.{digits_of};

use crate::sheet::Sheet;
use std::marker::Model;

/// How long the line of a card is at most.
const MOST: usize = 88;

/// The line of a card, whose number stands there as its last five digits and is counted up. Contracts see how
/// many cards stand before it.
#[derive(Drop)]
pub(crate) struct CardLine {
    before: usize,
    bytes: [u8; MOST],
}

impl Model for CardLine {
    ghost use Rattle.std.specs.Prelude.{ℕ, ◌≡◌, ◌+◌, ◌++◌, take, codes};
    ghost use Rattle.definitions.specs.Numerals.{digits_of};

    ghost Value = { ℕ };

    ghost view = { λ l. l.before };

    ghost invariant = { λ l. take 6 l.bytes ≡ digits_of 10 5 (l.before + 1) ++ codes " " };
}

/// Adds one to a number of as many decimal digits as there are; behind the greatest comes 0.
fn add_one(digits: &mut [u8])
    ensures { (number : ℕ) → digits.old ≡ digits_of 10 (length digits.old) number → digits.new ≡ digits_of 10 (length digits.old) (number + 1) }
{
    if let Some((last, front)) = digits.split_last_mut() {
        if *last < b'9' {
            *last += 1;
        } else {
            *last = b'0';
            add_one(front);
        }
    }
}

impl CardLine {
    /// That of the first card.
    pub(crate) fn first() -> CardLine
        ensures { result ≡ 0 }
    {
        let mut bytes = [b' '; MOST];
        bytes[..5].copy_from_slice(b"00001");
        CardLine { before: 0, bytes }
    }

    /// Puts the line with the columns of the card to a text; the line of the card behind it is next.
    pub(crate) fn put(&mut self, text: &mut Sheet, columns: &[u8])
        requires few { self.old < 2 ^ 60 }
        requires short { length columns.now ≤ 80 }
        ensures text { text.new ≡ text.old ++ card_lines self.old (columns.now ∷ []) }
        ensures next { self.new ≡ self.old + 1 }
    {
        let end = 6 + columns.len();
        self.bytes[6..end].copy_from_slice(columns);
        self.bytes[end] = b'\n';
        text.put(&self.bytes[..end + 1]);
        add_one(&mut self.bytes[..5]);
        self.before += 1;
    }
}
