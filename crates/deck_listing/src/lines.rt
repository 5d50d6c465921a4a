//! The lines of a listing, one function for each kind of line.
ghost use Rattle.std.specs.Prelude.{◌≡◌, ◌≤◌, ◌<◌, ◌+◌, ◌^◌, ◌++◌, codes, length, flat_map};
ghost use Rattle.definitions.specs.Kinds.{kind_text};
ghost use Rattle.definitions.specs.Listing.{block_line, card_lines, central_line, letters_line, line, peripheral_line};
ghost use Rattle.definitions.specs.Numerals.{decimal_of};

use crate::card_line::CardLine;
use crate::sheet::Sheet;
use cards::{Card, DeckName};
use definitions::DeckKind;
use operations::Letters;
use text_ports::ShortText;
use use_blocks::BlockRow;

/// The first line: the name and the kind of the deck.
pub(crate) fn push_deck_line(text: &mut Sheet, name: &DeckName, kind: DeckKind)
    ensures { text.new ≡ text.old ++ line (codes "DECK " ++ (name.now ++ (codes " " ++ kind_text kind))) }
{
    text.put(b"DECK ");
    text.put(name.as_slice());
    text.put(b" ");
    text.put(kind.text());
    text.put(b"\n");
}

/// Cards behind their numbers in the deck.
pub(crate) fn push_card_lines(text: &mut Sheet, next: &mut CardLine, cards: &[Card])
    requires { next.old + length cards.now < 2 ^ 60 }
    ensures text { text.new ≡ text.old ++ card_lines next.old cards.now }
    ensures next { next.new ≡ next.old + length cards.now }
{
    for card in cards {
        next.put(text, card.as_slice());
    }
}

/// The letters of a statement, where it has any.
pub(crate) fn push_letters_line(text: &mut Sheet, letters: &Letters)
    ensures { text.new ≡ text.old ++ letters_line letters.now }
{
    if letters.text().as_slice().is_empty() {
        return;
    }
    text.put(b"  ERR ");
    text.put(letters.text().as_slice());
    text.put(b"\n");
}

/// Bits that stand at a parcel of a central word, an octal digit for each three of them.
#[inline(always)]
pub(crate) fn push_central_line(text: &mut Sheet, word: u64, parcel: u64, width: u32, bits: u64)
    requires { width ≤ 60 }
    ensures { text.new ≡ text.old ++ central_line word parcel width bits }
{
    let mut line = ShortText::new();
    line.put_byte(b'\n');
    line.put_octal(width / 3, bits);
    line.put_byte(b' ');
    line.put_octal(1, parcel);
    line.put_byte(b' ');
    line.put_octal(6, word);
    line.put_byte(b' ');
    line.put_byte(b' ');
    text.put(line.as_slice());
}

/// A peripheral word behind its offset.
pub(crate) fn push_peripheral_line(text: &mut Sheet, word: u64, bits: u64)
    ensures { text.new ≡ text.old ++ peripheral_line word bits }
{
    text.put(b"  ");
    text.put_octal(4, word);
    text.put(b" ");
    text.put_octal(4, bits);
    text.put(b"\n");
}

/// A block with its base and its length in words.
fn push_block_line(text: &mut Sheet, row: &BlockRow)
    ensures { text.new ≡ text.old ++ block_line row.now }
{
    text.put(b"BLOCK ");
    text.put(row.name().as_slice());
    text.put(b" ");
    text.put_octal(8, row.base());
    text.put(b" ");
    text.put_octal(8, row.words() as u64);
    text.put(b"\n");
}

/// All blocks of a deck.
pub(crate) fn push_block_lines(text: &mut Sheet, rows: &[BlockRow])
    ensures { text.new ≡ text.old ++ flat_map block_line rows.now }
{
    for row in rows {
        push_block_line(text, row);
    }
}

/// The last line: how many statements have a letter.
pub(crate) fn push_errors_line(text: &mut Sheet, errors: u64)
    ensures { text.new ≡ text.old ++ line (codes "ERRORS " ++ decimal_of errors) }
{
    text.put(b"ERRORS ");
    text.put_decimal(errors);
    text.put(b"\n");
}
