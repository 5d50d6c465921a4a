//! Lines of the image.
ghost use Rattle.std.specs.Prelude.{◌≡◌, ◌+◌, ◌^◌, ◌++◌, ◌≤◌, codes, length, None, Some, nat_le, if◌then◌else◌};
ghost use Rattle.definitions.specs.Image.{word_line};
ghost use Rattle.definitions.specs.Kinds.{memory_end};
ghost use Rattle.definitions.specs.Listing.{line};
ghost use Rattle.definitions.specs.Numerals.{octal_of};
ghost use Rattle.deck_listing.specs.Joins.ImageWordLines.{equal_lines, octal_lines};

use crate::sheet::Sheet;
use definitions::DeckKind;
use text_ports::ShortText;

/// What is behind the address in the line of a word: its value in octal, with so many digits.
#[inline(always)]
fn line_end(digits: u32, value: u64) -> ShortText
    requires { digits ≤ 20 }
    ensures text { result ≡ codes " " ++ line (octal_of digits value) }
    ensures len { length result ≡ digits + 2 }
{
    let mut end = ShortText::new();
    end.put_byte(b'\n');
    end.put_octal(digits, value);
    end.put_byte(b' ');
    end
}

/// Appends an address in octal, with so many digits, and what is behind it.
#[inline(always)]
fn push_address(text: &mut Sheet, digits: u32, address: u64, end: &mut ShortText)
    requires { length end.old + digits ≤ 48 }
    ensures text { text.new ≡ text.old ++ (octal_of digits address ++ end.old) }
    ensures end { end.new ≡ end.old }
{
    end.put_octal(digits, address);
    text.put(end.as_slice());
    end.drop_front(digits);
}

/// Appends the lines of so many words of one value from an address on, in octal, with so many digits each.
#[inline(always)]
fn push_octal_lines(
    text: &mut Sheet,
    address_digits: u32,
    address: u64,
    count: u64,
    value_digits: u32,
    value: u64,
)
    requires short { address_digits ≤ 20 }
    requires few { value_digits ≤ 20 }
    requires within { address + count ≤ 2 ^ 64 }
    ensures { text.new ≡ text.old ++ octal_lines address_digits value_digits address count value }
{
    let mut end = line_end(value_digits, value);
    for index in 0..count {
        push_address(text, address_digits, address + index, &mut end);
    }
}

/// Appends the lines of so many words of one value from an address on, as `push_image_line` does each.
#[inline(always)]
pub(crate) fn push_image_lines(
    text: &mut Sheet,
    kind: DeckKind,
    address: u64,
    count: u64,
    value: u64,
)
    requires { address + count ≤ 2 ^ 64 }
    ensures { text.new ≡ text.old ++ equal_lines kind address count value }
{
    match kind {
        DeckKind::Rel | DeckKind::Abs => push_octal_lines(text, 6, address, count, 20, value),
        DeckKind::Periph => push_octal_lines(text, 4, address, count, 4, value),
    }
}

/// Appends the line of a stored word, its address and its value in octal.
pub fn push_image_line(text: &mut Sheet, kind: DeckKind, address: u64, value: u64)
    ensures { text.new ≡ text.old ++ word_line kind (record { address = address; value = value }) }
{
    push_image_lines(text, kind, address, 1, value);
}

/// The address of a word of a block, if it lies within the memory of the deck.
pub(crate) fn address_within(kind: DeckKind, base: u64, block: u64, offset: u64) -> Option<u64>
    ensures { result ≡ (if nat_le (memory_end kind) (base + block + offset) then None else Some (base + block + offset)) }
{
    let address = base.saturating_add(block).saturating_add(offset);
    if address < u64::from(kind.memory_end()) {
        Some(address)
    } else {
        None
    }
}
