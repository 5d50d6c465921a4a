//! A text with LINK lines, and how many of them it has.
ghost use Rattle.std.specs.Prelude.{◌≡◌, ◌≤◌, ◌<◌, ◌++◌, ◌∷◌, [], codes, length, OnOk};
ghost use Rattle.definitions.specs.LinkLines.{link_line};
ghost use Rattle.definitions.specs.Numerals.{octal_of};
ghost use Rattle.deck_linker.specs.Joins.Lines.{with_line};

use std::alloc::AllocError;
use std::marker::Model;
use text_ports::Text;

/// A text that LINK lines are written to, and how many of them were. Contracts see both.
#[derive(Drop)]
pub(crate) struct LinkText {
    text: Text,
    lines: usize,
}

impl Model for LinkText {
    ghost use Rattle.std.specs.Prelude.{◌≤◌, length};
    ghost use Rattle.deck_linker.specs.Joins.Lines.{Written};

    ghost Value = { Written };

    ghost view = { λ t. record { text = t.text; lines = t.lines } };

    ghost invariant = { λ t. t.lines ≤ length t.text };
}

/// Writes the front of a LINK line: its letter and its deck.
fn write_front(text: &mut Text, letter: u8, deck: &[u8]) -> Result<(), AllocError>
    ensures front { OnOk result (text.new ≡ text.old ++ (codes "LINK " ++ (letter ∷ [] ++ (codes " " ++ deck.now)))) }
    ensures longer { length text.old ≤ length text.new }
{
    text.push_bytes(b"LINK ")?;
    text.push_byte(letter)?;
    text.push_byte(b' ')?;
    text.push_bytes(deck)
}

/// Writes a line that shows no more than its deck.
fn write_short(text: &mut Text, letter: u8, deck: &[u8]) -> Result<(), AllocError>
    ensures line { OnOk result (text.new ≡ text.old ++ link_line (letter ∷ []) deck.now []) }
    ensures counted { OnOk result (length text.old < length text.new) }
    ensures longer { length text.old ≤ length text.new }
{
    write_front(text, letter, deck)?;
    text.push_byte(b'\n')
}

/// Writes a line that shows a name.
fn write_name(text: &mut Text, letter: u8, deck: &[u8], name: &[u8]) -> Result<(), AllocError>
    ensures line { OnOk result (text.new ≡ text.old ++ link_line (letter ∷ []) deck.now (codes " " ++ name.now)) }
    ensures counted { OnOk result (length text.old < length text.new) }
    ensures longer { length text.old ≤ length text.new }
{
    write_front(text, letter, deck)?;
    text.push_byte(b' ')?;
    text.push_bytes(name)?;
    text.push_byte(b'\n')
}

/// What the last 8 octal digits of an address say.
fn last_digits(address: u128) -> u64
    ensures { octal_of 8 result ≡ octal_of 8 address }
{
    (address % 0o100000000) as u64
}

/// Writes a line that shows an address, in 8 octal digits.
fn write_address(text: &mut Text, letter: u8, deck: &[u8], address: u128) -> Result<(), AllocError>
    ensures line { OnOk result (text.new ≡ text.old ++ link_line (letter ∷ []) deck.now (codes " " ++ octal_of 8 address)) }
    ensures counted { OnOk result (length text.old < length text.new) }
    ensures longer { length text.old ≤ length text.new }
{
    write_front(text, letter, deck)?;
    text.push_byte(b' ')?;
    text.push_octal(8, last_digits(address))?;
    text.push_byte(b'\n')
}

impl LinkText {
    /// A text without LINK lines so far.
    pub(crate) fn new(text: Text) -> LinkText
        ensures { result ≡ record { text = text; lines = 0 } }
    {
        LinkText { text, lines: 0 }
    }

    /// The text.
    pub(crate) fn into_text(self) -> Text
        ensures { result ≡ self.text }
    {
        self.text
    }

    /// How many LINK lines were written.
    pub(crate) fn lines(&self) -> usize
        ensures { result ≡ self.now.lines }
    {
        self.lines
    }

    /// Writes a line that shows no more than its deck.
    pub(crate) fn push_short(&mut self, letter: u8, deck: &[u8]) -> Result<(), AllocError>
        ensures { OnOk result (self.new ≡ with_line self.old (link_line (letter ∷ []) deck.now [])) }
    {
        write_short(&mut self.text, letter, deck)?;
        let _len = self.text.len();
        self.lines += 1;
        Ok(())
    }

    /// Writes a line that shows a name.
    pub(crate) fn push_name(
        &mut self,
        letter: u8,
        deck: &[u8],
        name: &[u8],
    ) -> Result<(), AllocError>
        ensures { OnOk result (self.new ≡ with_line self.old (link_line (letter ∷ []) deck.now (codes " " ++ name.now))) }
    {
        write_name(&mut self.text, letter, deck, name)?;
        let _len = self.text.len();
        self.lines += 1;
        Ok(())
    }

    /// Writes a line that shows an address.
    pub(crate) fn push_address(
        &mut self,
        letter: u8,
        deck: &[u8],
        address: u128,
    ) -> Result<(), AllocError>
        ensures { OnOk result (self.new ≡ with_line self.old (link_line (letter ∷ []) deck.now (codes " " ++ octal_of 8 address))) }
    {
        write_address(&mut self.text, letter, deck, address)?;
        let _len = self.text.len();
        self.lines += 1;
        Ok(())
    }
}
