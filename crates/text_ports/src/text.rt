//! A text that grows in memory.
ghost use Rattle.std.specs.Prelude.{◌≡◌, ◌≤◌, ◌++◌, ◌∷◌, [], length, IfOk, OnOk, OnErr};
ghost use Rattle.definitions.specs.Numerals.{decimal_of, digits_of, octal_of};

use crate::digits::{decimal_text, octal_digits};
use crate::prepended_text::ShortText;
use itoa::Buffer;
use std::alloc::{AllocError, Global};
use std::marker::Model;

/// A text that grows in memory. Contracts see it as the list of its bytes. What does not get memory
/// leaves the text as it was.
#[derive(Drop)]
pub struct Text {
    bytes: Vec<u8>,
}

impl Model for Text {
    ghost use Rattle.std.specs.Prelude.{ℕ, List};

    ghost Value = { List ℕ };

    ghost view = { λ t. t.bytes.items };
}

impl Text {
    /// An empty text, which has no memory yet.
    pub fn new(alloc: Global) -> Text
        ensures { result ≡ [] }
    {
        Text {
            bytes: Vec::new(alloc),
        }
    }

    /// An empty text with memory for so many bytes.
    pub fn with_room(alloc: Global, bytes: usize) -> Result<Text, AllocError>
        ensures { IfOk result (λ text. text ≡ []) }
    {
        Ok(Text {
            bytes: Vec::with_capacity(alloc, bytes)?,
        })
    }

    /// Makes room for so many bytes more.
    pub(crate) fn reserve(&mut self, bytes: usize) -> Result<(), AllocError>
        ensures { self.new ≡ self.old }
    {
        self.bytes.reserve(bytes)
    }

    #[inline(always)]
    pub fn as_slice(&self) -> &[u8]
        ensures { result.now ≡ self.now }
    {
        self.bytes.as_slice()
    }

    /// How many bytes it has.
    pub fn len(&self) -> usize
        ensures { result ≡ length self.now }
    {
        self.bytes.len()
    }

    #[inline(always)]
    pub fn push_byte(&mut self, byte: u8) -> Result<(), AllocError>
        ensures ok { OnOk result (self.new ≡ self.old ++ byte ∷ []) }
        ensures err { OnErr result (self.new ≡ self.old) }
    {
        Ok(self.bytes.push(byte)?)
    }

    #[inline(always)]
    pub fn push_bytes(&mut self, bytes: &[u8]) -> Result<(), AllocError>
        ensures ok { OnOk result (self.new ≡ self.old ++ bytes.now) }
        ensures err { OnErr result (self.new ≡ self.old) }
    {
        self.bytes.extend_from_slice(bytes)
    }

    /// Appends a text. An empty one takes it over as it is, with its memory.
    pub fn append(&mut self, text: Text) -> Result<(), AllocError>
        ensures ok { OnOk result (self.new ≡ self.old ++ text) }
        ensures err { OnErr result (self.new ≡ self.old) }
    {
        if self.bytes.is_empty() {
            *self = text;
            return Ok(());
        }
        self.push_bytes(text.as_slice())
    }

    /// Appends the last `digits` octal digits of a value, leading zeros among them.
    #[inline(always)]
    pub fn push_octal(&mut self, digits: u32, value: u64) -> Result<(), AllocError>
        requires few { digits ≤ 20 }
        ensures ok { OnOk result (self.new ≡ self.old ++ octal_of digits value) }
        ensures err { OnErr result (self.new ≡ self.old) }
    {
        self.push_bytes(octal_digits(digits, value).as_slice())
    }

    /// Appends the last `digits` decimal digits of a value, leading zeros among them.
    pub fn push_padded(&mut self, digits: u32, value: u64) -> Result<(), AllocError>
        requires few { digits ≤ 20 }
        ensures ok { OnOk result (self.new ≡ self.old ++ digits_of 10 digits value) }
        ensures err { OnErr result (self.new ≡ self.old) }
    {
        let mut text = ShortText::new();
        text.put_padded(digits, value);
        self.push_bytes(text.as_slice())
    }

    /// Appends a number in decimal, without leading zeros.
    pub fn push_decimal(&mut self, number: u64) -> Result<(), AllocError>
        ensures ok { OnOk result (self.new ≡ self.old ++ decimal_of number) }
        ensures err { OnErr result (self.new ≡ self.old) }
    {
        let mut buffer = Buffer::new();
        self.push_bytes(decimal_text(&mut buffer, number))
    }
}
