//! A text that takes whatever is put to it.
ghost use Rattle.std.specs.Prelude.{◌≡◌, ◌≤◌, ◌++◌, [], IfOk};
ghost use Rattle.definitions.specs.Numerals.{decimal_of, octal_of};

use crate::digits::{decimal_text, octal_digits};
use crate::history::{History, Lost};
use crate::text::Text;
use itoa::Buffer;
use std::alloc::{AllocError, Global};
use std::marker::Model;

/// A text that takes all bytes that are put to it: what there is no memory for is left out, and reported at the
/// end. So whoever puts a text to it asks for no memory. Contracts see the list of all bytes that were
/// put.
#[derive(Drop)]
pub struct Piece {
    kept: Text,
    is_cut: bool,
    /// What is behind the kept bytes.
    lost: History,
}

impl Model for Piece {
    ghost use Rattle.std.specs.Prelude.{ℕ, ◌≡◌, ◌++◌, List, [], false};

    ghost Value = { List ℕ };

    ghost view = { λ p. p.kept ++ p.lost.bytes };

    ghost invariant = { λ p. p.is_cut ≡ false → p.lost.bytes ≡ [] };
}

impl Piece {
    /// No bytes, and no memory yet.
    pub fn new(alloc: Global) -> Piece
        ensures { result ≡ [] }
    {
        Piece {
            kept: Text::new(alloc),
            is_cut: false,
            lost: History::new(),
        }
    }

    /// Asks for memory for so many bytes more at once. Where there is none, the text is reported as cut.
    pub fn make_room(&mut self, bytes: usize)
        ensures { self.new ≡ self.old }
    {
        if !self.is_cut {
            match self.kept.reserve(bytes) {
                Ok(()) => {}
                Err(_) => self.is_cut = true,
            }
        }
    }

    /// Puts bytes behind the others.
    #[inline(always)]
    pub fn put(&mut self, bytes: &[u8])
        ensures { self.new ≡ self.old ++ bytes.now }
    {
        if !self.is_cut {
            match self.kept.push_bytes(bytes) {
                Ok(()) => return,
                Err(_) => self.is_cut = true,
            }
        }
        self.lost = self.lost.then(&Lost { bytes });
    }

    /// Puts the last `digits` octal digits of a value, leading zeros among them.
    #[inline(always)]
    pub fn put_octal(&mut self, digits: u32, value: u64)
        requires few { digits ≤ 20 }
        ensures text { self.new ≡ self.old ++ octal_of digits value }
    {
        self.put(octal_digits(digits, value).as_slice());
    }

    /// Puts a number in decimal, without leading zeros.
    pub fn put_decimal(&mut self, number: u64)
        ensures { self.new ≡ self.old ++ decimal_of number }
    {
        let mut buffer = Buffer::new();
        self.put(decimal_text(&mut buffer, number));
    }

    /// The text, where there was memory for all of it.
    pub fn into_text(self) -> Result<Text, AllocError>
        ensures { IfOk result (λ text. text ≡ self) }
    {
        if self.is_cut {
            return Err(AllocError);
        }
        Ok(self.kept)
    }
}
