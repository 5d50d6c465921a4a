//! A text that lines are put to.
ghost use Rattle.std.specs.Prelude.{◌≡◌, ◌≤◌, ◌++◌, ◌∷◌, [], length, IfOk};
ghost use Rattle.definitions.specs.Numerals.{decimal_of, octal_of};
ghost use Rattle.deck_listing.specs.Joins.Sheets.{room_of, text_of};

use std::alloc::{AllocError, Global};
use std::marker::Model;
use text_ports::{Piece, ShortText, Text};

/// A text that takes all bytes that are put to it, so whoever puts a text to it asks for no memory. What
/// does not fit in the room that was asked for at first grows behind it; what there is no memory for is
/// left out, and reported at the end. Contracts see the room, and then all bytes that were put.
#[derive(Drop)]
pub struct Sheet {
    room: usize,
    /// What lies in the room.
    held: Vec<u8>,
    /// Whether more was put than there is room for.
    is_over: bool,
    /// What is behind the held bytes.
    over: Piece,
}

impl Model for Sheet {
    ghost use Rattle.std.specs.Prelude.{ℕ, List, ◌++◌, ◌∷◌, vec_capacity};
    ghost use Rattle.deck_listing.specs.Joins.Sheets.{IsSheet};

    ghost Value = { List ℕ };

    ghost view = { λ s. s.room ∷ (s.held.items ++ s.over) };

    ghost invariant = { λ s. IsSheet s.room (vec_capacity s.held) s.held.items s.is_over s.over };
}

/// A number in decimal, without leading zeros.
fn decimal(number: u64) -> ShortText
    ensures { result ≡ decimal_of number }
{
    let mut text = ShortText::new();
    let mut rest = number;
    while rest >= 10 {
        text.put_byte(b'0' + (rest % 10) as u8);
        rest /= 10;
    }
    text.put_byte(b'0' + rest as u8);
    text
}

impl Sheet {
    /// No bytes, and no memory yet.
    pub fn new(alloc: Global) -> Sheet
        ensures { result ≡ 0 ∷ [] }
    {
        Sheet {
            room: 0,
            held: Vec::new(alloc),
            is_over: false,
            over: Piece::new(alloc),
        }
    }

    /// No bytes, and room for so many.
    pub fn with_room(alloc: Global, room: usize) -> Result<Sheet, AllocError>
        ensures { IfOk result (λ sheet. sheet ≡ room ∷ []) }
    {
        Ok(Sheet {
            room,
            held: Vec::with_capacity(alloc, room)?,
            is_over: false,
            over: Piece::new(alloc),
        })
    }

    /// Asks for memory for so many bytes more at once, where the text grows.
    pub fn make_room(&mut self, bytes: usize)
        ensures { self.new ≡ self.old }
    {
        if self.room == 0 {
            self.over.make_room(bytes);
        }
    }

    /// Puts bytes behind the others.
    #[inline(always)]
    pub fn put(&mut self, bytes: &[u8])
        ensures { self.new ≡ self.old ++ bytes.now }
    {
        if !self.is_over {
            if bytes.len() <= self.room - self.held.len() {
                if let Ok(()) = self.held.extend_from_slice(bytes) {
                    return;
                }
            }
            self.is_over = true;
        }
        self.over.put(bytes);
    }

    /// Puts the last `digits` octal digits of a value, leading zeros among them.
    #[inline(always)]
    pub fn put_octal(&mut self, digits: u32, value: u64)
        requires few { digits ≤ 20 }
        ensures text { self.new ≡ self.old ++ octal_of digits value }
    {
        let mut text = ShortText::new();
        text.put_octal(digits, value);
        self.put(text.as_slice());
    }

    /// Puts a number in decimal, without leading zeros.
    pub fn put_decimal(&mut self, number: u64)
        ensures { self.new ≡ self.old ++ decimal_of number }
    {
        self.put(decimal(number).as_slice());
    }

    /// Begins a new text in the same room, where the one before did not need more.
    pub fn clear(&mut self)
        requires { length (text_of self.old) ≤ room_of self.old }
        ensures { self.new ≡ room_of self.old ∷ [] }
    {
        self.held.clear();
    }

    /// The text, where it needed no more than the room.
    pub fn as_slice(&self) -> &[u8]
        requires { length (text_of self.now) ≤ room_of self.now }
        ensures { result.now ≡ text_of self.now }
    {
        self.held.as_slice()
    }

    /// The text that grew, where there was memory for all of it.
    pub fn into_text(self) -> Result<Text, AllocError>
        requires { room_of self ≡ 0 }
        ensures { IfOk result (λ text. text ≡ text_of self) }
    {
        self.over.into_text()
    }
}
