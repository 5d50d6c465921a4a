//! The letter of a counted item, which says where its characters stand and what fills the places
//! beside them (COMPASS 60492600, data items).
ghost use Rattle.std.specs.Prelude.{◌≡◌, ◌≤◌};
ghost use Rattle.definitions.specs.CountedItems.{item_letter_of, zero_bits};

/// The letter of a counted item.
#[derive(Clone, Copy, Debug)]
pub enum ItemLetter {
    /// Left justified, filled with blanks.
    H,
    /// Right justified, filled with blanks.
    A,
    /// Left justified, filled with zero bits.
    L,
    /// Right justified, filled with zero bits.
    R,
    /// Left justified, filled with zero bits, of which there are 12 at least.
    C,
}

impl ItemLetter {
    /// The letter that a character is, if it is one of the five.
    #[inline(always)]
    pub fn read(character: u8) -> Option<ItemLetter>
        ensures { result ≡ item_letter_of character }
    {
        match character {
            b'H' => Some(ItemLetter::H),
            b'A' => Some(ItemLetter::A),
            b'L' => Some(ItemLetter::L),
            b'R' => Some(ItemLetter::R),
            b'C' => Some(ItemLetter::C),
            _ => None,
        }
    }

    /// How many zero bits stand behind an item at least.
    #[inline(always)]
    pub fn zero_bits(self) -> usize
        ensures bits { result ≡ zero_bits self }
        ensures few { result ≤ 12 }
    {
        match self {
            ItemLetter::C => 12,
            ItemLetter::H | ItemLetter::A | ItemLetter::L | ItemLetter::R => 0,
        }
    }
}
