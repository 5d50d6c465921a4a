//! Short texts on the stack that grow at their front, as a number does whose digits are written from the
//! last one on.
ghost use Rattle.std.specs.Prelude.{◌≡◌, ◌+◌, ◌/◌, ◌%◌, ◌<◌, ◌≤◌, ◌++◌, ◌∷◌, [], length, drop};
ghost use Rattle.definitions.specs.Numerals.{digits_of, octal_of};

use std::marker::Model;

/// A text of at most `MOST` bytes, which lie in the value itself: it takes no memory. It grows at its front,
/// so its bytes stand at the end of the array. Contracts see their list.
#[derive(Drop)]
pub struct PrependedText<const MOST: usize> {
    bytes: [u8; MOST],
    begin: usize,
}

/// A line that is written from its end on.
pub type ShortText = PrependedText<48>;

/// The two octal digits of each number below 64, number by number.
const PAIRS: [u8; 128] =
    *b"00010203040506071011121314151617202122232425262730313233343536374041424344454647505152535455565760616263646566677071727374757677";

/// The two octal digits of a number below 64.
#[inline(always)]
fn octal_pair(number: usize) -> &'static [u8]
    requires { number < 64 }
    ensures { result.now ≡ octal_of 2 number }
{
    &PAIRS[2 * number..2 * number + 2]
}

impl<const MOST: usize> Model for PrependedText<MOST> {
    ghost use Rattle.std.specs.Prelude.{ℕ, List, drop, ◌≤◌};

    ghost Value = { List ℕ };

    ghost view = { λ t. drop t.begin t.bytes };

    ghost invariant = { λ t. t.begin ≤ MOST };
}

impl<const MOST: usize> PrependedText<MOST> {
    /// An empty text.
    #[inline(always)]
    pub fn new() -> PrependedText<MOST>
        ensures text { result ≡ [] }
        ensures len { length result ≡ 0 }
    {
        PrependedText {
            bytes: [0; MOST],
            begin: MOST,
        }
    }

    #[inline(always)]
    pub fn as_slice(&self) -> &[u8]
        ensures { result.now ≡ self.now }
    {
        self.bytes.split_at(self.begin).1
    }

    /// Puts a byte in front.
    #[inline(always)]
    pub fn put_byte(&mut self, byte: u8)
        requires room { length self.old < MOST }
        ensures text { self.new ≡ byte ∷ self.old }
        ensures len { length self.new ≡ length self.old + 1 }
    {
        self.begin -= 1;
        self.bytes[self.begin] = byte;
    }

    /// Takes so many bytes away from the front.
    #[inline(always)]
    pub fn drop_front(&mut self, bytes: u32)
        requires { bytes ≤ length self.old }
        ensures { self.new ≡ drop bytes self.old }
    {
        self.begin += bytes as usize;
    }

    /// Puts the last `digits` octal digits of a value in front, leading zeros among them.
    #[inline(always)]
    pub fn put_octal(&mut self, digits: u32, value: u64)
        requires room { length self.old + digits ≤ MOST }
        ensures text { self.new ≡ octal_of digits value ++ self.old }
        ensures len { length self.new ≡ length self.old + digits }
    {
        let begin = self.begin - digits as usize;
        let mut rest = value;
        let mut left = self.begin;
        while left - begin >= 2 {
            left -= 2;
            let bytes = &mut self.bytes[..];
            bytes[left..left + 2].copy_from_slice(octal_pair((rest % 64) as usize));
            rest /= 64;
        }
        self.begin = left;
        if left == begin {
            return;
        }
        self.put_byte(b'0' + (rest % 8) as u8);
    }

    /// Puts the last `digits` decimal digits of a value in front, leading zeros among them.
    #[inline(always)]
    pub fn put_padded(&mut self, digits: u32, value: u64)
        requires room { length self.old + digits ≤ MOST }
        ensures text { self.new ≡ digits_of 10 digits value ++ self.old }
        ensures len { length self.new ≡ length self.old + digits }
    {
        let begin = self.begin - digits as usize;
        let mut rest = value;
        let mut left = self.begin;
        while left > begin {
            left -= 1;
            self.bytes[left] = b'0' + (rest % 10) as u8;
            rest /= 10;
        }
        self.begin = begin;
    }
}
