//! The shape of a code: its digits, its parcels and its field.
ghost use Rattle.std.specs.Prelude.{◌≡◌, ◌≤◌, length};
ghost use Rattle.definitions.specs.Matching.{code_digits, octal_number};
ghost use Rattle.cpu_opcodes.specs.Joins.CodeTexts.{code_text};
ghost use Rattle.cpu_opcodes.specs.Joins.RegistersFound.{digits_as};

use crate::code::Code;
use crate::digits::{Digits, digits_of};
use crate::registers_found::RegistersFound;

impl Code {
    /// Its digits in front of K or n, with those of the registers.
    pub fn digits(self, registers: RegistersFound) -> Digits
        ensures number { result.number ≡ octal_number 0 (code_digits (digits_as registers) (code_text self)) }
        ensures count { result.count ≡ length (code_digits (digits_as registers) (code_text self)) }
        ensures within { result.count ≤ 10 }
    {
        match self {
            Code::Short(text) => digits_of(&text, registers),
            Code::Long(text) => digits_of(&text, registers),
        }
    }
}
