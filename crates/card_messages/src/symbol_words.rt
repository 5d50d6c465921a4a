//! Why a text is no symbol.

use definitions::is_digit;
use expr_forms::is_symbol;

/// How many characters a symbol has at most.
const MOST_CHARACTERS: usize = 8;

/// What is wrong with a text that is no symbol, behind so many of its characters.
#[derive(Clone, Copy)]
pub(crate) struct SymbolFault {
    pub(crate) start: usize,
    pub(crate) says: &'static str,
}

/// Whether a text is the name of a register.
pub(crate) fn is_register(text: &[u8]) -> bool {
    matches!(text, [b'A' | b'B' | b'X', b'0'..=b'7'])
}

/// Whether a text is a register but for its digit, which is 8 or 9.
pub(crate) fn is_beyond_registers(text: &[u8]) -> bool {
    matches!(text, [b'A' | b'B' | b'X', b'8' | b'9'])
}

/// Whether a character may stand within a symbol.
fn is_symbol_character(character: u8) -> bool {
    let one = [character];
    is_digit(character) || character == b'$' || character == b'=' || is_symbol(&one)
}

/// The place of the first character that no symbol has.
fn bad_character(text: &[u8]) -> Option<usize> {
    for (count, character) in text.iter().enumerate() {
        if !is_symbol_character(*character) {
            return Some(count);
        }
    }
    None
}

/// Why a text that is no symbol is none.
pub(crate) fn symbol_fault(text: &[u8]) -> SymbolFault {
    if is_register(text) {
        return SymbolFault {
            start: 0,
            says: " is a register, and no symbol",
        };
    }
    if let Some(start) = bad_character(text) {
        return SymbolFault {
            start,
            says: " has a character here that no symbol has",
        };
    }
    if text.len() > MOST_CHARACTERS {
        return SymbolFault {
            start: 0,
            says: " has more than the 8 characters of a symbol",
        };
    }
    SymbolFault {
        start: 0,
        says: " begins as no symbol does, with a digit, $ or =",
    }
}
