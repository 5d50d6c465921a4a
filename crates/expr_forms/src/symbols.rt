//! Symbols and register names as runs of characters (COMPASS 60492600, names, registers).
ghost use Rattle.std.specs.Prelude.{◌≡◌, ◌≤◌, length, option_map, true};
ghost use Rattle.std.specs.List.{list_all};
ghost use Rattle.definitions.specs.Characters.{is_symbol_character};
ghost use Rattle.definitions.specs.Symbols.{register_of, begins_symbol, is_symbol};
ghost use Rattle.expr_forms.specs.Joins.Registers.{register_as};

use crate::characters::is_symbol_character;
use crate::register::{Register, RegisterKind};
use definitions::is_digit;

/// The register that a text names, if it does.
pub(crate) fn register_of(text: &[u8]) -> Option<Register>
    ensures { option_map register_as result ≡ register_of text.now }
{
    let [letter, digit] = text else {
        return None;
    };
    if *digit < b'0' || *digit > b'7' {
        return None;
    }
    let kind = match *letter {
        b'A' => RegisterKind::A,
        b'B' => RegisterKind::B,
        b'X' => RegisterKind::X,
        _ => return None,
    };
    Some(Register {
        kind,
        digit: *digit - b'0',
    })
}

fn begins_symbol(text: &[u8]) -> bool
    ensures { result ≡ begins_symbol text.now }
{
    match text.split_first() {
        Some((c, _)) => !is_digit(*c) && *c != b'$' && *c != b'=',
        None => false,
    }
}

fn are_symbol_characters(text: &[u8]) -> bool
    ensures { result ≡ list_all is_symbol_character text.now }
{
    text.iter().all(|c| is_symbol_character(*c))
}

/// Whether a text is 1 to 8 characters of symbols and no name of a register.
pub fn is_symbol(text: &[u8]) -> bool
    ensures symbol { result ≡ is_symbol text.now }
    ensures short { result ≡ true → length text.now ≤ 8 }
{
    begins_symbol(text)
        && are_symbol_characters(text)
        && text.len() <= 8
        && register_of(text).is_none()
}
