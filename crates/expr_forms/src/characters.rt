//! The classes of characters that expressions distinguish.
ghost use Rattle.std.specs.Prelude.{◌≡◌, ◌∷◌, [], codes};
ghost use Rattle.definitions.specs.Characters.{is_letter, is_among, is_symbol_character, same_text};

use definitions::is_digit;

fn is_letter(c: u8) -> bool
    ensures { result ≡ is_letter c }
{
    b'A' <= c && c <= b'Z'
}

/// The marks that a symbol may have, beside letters and digits.
fn is_symbol_mark(c: u8) -> bool
    ensures { result ≡ is_among c (codes ".$=#[]%\"_!&'?<>@\\") }
{
    matches!(
        c,
        b'.' | b'$'
            | b'='
            | b'#'
            | b'['
            | b']'
            | b'%'
            | b'"'
            | b'_'
            | b'!'
            | b'&'
            | b'\''
            | b'?'
            | b'<'
            | b'>'
            | b'@'
            | b'\\'
    )
}

pub(crate) fn is_symbol_character(c: u8) -> bool
    ensures { result ≡ is_symbol_character c }
{
    is_letter(c) || is_digit(c) || is_symbol_mark(c)
}

/// Whether a text is this character and no other.
pub(crate) fn is_lone(character: u8, text: &[u8]) -> bool
    ensures { result ≡ same_text text.now (character ∷ []) }
{
    match text.split_first() {
        None => false,
        Some((first, behind)) => *first == character && behind.is_empty(),
    }
}
