//! Display code, both ways.
ghost use Rattle.std.specs.Prelude.{◌≡◌, ◌<◌, IfSome, Some, is_some};
ghost use Rattle.definitions.specs.Characters.{character_of, display_code_of};

/// The first of the characters: they are the 64 bytes from here on, up to `_`.
const FIRST: u8 = b' ';

/// The last of the characters.
const LAST: u8 = b'_';

/// The 64 characters, each at its display code.
const CHARACTERS: [u8; 64] = *b":ABCDEFGHIJKLMNOPQRSTUVWXYZ0123456789+-*/()$= ,.#[]%\"_!&'?<>@\\^;";

/// The display codes of the 64 characters, in the order of their bytes.
const CODES: [u8; 64] = [
    0o55, 0o66, 0o64, 0o60, 0o53, 0o63, 0o67, 0o70, // blank ! " # $ % & '
    0o51, 0o52, 0o47, 0o45, 0o56, 0o46, 0o57, 0o50, // ( ) * + , - . /
    0o33, 0o34, 0o35, 0o36, 0o37, 0o40, 0o41, 0o42, // 0 to 7
    0o43, 0o44, 0o00, 0o77, 0o72, 0o54, 0o73, 0o71, // 8 9 : ; < = > ?
    0o74, 0o01, 0o02, 0o03, 0o04, 0o05, 0o06, 0o07, // @ and A to G
    0o10, 0o11, 0o12, 0o13, 0o14, 0o15, 0o16, 0o17, // H to O
    0o20, 0o21, 0o22, 0o23, 0o24, 0o25, 0o26, 0o27, // P to W
    0o30, 0o31, 0o32, 0o61, 0o75, 0o62, 0o76, 0o65, // X Y Z [ \ ] ^ _
];

/// Whether a byte is one of the 64 characters, which have a display code (COMPASS 60492600,
/// character codes). Lower case letters and tabs have none.
pub fn has_display_code(byte: u8) -> bool
    ensures { result ≡ is_some (display_code_of byte) }
{
    FIRST <= byte && byte <= LAST
}

/// The display code of a character, 0 to 63, or none where the byte is no character of the set.
pub fn display_of(byte: u8) -> Option<u8>
    ensures code { result ≡ display_code_of byte }
    ensures back { IfSome result (λ code. (code < 64) × (character_of code ≡ byte)) }
{
    if has_display_code(byte) {
        Some(CODES[usize::from(byte - FIRST)])
    } else {
        None
    }
}

/// The character that a display code stands for.
pub fn char_of(code: u8) -> u8
    requires { code < 64 }
    ensures character { result ≡ character_of code }
    ensures back { display_code_of result ≡ Some code }
{
    CHARACTERS[code as usize]
}
