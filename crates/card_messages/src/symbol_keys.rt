//! Symbols as numbers, in the order of their names.

/// How many characters a symbol has at most.
const MOST_CHARACTERS: usize = 8;

/// The key of a name, if it is short enough for a symbol: its characters with blanks behind them, the first in
/// the highest place.
pub(crate) fn key_of(name: &[u8]) -> Option<u64> {
    if name.len() > MOST_CHARACTERS {
        return None;
    }
    let mut characters = [b' '; MOST_CHARACTERS];
    characters.split_at_mut(name.len()).0.copy_from_slice(name);
    Some(u64::from_be_bytes(characters))
}

/// A name without the blanks behind it.
pub(crate) fn without_blanks(name: &[u8]) -> &[u8] {
    match name.iter().position(|character| *character == b' ') {
        Some(length) => name.split_at(length).0,
        None => name,
    }
}
