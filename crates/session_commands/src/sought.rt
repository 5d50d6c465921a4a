//! Texts that are looked for in a line or a card.
ghost use Rattle.std.specs.Prelude.{◌≡◌};
ghost use Rattle.session_commands.specs.Sought.{begins_with, has_text, is_sought_size};

use definitions::is_same_text;

/// How many columns a text has at most that is looked for.
const MOST_SOUGHT: usize = 72;

/// Whether a text of so many columns may be looked for.
pub(crate) fn is_sought_size(len: usize) -> bool
    ensures { result ≡ is_sought_size len }
{
    1 <= len && len <= MOST_SOUGHT
}

/// Whether columns begin with a text.
pub fn begins_with(text: &[u8], columns: &[u8]) -> bool
    ensures { result ≡ begins_with text.now columns.now }
{
    text.len() <= columns.len() && is_same_text(columns.split_at(text.len()).0, text)
}

/// Whether a text stands somewhere in columns.
pub fn has_text(text: &[u8], columns: &[u8]) -> bool
    ensures { result ≡ has_text text.now columns.now }
{
    let mut rest = columns;
    while let Some((_, others)) = rest.split_first() {
        if begins_with(text, rest) {
            return true;
        }
        rest = others;
    }
    false
}
