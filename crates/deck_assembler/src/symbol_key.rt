//! Names as the keys of a map: one number each.
ghost use Rattle.std.specs.Prelude.{◌≡◌, ◌==◌, ◌≤◌, length, not};
ghost use Rattle.std.specs.List.{list_all};
ghost use Rattle.deck_assembler.specs.Joins.SymbolKeys.{is_name, key_of, padded};

/// How many characters a name has at most.
const MOST_CHARACTERS: usize = 8;

/// A name of 1 to 8 characters, none of them a blank: one number, of its characters with blanks behind
/// them, the first in the highest place.
#[derive(Clone, Copy)]
pub(crate) struct SymbolKey {
    pub(crate) code: u64,
}

impl SymbolKey {
    /// The key of the name that these characters are, if they are one.
    pub(crate) fn of(text: &[u8]) -> Option<SymbolKey>
        ensures { result ≡ key_of text.now }
    {
        if is_name_text(text) {
            Some(SymbolKey {
                code: u64::from_be_bytes(padded_text(text)),
            })
        } else {
            None
        }
    }
}

fn is_name_text(text: &[u8]) -> bool
    ensures { result ≡ is_name text.now }
{
    !text.is_empty() && text.len() <= MOST_CHARACTERS && has_no_blank(text)
}

fn has_no_blank(text: &[u8]) -> bool
    ensures { result ≡ list_all (λ c. not (c == 32)) text.now }
{
    text.iter().all(|c| *c != b' ')
}

fn padded_text(text: &[u8]) -> [u8; MOST_CHARACTERS]
    requires { length text.now ≤ 8 }
    ensures { result ≡ padded text.now }
{
    let mut characters = [b' '; MOST_CHARACTERS];
    characters.split_at_mut(text.len()).0.copy_from_slice(text);
    characters
}
