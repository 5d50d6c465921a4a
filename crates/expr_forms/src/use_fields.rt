//! The variable field of USE: the block that it names (COMPASS 60492600, USE).
ghost use Rattle.std.specs.Prelude.{◌≡◌, ◌==◌, ◌≤◌, true, length};
ghost use Rattle.std.specs.List.{list_any};
ghost use Rattle.definitions.specs.Characters.{slash};
ghost use Rattle.definitions.specs.Symbols.{is_linked_name, is_block_name};
ghost use Rattle.definitions.specs.Operands.{is_common_name, common_operand, use_operand};
ghost use Rattle.expr_forms.specs.Joins.Readings.{use_as, local_operand};

use crate::characters::is_lone;
use crate::names::Name;
use crate::symbols::is_symbol;
use definitions::DeckKind;

/// What the field of a USE says.
#[derive(Clone, Copy)]
pub enum UseField {
    /// A block; without a field it is the nominal one, `0`.
    UseName(Name),
    /// `*`: the block before.
    UseBefore,
    /// A text with `/` that names no common block, or in a deck that has none.
    Refused,
    /// Anything else.
    Bad,
}

/// Whether a text is a symbol of at most 7 characters, as names are that decks share.
pub(crate) fn is_linked_name(text: &[u8]) -> bool
    ensures name { result ≡ is_linked_name text.now }
    ensures short { result ≡ true → length text.now ≤ 7 }
{
    is_symbol(text) && text.len() <= 7
}

fn is_block_name(text: &[u8]) -> bool
    ensures name { result ≡ is_block_name text.now }
    ensures short { result ≡ true → length text.now ≤ 8 }
{
    is_symbol(text) || is_lone(b'0', text)
}

fn has_slash(text: &[u8]) -> bool
    ensures { result ≡ list_any (λ c. c == slash) text.now }
{
    text.iter().any(|c| *c == b'/')
}

/// Whether a text is a symbol of at most 7 characters with a slash on either side.
fn is_common_name(text: &[u8]) -> bool
    ensures name { result ≡ is_common_name text.now }
    ensures short { result ≡ true → length text.now ≤ 9 }
{
    match text.split_first() {
        None => false,
        Some((first, behind)) => match behind.split_last() {
            None => false,
            Some((last, name)) => {
                if *first != b'/' {
                    return false;
                }
                if *last != b'/' {
                    return false;
                }
                is_linked_name(name)
            }
        },
    }
}

/// A text with `/`: a common block in a REL deck.
fn common_block(text: &[u8], kind: DeckKind) -> UseField
    ensures { use_as result ≡ common_operand kind text.now }
{
    match kind {
        DeckKind::Rel if is_common_name(text) => UseField::UseName(Name::new(text)),
        _ => UseField::Refused,
    }
}

/// A text without `/`: `*`, or a block name.
fn local_block(text: &[u8]) -> UseField
    ensures { use_as result ≡ local_operand text.now }
{
    if is_lone(b'*', text) {
        return UseField::UseBefore;
    }
    if is_block_name(text) {
        return UseField::UseName(Name::new(text));
    }
    UseField::Bad
}

/// What a USE with this field says, in a deck of this kind.
pub fn use_field(text: &[u8], kind: DeckKind) -> UseField
    ensures { use_as result ≡ use_operand kind text.now }
{
    if text.is_empty() {
        return UseField::UseName(Name::new(b"0"));
    }
    if has_slash(text) {
        return common_block(text, kind);
    }
    local_block(text)
}
