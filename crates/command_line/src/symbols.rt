//! The symbols of decks, a table for each deck.

use card_messages::push_symbols;
use deck_objects::{Object, SharedObject};
use std::alloc::{AllocError, Global};
use std::hash::RandomState;
use text_ports::Text;

/// Writes the table of a deck: a line with its name, and one for each symbol.
fn push_table(
    alloc: Global,
    keys: RandomState,
    text: &mut Text,
    object: &Object,
) -> Result<(), AllocError> {
    text.push_bytes(b"SYMBOLS ")?;
    text.push_bytes(object.name().as_slice())?;
    text.push_byte(b'\n')?;
    push_symbols(alloc, keys, text, object.cards())
}

/// The tables of decks, in their order.
pub(crate) fn symbol_tables(
    alloc: Global,
    keys: RandomState,
    objects: &[SharedObject],
) -> Result<Text, AllocError> {
    let mut text = Text::new(alloc);
    for object in objects {
        push_table(alloc, keys, &mut text, object.object())?;
    }
    Ok(text)
}
