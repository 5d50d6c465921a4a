//! The names that decks enter or have as externals, a line each: who enters the name, and who reads it.

use crate::symbol_keys::{key_of, without_blanks};
use cards::DeckName;
use deck_objects::Object;
use std::alloc::{AllocError, Global};
use text_ports::Text;

/// A name in a deck, in the order of names, in which the decks that enter one stand before those that read it.
#[derive(Clone, Copy, PartialEq, Eq, PartialOrd, Ord)]
struct Mention {
    /// The key of the name.
    key: u64,
    reads: bool,
    /// How many decks stand before.
    deck: usize,
}

/// The names that decks enter or have as externals.
#[derive(Drop)]
pub struct EnteredNames {
    found: Vec<Mention>,
    decks: Vec<DeckName>,
}

/// Writes what stands in front of the deck of a mention, behind the mention before it.
fn push_front(
    text: &mut Text,
    before: Option<Mention>,
    mention: Mention,
) -> Result<(), AllocError> {
    let is_new = before.is_none_or(|other| other.key != mention.key);
    if is_new {
        if before.is_some() {
            text.push_byte(b'\n')?;
        }
        text.push_bytes(without_blanks(&mention.key.to_be_bytes()))?;
    }
    if is_new || before.is_none_or(|other| other.reads != mention.reads) {
        text.push_bytes(if mention.reads { b" READ" } else { b" ENTERED" })?;
    }
    Ok(())
}

impl EnteredNames {
    /// Those of no deck.
    pub fn new(alloc: Global) -> EnteredNames {
        EnteredNames {
            found: Vec::new(alloc),
            decks: Vec::new(alloc),
        }
    }

    fn note(&mut self, name: &[u8], reads: bool, deck: usize) -> Result<(), AllocError> {
        if let Some(key) = key_of(name) {
            self.found.push(Mention { key, reads, deck })?;
        }
        Ok(())
    }

    /// With those of one deck more.
    pub fn add(&mut self, object: &Object) -> Result<(), AllocError> {
        let deck = self.decks.len();
        self.decks.push(object.name().copied())?;
        for entry in object.parts().entries.as_slice() {
            self.note(entry.name().as_slice(), false, deck)?;
        }
        for external in object.parts().externals.as_slice() {
            self.note(external.as_slice(), true, deck)?;
        }
        Ok(())
    }

    /// Writes the name of a deck.
    fn push_deck(&self, text: &mut Text, deck: usize) -> Result<(), AllocError> {
        text.push_byte(b' ')?;
        match self.decks.get(deck) {
            Some(name) => text.push_bytes(name.as_slice()),
            None => Ok(()),
        }
    }

    /// Writes a line for each name, in their order.
    pub fn push_lines(&mut self, text: &mut Text) -> Result<(), AllocError> {
        self.found.sort_unstable();
        let mut before: Option<Mention> = None;
        for mention in self.found.as_slice() {
            if before == Some(*mention) {
                continue;
            }
            push_front(text, before, *mention)?;
            self.push_deck(text, mention.deck)?;
            before = Some(*mention);
        }
        if before.is_some() {
            text.push_byte(b'\n')?;
        }
        Ok(())
    }
}
