//! The listing of a deck.
ghost use Rattle.std.specs.Prelude.{◌≡◌, ◌<◌, ◌^◌, ◌++◌, length, IfOk};
ghost use Rattle.definitions.specs.Listing.{deck_listing, errors_of};
ghost use Rattle.definitions.specs.Objects.{object_of};
ghost use Rattle.deck_listing.specs.ListedObjects.{lines_in};
ghost use Rattle.deck_listing.specs.Joins.ListedParts.{AreListable, flagged_lines, has_letters, parts_text};

use crate::lines::{push_block_lines, push_deck_line, push_errors_line};
use crate::sheet::Sheet;
use crate::statements::push_statements;
use cards::{Card, DeckName};
use deck_objects::{Line, Object, ObjectParts};
use std::alloc::{AllocError, Global};
use text_ports::Text;

/// How many bytes the line of a card has at most.
const CARD_ROOM: usize = 88;

/// How many the line of a word has that one statement makes.
const STATEMENT_ROOM: usize = 22;

/// How many the line of a word has of which there are several in a list.
const ITEM_ROOM: usize = 32;

/// The same for what a listing has beside its statements.
const DECK_ROOM: usize = 256;

/// Whether a statement has a letter.
fn has_letters(shown: &Line) -> bool
    ensures { result ≡ has_letters shown.now }
{
    !shown.letters.text().as_slice().is_empty()
}

/// How many statements have a letter.
fn flagged_lines(lines: &[Line]) -> u64
    ensures { result ≡ flagged_lines lines.now }
{
    lines.iter().filter(|shown| has_letters(shown)).count() as u64
}

/// How many statements of a deck are flagged, as the last line of its listing says.
pub fn errors(object: &Object) -> u64
    ensures { result ≡ errors_of (object_of object.now) }
{
    flagged_lines(object.parts().lines.as_slice())
}

/// Appends the listing of a deck with this name and these cards, from what its object keeps.
fn push_parts(text: &mut Sheet, name: &DeckName, cards: &[Card], parts: &ObjectParts)
    requires few { length cards.now < 2 ^ 60 }
    requires listable { AreListable parts.now.kind parts.now.fields parts.now.lines.items }
    ensures { text.new ≡ text.old ++ parts_text name.now cards.now parts.now }
{
    push_deck_line(text, name, parts.kind);
    push_statements(text, cards, parts);
    push_block_lines(text, parts.bases.rows());
    push_errors_line(text, flagged_lines(parts.lines.as_slice()));
}

/// How much room is asked for at first for a listing that grows: all it needs, unless many statements are flagged
/// or make several words without a list.
fn listing_room(object: &Object) -> usize {
    let parts = object.parts();
    let cards = object.cards().len().saturating_mul(CARD_ROOM);
    let statements = parts.lines.len().saturating_mul(STATEMENT_ROOM);
    let items = parts.fields.len().saturating_mul(ITEM_ROOM);
    cards
        .saturating_add(statements)
        .saturating_add(items)
        .saturating_add(DECK_ROOM)
}

/// Appends the listing of a deck alone, not linked: the deck stands at 0, and so does each external.
pub fn push_listing(text: &mut Sheet, object: &Object)
    ensures { text.new ≡ text.old ++ deck_listing (object_of object.now) }
{
    text.make_room(listing_room(object));
    push_parts(text, object.name(), object.cards(), object.parts());
}

/// The listing of a deck alone.
pub fn listing(alloc: Global, object: &Object) -> Result<Text, AllocError>
    ensures { IfOk result (λ text. text ≡ deck_listing (object_of object.now)) }
{
    let mut text = Sheet::new(alloc);
    push_listing(&mut text, object);
    text.into_text()
}

/// How many lines a text has.
pub fn lines_in(text: &[u8]) -> usize
    ensures { result ≡ lines_in text.now }
{
    text.iter().filter(|c| **c == b'\n').count()
}
