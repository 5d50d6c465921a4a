//! The symbols of a deck, and the names that decks enter, as the lines of a reply.
ghost use Rattle.std.specs.Prelude.{◌≡◌, true, IfOk};
ghost use Rattle.session_line.specs.Messages.{IsEnded, IsLines};

use crate::answers::Told;
use card_messages::{EnteredNames, push_symbols};
use cards::Card;
use deck_listing::ListedObject;
use session_commands::Refusal;
use std::alloc::{AllocError, Global};
use std::hash::RandomState;
use text_ports::Text;

/// Whether the last line of a text has its line feed.
fn is_ended(lines: &[u8]) -> bool
    ensures { result ≡ true → IsEnded lines.now }
{
    match lines.split_last() {
        Some((last, _)) => *last == b'\n',
        None => true,
    }
}

/// A text whose last line has its line feed.
fn ended(text: Text) -> Result<Text, AllocError>
    ensures { IfOk result IsEnded }
{
    if is_ended(text.as_slice()) {
        return Ok(text);
    }
    let mut ended = text;
    ended.push_byte(b'\n')?;
    Ok(ended)
}

/// The lines of the symbols of the deck with these cards.
fn symbols_of(alloc: Global, keys: RandomState, cards: &[Card]) -> Result<Text, AllocError>
    ensures { IfOk result IsEnded }
{
    let mut text = Text::new(alloc);
    push_symbols(alloc, keys, &mut text, cards)?;
    ended(text)
}

/// The lines of the names that these decks enter or have as externals.
fn names_of(alloc: Global, objects: &[ListedObject]) -> Result<Text, AllocError>
    ensures { IfOk result IsEnded }
{
    let mut names = EnteredNames::new(alloc);
    for shared in objects {
        names.add(shared.object())?;
    }
    let mut text = Text::new(alloc);
    names.push_lines(&mut text)?;
    ended(text)
}

/// What is shown of a text under a version, where there was memory for it.
fn told_lines(version: u64, made: Result<Text, AllocError>) -> Told
    requires { IfOk made IsEnded }
    ensures { IsLines version result }
{
    match made {
        Ok(lines) => Told::Lines(version, lines),
        Err(_) => Told::Refused(Refusal::OutOfMemory),
    }
}

/// What is shown of the symbols of the deck with these cards, where there is memory for them.
pub(crate) fn told_of_deck_symbols(
    alloc: Global,
    keys: RandomState,
    version: u64,
    cards: &[Card],
) -> Told
    ensures { IsLines version result }
{
    told_lines(version, symbols_of(alloc, keys, cards))
}

/// What is shown of the names that these decks enter or have as externals, where there is memory for them.
pub(crate) fn told_of_entered(alloc: Global, version: u64, objects: &[ListedObject]) -> Told
    ensures { IsLines version result }
{
    told_lines(version, names_of(alloc, objects))
}
