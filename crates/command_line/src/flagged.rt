//! What is flagged in files, as lines on standard error: `FILE:LINE:COLUMN: letter: what is wrong`, a line for
//! each letter. Lines and columns are those of the file as it is.

use crate::tab_places::{FileColumns, column_at};
use asm_main::{Built, Chained, LinePlace, Tally, words_of_link};
use card_messages::{DeckWords, FlaggedStatement, Message};
use cards::StatementRoom;
use deck_objects::{Object, SharedObject};
use std::hash::RandomState;

/// How messages are shown: where the lines of the input stand, the names of its files, and whether the cards are
/// shown below; and the keys of the tables of this run.
#[derive(Drop)]
pub(crate) struct Telling<'t, I> {
    pub chain: &'t Chained<I>,
    pub names: &'t [&'t str],
    pub explain: bool,
    pub keys: RandomState,
}

/// What the LINK lines of a map begin with.
const LINK: &[u8] = b"LINK ";

/// Reports the flagged statements and the LINK lines of what was built of these files.
pub(crate) fn tell_flagged<R: AllocGlobal + Eprint, I: FileColumns>(
    rt: &R,
    built: &Built,
    telling: &Telling<'_, I>,
) {
    let objects = built.objects();
    for (number, object) in objects.iter().enumerate() {
        let first = first_line(objects.split_at(number).0);
        tell_object(rt, object.object(), first, telling);
    }
    if built.tally().links > 0 {
        tell_links(rt, built, telling);
    }
}

/// Reports how many statements are flagged in how many decks, and how many LINK lines the map has.
pub(crate) fn tell_summary<R: Eprint>(rt: &R, tally: Tally, decks: usize) {
    let Tally { errors, links } = tally;
    let decks_word = if decks == 1 { "deck" } else { "decks" };
    let _ = eprint!(rt; "{errors} flagged in {decks} {decks_word}");
    if links > 0 {
        let lines_word = if links == 1 { "line" } else { "lines" };
        let _ = eprint!(rt; ", {links} LINK {lines_word}");
    }
    let _ = eprintln!(rt; "");
}

/// The line of the input behind these decks.
fn first_line(objects: &[SharedObject]) -> u64 {
    let mut line = 1u64;
    for object in objects {
        line = line.saturating_add(object.object().cards().len() as u64);
    }
    line
}

/// Whether a statement of a deck is flagged.
fn is_flagged(object: &Object) -> bool {
    for line in object.parts().lines.as_slice() {
        if !line.letters.text().as_slice().is_empty() {
            return true;
        }
    }
    false
}

/// Reports the flagged statements of a deck whose IDENT card is this line of the input.
fn tell_object<R: AllocGlobal + Eprint, I: FileColumns>(
    rt: &R,
    object: &Object,
    first: u64,
    telling: &Telling<'_, I>,
) {
    if !is_flagged(object) {
        return;
    }
    match DeckWords::new(rt.alloc(), telling.keys, object.cards()) {
        Ok(deck) => {
            tell_deck(rt, &deck, object, first, telling);
            deck.free();
        }
        Err(_) => {
            let _ = eprintln!(rt; "compass: OutOfMemory: the listing has what is flagged");
        }
    }
}

/// Reports the flagged statements of a deck.
fn tell_deck<R: Eprint, I: FileColumns>(
    rt: &R,
    deck: &DeckWords,
    object: &Object,
    first: u64,
    telling: &Telling<'_, I>,
) {
    let mut card = 0usize;
    for (number, line) in object.parts().lines.as_slice().iter().enumerate() {
        let letters = line.letters.text();
        if !letters.as_slice().is_empty() {
            let mut room = StatementRoom::new();
            if let Some(statement) = FlaggedStatement::read(
                deck,
                object.cards(),
                card,
                number,
                &mut room,
            ) {
                tell_letters(
                    rt,
                    &statement,
                    letters.as_slice(),
                    Cards {
                        object,
                        card,
                        first,
                    },
                    telling,
                );
            }
        }
        card = card.saturating_add(line.cards as usize);
    }
}

/// The cards from one of a deck on: so many stand before it, and the IDENT card is this line of the input.
#[derive(Clone, Copy)]
struct Cards<'o> {
    object: &'o Object,
    card: usize,
    first: u64,
}

/// Reports the letters of a statement that begins with the first of these cards, a line for each.
fn tell_letters<R: Eprint, I: FileColumns>(
    rt: &R,
    statement: &FlaggedStatement<'_>,
    letters: &[u8],
    cards: Cards<'_>,
    telling: &Telling<'_, I>,
) {
    for letter in letters {
        tell_message(rt, *letter, &statement.message(*letter), cards, telling);
    }
}

/// Reports a message in the column that its file has, and shows its card where that is asked for, as it was read.
fn tell_message<R: Eprint, I: FileColumns>(
    rt: &R,
    letter: u8,
    message: &Message<'_>,
    cards: Cards<'_>,
    telling: &Telling<'_, I>,
) {
    let card = cards.card.saturating_add(message.card);
    let line = cards.first.saturating_add(card as u64);
    let place = telling.chain.place_of(line);
    let column = column_at(telling.chain, place, message.column);
    tell_place(rt, place, column, telling.names);
    tell_words(rt, letter, message);
    if telling.explain {
        show_card(rt, cards.object, card, message.column);
    }
}

/// Reports a letter, and the words of its message.
fn tell_words<R: Eprint>(rt: &R, letter: u8, message: &Message<'_>) {
    let letter = char::from(letter);
    let words = message.words;
    let _ = eprintln!(rt; " {letter}: {words}");
}

/// Shows a card of a deck, and a caret below a column of it.
fn show_card<R: Eprint>(rt: &R, object: &Object, card: usize, column: usize) {
    let Some(card) = object.cards().get(card) else {
        return;
    };
    let text = str::from_utf8(card.as_slice()).unwrap_or("");
    let _ = eprintln!(rt; "    {text}");
    for _ in 0..column.saturating_add(3) {
        let _ = eprint!(rt; " ");
    }
    let _ = eprintln!(rt; "^");
}

/// Reports a place, and a colon behind it.
fn tell_place<R: Eprint>(rt: &R, place: LinePlace, column: usize, names: &[&str]) {
    let name = names.get(place.part).copied().unwrap_or("");
    let line = place.line;
    let _ = eprint!(rt; "{name}:{line}:{column}:");
}

/// Reports the LINK lines of the map, each at the IDENT card of its deck.
fn tell_links<R: Eprint, I: FileColumns>(rt: &R, built: &Built, telling: &Telling<'_, I>) {
    for line in built.map().split(|byte| *byte == b'\n') {
        if let Some(link) = line.strip_prefix(LINK) {
            tell_link(rt, link, built.objects(), telling);
        }
    }
}

/// Reports one of them; one of a common block has no deck and no place.
fn tell_link<R: Eprint, I: FileColumns>(
    rt: &R,
    link: &[u8],
    objects: &[SharedObject],
    telling: &Telling<'_, I>,
) {
    let deck = link.split(|byte| *byte == b' ').nth(1).unwrap_or(b"");
    match objects
        .iter()
        .position(|object| object.object().name().as_slice() == deck)
    {
        Some(number) => {
            let first = first_line(objects.split_at(number).0);
            tell_place(rt, telling.chain.place_of(first), 1, telling.names);
        }
        None => {
            let _ = eprint!(rt; "compass:");
        }
    }
    let text = str::from_utf8(link).unwrap_or("");
    let words = words_of_link(link.first().copied().unwrap_or(0));
    let _ = eprintln!(rt; " LINK {text}: {words}.");
}
