//! What is said of the flagged statements of a deck, as the lines of a reply: one for each of their letters.
ghost use Rattle.std.specs.Prelude.{◌≡◌, ◌≤◌, ◌<◌, ◌+◌, ◌++◌, ◌∷◌, All, codes, decimal, flat_map, length, map, IfOk, OnOk};
ghost use Rattle.deck_objects.specs.declared.lines.Line.{Line};
ghost use Rattle.session_line.specs.Errors.{flag_of};
ghost use Rattle.session_line.specs.Joins.FlagWalks.{flags_in};
ghost use Rattle.session_line.specs.Joins.MessageWalks.{AddsMessages, told_letters};
ghost use Rattle.session_line.specs.Messages.{AreMessages, IsMessage, IsSaid, deck_letters, letters_of, lettered, message_head, message_text, told_character};
ghost use Rattle.session_line.specs.Replies.{line_of};

use crate::answers::Told;
use crate::errors::split_cards;
use crate::reply_line::ReplyLine;
use card_messages::{DeckWords, FlaggedStatement, Message, Words};
use cards::{Card, DeckName, StatementRoom};
use deck_objects::{Line, Object};
use session_commands::Refusal;
use std::alloc::{AllocError, Global};
use std::hash::RandomState;
use text_ports::Text;

/// How many cards a statement has behind its first at most.
const MOST_BEHIND: usize = 9;

/// What is said of a letter: so many cards behind the first of its statement, in this column, these words.
#[derive(Drop)]
struct Said {
    card: usize,
    column: usize,
    words: Text,
}

/// Where a flagged statement stands: so many cards and so many statements are before it.
#[derive(Clone, Copy)]
struct Stand {
    cards: usize,
    statements: usize,
}

/// A character as it is shown.
fn told_character(character: u8) -> u8
    ensures { result ≡ told_character character }
{
    match character {
        b' '..=b'~' => character,
        _ => b'.',
    }
}

/// Puts words as they are shown.
fn push_words(text: &mut Text, words: &[u8]) -> Result<(), AllocError>
    ensures { OnOk result (text.new ≡ text.old ++ map told_character words.now) }
{
    for character in words {
        text.push_byte(told_character(*character))?;
    }
    Ok(())
}

/// What the line of a message begins with.
fn message_head(name: &DeckName, card: u64, column: u64, letter: u8) -> ReplyLine
    ensures { result ≡ message_head name.now card column letter }
{
    let mut line = ReplyLine::new();
    line.put(b"WORDS ");
    line.put(name.as_slice());
    line.put(b" ");
    line.put_number(card);
    line.put(b" ");
    line.put_number(column);
    line.put(b" ");
    line.put(&[letter]);
    line.put(b" ");
    line
}

/// Puts the line of a message of a letter, whose statement begins with the card of this number.
fn push_message(
    text: &mut Text,
    name: &DeckName,
    number: usize,
    letter: u8,
    said: &Said,
) -> Result<(), AllocError>
    requires few { number ≤ 20000 }
    requires card { said.now.card ≤ 9 }
    ensures { OnOk result (text.new ≡ text.old ++ line_of (message_text name.now (record { number = number; letter = letter }) (record { card = said.now.card; column = said.now.column; words = said.now.words }))) }
{
    let card = number + said.card;
    let head = message_head(name, card as u64, said.column as u64, letter);
    text.push_bytes(head.as_slice())?;
    push_words(text, said.words.as_slice())?;
    text.push_byte(b'\n')
}

/// What is said of a letter of a statement; of one that is not there nothing is known.
fn message_of<'a>(statement: &Option<FlaggedStatement<'a>>, letter: u8) -> Message<'a>
    ensures { (1 ≤ result.column) × (result.column ≤ 72) }
{
    match statement {
        Some(statement) => statement.message(letter),
        None => Message {
            card: 0,
            column: 1,
            words: Words::Says(""),
        },
    }
}

/// What is said, with its words as a text.
fn told_by(alloc: Global, message: &Message<'_>) -> Result<Said, AllocError>
    requires { (1 ≤ message.now.column) × (message.now.column ≤ 72) }
    ensures card { IfOk result (λ said. said.card ≤ 9) }
    ensures lawful { IfOk result (λ said. IsMessage (record { card = said.card; column = said.column; words = said.words })) }
{
    let words = message.words;
    let shown = format!(in alloc; "{words}")?;
    let mut words = Text::new(alloc);
    words.push_bytes(shown.as_bytes())?;
    Ok(Said {
        card: message.card.min(MOST_BEHIND),
        column: message.column,
        words,
    })
}

/// Puts the lines of the messages of letters of a statement that begins with the card of this number.
fn push_letters(
    alloc: Global,
    text: &mut Text,
    name: &DeckName,
    number: usize,
    statement: &Option<FlaggedStatement<'_>>,
    letters: &[u8],
) -> Result<(), AllocError>
    requires few { number ≤ 20000 }
    ensures { OnOk result (AddsMessages name.now (lettered number letters.now) text.old text.new) }
{
    for letter in letters {
        let said = told_by(alloc, &message_of(statement, *letter))?;
        push_message(text, name, number, *letter, &said)?;
    }
    Ok(())
}

/// Puts the lines of the messages of a statement with these cards, of which so many stand before among those of
/// the deck, where it is flagged. Otherwise nothing.
fn push_statement(
    alloc: Global,
    text: &mut Text,
    words: &DeckWords,
    name: &DeckName,
    cards: &[Card],
    stand: Stand,
    own: &[Card],
    letters: &[u8],
) -> Result<(), AllocError>
    requires few { stand.cards + length own.now ≤ 20000 }
    ensures { OnOk result (AddsMessages name.now (told_letters stand.cards own.now letters.now) text.old text.new) }
{
    match (own.is_empty(), letters.is_empty()) {
        (false, false) => {
            let mut room = StatementRoom::new();
            let statement = FlaggedStatement::read(
                words,
                cards,
                stand.cards,
                stand.statements,
                &mut room,
            );
            push_letters(alloc, text, name, stand.cards + 1, &statement, letters)
        }
        _ => Ok(()),
    }
}

/// Puts the lines of the messages of the flagged ones of statements that have these cards.
fn push_statements(
    alloc: Global,
    text: &mut Text,
    words: &DeckWords,
    name: &DeckName,
    cards: &[Card],
    lines: &[Line],
) -> Result<(), AllocError>
    requires few { length cards.now ≤ 20000 }
    ensures { OnOk result (AddsMessages name.now (flat_map letters_of (flags_in 0 cards.now lines.now)) text.old text.new) }
{
    let mut stand = Stand {
        cards: 0,
        statements: 0,
    };
    let mut ahead = cards;
    for shown in lines {
        let (own, behind) = split_cards(ahead, shown.cards);
        let letters = shown.letters.text();
        push_statement(
            alloc,
            text,
            words,
            name,
            cards,
            stand,
            own,
            letters.as_slice(),
        )?;
        stand = Stand {
            cards: stand.cards + own.len(),
            statements: stand.statements.saturating_add(1),
        };
        ahead = behind;
    }
    Ok(())
}

/// The lines of the messages of a deck.
fn deck_messages(alloc: Global, keys: RandomState, object: &Object) -> Result<Text, AllocError>
    ensures { IfOk result (AreMessages object.now.name (deck_letters object.now)) }
{
    let words = DeckWords::new(alloc, keys, object.cards())?;
    let told = messages_by(alloc, &words, object);
    words.free();
    told
}

/// The same, of a deck with these words.
fn messages_by(alloc: Global, words: &DeckWords, object: &Object) -> Result<Text, AllocError>
    ensures { IfOk result (AreMessages object.now.name (deck_letters object.now)) }
{
    let mut text = Text::new(alloc);
    push_statements(
        alloc,
        &mut text,
        words,
        object.name(),
        object.cards(),
        object.parts().lines.as_slice(),
    )?;
    Ok(text)
}

/// What is shown of the messages of a deck under a version, where there is memory for them.
pub(crate) fn told_of_messages(
    alloc: Global,
    keys: RandomState,
    version: u64,
    object: &Object,
) -> Told
    ensures { IsSaid version object.now result }
{
    match deck_messages(alloc, keys, object) {
        Ok(lines) => Told::Lines(version, lines),
        Err(_) => Told::Refused(Refusal::OutOfMemory),
    }
}
