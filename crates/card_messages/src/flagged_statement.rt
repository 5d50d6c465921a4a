//! A statement that is flagged, and the message of each of its letters.
ghost use Rattle.std.specs.Prelude.{◌≡◌, ◌≤◌, ◌<◌, ◌+◌, ◌-◌, ◌/◌, ◌%◌};

use crate::deck_words::DeckWords;
use crate::defined_twice::defined_twice;
use crate::elements::{Part, behind};
use crate::first_cards::cards_of;
use crate::location_words::location_words;
use crate::operand_words::operand_words;
use crate::operation_words::operation_words;
use crate::range_words::range_words;
use crate::relative_words::{divisor_words, relative_words};
use crate::seen_values::Values;
use crate::undefined_words::undefined_words;
use crate::words::{Shown, Words};
use cards::{Card, StatementRoom};
use deck_assembler::SizedStatement;
use definitions::DeckKind;
use statement_coder::Statement;

/// How many columns of a card are read, and of a comma card behind its comma.
const READ_COLUMNS: usize = 72;

const COMMA_COLUMNS: usize = 71;

/// How many comma cards a statement has at most.
const MOST_COMMA_CARDS: usize = 9;

/// What is said of a letter, and where: so many cards behind the first of the statement, in this column,
/// counted from 1.
#[derive(Clone, Copy)]
pub struct Message<'a> {
    pub card: usize,
    pub column: usize,
    pub words: Words<'a>,
}

/// Words about what stands behind so many characters of a field.
#[derive(Clone, Copy)]
pub(crate) struct Found<'a> {
    pub(crate) place: Place,
    pub(crate) words: Words<'a>,
}

/// A place in a field of a statement: behind so many characters of it.
#[derive(Clone, Copy)]
pub(crate) enum Place {
    Location(usize),
    Operation,
    Variable(usize),
}

/// Where the fields of a statement begin on its first card, counted from 0.
#[derive(Clone, Copy)]
struct Begins {
    location: usize,
    operation: usize,
    variable: usize,
}

/// A flagged statement of a deck.
#[derive(Drop)]
pub struct FlaggedStatement<'a> {
    pub(crate) values: Values<'a>,
    pub(crate) statement: Statement<'a>,
    pub(crate) sized: &'a SizedStatement,
    /// The number of its first card in the deck, counted from 1.
    pub(crate) card: u32,
    /// The columns of its first card that are read.
    columns: &'a [u8],
    /// The cards in front of it.
    before: &'a [Card],
}

/// Where the next character that is no blank stands, from a place on.
fn next_filled(text: &[u8], from: usize) -> usize {
    for (count, character) in behind(text, from).iter().enumerate() {
        if *character != b' ' {
            return from.saturating_add(count);
        }
    }
    text.len()
}

/// Whether the last of these cards that is no comma card is a comment, among so many as can matter.
fn follows_comment(cards: &[Card]) -> bool {
    for (count, card) in cards.iter().rev().enumerate() {
        if count > MOST_COMMA_CARDS {
            return false;
        }
        if !card.is_comma_card() {
            return card.is_comment();
        }
    }
    false
}

impl<'a> Found<'a> {
    /// Words about a part of the variable field.
    pub(crate) fn about(part: Part<'a>, says: &'static str) -> Found<'a> {
        let words = Words::Of(Shown { text: part.text }, says);
        Found {
            place: Place::Variable(part.start),
            words,
        }
    }

    /// The same words about a place so many characters behind this one, in the variable field.
    pub(crate) fn behind(self, count: usize) -> Found<'a> {
        let place = match self.place {
            Place::Variable(start) => Place::Variable(start.saturating_add(count)),
            place => place,
        };
        Found {
            place,
            words: self.words,
        }
    }

    /// The same words about a place in the variable field.
    pub(crate) fn in_variable(self, start: usize) -> Found<'a> {
        Found {
            place: Place::Variable(start),
            words: self.words,
        }
    }
}

impl<'a> FlaggedStatement<'a> {
    /// The statement with this number, counted from 0, of the deck with these cards, so many of which stand
    /// in front of it. None where the deck has no such statement up to END.
    pub fn read(
        deck: &'a DeckWords,
        cards: &'a [Card],
        first: usize,
        number: usize,
        room: &'a mut StatementRoom,
    ) -> Option<FlaggedStatement<'a>> {
        let sized = deck.sized(number)?;
        let (before, others) = cards.split_at(first.min(cards.len()));
        let own = cards_of(others, sized.cards);
        let (head, _) = own.split_first()?;
        Some(FlaggedStatement {
            values: Values {
                deck,
                sizing: &sized.sizing,
                base: sized.sizing.number_base(),
            },
            statement: Statement::read(deck.deck.kind(), own, room),
            sized,
            card: u32::try_from(first).unwrap_or(u32::MAX).saturating_add(1),
            columns: head.read_columns(),
            before,
        })
    }

    pub(crate) fn kind(&self) -> DeckKind {
        self.values.deck.deck.kind()
    }

    /// The name of its operation, as a message shows it.
    pub(crate) fn name(&self) -> Shown<'a> {
        Shown {
            text: self.statement.name,
        }
    }

    /// The card that first defines a symbol, if one does.
    pub(crate) fn first_card(&self, name: &[u8]) -> Option<u32> {
        self.values.deck.first.card(name)
    }

    /// Words about its operation.
    pub(crate) fn of_operation(&self, says: &'static str) -> Found<'a> {
        Found {
            place: Place::Operation,
            words: Words::Of(self.name(), says),
        }
    }

    fn begins(&self) -> Begins {
        let location = usize::from(matches!(self.columns.first(), Some(b' ')));
        let behind_location = location.saturating_add(self.statement.location.len());
        let operation = next_filled(self.columns, behind_location);
        let behind_operation = operation.saturating_add(self.statement.name.len());
        Begins {
            location,
            operation,
            variable: next_filled(self.columns, behind_operation),
        }
    }

    /// Whether something stands behind the operation, in columns that no field begins in.
    pub(crate) fn has_commentary(&self) -> bool {
        self.begins().variable < self.columns.len()
    }

    /// What stands on its first card from a place in the variable field on, with what is behind that field.
    pub(crate) fn columns_at(&self, start: usize) -> &'a [u8] {
        behind(self.columns, self.begins().variable.saturating_add(start))
    }

    /// Whether something stands behind the location field.
    pub(crate) fn has_late_operation(&self) -> bool {
        self.begins().operation < self.columns.len()
    }

    /// A message with its place on the cards.
    fn placed(&self, found: Found<'a>) -> Message<'a>
        ensures { (1 ≤ result.column) × (result.column ≤ 72) }
    {
        let begins = self.begins();
        let offset = match found.place {
            Place::Location(count) => begins.location.saturating_add(count),
            Place::Operation => begins.operation,
            Place::Variable(count) => begins.variable.saturating_add(count),
        };
        message_at(offset, found.words)
    }

    /// What a comma card is that continues nothing.
    fn stray_words(&self) -> Words<'a> {
        if self.before.is_empty() {
            Words::Says("a comma card that continues nothing: no card stands before it")
        } else if follows_comment(self.before) {
            Words::Says("a comma card that continues nothing: it follows a comment")
        } else {
            Words::Says("a comma card that continues nothing: a statement has at most nine")
        }
    }

    /// What is said of one of its letters, in a column that is read.
    pub fn message(&self, letter: u8) -> Message<'a>
        ensures { (1 ≤ result.column) × (result.column ≤ 72) }
    {
        let found = match letter {
            b'A' => range_words(self),
            b'D' => defined_twice(self),
            b'L' => location_words(self),
            b'O' => operation_words(self),
            b'R' => relative_words(self),
            b'U' => undefined_words(self),
            b'V' => operand_words(self),
            b'Z' => divisor_words(self),
            _ => {
                return Message {
                    card: 0,
                    column: 1,
                    words: self.stray_words(),
                };
            }
        };
        self.placed(found)
    }
}

/// A message about the character behind so many of a statement: on its first card, or on the comma card that
/// has it, each of which has a column for its comma.
fn message_at<'a>(offset: usize, words: Words<'a>) -> Message<'a>
    ensures first { offset < 72 → (result.card ≡ 0) × (result.column ≡ offset + 1) }
    ensures behind { 72 ≤ offset → (result.card ≡ (offset - 72) / 71 + 1) × (result.column ≡ (offset - 72) % 71 + 2) }
    ensures read { (1 ≤ result.column) × (result.column ≤ 72) }
{
    if offset < READ_COLUMNS {
        return Message {
            card: 0,
            column: offset + 1,
            words,
        };
    }
    let behind_first = offset - READ_COLUMNS;
    Message {
        card: behind_first / COMMA_COLUMNS + 1,
        column: behind_first % COMMA_COLUMNS + 2,
        words,
    }
}
