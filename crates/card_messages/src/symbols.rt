//! The symbols of a deck, a line each: the value and the block of each symbol, and the cards that define and
//! read it (COMPASS 60492600, symbolic reference table; the form is ours).

use crate::first_cards::cards_of;
use crate::symbol_keys::{key_of, without_blanks};
use cards::{Card, StatementRoom};
use deck_assembler::{SizedDeck, SizedStatement};
use expr_forms::{BitFields, ConWords, Datum, Expr, Field, Form, LinkedNames, Part, Relocation};
use operations::Operation;
use statement_coder::{Defines, ReadOperand, Reading, Statement, kept_operand};
use std::alloc::{AllocError, Global};
use std::hash::RandomState;
use text_ports::Text;

/// The first number that has more than eight octal digits.
const NINE_DIGITS: u64 = 0o100_000_000;

/// A symbol on a card, in the order of names, in which a card that defines it stands before those that
/// read it.
#[derive(Clone, Copy, PartialEq, Eq, PartialOrd, Ord)]
struct Mention {
    /// The characters of the name with blanks behind them, the first in the highest place.
    key: u64,
    reads: bool,
    card: u32,
}

/// The symbols on the cards of a deck, in no order.
#[derive(Drop)]
struct Mentions {
    found: Vec<Mention>,
}

impl Mentions {
    fn note(&mut self, name: &[u8], reads: bool, card: u32) -> Result<(), AllocError> {
        if let Some(key) = key_of(name) {
            self.found.push(Mention { key, reads, card })?;
        }
        Ok(())
    }

    /// The symbols that an expression reads.
    fn note_expression(&mut self, expression: &Expr<'_>, card: u32) -> Result<(), AllocError> {
        let mut symbols = expression.symbols();
        for _ in 0..u64::MAX {
            match symbols.next() {
                Some(name) => self.note(name, true, card)?,
                None => return Ok(()),
            }
        }
        Ok(())
    }

    /// The names of an ENTRY, which reads them, or of an EXT, which defines them.
    fn note_names(
        &mut self,
        names: &LinkedNames<'_>,
        reads: bool,
        card: u32,
    ) -> Result<(), AllocError> {
        let mut rest = names.copied();
        for _ in 0..u64::MAX {
            match rest.next() {
                Some(Some(name)) => self.note(name, reads, card)?,
                Some(None) => {}
                None => return Ok(()),
            }
        }
        Ok(())
    }

    fn note_words(&mut self, words: &ConWords<'_>, card: u32) -> Result<(), AllocError> {
        let mut rest = words.copied();
        for _ in 0..u64::MAX {
            match rest.next() {
                Some(Datum::Expression(expression)) => self.note_expression(&expression, card)?,
                Some(_) => {}
                None => return Ok(()),
            }
        }
        Ok(())
    }

    fn note_bits(&mut self, fields: &BitFields<'_>, card: u32) -> Result<(), AllocError> {
        let mut rest = fields.copied();
        for _ in 0..u64::MAX {
            match rest.next() {
                Some(field) => self.note_second(&field.value, card)?,
                None => return Ok(()),
            }
        }
        Ok(())
    }

    fn note_second(&mut self, value: &Option<Expr<'_>>, card: u32) -> Result<(), AllocError> {
        match value {
            Some(expression) => self.note_expression(expression, card),
            None => Ok(()),
        }
    }

    fn note_field(&mut self, field: &Field<'_>, card: u32) -> Result<(), AllocError> {
        match field {
            Field::Absent | Field::Zero => Ok(()),
            Field::Address(value)
            | Field::Count(value)
            | Field::Short(value)
            | Field::Displacement(value)
            | Field::Shift(value)
            | Field::Wide(value) => self.note_expression(value, card),
            Field::Long(value, second) => {
                self.note_expression(value, card)?;
                self.note_second(&second.expression(), card)
            }
        }
    }

    /// The symbols that an operand reads.
    fn note_operand(&mut self, read: &ReadOperand<'_>, card: u32) -> Result<(), AllocError> {
        match &read.reading {
            Reading::Instruction(shape) => self.note_field(&shape.field, card),
            Reading::Con(words) => self.note_words(words, card),
            Reading::Vfd(fields) => self.note_bits(fields, card),
            Reading::Value(value) => self.note_expression(value, card),
            Reading::Names(names) if read.operation == Operation::Entry => {
                self.note_names(names, true, card)
            }
            _ => Ok(()),
        }
    }

    /// The symbols that a statement defines, and those that it reads, as they stand on a card.
    fn note_statement(
        &mut self,
        statement: &Statement<'_>,
        sized: &SizedStatement,
        card: u32,
    ) -> Result<(), AllocError> {
        let read = kept_operand(statement.kind, sized.operation, &sized.kept);
        match (&sized.sizing.defines(statement.kind), &read.reading) {
            (Defines::Symbol(_), _) => self.note(statement.location, false, card)?,
            (Defines::Externals, Reading::Names(names)) => self.note_names(names, false, card)?,
            _ => {}
        }
        self.note_operand(&read, card)
    }
}

/// The symbols on the cards of a deck up to END, in order.
fn mentions_of(alloc: Global, cards: &[Card], sized: &SizedDeck) -> Result<Mentions, AllocError> {
    let mut mentions = Mentions {
        found: Vec::new(alloc),
    };
    let mut room = StatementRoom::new();
    let (mut left, mut card) = (cards, 1u32);
    for piece in sized.pieces() {
        for statement in piece.statements() {
            let read = Statement::read(sized.kind(), cards_of(left, statement.cards), &mut room);
            mentions.note_statement(&read, statement, card)?;
            left = left.split_at(left.len().min(statement.cards as usize)).1;
            card = card.saturating_add(statement.cards as u32);
        }
    }
    mentions.found.sort_unstable();
    Ok(mentions)
}

/// Writes a number in octal: at least eight digits, and a sign where it is negative.
fn push_number(text: &mut Text, number: i64) -> Result<(), AllocError> {
    if number < 0 {
        text.push_byte(b'-')?;
    }
    let digits = number.unsigned_abs();
    text.push_octal(if digits < NINE_DIGITS { 8 } else { 20 }, digits)
}

/// Writes what a form is relative to, `-` where it is absolute.
fn push_relocation(text: &mut Text, relocation: Relocation) -> Result<(), AllocError> {
    match relocation {
        Relocation::Block(name) => text.push_bytes(name.as_slice()),
        Relocation::External(name) => {
            text.push_bytes(b"EXT ")?;
            text.push_bytes(name.as_slice())
        }
    }
}

/// Writes the value of a symbol and its block.
fn push_form(text: &mut Text, form: Option<Form>) -> Result<(), AllocError> {
    let Some(form) = form else {
        return text.push_bytes(b"UNDEFINED");
    };
    push_number(text, form.number())?;
    text.push_byte(b' ')?;
    match form.part() {
        None => text.push_byte(b'-'),
        Some(Part::Added(relocation)) => push_relocation(text, relocation),
        Some(Part::Subtracted(relocation)) => {
            text.push_bytes(b"MINUS ")?;
            push_relocation(text, relocation)
        }
    }
}

/// Writes the lines of symbols that stand on cards, in order: one for each symbol. Of the cards that
/// define it the first counts, and the others are flagged.
fn push_lines(text: &mut Text, mentions: &[Mention], sized: &SizedDeck) -> Result<(), AllocError> {
    let mut before: Option<Mention> = None;
    for mention in mentions {
        if before == Some(*mention) {
            continue;
        }
        let is_new = before.is_none_or(|other| other.key != mention.key);
        if !is_new && !mention.reads {
            continue;
        }
        if is_new {
            if before.is_some() {
                text.push_byte(b'\n')?;
            }
            let name = mention.key.to_be_bytes();
            text.push_bytes(&name)?;
            text.push_byte(b' ')?;
            push_form(text, sized.symbols().value(without_blanks(&name)))?;
        }
        if is_new || before.is_none_or(|other| other.reads != mention.reads) {
            text.push_bytes(if mention.reads { b" READ" } else { b" DEFINED" })?;
        }
        text.push_byte(b' ')?;
        text.push_padded(5, u64::from(mention.card))?;
        before = Some(*mention);
    }
    if before.is_some() {
        text.push_byte(b'\n')?;
    }
    Ok(())
}

/// Writes the lines of the symbols of the deck with these cards, in the order of names; its tables hash by these
/// keys.
pub fn push_symbols(
    alloc: Global,
    keys: RandomState,
    text: &mut Text,
    cards: &[Card],
) -> Result<(), AllocError> {
    let mut meter = work_meter::begin();
    let sized = SizedDeck::new(alloc, keys, cards, &mut meter)?;
    let pushed = push_mentions(alloc, text, cards, &sized);
    sized.free();
    pushed
}

/// Writes the lines of the symbols of these cards, whose statements are sized.
fn push_mentions(
    alloc: Global,
    text: &mut Text,
    cards: &[Card],
    sized: &SizedDeck,
) -> Result<(), AllocError> {
    let mentions = mentions_of(alloc, cards, sized)?;
    push_lines(text, &mentions.found, sized)
}
