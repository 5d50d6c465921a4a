//! Cards, names of decks, statements and their fields; edits of a deck's cards, and their faults.

use crate::outputs::Answer;
use cards::{
    Card, DeckName, Edit, Fields, StatementRoom, apply, fault_of, fields, first_fault, statements,
};
use std::alloc::{AllocError, Global};
use test_parts::{card_of, cut, cut_number, number, size};

/// A card, whether it is a comment or a comma card, and the columns that are read.
pub fn card(answer: &mut Answer, card: &Card) {
    answer.quoted(card.as_slice());
    answer.either(card.is_comment(), "comment", "-");
    answer.either(card.is_comma_card(), "comma", "-");
    answer.number(&card.read_columns().len());
    answer.quoted(card.read_columns().split_at(4).0);
}

pub fn deck_name(answer: &mut Answer, name: &DeckName) {
    answer.quoted(name.as_slice())
}

/// How often a line counts, and the line: `#3 LINE` stands for three.
pub fn counted(line: &str) -> (u64, &str) {
    match line.strip_prefix("#") {
        Some(counted) => cut_number(counted),
        None => (1, line),
    }
}

/// The cards of lines; a line such as `#3 CARD` stands for three cards.
pub fn repeated_cards(alloc: Global, text: &str) -> Result<Vec<Card>, AllocError> {
    let mut cards = Vec::new(alloc);
    for line in text.lines() {
        let (times, line) = counted(line);
        push_cards(&mut cards, times, line)?;
    }
    Ok(cards)
}

/// So many cards of this line more.
pub fn push_cards(cards: &mut Vec<Card>, times: u64, line: &str) -> Result<(), AllocError> {
    for _ in 0..times {
        cards.push(card_of(line)?)?;
    }
    Ok(())
}

/// The statements of cards that have these marks in column 1: where each begins, and its cards.
pub fn statements_of(answer: &mut Answer, marks: &str) -> Result<(), AllocError> {
    let mut cards = Vec::new(answer.alloc);
    for mark in marks.as_bytes() {
        if let Ok(card) = Card::read(&[*mark, b'X']) {
            cards.push(card)?;
        }
    }
    let list = statements(answer.alloc, &cards)?;
    answer.number(&list.as_slice().len());
    for span in list.as_slice() {
        answer.word(format!(in answer.alloc; "{}+{}", span.start, span.count)?.as_str());
    }
    Ok(())
}

fn quote_fields(answer: &mut Answer, fields: &Fields<'_>) {
    answer.quoted(fields.location());
    answer.quoted(fields.operation());
    answer.quoted(fields.variable());
}

/// The fields of a statement of these cards.
pub fn statement_fields(answer: &mut Answer, text: &str) -> Result<(), AllocError> {
    let cards = repeated_cards(answer.alloc, text)?;
    if cards.len() > 10 {
        answer.word("too many");
        return Ok(());
    }
    let mut room = StatementRoom::new();
    quote_fields(answer, &fields(&cards, &mut room));
    Ok(())
}

pub fn card_fields(answer: &mut Answer, card: &Card) {
    quote_fields(answer, &Fields::of_card(card))
}

/// The edit of a word, if it is one: `I20`, this card comes in at place 20, `R20`, the card at place 20 goes.
fn edit_of(word: &str, line: &[u8]) -> Option<Edit> {
    if let Some(at) = word.strip_prefix("R") {
        return Some(Edit::Remove { at: number(at) });
    }
    let at = number(word.strip_prefix("I")?);
    let card = Card::read(line).ok()?;
    Some(Edit::Insert { at, card })
}

/// The edits of these words.
pub fn edits_of(alloc: Global, text: &str, line: &[u8]) -> Result<Vec<Edit>, AllocError> {
    let mut edits = Vec::new(alloc);
    for word in text.split_whitespace() {
        if let Some(edit) = edit_of(word, line) {
            edits.push(edit)?;
        }
    }
    Ok(edits)
}

/// The fault of each edit of a deck with so many cards, or the first fault of edits that are made one behind the other.
pub fn faults(answer: &mut Answer, topic: &str, text: &str) -> Result<(), AllocError> {
    let (count, words) = cut(text);
    let count = size(count);
    let edits = edits_of(answer.alloc, words, b" NO")?;
    if topic == "first_faults" {
        answer.debug(&first_fault(&edits, count));
        return Ok(());
    }
    for edit in &edits {
        answer.debug(&fault_of(edit, count));
    }
    Ok(())
}

/// How many cards there are behind each edit of an empty deck.
pub fn edited(answer: &mut Answer, text: &str) -> Result<(), AllocError> {
    let mut cards = Vec::new(answer.alloc);
    for edit in &edits_of(answer.alloc, text, b" NO")? {
        if fault_of(edit, cards.len()).is_some() {
            answer.word("does not apply");
            return Ok(());
        }
        apply(&mut cards, edit)?;
        answer.number(&cards.len());
    }
    Ok(())
}
