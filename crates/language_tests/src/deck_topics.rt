//! Whole decks: how they are sized and coded, and the records of decks that are edited.
ghost use Rattle.std.specs.Prelude.{◌≤◌, length};
ghost use Rattle.deck_assembler.specs.Joins.SizedDecks.{IsSizedDeck};

use crate::card_topics::{edits_of, push_cards, repeated_cards};
use crate::expression_topics::form;
use crate::item_topics::item;
use crate::outputs::Answer;
use crate::statement_topics::{bases_shown, lengths_shown, meter, position_shown, words};
use cards::Card;
use deck_assembler::{Piece, SizedDeck, object_parts};
use deck_objects::{CodedLine, Line, LineFields, ObjectParts};
use edit_core::Kept;
use std::alloc::AllocError;
use test_parts::{counted_record, cut, name_of, new_record, number};
use work_meter::Meter;

/// What a topic shows of the deck of these lines.
pub fn deck(answer: &mut Answer, topic: &str, text: &str) -> Result<(), AllocError> {
    let cards = repeated_cards(answer.alloc, text)?;
    let mut done = work_meter::begin();
    let deck = SizedDeck::new(answer.alloc, answer.keys, &cards, &mut done)?;
    let shown = sized_deck(answer, topic, &cards, &deck, &mut done);
    deck.free();
    shown
}

/// What it shows of these cards, whose statements are sized.
fn sized_deck(
    answer: &mut Answer,
    topic: &str,
    cards: &[Card],
    deck: &SizedDeck,
    done: &mut Meter,
) -> Result<(), AllocError>
    requires { IsSizedDeck cards.now deck.now }
{
    match topic {
        "sized_decks" => {
            sized(answer, deck);
            meter(answer, done);
        }
        "symbols_of_decks" => values(answer, deck),
        _ if cards.len() > 20_000 => answer.word("too many"),
        _ => return parts(answer, topic, cards, deck, done),
    }
    Ok(())
}

/// What it shows of the parts of their object.
fn parts(
    answer: &mut Answer,
    topic: &str,
    cards: &[Card],
    deck: &SizedDeck,
    done: &mut Meter,
) -> Result<(), AllocError>
    requires few { length cards.now ≤ 20000 }
    requires sized { IsSizedDeck cards.now deck.now }
{
    let parts = object_parts(answer.alloc, answer.keys, cards, deck, done)?;
    object(answer, topic, &parts, done);
    Ok(())
}

/// How many statements a piece has, the state that it begins with, and for few statements the cards
/// of each and where it ends, if it has a place.
fn piece(answer: &mut Answer, piece: &Piece) {
    answer.word("; piece");
    answer.number(&piece.statements().len());
    position_shown(answer, piece.state().block().position());
    answer.debug(&piece.state().number_base());
    if piece.statements().len() > 10 {
        return;
    }
    for statement in piece.statements() {
        answer.number(&statement.cards);
        if statement.sizing.is_placed() {
            answer.word("to");
            answer.number(&statement.sizing.end());
        }
    }
}

/// A deck as it is sized: its pieces, the cards behind its end, its literals and its blocks.
fn sized(answer: &mut Answer, deck: &SizedDeck) {
    answer.debug(&deck.kind());
    for found in deck.pieces() {
        piece(answer, found);
    }
    answer.word("; behind");
    for count in deck.behind() {
        answer.number(count);
    }
    answer.word("; literals");
    words(answer, deck.literals().words());
    answer.word("; blocks");
    lengths_shown(answer, deck.lengths());
    answer.word(";");
}

/// The values of the symbols N, A, B, BUFFER and SUB of a deck.
fn values(answer: &mut Answer, deck: &SizedDeck) {
    for name in ["N", "A", "B", "BUFFER", "SUB"] {
        answer.word(name);
        answer.or_none(&deck.symbols().value(name.as_bytes()), form);
    }
}

fn coded_line(answer: &mut Answer, line: &CodedLine) {
    answer.debug(&line.operation);
    answer.number(&line.block);
    answer.number(&line.place);
    answer.number(&line.end);
    answer.either(line.begins_run, "run", "-");
    match line.fields {
        LineFields::Absent => answer.word("absent"),
        LineFields::Known(bits) => answer.octal(&bits.get()),
        LineFields::Words { first, count } => {
            answer.word("words");
            answer.number(&first);
            answer.number(&count)
        }
        LineFields::Listed { first, count } => {
            answer.word("listed");
            answer.number(&first);
            answer.number(&count)
        }
        LineFields::Zeros => answer.word("zeros"),
    }
}

/// How many cards a line has, its letters, and what it stores.
fn line(answer: &mut Answer, line: &Line) {
    answer.word(";");
    answer.number(&line.cards);
    answer.quoted(line.letters.text().as_slice());
    answer.or_none(&line.coded, coded_line)
}

/// The lines of a deck's object and what was done, or its fields and names.
fn object(answer: &mut Answer, topic: &str, parts: &ObjectParts, done: &Meter) {
    if topic == "parts_of_decks" {
        return names(answer, parts);
    }
    answer.debug(&parts.kind);
    for coded in &parts.lines {
        line(answer, coded);
    }
    answer.word(";");
    meter(answer, done)
}

/// The fields, the words, the entries, the externals, the literals and the blocks of an object.
fn names(answer: &mut Answer, parts: &ObjectParts) {
    for field in &parts.fields.items {
        item(answer, field);
        answer.word(";");
    }
    answer.word("words");
    words(answer, parts.fields.words.as_slice());
    answer.word(";");
    for entry in &parts.entries {
        answer.word("entry");
        answer.bare(entry.name().as_slice());
        form(answer, &entry.form());
    }
    for name in &parts.externals {
        answer.word("external");
        answer.bare(name.as_slice());
    }
    answer.word("literals");
    words(answer, &parts.literals);
    bases_shown(answer, &parts.bases)
}

/// The record of the deck of these lines: its name, its cards, how many statements its pieces have, what was done,
/// and how many lines its object has.
pub fn record(answer: &mut Answer, text: &str) -> Result<(), AllocError> {
    let name = name_of("M")?;
    let cards = repeated_cards(answer.alloc, text)?;
    let mut done = work_meter::begin();
    let kept = counted_record(answer.alloc, name, cards, &mut done)?;
    answer.bare(kept.name().as_slice());
    answer.number(&kept.cards().len());
    answer.debug(&kept.pieces());
    answer.either(kept.is_spent(), "spent", "-");
    meter(answer, &done);
    finished(answer, &kept, false);
    kept.free();
    Ok(())
}

/// How many cards the object of a record has, or how many lines.
fn finished(answer: &mut Answer, kept: &Kept, is_of_cards: bool) {
    match kept.finish() {
        Ok(object) if is_of_cards => answer.number(&object.object().cards().len()),
        Ok(object) => answer.number(&object.object().parts().lines.len()),
        Err(_) => answer.word("no object"),
    }
}

fn made(answer: &mut Answer, _edit: &()) {
    answer.word("made")
}

/// Makes the edits of these words, and shows what was done and how many cards and pieces there are then.
fn make_edits(
    answer: &mut Answer,
    kept: &mut Kept,
    words: &str,
    card: &[u8],
) -> Result<(), AllocError> {
    let mut done = work_meter::begin();
    for edit in &edits_of(answer.alloc, words, card)? {
        let outcome = kept.edit(answer.alloc, answer.keys, edit, &mut done);
        answer.or_fault(&outcome, made);
    }
    meter(answer, &done);
    answer.number(&kept.cards().len());
    answer.number(&kept.pieces().len());
    answer.debug(&kept.pieces().first());
    finished(answer, kept, true);
    Ok(())
}

/// Edits of the record of a deck of comment cards: how many cards, and the edits, such as `R20`, the
/// card at place 20 goes, and `I20`, this card comes in at place 20.
pub fn record_edits(answer: &mut Answer, text: &str, card: &[u8]) -> Result<(), AllocError> {
    let (count, words) = cut(text);
    let mut cards = Vec::new(answer.alloc);
    push_cards(&mut cards, number(count).min(20_000), "*A")?;
    let mut kept = new_record(answer.alloc, name_of("M")?, cards)?;
    let made = make_edits(answer, &mut kept, words, card);
    kept.free();
    made
}
