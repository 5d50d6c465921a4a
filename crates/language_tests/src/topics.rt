//! What each topic makes of a text.

use crate::outputs::Answer;
use crate::{
    card_topics, deck_topics, edited_decks, expression_topics, field_topics, item_topics,
    link_topics, operation_topics, port_topics, statement_topics,
};
use cards::{Card, DeckName};
use expr_forms::number_literal;
use operations::pseudo_instruction;
use std::alloc::AllocError;
use test_parts::signed;

/// Whether there is such a topic; what is found of the text is then in the answer. Here those of ports, cards and
/// edits for which memory is asked.
pub fn answer(answer: &mut Answer, topic: &str, text: &str) -> Result<bool, AllocError> {
    let done = match topic {
        "displays" => port_topics::displays(answer, text),
        "lines" => port_topics::lines(answer, text),
        "texts" => port_topics::grown_text(answer, text),
        "statements" => card_topics::statements_of(answer, text),
        "fields" => card_topics::statement_fields(answer, text),
        "edit_faults" | "first_faults" => card_topics::faults(answer, topic, text),
        "edits" => card_topics::edited(answer, text),
        "central_digits" => operation_topics::central_digits(answer, text),
        _ if plain_answer(answer, topic, text) => return Ok(true),
        _ => return upper_answer(answer, topic, text),
    };
    done?;
    Ok(true)
}

/// The same of the others, and of operations.
fn plain_answer(answer: &mut Answer, topic: &str, text: &str) -> bool {
    let bytes = text.as_bytes();
    match topic {
        "octals" => port_topics::digits(answer, text),
        "writes" => port_topics::writes(answer, text),
        "short_texts" => port_topics::short_text(answer, text),
        "cards" => answer.or_fault(&Card::read(bytes), card_topics::card),
        "deck_names" => answer.or_fault(&DeckName::read(bytes), card_topics::deck_name),
        "card_fields" => answer.or_fault(&Card::read(bytes), card_topics::card_fields),
        "operations" => answer.or_none(&pseudo_instruction(bytes), Answer::debug),
        "classes" => operation_topics::classes(answer, text),
        "deck_kinds" => operation_topics::deck_kind(answer, text),
        "settings" => operation_topics::settings(answer, text),
        "letters" => operation_topics::letters(answer, text),
        "central_codes" => operation_topics::central_codes(answer, text),
        "central_tables" => operation_topics::central_table(answer, text),
        "central" | "peripheral" | "peripheral_codes" => {
            operation_topics::instruction(answer, topic, text);
        }
        "central_ignoring" => answer.or_none(
            &cpu_opcodes::ignoring(bytes),
            operation_topics::shape,
        ),
        "peripheral_ignoring" => {
            answer.or_none(&ppu_opcodes::ignoring(bytes), operation_topics::shape);
        }
        _ => return false,
    }
    true
}

/// The same of literals, statements, decks and links for which memory is asked.
fn upper_answer(answer: &mut Answer, topic: &str, text: &str) -> Result<bool, AllocError> {
    let done = match topic {
        "literal_lists" => statement_topics::literals(answer, text),
        "literal_limits" => statement_topics::many_literals(answer, text),
        "sizes" | "codes" => statement_topics::one_card(answer, topic, text),
        "effects" => statement_topics::effects(answer, text),
        "states" => statement_topics::state(answer, text),
        "block_bases" => statement_topics::bases(answer, text),
        "sized_decks" | "symbols_of_decks" | "lines_of_decks" | "parts_of_decks" => {
            deck_topics::deck(answer, topic, text)
        }
        "records" => deck_topics::record(answer, text),
        "record_edits" => deck_topics::record_edits(answer, text, b"          DATA   1"),
        "record_kinds" => deck_topics::record_edits(answer, text, b"          ABS"),
        "edited_decks" | "counted_edits" => edited_decks::edited_deck(answer, topic, text),
        "listings" | "ends_of_listings" | "images" => link_topics::linked(answer, topic, text),
        "layouts" => link_topics::layout(answer),
        _ => return Ok(other_answer(answer, topic, text)),
    };
    done?;
    Ok(true)
}

/// The same of items, and of the other topics, which are those of fields and expressions.
fn other_answer(answer: &mut Answer, topic: &str, text: &str) -> bool {
    match topic {
        "items" => item_topics::counted_item(answer, text),
        "values_in_fields" => item_topics::coded(answer, text),
        "number_literals" => answer.octal(&number_literal(signed(text))),
        "characters" => item_topics::characters(answer, text),
        "widths" => answer.or_none(&item_topics::shape_of(text), item_topics::width),
        "counters" => statement_topics::counters(answer, text),
        _ => {
            return field_topics::answer(answer, topic, text)
                || expression_topics::answer(answer, topic, text);
        }
    }
    true
}
