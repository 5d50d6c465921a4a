//! The lines of one statement: its cards, its letters, and what it stores.
ghost use Rattle.std.specs.Prelude.{◌≡◌, ◌≢◌, ◌≤◌, ◌<◌, ◌+◌, ◌/◌, ◌%◌, ◌^◌, ◌++◌, List, map, length, take, drop, true, false};
ghost use Rattle.definitions.specs.Kinds.{units, word_bits};
ghost use Rattle.definitions.specs.Listing.{central_lines, unlinked};
ghost use Rattle.definitions.specs.Operations as op;
ghost use Rattle.definitions.specs.Words.{width_of};
ghost use Rattle.deck_listing.specs.Joins.ListedParts.{AreListable, IsListable, IsListableLine, line_text, lines_text, stored_text};
ghost use Rattle.deck_listing.specs.Joins.WordLines.{fields_text, has_one_line};
ghost use Rattle.deck_objects.specs.Joins.LineItems.{AreShort};
ghost use Rattle.statement_coder.specs.Joins.Items.{item_as};
ghost use Rattle.statement_coder.specs.Joins.WordItems.{known_words};
ghost use Rattle.operations.specs.Joins.OperationsAs.{operation_as};

use crate::card_line::CardLine;
use crate::field_lines::{joined_fields, push_known_words, push_word_lines};
use crate::lines::{push_card_lines, push_central_line, push_letters_line};
use crate::sheet::Sheet;
use cards::Card;
use deck_objects::{CodedLine, Line, LineFields, ObjectParts, listed};
use definitions::DeckKind;
use operations::Operation;
use statement_coder::Item;
use use_blocks::Bases;

/// Whether the fields of a statement have one line together: an instruction's, in a deck of central
/// words.
fn has_one_line(kind: DeckKind, operation: Operation) -> bool
    ensures { result ≡ has_one_line kind (operation_as operation) }
{
    match kind {
        DeckKind::Periph => false,
        DeckKind::Rel | DeckKind::Abs => operation.is_instruction(),
    }
}

/// The line of the fields of an instruction, at most 60 bits together.
#[inline(always)]
fn push_instruction(text: &mut Sheet, bases: &Bases, place: u32, items: &[Item])
    requires fields { AreShort (map item_as items.now) }
    requires short { width_of (map item_as items.now) ≤ 60 }
    ensures { text.new ≡ text.old ++ central_lines (unlinked bases.now) op.Instruction place (map item_as items.now) }
{
    if items.is_empty() {
        return;
    }
    let (width, bits) = joined_fields(bases, items);
    let place = place as u64;
    // Where the width is written out, no loop is left over the digits.
    match width {
        15 => push_central_line(text, place / 4, place % 4, 15, bits),
        30 => push_central_line(text, place / 4, place % 4, 30, bits),
        _ => push_central_line(text, place / 4, place % 4, width, bits),
    }
}

/// The lines of the fields of a statement.
#[inline(always)]
fn push_fields(text: &mut Sheet, parts: &ObjectParts, stored: &CodedLine, items: &[Item])
    requires stored { operation_as stored.now.operation ≢ op.Bssz }
    requires fields { AreShort (map item_as items.now) }
    requires short { has_one_line parts.now.kind (operation_as stored.now.operation) ≡ true → width_of (map item_as items.now) ≤ 60 }
    requires whole { has_one_line parts.now.kind (operation_as stored.now.operation) ≡ false → width_of (map item_as items.now) % word_bits parts.now.kind ≡ 0 }
    requires few { width_of (map item_as items.now) < 2 ^ 40 }
    ensures { text.new ≡ text.old
        ++ fields_text parts.now.kind (unlinked parts.now.bases) (operation_as stored.now.operation) stored.now.place (map item_as items.now) }
{
    let kind = parts.kind;
    if has_one_line(kind, stored.operation) {
        push_instruction(text, &parts.bases, stored.place, items);
        return;
    }
    let word = stored.place / kind.units();
    push_word_lines(text, kind, &parts.bases, word as u64, items);
}

/// The lines of words that a statement stores, and that are known.
#[inline(always)]
fn push_words(text: &mut Sheet, parts: &ObjectParts, stored: &CodedLine, words: &[u64])
    requires stored { operation_as stored.now.operation ≢ op.Bssz }
    requires fields { AreShort (known_words (word_bits parts.now.kind) words.now) }
    requires several { has_one_line parts.now.kind (operation_as stored.now.operation) ≡ false }
    requires few { length words.now < 2 ^ 32 }
    ensures { text.new ≡ text.old ++ fields_text parts.now.kind (unlinked parts.now.bases) (operation_as stored.now.operation) stored.now.place
        (known_words (word_bits parts.now.kind) words.now) }
{
    let word = stored.place / parts.kind.units();
    push_known_words(text, parts.kind, u64::from(word), words);
}

/// The lines of what a statement stores; the zeros of a BSSZ have none.
fn push_stored(text: &mut Sheet, parts: &ObjectParts, stored: &CodedLine)
    requires { IsListable parts.now.kind parts.now.fields stored.now }
    ensures { text.new ≡ text.old ++ stored_text parts.now.kind parts.now.bases parts.now.fields (Some stored.now) }
{
    match stored.fields {
        LineFields::Absent | LineFields::Zeros => {}
        LineFields::Known(bits) => {
            push_fields(text, parts, stored, &[stored.known_field(parts.kind, bits)]);
        }
        LineFields::Words { first, count } => {
            let words = listed(parts.fields.words.as_slice(), first, count);
            push_words(text, parts, stored, words);
        }
        LineFields::Listed { first, count } => {
            let fields = listed(parts.fields.items.as_slice(), first, count);
            push_fields(text, parts, stored, fields);
        }
    }
}

/// The lines of a statement that has these cards, the first of which has the next line.
fn push_statement(
    text: &mut Sheet,
    parts: &ObjectParts,
    next: &mut CardLine,
    cards: &[Card],
    shown: &Line,
)
    requires few { next.old + length cards.now < 2 ^ 60 }
    requires listable { IsListableLine parts.now.kind parts.now.fields shown.now.coded }
    ensures text { text.new ≡ text.old ++ line_text parts.now.kind parts.now.bases parts.now.fields next.old cards.now shown.now }
    ensures next { next.new ≡ next.old + length cards.now }
{
    push_card_lines(text, next, cards);
    push_letters_line(text, &shown.letters);
    match &shown.coded {
        None => {}
        Some(stored) => push_stored(text, parts, stored),
    }
}

/// The first cards of some, at most so many, and those behind them.
pub(crate) fn split_cards(cards: &[Card], count: u32) -> (&[Card], &[Card])
    ensures first { result.0.now ≡ take count cards.now }
    ensures behind { result.1.now ≡ drop count cards.now }
    ensures all { length result.0.now + length result.1.now ≡ length cards.now }
{
    cards.split_at(cards.len().min(count as usize))
}

/// The lines of all statements of a deck with these cards.
pub(crate) fn push_statements(text: &mut Sheet, cards: &[Card], parts: &ObjectParts)
    requires few { length cards.now < 2 ^ 60 }
    requires listable { AreListable parts.now.kind parts.now.fields parts.now.lines.items }
    ensures { text.new ≡ text.old ++ lines_text parts.now.kind parts.now.bases parts.now.fields 0 cards.now parts.now.lines.items }
{
    let mut next = CardLine::first();
    let mut ahead = cards;
    for shown in &parts.lines {
        let (own, behind) = split_cards(ahead, shown.cards);
        push_statement(text, parts, &mut next, own, shown);
        ahead = behind;
    }
}
