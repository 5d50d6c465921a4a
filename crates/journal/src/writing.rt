//! The text of a record.
ghost use Rattle.std.specs.Prelude.{◌≡◌, ◌++◌, ◌∷◌, [], IfOk, OnErr, codes, decimal, map, flat_map};
ghost use Rattle.session_commands.specs.Lines.{behind_a_blank, line_in_batch, line_of_edit, name_and_seen, seen_text};
ghost use Rattle.journal.specs.CheckSums.{check_sum};
ghost use Rattle.journal.specs.RecordTexts.{IsLong};
ghost use Rattle.journal.specs.Records.{ended, first_line, line_of_change, line_of_edits, line_of_entry, log_line, lines_behind, lines_behind_change, lines_of_edits, lines_of_record, sum_line, text_behind_version, text_of_lines, text_of_record, text_with_version};

use crate::check_sums::{FIRST_SUM, sum_over};
use crate::record_texts::{RecordText, Writing};
use crate::records::{Entry, Record};
use cards::{Card, DeckName, Edit};
use desk_core::{Change, Edits};
use itoa::Buffer;
use moments::Moment;
use session_commands::Seen;
use std::alloc::{AllocError, Global};
use text_ports::Text;

/// Appends a blank and a word.
fn push_word(text: &mut Writing, word: &[u8])
    ensures { text.new ≡ text.old ++ behind_a_blank word.now }
{
    text.put(b" ");
    text.put(word);
}

/// Appends a blank and a number in decimal.
fn push_number(text: &mut Writing, number: u64)
    ensures { text.new ≡ text.old ++ behind_a_blank (decimal number) }
{
    let mut buffer = Buffer::new();
    push_word(text, buffer.format(number).as_bytes());
}

/// Appends a verb and a name.
fn push_verb_and_name(text: &mut Writing, verb: &[u8], name: &DeckName)
    ensures { text.new ≡ text.old ++ (verb.now ++ behind_a_blank (name.now ++ [])) }
{
    text.put(verb);
    push_word(text, name.as_slice());
}

/// Appends a verb and a number.
fn push_verb_and_number(text: &mut Writing, verb: &[u8], number: u64)
    ensures { text.new ≡ text.old ++ (verb.now ++ behind_a_blank (decimal number ++ [])) }
{
    text.put(verb);
    push_number(text, number);
}

/// Appends a verb, a place and a card.
fn push_verb_and_card(text: &mut Writing, verb: &[u8], at: u64, card: &Card)
    ensures { text.new ≡ text.old ++ (verb.now ++ behind_a_blank (decimal at ++ behind_a_blank card.now)) }
{
    text.put(verb);
    push_number(text, at);
    push_word(text, card.as_slice());
}

/// Appends a blank and a version that was seen.
fn push_seen(text: &mut Writing, seen: Seen)
    ensures { text.new ≡ text.old ++ behind_a_blank (seen_text seen) }
{
    match seen {
        Seen::Exactly(version) => push_number(text, version),
        Seen::Since(version) => {
            push_number(text, version);
            text.put(b"+");
        }
    }
}

/// Appends a verb, a name and the version that was seen.
fn push_target(text: &mut Writing, verb: &[u8], name: &DeckName, seen: Seen)
    ensures { text.new ≡ text.old ++ (verb.now ++ name_and_seen name.now seen []) }
{
    text.put(verb);
    push_word(text, name.as_slice());
    push_seen(text, seen);
}

/// Appends a verb, a name, the version that was seen, and a number.
fn push_target_and_number(text: &mut Writing, verb: &[u8], name: &DeckName, seen: Seen, number: u64)
    ensures { text.new ≡ text.old ++ (verb.now ++ name_and_seen name.now seen (behind_a_blank (decimal number ++ []))) }
{
    push_target(text, verb, name, seen);
    push_number(text, number);
}

/// Appends a verb, a name, the version that was seen, a place and a card.
fn push_target_and_card(
    text: &mut Writing,
    verb: &[u8],
    name: &DeckName,
    seen: Seen,
    at: u64,
    card: &Card,
)
    ensures { text.new ≡ text.old ++ (verb.now ++ name_and_seen name.now seen (behind_a_blank (decimal at ++ behind_a_blank card.now))) }
{
    push_target_and_number(text, verb, name, seen, at);
    push_word(text, card.as_slice());
}

/// Appends an edit as a line of a batch.
fn push_line_in_batch(text: &mut Writing, edit: &Edit)
    ensures { text.new ≡ text.old ++ line_in_batch edit.now }
{
    match edit {
        Edit::Insert { at, card } => push_verb_and_card(text, b"INS", *at, card),
        Edit::Replace { at, card } => push_verb_and_card(text, b"REP", *at, card),
        Edit::Remove { at } => push_verb_and_number(text, b"DEL", *at),
    }
}

/// Appends an edit of a deck.
fn push_edit(text: &mut Writing, name: &DeckName, seen: Seen, edit: &Edit)
    ensures { text.new ≡ text.old ++ line_of_edit name.now seen edit.now }
{
    match edit {
        Edit::Insert { at, card } => push_target_and_card(text, b"INS", name, seen, *at, card),
        Edit::Replace { at, card } => push_target_and_card(text, b"REP", name, seen, *at, card),
        Edit::Remove { at } => push_target_and_number(text, b"DEL", name, seen, *at),
    }
}

/// Appends edits of a deck as the line that asked for them.
fn push_edits_asked(text: &mut Writing, name: &DeckName, seen: Seen, edits: &Edits)
    ensures { text.new ≡ text.old ++ line_of_edits name.now seen edits.now }
{
    match edits {
        Edits::One(edit) => push_edit(text, name, seen, edit),
        Edits::Batch(edits) => {
            push_target_and_number(text, b"BATCH", name, seen, edits.as_slice().len() as u64)
        }
    }
}

/// Appends a change as the line that asked for it.
fn push_change(text: &mut Writing, change: &Change)
    ensures { text.new ≡ text.old ++ line_of_change change.now }
{
    match change {
        Change::AddDeck(deck) => push_verb_and_name(text, b"ADD", &deck.name),
        Change::PutDeck { deck, seen } => {
            let (seen, count) = (Seen::Exactly(*seen), deck.cards.len() as u64);
            push_target_and_number(text, b"PUT", &deck.name, seen, count)
        }
        Change::DropDeck { name, seen } => push_target(text, b"DROP", name, Seen::Exactly(*seen)),
        Change::EditDeck { name, seen, edits } => push_edits_asked(text, name, *seen, edits),
        Change::Undo { name, version } => push_target(text, b"UNDO", name, Seen::Exactly(*version)),
    }
}

/// Appends what a record shows.
fn push_entry(text: &mut Writing, entry: &Entry)
    ensures { text.new ≡ text.old ++ line_of_entry entry.now }
{
    match entry {
        Entry::Begun => text.put(b"BEGIN"),
        Entry::Made(change) => push_change(text, change),
    }
}

/// Appends a record as one line, and its line feed.
fn push_log_line(text: &mut Writing, record: &Record)
    ensures { text.new ≡ text.old ++ ended (log_line «record».now) }
{
    let mut buffer = Buffer::new();
    text.put(buffer.format(record.version).as_bytes());
    push_word(text, record.moment.as_slice());
    push_word(text, record.by.as_slice());
    text.put(b" ");
    push_entry(text, &record.entry);
    text.put(b"\n");
}

/// Appends the first line of a record, and its line feed.
fn push_first_line(text: &mut Writing, record: &Record)
    ensures { text.new ≡ text.old ++ ended (first_line «record».now) }
{
    text.put(b"RECORD ");
    push_log_line(text, record);
}

/// A record as one line, with its line feed: the version, when it was made, the name of the session, and
/// the line that asked for the change.
pub fn log_line(alloc: Global, record: &Record) -> Result<Text, AllocError>
    ensures { IfOk result (λ text. text ≡ ended (log_line «record».now)) }
{
    let mut text = Writing::new(alloc);
    push_log_line(&mut text, record);
    text.into_text()
}

/// Appends the lines of cards.
fn push_cards(text: &mut Writing, cards: &[Card])
    ensures { text.new ≡ text.old ++ text_of_lines (map behind_a_blank cards.now) }
{
    for card in cards {
        push_word(text, card.as_slice());
        text.put(b"\n");
    }
}

/// Appends the lines of edits.
fn push_edits(text: &mut Writing, edits: &[Edit])
    ensures { text.new ≡ text.old ++ text_of_lines (map behind_a_blank (map line_in_batch edits.now)) }
{
    for edit in edits {
        text.put(b" ");
        push_line_in_batch(text, edit);
        text.put(b"\n");
    }
}

/// Appends the lines of several edits; one stands on the line that asked for it.
fn push_lines_of_edits(text: &mut Writing, edits: &Edits)
    ensures { text.new ≡ text.old ++ text_of_lines (map behind_a_blank (lines_of_edits edits.now)) }
{
    match edits {
        Edits::One(_) => {}
        Edits::Batch(edits) => push_edits(text, edits.as_slice()),
    }
}

/// Appends the lines that belong to a change.
fn push_lines_behind_change(text: &mut Writing, change: &Change)
    ensures { text.new ≡ text.old ++ text_of_lines (map behind_a_blank (lines_behind_change change.now)) }
{
    match change {
        Change::AddDeck(deck) => push_cards(text, deck.cards.as_slice()),
        Change::PutDeck { deck, .. } => push_cards(text, deck.cards.as_slice()),
        Change::EditDeck { edits, .. } => push_lines_of_edits(text, edits),
        Change::DropDeck { .. } => {}
        Change::Undo { .. } => {}
    }
}

/// Appends the lines that belong to what a record shows.
fn push_lines_behind(text: &mut Writing, entry: &Entry)
    ensures { text.new ≡ text.old ++ text_of_lines (map behind_a_blank (lines_behind entry.now)) }
{
    match entry {
        Entry::Begun => {}
        Entry::Made(change) => push_lines_behind_change(text, change),
    }
}

/// Appends the line of a check sum, and its line feed.
fn push_sum(text: &mut Writing, sum: u32)
    ensures { text.new ≡ text.old ++ ended (sum_line sum) }
{
    push_verb_and_number(text, b"SUM", u64::from(sum));
    text.put(b"\n");
}

/// A text with the line of its check sum behind it, and its line feed.
fn with_sum(alloc: Global, front: Writing) -> Result<Text, AllocError>
    ensures { IfOk result (λ text. text ≡ front ++ ended (sum_line (check_sum front))) }
{
    let mut text = front.into_text()?;
    let mut line = Writing::new(alloc);
    push_sum(&mut line, sum_over(FIRST_SUM, text.as_slice()));
    text.append(line.into_text()?)?;
    Ok(text)
}

/// The text of a record.
pub fn record_text(alloc: Global, record: &Record) -> Result<Text, AllocError>
    ensures { IfOk result (λ text. text ≡ text_of_record «record».now) }
{
    let mut text = Writing::new(alloc);
    push_first_line(&mut text, record);
    push_lines_behind(&mut text, &record.entry);
    with_sum(alloc, text)
}

/// The text of the record of a change, from behind its version to in front of its check sum.
pub(crate) fn text_behind_version(
    alloc: Global,
    moment: &Moment,
    by: &DeckName,
    change: &Change,
) -> Result<RecordText, AllocError>
    ensures text { IfOk result (λ text. text ≡ text_behind_version moment.now by.now change.now) }
    ensures memory { OnErr result (IsLong (text_behind_version moment.now by.now change.now)) }
{
    let mut text = Writing::new(alloc);
    push_word(&mut text, moment.as_slice());
    push_word(&mut text, by.as_slice());
    text.put(b" ");
    push_change(&mut text, change);
    text.put(b"\n");
    push_lines_behind_change(&mut text, change);
    text.finish()
}

/// Appends the text of a record, by its version and the text behind it.
pub(crate) fn push_with_version(text: &mut Writing, version: u64, behind: &[u8])
    ensures { text.new ≡ text.old ++ text_with_version version behind.now }
{
    let mut buffer = Buffer::new();
    let number = buffer.format(version).as_bytes();
    let front = sum_over(sum_over(FIRST_SUM, b"RECORD "), number);
    text.put(b"RECORD ");
    text.put(number);
    text.put(behind);
    push_sum(text, sum_over(front, behind));
}
