//! What one line makes of the record that is open.
ghost use Rattle.std.specs.Prelude.{◌≡◌, IfOk, drop};
ghost use Rattle.definitions.specs.Characters.{blank};
ghost use Rattle.definitions.specs.Cards.{begins_with};
ghost use Rattle.session_commands.specs.Edits.{edit_in_batch};
ghost use Rattle.journal.specs.Steps.{change_with, deck_with, edits_with, end_step, entry_with, has_all, inner_step, line_step, more_edits, open_behind, sum_in};

use crate::beginning::{Open, opened};
use crate::check_sums::sum_over_line;
use crate::records::{Entry, Record};
use cards::{Card, Edit};
use definitions::is_same_text;
use desk_core::{Change, Edits, Listed, NewDeck};
use session_commands::{
    behind_blank, behind_word, first_number, from_blank, read_batch_line, to_blank,
};
use std::alloc::{AllocError, Global};

/// What a line makes.
#[derive(Drop)]
pub(crate) enum Step {
    /// The record goes on.
    Goes(Open),
    /// The record is whole.
    Ends(Record),
    /// The record ends, but its check sum is wrong, or edits or cards are missing.
    Wrong,
    /// The line belongs to no record.
    Bad,
}

/// A deck with the card of a text, if it shows one.
fn deck_with(deck: NewDeck, text: &[u8]) -> Result<Option<NewDeck>, AllocError>
    ensures { IfOk result (λ with. with ≡ deck_with deck text.now) }
{
    let Ok(card) = Card::read(text) else {
        return Ok(None);
    };
    let NewDeck { name, mut cards } = deck;
    cards.push(card)?;
    Ok(Some(NewDeck::new(name, cards)))
}

/// Edits with the edit of a text, if it shows one.
fn edits_with(edits: Listed<Edit>, text: &[u8]) -> Result<Option<Listed<Edit>>, AllocError>
    ensures { IfOk result (λ with. with ≡ edits_with edits (edit_in_batch text.now)) }
{
    let Ok(edit) = read_batch_line(text) else {
        return Ok(None);
    };
    let mut edits = edits.into_items();
    edits.push(edit)?;
    Ok(Some(Listed::new(edits)))
}

/// Several edits with the edit of a text, if it shows one.
fn more_edits(edits: Edits, text: &[u8]) -> Result<Option<Edits>, AllocError>
    ensures { IfOk result (λ with. with ≡ more_edits edits text.now) }
{
    match edits {
        Edits::One(_) => Ok(None),
        Edits::Batch(edits) => match edits_with(edits, text)? {
            Some(edits) => Ok(Some(Edits::Batch(edits))),
            None => Ok(None),
        },
    }
}

/// A change with the card or the edit of a text.
fn change_with(change: Change, text: &[u8]) -> Result<Option<Change>, AllocError>
    ensures { IfOk result (λ with. with ≡ change_with change text.now) }
{
    match change {
        Change::AddDeck(deck) => match deck_with(deck, text)? {
            Some(deck) => Ok(Some(Change::AddDeck(deck))),
            None => Ok(None),
        },
        Change::PutDeck { deck, seen } => match deck_with(deck, text)? {
            Some(deck) => Ok(Some(Change::PutDeck { deck, seen })),
            None => Ok(None),
        },
        Change::EditDeck { name, seen, edits } => match more_edits(edits, text)? {
            Some(edits) => Ok(Some(Change::EditDeck { name, seen, edits })),
            None => Ok(None),
        },
        Change::DropDeck { .. } => Ok(None),
        Change::Undo { .. } => Ok(None),
    }
}

/// What a record shows with the card or the edit of a text.
fn entry_with(entry: Entry, text: &[u8]) -> Result<Option<Entry>, AllocError>
    ensures { IfOk result (λ with. with ≡ entry_with entry text.now) }
{
    match entry {
        Entry::Begun => Ok(None),
        Entry::Made(change) => match change_with(change, text)? {
            Some(change) => Ok(Some(Entry::Made(change))),
            None => Ok(None),
        },
    }
}

/// A line behind a blank, which has a card or an edit.
fn inner_step(current: Open, line: &[u8]) -> Result<Step, AllocError>
    ensures { IfOk result (λ step. step ≡ inner_step current line.now (entry_with current.so_far.entry (drop 1 line.now))) }
{
    let Open { so_far, lines, sum } = current;
    let Record {
        version,
        moment,
        by,
        entry,
    } = so_far;
    let Some(entry) = entry_with(entry, behind_blank(line))? else {
        return Ok(Step::Bad);
    };
    let so_far = Record {
        version,
        moment,
        by,
        entry,
    };
    let sum = sum_over_line(sum, line);
    Ok(Step::Goes(Open { so_far, lines, sum }))
}

/// Whether a batch or a put has as many edits or cards as it announced.
fn has_all(entry: &Entry, count: u64) -> bool
    ensures { result ≡ has_all entry.now count }
{
    match entry {
        Entry::Made(
            Change::EditDeck {
                edits: Edits::Batch(edits),
                ..
            },
        ) => edits.as_slice().len() as u64 == count,
        Entry::Made(Change::PutDeck { deck, .. }) => deck.cards.len() as u64 == count,
        _ => true,
    }
}

/// The number on the line of a check sum.
fn sum_in(line: &[u8]) -> Option<u64>
    ensures { result ≡ sum_in line.now }
{
    let rest = from_blank(line);
    if is_same_text(to_blank(line), b"SUM") && behind_word(rest).is_empty() {
        first_number(rest)
    } else {
        None
    }
}

/// The line of a check sum.
fn end_step(current: Open, sum: Option<u64>) -> Step
    ensures { result ≡ end_step current sum }
{
    let Some(sum) = sum else {
        return Step::Bad;
    };
    if sum == u64::from(current.sum) && has_all(&current.so_far.entry, current.lines) {
        Step::Ends(current.so_far)
    } else {
        Step::Wrong
    }
}

/// Whether a line begins with a blank.
fn is_inner(line: &[u8]) -> bool
    ensures { result ≡ begins_with blank line.now }
{
    match line.split_first() {
        Some((first, _)) => *first == b' ',
        None => false,
    }
}

/// What a line makes of the record that is open, if one is.
pub(crate) fn line_step(
    alloc: Global,
    current: Option<Open>,
    line: &[u8],
) -> Result<Step, AllocError>
    ensures { IfOk result (λ step. step ≡ line_step current line.now) }
{
    match current {
        None => match opened(alloc, line) {
            Some(current) => Ok(Step::Goes(current)),
            None => Ok(Step::Bad),
        },
        Some(current) => {
            if is_inner(line) {
                inner_step(current, line)
            } else {
                Ok(end_step(current, sum_in(line)))
            }
        }
    }
}
