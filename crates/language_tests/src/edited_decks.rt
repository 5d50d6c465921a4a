//! Decks that are edited: behind each edit a record has its name and the cards that the edit makes outside of it,
//! and gives the listing and the image of a new deck of these.

use crate::card_topics::{counted, repeated_cards};
use crate::outputs::Answer;
use crate::statement_topics::counts;
use cards::{Card, Edit, copied_cards, edited_copy, first_fault};
use deck_linker::{Publication, link};
use deck_objects::SharedObject;
use edit_core::Kept;
use std::alloc::{AllocError, Global};
use std::slice;
use test_parts::{cut, fixed_keys, name_of, new_object, new_record, number};
use work_meter::Meter;

/// The name of each deck.
const NAME: &str = "M";

/// Makes the edits behind a line `EDITS` in the record of the deck in front of it.
pub fn edited_deck(answer: &mut Answer, topic: &str, text: &str) -> Result<(), AllocError> {
    let (deck, edits) = text.split_once("EDITS\n").unwrap_or((text, ""));
    let name = name_of(NAME)?;
    let mut cards = repeated_cards(answer.alloc, deck)?;
    let mut kept = new_record(answer.alloc, name, copied_cards(answer.alloc, &cards)?)?;
    let is_counted = topic == "counted_edits";
    let done = edited(answer, &mut kept, &mut cards, edits, is_counted);
    kept.free();
    done
}

/// Makes the edits of these lines, one after the other, in the record and of the cards, and looks after each.
fn edited(
    answer: &mut Answer,
    kept: &mut Kept,
    cards: &mut Vec<Card>,
    edits: &str,
    is_counted: bool,
) -> Result<(), AllocError> {
    for line in edits.lines() {
        match edits_of_line(answer.alloc, kept, cards, line)? {
            Some((sized, coded)) if is_counted => counts(answer, sized, coded),
            Some(_) => {}
            None => {
                answer.word(line);
                answer.word("differs");
                return Ok(());
            }
        }
    }
    answer.word("same");
    Ok(())
}

/// Makes the edit of a line, and three times where it begins with `#3`: how many statements were sized and coded for
/// one of them, at most; none where the record is not as a new one of the cards then.
fn edits_of_line(
    alloc: Global,
    kept: &mut Kept,
    cards: &mut Vec<Card>,
    line: &str,
) -> Result<Option<(u64, u64)>, AllocError> {
    let (times, line) = counted(line);
    let Some(edit) = edit_of(line) else {
        return Ok(None);
    };
    let mut most = (0, 0);
    for _ in 0..times {
        let mut done = work_meter::begin();
        *cards = edited_cards(alloc, cards.as_slice(), &edit)?;
        if !is_edited(alloc, kept, cards.as_slice(), &edit, &mut done)? {
            return Ok(None);
        }
        most = (done.sized().max(most.0), done.coded().max(most.1));
    }
    Ok(Some(most))
}

/// The edit of a line: `INS 3 CARD`, `REP 3 CARD` or `DEL 3`.
fn edit_of(line: &str) -> Option<Edit> {
    let (word, rest) = cut(line);
    let (place, text) = cut(rest);
    let at = number(place);
    if word == "DEL" {
        return Some(Edit::Remove { at });
    }
    let card = Card::read(text.as_bytes()).ok()?;
    match word {
        "INS" => Some(Edit::Insert { at, card }),
        "REP" => Some(Edit::Replace { at, card }),
        _ => None,
    }
}

/// The cards that an edit makes of these; the same once more where it does not apply.
fn edited_cards(alloc: Global, cards: &[Card], edit: &Edit) -> Result<Vec<Card>, AllocError> {
    let edits = slice::from_ref(edit);
    if first_fault(edits, cards.len()).is_some() {
        return copied_cards(alloc, cards);
    }
    edited_copy(alloc, cards, edits)
}

/// Makes an edit, which may be refused, and counts: whether the record is as a new one of these cards then.
fn is_edited(
    alloc: Global,
    kept: &mut Kept,
    cards: &[Card],
    edit: &Edit,
    done: &mut Meter,
) -> Result<bool, AllocError> {
    let _ = kept.edit(alloc, fixed_keys()?, edit, done);
    Ok(has_cards(kept, cards) && is_as_new(alloc, kept, cards)?)
}

/// Whether a record has its name and these cards.
fn has_cards(kept: &Kept, cards: &[Card]) -> bool {
    if kept.name().as_slice() != NAME.as_bytes() || kept.cards().len() != cards.len() {
        return false;
    }
    for (card, other) in kept.cards().iter().zip(cards.iter()) {
        if !card.is_same(other) {
            return false;
        }
    }
    true
}

/// Whether listing and image of a record's object are those of a new object of these cards.
fn is_as_new(alloc: Global, kept: &Kept, cards: &[Card]) -> Result<bool, AllocError> {
    let Ok(object) = kept.finish() else {
        return Ok(false);
    };
    let found = linked(alloc, object)?;
    let new = new_object(alloc, name_of(NAME)?, copied_cards(alloc, cards)?)?;
    Ok(found == linked(alloc, new)?)
}

/// The listing and the image of the link of one deck.
fn linked(alloc: Global, object: SharedObject) -> Result<Vec<u8>, AllocError> {
    let mut objects = Vec::new(alloc);
    objects.push(object)?;
    let published = link(alloc, fixed_keys()?, objects, 1)?;
    let texts = texts_of(alloc, &published);
    drop(published);
    texts
}

/// The listing of a publication, and its image behind it.
fn texts_of(alloc: Global, published: &Publication) -> Result<Vec<u8>, AllocError> {
    let mut texts = Vec::from_slice(alloc, published.listing())?;
    texts.extend_from_slice(published.image())?;
    Ok(texts)
}
