//! Decks that are linked: the listing, the map and the image.

use crate::card_topics::repeated_cards;
use crate::outputs::Answer;
use deck_linker::{Layout, Publication, link};
use expr_forms::Name;
use std::alloc::{AllocError, Global};
use test_parts::{fixed_keys, name_of, new_object};

/// The link of decks as version 7: each begins with a line of its name behind `=`.
fn published(alloc: Global, text: &str) -> Result<Publication, AllocError> {
    let mut objects = Vec::new(alloc);
    for deck in text.split("=") {
        if let Some((name, lines)) = deck.split_once("\n") {
            let name = name_of(name)?;
            objects.push(new_object(alloc, name, repeated_cards(alloc, lines)?)?)?;
        }
    }
    link(alloc, fixed_keys()?, objects, 7)
}

/// The version, and how many decks, lines with errors and LINK lines there are.
fn counts(answer: &mut Answer, publication: &Publication) {
    answer.number(&publication.version());
    answer.number(&publication.objects().len());
    answer.number(&publication.errors());
    answer.number(&publication.links())
}

/// How many characters of a listing's end are looked at.
const END: usize = 160;

fn end_of_listing(answer: &mut Answer, publication: &Publication) {
    let text = publication.listing();
    answer.quoted(text.split_at(text.len().saturating_sub(END)).1)
}

/// The listing of decks, its end, or the image.
pub fn linked(answer: &mut Answer, topic: &str, text: &str) -> Result<(), AllocError> {
    let publication = published(answer.alloc, text)?;
    if topic == "ends_of_listings" {
        end_of_listing(answer, &publication);
        return Ok(());
    }
    counts(answer, &publication);
    match topic {
        "listings" => answer.quoted(publication.listing()),
        _ => answer.quoted(publication.image()),
    }
    Ok(())
}

/// The layout of no decks: its decks and common blocks, an entry, and the base of a common block.
pub fn layout(answer: &mut Answer) -> Result<(), AllocError> {
    let layout = Layout::new(answer.alloc, answer.keys, Vec::new(answer.alloc))?;
    let is_entered = layout.entered(&Name::new(b"A")).is_some();
    answer.number(&layout.decks().len());
    answer.number(&layout.commons().len());
    answer.either(is_entered, "entered", "none");
    answer.debug(&layout.common_base(&Name::new(b"/C/")));
    Ok(())
}
