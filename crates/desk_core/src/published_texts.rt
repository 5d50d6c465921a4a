//! The texts of a publication, and those of one of its decks, made when somebody asks for them.
ghost use Rattle.std.specs.Prelude.{◌≡◌, IfOk};
ghost use Rattle.desk_core.specs.PublishedTexts.{shown_part, shown_text};

use crate::shown_text::ShownText;
use cards::DeckName;
use deck_linker::ListedPublication;
use std::alloc::{AllocError, Global};
use std::hash::RandomState;
use text_ports::Text;

/// Which text of a publication is shown.
#[derive(Clone, Copy)]
pub enum PublishedText {
    /// The octal image.
    Image,
    /// The listings of the decks, and the map behind them.
    Listing,
    /// The map alone.
    Map,
}

/// Which text of one of its decks is shown.
#[derive(Clone, Copy)]
pub enum DeckText {
    /// Its section in the image.
    Section,
    Listing,
}

/// This text of a publication.
pub fn show_text(
    alloc: Global,
    keys: RandomState,
    publication: &ListedPublication,
    text: PublishedText,
) -> Result<ShownText, AllocError>
    ensures { IfOk result (λ shown. shown ≡ shown_text text publication.now.decks) }
{
    match text {
        PublishedText::Image => Ok(ShownText::made(publication.image(alloc, keys)?)),
        PublishedText::Listing => Ok(ShownText::of_decks(publication.listing(alloc, keys)?)),
        PublishedText::Map => Ok(ShownText::made(publication.map(alloc, keys)?)),
    }
}

/// This text of the deck of a name, where a publication has one.
pub fn show_part(
    alloc: Global,
    keys: RandomState,
    publication: &ListedPublication,
    text: DeckText,
    name: &DeckName,
) -> Result<Option<ShownText>, AllocError>
    ensures { IfOk result (λ part. part ≡ shown_part text name.now publication.now.decks) }
{
    let part = match text {
        DeckText::Section => publication.section_named(alloc, keys, name.as_slice())?,
        DeckText::Listing => publication.listing_named(alloc, name.as_slice())?,
    };
    Ok(made(part))
}

fn made(text: Option<Text>) -> Option<ShownText>
    ensures { result ≡ text }
{
    match text {
        Some(text) => Some(ShownText::made(text)),
        None => None,
    }
}
