//! How long the parts of the texts of linked decks are. Each part whose length is not known is made for it, and freed
//! again.
ghost use Rattle.std.specs.Prelude.{◌≡◌, ◌≤◌, ◌+◌, flat_map, length, IfOk};
ghost use Rattle.std.specs.List.{AllZip};
ghost use Rattle.deck_listing.specs.Joins.BlockWords.{AreBlockWords};
ghost use Rattle.deck_listing.specs.Joins.Sheets.{room_of, text_of};
ghost use Rattle.definitions.specs.LinkValues.{linking_of};
ghost use Rattle.definitions.specs.Listing.{deck_listing};
ghost use Rattle.definitions.specs.Objects.{object_of};
ghost use Rattle.deck_linker.specs.Joins.CommonWords.{AreCommonWords};
ghost use Rattle.deck_linker.specs.Joins.InPieces.{AreDeckWords, DoFit, deck_text, end_text};
ghost use Rattle.deck_linker.specs.Publishing.{listings};
ghost use Rattle.deck_linker.specs.Joins.Sections.{deck_section};

use crate::image::{push_deck, push_end};
use crate::publication::sum;
use crate::{Based, Layout};
use deck_listing::{ListedObject, Sheet, listing};
use deck_objects::{Object, SharedObject};
use parcel_packer::WordSpan;
use std::alloc::{AllocError, Global};

/// How many bytes some parts have together, and how many the longest of them has.
#[derive(Clone, Copy)]
pub(crate) struct Measure {
    pub(crate) all: u64,
    pub(crate) most: usize,
}

impl Measure {
    /// The measure with a part of so many bytes more. No memory holds so many that their number would not
    /// fit.
    fn with(self, len: usize) -> Result<Measure, AllocError>
        ensures all { IfOk result (λ measure. measure.all ≡ self.all + len) }
        ensures most { IfOk result (λ measure. self.most ≤ measure.most) }
        ensures fits { IfOk result (λ measure. len ≤ measure.most) }
    {
        Ok(Measure {
            all: sum(self.all, len as u64)?,
            most: self.most.max(len),
        })
    }
}

/// How long the listing of a deck is.
fn listing_len(alloc: Global, object: &Object) -> Result<usize, AllocError>
    ensures { IfOk result (λ len. len ≡ length (deck_listing (object_of object.now))) }
{
    Ok(listing(alloc, object)?.len())
}

/// With the listings of decks.
pub(crate) fn measure_listings(
    alloc: Global,
    objects: &[SharedObject],
    before: Measure,
) -> Result<Measure, AllocError>
    ensures all { IfOk result (λ measure. measure.all ≡ before.all + length (listings objects.now)) }
    ensures most { IfOk result (λ measure. before.most ≤ measure.most) }
    ensures fit { IfOk result (λ measure. DoFit deck_text measure.most objects.now) }
{
    let mut measure = before;
    for object in objects {
        let len = listing_len(alloc, object.object())?;
        measure = measure.with(len)?;
    }
    Ok(measure)
}

/// The listings of decks, whose lengths are known.
pub(crate) fn measure_listed(objects: &[ListedObject]) -> Result<Measure, AllocError>
    ensures all { IfOk result (λ measure. measure.all ≡ length (listings objects.now)) }
    ensures fit { IfOk result (λ measure. DoFit deck_text measure.most objects.now) }
{
    let mut measure = Measure { all: 0, most: 0 };
    for object in objects {
        measure = measure.with(object.len())?;
    }
    Ok(measure)
}

/// How long a text is that grew on a sheet.
fn grown_len(text: Sheet) -> Result<usize, AllocError>
    requires { room_of text ≡ 0 }
    ensures { IfOk result (λ len. len ≡ length (text_of text)) }
{
    Ok(text.into_text()?.len())
}

/// How long the section of a deck is that stores these words.
fn section_len(
    alloc: Global,
    layout: &Layout,
    based: &Based,
    blocks: &[Vec<WordSpan>],
) -> Result<usize, AllocError>
    requires { AreBlockWords (linking_of layout.now based.now) based.now.object blocks.now }
    ensures { IfOk result (λ len. len ≡ length (deck_section layout.now based.now)) }
{
    let mut text = Sheet::new(alloc);
    push_deck(&mut text, based, blocks);
    grown_len(text)
}

/// With the sections of decks.
pub(crate) fn measure_sections(
    alloc: Global,
    layout: &Layout,
    decks: &[Based],
    words: &[Vec<Vec<WordSpan>>],
    before: Measure,
) -> Result<Measure, AllocError>
    requires { AllZip (AreDeckWords layout.now) decks.now words.now }
    ensures all { IfOk result (λ measure. measure.all ≡ before.all + length (flat_map (deck_section layout.now) decks.now)) }
    ensures most { IfOk result (λ measure. before.most ≤ measure.most) }
    ensures fit { IfOk result (λ measure. DoFit (deck_section layout.now) measure.most decks.now) }
{
    let mut measure = before;
    for (index, based) in decks.iter().enumerate() {
        let len = section_len(alloc, layout, based, words[index].as_slice())?;
        measure = measure.with(len)?;
    }
    Ok(measure)
}

/// With what is behind the sections of the decks.
pub(crate) fn measure_end(
    alloc: Global,
    layout: &Layout,
    commons: &[Vec<WordSpan>],
    before: Measure,
) -> Result<Measure, AllocError>
    requires { AreCommonWords layout.now commons.now }
    ensures all { IfOk result (λ measure. measure.all ≡ before.all + length (end_text layout.now)) }
    ensures most { IfOk result (λ measure. before.most ≤ measure.most) }
    ensures fits { IfOk result (λ measure. length (end_text layout.now) ≤ measure.most) }
{
    let mut text = Sheet::new(alloc);
    push_end(&mut text, layout, commons);
    before.with(text.into_text()?.len())
}
