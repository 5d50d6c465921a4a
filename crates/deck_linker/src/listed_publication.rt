//! What is published of decks under a version. Its texts are made when somebody asks for them.
ghost use Rattle.std.specs.Prelude.{◌≡◌, is_none, map, option_map, IfOk};
ghost use Rattle.definitions.specs.Build.{image_of};
ghost use Rattle.definitions.specs.Layout as definitions;
ghost use Rattle.definitions.specs.Layout.{layout_of};
ghost use Rattle.definitions.specs.Listing.{deck_listing};
ghost use Rattle.definitions.specs.Objects.{object_of};
ghost use Rattle.deck_linker.specs.Joins.Sections.{section_found};
ghost use Rattle.deck_linker.specs.Publishing.{listing_named, map_of, section_in, section_named, section_of};

use crate::image::{deck_words, image};
use crate::linked_deck::{kind, name};
use crate::map::with_map;
use crate::published_listing::PublishedListing;
use crate::{Based, Layout};
use deck_listing::{ListedObject, Sheet, listing, push_section};
use deck_objects::SharedObject;
use definitions::{DeckKind, is_same_text};
use std::alloc::{AllocError, Global};
use std::hash::RandomState;
use std::marker::Model;
use text_ports::Text;

/// What is published of decks under a version. Contracts see the version and the decks.
#[derive(Drop)]
pub struct ListedPublication {
    version: u64,
    objects: Vec<ListedObject>,
}

impl Model for ListedPublication {
    ghost use Rattle.deck_linker.specs.Publishing.{Published};

    ghost Value = { Published };

    ghost view = { λ p. record { version = p.version; decks = p.objects.items } };
}

impl ListedPublication {
    /// That of these decks under a version.
    pub fn new(version: u64, objects: Vec<ListedObject>) -> ListedPublication
        ensures { result ≡ record { version = version; decks = objects.items } }
    {
        ListedPublication { version, objects }
    }

    pub fn version(&self) -> u64
        ensures { result ≡ self.now.version }
    {
        self.version
    }

    /// The objects of the decks, in their order.
    pub fn objects(&self) -> &[ListedObject]
        ensures { result.now ≡ self.now.decks }
    {
        self.objects.as_slice()
    }

    /// The listing of the first deck of a name, where there is one.
    pub fn listing_named(&self, alloc: Global, name: &[u8]) -> Result<Option<Text>, AllocError>
        ensures { IfOk result (λ text. text ≡ listing_named name.now self.now.decks) }
    {
        match listed_named(self.objects.as_slice(), name) {
            Some(object) => Ok(Some(listing(alloc, object.object())?)),
            None => Ok(None),
        }
    }

    /// Where the decks of their link stand.
    fn layout(&self, alloc: Global, keys: RandomState) -> Result<Layout, AllocError>
        ensures { IfOk result (λ layout. layout ≡ layout_of (map object_of self.now.decks)) }
    {
        Layout::new(alloc, keys, shared(alloc, self.objects.as_slice())?)
    }

    /// The map of their link.
    pub fn map(&self, alloc: Global, keys: RandomState) -> Result<Text, AllocError>
        ensures { IfOk result (λ text. text ≡ map_of self.now.decks) }
    {
        let layout = self.layout(alloc, keys)?;
        let mapped = with_map(alloc, keys, Text::new(alloc), &layout)?;
        Ok(mapped.text)
    }

    /// The octal image of their link.
    pub fn image(&self, alloc: Global, keys: RandomState) -> Result<Text, AllocError>
        ensures { IfOk result (λ text. text ≡ image_of self.now.decks) }
    {
        let layout = self.layout(alloc, keys)?;
        image(alloc, &layout)
    }

    /// The section of the first deck of a name in that image, where there is such a deck and it has a section.
    pub fn section_named(
        &self,
        alloc: Global,
        keys: RandomState,
        name: &[u8],
    ) -> Result<Option<Text>, AllocError>
        ensures { IfOk result (λ section. section ≡ section_named name.now self.now.decks) }
    {
        let layout = self.layout(alloc, keys)?;
        match based_named(layout.decks(), name) {
            Some(based) => section(alloc, &layout, based),
            None => Ok(None),
        }
    }

    /// The listings of the decks in their order, with the map of their link behind them.
    pub fn listing(&self, alloc: Global, keys: RandomState) -> Result<PublishedListing, AllocError>
        ensures { IfOk result (λ listing. listing ≡ self.now.decks) }
    {
        let map = self.map(alloc, keys)?;
        PublishedListing::new(alloc, self.objects.as_slice(), map)
    }
}

/// The object of the first deck of a name, where there is one.
fn listed_named<'a>(objects: &'a [ListedObject], name: &[u8]) -> Option<&'a ListedObject>
    ensures { option_map (λ object. deck_listing (object_of object.now)) result ≡ listing_named name.now objects.now }
{
    let mut rest = objects;
    while let Some((object, others)) = rest.split_first() {
        if is_same_text(object.object().name().as_slice(), name) {
            return Some(object);
        }
        rest = others;
    }
    None
}

/// The first of these decks of a link that has a name, where one has it.
fn based_named<'a>(decks: &'a [Based], sought: &[u8]) -> Option<&'a Based>
    ensures { (layout : definitions.Layout) → section_found layout (option_map (λ based. based.now) result) ≡ section_in sought.now layout decks.now }
{
    let mut rest = decks;
    while let Some((based, others)) = rest.split_first() {
        if is_same_text(name(based), sought) {
            return Some(based);
        }
        rest = others;
    }
    None
}

/// Whether a deck has no section: a REL deck that passes the end of memory.
fn lacks_section(based: &Based) -> bool
    ensures { (layout : definitions.Layout) → result ≡ is_none (section_of layout based.now) }
{
    match kind(based) {
        DeckKind::Rel => based.is_past(),
        DeckKind::Abs | DeckKind::Periph => false,
    }
}

/// The section of a deck in a link, where it has one.
fn section(alloc: Global, layout: &Layout, based: &Based) -> Result<Option<Text>, AllocError>
    ensures { IfOk result (λ section. section ≡ section_of layout.now based.now) }
{
    if lacks_section(based) {
        return Ok(None);
    }
    let blocks = deck_words(alloc, layout, based)?;
    let mut text = Sheet::new(alloc);
    push_section(
        &mut text,
        based.object(),
        u64::from(based.base()),
        blocks.as_slice(),
    );
    Ok(Some(text.into_text()?))
}

/// The objects of decks once more, without what their listings count.
pub(crate) fn shared(
    alloc: Global,
    objects: &[ListedObject],
) -> Result<Vec<SharedObject>, AllocError>
    ensures { IfOk result (λ same. same.items ≡ objects.now) }
{
    let mut same = Vec::with_capacity(alloc, objects.len())?;
    for object in objects {
        same.push(object.share_object()?)?;
    }
    Ok(same)
}
