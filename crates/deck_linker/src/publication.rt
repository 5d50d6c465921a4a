//! What is published of decks: their listings with the map of their link, their octal image, and what
//! they count.
ghost use Rattle.std.specs.Prelude.{◌≡◌, ◌<◌, ◌+◌, ◌^◌, ◌++◌, length, map, IfOk};
ghost use Rattle.definitions.specs.Build.{build_of, errors_in, image_of, listing_of};
ghost use Rattle.definitions.specs.Image.{image_text};
ghost use Rattle.definitions.specs.LinkLines.{link_lines};
ghost use Rattle.definitions.specs.Map.{map_text};
ghost use Rattle.definitions.specs.Objects.{object_of};
ghost use Rattle.deck_linker.specs.Publishing.{listings, map_of};

use crate::Layout;
use crate::image::image;
use crate::map::{Mapped, with_map};
use deck_listing::{Sheet, errors, push_listing};
use deck_objects::SharedObject;
use std::alloc::{AllocError, Global};
use std::hash::RandomState;
use std::marker::Model;
use text_ports::Text;

/// No memory holds so many bytes.
pub(crate) const TOO_MANY: u64 = 1 << 63;

/// What is published of decks under a version. Contracts see the version and the decks: all else is
/// what the definitions give for these decks.
#[derive(Drop)]
pub struct Publication {
    version: u64,
    objects: Vec<SharedObject>,
    listing: Text,
    /// Where the map begins in it, behind the listings.
    map_at: usize,
    image: Text,
    errors: u64,
    links: usize,
}

impl Model for Publication {
    ghost use Rattle.deck_linker.specs.Publishing.{Published, IsPublished};

    ghost Value = { Published };

    ghost view = { λ p. record { version = p.version; decks = p.objects.items } };

    ghost invariant = { λ p. IsPublished p.objects.items p.listing p.map_at p.image p.errors p.links };
}

impl Publication {
    pub fn version(&self) -> u64
        ensures { result ≡ self.now.version }
    {
        self.version
    }

    /// The objects of the decks, in their order.
    pub fn objects(&self) -> &[SharedObject]
        ensures { result.now ≡ self.now.decks }
    {
        self.objects.as_slice()
    }

    /// The listings of the decks in order, and behind them the map of their link.
    pub fn listing(&self) -> &[u8]
        ensures { result.now ≡ listing_of self.now.decks }
    {
        self.listing.as_slice()
    }

    /// The listings of the decks, in their order.
    pub fn listings(&self) -> &[u8]
        ensures { result.now ≡ listings self.now.decks }
    {
        self.listing.as_slice().split_at(self.map_at).0
    }

    /// The map of their link.
    pub fn map(&self) -> &[u8]
        ensures text { result.now ≡ map_of self.now.decks }
        ensures few { length (listings self.now.decks) + length (map_of self.now.decks) < 2 ^ 63 }
    {
        self.listing.as_slice().split_at(self.map_at).1
    }

    /// The octal image of the link.
    pub fn image(&self) -> &[u8]
        ensures { result.now ≡ image_of self.now.decks }
    {
        self.image.as_slice()
    }

    /// How many statements are flagged.
    pub fn errors(&self) -> u64
        ensures { result ≡ (build_of self.now.decks).errors }
    {
        self.errors
    }

    /// How many LINK lines there are.
    pub fn links(&self) -> usize
        ensures { result ≡ (build_of self.now.decks).links }
    {
        self.links
    }
}

/// The same objects once more.
pub(crate) fn shared(
    alloc: Global,
    objects: &[SharedObject],
) -> Result<Vec<SharedObject>, AllocError>
    ensures { IfOk result (λ same. same.items ≡ objects.now) }
{
    let mut same = Vec::with_capacity(alloc, objects.len())?;
    for object in objects {
        same.push(object.share()?)?;
    }
    Ok(same)
}

/// The listings of decks, one behind the other.
fn listings(alloc: Global, objects: &[SharedObject]) -> Result<Text, AllocError>
    ensures { IfOk result (λ text. text ≡ listings objects.now) }
{
    let mut text = Sheet::new(alloc);
    for object in objects {
        push_listing(&mut text, object.object());
    }
    text.into_text()
}

/// How many statements of decks are flagged. No memory holds so many that their number would not fit.
pub(crate) fn errors_in(objects: &[SharedObject]) -> Result<u64, AllocError>
    ensures { IfOk result (λ count. count ≡ errors_in (map object_of objects.now)) }
{
    let mut count = 0;
    for object in objects {
        count = sum(count, errors(object.object()))?;
    }
    Ok(count)
}

/// The sum of two counts, where it fits.
pub(crate) fn sum(count: u64, more: u64) -> Result<u64, AllocError>
    ensures { IfOk result (λ sum. sum ≡ count + more) }
{
    match count.checked_add(more) {
        Some(sum) => Ok(sum),
        None => Err(AllocError),
    }
}

/// The listings of decks with the map of their link behind them, and where the map begins.
#[derive(Drop)]
struct MappedListings {
    map_at: usize,
    mapped: Mapped,
}

fn mapped_listings(
    alloc: Global,
    keys: RandomState,
    layout: &Layout,
    objects: &[SharedObject],
) -> Result<MappedListings, AllocError>
    ensures text { IfOk result (λ all. all.mapped.text ≡ listings objects.now ++ map_text layout.now) }
    ensures map_at { IfOk result (λ all. all.map_at ≡ length (listings objects.now)) }
    ensures links { IfOk result (λ all. all.mapped.links ≡ length (link_lines layout.now)) }
{
    let front = listings(alloc, objects)?;
    let map_at = front.as_slice().len();
    let mapped = with_map(alloc, keys, front, layout)?;
    Ok(MappedListings { map_at, mapped })
}

/// The texts of linked decks, and what they count.
#[derive(Drop)]
struct LinkTexts {
    listings: MappedListings,
    image: Text,
    errors: u64,
}

fn link_texts(
    alloc: Global,
    keys: RandomState,
    layout: &Layout,
    objects: &[SharedObject],
) -> Result<LinkTexts, AllocError>
    ensures listing { IfOk result (λ texts. texts.listings.mapped.text ≡ listings objects.now ++ map_text layout.now) }
    ensures map_at { IfOk result (λ texts. texts.listings.map_at ≡ length (listings objects.now)) }
    ensures links { IfOk result (λ texts. texts.listings.mapped.links ≡ length (link_lines layout.now)) }
    ensures image { IfOk result (λ texts. texts.image ≡ image_text layout.now) }
    ensures errors { IfOk result (λ texts. texts.errors ≡ errors_in (map object_of objects.now)) }
{
    let errors = errors_in(objects)?;
    let listings = mapped_listings(alloc, keys, layout, objects)?;
    let image = image(alloc, layout)?;
    Ok(LinkTexts {
        listings,
        image,
        errors,
    })
}

/// Links decks in this order, and publishes them under a version.
pub fn link(
    alloc: Global,
    keys: RandomState,
    objects: Vec<SharedObject>,
    version: u64,
) -> Result<Publication, AllocError>
    ensures { IfOk result (λ publication. publication ≡ record { version = version; decks = objects.items }) }
{
    let layout = Layout::new(alloc, keys, shared(alloc, objects.as_slice())?)?;
    let texts = link_texts(alloc, keys, &layout, objects.as_slice())?;
    let map_at = texts.listings.map_at;
    let mapped = texts.listings.mapped;
    Ok(Publication {
        version,
        objects,
        listing: mapped.text,
        map_at,
        image: texts.image,
        errors: texts.errors,
        links: mapped.links,
    })
}
