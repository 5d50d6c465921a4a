//! What is built of decks: their texts whole where they are short, else what these are made of part by
//! part.
ghost use Rattle.std.specs.Prelude.{◌≡◌, ◌<◌, ◌≤◌, ◌+◌, ◌^◌, length, IfErr, IfOk};
ghost use Rattle.definitions.specs.Build.{build_of, image_of};
ghost use Rattle.text_ports.specs.Joins.Sending.{Sends, count_after_sending};
ghost use Rattle.deck_linker.specs.Publishing.{listings, map_of};
ghost use Rattle.asm_main.specs.Builds.{Counts};
ghost use Rattle.asm_main.specs.Joins.Ways.{decks_of};

use crate::objects::objects_of;
use crate::running::{Tally, tally_of};
use crate::writing::{put_text, write_texts};
use deck_cuts::Deck;
use deck_linker::{LinkedDecks, Publication, link};
use deck_objects::{Object, SharedObject};
use std::alloc::{AllocError, Global};
use std::hash::RandomState;
use std::io::Write;
use text_ports::{Broken, Counted, put_all};

/// So many cards, fields and words have texts of some sixteen megabytes. Up to there both texts are made
/// whole, since each part of what is longer is made twice: to know how long it is before the first byte
/// goes out, and when it does.
const FEW: usize = 1 << 18;

/// What is built of decks, in one of two ways to the same bytes.
#[derive(Drop)]
pub enum Built {
    Whole(Publication),
    InPieces(LinkedDecks),
}

impl Built {
    /// Decks, assembled and linked; all memory is asked for here that their texts need. `asm` has one
    /// version, 0.
    pub fn new(alloc: Global, keys: RandomState, decks: Vec<Deck>) -> Result<Built, AllocError>
        requires few { length decks.items ≤ 64 }
        ensures { IfOk result (λ built. decks_of built ≡ decks.items) }
    {
        let objects = objects_of(alloc, keys, decks)?;
        if size_of(objects.as_slice()) <= FEW {
            return Ok(Built::Whole(link(alloc, keys, objects, 0)?));
        }
        Ok(Built::InPieces(LinkedDecks::new(alloc, keys, objects)?))
    }

    /// Frees it. Crates above call this in place of `drop` (CONTRIBUTING).
    pub fn free(self) {
        drop(self);
    }

    /// What a build counts.
    pub fn tally(&self) -> Tally
        ensures { Counts (build_of (decks_of self.now)) result }
    {
        match self {
            Built::Whole(publication) => tally_of(publication),
            Built::InPieces(linked) => Tally {
                errors: linked.errors() as usize,
                links: linked.links(),
            },
        }
    }

    /// The objects of the decks, in their order.
    pub fn objects(&self) -> &[SharedObject]
        ensures { result.now ≡ decks_of self.now }
    {
        match self {
            Built::Whole(publication) => publication.objects(),
            Built::InPieces(linked) => linked.objects(),
        }
    }

    /// The map of their link.
    pub fn map(&self) -> &[u8]
        ensures text { result.now ≡ map_of (decks_of self.now) }
        ensures few { length (listings (decks_of self.now)) + length (map_of (decks_of self.now)) < 2 ^ 63 }
    {
        match self {
            Built::Whole(publication) => publication.map(),
            Built::InPieces(linked) => linked.map(),
        }
    }

    /// Writes the listings of the decks, and returns how many bytes these were; or writes exactly the first
    /// `sent` of them up to the first fault. Takes no memory.
    pub fn write_listings<W: Write>(&mut self, output: &mut Counted<W>) -> Result<usize, Broken>
        ensures sends { Sends (W.contents output.old.0) (W.contents output.new.0) (listings (decks_of self.old)) result }
        ensures count { output.new.1 ≡ count_after_sending result output.old.1 }
        ensures len { IfOk result (λ sent. sent ≡ length (listings (decks_of self.old))) }
        ensures unchanged { decks_of self.new ≡ decks_of self.old }
    {
        match self {
            Built::Whole(publication) => put_text(output, publication.listings()),
            Built::InPieces(linked) => linked.write_listings(output),
        }
    }

    /// Writes the octal image of the link, or exactly the first `sent` bytes of it up to the first fault.
    /// Takes no memory.
    pub(crate) fn write_image<W: Write>(&mut self, output: &mut Counted<W>) -> Result<(), Broken>
        ensures sends { Sends (W.contents output.old.0) (W.contents output.new.0) (image_of (decks_of self.old)) result }
        ensures count { output.new.1 ≡ count_after_sending result output.old.1 }
        ensures few { IfErr result (λ broken. broken.sent < 2 ^ 63) }
        ensures unchanged { decks_of self.new ≡ decks_of self.old }
    {
        match self {
            Built::Whole(publication) => put_all(output, publication.image()),
            Built::InPieces(linked) => linked.write_image(output),
        }
    }

    /// Writes listings, map and image, or exactly the first `sent` bytes of them up to the first fault.
    /// Takes no memory.
    pub(crate) fn write<W: Write>(self, output: &mut Counted<W>) -> Result<(), Broken>
        ensures sends { Sends (W.contents output.old.0) (W.contents output.new.0) (build_of (decks_of self)).text result }
        ensures count { output.new.1 ≡ count_after_sending result output.old.1 }
    {
        match self {
            Built::Whole(publication) => write_texts(output, &publication),
            Built::InPieces(linked) => linked.write(output),
        }
    }
}

/// How many cards, fields and words an object has.
fn size_of_one(object: &Object) -> usize {
    let parts = object.parts();
    let mut size = object.cards().len().saturating_add(parts.fields.len());
    for row in parts.bases.rows() {
        size = size.saturating_add(row.words() as usize);
    }
    size
}

/// How many cards, fields and words objects have together.
fn size_of(objects: &[SharedObject]) -> usize {
    let mut size: usize = 0;
    for object in objects {
        size = size.saturating_add(size_of_one(object.object()));
    }
    size
}
