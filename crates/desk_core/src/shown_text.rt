//! A text of a publication that somebody is shown: one that was made when it was asked for, or listings that are made
//! when they are written.
ghost use Rattle.std.specs.Prelude.{◌≡◌, ◌<◌, ◌^◌, IfErr};
ghost use Rattle.definitions.specs.Build.{listing_of};
ghost use Rattle.text_ports.specs.Joins.Sending.{Sends, count_after_sending};
ghost use Rattle.deck_listing.specs.ListedObjects.{lines_in};

use deck_linker::PublishedListing;
use deck_listing::lines_in;
use std::io::Write;
use std::marker::Model;
use text_ports::{Broken, Counted, Text, put_all};

/// Where the bytes of a text come from.
#[derive(Drop)]
enum Source {
    /// A text alone.
    Made(Text),
    /// The listing of a publication.
    OfDecks(PublishedListing),
}

/// A text of a publication. Contracts see its bytes.
#[derive(Drop)]
pub struct ShownText {
    source: Source,
}

impl Model for ShownText {
    ghost use Rattle.std.specs.Prelude.{ℕ, List};
    ghost use Rattle.desk_core.specs.Joins.Shown.{shown_bytes};

    ghost Value = { List ℕ };

    ghost view = { λ s. shown_bytes s.source };
}

impl ShownText {
    /// This text.
    pub(crate) fn made(text: Text) -> ShownText
        ensures { result ≡ text }
    {
        ShownText {
            source: Source::Made(text),
        }
    }

    /// The listing of a publication.
    pub(crate) fn of_decks(listing: PublishedListing) -> ShownText
        ensures { result ≡ listing_of listing }
    {
        ShownText {
            source: Source::OfDecks(listing),
        }
    }

    /// How many lines it has.
    pub fn lines(&self) -> usize
        ensures { result ≡ lines_in self.now }
    {
        match &self.source {
            Source::Made(text) => lines_in(text.as_slice()),
            Source::OfDecks(listing) => listing.lines(),
        }
    }

    /// Writes it, or exactly the first `sent` bytes of it up to the first fault. Takes no memory.
    pub fn write<W: Write>(self, output: &mut Counted<W>) -> Result<(), Broken>
        ensures sends { Sends (W.contents output.old.0) (W.contents output.new.0) self result }
        ensures count { output.new.1 ≡ count_after_sending result output.old.1 }
        ensures few { IfErr result (λ broken. broken.sent < 2 ^ 63) }
    {
        match self.source {
            Source::Made(text) => put_all(output, text.as_slice()),
            Source::OfDecks(listing) => listing.write(output),
        }
    }

    /// Frees it. Crates above call this in place of `drop` (CONTRIBUTING).
    pub fn free(self) {
        drop(self);
    }
}
