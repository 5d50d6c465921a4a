//! The listing of a publication: those of its decks, each made when it is written, and behind them the map of their
//! link.
ghost use Rattle.std.specs.Prelude.{◌≡◌, ◌<◌, ◌≤◌, ◌+◌, ◌^◌, ◌++◌, flat_map, length, IfOk, IfErr, OnOk};
ghost use Rattle.definitions.specs.Build.{listing_of};
ghost use Rattle.text_ports.specs.Joins.Sending.{Sends, count_after_sending};
ghost use Rattle.deck_listing.specs.ListedObjects.{lines_in};
ghost use Rattle.deck_linker.specs.Joins.InPieces.{DoFit, deck_text};
ghost use Rattle.deck_linker.specs.Publishing.{listings, map_of};

use crate::listed_publication::shared;
use crate::measuring::measure_listed;
use crate::publication::{TOO_MANY, sum};
use crate::sending::send_front;
use deck_listing::{ListedObject, Sheet, lines_in};
use deck_objects::SharedObject;
use std::alloc::{AllocError, Global};
use std::io::Write;
use std::marker::Model;
use text_ports::{Broken, Counted, Text};

/// Decks with the map of their link, how many lines these have with their listings, and a sheet with room for the
/// longest listing. Contracts see the decks: that all is there which their listing is made of is the invariant of
/// the type.
#[derive(Drop)]
pub struct PublishedListing {
    objects: Vec<SharedObject>,
    lines: usize,
    map: Text,
    sheet: Sheet,
}

impl Model for PublishedListing {
    ghost use Rattle.std.specs.Prelude.{List};
    ghost use Rattle.definitions.specs.DeckInput.{Deck};
    ghost use Rattle.deck_linker.specs.Joins.InPieces.{IsListing};

    ghost Value = { List Deck };

    ghost view = { λ l. l.objects.items };

    ghost invariant = { λ l. IsListing l.objects.items l.lines l.map l.sheet };
}

impl PublishedListing {
    /// That of these decks, with the map of their link. All memory is asked for here that it needs.
    pub(crate) fn new(
        alloc: Global,
        objects: &[ListedObject],
        map: Text,
    ) -> Result<PublishedListing, AllocError>
        requires { map ≡ map_of objects.now }
        ensures { IfOk result (λ listing. listing ≡ objects.now) }
    {
        let room = listing_room(objects, map.as_slice())?;
        let lines = all_lines(objects, map.as_slice());
        Ok(PublishedListing {
            objects: shared(alloc, objects)?,
            lines,
            map,
            sheet: Sheet::with_room(alloc, room)?,
        })
    }

    /// The objects of the decks, in their order.
    pub fn objects(&self) -> &[SharedObject]
        ensures { result.now ≡ self.now }
    {
        self.objects.as_slice()
    }

    /// The map of their link.
    pub fn map(&self) -> &[u8]
        ensures { result.now ≡ map_of self.now }
    {
        self.map.as_slice()
    }

    /// How many lines it has.
    pub fn lines(&self) -> usize
        ensures { result ≡ lines_in (listing_of self.now) }
    {
        self.lines
    }

    /// Writes it, or exactly the first `sent` bytes of it up to the first fault. Takes no memory.
    pub fn write<W: Write>(self, output: &mut Counted<W>) -> Result<(), Broken>
        ensures sends { Sends (W.contents output.old.0) (W.contents output.new.0) (listing_of self) result }
        ensures count { output.new.1 ≡ count_after_sending result output.old.1 }
        ensures few { IfErr result (λ broken. broken.sent < 2 ^ 63) }
    {
        let mut sheet = self.sheet;
        send_front(
            output,
            &mut sheet,
            self.objects.as_slice(),
            self.map.as_slice(),
        )?;
        Ok(())
    }
}

/// How many lines the listings of objects have.
fn listing_lines(objects: &[ListedObject]) -> usize
    requires { length (listings objects.now) < 2 ^ 63 }
    ensures lines { result ≡ lines_in (listings objects.now) }
    ensures few { result ≤ length (listings objects.now) }
{
    let mut lines = 0;
    for object in objects {
        lines += object.lines();
    }
    lines
}

/// How many lines these have with a text behind them.
fn all_lines(objects: &[ListedObject], rest: &[u8]) -> usize
    requires { length (listings objects.now) + length rest.now < 2 ^ 63 }
    ensures { result ≡ lines_in (listings objects.now ++ rest.now) }
{
    listing_lines(objects) + lines_in(rest)
}

/// How much room the longest listing of objects needs, where some memory holds them all with a text behind them.
fn listing_room(objects: &[ListedObject], rest: &[u8]) -> Result<usize, AllocError>
    ensures fit { IfOk result (λ room. DoFit deck_text room objects.now) }
    ensures few { OnOk result (length (listings objects.now) + length rest.now < 2 ^ 63) }
{
    let front = measure_listed(objects)?;
    if sum(front.all, rest.len() as u64)? >= TOO_MANY {
        return Err(AllocError);
    }
    Ok(front.most)
}
