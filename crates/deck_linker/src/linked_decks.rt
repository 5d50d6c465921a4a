//! Decks that are linked, before their texts are made: they are made part by part, each when it is
//! written.
ghost use Rattle.std.specs.Prelude.{◌≡◌, ◌≤◌, ◌<◌, ◌^◌, ◌+◌, ◌∷◌, [], flat_map, length, map, IfOk, IfErr};
ghost use Rattle.std.specs.List.{AllZip};
ghost use Rattle.definitions.specs.Build.{build_of, errors_in, image_of};
ghost use Rattle.definitions.specs.LinkLines.{link_lines};
ghost use Rattle.definitions.specs.Map.{map_text};
ghost use Rattle.definitions.specs.Objects.{object_of};
ghost use Rattle.text_ports.specs.Joins.Sending.{Sends, count_after_sending};
ghost use Rattle.deck_linker.specs.Joins.CommonWords.{AreCommonWords};
ghost use Rattle.deck_linker.specs.Joins.InPieces.{AreDeckWords, AreFew, DoFit, DoSectionsFit, deck_text, end_text};
ghost use Rattle.deck_linker.specs.Publishing.{listings, map_of};
ghost use Rattle.deck_linker.specs.Joins.Sections.{deck_section};

use crate::common_words::words_of_commons;
use crate::image::deck_words;
use crate::map::with_map;
use crate::measuring::{Measure, measure_end, measure_listings, measure_sections};
use crate::publication::{TOO_MANY, errors_in, shared, sum};
use crate::sending::{send_all, send_image, send_listings};
use crate::{Based, Layout};
use deck_listing::Sheet;
use deck_objects::SharedObject;
use parcel_packer::WordSpan;
use std::alloc::{AllocError, Global};
use std::hash::RandomState;
use std::io::Write;
use std::marker::Model;
use text_ports::{Broken, Counted, Text};

/// Decks that are linked, and a sheet with room for the longest part of their texts. Contracts see the
/// decks: that all is there which their texts are made of is the invariant of the type.
#[derive(Drop)]
pub struct LinkedDecks {
    objects: Vec<SharedObject>,
    layout: Layout,
    words: Vec<Vec<Vec<WordSpan>>>,
    commons: Vec<Vec<WordSpan>>,
    map: Text,
    sheet: Sheet,
    errors: u64,
    links: usize,
}

impl Model for LinkedDecks {
    ghost use Rattle.std.specs.Prelude.{List};
    ghost use Rattle.definitions.specs.DeckInput.{Deck};
    ghost use Rattle.deck_linker.specs.Joins.InPieces.{AreLinked};

    ghost Value = { List Deck };

    ghost view = { λ l. l.objects.items };

    ghost invariant = { λ l. AreLinked l.objects.items l.layout l.words.items l.commons.items l.map l.sheet l.errors l.links };
}

impl LinkedDecks {
    /// Links decks in this order. All memory is asked for here that their texts need.
    pub fn new(
        alloc: Global,
        keys: RandomState,
        objects: Vec<SharedObject>,
    ) -> Result<LinkedDecks, AllocError>
        ensures { IfOk result (λ linked. linked ≡ objects.items) }
    {
        let layout = Layout::new(alloc, keys, shared(alloc, objects.as_slice())?)?;
        let words = linked_words(alloc, &layout)?;
        let texts = measured_texts(alloc, keys, &layout, &words, objects.as_slice())?;
        Ok(LinkedDecks {
            objects,
            layout,
            words: words.decks,
            commons: words.commons,
            map: texts.map,
            sheet: texts.sheet,
            errors: texts.errors,
            links: texts.links,
        })
    }

    /// How many statements are flagged.
    pub fn errors(&self) -> u64
        ensures { result ≡ (build_of self.now).errors }
    {
        self.errors
    }

    /// How many LINK lines there are.
    pub fn links(&self) -> usize
        ensures { result ≡ (build_of self.now).links }
    {
        self.links
    }

    /// The objects of the decks, in their order.
    pub fn objects(&self) -> &[SharedObject]
        ensures { result.now ≡ self.now }
    {
        self.objects.as_slice()
    }

    /// The map of their link.
    pub fn map(&self) -> &[u8]
        ensures text { result.now ≡ map_of self.now }
        ensures few { length (listings self.now) + length (map_of self.now) < 2 ^ 63 }
    {
        self.map.as_slice()
    }

    /// Writes the listings of the decks in order, and returns how many bytes these were; or writes exactly
    /// the first `sent` bytes of them up to the first fault. Takes no memory.
    pub fn write_listings<W: Write>(&mut self, output: &mut Counted<W>) -> Result<usize, Broken>
        ensures sends { Sends (W.contents output.old.0) (W.contents output.new.0) (listings self.old) result }
        ensures count { output.new.1 ≡ count_after_sending result output.old.1 }
        ensures len { IfOk result (λ sent. sent ≡ length (listings self.old)) }
        ensures unchanged { self.new ≡ self.old }
    {
        send_listings(output, &mut self.sheet, self.objects.as_slice())
    }

    /// Writes the octal image of the link, or exactly the first `sent` bytes of it up to the first fault.
    /// Takes no memory.
    pub fn write_image<W: Write>(&mut self, output: &mut Counted<W>) -> Result<(), Broken>
        ensures sends { Sends (W.contents output.old.0) (W.contents output.new.0) (image_of self.old) result }
        ensures count { output.new.1 ≡ count_after_sending result output.old.1 }
        ensures few { IfErr result (λ broken. broken.sent < 2 ^ 63) }
        ensures unchanged { self.new ≡ self.old }
    {
        send_image(
            output,
            &mut self.sheet,
            &self.layout,
            self.words.as_slice(),
            self.commons.as_slice(),
        )
    }

    /// Writes listings, map and image in this order, or exactly the first `sent` bytes of them up to the
    /// first fault. Takes no memory.
    pub fn write<W: Write>(self, output: &mut Counted<W>) -> Result<(), Broken>
        ensures sends { Sends (W.contents output.old.0) (W.contents output.new.0) (build_of self).text result }
        ensures count { output.new.1 ≡ count_after_sending result output.old.1 }
    {
        let mut sheet = self.sheet;
        send_all(
            output,
            &mut sheet,
            self.objects.as_slice(),
            self.map.as_slice(),
            &self.layout,
            self.words.as_slice(),
            self.commons.as_slice(),
        )
    }
}

/// The words that decks in their places store in their blocks.
fn words_of_decks(
    alloc: Global,
    layout: &Layout,
    decks: &[Based],
) -> Result<Vec<Vec<Vec<WordSpan>>>, AllocError>
    ensures { IfOk result (λ words. AllZip (AreDeckWords layout.now) decks.now words.items) }
{
    let mut words = Vec::with_capacity(alloc, decks.len())?;
    for based in decks {
        let blocks = deck_words(alloc, layout, based)?;
        words.push(blocks)?;
    }
    Ok(words)
}

/// The words that linked decks store in their blocks, and those of the common blocks.
#[derive(Drop)]
struct LinkedWords {
    decks: Vec<Vec<Vec<WordSpan>>>,
    commons: Vec<Vec<WordSpan>>,
}

fn linked_words(alloc: Global, layout: &Layout) -> Result<LinkedWords, AllocError>
    ensures decks { IfOk result (λ words. AllZip (AreDeckWords layout.now) layout.now.decks words.decks.items) }
    ensures commons { IfOk result (λ words. AreCommonWords layout.now words.commons.items) }
{
    let decks = words_of_decks(alloc, layout, layout.decks())?;
    let commons = words_of_commons(alloc, layout)?;
    Ok(LinkedWords { decks, commons })
}

/// The map of a link with the number of its LINK lines, and the number of flagged statements; and a sheet with
/// room for the longest part of all texts, with what was measured for it: the listings, and what the longest
/// part needs.
#[derive(Drop)]
struct MeasuredTexts {
    map: Text,
    links: usize,
    errors: u64,
    front: Measure,
    most: usize,
    sheet: Sheet,
}

fn measured_texts(
    alloc: Global,
    keys: RandomState,
    layout: &Layout,
    words: &LinkedWords,
    objects: &[SharedObject],
) -> Result<MeasuredTexts, AllocError>
    requires words { AllZip (AreDeckWords layout.now) layout.now.decks words.now.decks.items }
    requires commons { AreCommonWords layout.now words.now.commons.items }
    ensures map { IfOk result (λ texts. texts.map ≡ map_text layout.now) }
    ensures links { IfOk result (λ texts. texts.links ≡ length (link_lines layout.now)) }
    ensures errors { IfOk result (λ texts. texts.errors ≡ errors_in (map object_of objects.now)) }
    ensures all { IfOk result (λ texts. texts.front.all ≡ length (listings objects.now)) }
    ensures listings_fit { IfOk result (λ texts. DoFit deck_text texts.front.most objects.now) }
    ensures most { IfOk result (λ texts. texts.front.most ≤ texts.most) }
    ensures sections_fit { IfOk result (λ texts. DoSectionsFit layout.now texts.most) }
    ensures end_fits { IfOk result (λ texts. length (end_text layout.now) ≤ texts.most) }
    ensures sheet { IfOk result (λ texts. texts.sheet ≡ texts.most ∷ []) }
    ensures few { IfOk result (λ texts. AreFew layout.now texts.front.all texts.map) }
{
    let errors = errors_in(objects)?;
    let front = measure_listings(alloc, objects, Measure { all: 0, most: 0 })?;
    let mapped = with_map(alloc, keys, Text::new(alloc), layout)?;
    let most = image_room(
        alloc,
        layout,
        words.decks.as_slice(),
        words.commons.as_slice(),
        front,
        mapped.text.len(),
    )?;
    let sheet = Sheet::with_room(alloc, most)?;
    Ok(MeasuredTexts {
        map: mapped.text,
        links: mapped.links,
        errors,
        front,
        most,
        sheet,
    })
}

/// How much room the longest part of the texts needs, those of the image and those that are measured. No
/// memory holds so many bytes that their number would not fit.
fn image_room(
    alloc: Global,
    layout: &Layout,
    words: &[Vec<Vec<WordSpan>>],
    commons: &[Vec<WordSpan>],
    front: Measure,
    map_len: usize,
) -> Result<usize, AllocError>
    requires words { AllZip (AreDeckWords layout.now) layout.now.decks words.now }
    requires commons { AreCommonWords layout.now commons.now }
    ensures most { IfOk result (λ room. front.most ≤ room) }
    ensures fit { IfOk result (λ room. DoFit (deck_section layout.now) room layout.now.decks) }
    ensures end_fits { IfOk result (λ room. length (end_text layout.now) ≤ room) }
    ensures few { IfOk result (λ room. front.all + (length (flat_map (deck_section layout.now) layout.now.decks) + (length (end_text layout.now) + map_len)) < 2 ^ 63) }
{
    let sections = measure_sections(alloc, layout, layout.decks(), words, front)?;
    let image = measure_end(alloc, layout, commons, sections)?;
    let all = sum(image.all, map_len as u64)?;
    if all >= TOO_MANY {
        return Err(AllocError);
    }
    Ok(image.most)
}
