//! Those of the three texts of a build that go to one output.
ghost use Rattle.std.specs.Prelude.{◌≡◌, ◌<◌, ◌^◌, length, IfErr, IfOk, true};
ghost use Rattle.definitions.specs.Build.{build_of, image_of};
ghost use Rattle.text_ports.specs.Joins.Sending.{Sends, count_after_sending};
ghost use Rattle.deck_linker.specs.Publishing.{listings};
ghost use Rattle.asm_main.specs.Joins.Outputs.{front_to, text_to, text_where};
ghost use Rattle.asm_main.specs.Joins.Ways.{decks_of};

use crate::built::Built;
use std::io::Write;
use text_ports::{Broken, Counted, put_all};

/// Which of the texts go to one output.
#[derive(Clone, Copy)]
pub struct Chosen {
    pub listing: bool,
    pub map: bool,
    pub image: bool,
}

/// A text where it is chosen, else none.
fn where_chosen(chosen: bool, text: &[u8]) -> &[u8]
    ensures { result.now ≡ text_where chosen text.now }
{
    if chosen { text } else { b"" }
}

/// Writes the listings where they are chosen, and returns how many bytes these were.
fn write_listings<W: Write>(
    output: &mut Counted<W>,
    built: &mut Built,
    chosen: bool,
) -> Result<usize, Broken>
    ensures sends { Sends (W.contents output.old.0) (W.contents output.new.0) (text_where chosen (listings (decks_of built.old))) result }
    ensures count { output.new.1 ≡ count_after_sending result output.old.1 }
    ensures len { IfOk result (λ sent. sent ≡ length (text_where chosen (listings (decks_of built.old)))) }
    ensures unchanged { decks_of built.new ≡ decks_of built.old }
{
    if chosen {
        built.write_listings(output)
    } else {
        Ok(0)
    }
}

/// Writes the chosen ones of listings and map, and returns how many bytes these were.
fn write_front<W: Write>(
    output: &mut Counted<W>,
    built: &mut Built,
    chosen: Chosen,
) -> Result<usize, Broken>
    ensures sends { Sends (W.contents output.old.0) (W.contents output.new.0) (front_to chosen (decks_of built.old)) result }
    ensures count { output.new.1 ≡ count_after_sending result output.old.1 }
    ensures len { IfOk result (λ sent. sent ≡ length (front_to chosen (decks_of built.old))) }
    ensures few { IfOk result (λ sent. sent < 2 ^ 63) }
    ensures unchanged { decks_of built.new ≡ decks_of built.old }
{
    let listed = write_listings(output, built, chosen.listing)?;
    let map = where_chosen(chosen.map, built.map());
    match put_all(output, map) {
        Ok(()) => Ok(listed + map.len()),
        Err(broken) => Err(Broken {
            sent: listed + broken.sent,
        }),
    }
}

/// Writes the image where it is chosen.
fn write_image<W: Write>(
    output: &mut Counted<W>,
    built: &mut Built,
    chosen: bool,
) -> Result<(), Broken>
    ensures sends { Sends (W.contents output.old.0) (W.contents output.new.0) (text_where chosen (image_of (decks_of built.old))) result }
    ensures count { output.new.1 ≡ count_after_sending result output.old.1 }
    ensures few { IfErr result (λ broken. broken.sent < 2 ^ 63) }
    ensures unchanged { decks_of built.new ≡ decks_of built.old }
{
    if chosen {
        built.write_image(output)
    } else {
        Ok(())
    }
}

/// Writes the chosen texts: listing, map and image in this order, and exactly the first bytes of them
/// up to a fault. Where all are chosen they are what `asm_run` writes. Takes no memory.
pub fn write_chosen<W: Write>(
    output: &mut Counted<W>,
    built: &mut Built,
    chosen: Chosen,
) -> Result<(), Broken>
    ensures sends { Sends (W.contents output.old.0) (W.contents output.new.0) (text_to chosen (decks_of built.old)) result }
    ensures whole { chosen ≡ record { listing = true; map = true; image = true } →
        Sends (W.contents output.old.0) (W.contents output.new.0) (build_of (decks_of built.old)).text result }
    ensures count { output.new.1 ≡ count_after_sending result output.old.1 }
    ensures unchanged { decks_of built.new ≡ decks_of built.old }
{
    let front = write_front(output, built, chosen)?;
    match write_image(output, built, chosen.image) {
        Ok(()) => Ok(()),
        Err(broken) => Err(Broken {
            sent: front + broken.sent,
        }),
    }
}
