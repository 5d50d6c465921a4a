//! The texts of linked decks to a writer, part by part, each made on one sheet with room for it. Nothing
//! here asks for memory.
ghost use Rattle.std.specs.Prelude.{◌≡◌, ◌≤◌, ◌<◌, ◌+◌, ◌^◌, ◌++◌, ◌∷◌, [], flat_map, length, IfOk, OnOk};
ghost use Rattle.std.specs.List.{AllZip};
ghost use Rattle.text_ports.specs.Joins.Sending.{Sends, count_after_sending};
ghost use Rattle.deck_listing.specs.Joins.Sheets.{room_of, text_of};
ghost use Rattle.deck_linker.specs.Joins.CommonWords.{AreCommonWords};
ghost use Rattle.deck_linker.specs.Joins.InPieces.{AreDeckWords, DoFit, deck_text, end_text};
ghost use Rattle.deck_linker.specs.Publishing.{listings};
ghost use Rattle.deck_linker.specs.Joins.Sections.{deck_section};

use crate::image::{push_deck, push_end};
use crate::{Based, Layout};
use deck_listing::{Sheet, push_listing};
use deck_objects::SharedObject;
use parcel_packer::WordSpan;
use std::io::Write;
use text_ports::{Broken, Counted, put_all};

/// Sends what stands on a sheet, and returns how many bytes these were.
fn send<W: Write>(output: &mut Counted<W>, sheet: &mut Sheet) -> Result<usize, Broken>
    requires { length (text_of sheet.old) ≤ room_of sheet.old }
    ensures sends { Sends (W.contents output.old.0) (W.contents output.new.0) (text_of sheet.old) result }
    ensures count { output.new.1 ≡ count_after_sending result output.old.1 }
    ensures len { IfOk result (λ sent. sent ≡ length (text_of sheet.old)) }
    ensures clear { sheet.new ≡ room_of sheet.old ∷ [] }
{
    let bytes = sheet.as_slice();
    let len = bytes.len();
    let outcome = put_all(output, bytes);
    sheet.clear();
    outcome?;
    Ok(len)
}

/// Sends the listings of decks, each made when it is sent, and returns how many bytes they have.
pub(crate) fn send_listings<W: Write>(
    output: &mut Counted<W>,
    sheet: &mut Sheet,
    objects: &[SharedObject],
) -> Result<usize, Broken>
    requires clear { sheet.old ≡ room_of sheet.old ∷ [] }
    requires fit { DoFit deck_text (room_of sheet.old) objects.now }
    requires few { length (listings objects.now) < 2 ^ 63 }
    ensures sends { Sends (W.contents output.old.0) (W.contents output.new.0) (listings objects.now) result }
    ensures count { output.new.1 ≡ count_after_sending result output.old.1 }
    ensures len { IfOk result (λ sent. sent ≡ length (listings objects.now)) }
    ensures sheet { sheet.new ≡ sheet.old }
{
    let mut sent = 0;
    for object in objects {
        push_listing(sheet, object.object());
        match send(output, sheet) {
            Ok(len) => sent += len,
            Err(broken) => {
                return Err(Broken {
                    sent: sent + broken.sent,
                });
            }
        }
    }
    Ok(sent)
}

/// Sends the listings of decks, and a text behind them, and returns how many bytes these are.
pub(crate) fn send_front<W: Write>(
    output: &mut Counted<W>,
    sheet: &mut Sheet,
    objects: &[SharedObject],
    map: &[u8],
) -> Result<usize, Broken>
    requires clear { sheet.old ≡ room_of sheet.old ∷ [] }
    requires fit { DoFit deck_text (room_of sheet.old) objects.now }
    requires few { length (listings objects.now) + length map.now < 2 ^ 63 }
    ensures sends { Sends (W.contents output.old.0) (W.contents output.new.0) (listings objects.now ++ map.now) result }
    ensures count { output.new.1 ≡ count_after_sending result output.old.1 }
    ensures len { IfOk result (λ sent. sent ≡ length (listings objects.now) + length map.now) }
    ensures sheet { OnOk result (sheet.new ≡ sheet.old) }
{
    let listed = send_listings(output, sheet, objects)?;
    match put_all(output, map) {
        Ok(()) => Ok(listed + map.len()),
        Err(broken) => Err(Broken {
            sent: listed + broken.sent,
        }),
    }
}

/// Sends the sections of decks, each made when it is sent, and returns how many bytes they have.
fn send_sections<W: Write>(
    output: &mut Counted<W>,
    sheet: &mut Sheet,
    layout: &Layout,
    decks: &[Based],
    words: &[Vec<Vec<WordSpan>>],
) -> Result<usize, Broken>
    requires words { AllZip (AreDeckWords layout.now) decks.now words.now }
    requires clear { sheet.old ≡ room_of sheet.old ∷ [] }
    requires fit { DoFit (deck_section layout.now) (room_of sheet.old) decks.now }
    requires few { length (flat_map (deck_section layout.now) decks.now) < 2 ^ 63 }
    ensures sends { Sends (W.contents output.old.0) (W.contents output.new.0) (flat_map (deck_section layout.now) decks.now) result }
    ensures count { output.new.1 ≡ count_after_sending result output.old.1 }
    ensures len { IfOk result (λ sent. sent ≡ length (flat_map (deck_section layout.now) decks.now)) }
    ensures sheet { sheet.new ≡ sheet.old }
{
    let mut sent = 0;
    for (index, based) in decks.iter().enumerate() {
        push_deck(sheet, based, words[index].as_slice());
        match send(output, sheet) {
            Ok(len) => sent += len,
            Err(broken) => {
                return Err(Broken {
                    sent: sent + broken.sent,
                });
            }
        }
    }
    Ok(sent)
}

/// Sends the sections of all decks of a link, and what is behind them.
pub(crate) fn send_image<W: Write>(
    output: &mut Counted<W>,
    sheet: &mut Sheet,
    layout: &Layout,
    words: &[Vec<Vec<WordSpan>>],
    commons: &[Vec<WordSpan>],
) -> Result<(), Broken>
    requires words { AllZip (AreDeckWords layout.now) layout.now.decks words.now }
    requires commons { AreCommonWords layout.now commons.now }
    requires clear { sheet.old ≡ room_of sheet.old ∷ [] }
    requires fit { DoFit (deck_section layout.now) (room_of sheet.old) layout.now.decks }
    requires end_fits { length (end_text layout.now) ≤ room_of sheet.old }
    requires few { length (flat_map (deck_section layout.now) layout.now.decks) + length (end_text layout.now) < 2 ^ 63 }
    ensures sends { Sends (W.contents output.old.0) (W.contents output.new.0) (flat_map (deck_section layout.now) layout.now.decks ++ end_text layout.now) result }
    ensures count { output.new.1 ≡ count_after_sending result output.old.1 }
    ensures sheet { sheet.new ≡ sheet.old }
{
    let sections = send_sections(output, sheet, layout, layout.decks(), words)?;
    push_end(sheet, layout, commons);
    match send(output, sheet) {
        Ok(_) => Ok(()),
        Err(broken) => Err(Broken {
            sent: sections + broken.sent,
        }),
    }
}

/// Sends the listings of decks, the map, and the image of their link.
pub(crate) fn send_all<W: Write>(
    output: &mut Counted<W>,
    sheet: &mut Sheet,
    objects: &[SharedObject],
    map: &[u8],
    layout: &Layout,
    words: &[Vec<Vec<WordSpan>>],
    commons: &[Vec<WordSpan>],
) -> Result<(), Broken>
    requires words { AllZip (AreDeckWords layout.now) layout.now.decks words.now }
    requires commons { AreCommonWords layout.now commons.now }
    requires clear { sheet.old ≡ room_of sheet.old ∷ [] }
    requires listings_fit { DoFit deck_text (room_of sheet.old) objects.now }
    requires fit { DoFit (deck_section layout.now) (room_of sheet.old) layout.now.decks }
    requires end_fits { length (end_text layout.now) ≤ room_of sheet.old }
    requires few { (length (listings objects.now) + length map.now)
        + (length (flat_map (deck_section layout.now) layout.now.decks) + length (end_text layout.now)) < 2 ^ 63 }
    ensures sends { Sends (W.contents output.old.0) (W.contents output.new.0)
        ((listings objects.now ++ map.now) ++ (flat_map (deck_section layout.now) layout.now.decks ++ end_text layout.now)) result }
    ensures count { output.new.1 ≡ count_after_sending result output.old.1 }
{
    let front = send_front(output, sheet, objects, map)?;
    match send_image(output, sheet, layout, words, commons) {
        Ok(()) => Ok(()),
        Err(broken) => Err(Broken {
            sent: front + broken.sent,
        }),
    }
}
