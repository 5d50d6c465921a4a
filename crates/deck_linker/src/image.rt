//! The octal image of a link: the sections of its decks, those of its common blocks, and END.
ghost use Rattle.std.specs.Prelude.{◌≡◌, ◌++◌, flat_map, length, IfOk, OnOk};
ghost use Rattle.definitions.specs.Image.{image_text};
ghost use Rattle.definitions.specs.Layout as definitions;
ghost use Rattle.definitions.specs.LinkValues.{linking_of};
ghost use Rattle.deck_listing.specs.Joins.BlockWords.{AreBlockWords};
ghost use Rattle.deck_linker.specs.Joins.CommonWords.{AreCommonWords};
ghost use Rattle.deck_linker.specs.Joins.InPieces.{AreDeckWords, end_text};
ghost use Rattle.deck_linker.specs.Joins.Sections.{deck_section};

use crate::common_image::push_commons;
use crate::common_words::words_of_commons;
use crate::linked_deck::kind;
use crate::{Based, DeckLinking, Layout};
use deck_listing::{Sheet, push_section, words_of_blocks};
use definitions::DeckKind;
use parcel_packer::WordSpan;
use std::alloc::{AllocError, Global};
use text_ports::Text;

/// The words that a deck in its place stores in each of its blocks.
pub(crate) fn deck_words(
    alloc: Global,
    layout: &Layout,
    based: &Based,
) -> Result<Vec<Vec<WordSpan>>, AllocError>
    ensures words { IfOk result (λ blocks. AreDeckWords layout.now based.now blocks) }
    ensures each { IfOk result (λ blocks. length blocks.items ≡ length based.now.object.rows) }
{
    words_of_blocks(alloc, based.object(), &DeckLinking { layout, based })
}

/// Puts the section of a deck, by the words that it stores; a REL deck that passes the end of memory has
/// none.
pub(crate) fn push_deck(text: &mut Sheet, based: &Based, blocks: &[Vec<WordSpan>])
    requires { length blocks.now ≡ length based.now.object.rows }
    ensures { (layout : definitions.Layout) → AreBlockWords (linking_of layout based.now) based.now.object blocks.now →
        text.new ≡ text.old ++ deck_section layout based.now }
{
    match kind(based) {
        DeckKind::Rel => {
            if based.is_past() {
                return;
            }
        }
        DeckKind::Abs | DeckKind::Periph => {}
    }
    push_section(text, based.object(), u64::from(based.base()), blocks);
}

/// Puts the sections of decks in order.
fn push_decks(
    alloc: Global,
    text: &mut Sheet,
    layout: &Layout,
    decks: &[Based],
) -> Result<(), AllocError>
    ensures { OnOk result (text.new ≡ text.old ++ flat_map (deck_section layout.now) decks.now) }
{
    for based in decks {
        let blocks = deck_words(alloc, layout, based)?;
        push_deck(text, based, blocks.as_slice());
    }
    Ok(())
}

/// Puts what is behind the sections of the decks: those of the common blocks, by their words, and END.
pub(crate) fn push_end(text: &mut Sheet, layout: &Layout, commons: &[Vec<WordSpan>])
    requires { AreCommonWords layout.now commons.now }
    ensures { text.new ≡ text.old ++ end_text layout.now }
{
    push_commons(text, layout, commons);
    text.put(b"END\n");
}

/// The octal image of a link.
pub(crate) fn image(alloc: Global, layout: &Layout) -> Result<Text, AllocError>
    ensures { IfOk result (λ text. text ≡ image_text layout.now) }
{
    let commons = words_of_commons(alloc, layout)?;
    let mut text = Sheet::new(alloc);
    push_decks(alloc, &mut text, layout, layout.decks())?;
    push_end(&mut text, layout, commons.as_slice());
    text.into_text()
}
