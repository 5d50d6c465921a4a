//! The section of a deck in the image.
ghost use Rattle.std.specs.Prelude.{◌≡◌, ◌++◌, length, IfOk};
ghost use Rattle.definitions.specs.Image.{image_alone, section};
ghost use Rattle.definitions.specs.Layout.{Based, Layout};
ghost use Rattle.definitions.specs.LinkValues.{linking_of};
ghost use Rattle.definitions.specs.Objects.{object_of};
ghost use Rattle.deck_listing.specs.Joins.BlockWords.{AreBlockWords};
ghost use Rattle.deck_listing.specs.Joins.ImageWordLines.{section_head};

use crate::alone::Alone;
use crate::blocks::words_of_blocks;
use crate::section_words::push_object_words;
use crate::sheet::Sheet;
use deck_objects::Object;
use definitions::DeckKind;
use parcel_packer::WordSpan;
use std::alloc::{AllocError, Global};
use text_ports::Text;

/// Appends the first line of a section: the name of the deck, its kind and its base.
fn push_head(text: &mut Sheet, name: &[u8], kind: DeckKind, base: u64)
    ensures { text.new ≡ text.old ++ section_head name.now kind base }
{
    text.put(b"DECK ");
    text.put(name);
    text.put(b" ");
    text.put(kind.text());
    text.put(b" ");
    text.put_octal(6, base);
    text.put(b"\n");
}

/// Appends the section of a deck that stands at this base, by the words that its statements store in its
/// blocks, as `words_of_blocks` has made them. Takes no memory but the text's.
pub fn push_section(text: &mut Sheet, object: &Object, base: u64, blocks: &[Vec<WordSpan>])
    requires { length blocks.now ≡ length (object_of object.now).rows }
    ensures { (layout : Layout) (based : Based) → AreBlockWords (linking_of layout based) (object_of object.now) blocks.now →
        based.object ≡ object_of object.now → based.base ≡ base → text.new ≡ text.old ++ section layout based }
{
    let parts = object.parts();
    push_head(text, object.name().as_slice(), parts.kind, base);
    push_object_words(text, parts, base, blocks);
}

/// The section of a deck alone at a base: externals and common blocks count as 0.
pub fn image(alloc: Global, object: &Object, base: u64) -> Result<Text, AllocError>
    ensures { IfOk result (λ text. text ≡ image_alone (object_of object.now) base) }
{
    let alone = Alone {
        bases: &object.parts().bases,
        base,
    };
    let blocks = words_of_blocks(alloc, object, &alone)?;
    let mut text = Sheet::new(alloc);
    push_section(&mut text, object, base, blocks.as_slice());
    text.into_text()
}
