//! The sections of common blocks in the image of a link.
ghost use Rattle.std.specs.Prelude.{◌≡◌, ◌<◌, ◌^◌, ◌++◌, [], Some, flat_map, length, true};
ghost use Rattle.std.specs.Option.{is_some};
ghost use Rattle.definitions.specs.Image.{common_section_by, common_words};
ghost use Rattle.deck_linker.specs.Joins.CommonWords.{AreCommonWords, common_place};
ghost use Rattle.deck_linker.specs.Joins.Sections.{common_head, common_words_text};
ghost use Rattle.parcel_packer.specs.Joins.Filling.{DoSpansRise, as_stored, words_from};

use crate::{Common, Layout};
use deck_listing::{Sheet, push_image_line};
use definitions::DeckKind;
use expr_forms::Name;
use parcel_packer::WordSpan;

/// Writes the words of a common block that stands at a base.
fn push_words(text: &mut Sheet, base: u32, words: &[WordSpan])
    ensures { text.new ≡ text.old ++ common_words_text base (as_stored words.now) }
{
    for span in words {
        push_span(text, base, *span);
    }
}

/// Writes the words of a span of a common block that stands at a base.
fn push_span(text: &mut Sheet, base: u32, span: WordSpan)
    ensures { text.new ≡ text.old ++ common_words_text base (words_from span.offset span.count span.value) }
{
    for index in 0..span.count {
        let address = u64::from(base) + u64::from(span.offset) + u64::from(index);
        push_image_line(text, DeckKind::Rel, address, span.value);
    }
}

/// Writes the first line of the section of a common block: its name and its base.
fn push_head(text: &mut Sheet, name: &Name, base: u32)
    ensures { text.new ≡ text.old ++ common_head name.now base }
{
    text.put(b"COMMON ");
    text.put(name.as_slice());
    text.put(b" ");
    text.put_octal(6, u64::from(base));
    text.put(b"\n");
}

/// Writes the section of a common block that has these words; one that passes the end of memory, or in
/// which no deck stores a word, has none.
fn push_section(text: &mut Sheet, layout: &Layout, common: &Common, words: &[WordSpan])
    requires words { as_stored words.now ≡ common_words layout.now common.now.name layout.now.decks }
    requires rise { DoSpansRise 0 words.now (2 ^ 20) }
    ensures { text.new ≡ text.old ++ common_section_by layout.now common.now }
{
    if common.is_past() {
        return;
    }
    if words.is_empty() {
        return;
    }
    push_head(text, common.name(), common.base());
    push_words(text, common.base(), words);
}

/// Writes the section of a common block of a link, the words of which are those at a place.
fn push_placed(
    text: &mut Sheet,
    layout: &Layout,
    common: &Common,
    lists: &[Vec<WordSpan>],
    place: usize,
)
    requires place { common_place common.now.name layout.now.commons ≡ Some place }
    requires within { place < length lists.now }
    requires words { AreCommonWords layout.now lists.now }
    ensures { text.new ≡ text.old ++ common_section_by layout.now common.now }
{
    push_section(text, layout, common, lists[place].as_slice());
}

/// Writes the section of one of the common blocks of a link, by the words of all of them.
fn push_common(text: &mut Sheet, layout: &Layout, common: &Common, lists: &[Vec<WordSpan>])
    requires there { is_some (common_place common.now.name layout.now.commons) ≡ true }
    requires words { AreCommonWords layout.now lists.now }
    ensures { text.new ≡ text.old ++ common_section_by layout.now common.now }
{
    match layout.common_place(common.name()) {
        Some(place) => push_placed(text, layout, common, lists, place),
        None => {}
    }
}

/// Writes the sections of the common blocks of a link, in their order, by the words of all of them.
pub(crate) fn push_commons(text: &mut Sheet, layout: &Layout, lists: &[Vec<WordSpan>])
    requires { AreCommonWords layout.now lists.now }
    ensures { text.new ≡ text.old ++ flat_map (common_section_by layout.now) layout.now.commons }
{
    for common in layout.commons() {
        push_common(text, layout, common, lists);
    }
}
