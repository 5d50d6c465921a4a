//! The words of blocks, as lines of the image. The words are made before: nothing here takes memory but
//! the text.
ghost use Rattle.std.specs.Prelude.{◌≡◌, ◌+◌, ◌++◌, List, length};
ghost use Rattle.std.specs.List.{AllZip};
ghost use Rattle.definitions.specs.Blocks.{literals_block};
ghost use Rattle.definitions.specs.Cards.{Card};
ghost use Rattle.definitions.specs.Characters.{same_text};
ghost use Rattle.definitions.specs.Layout.{object_words};
ghost use Rattle.definitions.specs.Objects.{Object};
ghost use Rattle.definitions.specs.Words as language;
ghost use Rattle.definitions.specs.Words.{stored_words};
ghost use Rattle.parcel_packer.specs.Joins.Filling.{as_stored};
ghost use Rattle.deck_objects.specs.Joins.PartsOf.{ArePartsOf};
ghost use Rattle.deck_listing.specs.Joins.BlockWords.{AreBlockWords, AreWordsOf};
ghost use Rattle.deck_listing.specs.Joins.ImageWordLines.{block_lines, lines_of, literal_lines, row_words, rows_words, span_lines};

use crate::image_lines::{address_within, push_image_line, push_image_lines};
use crate::sheet::Sheet;
use deck_objects::ObjectParts;
use definitions::DeckKind;
use expr_forms::Name;
use parcel_packer::WordSpan;
use use_blocks::{BlockRow, is_common};

/// How many bytes the line of a word has at most.
const LINE_ROOM: usize = 28;

/// Appends the lines of the words of a span of a block, as far as they lie within the memory of the
/// deck, with room for them at once where they are several.
fn push_span(text: &mut Sheet, kind: DeckKind, base: u64, block: u64, span: &WordSpan)
    ensures { text.new ≡ text.old ++ span_lines kind (base + block) span.now.offset span.now.count span.now.value }
{
    let address = base
        .saturating_add(block)
        .saturating_add(u64::from(span.offset));
    let left = u64::from(kind.memory_end()).saturating_sub(address);
    let count = left.min(u64::from(span.count));
    if count > 1 {
        text.make_room((count as usize).saturating_mul(LINE_ROOM));
    }
    push_image_lines(text, kind, address, count, span.value);
}

/// Appends the lines of the words of a block, for which there is room at once where each span is a word.
fn push_words(text: &mut Sheet, kind: DeckKind, base: u64, block: u64, words: &[WordSpan])
    ensures { text.new ≡ text.old ++ block_lines kind base block words.now }
{
    text.make_room(words.len().saturating_mul(LINE_ROOM));
    for span in words {
        push_span(text, kind, base, block, span);
    }
}

/// Appends the lines of the literals of a deck, which lie one behind the other in their block.
fn push_literals(text: &mut Sheet, kind: DeckKind, base: u64, block: u64, literals: &[u64])
    ensures { text.new ≡ text.old ++ literal_lines kind (base + block) 0 literals.now }
{
    for (index, value) in literals.iter().enumerate() {
        match address_within(kind, base, block, index as u64) {
            Some(address) => push_image_line(text, kind, address, *value),
            None => return,
        }
    }
}

/// Whether a block is that of the literals.
fn is_literals(name: &Name) -> bool
    ensures { result ≡ same_text name.now literals_block }
{
    name.is_same(&Name::new(b"="))
}

/// Appends the lines of the words of one of the deck's own blocks, where its statements store these; the
/// block of the literals has those. A common block has no lines here.
fn push_block(text: &mut Sheet, parts: &ObjectParts, base: u64, row: &BlockRow, words: &[WordSpan])
    ensures { (linking : language.Linking) (cards : List Card) (object : Object) → ArePartsOf cards parts.now object →
        as_stored words.now ≡ stored_words object.kind linking row.now.name object.coded →
        text.new ≡ text.old ++ lines_of object.kind (row_words linking object base row.now) }
{
    if is_common(row.name()) {
        return;
    }
    if is_literals(row.name()) {
        push_literals(
            text,
            parts.kind,
            base,
            row.base(),
            parts.literals.as_slice(),
        );
        return;
    }
    push_words(text, parts.kind, base, row.base(), words);
}

/// Appends the lines of the words of these blocks of a deck, where its statements store these words.
fn push_blocks(
    text: &mut Sheet,
    parts: &ObjectParts,
    base: u64,
    rows: &[BlockRow],
    blocks: &[Vec<WordSpan>],
)
    requires { length blocks.now ≡ length rows.now }
    ensures { (linking : language.Linking) (cards : List Card) (object : Object) → ArePartsOf cards parts.now object →
        AllZip (AreWordsOf linking object) rows.now blocks.now →
        text.new ≡ text.old ++ lines_of object.kind (rows_words linking object base rows.now) }
{
    for (index, row) in rows.iter().enumerate() {
        push_block(text, parts, base, row, blocks[index].as_slice());
    }
}

/// Appends the lines of all words of the deck's own blocks, where its statements store these in them.
pub(crate) fn push_object_words(
    text: &mut Sheet,
    parts: &ObjectParts,
    base: u64,
    blocks: &[Vec<WordSpan>],
)
    requires { length blocks.now ≡ length parts.now.bases }
    ensures { (linking : language.Linking) (cards : List Card) (object : Object) → ArePartsOf cards parts.now object →
        AreBlockWords linking object blocks.now →
        text.new ≡ text.old ++ lines_of object.kind (object_words linking object base) }
{
    push_blocks(text, parts, base, parts.bases.rows(), blocks);
}
