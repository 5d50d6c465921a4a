//! The words of all blocks of an object, from one walk over its lines.
ghost use Rattle.std.specs.Prelude.{◌≡◌, List, [], length, IfOk};
ghost use Rattle.std.specs.List.{AllZip};
ghost use Rattle.definitions.specs.Cards.{Card};
ghost use Rattle.definitions.specs.Objects as definitions;
ghost use Rattle.definitions.specs.Objects.{object_of};
ghost use Rattle.parcel_packer.specs.Joins.Packing.{empty_run};
ghost use Rattle.deck_objects.specs.Joins.PartsOf.{ArePartsOf};
ghost use Rattle.deck_listing.specs.Joins.BlockWords.{AreBlockWords, AreWhole, IsFilledWith};
ghost use Rattle.deck_listing.specs.Joins.Walking.{AreEmpty, DoNamesDiffer, HasObject};

use crate::word_lines::put_lines;
use deck_objects::{Linking, Object, ObjectParts};
use definitions::DeckKind;
use parcel_packer::{WordSpan, Words};
use std::alloc::{AllocError, Global};
use use_blocks::BlockRow;

/// For how many spans of a block there is to be memory at first: one for each parcel it has, or for each field.
fn span_room(kind: DeckKind, row: &BlockRow, fields: usize) -> usize {
    let parcels = (row.words() as usize).saturating_mul(kind.units() as usize);
    parcels.min(fields)
}

/// A block in which nothing lies, with memory for so many spans.
fn empty_block(alloc: Global, kind: DeckKind, spans: usize) -> Words
    ensures { result ≡ record { kind = kind; run = empty_run; earlier = [] } }
{
    let mut words = Words::new(alloc, kind);
    words.make_room(spans);
    words
}

/// As many blocks as there are rows, in which nothing lies.
fn empty_blocks(
    alloc: Global,
    kind: DeckKind,
    rows: &[BlockRow],
    fields: usize,
) -> Result<Vec<Words>, AllocError>
    ensures { IfOk result (λ blocks. AreEmpty kind (length rows.now) blocks.items) }
{
    let mut blocks = Vec::with_capacity(alloc, rows.len())?;
    for row in rows {
        blocks.push(empty_block(alloc, kind, span_room(kind, row, fields)))?;
    }
    Ok(blocks)
}

/// The words of blocks, each list by increasing offset.
fn filled_blocks(alloc: Global, packed: &[Words]) -> Result<Vec<Vec<WordSpan>>, AllocError>
    requires { AreWhole packed.now }
    ensures { IfOk result (λ blocks. AllZip IsFilledWith packed.now blocks.items) }
{
    let mut blocks = Vec::with_capacity(alloc, packed.len())?;
    for words in packed {
        let spans = words.fill(alloc)?;
        blocks.push(spans)?;
    }
    Ok(blocks)
}

/// The words that the statements of an object store in each of its blocks, by the parts of the object.
pub(crate) fn words_of_parts<L: Linking>(
    alloc: Global,
    parts: &ObjectParts,
    linking: &L,
) -> Result<Vec<Vec<WordSpan>>, AllocError>
    requires object { HasObject parts.now }
    requires names { DoNamesDiffer parts.now.bases }
    ensures { IfOk result (λ blocks. (cards : List Card) (object : definitions.Object) → ArePartsOf cards parts.now object →
        AreBlockWords (L.linking linking.now) object blocks.items) }
{
    let fields = parts.lines.len().saturating_add(parts.fields.len());
    let mut packed = empty_blocks(alloc, parts.kind, parts.bases.rows(), fields)?;
    put_lines(&mut packed, parts, linking)?;
    filled_blocks(alloc, packed.as_slice())
}

/// The words that the statements of an object store in its blocks: for each block, in their order, a list
/// by increasing offset. The lines are walked once, however many blocks there are. The literals are no
/// statement's, so their block has none here.
pub fn words_of_blocks<L: Linking>(
    alloc: Global,
    object: &Object,
    linking: &L,
) -> Result<Vec<Vec<WordSpan>>, AllocError>
    ensures words { IfOk result (λ blocks. AreBlockWords (L.linking linking.now) (object_of object.now) blocks.items) }
    ensures each { IfOk result (λ blocks. length blocks.items ≡ length (object_of object.now).rows) }
{
    words_of_parts(alloc, object.parts(), linking)
}
