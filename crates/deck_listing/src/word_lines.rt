//! The lines of an object, put one behind the other, each into the words of its block.
ghost use Rattle.std.specs.Prelude.{◌≡◌, ◌*◌, ◌∷◌, List, length, OnOk};
ghost use Rattle.definitions.specs.Kinds.{unit_bits};
ghost use Rattle.definitions.specs.Objects.{Object};
ghost use Rattle.definitions.specs.Cards.{Card};
ghost use Rattle.definitions.specs.Operations.{is_instruction};
ghost use Rattle.definitions.specs.Words.{Coded};
ghost use Rattle.operations.specs.Joins.OperationsAs.{operation_as};
ghost use Rattle.deck_objects.specs.Joins.LineItems.{kept_items};
ghost use Rattle.deck_objects.specs.Joins.PartsOf.{ArePartsOf};
ghost use Rattle.deck_listing.specs.Joins.Putting.{ArePut, IsReady};
ghost use Rattle.deck_listing.specs.Joins.Walking.{AreEmpty, DoNamesDiffer, DoesFollow, DoesFollowAll, HasObject, HasRuns, HaveRuns, IsNext, IsNextOfAll};

use crate::fields::{put_fields, put_item};
use deck_objects::{CodedLine, FieldLists, LineFields, Linking, ObjectParts, listed};
use definitions::DeckKind;
use parcel_packer::Words;
use std::alloc::AllocError;

/// Puts the fields of a line into its block.
fn put_line<L: Linking>(
    words: &mut Words,
    kind: DeckKind,
    lists: &FieldLists,
    linking: &L,
    line: &CodedLine,
) -> Result<(), AllocError>
    requires { IsReady kind lists.now line.now words.old }
    ensures kind { OnOk result (words.new.kind ≡ words.old.kind) }
    ensures earlier { OnOk result (words.new.earlier ≡ words.old.earlier) }
    ensures put { OnOk result (ArePut (unit_bits kind) (is_instruction (operation_as line.now.operation)) (L.linking linking.now)
        words.old.run (unit_bits kind * line.now.place) (kept_items kind lists.now line.now) words.new.run) }
{
    let from = kind.unit_bits() * line.place;
    let is_instruction = line.operation.is_instruction();
    match line.fields {
        LineFields::Absent => Ok(()),
        LineFields::Known(bits) => {
            let field = line.known_field(kind, bits);
            put_item(words, linking, from, is_instruction, &field)
        }
        LineFields::Words { first, count } => {
            let own = listed(lists.words.as_slice(), first, count);
            put_fields(words, linking, kind, from, is_instruction, own)
        }
        LineFields::Listed { first, count } => {
            let fields = listed(lists.items.as_slice(), first, count);
            put_fields(words, linking, kind, from, is_instruction, fields)
        }
        LineFields::Zeros => {
            let units = kind.units();
            words.put_zeros(line.place / units, (line.end - line.place) / units)
        }
    }
}

/// Puts a line into the words of its block; one that begins a run begins it.
fn put_next<L: Linking>(
    words: &mut Words,
    parts: &ObjectParts,
    linking: &L,
    line: &CodedLine,
) -> Result<(), AllocError>
    requires { IsNext parts.now.kind parts.now.bases parts.now.fields (L.linking linking.now) line.now words.old }
    ensures { OnOk result ((coded : Coded) (earlier : List Coded) →
        DoesFollow parts.now.kind parts.now.bases parts.now.fields (L.linking linking.now) coded.settled.block line.now words.old coded earlier →
        HasRuns parts.now.kind (L.linking linking.now) coded.settled.block (coded ∷ earlier) words.new) }
{
    if line.begins_run {
        return words.begin_run();
    }
    put_line(words, parts.kind, &parts.fields, linking, line)
}

/// Puts a line into the words of its block, which are at its place among those of all blocks.
fn put_coded<L: Linking>(
    blocks: &mut Vec<Words>,
    parts: &ObjectParts,
    linking: &L,
    line: &CodedLine,
) -> Result<(), AllocError>
    requires names { DoNamesDiffer parts.now.bases }
    requires next { IsNextOfAll parts.now.kind parts.now.bases parts.now.fields (L.linking linking.now) line.now blocks.old.items }
    ensures { OnOk result ((coded : Coded) (earlier : List Coded) →
        DoesFollowAll parts.now.kind parts.now.bases parts.now.fields (L.linking linking.now) line.now blocks.old.items coded earlier →
        HaveRuns parts.now.kind (L.linking linking.now) parts.now.bases (coded ∷ earlier) blocks.new.items) }
{
    put_next(&mut blocks[line.block as usize], parts, linking, line)
}

/// Puts all lines into the words of their blocks, in one walk over the lines.
pub(crate) fn put_lines<L: Linking>(
    blocks: &mut Vec<Words>,
    parts: &ObjectParts,
    linking: &L,
) -> Result<(), AllocError>
    requires object { HasObject parts.now }
    requires names { DoNamesDiffer parts.now.bases }
    requires empty { AreEmpty parts.now.kind (length parts.now.bases) blocks.old.items }
    ensures { OnOk result ((cards : List Card) (object : Object) → ArePartsOf cards parts.now object →
        HaveRuns parts.now.kind (L.linking linking.now) parts.now.bases object.coded blocks.new.items) }
{
    for line in parts.lines.as_slice() {
        if let Some(coded) = &line.coded {
            put_coded(blocks, parts, linking, coded)?;
        }
    }
    Ok(())
}
