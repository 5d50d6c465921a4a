//! Whether a deck stores a word beyond its memory: its lines are walked once, and no words are made for it.
ghost use Rattle.std.specs.Prelude.{◌≡◌};
ghost use Rattle.std.specs.List.{list_any};
ghost use Rattle.definitions.specs.Blocks.{literals_block};
ghost use Rattle.definitions.specs.Characters.{same_text};
ghost use Rattle.definitions.specs.Layout.{has_beyond};
ghost use Rattle.definitions.specs.Objects.{object_of};
ghost use Rattle.deck_linker.specs.Joins.Beyond.{is_plain, keeps_fields, line_beyond, listed_beyond, literals_beyond, literals_row_beyond, parts_beyond, reaches_beyond};

use deck_objects::{CodedLine, Line, LineFields, Object, ObjectParts};
use definitions::DeckKind;
use expr_forms::Name;
use use_blocks::{BlockRow, is_common};

/// Whether a line keeps fields.
fn keeps_fields(fields: LineFields) -> bool
    ensures { result ≡ keeps_fields fields }
{
    match fields {
        LineFields::Absent => false,
        LineFields::Known(_) => true,
        LineFields::Words { count, .. } => count > 0,
        LineFields::Listed { count, .. } => count > 0,
        LineFields::Zeros => true,
    }
}

/// Whether the word before an end, counted in parcels or peripheral words, lies beyond memory, in a block
/// that stands at a base.
fn reaches_beyond(kind: DeckKind, base: u64, end: u32) -> bool
    ensures { result ≡ reaches_beyond kind base end }
{
    let word = end.saturating_sub(1) / kind.units();
    u128::from(kind.memory_end()) <= u128::from(base) + u128::from(word)
}

/// Whether a block is that of the literals.
fn is_literals(row: &BlockRow) -> bool
    ensures { result ≡ same_text row.now.name literals_block }
{
    row.name().is_same(&Name::new(b"="))
}

/// Whether a block is one of the deck's own, whose words are those of statements.
fn is_plain(row: &BlockRow) -> bool
    ensures { result ≡ is_plain row.now }
{
    !is_common(row.name()) && !is_literals(row)
}

/// Whether a line stores a word of its block beyond memory.
fn line_beyond(kind: DeckKind, rows: &[BlockRow], line: &CodedLine) -> bool
    ensures { result ≡ line_beyond kind rows.now line.now }
{
    match rows.get(line.block as usize) {
        Some(row) => {
            !line.begins_run
                && keeps_fields(line.fields)
                && line.place < line.end
                && reaches_beyond(kind, row.base(), line.end)
                && is_plain(row)
        }
        None => false,
    }
}

/// Whether a line of the listing does; one behind END stores nothing.
fn listed_beyond(kind: DeckKind, rows: &[BlockRow], line: &Line) -> bool
    ensures { result ≡ listed_beyond kind rows.now line.now }
{
    match &line.coded {
        Some(coded) => line_beyond(kind, rows, coded),
        None => false,
    }
}

/// Whether one of these lines does.
fn any_listed_beyond(kind: DeckKind, rows: &[BlockRow], lines: &[Line]) -> bool
    ensures { result ≡ list_any (listed_beyond kind rows.now) lines.now }
{
    for line in lines {
        if listed_beyond(kind, rows, line) {
            return true;
        }
    }
    false
}

/// Whether so many literals from a base on reach beyond memory.
fn literals_beyond(kind: DeckKind, base: u64, count: usize) -> bool
    ensures { result ≡ literals_beyond kind base count }
{
    0 < count && u128::from(kind.memory_end()) < u128::from(base) + count as u128
}

/// Whether a block is that of so many literals and reaches beyond memory.
fn literals_row_beyond(kind: DeckKind, count: usize, row: &BlockRow) -> bool
    ensures { result ≡ literals_row_beyond kind count row.now }
{
    !is_common(row.name()) && is_literals(row) && literals_beyond(kind, row.base(), count)
}

/// Whether one of these blocks is.
fn any_literals_beyond(kind: DeckKind, count: usize, rows: &[BlockRow]) -> bool
    ensures { result ≡ list_any (literals_row_beyond kind count) rows.now }
{
    for row in rows {
        if literals_row_beyond(kind, count, row) {
            return true;
        }
    }
    false
}

/// Whether an object stores a word beyond memory, by its lines and its literals.
fn parts_beyond(parts: &ObjectParts) -> bool
    ensures { result ≡ parts_beyond parts.now }
{
    let rows = parts.bases.rows();
    any_listed_beyond(parts.kind, rows, parts.lines.as_slice())
        || any_literals_beyond(parts.kind, parts.literals.len(), rows)
}

/// Whether a stored word of an ABS or PERIPH deck lies beyond its memory.
pub(crate) fn has_beyond(object: &Object) -> bool
    ensures { result ≡ has_beyond (object_of object.now) }
{
    parts_beyond(object.parts())
}
