//! The index of a block among the blocks of its deck.
ghost use Rattle.std.specs.Prelude.{◌≡◌, ◌≤◌, true, length, position, slice_get};
ghost use Rattle.definitions.specs.Characters.{same_text};
ghost use Rattle.deck_objects.specs.Joins.CodedLines.{IsNamed};
ghost use Rattle.deck_assembler.specs.Joins.Walks.{has_row};

use expr_forms::Name;
use use_blocks::BlockRow;

/// The place of a block among others, if it is there.
fn place_among(rows: &[BlockRow], name: &Name) -> Option<usize>
    ensures { result ≡ position (λ row. same_text name.now row.name) rows.now }
{
    rows.iter().position(|row| name.is_same(row.name()))
}

/// Whether a block has this place.
fn is_at(rows: &[BlockRow], name: &Name, place: u32) -> bool
    ensures { result ≡ true → IsNamed (slice_get rows.now place) name.now }
{
    match rows.get(place as usize) {
        Some(row) => name.is_same(row.name()),
        None => false,
    }
}

/// The index of a block among those of its deck, where it is one of them; it is looked for first where
/// the latest one stood.
pub(crate) fn block_index(rows: &[BlockRow], name: &Name, latest: u32) -> u32
    ensures { length rows.now ≤ 65 → has_row name.now rows.now ≡ true → IsNamed (slice_get rows.now result) name.now }
{
    if is_at(rows, name, latest) {
        return latest;
    }
    match place_among(rows, name) {
        Some(place) => u32::try_from(place).unwrap_or(0),
        None => 0,
    }
}
