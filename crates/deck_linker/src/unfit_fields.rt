//! The LINK A lines: fields that the values of a link do not fit.
ghost use Rattle.std.specs.Prelude.{ℕ, ◌≡◌, ◌+◌, ◌*◌, ◌/◌, ◌^◌, ◌<◌, ◌≤◌, List, flat_map, length, map, reverse, slice_get, OnOk};
ghost use Rattle.definitions.specs.Kinds.{unit_bits, word_bits};
ghost use Rattle.definitions.specs.Layout.{block_base};
ghost use Rattle.definitions.specs.LinkValues.{is_unfit};
ghost use Rattle.definitions.specs.LinkLines.{address_lines, unfit_addresses, unfit_words};
ghost use Rattle.deck_objects.specs.Joins.LineItems.{AreKept, AreShort};
ghost use Rattle.deck_linker.specs.Joins.Lines.{with_lines};
ghost use Rattle.deck_linker.specs.Joins.UnfitLines.{AllAreKept, IsKept, unfit_in, unfit_lines, unfit_of};
ghost use Rattle.statement_coder.specs.Joins.Items.{item_as};
ghost use Rattle.definitions.specs.Laws.Filling.{HasRoom};

use crate::link_text::LinkText;
use crate::linked_deck::{kind, name, parts};
use crate::{Based, Layout};
use deck_objects::{CodedLine, Line, LineFields, ObjectParts, listed};
use definitions::DeckKind;
use expr_forms::Name;
use statement_coder::{Content, Item, number_coded};
use std::alloc::AllocError;

/// Whether the value that the link gives a field does not fit there.
fn is_unfit(layout: &Layout, based: &Based, item: &Item) -> bool
    requires most { item.now.width ≤ 60 }
    requires room { HasRoom item.now.width (item_as item.now).content }
    ensures { result ≡ is_unfit layout.now based.now (item_as item.now) }
{
    match item.content {
        Content::Known(_) => false,
        Content::Linked(form) => {
            match number_coded(item.width, layout.linked_value(based, form)) {
                Some(_) => false,
                None => true,
            }
        }
    }
}

/// The bit of its block at which a parcel begins; a peripheral word is one parcel.
fn bit_of(kind: DeckKind, place: u32) -> u64
    ensures bit { result ≡ place * unit_bits kind }
    ensures small { result < 2 ^ 40 }
{
    match kind {
        DeckKind::Periph => 12 * u64::from(place),
        DeckKind::Rel | DeckKind::Abs => 15 * u64::from(place),
    }
}

/// The word of its block in which a bit lies.
fn word_of(kind: DeckKind, bit: u64) -> u64
    ensures { result ≡ bit / word_bits kind }
{
    match kind {
        DeckKind::Periph => bit / 12,
        DeckKind::Rel | DeckKind::Abs => bit / 60,
    }
}

/// Writes an A line for each of these fields that its value does not fit. The first of them begins at
/// a bit of a block.
fn push_unfit_items(
    out: &mut LinkText,
    layout: &Layout,
    based: &Based,
    block: &Name,
    first: u64,
    items: &[Item],
) -> Result<(), AllocError>
    requires first { first < 2 ^ 40 }
    requires few { length items.now < 2 ^ 32 }
    requires short { AreShort (map item_as items.now) }
    ensures { OnOk result (out.new ≡ with_lines out.old (address_lines based.now.object.name (block_base layout.now.commons based.now block.now) (unfit_words layout.now based.now first (map item_as items.now)))) }
{
    let deck = name(based);
    let kind = kind(based);
    let mut from = first;
    for item in items {
        if is_unfit(layout, based, item) {
            let base = layout.block_base(based, block);
            out.push_address(b'A', deck, base + u128::from(word_of(kind, from)))?;
        }
        from += u64::from(item.width);
    }
    Ok(())
}

/// Writes an A line for each field of a statement that its value does not fit.
fn push_unfit_line(
    out: &mut LinkText,
    layout: &Layout,
    based: &Based,
    parts: &ObjectParts,
    line: &CodedLine,
) -> Result<(), AllocError>
    requires kept { AreKept based.now.object.kind parts.now.fields line.now line.now.fields }
    ensures { OnOk result (out.new ≡ with_lines out.old (unfit_in layout.now based.now parts.now.fields line.now (slice_get parts.now.bases line.now.block))) }
{
    let LineFields::Listed { first, count } = line.fields else {
        return Ok(());
    };
    let Some(row) = parts.bases.rows().get(line.block as usize) else {
        return Ok(());
    };
    let from = bit_of(kind(based), line.place);
    let items = listed(parts.fields.items.as_slice(), first, count);
    push_unfit_items(out, layout, based, row.name(), from, items)
}

/// Writes the A lines of a statement of the listing, which has none behind END.
fn push_unfit_of(
    out: &mut LinkText,
    layout: &Layout,
    based: &Based,
    parts: &ObjectParts,
    line: &Line,
) -> Result<(), AllocError>
    requires { IsKept based.now.object.kind parts.now.fields line.now.coded }
    ensures { OnOk result (out.new ≡ with_lines out.old (unfit_of layout.now based.now parts.now.bases parts.now.fields line.now.coded)) }
{
    match &line.coded {
        Some(coded) => push_unfit_line(out, layout, based, parts, coded),
        None => Ok(()),
    }
}

/// Writes an A line for each field of these statements that its value does not fit.
#[tactic(auto, using(crate::proofs::LineLaws::lines_joined))]
fn push_unfit_lines(
    out: &mut LinkText,
    layout: &Layout,
    based: &Based,
    parts: &ObjectParts,
    lines: &[Line],
) -> Result<(), AllocError>
    requires { AllAreKept based.now.object.kind parts.now.fields lines.now }
    ensures { OnOk result (out.new ≡ with_lines out.old (unfit_lines layout.now based.now parts.now.bases parts.now.fields lines.now)) }
{
    for line in lines {
        push_unfit_of(out, layout, based, parts, line)?;
    }
    Ok(())
}

/// Writes an A line for each field of a deck that its value does not fit.
pub(crate) fn push_unfit(
    out: &mut LinkText,
    layout: &Layout,
    based: &Based,
) -> Result<(), AllocError>
    ensures { OnOk result (out.new ≡ with_lines out.old (flat_map (unfit_addresses layout.now based.now) (reverse based.now.object.coded))) }
{
    let parts = parts(based);
    push_unfit_lines(out, layout, based, parts, parts.lines.as_slice())
}
