//! The LINK lines of a link.
ghost use Rattle.std.specs.Prelude.{◌≡◌, [], flat_map, OnOk};
ghost use Rattle.definitions.specs.Blocks.{is_named};
ghost use Rattle.definitions.specs.LinkValues.{entry_names};
ghost use Rattle.definitions.specs.LinkLines.{doubled_lines, lines_from, link_lines, missing_lines, past_lines};
ghost use Rattle.deck_linker.specs.Joins.DeckLines.{lines_of_common, lines_of_deck, lines_of_decks};
ghost use Rattle.deck_linker.specs.Joins.Lines.{with_lines};

use crate::link_text::LinkText;
use crate::linked_deck::{entries, externals, name};
use crate::name_set::NameSet;
use crate::unfit_fields::push_unfit;
use crate::{Based, Common, Layout};
use deck_objects::Entry;
use expr_forms::Name;
use std::alloc::{AllocError, Global};
use std::hash::RandomState;

/// Writes a D line for each entry that an earlier deck has.
fn push_doubled(
    out: &mut LinkText,
    earlier: &NameSet,
    deck: &[u8],
    entries: &[Entry],
) -> Result<(), AllocError>
    ensures { OnOk result (out.new ≡ with_lines out.old (doubled_lines earlier.now deck.now entries.now)) }
{
    for entry in entries {
        if earlier.contains(entry.name()) {
            out.push_name(b'D', deck, entry.name().as_slice())?;
        }
    }
    Ok(())
}

/// Whether a deck enters a name.
fn is_entered(layout: &Layout, name: &Name) -> bool
    ensures { result ≡ is_named name.now (entry_names layout.now.decks) }
{
    layout.entered(name).is_some()
}

/// Writes a U line for each external that no deck enters.
fn push_missing(
    out: &mut LinkText,
    layout: &Layout,
    deck: &[u8],
    externals: &[Name],
) -> Result<(), AllocError>
    ensures { OnOk result (out.new ≡ with_lines out.old (missing_lines (entry_names layout.now.decks) deck.now externals.now)) }
{
    for name in externals {
        if !is_entered(layout, name) {
            out.push_name(b'U', deck, name.as_slice())?;
        }
    }
    Ok(())
}

/// Writes the F line of a deck or a common block that passes the end of memory.
fn push_past(out: &mut LinkText, is_past: bool, name: &[u8]) -> Result<(), AllocError>
    ensures { OnOk result (out.new ≡ with_lines out.old (past_lines is_past name.now)) }
{
    if is_past {
        out.push_short(b'F', name)?;
    }
    Ok(())
}

/// Writes the LINK lines of a deck, where earlier decks enter some names.
#[tactic(auto, using(crate::proofs::LineLaws::lines_joined))]
fn push_deck(
    out: &mut LinkText,
    layout: &Layout,
    earlier: &NameSet,
    based: &Based,
) -> Result<(), AllocError>
    ensures { OnOk result (out.new ≡ with_lines out.old (lines_of_deck layout.now earlier.now based.now)) }
{
    let deck = name(based);
    push_doubled(out, earlier, deck, entries(based))?;
    push_missing(out, layout, deck, externals(based))?;
    push_unfit(out, layout, based)?;
    push_past(out, based.is_past(), deck)
}

/// Writes the LINK lines of decks; the names that they enter join those that earlier decks enter.
fn push_decks(
    out: &mut LinkText,
    layout: &Layout,
    earlier: &mut NameSet,
    decks: &[Based],
) -> Result<(), AllocError>
    ensures { OnOk result (out.new ≡ with_lines out.old (lines_of_decks layout.now earlier.old decks.now)) }
{
    for based in decks {
        push_deck(out, layout, earlier, based)?;
        earlier.add_entries(entries(based))?;
    }
    Ok(())
}

/// Writes the LINK lines of the common blocks.
#[tactic(auto, using(crate::proofs::LineLaws::lines_joined))]
fn push_commons(out: &mut LinkText, commons: &[Common]) -> Result<(), AllocError>
    ensures { OnOk result (out.new ≡ with_lines out.old (flat_map lines_of_common commons.now)) }
{
    for common in commons {
        push_past(out, common.is_past(), common.name().as_slice())?;
    }
    Ok(())
}

/// Writes the LINK lines of a link: those of its decks in order, and those of its common blocks.
#[tactic(auto, using(crate::proofs::LineLaws::lines_joined))]
pub(crate) fn push_link_lines(
    alloc: Global,
    keys: RandomState,
    out: &mut LinkText,
    layout: &Layout,
) -> Result<(), AllocError>
    ensures { OnOk result (out.new ≡ with_lines out.old (link_lines layout.now)) }
{
    let mut earlier = NameSet::new(alloc, keys);
    push_decks(out, layout, &mut earlier, layout.decks())?;
    push_commons(out, layout.commons())
}
