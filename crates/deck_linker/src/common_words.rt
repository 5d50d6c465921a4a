//! The words of the common blocks of a link: each deck that has some is walked once for all of them.
ghost use Rattle.std.specs.Prelude.{◌≡◌, ◌<◌, ◌^◌, length, IfOk, OnOk};
ghost use Rattle.std.specs.List.{AllZip};
ghost use Rattle.definitions.specs.LinkValues.{linking_of};
ghost use Rattle.deck_linker.specs.Joins.CommonWords.{AreCommonWords, AreMade, AreNone, DoListsRise, IsPutOver, has_common, over_deck, over_row, over_rows, over_decks};
ghost use Rattle.deck_listing.specs.Joins.BlockWords.{AreWordsOf};
ghost use Rattle.deck_listing.specs.Joins.Walking.{DoNamesDiffer};
ghost use Rattle.parcel_packer.specs.Joins.Filling.{DoSpansRise, as_stored};

use crate::linked_deck::parts;
use crate::{Based, DeckLinking, Layout};
use deck_listing::words_of_blocks;
use parcel_packer::{WordSpan, words_over};
use std::alloc::{AllocError, Global};
use use_blocks::BlockRow;

/// So many lists without words.
fn no_words(alloc: Global, count: usize) -> Result<Vec<Vec<WordSpan>>, AllocError>
    ensures { IfOk result (λ lists. AreNone count lists.items) }
{
    let mut lists = Vec::with_capacity(alloc, count)?;
    for _ in 0..count {
        lists.push(Vec::new(alloc))?;
    }
    Ok(lists)
}

/// Puts words over those of the list at a place.
fn put_over(
    alloc: Global,
    lists: &mut Vec<Vec<WordSpan>>,
    place: usize,
    newer: &[WordSpan],
) -> Result<(), AllocError>
    requires within { place < length lists.old.items }
    requires rise { DoSpansRise 0 newer.now (2 ^ 20) }
    requires lists { DoListsRise lists.old.items }
    ensures { OnOk result (IsPutOver place newer.now lists.old.items lists.new.items) }
{
    if newer.is_empty() {
        return Ok(());
    }
    let words = words_over(alloc, newer, lists[place].as_slice())?;
    lists[place] = words;
    Ok(())
}

/// Puts the words that a deck stores in a block over those of the common block of its name, if the link
/// has one.
fn put_row(
    alloc: Global,
    layout: &Layout,
    row: &BlockRow,
    words: &[WordSpan],
    lists: &mut Vec<Vec<WordSpan>>,
) -> Result<(), AllocError>
    requires rise { DoSpansRise 0 words.now (2 ^ 20) }
    requires lists { DoListsRise lists.old.items }
    requires same { length lists.old.items ≡ length layout.now.commons }
    ensures { OnOk result (AreMade layout.now.commons (over_row row.now (as_stored words.now)) lists.old.items lists.new.items) }
{
    match layout.common_place(row.name()) {
        Some(place) => put_over(alloc, lists, place, words),
        None => Ok(()),
    }
}

/// Puts the words that a deck stores in each of its blocks over those of the common block of its name, if
/// the link has one.
fn put_rows(
    alloc: Global,
    layout: &Layout,
    based: &Based,
    rows: &[BlockRow],
    blocks: &[Vec<WordSpan>],
    lists: &mut Vec<Vec<WordSpan>>,
) -> Result<(), AllocError>
    requires names { DoNamesDiffer rows.now }
    requires words { AllZip (AreWordsOf (linking_of layout.now based.now) based.now.object) rows.now blocks.now }
    requires lists { DoListsRise lists.old.items }
    requires same { length lists.old.items ≡ length layout.now.commons }
    ensures { OnOk result (AreMade layout.now.commons (over_rows layout.now based.now rows.now) lists.old.items lists.new.items) }
{
    for (index, row) in rows.iter().enumerate() {
        put_row(alloc, layout, row, blocks[index].as_slice(), lists)?;
    }
    Ok(())
}

/// Whether one of these rows is that of a common block of the link.
fn has_common(layout: &Layout, rows: &[BlockRow]) -> bool
    ensures { result ≡ has_common layout.now.commons rows.now }
{
    for row in rows {
        if layout.common_place(row.name()).is_some() {
            return true;
        }
    }
    false
}

/// Puts the words that a deck stores in its common blocks over those of the decks before it.
fn put_deck(
    alloc: Global,
    layout: &Layout,
    based: &Based,
    lists: &mut Vec<Vec<WordSpan>>,
) -> Result<(), AllocError>
    requires lists { DoListsRise lists.old.items }
    requires same { length lists.old.items ≡ length layout.now.commons }
    ensures { OnOk result (AreMade layout.now.commons (over_deck layout.now based.now) lists.old.items lists.new.items) }
{
    let rows = parts(based).bases.rows();
    if !has_common(layout, rows) {
        return Ok(());
    }
    let linking = DeckLinking { layout, based };
    let blocks = words_of_blocks(alloc, based.object(), &linking)?;
    put_rows(alloc, layout, based, rows, blocks.as_slice(), lists)
}

/// Puts the words that these decks store in common blocks over those of the decks before them.
fn put_decks(
    alloc: Global,
    layout: &Layout,
    decks: &[Based],
    lists: &mut Vec<Vec<WordSpan>>,
) -> Result<(), AllocError>
    requires lists { DoListsRise lists.old.items }
    requires same { length lists.old.items ≡ length layout.now.commons }
    ensures { OnOk result (AreMade layout.now.commons (λ name words. over_decks layout.now name decks.now words) lists.old.items lists.new.items) }
{
    for based in decks {
        put_deck(alloc, layout, based, lists)?;
    }
    Ok(())
}

/// For each common block of a link the words that its decks store there, by increasing offset: each word
/// is that of the last deck that stores it.
pub(crate) fn words_of_commons(
    alloc: Global,
    layout: &Layout,
) -> Result<Vec<Vec<WordSpan>>, AllocError>
    ensures { IfOk result (λ lists. AreCommonWords layout.now lists.items) }
{
    let commons = layout.commons();
    let mut lists = no_words(alloc, commons.len())?;
    put_decks(alloc, layout, layout.decks(), &mut lists)?;
    Ok(lists)
}
