//! The map of a link: each deck with its base, each common block, each entry with its value, and the
//! LINK lines.
ghost use Rattle.std.specs.Prelude.{◌≡◌, ◌++◌, [], codes, flat_map, length, unwrap_or, IfOk, OnOk};
ghost use Rattle.definitions.specs.Coding.{coded_in};
ghost use Rattle.definitions.specs.LinkValues.{entry_value};
ghost use Rattle.definitions.specs.LinkLines.{link_lines};
ghost use Rattle.definitions.specs.Listing.{line};
ghost use Rattle.definitions.specs.Map.{common_line, deck_line, entry_line, entry_lines, map_text};
ghost use Rattle.deck_linker.specs.Joins.MapLines.{entries_of_decks, map_front, new_entry, shown_place, shown_value};

use crate::link_lines::push_link_lines;
use crate::link_text::LinkText;
use crate::linked_deck::{entries, kind, name};
use crate::name_set::NameSet;
use crate::{Based, Common, Layout};
use deck_objects::{Entry, coded_or_zero};
use std::alloc::{AllocError, Global};
use std::hash::RandomState;
use text_ports::Text;

/// A text with a map behind it, and how many LINK lines the map has.
#[derive(Drop)]
pub(crate) struct Mapped {
    pub(crate) text: Text,
    pub(crate) links: usize,
}

/// Writes the end of a line: a base and a length.
fn push_place(text: &mut Text, base: u64, words: u64) -> Result<(), AllocError>
    ensures { OnOk result (text.new ≡ text.old ++ line (shown_place base words)) }
{
    text.push_byte(b' ')?;
    text.push_octal(6, base)?;
    text.push_byte(b' ')?;
    text.push_octal(8, words)?;
    text.push_byte(b'\n')
}

/// Writes a deck: name, kind, base and length.
fn push_deck(text: &mut Text, based: &Based) -> Result<(), AllocError>
    ensures { OnOk result (text.new ≡ text.old ++ deck_line based.now) }
{
    text.push_bytes(b"DECK ")?;
    text.push_bytes(name(based))?;
    text.push_byte(b' ')?;
    text.push_bytes(kind(based).text())?;
    push_place(text, u64::from(based.base()), based.deck_length())
}

/// Writes decks in order.
fn push_decks(text: &mut Text, decks: &[Based]) -> Result<(), AllocError>
    ensures { OnOk result (text.new ≡ text.old ++ flat_map deck_line decks.now) }
{
    for based in decks {
        push_deck(text, based)?;
    }
    Ok(())
}

/// Writes a common block: name, base and length.
fn push_common(text: &mut Text, common: &Common) -> Result<(), AllocError>
    ensures { OnOk result (text.new ≡ text.old ++ common_line common.now) }
{
    text.push_bytes(b"COMMON ")?;
    text.push_bytes(common.name().as_slice())?;
    push_place(text, u64::from(common.base()), u64::from(common.words()))
}

/// Writes common blocks in order.
fn push_commons(text: &mut Text, commons: &[Common]) -> Result<(), AllocError>
    ensures { OnOk result (text.new ≡ text.old ++ flat_map common_line commons.now) }
{
    for common in commons {
        push_common(text, common)?;
    }
    Ok(())
}

/// The value of an entry in 60 bits, which is 0 where it does not fit.
fn entry_bits(layout: &Layout, based: &Based, entry: &Entry) -> u64
    ensures { result ≡ unwrap_or (coded_in 60 (entry_value layout.now.commons based.now entry.now)) 0 }
{
    coded_or_zero(60, layout.entry_value(based, entry))
}

/// Writes the end of a line: a value.
fn push_value(text: &mut Text, bits: u64) -> Result<(), AllocError>
    ensures { OnOk result (text.new ≡ text.old ++ line (shown_value bits)) }
{
    text.push_byte(b' ')?;
    text.push_octal(20, bits)?;
    text.push_byte(b'\n')
}

/// Writes an entry: name, deck, and value.
fn push_entry(
    text: &mut Text,
    layout: &Layout,
    based: &Based,
    entry: &Entry,
) -> Result<(), AllocError>
    ensures { OnOk result (text.new ≡ text.old ++ entry_line layout.now.commons based.now entry.now) }
{
    text.push_bytes(b"ENTRY ")?;
    text.push_bytes(entry.name().as_slice())?;
    text.push_byte(b' ')?;
    text.push_bytes(name(based))?;
    push_value(text, entry_bits(layout, based, entry))
}

/// Writes an entry that no earlier deck has.
fn push_new_entry(
    text: &mut Text,
    layout: &Layout,
    earlier: &NameSet,
    based: &Based,
    entry: &Entry,
) -> Result<(), AllocError>
    ensures { OnOk result (text.new ≡ text.old ++ new_entry layout.now.commons earlier.now based.now entry.now) }
{
    if earlier.contains(entry.name()) {
        return Ok(());
    }
    push_entry(text, layout, based, entry)
}

/// Writes the entries of a deck that no earlier deck has.
fn push_entries(
    text: &mut Text,
    layout: &Layout,
    earlier: &NameSet,
    based: &Based,
    entries: &[Entry],
) -> Result<(), AllocError>
    ensures { OnOk result (text.new ≡ text.old ++ entry_lines layout.now.commons earlier.now based.now entries.now) }
{
    for entry in entries {
        push_new_entry(text, layout, earlier, based, entry)?;
    }
    Ok(())
}

/// Writes the entries of decks, each name once; those of each join those that earlier decks enter.
fn push_entries_of(
    text: &mut Text,
    layout: &Layout,
    earlier: &mut NameSet,
    decks: &[Based],
) -> Result<(), AllocError>
    ensures { OnOk result (text.new ≡ text.old ++ entries_of_decks layout.now.commons earlier.old decks.now) }
{
    for based in decks {
        push_entries(text, layout, earlier, based, entries(based))?;
        earlier.add_entries(entries(based))?;
    }
    Ok(())
}

/// Writes a map up to its LINK lines.
fn push_front(
    alloc: Global,
    keys: RandomState,
    text: &mut Text,
    layout: &Layout,
) -> Result<(), AllocError>
    ensures { OnOk result (text.new ≡ text.old ++ map_front layout.now) }
{
    let mut earlier = NameSet::new(alloc, keys);
    text.push_bytes(b"MAP\n")?;
    push_decks(text, layout.decks())?;
    push_commons(text, layout.commons())?;
    push_entries_of(text, layout, &mut earlier, layout.decks())
}

/// A text with the map of a link behind it.
pub(crate) fn with_map(
    alloc: Global,
    keys: RandomState,
    front: Text,
    layout: &Layout,
) -> Result<Mapped, AllocError>
    ensures text { IfOk result (λ mapped. mapped.text ≡ front ++ map_text layout.now) }
    ensures links { IfOk result (λ mapped. mapped.links ≡ length (link_lines layout.now)) }
{
    let mut text = front;
    push_front(alloc, keys, &mut text, layout)?;
    let mut lines = LinkText::new(text);
    push_link_lines(alloc, keys, &mut lines, layout)?;
    let links = lines.lines();
    let mut text = lines.into_text();
    text.push_bytes(b"END\n")?;
    Ok(Mapped { text, links })
}
