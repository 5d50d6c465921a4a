//! What ERRORS shows of a publication: statements of its decks that are flagged, or stand behind END and
//! begin another deck, and LINK lines of its map.
ghost use Rattle.std.specs.Prelude.{◌≡◌, ◌≤◌, ◌+◌, ◌*◌, ◌∷◌, cond, filter, flat_map, is_none, length, option_map, take, drop};
ghost use Rattle.definitions.specs.DeckInput.{Deck};
ghost use Rattle.session_line.specs.Errors.{deck_errors, deck_named, error_lines, errors_where, flag_of, is_link, map_lines, link_deck, shows_any, shows_deck, shows_line};
ghost use Rattle.session_line.specs.Joins.FlagWalks.{flags_in, line_len};

use cards::{Card, DeckName};
use deck_cuts::begins_deck;
use deck_listing::ListedObject;
use deck_objects::{Line, Object, SharedObject};
use definitions::is_same_text;
use session_commands::{ErrorsView, begins_with, behind_blank, behind_word, from_blank, to_blank};

/// Whether what is flagged in the deck of this name is shown.
pub(crate) fn shows_deck(view: &ErrorsView, name: &DeckName) -> bool
    ensures { result ≡ shows_deck view.now name.now }
{
    match view {
        ErrorsView::Every => true,
        ErrorsView::Of(wanted) => is_same_text(name.as_slice(), wanted.as_slice()),
    }
}

/// The object of the deck of a name among these, if there is one.
pub(crate) fn object_named<'a>(
    objects: &'a [ListedObject],
    name: &DeckName,
) -> Option<&'a ListedObject>
    ensures { option_map (λ object. object.now) result ≡ deck_named name.now objects.now }
{
    let mut rest = objects;
    while let Some((shared, others)) = rest.split_first() {
        if is_same_text(shared.object().name().as_slice(), name.as_slice()) {
            return Some(shared);
        }
        rest = others;
    }
    None
}

/// Whether the deck that is asked for is among these.
pub(crate) fn shows_any(view: &ErrorsView, objects: &[ListedObject]) -> bool
    ensures { result ≡ shows_any view.now objects.now }
{
    match view {
        ErrorsView::Every => true,
        ErrorsView::Of(name) => object_named(objects, name).is_some(),
    }
}

/// The first cards of some, at most so many, and those behind them.
pub(crate) fn split_cards(cards: &[Card], count: u32) -> (&[Card], &[Card])
    ensures first { result.0.now ≡ take count cards.now }
    ensures behind { result.1.now ≡ drop count cards.now }
    ensures all { length result.0.now + length result.1.now ≡ length cards.now }
{
    cards.split_at(cards.len().min(count as usize))
}

/// How many lines one with these cards has: one where it is flagged, or stands behind END and begins
/// another deck, or else none.
fn flag_size(cards: &[Card], shown: &Line) -> usize
    ensures size { result ≡ length (flag_of 0 cards.now shown.now.letters (is_none shown.now.coded)) }
    ensures few { result ≤ length cards.now }
{
    let Some((card, _)) = cards.split_first() else {
        return 0;
    };
    let text = shown.letters.text();
    if !text.as_slice().is_empty() || (shown.coded.is_none() && begins_deck(card)) {
        1
    } else {
        0
    }
}

/// How many lines statements have that have these cards.
fn flag_count(cards: &[Card], lines: &[Line]) -> usize
    ensures count { result ≡ length (flags_in 0 cards.now lines.now) }
    ensures few { result ≤ length cards.now }
{
    let mut count = 0;
    let mut ahead = cards;
    for shown in lines {
        let (own, behind) = split_cards(ahead, shown.cards);
        count += flag_size(own, shown);
        ahead = behind;
    }
    count
}

/// How many lines of a deck are shown.
fn deck_count(view: &ErrorsView, object: &Object) -> usize
    ensures count { result ≡ length (errors_where view.now object.now) }
    ensures few { result ≤ 20000 }
{
    if !shows_deck(view, object.name()) {
        return 0;
    }
    flag_count(object.cards(), object.parts().lines.as_slice())
}

/// How many lines of decks are shown.
fn decks_count(view: &ErrorsView, objects: &[SharedObject]) -> usize
    requires { length objects.now ≤ 64 }
    ensures count { result ≡ length (flat_map (errors_where view.now) objects.now) }
    ensures few { result ≤ 20000 * 64 }
{
    let mut count = 0;
    for shared in objects {
        count += deck_count(view, shared.object());
    }
    count
}

/// How many characters stand in front of the first line feed.
fn line_len(text: &[u8]) -> usize
    ensures len { result ≡ line_len text.now }
    ensures within { result ≤ length text.now }
{
    let mut rest = text;
    let mut len = 0;
    while let Some((c, others)) = rest.split_first() {
        if *c == b'\n' {
            return len;
        }
        rest = others;
        len += 1;
    }
    len
}

/// The first line of a text without its line feed, and what stands behind that.
pub(crate) fn split_line(text: &[u8]) -> (&[u8], &[u8])
    ensures line { result.0.now ≡ take (line_len text.now) text.now }
    ensures behind { result.1.now ≡ drop (line_len text.now + 1) text.now }
    ensures within { length result.0.now ≤ length text.now }
{
    let (line, rest) = text.split_at(line_len(text));
    (line, behind_blank(rest))
}

/// Whether a line of a map is a LINK line.
fn is_link(line: &[u8]) -> bool
    ensures { result ≡ is_link line.now }
{
    begins_with(b"LINK ", line)
}

/// The third word of a line, which is the deck of a LINK line.
fn link_deck(line: &[u8]) -> &[u8]
    ensures { result.now ≡ link_deck line.now }
{
    to_blank(behind_blank(behind_word(from_blank(line))))
}

/// Whether a line of a map is shown.
pub(crate) fn shows_line(view: &ErrorsView, line: &[u8]) -> bool
    ensures { result ≡ shows_line view.now line.now }
{
    match view {
        ErrorsView::Every => is_link(line) || is_same_text(line, b"END"),
        ErrorsView::Of(name) => is_link(line) && is_same_text(link_deck(line), name.as_slice()),
    }
}

/// One where something holds, else none.
fn one_where(holds: bool) -> usize
    ensures size { result ≡ cond holds 1 0 }
    ensures few { result ≤ 1 }
{
    if holds { 1 } else { 0 }
}

/// How many lines of a map are shown.
fn link_count(view: &ErrorsView, map: &[u8]) -> usize
    ensures count { result ≡ length (filter (shows_line view.now) (map_lines map.now)) }
    ensures few { result ≤ length map.now }
{
    let mut count = 0;
    let mut rest = map;
    while !rest.is_empty() {
        let (line, behind) = split_line(rest);
        count += one_where(shows_line(view, line));
        rest = behind;
    }
    count
}

/// How many lines of decks and of the map of their link are shown.
pub(crate) fn error_count(view: &ErrorsView, objects: &[SharedObject], map: &[u8]) -> usize
    requires { length objects.now ≤ 64 }
    ensures { result ≡ length (error_lines view.now objects.now map.now) }
{
    decks_count(view, objects) + link_count(view, map)
}
