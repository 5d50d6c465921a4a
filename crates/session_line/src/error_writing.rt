//! What ERRORS shows of a publication, as bytes to a writer: a line each.
ghost use Rattle.std.specs.Prelude.{◌≡◌, ◌≤◌, ◌<◌, ◌+◌, ◌*◌, ◌^◌, ◌++◌, All, codes, filter, flat_map, is_none, length, IfErr, IfOk};
ghost use Rattle.deck_objects.specs.declared.lines.Line.{Line};
ghost use Rattle.text_ports.specs.Joins.Sending.{Sends, count_after_sending};
ghost use Rattle.session_line.specs.Errors.{Begins, Flagged, error_lines, errors_where, flag_of, flag_text, map_lines, shows_line};
ghost use Rattle.session_line.specs.Joins.FlagWalks.{flags_in, flags_text, shown_text};
ghost use Rattle.session_line.specs.Replies.{line_of, text_of_lines};

use crate::errors::{shows_deck, shows_line, split_cards, split_line};
use crate::reply_line::ReplyLine;
use cards::{Card, DeckName};
use deck_cuts::begins_deck;
use deck_objects::{Line, Object, SharedObject};
use session_commands::ErrorsView;
use std::io::Write;
use text_ports::{Broken, Counted, put_all};

/// A word, and a blank behind it.
fn put_word(line: &mut ReplyLine, word: &[u8])
    requires { length line.old + length word.now < 128 }
    ensures text { line.new ≡ line.old ++ (word.now ++ codes " ") }
    ensures len { length line.new ≡ length line.old + (length word.now + 1) }
{
    line.put(word);
    line.put(b" ");
}

/// The line of a flagged statement: its deck, the number of its first card, its letters, and that card.
fn flagged_line(name: &DeckName, number: u64, letters: &[u8], card: &Card) -> ReplyLine
    requires { length letters.now ≤ 9 }
    ensures line { result ≡ line_of (flag_text name.now (Flagged number letters.now card.now)) }
    ensures short { length result ≤ 128 }
{
    let mut line = ReplyLine::new();
    line.put(b"ERR ");
    put_word(&mut line, name.as_slice());
    line.put_number(number);
    line.put(b" ");
    put_word(&mut line, letters);
    line.put(card.as_slice());
    line.end();
    line
}

/// The line of a statement behind END that begins another deck: its deck, the number of its first card, and
/// that card.
fn begun_line(name: &DeckName, number: u64, card: &Card) -> ReplyLine
    ensures line { result ≡ line_of (flag_text name.now (Begins number card.now)) }
    ensures short { length result ≤ 128 }
{
    let mut line = ReplyLine::new();
    line.put(b"MORE ");
    put_word(&mut line, name.as_slice());
    line.put_number(number);
    line.put(b" ");
    line.put(card.as_slice());
    line.end();
    line
}

/// The line of a statement with these cards, of which so many stand before, where it is shown. Otherwise
/// nothing.
fn flag_line(name: &DeckName, before: usize, cards: &[Card], shown: &Line) -> ReplyLine
    requires few { before ≤ 20000 }
    requires letters { length shown.now.letters ≤ 9 }
    ensures line { result ≡ flags_text name.now (flag_of before cards.now shown.now.letters (is_none shown.now.coded)) }
    ensures short { length result ≤ 128 * length cards.now }
{
    let Some((card, _)) = cards.split_first() else {
        return ReplyLine::new();
    };
    let text = shown.letters.text();
    let letters = text.as_slice();
    if !letters.is_empty() {
        return flagged_line(name, before as u64 + 1, letters, card);
    }
    if shown.coded.is_none() && begins_deck(card) {
        begun_line(name, before as u64 + 1, card)
    } else {
        ReplyLine::new()
    }
}

/// The lines of those that are shown of statements that have these cards; how many bytes they are.
fn write_flags<W: Write>(
    output: &mut Counted<W>,
    name: &DeckName,
    cards: &[Card],
    lines: &[Line],
) -> Result<usize, Broken>
    requires few { length cards.now ≤ 20000 }
    requires letters { All (λ (shown : Line). length shown.letters ≤ 9) lines.now }
    ensures sends { Sends (W.contents output.old.0) (W.contents output.new.0) (flags_text name.now (flags_in 0 cards.now lines.now)) result }
    ensures size { IfOk result (λ size. size ≡ length (flags_text name.now (flags_in 0 cards.now lines.now))) }
    ensures count { output.new.1 ≡ count_after_sending result output.old.1 }
    ensures some { IfOk result (λ size. size ≤ 128 * 20000) }
    ensures few { IfErr result (λ broken. broken.sent ≤ 128 * 20001) }
{
    let mut sent = 0;
    let mut before = 0;
    let mut ahead = cards;
    for shown in lines {
        let (own, behind) = split_cards(ahead, shown.cards);
        let line = flag_line(name, before, own, shown);
        let bytes = line.as_slice();
        if let Err(broken) = put_all(output, bytes) {
            return Err(Broken {
                sent: sent + broken.sent,
            });
        }
        sent += bytes.len();
        before += own.len();
        ahead = behind;
    }
    Ok(sent)
}

/// The lines of what is shown of a deck; how many bytes they are.
fn write_deck<W: Write>(
    output: &mut Counted<W>,
    view: &ErrorsView,
    object: &Object,
) -> Result<usize, Broken>
    ensures sends { Sends (W.contents output.old.0) (W.contents output.new.0) (text_of_lines (errors_where view.now object.now)) result }
    ensures size { IfOk result (λ size. size ≡ length (text_of_lines (errors_where view.now object.now))) }
    ensures count { output.new.1 ≡ count_after_sending result output.old.1 }
    ensures some { IfOk result (λ size. size ≤ 128 * 20000) }
    ensures few { IfErr result (λ broken. broken.sent ≤ 128 * 20001) }
{
    if !shows_deck(view, object.name()) {
        return Ok(0);
    }
    write_flags(
        output,
        object.name(),
        object.cards(),
        object.parts().lines.as_slice(),
    )
}

/// The lines of what is shown of decks; how many bytes they are.
fn write_decks<W: Write>(
    output: &mut Counted<W>,
    view: &ErrorsView,
    objects: &[SharedObject],
) -> Result<usize, Broken>
    requires { length objects.now ≤ 64 }
    ensures sends { Sends (W.contents output.old.0) (W.contents output.new.0) (text_of_lines (flat_map (errors_where view.now) objects.now)) result }
    ensures size { IfOk result (λ size. size ≡ length (text_of_lines (flat_map (errors_where view.now) objects.now))) }
    ensures count { output.new.1 ≡ count_after_sending result output.old.1 }
    ensures some { IfOk result (λ size. size ≤ 128 * 20000 * 64) }
    ensures few { IfErr result (λ broken. broken.sent ≤ 128 * 20000 * 65) }
{
    let mut sent = 0;
    for shared in objects {
        match write_deck(output, view, shared.object()) {
            Ok(size) => sent += size,
            Err(broken) => {
                return Err(Broken {
                    sent: sent + broken.sent,
                });
            }
        }
    }
    Ok(sent)
}

/// A line of a map, and its line feed.
fn write_line<W: Write>(output: &mut Counted<W>, line: &[u8]) -> Result<(), Broken>
    ensures sends { Sends (W.contents output.old.0) (W.contents output.new.0) (line_of line.now) result }
    ensures count { output.new.1 ≡ count_after_sending result output.old.1 }
    ensures few { IfErr result (λ broken. broken.sent ≤ length line.now) }
{
    put_all(output, line)?;
    match put_all(output, b"\n") {
        Ok(()) => Ok(()),
        Err(broken) => Err(Broken {
            sent: line.len() + broken.sent,
        }),
    }
}

/// A line of a map where it is shown; how many bytes that is.
fn write_shown<W: Write>(
    output: &mut Counted<W>,
    view: &ErrorsView,
    line: &[u8],
) -> Result<usize, Broken>
    ensures sends { Sends (W.contents output.old.0) (W.contents output.new.0) (shown_text view.now line.now) result }
    ensures size { IfOk result (λ size. size ≡ length (shown_text view.now line.now)) }
    ensures count { output.new.1 ≡ count_after_sending result output.old.1 }
    ensures some { IfOk result (λ size. size ≤ length line.now + 1) }
    ensures few { IfErr result (λ broken. broken.sent ≤ length line.now) }
{
    if !shows_line(view, line) {
        return Ok(0);
    }
    write_line(output, line)?;
    Ok(line.len() + 1)
}

/// The lines of a map that are shown.
fn write_links<W: Write>(
    output: &mut Counted<W>,
    view: &ErrorsView,
    map: &[u8],
) -> Result<(), Broken>
    ensures sends { Sends (W.contents output.old.0) (W.contents output.new.0) (text_of_lines (filter (shows_line view.now) (map_lines map.now))) result }
    ensures count { output.new.1 ≡ count_after_sending result output.old.1 }
    ensures few { IfErr result (λ broken. broken.sent ≤ length map.now + 1) }
{
    let mut sent = 0;
    let mut rest = map;
    while !rest.is_empty() {
        let (line, behind) = split_line(rest);
        match write_shown(output, view, line) {
            Ok(size) => sent += size,
            Err(broken) => {
                return Err(Broken {
                    sent: sent + broken.sent,
                });
            }
        }
        rest = behind;
    }
    Ok(())
}

/// Writes what is flagged in decks and in the map of their link.
pub(crate) fn write_errors<W: Write>(
    output: &mut Counted<W>,
    view: &ErrorsView,
    objects: &[SharedObject],
    map: &[u8],
) -> Result<(), Broken>
    requires { length objects.now ≤ 64 }
    ensures sends { Sends (W.contents output.old.0) (W.contents output.new.0) (text_of_lines (error_lines view.now objects.now map.now)) result }
    ensures count { output.new.1 ≡ count_after_sending result output.old.1 }
    ensures few { IfErr result (λ broken. broken.sent < 2 ^ 63 + 2 ^ 32) }
{
    let sent = write_decks(output, view, objects)?;
    match write_links(output, view, map) {
        Ok(()) => Ok(()),
        Err(broken) => Err(Broken {
            sent: sent + broken.sent,
        }),
    }
}
