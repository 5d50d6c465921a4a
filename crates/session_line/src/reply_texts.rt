//! The lines of replies.
ghost use Rattle.std.specs.Prelude.{◌≡◌, ◌+◌, ◌≤◌, ◌++◌, length};
ghost use Rattle.session_line.specs.Greetings.{connected_text, service_text, session_word};
ghost use Rattle.deck_listing.specs.ListedObjects.{lines_in};
ghost use Rattle.session_line.specs.Replies.{IsWithinLimits, behind_text, line_of, counted_text, ok_text, unkept_text, head_text, numbers_text, published_text, row_text, state_text, status_text};
ghost use Rattle.session_line.specs.Views.{number_where};
ghost use Rattle.session_commands.specs.Sought.{has_text};

use crate::change_lines::change_line_count;
use crate::errors::error_count;
use crate::greetings::{Connected, service_version};
use crate::refusal_texts::put_refusal;
use crate::replies::Reply;
use crate::reply_line::ReplyLine;
use crate::rights::Rights;
use crate::views::count_with;
use cards::Card;
use deck_listing::lines_in;
use desk_core::{Row, State};
use session_commands::{Refusal, has_text};

/// `OK version`
fn ok_line(version: u64) -> ReplyLine
    ensures { result ≡ line_of (ok_text version) }
{
    let mut line = ReplyLine::new();
    line.put(b"OK ");
    line.put_number(version);
    line.end();
    line
}

/// `UNKEPT version`
fn unkept_line(version: u64) -> ReplyLine
    ensures { result ≡ line_of (unkept_text version) }
{
    let mut line = ReplyLine::new();
    line.put(b"UNKEPT ");
    line.put_number(version);
    line.end();
    line
}

/// `OK version n`
pub(crate) fn counted_line(version: u64, count: usize) -> ReplyLine
    ensures { result ≡ line_of (counted_text version count) }
{
    let mut line = ReplyLine::new();
    line.put(b"OK ");
    line.put_number(version);
    line.put(b" ");
    line.put_number(count as u64);
    line.end();
    line
}

/// `BYE`
fn bye_line() -> ReplyLine
    ensures { result ≡ line_of (head_text Reply.Bye) }
{
    let mut line = ReplyLine::new();
    line.put(b"BYE");
    line.end();
    line
}

/// `NO`, and the text of a refusal.
fn refusal_line(refusal: &Refusal) -> ReplyLine
    ensures { result ≡ line_of (head_text (Reply.Refused refusal.now)) }
{
    let mut line = ReplyLine::new();
    line.put(b"NO ");
    put_refusal(&mut line, refusal);
    line.end();
    line
}

/// The first line of a reply.
pub(crate) fn head_line(reply: &Reply<'_>) -> ReplyLine
    requires { IsWithinLimits reply.now }
    ensures { result ≡ line_of (head_text reply.now) }
{
    match reply {
        Reply::Done { version } => ok_line(*version),
        Reply::Unkept { version } => unkept_line(*version),
        Reply::Cards { version, cards } => counted_line(*version, cards.len()),
        Reply::Changes { version, kept } => counted_line(*version, change_line_count(kept)),
        Reply::Found {
            version,
            cards,
            text,
        } => counted_line(*version, count_with(text, cards)),
        Reply::Text { version, text } => counted_line(*version, lines_in(text)),
        Reply::Errors {
            version,
            view,
            decks,
            map,
        } => counted_line(*version, error_count(view, decks, map)),
        Reply::Status { version, decks, .. } => counted_line(*version, decks.len() + 1),
        Reply::FileStatus { version, decks, .. } => counted_line(*version, decks.len() + 1),
        Reply::Decks { version, decks } => counted_line(*version, decks.len()),
        Reply::Files { version, files } => counted_line(*version, files.len()),
        Reply::Sessions { version, sessions } => counted_line(*version, sessions.len() + 1),
        Reply::Bye => bye_line(),
        Reply::Refused(refusal) => refusal_line(refusal),
    }
}

/// The line of a card where it has the text: its number. Otherwise nothing.
pub(crate) fn found_line(number: u64, card: &Card, text: &[u8]) -> ReplyLine
    ensures { result ≡ numbers_text (number_where (has_text text.now card.now) number) }
{
    let mut line = ReplyLine::new();
    if has_text(text, card.as_slice()) {
        line.put_number(number);
        line.end();
    }
    line
}

/// The service and its version.
pub(crate) fn service_line() -> ReplyLine
    ensures { result ≡ line_of service_text }
{
    let mut line = ReplyLine::new();
    line.put(b"SERVICE beskloun ");
    line.put(service_version());
    line.end();
    line
}

/// The word for a session, by what it may do.
fn session_word(rights: Rights) -> &'static [u8]
    ensures text { result.now ≡ session_word rights }
    ensures short { length result.now ≤ 8 }
{
    match rights {
        Rights::Edits => b"SESSION ",
        Rights::Reads => b"READER ",
    }
}

/// The line of a session that is connected.
pub(crate) fn connected_line(connected: &Connected) -> ReplyLine
    ensures { result ≡ line_of (connected_text connected.now) }
{
    let mut line = ReplyLine::new();
    line.put(session_word(connected.rights));
    line.put_number(connected.number);
    line.put(b" ");
    line.put(connected.who.as_slice());
    line.end();
    line
}

/// The version that is published.
pub(crate) fn published_line(published: Option<u64>) -> ReplyLine
    ensures { result ≡ line_of (published_text published) }
{
    let mut line = ReplyLine::new();
    line.put(b"PUBLISHED ");
    match published {
        Some(version) => line.put_number(version),
        None => line.put(b"NONE"),
    }
    line.end();
    line
}

fn state_text(state: State) -> &'static [u8]
    ensures text { result.now ≡ state_text state }
    ensures short { length result.now ≤ 6 }
{
    match state {
        State::Out => b"OUT",
        State::Behind => b"BEHIND",
        State::Ready => b"READY",
    }
}

/// The line of a deck in a status, up to its end.
pub(crate) fn row_start(row: &Row) -> ReplyLine
    ensures text { result ≡ row_text row.now }
    ensures short { length result ≤ 56 }
{
    let mut line = ReplyLine::new();
    line.put(row.name.as_slice());
    line.put(b" ");
    line.put_number(row.version);
    line.put(b" ");
    line.put_number(row.cards as u64);
    line.put(b" ");
    line.put(state_text(row.state));
    line
}

/// Puts how many decks begin behind the END of one, where any do.
pub(crate) fn put_decks_behind(line: &mut ReplyLine, count: usize)
    requires { length line.old ≤ 64 }
    ensures text { line.new ≡ line.old ++ behind_text count }
    ensures short { length line.new ≤ length line.old + 26 }
{
    if count > 0 {
        line.put(b" MORE ");
        line.put_number(count as u64);
    }
}

/// The line of a deck in a status.
pub(crate) fn row_line(row: &Row) -> ReplyLine
    ensures { result ≡ line_of (status_text row.now) }
{
    let mut line = row_start(row);
    put_decks_behind(&mut line, row.decks_behind);
    line.end();
    line
}
