//! Replies as bytes: to a writer, or in memory.
ghost use Rattle.std.specs.Prelude.{◌≡◌, ◌≤◌, ◌<◌, ◌+◌, ◌*◌, ◌^◌, ◌++◌, length, flat_map, IfOk, IfErr};
ghost use Rattle.session_line.specs.Answers.{IsTellable, lines_text, told_text};
ghost use Rattle.deck_listing.specs.ListedObjects.{lines_in};
ghost use Rattle.session_line.specs.Replies.{line_of, counted_text, published_text, numbers_text, body_text, text_of_reply, IsWithinLimits};
ghost use Rattle.session_line.specs.Views.{numbers_of};
ghost use Rattle.text_ports.specs.Joins.Sending.{Sends, count_after_sending};

use crate::answers::Told;
use crate::change_writing::write_changes;
use crate::error_writing::write_errors;
use crate::line_writing::{ReplyRow, write_behind, write_rows};
use crate::replies::Reply;
use crate::reply_line::ReplyLine;
use crate::reply_texts::{counted_line, found_line, head_line, published_line, row_line};
use crate::session_writing::write_sessions;
use cards::Card;
use deck_files::save;
use desk_core::{Row, ShownText};
use std::alloc::{AllocError, Global};
use std::io::Write;
use text_ports::{Broken, Counted, put_all};

impl ReplyRow for Row {
    ghost use Rattle.session_line.specs.Replies.{line_of, status_text};

    ghost line_text = { λ row. line_of (status_text row) };

    fn line(&self) -> ReplyLine {
        row_line(self)
    }
}

/// The lines behind the first of a status.
fn write_status<W: Write, T: ReplyRow>(
    output: &mut Counted<W>,
    published: Option<u64>,
    decks: &[T],
) -> Result<(), Broken>
    requires { length decks.now ≤ 64 }
    ensures sends { Sends (W.contents output.old.0) (W.contents output.new.0) (line_of (published_text published) ++ flat_map T.line_text decks.now) result }
    ensures count { output.new.1 ≡ count_after_sending result output.old.1 }
    ensures few { IfErr result (λ broken. broken.sent ≤ 128 * 1002) }
{
    let line = published_line(published);
    write_behind(output, line.as_slice(), decks)
}

/// The numbers of the cards that have a text, a line each.
fn write_found<W: Write>(output: &mut Counted<W>, cards: &[Card], text: &[u8]) -> Result<(), Broken>
    requires { length cards.now ≤ 20000 }
    ensures sends { Sends (W.contents output.old.0) (W.contents output.new.0) (numbers_text (numbers_of text.now cards.now)) result }
    ensures count { output.new.1 ≡ count_after_sending result output.old.1 }
    ensures few { IfErr result (λ broken. broken.sent ≤ 128 * 20001) }
{
    let mut sent = 0;
    for (place, card) in cards.iter().enumerate() {
        let line = found_line(place as u64 + 1, card, text);
        let bytes = line.as_slice();
        if let Err(broken) = put_all(output, bytes) {
            return Err(Broken {
                sent: sent + broken.sent,
            });
        }
        sent += bytes.len();
    }
    Ok(())
}

/// The lines behind the first of a reply.
fn write_body<W: Write>(output: &mut Counted<W>, reply: &Reply<'_>) -> Result<(), Broken>
    requires { IsWithinLimits reply.now }
    ensures sends { Sends (W.contents output.old.0) (W.contents output.new.0) (body_text reply.now) result }
    ensures count { output.new.1 ≡ count_after_sending result output.old.1 }
    ensures few { IfErr result (λ broken. broken.sent < 2 ^ 63 + 2 ^ 32) }
{
    match reply {
        Reply::Done { .. } | Reply::Unkept { .. } | Reply::Bye | Reply::Refused(_) => Ok(()),
        Reply::Cards { cards, .. } => save(output, cards),
        Reply::Changes { kept, .. } => write_changes(output, kept),
        Reply::Found { cards, text, .. } => write_found(output, cards, text),
        Reply::Text { text, .. } => put_all(output, text),
        Reply::Errors {
            view,
            decks,
            map,
            ..
        } => write_errors(output, view, decks, map),
        Reply::Decks { decks, .. } => write_rows(output, decks),
        Reply::Files { files, .. } => write_rows(output, files),
        Reply::Sessions { sessions, .. } => write_sessions(output, sessions),
        Reply::Status {
            published,
            decks,
            ..
        } => write_status(output, *published, decks),
        Reply::FileStatus {
            published,
            decks,
            ..
        } => write_status(output, *published, decks),
    }
}

/// Writes a reply: its bytes, or exactly the first `sent` of them up to the first fault. Takes no
/// memory. A reply has no more cards than a deck may have, no more edits than are kept of it, no more
/// decks than a desk may have, no more files than are listed, and no more sessions than an office has
/// seats.
pub fn write_reply<W: Write>(output: &mut Counted<W>, reply: &Reply<'_>) -> Result<(), Broken>
    requires limits { IsWithinLimits reply.now }
    ensures sends { Sends (W.contents output.old.0) (W.contents output.new.0) (text_of_reply reply.now) result }
    ensures count { output.new.1 ≡ count_after_sending result output.old.1 }
{
    let line = head_line(reply);
    let bytes = line.as_slice();
    put_all(output, bytes)?;
    match write_body(output, reply) {
        Ok(()) => Ok(()),
        Err(broken) => Err(Broken {
            sent: bytes.len() + broken.sent,
        }),
    }
}

/// The first line of a text of what is published.
fn published_head(version: u64, shown: &ShownText) -> ReplyLine
    ensures { result ≡ line_of (counted_text version (lines_in shown.now)) }
{
    counted_line(version, shown.lines())
}

/// Writes a text of what is published behind other bytes, and frees it.
fn write_shown<W: Write>(
    output: &mut Counted<W>,
    first: &[u8],
    shown: ShownText,
) -> Result<(), Broken>
    requires { length first.now ≤ 128 }
    ensures sends { Sends (W.contents output.old.0) (W.contents output.new.0) (first.now ++ shown) result }
    ensures count { output.new.1 ≡ count_after_sending result output.old.1 }
{
    put_all(output, first)?;
    match shown.write(output) {
        Ok(()) => Ok(()),
        Err(broken) => Err(Broken {
            sent: first.len() + broken.sent,
        }),
    }
}

/// Writes a text of what is published behind its first line, and frees it.
fn write_published<W: Write>(
    output: &mut Counted<W>,
    version: u64,
    shown: ShownText,
) -> Result<(), Broken>
    ensures sends { Sends (W.contents output.old.0) (W.contents output.new.0) (lines_text version shown) result }
    ensures count { output.new.1 ≡ count_after_sending result output.old.1 }
{
    let line = published_head(version, &shown);
    write_shown(output, line.as_slice(), shown)
}

/// Writes what a session is shown, and frees it: its bytes, or exactly the first `sent` of them up to the first
/// fault. Takes no memory.
pub(crate) fn write_told<W: Write>(output: &mut Counted<W>, told: Told) -> Result<(), Broken>
    requires { IsTellable told }
    ensures sends { Sends (W.contents output.old.0) (W.contents output.new.0) (told_text told) result }
    ensures count { output.new.1 ≡ count_after_sending result output.old.1 }
{
    match told {
        Told::Published(version, shown) => write_published(output, version, shown),
        other => {
            let outcome = write_reply(output, &other.as_reply());
            other.free();
            outcome
        }
    }
}

/// The bytes of a reply, the same that `write_reply` writes.
pub fn reply_text(alloc: Global, reply: &Reply<'_>) -> Result<Vec<u8>, AllocError>
    requires limits { IsWithinLimits reply.now }
    ensures text { IfOk result (λ text. text.items ≡ text_of_reply reply.now) }
{
    let mut output = Counted::new(Vec::new(alloc));
    match write_reply(&mut output, reply) {
        Ok(()) => Ok(output.into_inner()),
        Err(_) => Err(AllocError),
    }
}
