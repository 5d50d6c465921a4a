//! A reply as a text, where it is within the limits of a session.
ghost use Rattle.std.specs.Prelude.{◌≡◌, true};
ghost use Rattle.session_line.specs.Replies.{IsWithinLimits};

use cards::MOST_CARDS;
use deck_files::MOST_FILES;
use session_line::{Reply, reply_text};
use std::alloc::{AllocError, Global};
use test_parts::Got;

/// Whether a reply has no more cards and no more decks than it may have.
pub fn is_within(reply: &Reply<'_>) -> bool
    ensures { result ≡ true → IsWithinLimits reply.now }
{
    match reply {
        Reply::Cards { cards, .. } => cards.len() <= MOST_CARDS,
        Reply::Found { cards, .. } => cards.len() <= MOST_CARDS,
        Reply::Changes { kept, .. } => kept.len() <= 2_000,
        Reply::Errors { decks, .. } => decks.len() <= 64,
        Reply::Status { decks, .. } => decks.len() <= 64,
        Reply::FileStatus { decks, .. } => decks.len() <= 64,
        Reply::Decks { decks, .. } => decks.len() <= 64,
        Reply::Files { files, .. } => files.len() <= MOST_FILES,
        Reply::Sessions { sessions, .. } => sessions.len() <= 64,
        Reply::Done { .. } | Reply::Unkept { .. } => true,
        Reply::Text { .. } => true,
        Reply::Bye | Reply::Refused(_) => true,
    }
}

/// A reply as a text.
pub fn text_of(alloc: Global, reply: &Reply<'_>) -> Got<Vec<u8>> {
    if !is_within(reply) {
        return Err(AllocError);
    }
    reply_text(alloc, reply)
}
