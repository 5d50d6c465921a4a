//! The changes of a deck that are shown: which edits are one, and the lines.
ghost use Rattle.std.specs.Prelude.{◌≡◌, ◌+◌, ◌≤◌, ◌++◌, codes, decimal, drop, length, take};
ghost use Rattle.session_line.specs.ChangeLines.{change_line, change_lines};
ghost use Rattle.session_line.specs.Joins.ChangeWalks.{first_len, run_len};
ghost use Rattle.session_commands.specs.Lines.{line_in_batch};
ghost use Rattle.session_line.specs.Replies.{line_of};

use crate::reply_line::ReplyLine;
use cards::{Card, DeckName, Edit};
use desk_core::KeptEdit;

/// How many of the first edits made this version.
fn run_len(version: u64, kept: &[KeptEdit]) -> usize
    ensures len { result ≡ run_len version kept.now }
    ensures within { result ≤ length kept.now }
{
    for (i, one) in kept.iter().enumerate() {
        if one.version != version {
            return i;
        }
    }
    kept.len()
}

/// The edits of the first change, and those behind it.
pub(crate) fn split_change(kept: &[KeptEdit]) -> (&[KeptEdit], &[KeptEdit])
    ensures first { result.0.now ≡ take (first_len kept.now) kept.now }
    ensures behind { result.1.now ≡ drop (first_len kept.now) kept.now }
    ensures all { length result.0.now + length result.1.now ≡ length kept.now }
{
    match kept.split_first() {
        Some((one, later)) => kept.split_at(1 + run_len(one.version, later)),
        None => kept.split_at(0),
    }
}

/// How many lines the changes of edits have.
pub(crate) fn change_line_count(kept: &[KeptEdit]) -> usize
    requires { length kept.now ≤ 2000 }
    ensures { result ≡ length (change_lines kept.now) }
{
    let mut count = 0;
    let mut rest = kept;
    while !rest.is_empty() {
        let (own, behind) = split_change(rest);
        count += 1 + own.len();
        rest = behind;
    }
    count
}

/// The line of a change: the version that it made, the name of who asked for it, and how many edits it has.
pub(crate) fn change_line(version: u64, by: &DeckName, count: usize) -> ReplyLine
    ensures line { result ≡ line_of (change_line version by.now count) }
    ensures short { length result ≤ 128 }
{
    let mut line = ReplyLine::new();
    line.put(b"CHANGE ");
    line.put_number(version);
    line.put(b" ");
    line.put(by.as_slice());
    line.put(b" ");
    line.put_number(count as u64);
    line.end();
    line
}

/// A verb, a blank, and a place.
fn put_place(line: &mut ReplyLine, verb: &[u8], at: u64)
    requires { length line.old + length verb.now ≤ 10 }
    ensures text { line.new ≡ line.old ++ (verb.now ++ (codes " " ++ decimal at)) }
    ensures len { length line.new ≤ 40 }
{
    line.put(verb);
    line.put(b" ");
    line.put_number(at);
}

/// A verb, a place, and a card.
fn put_card_at(line: &mut ReplyLine, verb: &[u8], at: u64, card: &Card)
    requires { length line.old + length verb.now ≤ 10 }
    ensures text { line.new ≡ line.old ++ (verb.now ++ (codes " " ++ (decimal at ++ (codes " " ++ card.now)))) }
    ensures len { length line.new ≤ 125 }
{
    put_place(line, verb, at);
    line.put(b" ");
    line.put(card.as_slice());
}

/// The line of an edit, as in a batch.
pub(crate) fn edit_line(edit: &Edit) -> ReplyLine
    ensures line { result ≡ line_of (line_in_batch edit.now) }
    ensures short { length result ≤ 128 }
{
    let mut line = ReplyLine::new();
    match edit {
        Edit::Insert { at, card } => put_card_at(&mut line, b"INS", *at, card),
        Edit::Replace { at, card } => put_card_at(&mut line, b"REP", *at, card),
        Edit::Remove { at } => put_place(&mut line, b"DEL", *at),
    }
    line.end();
    line
}
