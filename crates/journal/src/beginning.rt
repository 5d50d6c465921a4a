//! How a record begins: its first line.
ghost use Rattle.std.specs.Prelude.{◌≡◌, List, Result, option_map, option_and_then};
ghost use Rattle.session_commands.specs.Words.{first_word};
ghost use Rattle.session_commands.specs.declared.refusals.Refusal.{Refusal as Reason};
ghost use Rattle.journal.specs.Begun.{alone, begun_by, begun_of, batch_named, batch_seen, edit_seen, name_of, put_named, opened, opened_by};
ghost use Rattle.moments.specs.Moments.{moment_of};

use crate::check_sums::{FIRST_SUM, sum_over_line};
use crate::records::{Entry, Record};
use cards::{DeckName, Edit};
use definitions::is_same_text;
use desk_core::{Change, Edits, Listed, NewDeck};
use moments::Moment;
use session_commands::{
    Command, Refusal, Seen, behind_blank, behind_word, first_number, first_word, from_blank,
    read_command, to_blank,
};
use std::alloc::Global;

/// What a record shows by its first line alone, and how many lines of edits or cards it announces.
#[derive(Drop)]
pub(crate) struct Begun {
    pub(crate) entry: Entry,
    pub(crate) lines: u64,
}

/// A record that is read up to some line: how many lines it announces, and the sum of those so far.
#[derive(Drop)]
pub(crate) struct Open {
    pub(crate) so_far: Record,
    pub(crate) lines: u64,
    pub(crate) sum: u32,
}

/// What announces no lines.
fn alone(entry: Entry) -> Option<Begun>
    ensures { result ≡ alone entry }
{
    Some(Begun { entry, lines: 0 })
}

/// A batch, without its edits.
fn batch_named(
    alloc: Global,
    name: Result<DeckName, Refusal>,
    seen: u64,
    count: u64,
) -> Option<Begun>
    ensures { result ≡ batch_named name seen count }
{
    match name {
        Ok(name) => Some(Begun {
            entry: Entry::Made(Change::EditDeck {
                name,
                seen: Seen::Exactly(seen),
                edits: Edits::Batch(Listed::new(Vec::new(alloc))),
            }),
            lines: count,
        }),
        Err(_) => None,
    }
}

/// An edit by who has seen a version and no other.
fn edit_seen(name: DeckName, seen: Seen, edit: Edit) -> Option<Begun>
    ensures { result ≡ edit_seen name seen edit }
{
    match seen {
        Seen::Exactly(_) => alone(Entry::Made(Change::EditDeck {
            name,
            seen,
            edits: Edits::One(edit),
        })),
        Seen::Since(_) => None,
    }
}

/// A batch by who has seen a version and no other, without its edits.
fn batch_seen(
    alloc: Global,
    name: Result<DeckName, Refusal>,
    seen: Seen,
    count: u64,
) -> Option<Begun>
    ensures { result ≡ batch_seen name seen count }
{
    match seen {
        Seen::Exactly(seen) => batch_named(alloc, name, seen, count),
        Seen::Since(_) => None,
    }
}

/// A put, without its cards.
fn put_named(alloc: Global, name: Result<DeckName, Refusal>, seen: u64, count: u64) -> Option<Begun>
    ensures { result ≡ put_named name seen count }
{
    match name {
        Ok(name) => Some(Begun {
            entry: Entry::Made(Change::PutDeck {
                deck: NewDeck::new(name, Vec::new(alloc)),
                seen,
            }),
            lines: count,
        }),
        Err(_) => None,
    }
}

/// The change that a command asks for, without what stands on further lines.
fn begun_by(alloc: Global, command: Result<Command, Refusal>) -> Option<Begun>
    ensures { result ≡ begun_by command }
{
    match command {
        Ok(Command::Add { name }) => alone(Entry::Made(Change::AddDeck(NewDeck::new(
            name,
            Vec::new(alloc),
        )))),
        Ok(Command::Drop { name, version }) => alone(Entry::Made(Change::DropDeck {
            name,
            seen: version,
        })),
        Ok(Command::Edit { name, seen, edit }) => edit_seen(name, seen, edit),
        Ok(Command::Batch(head)) => batch_seen(alloc, head.name, head.seen, head.count),
        Ok(Command::Put(head)) => put_named(alloc, head.name, head.version, head.count),
        Ok(other) => {
            drop(other);
            None
        }
        Err(_) => None,
    }
}

/// What a record shows, by the text behind the name of its session.
fn begun_of(alloc: Global, text: &[u8]) -> Option<Begun>
    ensures { result ≡ begun_of text.now }
{
    if is_same_text(text, b"BEGIN") {
        alone(Entry::Begun)
    } else {
        begun_by(alloc, read_command(text))
    }
}

/// The moment behind the blank that begins a rest.
fn moment_in(rest: &[u8]) -> Option<Moment>
    ensures { result ≡ option_and_then moment_of (first_word rest.now) }
{
    Moment::read(first_word(rest)?)
}

/// The name behind the blank that begins a rest.
fn name_in(rest: &[u8]) -> Option<DeckName>
    ensures { result ≡ option_and_then name_of (first_word rest.now) }
{
    match DeckName::read(first_word(rest)?) {
        Ok(name) => Some(name),
        Err(_) => None,
    }
}

/// The parts of a first line, from behind its first word on.
fn opened_by(alloc: Global, line: &[u8], rest: &[u8]) -> Option<Open>
    ensures { result ≡ opened_by line.now rest.now }
{
    let second = behind_word(rest);
    let third = behind_word(second);
    let version = first_number(rest)?;
    let moment = moment_in(second)?;
    let by = name_in(third)?;
    let begun = begun_of(alloc, behind_blank(behind_word(third)))?;
    Some(Open {
        so_far: Record {
            version,
            moment,
            by,
            entry: begun.entry,
        },
        lines: begun.lines,
        sum: sum_over_line(FIRST_SUM, line),
    })
}

/// The record that a line begins, if it begins one.
pub(crate) fn opened(alloc: Global, line: &[u8]) -> Option<Open>
    ensures { result ≡ opened line.now }
{
    if is_same_text(to_blank(line), b"RECORD") {
        opened_by(alloc, line, from_blank(line))
    } else {
        None
    }
}
