//! A journal that begins with the decks of a desk.
ghost use Rattle.std.specs.Prelude.{◌≡◌, ◌++◌, IfOk, OnOk, map};
ghost use Rattle.desk_core.specs.Desks.{deck_of};
ghost use Rattle.journal.specs.Compacting.{added_record, added_records, compacted};
ghost use Rattle.journal.specs.Records.{text_of_record, text_of_records};

use crate::names::session_name;
use crate::records::{Entry, Record};
use crate::writing::record_text;
use desk_core::{Change, StoredDeck};
use moments::Moment;
use std::alloc::{AllocError, Global};
use text_ports::Text;

/// Appends the record of a deck.
fn push_added(
    alloc: Global,
    text: &mut Text,
    moment: &Moment,
    version: u64,
    deck: &StoredDeck,
) -> Result<(), AllocError>
    ensures { OnOk result (text.new ≡ text.old ++ text_of_record (added_record moment.now version (deck_of deck.now))) }
{
    let record = Record {
        version,
        moment: moment.copied(),
        by: session_name(0),
        entry: Entry::Made(Change::AddDeck(deck.copied(alloc)?)),
    };
    text.append(record_text(alloc, &record)?)
}

/// The text of a journal that begins behind a version with the decks of a desk, each added by a change of its
/// own.
pub fn compacted_text(
    alloc: Global,
    moment: &Moment,
    begun: u64,
    decks: &[StoredDeck],
) -> Result<Text, AllocError>
    ensures { IfOk result (λ text. text ≡ text_of_records (compacted moment.now begun (map deck_of decks.now))) }
{
    let mut text = record_text(
        alloc,
        &Record {
            version: begun,
            moment: moment.copied(),
            by: session_name(0),
            entry: Entry::Begun,
        },
    )?;
    let mut version = begun;
    for deck in decks {
        version = version.checked_add(1).ok_or(AllocError)?;
        push_added(alloc, &mut text, moment, version, deck)?;
    }
    Ok(text)
}
