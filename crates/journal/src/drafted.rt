//! What is known of the record of a change before the desk has made it.
ghost use Rattle.std.specs.Prelude.{◌≡◌, IfOk, OnErr, is_none, option_map, true};
ghost use Rattle.journal.specs.Drafts.{carried_deck, takes_memory};
ghost use Rattle.journal.specs.Drafted.{drafted, is_whole};

use crate::drafts::{Draft, Stamp, draft_whole};
use cards::DeckName;
use desk_core::Change;
use session_commands::Seen;
use std::alloc::{AllocError, Global};

/// What is known of the record of a change before the desk has made it.
#[derive(Drop)]
pub enum Drafted {
    /// The record.
    Whole(Draft),
    /// When and by whom a change of this deck is asked for that is carried over what others changed.
    Open(Stamp, DeckName),
}

/// The deck of a change that is carried.
fn carried_deck(change: &Change) -> Option<&DeckName>
    ensures { option_map (λ name. name.now) result ≡ carried_deck change.now }
{
    match change {
        Change::AddDeck(_) | Change::PutDeck { .. } | Change::DropDeck { .. } => None,
        Change::EditDeck { name, seen, .. } => match seen {
            Seen::Exactly(_) => None,
            Seen::Since(_) => Some(name),
        },
        Change::Undo { name, .. } => Some(name),
    }
}

/// What is known of the record of a change before the desk has made it. Of a drop, and of a change that is carried,
/// it is there also where no memory is left.
pub fn draft_change(alloc: Global, stamp: Stamp, change: &Change) -> Result<Drafted, AllocError>
    ensures drafted { IfOk result (λ known. known ≡ drafted stamp change.now) }
    ensures form { IfOk result (λ known. is_whole known ≡ is_none (carried_deck change.now)) }
    ensures memory { OnErr result (takes_memory change.now ≡ true) }
{
    match carried_deck(change) {
        Some(name) => Ok(Drafted::Open(stamp, name.copied())),
        None => Ok(Drafted::Whole(draft_whole(alloc, stamp, change)?)),
    }
}

/// The same where no record is written.
pub fn draft_nothing(stamp: Stamp, change: &Change) -> Drafted
    ensures { is_whole result ≡ is_none (carried_deck change.now) }
{
    match carried_deck(change) {
        Some(name) => Drafted::Open(stamp, name.copied()),
        None => Drafted::Whole(Draft::empty()),
    }
}
