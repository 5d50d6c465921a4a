//! An edit of cards that is kept for later too.
ghost use Rattle.std.specs.Prelude.{◌≡◌, None, [], ◌∷◌, ◌++◌, is_ok, if◌then◌else◌};
ghost use Rattle.desk_core.specs.Joins.Edits.{fault_of, edited};

use crate::card_pieces::CardPieces;
use cards::{Edit, copied_edits};
use std::alloc::{AllocError, Global};

/// Makes an edit that applies, and keeps it with those that wait. Without memory nothing changes.
fn edit_both(
    alloc: Global,
    cards: &mut CardPieces,
    waiting: &mut Vec<Edit>,
    edit: &Edit,
) -> Result<(), AllocError>
    requires { fault_of edit.now cards.old ≡ None }
    ensures cards { cards.new ≡ (if is_ok result then edited cards.old edit.now else cards.old) }
    ensures waiting { waiting.new.items ≡ (if is_ok result then waiting.old.items ++ edit.now ∷ [] else waiting.old.items) }
{
    waiting.push(edit.copied())?;
    match cards.edit(alloc, edit) {
        Ok(()) => Ok(()),
        Err(fault) => {
            waiting.pop();
            Err(fault)
        }
    }
}

/// Makes an edit that applies, and keeps it for later where edits wait. Without memory nothing changes.
pub(crate) fn edit_waiting(
    alloc: Global,
    cards: &mut CardPieces,
    waiting: &mut Vec<Edit>,
    keeps: bool,
    edit: &Edit,
) -> Result<(), AllocError>
    requires { fault_of edit.now cards.old ≡ None }
    ensures cards { cards.new ≡ (if is_ok result then edited cards.old edit.now else cards.old) }
    ensures waiting { waiting.new.items ≡ (if is_ok result then (if keeps then waiting.old.items ++ edit.now ∷ [] else waiting.old.items) else waiting.old.items) }
{
    if keeps {
        edit_both(alloc, cards, waiting, edit)
    } else {
        cards.edit(alloc, edit)
    }
}

/// Keeps edits for later where edits wait. Without memory nothing changes.
pub(crate) fn wait_all(
    alloc: Global,
    waiting: &mut Vec<Edit>,
    keeps: bool,
    edits: &[Edit],
) -> Result<(), AllocError>
    ensures { waiting.new.items ≡ (if is_ok result then (if keeps then waiting.old.items ++ edits.now else waiting.old.items) else waiting.old.items) }
{
    if keeps {
        let mut more = copied_edits(alloc, edits)?;
        waiting.append(&mut more)?;
    }
    Ok(())
}
