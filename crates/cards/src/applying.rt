//! An edit made.
ghost use Rattle.std.specs.Prelude.{◌≡◌, None, is_ok, if◌then◌else◌, IfErr, IsTrue};
ghost use Rattle.cards.specs.Counts.{is_insertion};
ghost use Rattle.cards.specs.Edits.{fault_of, edited};

use crate::Card;
use crate::edits::Edit;
use std::alloc::AllocError;

/// Makes an edit that applies. Only an insertion takes memory, and without it nothing is changed.
pub fn apply(cards: &mut Vec<Card>, edit: &Edit) -> Result<(), AllocError>
    requires { fault_of edit.now cards.old.items ≡ None }
    ensures cards { cards.new.items ≡ (if is_ok result then edited cards.old.items edit.now else cards.old.items) }
    ensures memory { IfErr result (λ _. IsTrue (is_insertion edit.now)) }
{
    match edit {
        Edit::Insert { at, card } => {
            cards.insert((*at - 1) as usize, card.copied())?;
        }
        Edit::Replace { at, card } => {
            cards[(*at - 1) as usize] = card.copied();
        }
        Edit::Remove { at } => {
            cards.remove((*at - 1) as usize);
        }
    }
    Ok(())
}
