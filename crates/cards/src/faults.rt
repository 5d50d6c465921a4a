//! Which edits apply, known by the number of cards, without memory.
ghost use Rattle.std.specs.Prelude.{◌≡◌, ◌≤◌, ◌<◌, ◌+◌, ℕ, List, length, None};
ghost use Rattle.definitions.specs.Cards.{Card};
ghost use Rattle.cards.specs.Counts.{fault_at, count_after, fault_from};
ghost use Rattle.cards.specs.Edits.{is_place, fault_of, first_fault};

use crate::edits::{Edit, EditFault};

/// How many cards a deck has at most.
pub const MOST_CARDS: usize = 20_000;

/// Whether one of so many cards has this place.
fn is_place(count: usize, place: u64) -> bool
    ensures { result ≡ is_place count place }
{
    1 <= place && place <= count as u64
}

fn fault_at(edit: &Edit, count: usize) -> Option<EditFault>
    ensures { result ≡ fault_at edit.now count }
{
    match edit {
        Edit::Insert { at, .. } => {
            if *at == 0 || *at - 1 > count as u64 {
                return Some(EditFault::NoSuchCard);
            }
            if count >= MOST_CARDS {
                return Some(EditFault::DeckFull);
            }
            None
        }
        Edit::Replace { at, .. } | Edit::Remove { at } => {
            if is_place(count, *at) {
                None
            } else {
                Some(EditFault::NoSuchCard)
            }
        }
    }
}

/// What keeps an edit from applying to so many cards: its place is none of theirs, or there is no
/// room for a card more.
pub fn fault_of(edit: &Edit, count: usize) -> Option<EditFault>
    ensures { (cards : List Card) → length cards ≡ count → result ≡ fault_of edit.now cards }
{
    fault_at(edit, count)
}

/// How many cards there are after an edit that applies.
pub fn count_after(edit: &Edit, count: usize) -> usize
    requires { fault_at edit.now count ≡ None }
    ensures { result ≡ count_after edit.now count }
{
    match edit {
        Edit::Insert { .. } => count + 1,
        Edit::Replace { .. } => count,
        Edit::Remove { .. } => count - 1,
    }
}

fn fault_from(edits: &[Edit], count: usize) -> Option<(usize, EditFault)>
    ensures { result ≡ fault_from 1 count edits.now }
{
    let mut left = count;
    for (place, edit) in edits.iter().enumerate() {
        if let Some(fault) = fault_at(edit, left) {
            return Some((place + 1, fault));
        }
        left = count_after(edit, left);
    }
    None
}

/// The first edit that does not apply to what the ones before it leave of so many cards: its number,
/// from 1, and its fault.
pub fn first_fault(edits: &[Edit], count: usize) -> Option<(usize, EditFault)>
    ensures { (cards : List Card) → length cards ≡ count → result ≡ first_fault edits.now cards }
{
    fault_from(edits, count)
}
