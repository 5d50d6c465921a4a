//! The cards in front of edits, and those behind them, which stay.
ghost use Rattle.std.specs.Prelude.{ℕ, ◌≡◌, ◌≤◌, All, List, None, length};
ghost use Rattle.definitions.specs.Cards as deck_cards;
ghost use Rattle.cards.specs.Edits.{edited_by, first_fault};
ghost use Rattle.deck_assembler.specs.Joins.Agreements.{HaveSameEnd};
ghost use Rattle.cards.specs.Counts.{count_after};
ghost use Rattle.edit_core.specs.Edited.{count_behind, front_of, StandBehind};

use cards::Edit;

/// How many cards stand before the one that an edit is of.
pub(crate) fn cards_before(edit: &Edit) -> usize
    ensures { result ≡ front_of edit.now }
{
    match edit {
        Edit::Insert { at, card: _ } => at.saturating_sub(1) as usize,
        Edit::Replace { at, card: _ } => at.saturating_sub(1) as usize,
        Edit::Remove { at } => at.saturating_sub(1) as usize,
    }
}

/// So many cards that none of these edits is of one of them.
pub(crate) fn cards_before_all(edits: &[Edit]) -> usize
    ensures all { All (λ edit. result ≤ front_of edit) edits.now }
    ensures most { (count : ℕ) → count ≤ 20000 → All (λ edit. count ≤ front_of edit) edits.now → count ≤ result }
{
    let mut before = usize::MAX;
    for edit in edits {
        before = before.min(cards_before(edit));
    }
    before
}

/// How many of so many cards stand behind the one that an edit is of.
pub(crate) fn cards_behind(edit: &Edit, count: usize) -> usize
    ensures { result ≡ count_behind edit.now count }
{
    let from = count.saturating_sub(cards_before(edit));
    match edit {
        Edit::Insert { at: _, card: _ } => from,
        Edit::Replace { at: _, card: _ } => from.saturating_sub(1),
        Edit::Remove { at: _ } => from.saturating_sub(1),
    }
}

/// How many cards an edit leaves of so many.
pub(crate) fn cards_after(edit: &Edit, count: usize) -> usize
    ensures { count ≤ 20000 → result ≡ count_after edit.now count }
{
    match edit {
        Edit::Insert { at: _, card: _ } => count.saturating_add(1),
        Edit::Replace { at: _, card: _ } => count,
        Edit::Remove { at: _ } => count.saturating_sub(1),
    }
}

/// The most of the last of so many cards such that none of these edits is of one of them, or of a card
/// that was put between them; each of the edits applies to what the ones before it leave.
pub(crate) fn cards_behind_all(edits: &[Edit], count: usize) -> usize
    ensures all { (cards : List deck_cards.Card) → length cards ≡ count → count ≤ 20000 → first_fault edits.now cards ≡ None → HaveSameEnd result cards (edited_by edits.now cards) }
    ensures most { (cards : List deck_cards.Card) (behind : ℕ) → length cards ≡ count → count ≤ 20000 → first_fault edits.now cards ≡ None → behind ≤ count → StandBehind behind edits.now count → behind ≤ result }
{
    let mut behind = count;
    let mut left = count;
    for edit in edits {
        behind = behind.min(cards_behind(edit, left));
        left = cards_after(edit, left);
    }
    behind
}
