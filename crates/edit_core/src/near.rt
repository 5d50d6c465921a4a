//! Edits that lie near each other, which are made at once.
ghost use Rattle.std.specs.Prelude.{◌≡◌, ◌≤◌, ◌<◌, ◌+◌, ◌-◌, ◌*◌, ◌==◌, ◌∷◌, true, false, length, min, take, IfSome};
ghost use Rattle.cards.specs.Counts.{count_after};
ghost use Rattle.edit_core.specs.Edited.{count_behind, front_of};
ghost use Rattle.edit_core.specs.Sums.{apart, cards_between};

use crate::fronts::{cards_after, cards_before, cards_behind};
use cards::Edit;

/// The cards that some edits are of, in what these leave: so many stand before them, and so many behind
/// them, of so many.
#[derive(Clone, Copy)]
struct Touched {
    before: usize,
    behind: usize,
    count: usize,
}

/// What an edit of so many cards touches.
fn touched_by(edit: &Edit, count: usize) -> Touched
    requires { count ≤ 20000 }
    ensures before { result.before ≡ front_of edit.now }
    ensures behind { result.behind ≡ count_behind edit.now count }
    ensures count { result.count ≡ count_after edit.now count }
{
    Touched {
        before: cards_before(edit),
        behind: cards_behind(edit, count),
        count: cards_after(edit, count),
    }
}

impl Touched {
    /// What these edits and one more touch.
    fn and(&self, edit: &Edit) -> Touched
        requires { self.now.count ≤ 20000 }
        ensures before { result.before ≡ min self.now.before (front_of edit.now) }
        ensures behind { result.behind ≡ min self.now.behind (count_behind edit.now self.now.count) }
        ensures count { result.count ≡ count_after edit.now self.now.count }
    {
        Touched {
            before: self.before.min(cards_before(edit)),
            behind: self.behind.min(cards_behind(edit, self.count)),
            count: cards_after(edit, self.count),
        }
    }

    /// So many cards, and those that stand between what these edits touch and the card of one more.
    fn further(&self, between: usize, edit: &Edit) -> Option<usize>
        ensures few { IfSome result (λ _. self.now.count ≤ 20000) }
        ensures sum { IfSome result (λ sum. sum ≡ between + apart self.now.count self.now.before self.now.behind (front_of edit.now) (count_behind edit.now self.now.count)) }
    {
        if self.count > 20_000 {
            return None;
        }
        let end = self.count.saturating_sub(self.behind);
        let behind_them = cards_before(edit).saturating_sub(end);
        let other_end = self.count.saturating_sub(cards_behind(edit, self.count));
        let before_them = self.before.saturating_sub(other_end);
        between.checked_add(behind_them)?.checked_add(before_them)
    }
}

/// Whether an edit and others of so many cards have no more than 128 cards between them for each of
/// the others.
fn lie_near(first: &Edit, others: &[Edit], count: usize) -> bool
    requires { count ≤ 20000 }
    ensures { result ≡ true → cards_between (first.now ∷ others.now) count ≤ 128 * length others.now }
{
    let mut touched = touched_by(first, count);
    let mut between = 0;
    for edit in others {
        let Some(further) = touched.further(between, edit) else {
            return false;
        };
        between = further;
        touched = touched.and(edit);
    }
    between <= others.len().saturating_mul(128)
}

/// How many of some edits are made at once with one before them: as many as lie near.
pub(crate) fn near_edits(first: &Edit, others: &[Edit], count: usize) -> usize
    requires { count ≤ 20000 }
    ensures within { result ≤ length others.now }
    ensures near { cards_between (first.now ∷ take result others.now) count ≤ 128 * result }
{
    let mut near = others.len();
    'fewer: loop {
        if near == 0 {
            return 0;
        }
        if lie_near(first, others.split_at(near).0, count) {
            return near;
        }
        near -= 1;
    }
}
