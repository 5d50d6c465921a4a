//! Cards once more.
ghost use Rattle.std.specs.Prelude.{◌≡◌, None, IfOk};
ghost use Rattle.cards.specs.Edits.{first_fault, edited_by};

use crate::Card;
use crate::applying::apply;
use crate::edits::Edit;
use std::alloc::{AllocError, Global};

/// The same cards once more.
pub fn copied_cards(alloc: Global, cards: &[Card]) -> Result<Vec<Card>, AllocError>
    ensures { IfOk result (λ copies. copies.items ≡ cards.now) }
{
    let mut copies = Vec::with_capacity(alloc, cards.len())?;
    for card in cards {
        copies.push(card.copied())?;
    }
    Ok(copies)
}

/// The same edits once more.
pub fn copied_edits(alloc: Global, edits: &[Edit]) -> Result<Vec<Edit>, AllocError>
    ensures { IfOk result (λ copies. copies.items ≡ edits.now) }
{
    let mut copies = Vec::with_capacity(alloc, edits.len())?;
    for edit in edits {
        copies.push(edit.copied())?;
    }
    Ok(copies)
}

/// A copy of these cards, with edits of which each applies to what the ones before it leave.
pub fn edited_copy(alloc: Global, cards: &[Card], edits: &[Edit]) -> Result<Vec<Card>, AllocError>
    requires { first_fault edits.now cards.now ≡ None }
    ensures { IfOk result (λ copies. copies.items ≡ edited_by edits.now cards.now) }
{
    let mut copies = copied_cards(alloc, cards)?;
    for edit in edits {
        apply(&mut copies, edit)?;
    }
    Ok(copies)
}
