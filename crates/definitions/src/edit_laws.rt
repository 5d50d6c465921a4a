//! What holds of the edits of a deck, each law as the contract of a function that does nothing.
ghost use Rattle.std.specs.Prelude.{◌≡◌, ◌+◌, ◌++◌, ℕ, List, false, length};
ghost use Rattle.definitions.specs.Statements.{Statement};
ghost use Rattle.definitions.specs.Settled.{Settled};
ghost use Rattle.definitions.specs.Laws.Agreement.{unnumbered};
ghost use Rattle.definitions.specs.StatementItems.{Context, items_of};
ghost use Rattle.definitions.specs.Letters.{letters_of};
ghost use Rattle.definitions.specs.Laws.Edits.{Edited, Split, DoAgree};
ghost use Rattle.definitions.specs.Laws.Rebound.{is_rebound};

/// Where two decks agree, they agree behind as many statements more of both. So they agree nowhere
/// before a place of a common tail where they do not.
pub fn agreement_lasts()
    ensures { (decks : Edited) (split : Split) (old_tail old_middle new_tail new_middle : List Statement) →
        split.old_tail ≡ old_tail ++ old_middle → split.new_tail ≡ new_tail ++ new_middle → length old_middle ≡ length new_middle → DoAgree decks split →
        DoAgree decks (record { old_front = old_middle ++ split.old_front; old_tail = old_tail; new_front = new_middle ++ split.new_front; new_tail = new_tail }) }
{}

/// A statement that two decks of one kind have alike, but for the number of cards before it, has the
/// same letters and the same fields in both where none of its elements is bound otherwise.
pub fn bindings_are_enough()
    ensures letters { (old new : Context) (settled other : Settled) → old.kind ≡ new.kind → unnumbered settled ≡ unnumbered other → is_rebound old new other ≡ false →
        letters_of old settled ≡ letters_of new other }
    ensures fields { (old new : Context) (settled other : Settled) → old.kind ≡ new.kind → unnumbered settled ≡ unnumbered other → is_rebound old new other ≡ false →
        items_of old settled settled.read.operation ≡ items_of new other other.read.operation }
{}
