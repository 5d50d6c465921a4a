//! What holds of edits that are carried, as the contract of a function that does nothing.
ghost use Rattle.std.specs.Prelude.{◌≡◌, List, None, Ok, Err};
ghost use Rattle.definitions.specs.Cards.{Card};
ghost use Rattle.cards.specs.declared.edits.Edit.{Edit};
ghost use Rattle.cards.specs.declared.carrying.MadeEdit.{MadeEdit};
ghost use Rattle.cards.specs.declared.carrying.Touched.{Touched as Told};
ghost use Rattle.cards.specs.Edits.{first_fault};
ghost use Rattle.cards.specs.Carrying.{seen_before, carried};
ghost use Rattle.cards.specs.Converging.{edits_in, Converge, WasChanged};

/// Edits that are carried do to the cards of now what they would have done to those that their sender
/// saw, and undo nothing of others: the cards come out as where the sender's edits are made first, on
/// what he saw, and then those of others, all of them, each at its place there.
pub fn carried_edits_converge()
    ensures { (seen : List Card) (made : List MadeEdit) (edits moved : List Edit) →
        first_fault (edits_in made) seen ≡ None → first_fault edits seen ≡ None →
        carried (seen_before made) edits ≡ Ok moved → Converge seen (edits_in made) edits moved }
{}

/// A card that is reported as touched is one that the sender saw, and the version that is reported changed it:
/// what others made before left it as it was.
pub fn touched_cards_were_changed()
    ensures { (made : List MadeEdit) (edits : List Edit) (touched : Told) →
        carried (seen_before made) edits ≡ Err touched → WasChanged made touched }
{}
