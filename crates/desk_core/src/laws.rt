//! What holds in every run of a desk, each law as the contract of a function that does nothing.
ghost use Rattle.std.specs.Prelude.{◌≡◌, ℕ, ◌+◌, ◌-◌, ◌≤◌, true, false, List, [], Some, reverse};
ghost use Rattle.turn_office.specs.declared.history.Entry.{Entry};
ghost use Rattle.turn_office.specs.Histories.{Leads};
ghost use Rattle.desk_core.specs.Joins.Language.{Card};
ghost use Rattle.desk_core.specs.Changes.{Edited};
ghost use Rattle.desk_core.specs.Joins.Edits.{Edit, edited_by};
ghost use Rattle.desk_core.specs.Past.{KeptEdit};
ghost use Rattle.desk_core.specs.Led.{HaveLed};
ghost use Rattle.desk_core.specs.Desks.{Desk, DeskDeck, Publication, deck_named, greatest_number};
ghost use Rattle.desk_core.specs.Joins.Calls.{Since, Edits, EditDeck, Undo, Changes, CardsAt, Show, Claim, DeliverLink, Publish, Call, Make, Ask, Do, Refusal, Reply, Shown, Idle, DeckJob, DeckWork, Refused, Carried, ChangesAre, CardsBefore};
ghost use Rattle.desk_core.specs.Delivering.{own_publication};
ghost use Rattle.desk_core.specs.Steps.{answer, Steps};
ghost use Rattle.desk_core.specs.Runs.{History, Runs, HadCards, HasCards, InEachRun, LedSince, LosesNothing, change_in, IsBuildOf, IsUnchanged, IsOfItsChanges, IsPublishedAt, IsPublishedFrom};
ghost use Rattle.desk_core.specs.Jobs.{IsDue, IsPartOf, accepted_edits, handed_edits};
ghost use Rattle.desk_core.specs.Earlier.{edits_behind};
ghost use Rattle.desk_core.specs.Carrying.{cards_of, edits_of};
ghost use Rattle.desk_core.specs.Undoing.{backs_at};
ghost use Rattle.desk_core.specs.Rounds.{after_rounds, most_rounds};
ghost use Rattle.desk_core.specs.Progress.{has_leases, has_work, hands_a_deck, hands_a_link};

/// After every list of calls and replies that a new desk allows one after the other: what is shown
/// is the build of the decks after as many accepted changes as its version says; a refused call
/// changes no version, card or publication; a claim answers Idle with the desk's version, and that
/// is published; version and cards are those of the accepted changes; and the published version
/// never falls. A desk that went on behind a version counts from there.
pub fn every_run()
    ensures shown { (begun : ℕ) (history : History) (desk next : Desk) (publication : Publication) →
        Runs begun history desk → Steps desk (Ask Show) (Shown publication) next → IsBuildOf begun history desk publication }
    ensures refused { (desk next : Desk) (call : Call) (refusal : Refusal) →
        Steps desk call (Refused refusal) next → IsUnchanged desk next }
    ensures idle { (desk next : Desk) (version : ℕ) →
        Steps desk (Do Claim) (Idle version) next → (version ≡ desk.version) × IsPublishedAt version desk }
    ensures changes { (begun : ℕ) (history : History) (desk : Desk) → Runs begun history desk → IsOfItsChanges begun history desk }
    ensures published { (begun : ℕ) (history more : History) (desk last : Desk) (publication : Publication) →
        Runs begun history desk → desk.publication ≡ Some publication → Leads Steps desk more last →
        IsPublishedFrom publication.version last }
{}

/// In every run, a deck job that begins with the deck's record has exactly the edits of that deck
/// that were accepted since its job before, in order; one that begins with cards has none, and is
/// the deck's first or comes after a loss of the record. So what the jobs of a deck carry, one after
/// the other, is a part of its accepted edits: each stands in at most one job.
pub fn jobs_once()
    ensures due { (begun : ℕ) (history : History) (desk next : Desk) (job : DeckWork) →
        Runs begun history desk → Steps desk (Do Claim) (DeckJob job) next → IsDue job (reverse history) }
    ensures once { (begun : ℕ) (history : History) (desk : Desk) (deck : ℕ) →
        Runs begun history desk → IsPartOf (accepted_edits deck (reverse history)) (handed_edits deck (reverse history)) }
{}

/// Work is handed out: on a desk of which no lease is out, a claim gives a job of a deck where one is
/// behind, and else the link job or Idle, unless there is no memory for the job or no number for its
/// lease. So a claim that is answered AllOut shows that a lease is out.
pub fn work_is_handed_out()
    ensures deck { (desk next : Desk) (reply : Reply) →
        Steps desk (Do Claim) reply next → has_leases desk ≡ false → has_work desk ≡ true → hands_a_deck reply ≡ true }
    ensures link { (desk next : Desk) (reply : Reply) →
        Steps desk (Do Claim) reply next → has_leases desk ≡ false → has_work desk ≡ false → hands_a_link reply ≡ true }
{}

/// Work ends: from each desk that is reached and of which no lease is out, rounds of one who works
/// alone, each a claim and the call that ends its job, come to Idle with the desk's version:
/// after at most two rounds for each deck (one of them may end a record of other cards) and one for
/// the link. So at most twice as many claims as there are decks, and two, where memory is found and
/// there are numbers for so many leases.
pub fn work_ends()
    ensures { (begun : ℕ) (history : History) (desk : Desk) →
        Runs begun history desk → has_leases desk ≡ false → desk.leases + most_rounds desk ≤ greatest_number →
        (answer (Do Claim) (after_rounds (most_rounds desk) desk)).reply ≡ Idle desk.version }
{}

/// What a desk publishes of its own decks, where none is behind, is what is published where they are delivered under
/// its version: the desk is the same after both. So who has the desk publish does what the link job is for.
pub fn published_is_delivered()
    ensures { (lease : ℕ) (desk : Desk) → has_work desk ≡ false →
        (answer (Do (Publish lease)) desk).desk ≡ (answer (Do (DeliverLink lease (own_publication desk))) desk).desk }
{}

/// An undo takes back what the change did: made on the cards that a deck had at a version, what takes the
/// change of that version back gives those that it had at the version before. Where the deck was not
/// changed behind that version, an undo that is accepted leaves it with the cards of the version before.
/// And in every run, edits of a deck that a step made and the next one takes back leave it with the cards
/// that it had.
pub fn undo_takes_back()
    ensures back { (version : ℕ) (deck : DeskDeck) → edited_by (backs_at version deck) (cards_of version deck) ≡ cards_of (version - 1) deck }
    ensures latest { (desk next : Desk) (name who : List ℕ) (version : ℕ) (deck : DeskDeck) (made before : ℕ) (edits : List Edit) →
        deck_named name desk ≡ Some deck → edits_behind version deck ≡ [] → Steps desk (Make who (Undo name version)) (Carried made before edits) next → HasCards name (cards_of (version - 1) deck) next }
    ensures undone { (begun : ℕ) (history : History) (desk next last : Desk) (made : Entry Call Reply) (name who : List ℕ) (deck : DeskDeck) (edits moved : List Edit) (version before : ℕ) →
        Runs begun history desk → deck_named name desk ≡ Some deck → Steps desk made.call made.reply next → change_in made ≡ Some (Edited name edits) →
        Steps next (Make who (Undo name next.version)) (Carried version before moved) last → HasCards name deck.cards last }
{}

/// What is kept of a deck's changes is what happened, in every run: from the version on behind which all is
/// kept, the cards of now, with what is kept behind a version taken back, are those that the deck had at that
/// version; and from these the edits behind it led to the cards of now, each kept with what takes it back. So
/// the cards that a desk shows of a version, those of now with the edits beside them made, are those that the
/// deck had, and the changes that it shows led from there to the cards of now.
pub fn kept_changes()
    ensures cards { InEachRun (λ begun history desk. (name : List ℕ) (deck : DeskDeck) (version : ℕ) →
        deck_named name desk ≡ Some deck → deck.past.since ≤ version → HadCards begun history name version (cards_of version deck)) }
    ensures led { InEachRun (λ begun history desk. (name : List ℕ) (deck : DeskDeck) (version : ℕ) →
        deck_named name desk ≡ Some deck → HaveLed (cards_of version deck) (edits_behind version deck) deck.cards) }
    ensures shown { InEachRun (λ begun history desk. (next : Desk) (name : List ℕ) (version told : ℕ) (cards : List Card) (backs : List Edit) →
        Steps desk (Ask (CardsAt name version)) (CardsBefore told cards backs) next → HadCards begun history name version (edited_by backs cards)) }
    ensures told { InEachRun (λ begun history desk. (next : Desk) (name : List ℕ) (version last : ℕ) (edits : List KeptEdit) →
        Steps desk (Ask (Changes name version)) (ChangesAre last edits) next → LedSince begun history name version edits desk) }
{}

/// Who edits by a version that he saw, or takes a change back, undoes nothing of others: in every run the edits
/// that are made converge with those that others made behind that version. They do to the cards of now what they
/// would have done to those of that version, and every edit of others is still made.
pub fn nobody_is_undone()
    ensures edit { InEachRun (λ begun history desk. (next : Desk) (name who : List ℕ) (deck : DeskDeck) (edits : Edits) (moved : List Edit) (seen version before : ℕ) →
        deck_named name desk ≡ Some deck → Steps desk (Make who (EditDeck name (Since seen) edits)) (Carried version before moved) next → LosesNothing seen deck (edits_of edits) moved) }
    ensures undo { InEachRun (λ begun history desk. (next : Desk) (name who : List ℕ) (deck : DeskDeck) (moved : List Edit) (seen version before : ℕ) →
        deck_named name desk ≡ Some deck → Steps desk (Make who (Undo name seen)) (Carried version before moved) next → LosesNothing seen deck (backs_at seen deck) moved) }
{}
