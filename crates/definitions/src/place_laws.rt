//! What holds of the places of statements, each law as the contract of a function that does
//! nothing.
ghost use Rattle.std.specs.Prelude.{ℕ, ◌≡◌, List, All, map};
ghost use Rattle.definitions.specs.DeckInput.{Deck};
ghost use Rattle.definitions.specs.Objects.{coded_of, object_of};
ghost use Rattle.definitions.specs.Settled.{Settled};
ghost use Rattle.definitions.specs.Settling.{settle, settled_all};
ghost use Rattle.definitions.specs.StatementItems.{Context};
ghost use Rattle.definitions.specs.Statements.{Statement};
ghost use Rattle.definitions.specs.declared.deck_kind.DeckKind.{DeckKind};
ghost use Rattle.definitions.specs.Laws.Rising.{AreLaidOut, EndsBehind, EndsWithin, IsOrigin, RunsEndWithin, StandsBehind, StandsWithin};

/// A statement stands at or behind the end of its block, and ends at or behind its place, within
/// the block. Only an ORG that begins a run may go back: to a word of the block, and it has no
/// fields. So each statement begins behind the fields of its run.
pub fn places_rise()
    ensures behind { (kind : DeckKind) (earlier : List Settled) (statement : Statement) → StandsBehind earlier (settle kind earlier statement) }
    ensures ordered { (kind : DeckKind) (earlier : List Settled) (statement : Statement) → EndsBehind (settle kind earlier statement) }
    ensures origin { (kind : DeckKind) (earlier : List Settled) (statement : Statement) (context : Context) → IsOrigin kind context (settle kind earlier statement) }
    ensures places { (kind : DeckKind) (statements : List Statement) → All (StandsWithin kind) (settled_all kind statements) }
    ensures ends { (kind : DeckKind) (statements : List Statement) → All (EndsWithin kind) (settled_all kind statements) }
    ensures runs { (kind : DeckKind) (statements : List Statement) (context : Context) (block : List ℕ) →
        RunsEndWithin context block (settled_all kind statements) }
{}

/// The statements of a deck stand behind one another in the runs of their blocks, each within its
/// block, with fields that fill its place and have room.
pub fn statements_are_laid_out()
    ensures statements { (kind : DeckKind) (statements : List Statement) (context : Context) → context.kind ≡ kind →
        AreLaidOut kind (map (coded_of context) (settled_all kind statements)) }
    ensures objects { (deck : Deck) → AreLaidOut (object_of deck).kind (object_of deck).coded }
{}
