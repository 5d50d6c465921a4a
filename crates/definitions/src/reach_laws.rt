//! What holds of the words that statements reach, each law as the contract of a function that does
//! nothing.
ghost use Rattle.std.specs.Prelude.{◌≡◌, List, map};
ghost use Rattle.definitions.specs.DeckInput.{Deck};
ghost use Rattle.definitions.specs.Objects.{coded_of, object_of};
ghost use Rattle.definitions.specs.Settling.{settled_all};
ghost use Rattle.definitions.specs.StatementItems.{Context};
ghost use Rattle.definitions.specs.Statements.{Statement};
ghost use Rattle.definitions.specs.declared.deck_kind.DeckKind.{DeckKind};
ghost use Rattle.definitions.specs.Laws.Reaching.{DoReach};

/// An instruction with fields reaches at most four parcels or peripheral words. Any other statement
/// with fields begins at a word, and ends at one.
pub fn statements_reach_words()
    ensures statements { (kind : DeckKind) (statements : List Statement) (context : Context) → context.kind ≡ kind →
        DoReach kind (map (coded_of context) (settled_all kind statements)) }
    ensures objects { (deck : Deck) → DoReach (object_of deck).kind (object_of deck).coded }
{}
