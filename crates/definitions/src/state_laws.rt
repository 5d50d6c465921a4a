//! What holds of the state between statements, each as the contract of a function that does nothing.
ghost use Rattle.std.specs.Prelude.{◌≡◌, ◌∷◌, ◌++◌, List};
ghost use Rattle.definitions.specs.Statements.{Statement};
ghost use Rattle.definitions.specs.Settled.{read_of, defined};
ghost use Rattle.definitions.specs.Settling.{View, settle, settled_from, settled_all};
ghost use Rattle.definitions.specs.Literals.{literal_words};
ghost use Rattle.definitions.specs.Lengths.{lengths_of, rows_of, block_rows};
ghost use Rattle.definitions.specs.Laws.States.{BlockState, state_after, seen_from, effect_of, advanced, lengths_advanced};
ghost use Rattle.definitions.specs.Laws.Agreement.{early_symbols, Agree, settled_tail, HaveSameCards, AgreeOnTail, SettleAlike};
ghost use Rattle.definitions.specs.declared.deck_kind.DeckKind.{DeckKind};

/// The state behind one statement more is the step of its effect.
pub fn states_step()
    ensures { (kind : DeckKind) (statements : List Statement) (statement : Statement) →
        let earlier = settled_all kind statements in
        let settled = settle kind earlier statement in
        state_after (settled ∷ earlier) ≡ advanced (effect_of kind settled) (state_after earlier) }
{}

/// What a statement is rests on the state behind those before it, the kind of the deck, and the
/// early values of the symbols that it defines or reads early, and on nothing else.
pub fn states_are_enough()
    ensures sees { (kind : DeckKind) (statements : List Statement) (statement : Statement) →
        let earlier = settled_all kind statements in
        settle kind earlier statement ≡ settled_from kind (seen_from (state_after earlier) (λ name. defined name earlier)) statement }
    ensures rests { (kind : DeckKind) (state : BlockState) (first second : View) (statement : Statement) →
        Agree first second (early_symbols (read_of kind state.number_base statement)) →
        settled_from kind (seen_from state first) statement ≡ settled_from kind (seen_from state second) statement }
{}

/// Where the same cards follow two fronts of equal states, and the fronts give the same values to
/// what the tail defines or reads early, each statement of the tail is the same but for the number
/// of cards before it, and the states behind are equal again.
pub fn tails_agree()
    ensures whole { (kind : DeckKind) (tail front : List Statement) →
        settled_all kind (tail ++ front) ≡ settled_tail kind (settled_all kind front) tail ++ settled_all kind front }
    ensures statements { (kind : DeckKind) (front other_front tail other_tail : List Statement) →
        state_after (settled_all kind front) ≡ state_after (settled_all kind other_front) → HaveSameCards tail other_tail →
        AgreeOnTail kind (settled_all kind front) (settled_all kind other_front) tail → SettleAlike kind front other_front tail other_tail }
    ensures states { (kind : DeckKind) (front other_front tail other_tail : List Statement) →
        state_after (settled_all kind front) ≡ state_after (settled_all kind other_front) → HaveSameCards tail other_tail →
        AgreeOnTail kind (settled_all kind front) (settled_all kind other_front) tail →
        state_after (settled_all kind (tail ++ front)) ≡ state_after (settled_all kind (other_tail ++ other_front)) }
{}

/// The lengths behind one statement more are the step of its effect, and the bases follow from the
/// lengths and the literals.
pub fn lengths_follow()
    ensures step { (kind : DeckKind) (statements : List Statement) (statement : Statement) →
        let earlier = settled_all kind statements in
        let settled = settle kind earlier statement in
        lengths_of kind (settled ∷ earlier) ≡ lengths_advanced settled.block (effect_of kind settled) (lengths_of kind earlier) }
    ensures bases { (kind : DeckKind) (statements : List Statement) →
        let settled = settled_all kind statements in block_rows kind settled ≡ rows_of (lengths_of kind settled) (literal_words settled) }
{}
