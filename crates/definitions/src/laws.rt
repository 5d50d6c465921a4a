//! What holds of the definitions, each as the contract of a function that does nothing.
ghost use Rattle.std.specs.Prelude.{◌≡◌, ◌↔◌, ◌+◌, ◌^◌, ◌<◌, ◌≤◌, ◌∷◌, ◌++◌, ℕ, List, Bool, true, false, Some, All, reverse};
ghost use Rattle.definitions.specs.Numerals.{octal_of, number_of, digits_of};
ghost use Rattle.definitions.specs.Cards.{Card};
ghost use Rattle.definitions.specs.Statements.{statements_of, cards_in, AreNumbered};
ghost use Rattle.definitions.specs.Fields.{Fields, fields_of_text};
ghost use Rattle.definitions.specs.Laws.Cuts.{IsCut};
ghost use Rattle.definitions.specs.Pieces.{Piece};
ghost use Rattle.definitions.specs.Expressions.{Expression, expression_of};
ghost use Rattle.definitions.specs.Laws.Grammar.{Spells};
ghost use Rattle.definitions.specs.Operations.{Operation};
ghost use Rattle.definitions.specs.Operands.{Operand};
ghost use Rattle.definitions.specs.Kinds.{word_bits};
ghost use Rattle.definitions.specs.Places.{MayStand, least_place};
ghost use Rattle.definitions.specs.Settled.{Settled};
ghost use Rattle.definitions.specs.Literals.{literal_words};
ghost use Rattle.definitions.specs.Blocks.{is_common};
ghost use Rattle.definitions.specs.Lengths.{BlockRow, block_rows, total_length};
ghost use Rattle.definitions.specs.Words.{Coded, Linking, StoredWord, stored_words};
ghost use Rattle.definitions.specs.declared.deck_kind.DeckKind.{DeckKind};
ghost use Rattle.definitions.specs.declared.number_base.NumberBase.{NumberBase};

/// The octal text of a number, with as many digits as it needs or more, reads back as the number.
pub fn octal_reads_back()
    ensures { (count value : ℕ) → value < 8 ^ count → number_of 8 (octal_of count value) ≡ value }
{}

/// The statements' cards are all the cards of the deck in order, each once, and each statement
/// shows how many stand before it.
pub fn statements_have_all_cards()
    ensures all { (cards : List Card) → cards_in (statements_of cards) ≡ reverse cards }
    ensures numbered { (cards : List Card) → AreNumbered (statements_of cards) }
{}

/// Each text has exactly one cut into fields.
pub fn one_cut_into_fields()
    ensures { (text : List ℕ) (fields : Fields) → IsCut text fields ↔ (fields ≡ fields_of_text text) }
{}

/// What is read is in the grammar, and nothing in the grammar is refused or read otherwise.
pub fn reads_the_grammar()
    ensures { (base : NumberBase) (pieces : List Piece) (e : Expression) →
        (expression_of base pieces ≡ Some e) ↔ Spells base e pieces }
{}

/// A statement's place is lawful, and no lawful place before it is left free.
pub fn places_are_the_least()
    ensures behind { (kind : DeckKind) (operation : Operation) (operand : Operand) (location : List ℕ) (asks : Bool) (from : ℕ) →
        from ≤ least_place kind operation operand location asks from }
    ensures lawful { (kind : DeckKind) (operation : Operation) (operand : Operand) (location : List ℕ) (asks : Bool) (from : ℕ) →
        MayStand kind operation operand location asks (least_place kind operation operand location asks from) }
    ensures least { (kind : DeckKind) (operation : Operation) (operand : Operand) (location : List ℕ) (asks : Bool) (from place : ℕ) →
        from ≤ place → MayStand kind operation operand location asks place → least_place kind operation operand location asks from ≤ place }
{}

/// Each local block stands at the sum of the lengths of the local blocks before it, and a common
/// block, which the link places, at 0.
pub fn bases_are_sums()
    ensures local { (kind : DeckKind) (settled : List Settled) (front rest : List BlockRow) (row : BlockRow) →
        block_rows kind settled ≡ front ++ row ∷ rest → is_common row.name ≡ false → row.base ≡ total_length front }
    ensures common { (kind : DeckKind) (settled : List Settled) (front rest : List BlockRow) (row : BlockRow) →
        block_rows kind settled ≡ front ++ row ∷ rest → is_common row.name ≡ true → row.base ≡ 0 }
{}

/// Each stored word fits a word of its deck: 60 bits, in a peripheral deck 12; so does each literal.
pub fn words_fit()
    ensures literals { (settled : List Settled) → All (λ word. word < 2 ^ 60) (literal_words settled) }
    ensures blocks { (kind : DeckKind) (linking : Linking) (block : List ℕ) (coded : List Coded) →
        All (λ (word : StoredWord). word.value < 2 ^ word_bits kind) (stored_words kind linking block coded) }
{}
