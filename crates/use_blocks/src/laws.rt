//! How great the blocks of a deck are, each law as the contract of a function that does nothing.
ghost use Rattle.std.specs.Prelude.{◌≡◌, ℕ, ◌+◌, ◌≤◌, List, All, length};
ghost use Rattle.definitions.specs.Kinds.{most_words};
ghost use Rattle.definitions.specs.Lengths.{BlockLength, BlockRow, block_rows, lengths_of, reached, total_length};
ghost use Rattle.definitions.specs.Literals.{literal_words};
ghost use Rattle.definitions.specs.Settled.{Settled};
ghost use Rattle.definitions.specs.Settling.{settle, settled_all};
ghost use Rattle.definitions.specs.Statements.{Statement};
ghost use Rattle.definitions.specs.declared.deck_kind.DeckKind.{DeckKind};

/// A deck has at most 64 blocks and 131,072 literals, and so at most 65 rows.
pub fn blocks_are_few()
    ensures blocks { (kind : DeckKind) (statements : List Statement) → length (lengths_of kind (settled_all kind statements)) ≤ 64 }
    ensures literals { (settled : List Settled) → length (literal_words settled) ≤ 131072 }
    ensures rows { (kind : DeckKind) (statements : List Statement) → length (block_rows kind (settled_all kind statements)) ≤ 65 }
{}

/// No statement reaches more words than a block may have, and no block has more.
pub fn blocks_are_bounded()
    ensures statements { (kind : DeckKind) (earlier : List Settled) (statement : Statement) → reached kind (settle kind earlier statement) ≤ most_words kind }
    ensures blocks { (kind : DeckKind) (statements : List Statement) → All (λ (block : BlockLength). block.words ≤ most_words kind) (lengths_of kind (settled_all kind statements)) }
{}
