//! What holds of the fields that are listed, each as the contract of a function that does nothing.
ghost use Rattle.std.specs.Prelude.{◌≡◌, List};
ghost use Rattle.definitions.specs.Operands.{Operand};
ghost use Rattle.definitions.specs.StatementItems.{Item};
ghost use Rattle.definitions.specs.Words.{Linking, width_of, joined};
ghost use Rattle.definitions.specs.declared.deck_kind.DeckKind.{DeckKind};
ghost use Rattle.statement_coder.specs.Joins.WordItems.{listed_fields};

/// Fields as a list has them have the width of the fields, and are the same bits, whatever the
/// link makes of forms.
pub fn lists_keep_bits()
    ensures width { (kind : DeckKind) (operand : Operand) (fields : List Item) → width_of (listed_fields kind operand fields) ≡ width_of fields }
    ensures bits { (linking : Linking) (kind : DeckKind) (operand : Operand) (fields : List Item) → joined linking (listed_fields kind operand fields) ≡ joined linking fields }
{}
