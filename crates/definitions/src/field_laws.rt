//! What holds of the fields of a statement, each law as the contract of a function that does
//! nothing.
ghost use Rattle.std.specs.Prelude.{ℕ, ◌≡◌, ◌≢◌, ◌+◌, ◌*◌, ◌%◌, ◌^◌, ◌<◌, ◌≤◌, List, Some};
ghost use Rattle.definitions.specs.Kinds.{word_bits};
ghost use Rattle.definitions.specs.Matching.{Instruction, central_of};
ghost use Rattle.definitions.specs.Operations as op;
ghost use Rattle.definitions.specs.Pieces.{Piece};
ghost use Rattle.definitions.specs.Sizes.{field_width};
ghost use Rattle.definitions.specs.Statements.{Statement};
ghost use Rattle.definitions.specs.Settled.{Settled};
ghost use Rattle.definitions.specs.Settling.{settle};
ghost use Rattle.definitions.specs.StatementItems.{Context, items_of};
ghost use Rattle.definitions.specs.declared.deck_kind.DeckKind.{DeckKind};
ghost use Rattle.definitions.specs.declared.number_base.NumberBase.{NumberBase};
ghost use Rattle.definitions.specs.Laws.Filling.{AreLongWhole, DoFill, DoFit, HasFields};

/// The digits of a central instruction have their room, and with its field they fill parcels of 15
/// bits.
pub fn instructions_fill_parcels()
    ensures digits { (base : NumberBase) (operation : List ℕ) (subfields : List (List Piece)) (instruction : Instruction) →
        central_of base operation subfields ≡ Some instruction → instruction.digits < 8 ^ instruction.count }
    ensures parcels { (base : NumberBase) (operation : List ℕ) (subfields : List (List Piece)) (instruction : Instruction) →
        central_of base operation subfields ≡ Some instruction → (3 * instruction.count + field_width instruction.field) % 15 ≡ 0 }
{}

/// The fields of a statement reach from its place to its end, and a statement that has fields ends
/// behind its place; a BSSZ that reserves no word may end there.
pub fn fields_fill()
    ensures filled { (kind : DeckKind) (earlier : List Settled) (statement : Statement) (context : Context) → context.kind ≡ kind →
        let settled = settle kind earlier statement in
        DoFill kind settled.place settled.end (items_of context settled settled.read.operation) }
    ensures ordered { (kind : DeckKind) (earlier : List Settled) (statement : Statement) (context : Context) →
        let settled = settle kind earlier statement in
        HasFields (items_of context settled settled.read.operation) → settled.place ≤ settled.end }
    ensures some { (kind : DeckKind) (earlier : List Settled) (statement : Statement) (context : Context) →
        let settled = settle kind earlier statement in
        settled.read.operation ≢ op.Bssz → HasFields (items_of context settled settled.read.operation) → settled.place < settled.end }
{}

/// Each field has room for what stands in it: known bits in the field's width, a form that is left
/// to the link in 18 to 60 bits. A field of more than 60 bits is known, and fills whole words.
pub fn fields_fit()
    ensures fitting { (kind : DeckKind) (earlier : List Settled) (statement : Statement) (context : Context) → context.kind ≡ kind →
        let settled = settle kind earlier statement in
        DoFit (items_of context settled settled.read.operation) }
    ensures long { (kind : DeckKind) (earlier : List Settled) (statement : Statement) (context : Context) → context.kind ≡ kind →
        let settled = settle kind earlier statement in
        AreLongWhole (word_bits kind) (items_of context settled settled.read.operation) }
{}
