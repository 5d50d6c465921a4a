//! What holds of the definitions here and those of the statements, each as the contract of a
//! function that does nothing.
ghost use Rattle.std.specs.Prelude.{◌≡◌, ℕ, ◌+◌, ◌-◌, ◌*◌, ◌^◌, ◌<◌, List, [], ◌∷◌, ◌++◌, Bool, true, false};
ghost use Rattle.definitions.specs.Characters.{same_text};
ghost use Rattle.definitions.specs.Words.{Coded, Linking, parcels_of, runs_of, width_of};
ghost use Rattle.definitions.specs.Operations.{is_instruction};
ghost use Rattle.definitions.specs.Kinds.{unit_bits};
ghost use Rattle.definitions.specs.declared.deck_kind.DeckKind.{DeckKind};
ghost use Rattle.parcel_packer.specs.Joins.Packing.{DoItemsFit, OpenRun, Packed, end_bit, moved, put_bits, put_items, runs_in};

/// Bits behind bits are put as one number, so a wide field may be put in pieces; and a field that
/// begins where the last one ended needs no move.
pub fn fields_join()
    ensures joined { (size : ℕ) (instruction : Bool) (v w a b : ℕ) (run : OpenRun) → b < 2 ^ w →
        put_bits size instruction (v + w) (a * 2 ^ w + b) run ≡ put_bits size instruction w b (put_bits size instruction v a run) }
    ensures stays { (kind : DeckKind) (run : OpenRun) → moved (unit_bits kind) (end_bit (unit_bits kind) run) run ≡ run }
{}

/// A run ends so many bits behind where it ended as are put.
pub fn ends_add()
    ensures { (size : ℕ) (instruction : Bool) (width number : ℕ) (run : OpenRun) → run.filled < size →
        (end_bit size (put_bits size instruction width number run) ≡ end_bit size run + width) × ((put_bits size instruction width number run).filled < size) }
{}

/// The fields of a statement, put one behind the other from its place to its end, are the parcels
/// that the definitions cut from their joined number.
pub fn statements_fill_parcels()
    ensures { (kind : DeckKind) (linking : Linking) (coded : Coded) (run : OpenRun) → run.filled ≡ 0 → run.bits ≡ 0 →
        width_of coded.fields ≡ unit_bits kind * (coded.settled.end - coded.settled.place) → DoItemsFit linking coded.fields →
        put_items (unit_bits kind) (is_instruction coded.settled.read.operation) linking coded.fields (moved (unit_bits kind) (unit_bits kind * coded.settled.place) run)
        ≡ record { parcels = run.parcels ++ parcels_of kind linking coded; place = coded.settled.place + (coded.settled.end - coded.settled.place); filled = 0; bits = 0 } }
{}

/// Where the runs were those of the statements before one, they are those with it too: its parcels
/// join the latest run, or an ORG begins another.
pub fn runs_follow_statements()
    ensures joined { (kind : DeckKind) (linking : Linking) (block : List ℕ) (coded : Coded) (earlier : List Coded) (packed : Packed) →
        runs_in packed ≡ runs_of kind linking block earlier → same_text coded.settled.block block ≡ true → coded.settled.begins_run ≡ false →
        ((packed.run.parcels ++ parcels_of kind linking coded) ∷ packed.earlier) ≡ runs_of kind linking block (coded ∷ earlier) }
    ensures begun { (kind : DeckKind) (linking : Linking) (block : List ℕ) (coded : Coded) (earlier : List Coded) (packed : Packed) →
        runs_in packed ≡ runs_of kind linking block earlier → same_text coded.settled.block block ≡ true → coded.settled.begins_run ≡ true →
        ([] ∷ runs_in packed) ≡ runs_of kind linking block (coded ∷ earlier) }
{}
