//! Where a statement stands in its block (COMPASS 60492600, forcing upper).
ghost use Rattle.std.specs.Prelude.{◌≡◌, ◌≤◌, ◌||◌, ℕ, List, Bool, if◌then◌else◌};
ghost use Rattle.definitions.specs.Operands.{Operand};
ghost use Rattle.definitions.specs.Operations.{Operation};
ghost use Rattle.definitions.specs.Places as places;
ghost use Rattle.definitions.specs.Places.{is_upper, least_place, past_last_parcel, to_word};

use definitions::DeckKind;

/// The least lawful place from an end on, in units of the block: a word, where the statement has to
/// stand at one; else the end itself, which is no place for a long instruction in parcel 3.
pub fn place(kind: DeckKind, from: u32, is_at_word: bool, is_long: bool) -> u32
    requires { from ≤ 524288 }
    ensures least { (operation : Operation) (operand : Operand) (location : List ℕ) (asks : Bool) →
        (places.is_at_word operation operand || is_upper kind operation location asks) ≡ is_at_word → places.is_long kind operation operand ≡ is_long →
        result ≡ least_place kind operation operand location asks from }
    ensures place { result ≡ (if is_at_word then to_word kind from else past_last_parcel is_long from) }
    ensures within { result ≤ 524288 }
{
    if is_at_word {
        (from + kind.units() - 1) / kind.units() * kind.units()
    } else if is_long && from % 4 == 3 {
        from + 1
    } else {
        from
    }
}
