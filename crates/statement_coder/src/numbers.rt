//! Forms as numbers, in decks whose blocks have their places.
ghost use Rattle.std.specs.Prelude.{◌≡◌, ◌<◌, ◌≤◌, ◌^◌, ℕ, List, unsigned_abs, option_map};
ghost use Rattle.definitions.specs.Forms as forms;
ghost use Rattle.definitions.specs.Settled.{Settled};
ghost use Rattle.definitions.specs.Coding.{coded_in};
ghost use Rattle.definitions.specs.Lengths.{BlockRow, base_in};
ghost use Rattle.definitions.specs.StatementItems.{number_in};
ghost use Rattle.definitions.specs.declared.deck_kind.DeckKind.{DeckKind};
ghost use Rattle.expr_forms.specs.Joins.FormsAs.{part_as, relocation_as};
ghost use Rattle.statement_coder.specs.Joins.Items.{deck_with};
ghost use Rattle.statement_coder.specs.Joins.Numbers.{relocation_number, part_number};

use expr_forms::{Form, Name, Part, Relocation, coded_in};

/// Where blocks stand. Contracts see the blocks of a deck with their bases.
pub trait BlockBases {
    ghost rows: { Self → List BlockRow };

    /// The base of a block, in words; 0 of one that the deck does not have.
    fn base(&self, name: &Name) -> u64
        ensures { result ≡ base_in name.now (rows self.now) };
}

/// What a block or an external is worth: its base, or 0.
fn relocation_number<B: BlockBases>(bases: &B, relocation: Relocation) -> i128
    ensures number { result ≡ relocation_number (B.rows bases.now) (relocation_as relocation) }
    ensures small { unsigned_abs result < 2 ^ 64 }
{
    match relocation {
        Relocation::Block(name) => i128::from(bases.base(&name)),
        Relocation::External(_) => 0,
    }
}

/// What the block or external of a form is worth.
fn part_number<B: BlockBases>(bases: &B, part: Option<Part>) -> i128
    ensures number { result ≡ part_number (B.rows bases.now) (option_map part_as part) }
    ensures small { unsigned_abs result < 2 ^ 64 }
{
    match part {
        None => 0,
        Some(Part::Added(relocation)) => relocation_number(bases, relocation),
        Some(Part::Subtracted(relocation)) => -relocation_number(bases, relocation),
    }
}

/// The number that a form is once all blocks have their places.
pub fn number_in<B: BlockBases>(bases: &B, form: Form) -> i128
    ensures number { (kind : DeckKind) (settled : List Settled) (literals : List ℕ) →
        result ≡ number_in (deck_with kind (B.rows bases.now) settled literals) form }
    ensures small { unsigned_abs result < 2 ^ 65 }
{
    i128::from(form.number()) + part_number(bases, form.part())
}

/// A number in a field of 1 to 60 bits, if it fits: a negative one is the complement of its size.
pub fn number_coded(width: u32, number: i128) -> Option<u64>
    requires some { 1 ≤ width }
    requires most { width ≤ 60 }
    ensures { result ≡ coded_in width number }
{
    match i64::try_from(number) {
        Ok(number) => coded_in(width, number),
        Err(_) => None,
    }
}
