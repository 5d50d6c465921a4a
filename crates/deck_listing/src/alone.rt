//! How forms are linked in a deck that stands alone.
ghost use Rattle.std.specs.Prelude.{◌≡◌, ◌<◌, ◌^◌, ◌+ℤ◌, option_map, pos, unsigned_abs};
ghost use Rattle.definitions.specs.Forms as forms;
ghost use Rattle.expr_forms.specs.Joins.FormsAs.{part_as, relocation_as};
ghost use Rattle.deck_listing.specs.Joins.Alone.{alone_base, alone_linking, alone_part, alone_relocation};

use deck_objects::{Linking, coded_or_zero};
use expr_forms::{Form, Name, Part, Relocation};
use use_blocks::{Bases, is_common};

/// A deck at a base, without other decks: common blocks stand at 0, and so do externals.
#[derive(Clone, Copy)]
pub(crate) struct Alone<'a> {
    pub(crate) bases: &'a Bases,
    pub(crate) base: u64,
}

impl Alone<'_> {
    /// Where a block stands.
    fn block_base(&self, name: &Name) -> u128
        ensures base { result ≡ alone_base self.now.bases.now self.now.base name.now }
        ensures small { result < 2 ^ 65 }
    {
        if is_common(name) {
            return 0;
        }
        u128::from(self.base) + u128::from(self.bases.base(name))
    }

    /// What a block or an external is worth.
    fn relocation_number(&self, relocation: Relocation) -> i128
        ensures number { result ≡ alone_relocation self.now.bases.now self.now.base (relocation_as relocation) }
        ensures small { unsigned_abs result < 2 ^ 65 }
    {
        match relocation {
            Relocation::Block(name) => self.block_base(&name) as i128,
            Relocation::External(_) => 0,
        }
    }

    /// What the block or external of a form is worth.
    fn part_number(&self, part: Option<Part>) -> i128
        ensures number { result ≡ alone_part self.now.bases.now self.now.base (option_map part_as part) }
        ensures small { unsigned_abs result < 2 ^ 65 }
    {
        match part {
            None => 0,
            Some(Part::Added(relocation)) => self.relocation_number(relocation),
            Some(Part::Subtracted(relocation)) => -self.relocation_number(relocation),
        }
    }

    /// The number that a form is.
    fn form_number(&self, form: Form) -> i128
        ensures number { result ≡ form.number +ℤ alone_part self.now.bases.now self.now.base form.part }
        ensures small { unsigned_abs result < 2 ^ 66 }
    {
        i128::from(form.number()) + self.part_number(form.part())
    }
}

impl Linking for Alone<'_> {
    ghost linking = { λ a. alone_linking a.bases.now a.base };

    fn bits(&self, width: u32, form: Form) -> u64 {
        coded_or_zero(width, self.form_number(form))
    }
}
