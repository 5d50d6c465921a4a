//! What forms are worth where decks have their places (COMPASS 60492600, evaluation of expressions; the
//! places are ours).
ghost use Rattle.std.specs.Prelude.{ℕ, ◌≡◌, ◌<◌, ◌+◌, ◌^◌, List, ℤ, pos, unsigned_abs, option_map};
ghost use Rattle.definitions.specs.Forms.{Added};
ghost use Rattle.definitions.specs.Layout.{block_base};
ghost use Rattle.definitions.specs.LinkValues.{entry_value, form_value};
ghost use Rattle.definitions.specs.StatementItems.{part_value};
ghost use Rattle.deck_linker.specs.Joins.Placing.{external_in, external_of, worth};
ghost use Rattle.expr_forms.specs.Joins.FormsAs.{part_as, relocation_as};

use crate::based::Based;
use crate::commons::Commons;
use deck_objects::Entry;
use expr_forms::{Form, Name, Part, Relocation};
use use_blocks::is_common;

/// Where a block of a deck stands in a link.
pub(crate) fn block_base(commons: &Commons, based: &Based, name: &Name) -> u128
    ensures base { result ≡ block_base commons.now based.now name.now }
    ensures small { result < 2 ^ 64 + 2 ^ 32 }
{
    if is_common(name) {
        u128::from(commons.base(name))
    } else {
        u128::from(based.base()) + u128::from(based.object().parts().bases.base(name))
    }
}

/// What a block or external is worth, where an external is worth so much.
fn relocation_value(
    commons: &Commons,
    based: &Based,
    relocation: Relocation,
    external: i128,
) -> i128
    requires { unsigned_abs external < 2 ^ 65 }
    ensures value { result ≡ worth (λ name. pos (block_base commons.now based.now name)) external (relocation_as relocation) }
    ensures small { unsigned_abs result < 2 ^ 64 + 2 ^ 32 + unsigned_abs external }
{
    match relocation {
        Relocation::Block(name) => block_base(commons, based, &name) as i128,
        Relocation::External(_) => external,
    }
}

/// What the block or external of a form is worth, where an external is worth so much.
fn part_value(commons: &Commons, based: &Based, part: Option<Part>, external: i128) -> i128
    requires { unsigned_abs external < 2 ^ 65 }
    ensures value { (externals : List ℕ → ℤ) → external ≡ external_in externals (option_map part_as part) →
        result ≡ part_value (λ name. pos (block_base commons.now based.now name)) externals (option_map part_as part) }
    ensures small { unsigned_abs result < 2 ^ 64 + 2 ^ 32 + unsigned_abs external }
{
    match part {
        None => 0,
        Some(Part::Added(relocation)) => relocation_value(commons, based, relocation, external),
        Some(Part::Subtracted(relocation)) => {
            -relocation_value(commons, based, relocation, external)
        }
    }
}

/// What a form is worth in a deck, where its external is worth so much, if it has one.
pub(crate) fn value_with(commons: &Commons, based: &Based, form: Form, external: i128) -> i128
    requires { unsigned_abs external < 2 ^ 65 }
    ensures value { (externals : List ℕ → ℤ) → external ≡ external_in externals form.part →
        result ≡ form_value externals commons.now based.now form }
    ensures small { unsigned_abs result < 2 ^ 65 + unsigned_abs external }
{
    i128::from(form.number()) + part_value(commons, based, form.part(), external)
}

/// The value of an entry of a deck; its form has no external.
pub(crate) fn entry_value(commons: &Commons, based: &Based, entry: &Entry) -> i128
    ensures value { result ≡ entry_value commons.now based.now entry.now }
    ensures small { unsigned_abs result < 2 ^ 65 }
{
    value_with(commons, based, entry.form(), 0)
}

/// The name of an external.
fn name_of_external(relocation: Relocation) -> Option<Name>
    ensures { result ≡ external_of (Some (Added (relocation_as relocation))) }
{
    match relocation {
        Relocation::Block(_) => None,
        Relocation::External(name) => Some(name),
    }
}

/// The external of a form, if it has one.
pub(crate) fn external_name(form: Form) -> Option<Name>
    ensures { result ≡ external_of form.part }
{
    match form.part() {
        None => None,
        Some(Part::Added(relocation)) => name_of_external(relocation),
        Some(Part::Subtracted(relocation)) => name_of_external(relocation),
    }
}
