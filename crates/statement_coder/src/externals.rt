//! What an EXT of a relocatable deck says of its names (COMPASS 60492600, EXT).
ghost use Rattle.std.specs.Prelude.{◌≡◌, ◌++◌, ◌∷◌, [], IfOk, if◌then◌else◌};
ghost use Rattle.definitions.specs.Blocks.{is_named};
ghost use Rattle.definitions.specs.Letters.{in_order};
ghost use Rattle.definitions.specs.Settling.{letter_where, external_letters};
ghost use Rattle.statement_coder.specs.Joins.Externals.{has_unlawful, has_known};

use crate::early_values::EarlySymbols;
use definitions::Letter;
use expr_forms::{LinkedNames, Name};
use indexmap::IndexSet;
use operations::Letters;
use std::alloc::{AllocError, Global};
use std::hash::RandomState;
use use_blocks::NameKey;

/// Whether one of these is no lawful name.
fn has_unlawful(names: LinkedNames<'_>) -> bool
    ensures { result ≡ has_unlawful names.entry }
{
    let mut rest = names;
    'names: loop {
        match rest.next() {
            None => return false,
            Some(None) => return true,
            Some(Some(_)) => {}
        }
    }
}

/// Whether a name was seen before. One that is new is kept in mind.
fn is_again(seen: &mut IndexSet<NameKey, RandomState>, name: &Name) -> Result<bool, AllocError>
    ensures again { IfOk result (λ again. again ≡ is_named name.now seen.old.keys) }
    ensures seen { IfOk result (λ again. seen.new.keys ≡ (if again then seen.old.keys else seen.old.keys ++ name.now ∷ [])) }
{
    let is_new = seen.insert(NameKey::new(name))?;
    Ok(!is_new)
}

/// Whether one of these names is defined before, or stands here again. Only names take memory.
fn has_known<S: EarlySymbols>(
    alloc: Global,
    keys: RandomState,
    symbols: &S,
    names: LinkedNames<'_>,
) -> Result<bool, AllocError>
    ensures { IfOk result (λ known. known ≡ has_known (S.view symbols.now) names.entry) }
{
    let mut seen = IndexSet::with_hasher(alloc, keys);
    let mut rest = names;
    'names: loop {
        match rest.next() {
            None => return Ok(false),
            Some(None) => {}
            Some(Some(name)) => {
                if symbols.symbol(name).is_some() || is_again(&mut seen, &Name::new(name))? {
                    return Ok(true);
                }
            }
        }
    }
}

/// The letter alone where it applies, else none.
fn letters_where(applies: bool, letter: Letter) -> Letters
    ensures { result ≡ in_order (letter_where applies letter) }
{
    if applies {
        Letters::of(letter)
    } else {
        Letters::none()
    }
}

/// The letters of the names of an EXT: V where one is no lawful name, D where one is not new: it is
/// defined before, or stands earlier in this EXT.
pub(crate) fn external_letters<S: EarlySymbols>(
    alloc: Global,
    keys: RandomState,
    symbols: &S,
    names: &LinkedNames<'_>,
) -> Result<Letters, AllocError>
    ensures { IfOk result (λ letters. letters ≡ in_order (external_letters (S.view symbols.now) names.now [])) }
{
    let is_known = has_known(alloc, keys, symbols, names.copied())?;
    let known = letters_where(is_known, Letter::D);
    let unlawful = letters_where(has_unlawful(names.copied()), Letter::V);
    Ok(unlawful.union(&known))
}
