//! What the deck of an object in its place has.
ghost use Rattle.std.specs.Prelude.{◌≡◌, List};
ghost use Rattle.definitions.specs.Cards.{Card};
ghost use Rattle.deck_objects.specs.Joins.PartsOf.{ArePartsOf};
ghost use Rattle.deck_listing.specs.Joins.Walking.{HasObject};

use crate::Based;
use deck_objects::{Entry, ObjectParts};
use definitions::DeckKind;
use expr_forms::Name;

/// The name of a deck.
pub(crate) fn name(based: &Based) -> &[u8]
    ensures { result.now ≡ based.now.object.name }
{
    based.object().name().as_slice()
}

/// The parts of a deck.
pub(crate) fn parts(based: &Based) -> &ObjectParts
    ensures parts { (cards : List Card) × ArePartsOf cards result.now based.now.object }
    ensures object { HasObject result.now }
{
    based.object().parts()
}

/// The kind of a deck.
pub(crate) fn kind(based: &Based) -> DeckKind
    ensures { result ≡ based.now.object.kind }
{
    parts(based).kind
}

/// The names that a deck enters.
pub(crate) fn entries(based: &Based) -> &[Entry]
    ensures { result.now ≡ based.now.object.entries }
{
    parts(based).entries.as_slice()
}

/// The externals of a deck.
pub(crate) fn externals(based: &Based) -> &[Name]
    ensures { result.now ≡ based.now.object.externals }
{
    parts(based).externals.as_slice()
}
