//! Where a deck stands in a link (ours).
ghost use Rattle.std.specs.Prelude.{ℕ, ◌≡◌, ◌≤◌, true, false};
ghost use Rattle.definitions.specs.Kinds.{is_absolute_deck};
ghost use Rattle.definitions.specs.Layout.{deck_length, placed, end_after};
ghost use Rattle.definitions.specs.Objects.{object_of};

use crate::beyond::has_beyond;
use deck_objects::{Object, SharedObject};
use definitions::DeckKind;
use std::marker::Model;

/// The first address behind the central memory.
pub(crate) const MEMORY_END: u32 = 0o400000;

/// An object with its base, and whether it passes the end of memory. Contracts see the definitions'
/// record.
#[derive(Drop)]
pub struct Based {
    object: SharedObject,
    base: u32,
    is_past: bool,
}

impl Model for Based {
    ghost use Rattle.definitions.specs.Layout as definitions;
    ghost use Rattle.definitions.specs.Objects.{object_of};

    ghost Value = { definitions.Based };

    ghost view = { λ b. record { object = object_of b.object; base = b.base; is_past = b.is_past } };
}

impl Based {
    /// A REL deck that would pass the end of memory.
    fn past(object: SharedObject) -> Based
        ensures { result ≡ record { object = object_of object; base = 0; is_past = true } }
    {
        Based {
            object,
            base: 0,
            is_past: true,
        }
    }

    /// A REL deck at its base.
    fn standing(object: SharedObject, base: u32) -> Based
        ensures { result ≡ record { object = object_of object; base = base; is_past = false } }
    {
        Based {
            object,
            base,
            is_past: false,
        }
    }

    pub fn object(&self) -> &Object
        ensures { object_of result.now ≡ self.now.object }
    {
        self.object.object()
    }

    /// The address of its first word; 0 of an ABS or PERIPH deck, and of a REL deck that passes the end
    /// of memory.
    pub fn base(&self) -> u32
        ensures { result ≡ self.now.base }
    {
        self.base
    }

    /// Whether it passes the end of its memory.
    pub fn is_past(&self) -> bool
        ensures { result ≡ self.now.is_past }
    {
        self.is_past
    }

    /// How many words its own blocks have.
    pub fn deck_length(&self) -> u64
        ensures { result ≡ deck_length self.now.object }
    {
        deck_length(self.object())
    }
}

/// How many words the own blocks of an object have.
fn deck_length(object: &Object) -> u64
    ensures { result ≡ deck_length (object_of object.now) }
{
    object.parts().bases.total_length()
}

/// An object where the decks before it end at a base, and where the decks end with it. A REL deck that
/// would pass the end of memory has base 0 and moves no other; an ABS or PERIPH deck has base 0.
pub(crate) fn place(base: u32, object: SharedObject) -> (Based, u32)
    requires { base ≤ 0o400000 }
    ensures based { result.0 ≡ placed base (object_of object) }
    ensures end { result.1 ≡ end_after base (object_of object) }
    ensures within { result.1 ≤ 0o400000 }
{
    match object.object().parts().kind {
        DeckKind::Rel => place_rel(base, object),
        DeckKind::Abs => (place_absolute(object), base),
        DeckKind::Periph => (place_absolute(object), base),
    }
}

/// A REL deck where the decks before it end at a base, and where the decks end with it.
fn place_rel(base: u32, object: SharedObject) -> (Based, u32)
    requires within { base ≤ 0o400000 }
    requires rel { (object_of object).kind ≡ DeckKind.Rel }
    ensures based { result.0 ≡ placed base (object_of object) }
    ensures end { result.1 ≡ end_after base (object_of object) }
    ensures within { result.1 ≤ 0o400000 }
{
    let words = deck_length(object.object());
    if words > u64::from(MEMORY_END - base) {
        (Based::past(object), base)
    } else {
        (Based::standing(object, base), base + words as u32)
    }
}

/// An ABS or PERIPH deck.
fn place_absolute(object: SharedObject) -> Based
    requires { is_absolute_deck (object_of object).kind ≡ true }
    ensures { (base : ℕ) → result ≡ placed base (object_of object) }
{
    let is_past = has_beyond(object.object());
    Based {
        object,
        base: 0,
        is_past,
    }
}
