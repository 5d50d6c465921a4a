//! The object of a deck.
ghost use Rattle.std.specs.Prelude.{◌≡◌};
ghost use Rattle.definitions.specs.DeckInput.{Deck};
ghost use Rattle.definitions.specs.Objects.{object_of};
ghost use Rattle.deck_objects.specs.Joins.PartsOf.{ArePartsOf};

use crate::entries::Entry;
use crate::lines::{FieldLists, Line};
use cards::{Card, DeckName};
use definitions::DeckKind;
use expr_forms::Name;
use std::marker::Model;
use use_blocks::Bases;

/// All of an object but its name and its cards.
#[derive(Drop)]
pub struct ObjectParts {
    pub kind: DeckKind,
    /// The statements in order, those behind END among them.
    pub lines: Vec<Line>,
    /// The fields that lines have lists of.
    pub fields: FieldLists,
    pub bases: Bases,
    pub literals: Vec<u64>,
    pub entries: Vec<Entry>,
    pub externals: Vec<Name>,
}

/// The object of a deck. Contracts see the deck: its name and its cards.
#[derive(Drop)]
pub struct Object {
    name: DeckName,
    cards: Vec<Card>,
    parts: ObjectParts,
}

impl Model for Object {
    ghost use Rattle.definitions.specs.DeckInput.{Deck};
    ghost use Rattle.definitions.specs.Objects.{object_of};
    ghost use Rattle.deck_objects.specs.Joins.PartsOf.{ArePartsOf};

    ghost Value = { Deck };

    ghost view = { λ o. record { name = o.name; cards = o.cards.items } };

    ghost invariant = { λ o. let deck : Deck = record { name = o.name; cards = o.cards.items } in ArePartsOf deck.cards o.parts (object_of deck) };
}

impl Object {
    /// The object of the deck of this name and these cards, of which these are the parts.
    pub fn new(name: DeckName, cards: Vec<Card>, parts: ObjectParts) -> Object
        requires { let deck : Deck = record { name = name; cards = cards.items } in ArePartsOf deck.cards parts (object_of deck) }
        ensures { result ≡ record { name = name; cards = cards.items } }
    {
        Object { name, cards, parts }
    }

    pub fn name(&self) -> &DeckName
        ensures { result.now ≡ self.now.name }
    {
        &self.name
    }

    pub fn cards(&self) -> &[Card]
        ensures { result.now ≡ self.now.cards }
    {
        self.cards.as_slice()
    }

    /// All else of it.
    pub fn parts(&self) -> &ObjectParts
        ensures { ArePartsOf self.now.cards result.now (object_of self.now) }
    {
        &self.parts
    }
}
