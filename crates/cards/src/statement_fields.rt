//! The fields of a statement.
ghost use Rattle.std.specs.Prelude.{◌≡◌, ◌≤◌, ◌∷◌, [], length};
ghost use Rattle.definitions.specs.Fields.{fields_of, fields_of_text, no_fields};
ghost use Rattle.cards.specs.Joins.FieldParts.{AreWithin, fields_at};

use crate::card::Card;
use crate::field_parts::{Parts, cut, part_text};
use std::marker::Model;

/// The fields of a statement, as parts of its text of at most 711 characters. Contracts see the
/// three texts.
#[derive(Drop)]
pub struct Fields<'a> {
    location: &'a [u8],
    operation: &'a [u8],
    variable: &'a [u8],
}

impl<'a> Model for Fields<'a> {
    ghost use Rattle.cards.specs.Joins.FieldParts.{FieldTexts, fields_made};

    ghost Value = { FieldTexts };

    ghost view = { λ f. fields_made f.location.now f.operation.now f.variable.now };

    ghost use Rattle.std.specs.Prelude.{◌≤◌, length};

    ghost invariant = { λ f. length f.variable.now ≤ 711 };
}

impl<'a> Fields<'a> {
    /// The fields of a statement of one card, where they lie on the card.
    pub fn of_card(card: &'a Card) -> Fields<'a>
        ensures { result ≡ fields_of (card.now ∷ []) }
    {
        Fields::at(card.read_columns(), card.parts())
    }

    /// The operation field of a statement of one card.
    pub fn operation_of_card(card: &'a Card) -> &'a [u8]
        ensures { result.now ≡ (fields_of (card.now ∷ [])).operation }
    {
        part_text(card.read_columns(), card.parts().operation)
    }

    /// The fields of a statement that is not read.
    pub(crate) fn none() -> Fields<'a>
        ensures { result ≡ no_fields }
    {
        Fields {
            location: &[],
            operation: &[],
            variable: &[],
        }
    }

    /// The fields that these parts of a text are.
    fn at(text: &'a [u8], parts: Parts) -> Fields<'a>
        requires short { length text.now ≤ 711 }
        requires within { AreWithin (length text.now) parts }
        ensures { result ≡ fields_at text.now parts }
    {
        Fields {
            location: part_text(text, parts.location),
            operation: part_text(text, parts.operation),
            variable: part_text(text, parts.variable),
        }
    }

    /// The fields of a statement's text.
    pub(crate) fn of_text(text: &'a [u8]) -> Fields<'a>
        requires { length text.now ≤ 711 }
        ensures { result ≡ fields_of_text text.now }
    {
        Fields::at(text, cut(text))
    }

    pub fn location(&self) -> &'a [u8]
        ensures { result.now ≡ self.now.location }
    {
        self.location
    }

    pub fn operation(&self) -> &'a [u8]
        ensures { result.now ≡ self.now.operation }
    {
        self.operation
    }

    /// The variable field; that of DIS goes to the end of the text, blanks and all.
    pub fn variable(&self) -> &'a [u8]
        ensures field { result.now ≡ self.now.variable }
        ensures short { length result.now ≤ 711 }
    {
        self.variable
    }
}
