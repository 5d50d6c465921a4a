//! The kind of a deck, found while its statements are read one after the other (COMPASS 60492600,
//! ABS, PERIPH).
ghost use Rattle.std.specs.Prelude.{◌≡◌, ◌∷◌, [], List, reverse, is_some, None, option_map};
ghost use Rattle.definitions.specs.Fields.{Fields};
ghost use Rattle.definitions.specs.DeckKinds.{kind_of};
ghost use Rattle.operations.specs.Joins.KindsFound.{kind_made_by, kind_found};
ghost use Rattle.operations.specs.Joins.OperationsAs.{operation_as};

use crate::operation::Operation;
use crate::pseudo_table::pseudo_instruction;
use definitions::DeckKind;
use std::marker::Model;

/// The kind that an operation makes, where it is not neutral. Any other than ABS and PERIPH leaves
/// REL.
fn kind_made(operation: Option<Operation>) -> Option<DeckKind>
    ensures { result ≡ kind_made_by (option_map operation_as operation) }
{
    match operation {
        Some(Operation::Kind(kind)) => Some(kind),
        Some(other) if other.is_neutral() => None,
        _ => Some(DeckKind::Rel),
    }
}

/// A search for the kind of a deck: the first statement that is not neutral makes it. Contracts see
/// the kind, once it is found.
#[derive(Drop)]
pub struct KindSearch {
    found: Option<DeckKind>,
}

impl Model for KindSearch {
    ghost use Rattle.std.specs.Prelude.{Option};
    ghost use Rattle.definitions.specs.declared.deck_kind.DeckKind as kinds;

    ghost Value = { Option kinds.DeckKind };

    ghost view = { λ s. s.found };
}

impl KindSearch {
    /// A search before any statement is read.
    pub fn new() -> KindSearch
        ensures none { result ≡ None }
        ensures found { result ≡ kind_found [] }
    {
        KindSearch { found: None }
    }

    /// Reads the operation field of the next statement.
    pub fn read(&mut self, operation: &[u8])
        ensures { (fields : Fields) (earlier : List Fields) → fields.operation ≡ operation.now → self.old ≡ kind_found earlier →
            self.new ≡ kind_found (fields ∷ earlier) }
    {
        match self.found {
            Some(_) => {}
            None => self.found = kind_made(pseudo_instruction(operation)),
        }
    }

    /// Whether the kind is found, and no later statement changes it.
    pub fn is_found(&self) -> bool
        ensures found { result ≡ is_some self.now }
    {
        self.found.is_some()
    }

    /// The kind of a deck that has no more statements: REL, where none of them made it.
    pub fn kind(&self) -> DeckKind
        ensures { (earlier : List Fields) → self.now ≡ kind_found earlier → result ≡ kind_of (reverse earlier) }
    {
        match self.found {
            Some(kind) => kind,
            None => DeckKind::Rel,
        }
    }
}
