//! The statement that cards are (COMPASS 60492600, statement format).
ghost use Rattle.std.specs.Prelude.{◌≡◌, ◌≤◌, length};
ghost use Rattle.definitions.specs.Fields.{fields_of};
ghost use Rattle.definitions.specs.Operations.{is_instruction_name, operation_of};
ghost use Rattle.definitions.specs.Statements.{is_stray};
ghost use Rattle.operations.specs.Joins.OperationsAs.{operation_as};
ghost use Rattle.statement_coder.specs.Joins.StatementsRead.{IsRead};

use crate::statement::Statement;
use cards::{Card, StatementRoom, fields};
use definitions::DeckKind;
use operations::{Operation, pseudo_instruction};

/// Whether a name is an instruction in a deck of this kind.
fn is_instruction_name(kind: DeckKind, name: &[u8]) -> bool
    ensures { result ≡ is_instruction_name kind name.now }
{
    match kind {
        DeckKind::Periph => ppu_opcodes::is_peripheral(name),
        DeckKind::Rel => cpu_opcodes::is_central(name),
        DeckKind::Abs => cpu_opcodes::is_central(name),
    }
}

/// The operation that a field names in a deck of this kind.
fn operation_of(kind: DeckKind, name: &[u8]) -> Operation
    ensures { operation_as result ≡ operation_of kind name.now }
{
    match pseudo_instruction(name) {
        Some(operation) => operation,
        None => {
            if is_instruction_name(kind, name) {
                Operation::Instruction
            } else {
                Operation::Unknown
            }
        }
    }
}

/// Whether the cards of a statement are a comma card that belongs to no other.
fn is_stray(cards: &[Card]) -> bool
    ensures { result ≡ is_stray cards.now }
{
    match cards.split_first() {
        None => false,
        Some((first, _)) => first.is_comma_card(),
    }
}

impl<'a> Statement<'a> {
    /// The statement of at most ten cards, in a deck of this kind.
    pub fn read(kind: DeckKind, cards: &'a [Card], room: &'a mut StatementRoom) -> Statement<'a>
        requires { length cards.now ≤ 10 }
        ensures { IsRead kind cards.now result }
    {
        let fields = fields(cards, room);
        Statement {
            kind,
            location: fields.location(),
            name: fields.operation(),
            variable: fields.variable(),
            operation: operation_of(kind, fields.operation()),
            is_stray: is_stray(cards),
        }
    }
}

/// The statement of at most ten cards in a deck of this kind, where this is its operation: that is not
/// looked up.
pub fn known_statement<'a>(
    kind: DeckKind,
    operation: Operation,
    cards: &'a [Card],
    room: &'a mut StatementRoom,
) -> Statement<'a>
    requires few { length cards.now ≤ 10 }
    requires operation { operation_as operation ≡ operation_of kind (fields_of cards.now).operation }
    ensures { IsRead kind cards.now result }
{
    let known = fields(cards, room);
    Statement {
        kind,
        location: known.location(),
        name: known.operation(),
        variable: known.variable(),
        operation,
        is_stray: is_stray(cards),
    }
}
