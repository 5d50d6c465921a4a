//! Where a statement stands in its block (COMPASS 60492600, forcing upper; which instructions ask
//! for upper is ours).
ghost use Rattle.std.specs.Prelude.{◌≡◌, ◌≤◌, ◌==◌, ◌||◌, length, min};
ghost use Rattle.definitions.specs.Operands as operands;
ghost use Rattle.definitions.specs.Pieces.{pieces_of, subfields_of};
ghost use Rattle.definitions.specs.Places.{is_bad, is_long, allows_minus, has_minus, is_upper, least_place, asks_upper, asks_after};
ghost use Rattle.definitions.specs.Settling.{place_of};
ghost use Rattle.definitions.specs.Sizes.{size_of};
ghost use Rattle.operations.specs.Joins.OperationsAs.{operation_as};
ghost use Rattle.statement_coder.specs.Joins.Readings.{IsReading};

use crate::readings::Reading;
use crate::sizes::{is_bad, is_long, size_of};
use crate::statement::Statement;
use definitions::{DeckKind, is_same_text};
use expr_forms::{Subfields, is_symbol};
use operations::Operation;
use use_blocks::UsedBlock;

/// What the place of a statement asks of its operand: whether it is flagged V, and whether it is a
/// long central instruction.
#[derive(Clone, Copy)]
struct OperandClass {
    is_bad: bool,
    is_long: bool,
}

/// Whether a `-` in the location field is lawful: that of VFD outside peripheral decks is not.
pub(crate) fn allows_minus(kind: DeckKind, operation: Operation) -> bool
    ensures { result ≡ allows_minus kind (operation_as operation) }
{
    match kind {
        DeckKind::Periph => true,
        DeckKind::Rel | DeckKind::Abs => !matches!(operation, Operation::Vfd),
    }
}

/// Whether the location field is a `-` that is lawful.
fn has_minus(kind: DeckKind, operation: Operation, location: &[u8]) -> bool
    ensures { result ≡ has_minus kind (operation_as operation) location.now }
{
    is_same_text(location, b"-") && allows_minus(kind, operation)
}

/// Whether an instruction is upper, where its block asks for it or not.
fn is_upper(kind: DeckKind, operation: Operation, location: &[u8], asks: bool) -> bool
    ensures { result ≡ is_upper kind (operation_as operation) location.now asks }
{
    is_symbol(location)
        || is_same_text(location, b"+")
        || asks && !has_minus(kind, operation, location)
}

/// The place of a statement that has one, from the end of the statement before it in its block.
#[inline(always)]
fn least_place(
    kind: DeckKind,
    operation: Operation,
    class: OperandClass,
    location: &[u8],
    asks: bool,
    from: u32,
) -> u32
    requires { from ≤ 524288 }
    ensures place { (operand : operands.Operand) → is_bad operand ≡ class.is_bad → is_long kind (operation_as operation) operand ≡ class.is_long →
        result ≡ least_place kind (operation_as operation) operand location.now asks from }
    ensures within { result ≤ 524288 }
{
    let is_at_word = operation.is_reserving() || operation.is_data() && !class.is_bad;
    let is_at_word = is_at_word || is_upper(kind, operation, location, asks);
    parcel_packer::place(kind, from, is_at_word, class.is_long)
}

/// The place of a statement: one that has none of its own has the position of its block, or the
/// next word where upper is asked.
#[inline(always)]
fn place_of(
    kind: DeckKind,
    operation: Operation,
    class: OperandClass,
    location: &[u8],
    asks: bool,
    from: u32,
) -> u32
    requires { from ≤ 524288 }
    ensures place { (operand : operands.Operand) → is_bad operand ≡ class.is_bad → is_long kind (operation_as operation) operand ≡ class.is_long →
        result ≡ place_of kind (operation_as operation) operand location.now (record { end = from; asks = asks }) }
    ensures within { result ≤ 524288 }
{
    if operation.has_place() {
        least_place(kind, operation, class, location, asks, from)
    } else {
        parcel_packer::place(kind, from, asks, false)
    }
}

/// The place of a statement, and how many units it fills.
#[derive(Clone, Copy)]
pub(crate) struct Placed {
    pub(crate) place: u32,
    pub(crate) size: u32,
}

/// Where a statement stands whose operand was read, and how much it fills, in the block in use.
#[inline(always)]
pub(crate) fn placed_in(
    used: &UsedBlock,
    statement: &Statement<'_>,
    reading: &Reading<'_>,
) -> Placed
    ensures place { (operand : operands.Operand) → IsReading reading.now operand →
        result.place ≡ place_of statement.now.kind (operation_as statement.now.operation) operand statement.now.location.now used.now.position }
    ensures size { (operand : operands.Operand) → IsReading reading.now operand → min result.size 600000 ≡ min (size_of statement.now.kind operand) 600000 }
    ensures within { result.place ≤ 524288 }
    ensures few { result.size ≤ 40000000 }
{
    let kind = statement.kind;
    let operation = statement.operation;
    let size = size_of(kind, reading);
    let class = OperandClass {
        is_bad: is_bad(reading),
        is_long: is_long(kind, operation, size),
    };
    let position = used.position();
    let place = place_of(
        kind,
        operation,
        class,
        statement.location,
        position.asks(),
        position.end(),
    );
    Placed { place, size }
}

/// Whether a variable field has one subfield.
fn is_one(text: &[u8]) -> bool
    requires { length text.now ≤ 711 }
    ensures { result ≡ (length (subfields_of (pieces_of text.now)) == 1) }
{
    let mut subfields = Subfields::new(text);
    match subfields.next() {
        None => false,
        Some(_) => match subfields.next() {
            None => true,
            Some(_) => false,
        },
    }
}

/// Whether the name of a central instruction with this field asks that the next one is upper.
#[inline(always)]
fn asks_upper(name: &[u8], text: &[u8]) -> bool
    requires { length text.now ≤ 711 }
    ensures { result ≡ asks_upper name.now (length (subfields_of (pieces_of text.now))) }
{
    match name {
        [b'J', b'P'] | [b'R', b'J'] | [b'P', b'S'] => true,
        [b'E', b'Q'] => is_one(text),
        _ => false,
    }
}

/// Whether the block asks for upper behind a statement.
#[inline(always)]
pub(crate) fn asks_after(statement: &Statement<'_>, reading: &Reading<'_>) -> bool
    ensures { (operand : operands.Operand) → IsReading reading.now operand →
        result ≡ asks_after statement.now.kind (operation_as statement.now.operation) operand statement.now.name.now (length (subfields_of (pieces_of statement.now.variable.now))) }
{
    if !statement.operation.is_instruction() {
        return false;
    }
    match statement.kind {
        DeckKind::Periph => false,
        _ => !is_bad(reading) && asks_upper(statement.name, statement.variable),
    }
}
