//! What a statement defines (COMPASS 60492600, location field, EQU, EXT).
ghost use Rattle.std.specs.Prelude.{◌≡◌, ℕ, List, false, is_some};
ghost use Rattle.definitions.specs.Forms as forms;
ghost use Rattle.definitions.specs.Operations as op;
ghost use Rattle.definitions.specs.Operands as operands;
ghost use Rattle.definitions.specs.Settling.{View, first_definition, definitions_of};
ghost use Rattle.operations.specs.Joins.OperationsAs.{operation_as};
ghost use Rattle.statement_coder.specs.Joins.Readings.{IsReading};
ghost use Rattle.statement_coder.specs.Joins.Definitions.{has_names, defined_by, is_ext, made_as, IsOfExt};

use crate::readings::Reading;
use definitions::DeckKind;
use expr_forms::{Form, is_symbol};
use operations::Operation;

/// What a statement defines, whatever the values are.
#[derive(Clone, Copy)]
pub enum Definition {
    Nothing,
    /// The symbol of its location field, as the location counter.
    Counter,
    /// The symbol of its location field, as a number.
    Number,
    /// The names of its EXT that are new.
    Externals,
}

/// What a statement defines.
#[derive(Clone, Copy)]
pub enum Defines {
    Nothing,
    /// The symbol of its location field, with this value.
    Symbol(Form),
    /// The names of its EXT that are new, as externals.
    Externals,
}

/// The symbol of a location field as the location counter, where it is one that is not defined before.
fn first_at_counter(location: &[u8], is_defined: bool) -> Definition
    ensures definitions { (view : View) (operand : operands.Operand) (value counter : forms.Form) → is_some (view location.now) ≡ is_defined →
        defined_by view location.now operand (made_as counter value result) ≡ first_definition location.now counter (view location.now) }
    ensures externals { (operation : op.Operation) → is_ext operation ≡ false → (value counter : forms.Form) → IsOfExt operation (made_as counter value result) }
{
    if is_symbol(location) && !is_defined {
        Definition::Counter
    } else {
        Definition::Nothing
    }
}

/// The same as the value of an EQU.
fn first_as_number(location: &[u8], is_defined: bool) -> Definition
    ensures definitions { (view : View) (operand : operands.Operand) (value counter : forms.Form) → is_some (view location.now) ≡ is_defined →
        defined_by view location.now operand (made_as counter value result) ≡ first_definition location.now value (view location.now) }
    ensures externals { (operation : op.Operation) → is_ext operation ≡ false → (value counter : forms.Form) → IsOfExt operation (made_as counter value result) }
{
    if is_symbol(location) && !is_defined {
        Definition::Number
    } else {
        Definition::Nothing
    }
}

/// Whether an operand is the names of an EXT.
fn has_names(reading: &Reading<'_>) -> bool
    ensures { (operand : operands.Operand) → IsReading reading.now operand → result ≡ has_names operand }
{
    matches!(reading, Reading::Names(_))
}

/// What an EXT defines.
fn externals(kind: DeckKind, reading: &Reading<'_>) -> Definition
    ensures definitions { (location : List ℕ) (value counter : forms.Form) (view : View) (operand : operands.Operand) → IsReading reading.now operand →
        defined_by view location operand (made_as counter value result) ≡ definitions_of kind op.Ext operand (record { location = location; value = value; counter = counter; symbol = view }) }
    ensures externals { (value counter : forms.Form) → IsOfExt op.Ext (made_as counter value result) }
{
    match kind {
        DeckKind::Rel if has_names(reading) => Definition::Externals,
        _ => Definition::Nothing,
    }
}

/// What a statement defines: EQU its symbol as the value, EXT its names, and other labelled operations
/// theirs as the location counter; only what no earlier statement defines.
#[inline(always)]
pub(crate) fn definition_made(
    kind: DeckKind,
    operation: Operation,
    reading: &Reading<'_>,
    location: &[u8],
    is_defined: bool,
) -> Definition
    ensures definitions { (view : View) (operand : operands.Operand) (value counter : forms.Form) → IsReading reading.now operand → is_some (view location.now) ≡ is_defined →
        defined_by view location.now operand (made_as counter value result) ≡ definitions_of kind (operation_as operation) operand (record { location = location.now; value = value; counter = counter; symbol = view }) }
    ensures externals { (value counter : forms.Form) → IsOfExt (operation_as operation) (made_as counter value result) }
{
    match operation {
        Operation::Equ => first_as_number(location, is_defined),
        Operation::Ext => externals(kind, reading),
        Operation::Bss => first_at_counter(location, is_defined),
        Operation::Bssz => first_at_counter(location, is_defined),
        Operation::Data => first_at_counter(location, is_defined),
        Operation::Con => first_at_counter(location, is_defined),
        Operation::Vfd => first_at_counter(location, is_defined),
        Operation::Dis => first_at_counter(location, is_defined),
        Operation::Instruction => first_at_counter(location, is_defined),
        Operation::Unknown => first_at_counter(location, is_defined),
        _ => Definition::Nothing,
    }
}
