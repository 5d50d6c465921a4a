//! Whether the symbols that a statement defines, or reads before its deck is known, have one value in
//! two tables (ours).
ghost use Rattle.std.specs.Prelude.{◌≡◌, ◌||◌, true};
ghost use Rattle.std.specs.Bool.{Decides};
ghost use Rattle.definitions.specs.Operands as operands;
ghost use Rattle.definitions.specs.Laws.Agreement.{Agree, defines_location, lawful_names, own_symbols, operand_symbols, symbols_in};
ghost use Rattle.operations.specs.Joins.OperationsAs.{operation_as};
ghost use Rattle.statement_coder.specs.Joins.Readings.{IsReading};
ghost use Rattle.statement_coder.specs.Joins.Definitions.{is_ext};
ghost use Rattle.deck_assembler.specs.Joins.FirstSymbols.{symbol_in};
ghost use Rattle.deck_assembler.specs.Joins.Agreements.{AreExternalsAlike, is_externals};

use crate::symbol_table::SymbolTable;
use expr_forms::{Expr, Form, LinkedNames, is_symbol};
use operations::Operation;
use statement_coder::{Defines, Reading};
use use_blocks::is_same_form;

/// Whether both values are the same, or both are absent.
fn is_same_value(value: Option<Form>, other: Option<Form>) -> bool
    ensures { Decides result (value ≡ other) }
{
    match (value, other) {
        (None, None) => true,
        (None, Some(_)) => false,
        (Some(_), None) => false,
        (Some(form), Some(other)) => is_same_form(form, other),
    }
}

/// Whether a symbol has one value in both tables, or none in either.
fn is_alike(first: &SymbolTable, second: &SymbolTable, name: &[u8]) -> bool
    ensures { Decides result (symbol_in first.now name.now ≡ symbol_in second.now name.now) }
{
    is_same_value(first.value(name), second.value(name))
}

/// Whether the symbols of an expression are alike in both tables.
fn are_symbols_alike(first: &SymbolTable, second: &SymbolTable, expression: &Expr<'_>) -> bool
    ensures { Decides result (Agree (symbol_in first.now) (symbol_in second.now) (symbols_in expression.now)) }
{
    let mut rest = expression.symbols();
    'symbols: loop {
        match rest.next() {
            None => return true,
            Some(name) => {
                if !is_alike(first, second, name) {
                    return false;
                }
            }
        }
    }
}

/// Whether the lawful names of an EXT are alike in both tables.
fn are_names_alike(first: &SymbolTable, second: &SymbolTable, names: LinkedNames<'_>) -> bool
    ensures { Decides result (Agree (symbol_in first.now) (symbol_in second.now) (lawful_names names.entry)) }
{
    let mut rest = names;
    'names: loop {
        match rest.next() {
            None => return true,
            Some(None) => {}
            Some(Some(name)) => {
                if !is_alike(first, second, name) {
                    return false;
                }
            }
        }
    }
}

/// Whether an operation defines the symbol of its location field.
fn defines_location(operation: Operation) -> bool
    ensures { result ≡ defines_location (operation_as operation) }
{
    matches!(operation, Operation::Equ) || operation.is_labelled()
}

/// Whether the symbol of its location field that a statement defines is alike in both tables.
pub(crate) fn is_own_alike(
    first: &SymbolTable,
    second: &SymbolTable,
    operation: Operation,
    location: &[u8],
) -> bool
    ensures { Decides result (Agree (symbol_in first.now) (symbol_in second.now) (own_symbols (operation_as operation) location.now)) }
{
    if defines_location(operation) && is_symbol(location) {
        return is_alike(first, second, location);
    }
    true
}

/// Whether an operation is EXT.
fn is_ext(operation: Operation) -> bool
    ensures { result ≡ is_ext (operation_as operation) }
{
    matches!(operation, Operation::Ext)
}

/// Whether a statement defines the names that it has, or may define them.
fn has_externals(operation: Operation, defines: Defines) -> bool
    ensures { result ≡ (is_ext (operation_as operation) || is_externals defines) }
{
    is_ext(operation) || matches!(defines, Defines::Externals)
}

/// Whether what an operand defines or reads early is alike in both tables.
pub(crate) fn is_operand_alike(
    first: &SymbolTable,
    second: &SymbolTable,
    reading: &Reading<'_>,
    operation: Operation,
    defines: Defines,
) -> bool
    ensures early { result ≡ true → (operand : operands.Operand) → IsReading reading.now operand → Agree (symbol_in first.now) (symbol_in second.now) (operand_symbols operand (operation_as operation)) }
    ensures externals { result ≡ true → (operand : operands.Operand) → IsReading reading.now operand → AreExternalsAlike (symbol_in first.now) (symbol_in second.now) operand defines }
    ensures all { (operand : operands.Operand) → IsReading reading.now operand → Agree (symbol_in first.now) (symbol_in second.now) (operand_symbols operand (operation_as operation)) →
        AreExternalsAlike (symbol_in first.now) (symbol_in second.now) operand defines → result ≡ true }
{
    match reading {
        Reading::Value(expression) => are_symbols_alike(first, second, expression),
        Reading::Names(names) => {
            if has_externals(operation, defines) {
                return are_names_alike(first, second, names.copied());
            }
            true
        }
        Reading::Unread => true,
        Reading::Bad => true,
        Reading::Instruction(_) => true,
        Reading::Data(_) => true,
        Reading::Con(_) => true,
        Reading::Vfd(_) => true,
        Reading::Text(_) => true,
        Reading::Use(_) => true,
    }
}
