//! What a sized statement defines, taken into the table of symbols, and the externals among it
//! (COMPASS 60492600, location field, EQU, EXT).
ghost use Rattle.std.specs.Prelude.{◌≡◌, ◌≤◌, ◌∷◌, ◌++◌, [], length, is_some, if◌then◌else◌, OnOk};
ghost use Rattle.definitions.specs.Operands as operands;
ghost use Rattle.definitions.specs.Settling.{external};
ghost use Rattle.statement_coder.specs.Joins.Readings.{IsReading};
ghost use Rattle.statement_coder.specs.Joins.Sizings.{defines_in};
ghost use Rattle.deck_assembler.specs.Joins.FirstSymbols.{symbol_in, with_symbol, with_externals, with_names, with_defined};
ghost use Rattle.deck_assembler.specs.Joins.SharedNames.{with_new, with_new_by, with_new_of};

use crate::operand_names::names_of;
use crate::symbol_table::SymbolTable;
use definitions::DeckKind;
use expr_forms::{Form, LinkedNames, Name, Part, Relocation};
use statement_coder::{Defines, KeptSizing, Reading};
use std::alloc::AllocError;

/// The value of a name that EXT defines.
fn external(name: &[u8]) -> Form
    requires { length name.now ≤ 9 }
    ensures { result ≡ (external name.now).form }
{
    Form::new(0, Some(Part::Added(Relocation::External(Name::new(name)))))
}

/// Defines a name of an EXT, if it has no value yet: then it is an external.
fn define_external(
    symbols: &mut SymbolTable,
    externals: &mut Vec<Name>,
    name: &[u8],
) -> Result<(), AllocError>
    requires { length name.now ≤ 9 }
    ensures symbols { OnOk result (symbol_in symbols.new ≡ with_symbol name.now (external name.now).form (symbol_in symbols.old)) }
    ensures externals { OnOk result (externals.new.items ≡ (if is_some (symbol_in symbols.old name.now) then externals.old.items else externals.old.items ++ name.now ∷ [])) }
{
    if symbols.define(name, external(name))? {
        externals.push(Name::new(name))?;
    }
    Ok(())
}

/// Defines the names of an EXT that have no value yet. Some of them are defined where memory runs out.
#[inline(never)]
fn define_externals(
    symbols: &mut SymbolTable,
    externals: &mut Vec<Name>,
    names: LinkedNames<'_>,
) -> Result<(), AllocError>
    ensures symbols { OnOk result (symbol_in symbols.new ≡ with_externals names.entry (symbol_in symbols.old)) }
    ensures externals { OnOk result (externals.new.items ≡ with_new names.entry (symbol_in symbols.old) externals.old.items) }
{
    let mut rest = names;
    'names: loop {
        match rest.next() {
            None => return Ok(()),
            Some(None) => {}
            Some(Some(name)) => define_external(symbols, externals, name)?,
        }
    }
}

/// Defines the names of an operand, if it is that of an EXT.
fn define_names(
    symbols: &mut SymbolTable,
    externals: &mut Vec<Name>,
    reading: &Reading<'_>,
) -> Result<(), AllocError>
    ensures symbols { OnOk result ((operand : operands.Operand) → IsReading reading.now operand → symbol_in symbols.new ≡ with_names operand (symbol_in symbols.old)) }
    ensures externals { OnOk result ((operand : operands.Operand) → IsReading reading.now operand → externals.new.items ≡ with_new_of operand (symbol_in symbols.old) externals.old.items) }
{
    match names_of(reading) {
        None => Ok(()),
        Some(names) => define_externals(symbols, externals, names),
    }
}

/// Defines what a statement with this location field and this operand defines, and takes in the externals
/// among it. Some of it is defined where memory runs out.
pub(crate) fn define(
    symbols: &mut SymbolTable,
    externals: &mut Vec<Name>,
    location: &[u8],
    reading: &Reading<'_>,
    defines: Defines,
) -> Result<(), AllocError>
    ensures symbols { OnOk result ((operand : operands.Operand) → IsReading reading.now operand →
        symbol_in symbols.new ≡ with_defined location.now operand defines (symbol_in symbols.old)) }
    ensures externals { OnOk result ((operand : operands.Operand) → IsReading reading.now operand →
        externals.new.items ≡ with_new_by operand defines (symbol_in symbols.old) externals.old.items) }
{
    match defines {
        Defines::Nothing => Ok(()),
        Defines::Symbol(form) => {
            symbols.define(location, form)?;
            Ok(())
        }
        Defines::Externals => define_names(symbols, externals, reading),
    }
}

/// Takes in the symbol of its location field that a sized statement of a deck of this kind defines, if it
/// defines one: without a location field it does not.
pub(crate) fn define_own(
    symbols: &mut SymbolTable,
    kind: DeckKind,
    location: &[u8],
    sizing: &KeptSizing,
) -> Result<(), AllocError>
    ensures { OnOk result (symbol_in symbols.new ≡ with_defined location.now operands.Unread (defines_in kind sizing.now) (symbol_in symbols.old)) }
{
    if location.is_empty() {
        return Ok(());
    }
    match sizing.defines(kind) {
        Defines::Nothing => Ok(()),
        Defines::Symbol(form) => {
            symbols.define(location, form)?;
            Ok(())
        }
        Defines::Externals => Ok(()),
    }
}
