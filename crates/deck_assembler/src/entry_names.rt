//! The names that a deck enters, each once, in the order in which its ENTRY statements have them
//! (COMPASS 60492600, ENTRY).
ghost use Rattle.std.specs.Prelude.{◌≡◌, ◌≤◌, ◌∷◌, [], List, IfOk, OnOk, OnErr, Some, None, true, length, if◌then◌else◌};
ghost use Rattle.definitions.specs.Entries.{entry_fault, entries_by, with_entry, with_entries};
ghost use Rattle.definitions.specs.Operands as operands;
ghost use Rattle.definitions.specs.Operations as op;
ghost use Rattle.definitions.specs.Settled.{Settled, defined};
ghost use Rattle.definitions.specs.declared.letter.Letter.TheVariants as letter;
ghost use Rattle.statement_coder.specs.Joins.Readings.{IsReading};
ghost use Rattle.deck_assembler.specs.Joins.FirstSymbols.{is_known_name, symbol_in};
ghost use Rattle.deck_assembler.specs.Joins.SharedNames.{with_row};

use crate::SymbolTable;
use crate::operand_names::names_of;
use crate::symbol_key::SymbolKey;
use deck_objects::Entry;
use expr_forms::{Form, LinkedNames, Name, Part, Relocation};
use indexmap::IndexMap;
use statement_coder::Reading;
use std::alloc::{AllocError, Global};
use std::hash::RandomState;
use std::marker::Model;

/// The entry of each name, which is a number here.
type Entries = IndexMap<u64, Entry, RandomState>;

/// The entries so far, no name twice. Contracts see their list, in the order in which they were entered.
#[derive(Drop)]
pub(crate) struct EntryNames {
    entries: Entries,
}

impl Model for EntryNames {
    ghost use Rattle.std.specs.Prelude.{List};
    ghost use Rattle.std.specs.Map.{values_of};
    ghost use Rattle.definitions.specs.Settled.{Definition};
    ghost use Rattle.deck_assembler.specs.Joins.SharedNames.{IsEntryTable};

    ghost Value = { List Definition };

    ghost view = { λ n. values_of n.entries.entries };

    ghost invariant = { λ n. IsEntryTable n.entries.entries };
}

/// Whether a name with this value may be entered: an external may not, nor a block that is
/// subtracted.
fn may_enter(form: Form) -> bool
    ensures { entry_fault (Some form) ≡ (if result then [] else letter.R ∷ []) }
{
    match form.part() {
        None => true,
        Some(Part::Added(Relocation::Block(_))) => true,
        Some(Part::Added(Relocation::External(_))) => false,
        Some(Part::Subtracted(_)) => false,
    }
}

/// Puts an entry behind the others, unless its name is there. Without memory all is as before.
fn keep_entry(entries: &mut Entries, code: u64, entry: Entry) -> Result<(), AllocError>
    ensures kept { OnOk result (entries.new.entries ≡ with_row code entry entries.old.entries) }
    ensures without_memory { OnErr result (entries.new.entries ≡ entries.old.entries) }
{
    if entries.contains_key(&code) {
        return Ok(());
    }
    entries.insert(code, entry)?;
    Ok(())
}

impl EntryNames {
    /// No entries, in a table that is kept by these keys.
    pub(crate) fn new(alloc: Global, keys: RandomState) -> EntryNames
        ensures { result ≡ [] }
    {
        EntryNames {
            entries: IndexMap::with_hasher(alloc, keys),
        }
    }

    /// The entries.
    pub(crate) fn into_entries(self, alloc: Global) -> Result<Vec<Entry>, AllocError>
        ensures { IfOk result (λ entries. entries.items ≡ self) }
    {
        self.entries.into_values().collect(alloc)
    }

    /// Enters a name with its value, unless it is entered.
    fn enter(&mut self, name: &[u8], form: Form) -> Result<(), AllocError>
        requires known { is_known_name name.now ≡ true }
        requires short { length name.now ≤ 9 }
        ensures { OnOk result (self.new ≡ with_entry name.now [] (Some form) self.old) }
    {
        match SymbolKey::of(name) {
            None => Ok(()),
            Some(key) => keep_entry(
                &mut self.entries,
                key.code,
                Entry::new(Name::new(name), form),
            ),
        }
    }

    /// Enters a name, where it has a value that may be entered.
    fn enter_name(&mut self, symbols: &SymbolTable, name: &[u8]) -> Result<(), AllocError>
        requires short { length name.now ≤ 9 }
        ensures { OnOk result ((settled : List Settled) → symbol_in symbols.now ≡ (λ name. defined name settled) →
            self.new ≡ with_entry name.now (entry_fault (defined name.now settled)) (defined name.now settled) self.old) }
    {
        match symbols.value(name) {
            None => Ok(()),
            Some(form) => {
                if may_enter(form) {
                    self.enter(name, form)
                } else {
                    Ok(())
                }
            }
        }
    }

    /// Enters the good ones of some names.
    fn enter_all(&mut self, symbols: &SymbolTable, names: LinkedNames<'_>) -> Result<(), AllocError>
        ensures { OnOk result ((settled : List Settled) → symbol_in symbols.now ≡ (λ name. defined name settled) → self.new ≡ with_entries settled names.entry self.old) }
    {
        let mut rest = names;
        'names: loop {
            match rest.next() {
                None => return Ok(()),
                Some(None) => {}
                Some(Some(name)) => self.enter_name(symbols, name)?,
            }
        }
    }

    /// Enters the names of an ENTRY's operand.
    pub(crate) fn enter_operand(
        &mut self,
        symbols: &SymbolTable,
        reading: &Reading<'_>,
    ) -> Result<(), AllocError>
        ensures { OnOk result ((settled : List Settled) (operand : operands.Operand) → symbol_in symbols.now ≡ (λ name. defined name settled) → IsReading reading.now operand →
            self.new ≡ entries_by settled op.Entry operand self.old) }
    {
        match names_of(reading) {
            None => Ok(()),
            Some(names) => self.enter_all(symbols, names),
        }
    }
}
