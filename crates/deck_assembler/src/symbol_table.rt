//! The symbols of a deck, each with the value of its first definition (COMPASS 60492600, location
//! field, EQU, EXT).
ghost use Rattle.std.specs.Prelude.{◌≡◌, ℕ, ◌==◌, nat_eq, not, is_some, true, Some, None, IfOk, OnOk, OnErr, if◌then◌else◌};
ghost use Rattle.std.specs.Map.{lookup};
ghost use Rattle.std.specs.Option.{option_or};
ghost use Rattle.deck_assembler.specs.Joins.FirstSymbols.{symbol_in, with_symbol};

use crate::symbol_key::SymbolKey;
use expr_forms::Form;
use indexmap::IndexMap;
use indexmap::map::Entry;
use statement_coder::EarlySymbols;
use std::alloc::{AllocError, Global};
use std::hash::RandomState;
use std::marker::Model;
use use_blocks::is_same_form;

/// The values of symbols by name, in the order in which they were defined. Contracts see each name as a
/// number with its value. A look-up takes about as long whatever the names are, since their places in the
/// table go by keys that nobody knows.
#[derive(Drop)]
pub struct SymbolTable {
    forms: Forms,
}

/// The value of each name, which is a number here.
type Forms = IndexMap<u64, Form, RandomState>;

impl Model for SymbolTable {
    ghost use Rattle.std.specs.Prelude.{ℕ, List};
    ghost use Rattle.definitions.specs.Forms.{Form};

    ghost Value = { List (ℕ × Form) };

    ghost view = { λ t. t.forms.entries };
}

impl SymbolTable {
    /// No symbols, in a table that is kept by these keys.
    pub fn new(alloc: Global, keys: RandomState) -> SymbolTable
        ensures { symbol_in result ≡ (λ name. None) }
    {
        SymbolTable {
            forms: IndexMap::with_hasher(alloc, keys),
        }
    }

    /// The keys by which the table is kept.
    pub(crate) fn keys(&self) -> RandomState {
        *self.forms.hasher()
    }

    /// A copy.
    pub(crate) fn copy(&self) -> Result<SymbolTable, AllocError>
        ensures { IfOk result (λ table. table ≡ self.now) }
    {
        let forms = self.forms.clone()?;
        Ok(SymbolTable { forms })
    }

    /// The value of a symbol, if it is defined; most statements have none.
    #[inline(always)]
    pub fn value(&self, name: &[u8]) -> Option<Form>
        ensures { result ≡ symbol_in self.now name.now }
    {
        if name.is_empty() {
            None
        } else {
            self.found(name)
        }
    }

    /// The same of a text with characters.
    #[inline(never)]
    fn found(&self, name: &[u8]) -> Option<Form>
        ensures { result ≡ symbol_in self.now name.now }
    {
        match SymbolKey::of(name) {
            None => None,
            Some(name) => self.forms.get(&name.code).copied(),
        }
    }

    /// Whether both have the same names in the same order, each with the same value.
    pub(crate) fn is_same(&self, other: &SymbolTable) -> bool
        ensures { result ≡ true → self.now ≡ other.now }
    {
        are_entries_same(&self.forms, &other.forms)
    }

    /// Defines a symbol, if the text is a name that has no value yet, and returns whether it had none.
    /// Without memory the symbols are as before.
    pub fn define(&mut self, name: &[u8], form: Form) -> Result<bool, AllocError>
        ensures defined { OnOk result (symbol_in self.new ≡ with_symbol name.now form (symbol_in self.old)) }
        ensures first { IfOk result (λ first. first ≡ not (is_some (symbol_in self.old name.now))) }
        ensures without_memory { OnErr result (self.new ≡ self.old) }
    {
        match SymbolKey::of(name) {
            None => Ok(true),
            Some(name) => keep(&mut self.forms, name.code, form),
        }
    }
}

/// Gives a name its value, unless it has one, and returns whether it had none. Without memory all is as
/// before.
fn keep(forms: &mut Forms, code: u64, form: Form) -> Result<bool, AllocError>
    ensures kept { OnOk result ((other : ℕ) → lookup (nat_eq other) forms.new.entries ≡ option_or (lookup (nat_eq other) forms.old.entries) (if other == code then Some form else None)) }
    ensures first { IfOk result (λ first. first ≡ not (is_some (lookup (nat_eq code) forms.old.entries))) }
    ensures without_memory { OnErr result (forms.new.entries ≡ forms.old.entries) }
{
    match forms.entry(code)? {
        Entry::Occupied(_) => Ok(false),
        Entry::Vacant(place) => {
            place.insert(form);
            Ok(true)
        }
    }
}

/// Whether two entries have one name and one value.
fn is_entry_same(entry: (&u64, &Form), other: (&u64, &Form)) -> bool
    ensures { result ≡ true → (entry.entry.0.now ≡ other.entry.0.now) × (entry.entry.1.now ≡ other.entry.1.now) }
{
    *entry.0 == *other.0 && is_same_form(*entry.1, *other.1)
}

/// Whether two maps have the same entries: they are looked at in order, up to the first that differ.
fn are_entries_same(forms: &Forms, others: &Forms) -> bool
    ensures { result ≡ true → forms.now.entries ≡ others.now.entries }
{
    let mut left = forms.iter();
    let mut other = others.iter();
    'entries: loop {
        match (left.next(), other.next()) {
            (None, None) => return true,
            (None, Some(_)) => return false,
            (Some(_), None) => return false,
            (Some(entry), Some(found)) => {
                if !is_entry_same(entry, found) {
                    return false;
                }
            }
        }
    }
}

impl EarlySymbols for SymbolTable {
    ghost use Rattle.deck_assembler.specs.Joins.FirstSymbols.{symbol_in};

    ghost view = { λ symbols. symbol_in symbols };

    fn symbol(&self, name: &[u8]) -> Option<Form> {
        self.value(name)
    }
}
