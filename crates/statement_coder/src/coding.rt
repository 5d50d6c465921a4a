//! What a sized statement is once all names have their values: its fields, and all its letters.
ghost use Rattle.std.specs.Prelude.{◌≡◌, ◌≤◌, ◌+◌, ◌-◌, ◌^◌, [], List, IfOk, OnErr, true, false, min, nat_le, if◌then◌else◌};
ghost use Rattle.definitions.specs.Operands as operands;
ghost use Rattle.definitions.specs.Settled.{Settled};
ghost use Rattle.definitions.specs.Settling.{View};
ghost use Rattle.definitions.specs.StatementItems as definitions;
ghost use Rattle.definitions.specs.StatementItems.{items_of, operand_items};
ghost use Rattle.definitions.specs.declared.deck_kind.DeckKind as kinds;
ghost use Rattle.statement_coder.specs.declared.items.Item as fields;
ghost use Rattle.operations.specs.Joins.OperationsAs.{operation_as};
ghost use Rattle.statement_coder.specs.Joins.CodedItems.{AreTold, is_zeros, stores_zeros};
ghost use Rattle.statement_coder.specs.Joins.CodedReads.{AreCodedItems, AreCodedLetters};
ghost use Rattle.statement_coder.specs.Joins.Readings.{is_listed};
ghost use Rattle.statement_coder.specs.Joins.Sizings.{IsSizing};
ghost use Rattle.statement_coder.specs.declared.sizing.Sizing as sizings;

use crate::coded::{Coded, CodedItems};
use crate::entry_letters::entry_letters;
use crate::final_names::{FinalNames, FinalSymbols};
use crate::kept_sizing::KeptSizing;
use crate::operand_fields::{fields_told, take_back};
use crate::read_operands::ReadOperand;
use crate::{BlockBases, Item};
use operations::Operation;
use std::alloc::AllocError;
use work_meter::{Meter, count_coded};

/// The fields of a statement that stores those of its operand: none where it ends at its place.
fn within<'a>(sizing: &KeptSizing, items: CodedItems<'a>, list: &mut Vec<Item>) -> CodedItems<'a>
    ensures some { is_zeros items.entry ≡ false → is_zeros result ≡ false }
    ensures told { (kind : kinds.DeckKind) (operand : operands.Operand) (before : List fields.Item) (told : List definitions.Item) →
        AreTold kind operand sizing.now items.entry before list.old.items told →
        AreTold kind operand sizing.now result before list.new.items (if nat_le sizing.now.usual.end sizing.now.usual.place then [] else told) }
{
    if sizing.end() <= sizing.place() {
        take_back(items, list);
        CodedItems::Absent
    } else {
        items
    }
}

/// The zeros of a BSSZ.
fn zeros<'a>(items: CodedItems<'a>, list: &mut Vec<Item>) -> CodedItems<'a>
    ensures zeros { result ≡ CodedItems.Zeros }
    ensures list { (kind : kinds.DeckKind) (operand : operands.Operand) (sizing : sizings.Sizing) (before : List fields.Item) (told : List definitions.Item) →
        AreTold kind operand sizing items.entry before list.old.items told → list.new.items ≡ before }
{
    take_back(items, list);
    CodedItems::Zeros
}

/// The fields of a statement, where those of its operand are listed: BSSZ has zeros, and a statement
/// that ends at its place has none.
fn placed<'a>(
    operation: Operation,
    sizing: &KeptSizing,
    items: CodedItems<'a>,
    list: &mut Vec<Item>,
) -> CodedItems<'a>
    ensures zeros { is_zeros items.entry ≡ false → is_zeros result ≡ stores_zeros (operation_as operation) }
    ensures told { (kind : kinds.DeckKind) (view : View) (context : definitions.Context) (settled : Settled) (before : List fields.Item) → context.kind ≡ kind → IsSizing kind view settled sizing.now →
        AreTold kind settled.read.operand sizing.now items.entry before list.old.items (operand_items context settled settled.read.operand) →
        AreTold kind settled.read.operand sizing.now result before list.new.items (items_of context settled (operation_as operation)) }
{
    match operation {
        Operation::Bssz => zeros(items, list),
        _ => within(sizing, items, list),
    }
}

/// An operand that was read, coded.
fn coded<'a, S: FinalSymbols, B: BlockBases>(
    read: &ReadOperand<'_>,
    sizing: &KeptSizing,
    symbols: &S,
    bases: &B,
    list: &mut Vec<Item>,
    room: &'a mut [Item; 3],
) -> Result<Coded<'a>, AllocError>
    ensures items { IfOk result (λ coded. AreCodedItems read.now sizing.now (S.symbols symbols.now) (S.literals symbols.now) (B.rows bases.now) coded list.old.items list.new.items) }
    ensures letters { IfOk result (λ coded. AreCodedLetters read.now sizing.now (S.symbols symbols.now) (S.literals symbols.now) (B.rows bases.now) coded) }
    ensures zeros { IfOk result (λ coded. is_zeros coded.items ≡ stores_zeros (operation_as read.now.operation)) }
    ensures unchanged { OnErr result (list.new.items ≡ list.old.items) }
    ensures listed { OnErr result (is_listed read.now.reading ≡ true) }
{
    let kind = read.kind;
    let operation = read.operation;
    let names = FinalNames {
        symbols,
        kind,
        sizing,
    };
    let told = fields_told(kind, bases, &names, &read.reading, list, room)?;
    let entries = entry_letters(kind, operation, symbols, &read.reading);
    let letters = sizing.letters().union(&entries.union(&told.letters));
    Ok(Coded {
        items: placed(operation, sizing, told.items, list),
        letters,
    })
}

/// The fields of a sized statement whose operand was read, and all its letters, once all symbols and
/// literals have their values and all blocks their places, counted in the meter: exactly those of the
/// definitions. The fields of data are put at the end of the list, and they alone take memory; where
/// it runs out the list is as it was. The fields of an instruction stand in the room.
pub fn code<'a, S: FinalSymbols, B: BlockBases>(
    read: &ReadOperand<'_>,
    sizing: &KeptSizing,
    symbols: &S,
    bases: &B,
    list: &mut Vec<Item>,
    room: &'a mut [Item; 3],
    meter: &mut Meter,
) -> Result<Coded<'a>, AllocError>
    ensures items { IfOk result (λ coded. AreCodedItems read.now sizing.now (S.symbols symbols.now) (S.literals symbols.now) (B.rows bases.now) coded list.old.items list.new.items) }
    ensures letters { IfOk result (λ coded. AreCodedLetters read.now sizing.now (S.symbols symbols.now) (S.literals symbols.now) (B.rows bases.now) coded) }
    ensures zeros { IfOk result (λ coded. is_zeros coded.items ≡ stores_zeros (operation_as read.now.operation)) }
    ensures unchanged { OnErr result (list.new.items ≡ list.old.items) }
    ensures listed { OnErr result (is_listed read.now.reading ≡ true) }
    ensures coded { meter.new.coded ≡ min (meter.old.coded + 1) (2 ^ 64 - 1) }
    ensures rises { meter.old.coded ≤ meter.new.coded }
    ensures sized { meter.new.sized ≡ meter.old.sized }
{
    count_coded(meter);
    coded(read, sizing, symbols, bases, list, room)
}
