//! The fields of an operand: those of an instruction, or a list of them (6600 reference 60100000,
//! instruction formats; COMPASS 60492600, data generation).
ghost use Rattle.std.specs.Prelude.{◌≡◌, ◌≤◌, ◌-◌, [], ℕ, List, IfOk, OnErr, true, false, drop, length, map};
ghost use Rattle.definitions.specs.Letters.{in_order};
ghost use Rattle.definitions.specs.Operands as operands;
ghost use Rattle.definitions.specs.Settled.{Settled};
ghost use Rattle.definitions.specs.StatementItems as definitions;
ghost use Rattle.definitions.specs.StatementItems.{operand_items};
ghost use Rattle.definitions.specs.declared.deck_kind.DeckKind as kinds;
ghost use Rattle.statement_coder.specs.Joins.Items.{AreSeen, deck_with, item_as};
ghost use Rattle.statement_coder.specs.declared.items.Item as fields;
ghost use Rattle.statement_coder.specs.Joins.CodedItems.{AreCoded, AreTold, IsKept, is_zeros};
ghost use Rattle.statement_coder.specs.Joins.FieldLetters.{field_letters};
ghost use Rattle.statement_coder.specs.Joins.Readings.{IsReading, IsWhole, is_listed};
ghost use Rattle.statement_coder.specs.declared.sizing.Sizing as sizings;

use crate::coded::{Coded, CodedItems};
use crate::data_items::{push_bits, push_con, push_data};
use crate::instruction_fields::instruction_fields;
use crate::item_letters::list_letters;
use crate::listing::push_text;
use crate::readings::Reading;
use crate::{BlockBases, Item};
use definitions::DeckKind;
use expr_forms::Names;
use operations::Letters;
use std::alloc::AllocError;

/// What was put behind the old end of a list, with its letters.
fn listed<'a>(before: usize, list: &Vec<Item>) -> Coded<'a>
    requires { before ≤ length list.now.items }
    ensures items { result.items ≡ CodedItems.Listed (length list.now.items - before) }
    ensures letters { result.letters ≡ in_order (field_letters (map item_as (drop before list.now.items))) }
{
    Coded {
        items: CodedItems::Listed(list.len() - before),
        letters: list_letters(list.as_slice().split_at(before).1),
    }
}

/// No fields.
fn absent<'a>() -> Coded<'a>
    ensures { result ≡ record { items = CodedItems.Absent; letters = in_order [] } }
{
    Coded {
        items: CodedItems::Absent,
        letters: Letters::none(),
    }
}

/// The fields of an operand and their letters; those that are no instruction's are put at the end of a
/// list.
#[inline(always)]
fn operand_fields<'a, B: BlockBases, N: Names>(
    kind: DeckKind,
    bases: &B,
    names: &N,
    reading: &Reading<'_>,
    list: &mut Vec<Item>,
    room: &'a mut [Item; 3],
) -> Result<Coded<'a>, AllocError>
    requires { IsWhole kind reading.now }
    ensures kept { IsKept list.old.items list.new.items }
    ensures told { IfOk result (λ coded. (settled : List Settled) (literals : List ℕ) (statement : Settled) (operand : operands.Operand) (sizing : sizings.Sizing) →
        let context = deck_with kind (B.rows bases.now) settled literals in
        AreSeen (N.names names.now) context statement → IsReading reading.now operand →
        AreCoded kind operand sizing coded list.old.items list.new.items (operand_items context statement operand)) }
    ensures some { IfOk result (λ coded. is_zeros coded.items ≡ false) }
    ensures listed { OnErr result (is_listed reading.now ≡ true) }
{
    let before = list.len();
    match reading {
        Reading::Instruction(shape) => Ok(instruction_fields(kind, bases, names, shape, room)),
        Reading::Data(words) => {
            push_data(kind, bases, names, words.copied(), list)?;
            Ok(listed(before, list))
        }
        Reading::Con(words) => {
            push_con(kind, bases, names, words.copied(), list)?;
            Ok(listed(before, list))
        }
        Reading::Vfd(fields) => {
            push_bits(kind, bases, names, fields.copied(), list)?;
            Ok(listed(before, list))
        }
        Reading::Text(text) => {
            push_text(kind, text, list)?;
            Ok(listed(before, list))
        }
        _ => Ok(absent()),
    }
}

/// The fields of an operand and their letters; those that are no instruction's are put at the end of a
/// list, which is as it was where memory runs out.
pub(crate) fn fields_told<'a, B: BlockBases, N: Names>(
    kind: DeckKind,
    bases: &B,
    names: &N,
    reading: &Reading<'_>,
    list: &mut Vec<Item>,
    room: &'a mut [Item; 3],
) -> Result<Coded<'a>, AllocError>
    requires { IsWhole kind reading.now }
    ensures told { IfOk result (λ coded. (settled : List Settled) (literals : List ℕ) (statement : Settled) (operand : operands.Operand) (sizing : sizings.Sizing) →
        let context = deck_with kind (B.rows bases.now) settled literals in
        AreSeen (N.names names.now) context statement → IsReading reading.now operand →
        AreCoded kind operand sizing coded list.old.items list.new.items (operand_items context statement operand)) }
    ensures some { IfOk result (λ coded. is_zeros coded.items ≡ false) }
    ensures listed { OnErr result (is_listed reading.now ≡ true) }
    ensures unchanged { OnErr result (list.new.items ≡ list.old.items) }
{
    let before = list.len();
    match operand_fields(kind, bases, names, reading, list, room) {
        Ok(coded) => Ok(coded),
        Err(fault) => {
            list.truncate(before);
            Err(fault)
        }
    }
}

/// Takes what was listed off the end of the list.
pub(crate) fn take_back(items: CodedItems<'_>, list: &mut Vec<Item>)
    ensures { (kind : kinds.DeckKind) (operand : operands.Operand) (sizing : sizings.Sizing) (before : List fields.Item) (told : List definitions.Item) →
        AreTold kind operand sizing items.entry before list.old.items told → list.new.items ≡ before }
{
    match items {
        CodedItems::Absent => {}
        CodedItems::Instruction(_) => {}
        CodedItems::Listed(count) => list.truncate(list.len().saturating_sub(count)),
        CodedItems::Zeros => {}
    }
}
