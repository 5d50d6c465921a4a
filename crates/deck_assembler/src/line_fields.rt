//! The fields that a line keeps of a coded statement: as one number or as words where that can be, else
//! listed behind those of the lines before it.
ghost use Rattle.std.specs.Prelude.{◌≡◌, ◌≤◌, List, IfOk, IfSome, OnOk, OnErr, false, length, map, true};
ghost use Rattle.definitions.specs.Operands.{Operand};
ghost use Rattle.definitions.specs.StatementItems as definitions;
ghost use Rattle.definitions.specs.StatementItems.{known};
ghost use Rattle.definitions.specs.declared.deck_kind.DeckKind.{DeckKind};
ghost use Rattle.statement_coder.specs.Joins.Items.{item_as};
ghost use Rattle.statement_coder.specs.Joins.WordItems.{listed_fields};
ghost use Rattle.statement_coder.specs.declared.items.Item as fields;
ghost use Rattle.statement_coder.specs.Joins.CodedItems.{AreTold, IsKept, is_zeros};
ghost use Rattle.statement_coder.specs.declared.sizing.Sizing as sizings;
ghost use Rattle.deck_assembler.specs.Joins.KeptFields.{AreKeptAs, ArePut, AreUnchanged, BeginsWith, are_zeros};

use crate::copied_lines::{listed_from, put_listed, words_from};
use crate::known_bits::listed_bits;
use deck_objects::{FieldLists, LineBits, LineFields};
use definitions::DeckKind;
use statement_coder::{CodedItems, Content, Item};
use std::alloc::AllocError;

/// The fields of an instruction, put at the end of a list, which is as it was where memory runs out.
#[inline(never)]
fn linked_fields(instruction: &[Item], items: &mut Vec<Item>) -> Result<LineFields, AllocError>
    ensures kept { IfOk result (λ kept. (kind : DeckKind) (operand : Operand) (sizing : sizings.Sizing) (lists : FieldLists) (told : List definitions.Item) →
        map item_as instruction.now ≡ told → listed_fields kind operand told ≡ told → lists.items.items ≡ items.new.items → AreKeptAs kind operand sizing kept lists told) }
    ensures zeros { IfOk result (λ kept. are_zeros kept ≡ false) }
    ensures before { OnOk result (IsKept items.old.items items.new.items) }
    ensures unchanged { OnErr result (items.new.items ≡ items.old.items) }
{
    let before = items.len();
    match put_listed(items, instruction) {
        Ok(kept) => Ok(kept),
        Err(fault) => {
            items.truncate(before);
            Err(fault)
        }
    }
}

/// The fields of an instruction: one number, where none is left to the link.
fn instruction_fields(instruction: &[Item], items: &mut Vec<Item>) -> Result<LineFields, AllocError>
    ensures kept { IfOk result (λ kept. (kind : DeckKind) (operand : Operand) (sizing : sizings.Sizing) (lists : FieldLists) (told : List definitions.Item) →
        map item_as instruction.now ≡ told → listed_fields kind operand told ≡ told → lists.items.items ≡ items.new.items → AreKeptAs kind operand sizing kept lists told) }
    ensures zeros { IfOk result (λ kept. are_zeros kept ≡ false) }
    ensures before { OnOk result (IsKept items.old.items items.new.items) }
    ensures unchanged { OnErr result (items.new.items ≡ items.old.items) }
{
    match listed_bits(instruction) {
        Some(bits) => Ok(LineFields::Known(LineBits::new(bits))),
        None => linked_fields(instruction, items),
    }
}

/// The word that a field is: its bits are known, it is as wide as a word, and no letter flags it.
#[inline(always)]
fn word_in(width: u32, item: &Item) -> Option<u64>
    ensures { IfSome result (λ bits. item_as item.now ≡ known width bits) }
{
    match (item.content, item.letter) {
        (Content::Known(bits), None) if item.width == width => Some(bits),
        _ => None,
    }
}

/// The words that fields are, put at the end of a list, as far as they are words.
fn push_words(width: u32, items: &[Item], words: &mut Vec<u64>) -> Result<bool, AllocError>
    ensures kept { BeginsWith words.old.items words.new.items }
    ensures put { IfOk result (λ all. all ≡ true → ArePut width (map item_as items.now) words.old.items words.new.items) }
{
    for item in items {
        let Some(bits) = word_in(width, item) else {
            return Ok(false);
        };
        words.push(bits)?;
    }
    Ok(true)
}

/// The words that fields are, two or more, put at the end of a list; where one is no word, or memory
/// runs out, the list is as it was.
fn put_words(width: u32, items: &[Item], words: &mut Vec<u64>) -> Result<bool, AllocError>
    ensures put { IfOk result (λ all. all ≡ true → ArePut width (map item_as items.now) words.old.items words.new.items) }
    ensures several { IfOk result (λ all. all ≡ true → 2 ≤ length items.now) }
    ensures none { IfOk result (λ all. all ≡ false → words.new.items ≡ words.old.items) }
    ensures unchanged { OnErr result (words.new.items ≡ words.old.items) }
{
    if items.len() < 2 {
        return Ok(false);
    }
    let before = words.len();
    let put = push_words(width, items, words);
    if !matches!(put, Ok(true)) {
        words.truncate(before);
    }
    put
}

/// So many fields at the end of a list: one number or words, where that can be, and then the list has them
/// no more.
fn list_fields(
    kind: DeckKind,
    count: usize,
    lists: &mut FieldLists,
) -> Result<LineFields, AllocError>
    ensures kept { IfOk result (λ kept. (operand : Operand) (sizing : sizings.Sizing) (before : List fields.Item) (told : List definitions.Item) →
        AreTold kind operand sizing (CodedItems.Listed count) before lists.old.items.items told → AreKeptAs kind operand sizing kept lists.new told) }
    ensures zeros { IfOk result (λ kept. are_zeros kept ≡ false) }
    ensures before { OnOk result ((operand : Operand) (sizing : sizings.Sizing) (before : List fields.Item) (told : List definitions.Item) →
        AreTold kind operand sizing (CodedItems.Listed count) before lists.old.items.items told → IsKept before lists.new.items.items) }
    ensures words { BeginsWith lists.old.words.items lists.new.words.items }
    ensures unchanged { OnErr result (AreUnchanged lists.old lists.new) }
{
    let first = lists.items.len().saturating_sub(count);
    let (_, own) = lists.items.as_slice().split_at(first);
    if let Some(bits) = listed_bits(own) {
        lists.items.truncate(first);
        return Ok(LineFields::Known(LineBits::new(bits)));
    }
    let words = words_from(lists.words.len(), own.len())?;
    if put_words(kind.word_bits(), own, &mut lists.words)? {
        lists.items.truncate(first);
        return Ok(words);
    }
    listed_from(first, own.len())
}

/// What a line keeps of the fields that are listed of its statement. The lists have what they had before
/// the statement, and behind that what the line has listed; where memory runs out they are as they were.
pub(crate) fn line_fields(
    kind: DeckKind,
    told: CodedItems<'_>,
    lists: &mut FieldLists,
) -> Result<LineFields, AllocError>
    ensures kept { IfOk result (λ kept. (operand : Operand) (sizing : sizings.Sizing) (before : List fields.Item) (fields : List definitions.Item) →
        AreTold kind operand sizing told.entry before lists.old.items.items fields → AreKeptAs kind operand sizing kept lists.new fields) }
    ensures zeros { IfOk result (λ kept. are_zeros kept ≡ is_zeros told.entry) }
    ensures before { OnOk result ((operand : Operand) (sizing : sizings.Sizing) (before : List fields.Item) (fields : List definitions.Item) →
        AreTold kind operand sizing told.entry before lists.old.items.items fields → IsKept before lists.new.items.items) }
    ensures words { BeginsWith lists.old.words.items lists.new.words.items }
    ensures unchanged { OnErr result (AreUnchanged lists.old lists.new) }
{
    match told {
        CodedItems::Absent => Ok(LineFields::Absent),
        CodedItems::Instruction(instruction) => instruction_fields(instruction, &mut lists.items),
        CodedItems::Listed(count) => list_fields(kind, count, lists),
        CodedItems::Zeros => Ok(LineFields::Zeros),
    }
}
