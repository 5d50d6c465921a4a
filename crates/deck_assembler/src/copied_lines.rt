//! The line that a statement has in one object, taken over into another.
ghost use Rattle.std.specs.Prelude.{◌≡◌, ◌≤◌, ◌+◌, ◌-◌, ◌++◌, IfOk, OnOk, List, length, slice_get, take, drop};
ghost use Rattle.definitions.specs.Lengths.{BlockRow};
ghost use Rattle.definitions.specs.Words as words;
ghost use Rattle.definitions.specs.declared.deck_kind.DeckKind.{DeckKind};
ghost use Rattle.deck_objects.specs.Joins.CodedLines.{IsCoded, IsNamed};
ghost use Rattle.deck_assembler.specs.Joins.CopiedFields.{AreCopied, AreListedAlike};
ghost use Rattle.deck_assembler.specs.Joins.KeptFields.{AreKeptOn, BeginsWith};

use deck_objects::{CodedLine, FieldLists, LineFields};
use statement_coder::Item;
use std::alloc::AllocError;

/// So many of a list from one on, where it has them.
fn some_of<T>(list: &[T], first: u32, count: u32) -> &[T]
    ensures { first + count ≤ length list.now → result.now ≡ take count (drop first list.now) }
{
    let behind = list.split_at(list.len().min(first as usize)).1;
    behind.split_at(behind.len().min(count as usize)).0
}

/// An index or a count as a line has it. One of more than 32 bits is taken as memory that ran out: a
/// list that long has none.
fn index(number: usize) -> Result<u32, AllocError>
    ensures { IfOk result (λ index. index ≡ number) }
{
    match u32::try_from(number) {
        Ok(index) => Ok(index),
        Err(_) => Err(AllocError),
    }
}

/// So many fields of a list from one on.
pub(crate) fn listed_from(first: usize, count: usize) -> Result<LineFields, AllocError>
    ensures { IfOk result (λ fields. fields ≡ LineFields.Listed first count) }
{
    let first = index(first)?;
    let count = index(count)?;
    Ok(LineFields::Listed { first, count })
}

/// So many words of a list from one on.
pub(crate) fn words_from(first: usize, count: usize) -> Result<LineFields, AllocError>
    ensures { IfOk result (λ fields. fields ≡ LineFields.Words first count) }
{
    let first = index(first)?;
    let count = index(count)?;
    Ok(LineFields::Words { first, count })
}

/// Some fields, put at the end of a list.
pub(crate) fn put_listed(items: &mut Vec<Item>, others: &[Item]) -> Result<LineFields, AllocError>
    ensures kept { BeginsWith items.old.items items.new.items }
    ensures put { OnOk result (items.new.items ≡ items.old.items ++ others.now) }
    ensures listed { IfOk result (λ fields. fields ≡ LineFields.Listed (length items.old.items) (length others.now)) }
{
    let first = items.len();
    items.extend_from_slice(others)?;
    listed_from(first, others.len())
}

/// The fields that a line has listed among these, put at the end of a list.
fn copied_list(
    first: u32,
    count: u32,
    others: &[Item],
    items: &mut Vec<Item>,
) -> Result<LineFields, AllocError>
    ensures kept { BeginsWith items.old.items items.new.items }
    ensures copied { IfOk result (λ copied. AreListedAlike LineFields.Listed others.now first count copied items.new.items) }
{
    let fields = put_listed(items, some_of(others, first, count))?;
    Ok(fields)
}

/// The words that a line has listed among these, put at the end of a list.
fn copied_words(
    first: u32,
    count: u32,
    others: &[u64],
    words: &mut Vec<u64>,
) -> Result<LineFields, AllocError>
    ensures kept { BeginsWith words.old.items words.new.items }
    ensures copied { IfOk result (λ copied. AreListedAlike LineFields.Words others.now first count copied words.new.items) }
{
    let before = words.len();
    let some = some_of(others, first, count);
    words.extend_from_slice(some)?;
    let fields = words_from(before, some.len())?;
    Ok(fields)
}

/// What a line keeps of its fields, of which these are listed elsewhere.
fn copied_fields(
    fields: LineFields,
    others: &FieldLists,
    lists: &mut FieldLists,
) -> Result<LineFields, AllocError>
    ensures kept { AreKeptOn lists.old lists.new }
    ensures copied { IfOk result (λ copied. AreCopied fields others.now copied lists.new) }
{
    match fields {
        LineFields::Absent => Ok(LineFields::Absent),
        LineFields::Known(bits) => Ok(LineFields::Known(bits)),
        LineFields::Words { first, count } => {
            copied_words(first, count, others.words.as_slice(), &mut lists.words)
        }
        LineFields::Listed { first, count } => {
            copied_list(first, count, others.items.as_slice(), &mut lists.items)
        }
        LineFields::Zeros => Ok(LineFields::Zeros),
    }
}

/// The line that a statement has in another object, whose fields are listed there, in a block that has
/// this index here.
pub(crate) fn copied_line(
    line: &CodedLine,
    block: u32,
    others: &FieldLists,
    lists: &mut FieldLists,
) -> Result<CodedLine, AllocError>
    ensures kept { AreKeptOn lists.old lists.new }
    ensures line { IfOk result (λ copied. (kind : DeckKind) (old_rows rows : List BlockRow) (coded : words.Coded) →
        IsCoded kind old_rows others.now line.now coded → IsNamed (slice_get rows block) coded.settled.block →
        IsCoded kind rows lists.new copied coded) }
{
    let fields = copied_fields(line.fields, others, lists)?;
    Ok(CodedLine {
        operation: line.operation,
        block,
        place: line.place,
        end: line.end,
        begins_run: line.begins_run,
        fields,
    })
}
