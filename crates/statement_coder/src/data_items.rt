//! The fields of DATA, CON and VFD, put behind a list (COMPASS 60492600, data generation).
ghost use Rattle.std.specs.Prelude.{◌≡◌, ◌++◌, List, ℕ, OnOk, flat_map, map};
ghost use Rattle.definitions.specs.Kinds.{word_bits};
ghost use Rattle.definitions.specs.Operands.{WordsOperand, BitsOperand};
ghost use Rattle.definitions.specs.Settled.{Settled};
ghost use Rattle.definitions.specs.StatementItems.{datum_item, operand_items};
ghost use Rattle.expr_forms.specs.Joins.Readings.{datum_as};
ghost use Rattle.statement_coder.specs.Joins.Items.{AreSeen, deck_with, item_as};
ghost use Rattle.statement_coder.specs.Joins.CodedItems.{IsKept};
ghost use Rattle.statement_coder.specs.Joins.WordItems.{in_words};

use crate::items::{number_item, zeros_to_word};
use crate::listing::{known_word, push, push_item};
use crate::values::{bit_field_item, expression_item};
use crate::{BlockBases, Item};
use definitions::DeckKind;
use expr_forms::{BitFields, ConWords, CountedItem, DataWords, Datum, Names, Sign};
use std::alloc::AllocError;

/// Puts the words of a subfield of DATA or CON at the end of a list.
fn push_datum<B: BlockBases, N: Names>(
    kind: DeckKind,
    bases: &B,
    names: &N,
    datum: &Datum<'_>,
    list: &mut Vec<Item>,
) -> Result<(), AllocError>
    ensures kept { IsKept list.old.items list.new.items }
    ensures pushed { OnOk result ((settled : List Settled) (literals : List ℕ) (statement : Settled) →
        let context = deck_with kind (B.rows bases.now) settled literals in
        AreSeen (N.names names.now) context statement →
        map item_as list.new.items ≡ map item_as list.old.items ++ in_words (word_bits kind) (datum_item context statement (datum_as datum.now))) }
{
    let word = kind.word_bits();
    match datum {
        Datum::Zero => push(list, known_word(kind, 0)),
        Datum::Number(sign, number) => push(list, number_item(word, *sign, *number)),
        Datum::Item(item) => push_item(kind, &CountedItem::of_text(*item), list),
        Datum::Expression(expression) => {
            push(list, expression_item(kind, bases, names, word, expression))
        }
    }
}

/// Puts the words of a DATA at the end of a list. Of what is not digits alone a copy is asked, so that the
/// place in the text need not lie in memory.
pub(crate) fn push_data<B: BlockBases, N: Names>(
    kind: DeckKind,
    bases: &B,
    names: &N,
    words: DataWords<'_>,
    list: &mut Vec<Item>,
) -> Result<(), AllocError>
    ensures kept { IsKept list.old.items list.new.items }
    ensures pushed { OnOk result ((settled : List Settled) (literals : List ℕ) (statement : Settled) →
        let context = deck_with kind (B.rows bases.now) settled literals in
        AreSeen (N.names names.now) context statement →
        map item_as list.new.items ≡ map item_as list.old.items ++ flat_map (in_words (word_bits kind)) (operand_items context statement (WordsOperand words.entry))) }
{
    let mut rest = words;
    'words: loop {
        match rest.next_number() {
            Some(number) => push(list, number_item(kind.word_bits(), Sign::Absent, number))?,
            None => {
                let mut behind = rest.copied();
                match behind.next() {
                    None => return Ok(()),
                    Some(datum) => push_datum(kind, bases, names, &datum, list)?,
                }
                rest = behind;
            }
        }
    }
}

/// Puts the words of a CON at the end of a list.
pub(crate) fn push_con<B: BlockBases, N: Names>(
    kind: DeckKind,
    bases: &B,
    names: &N,
    words: ConWords<'_>,
    list: &mut Vec<Item>,
) -> Result<(), AllocError>
    ensures kept { IsKept list.old.items list.new.items }
    ensures pushed { OnOk result ((settled : List Settled) (literals : List ℕ) (statement : Settled) →
        let context = deck_with kind (B.rows bases.now) settled literals in
        AreSeen (N.names names.now) context statement →
        map item_as list.new.items ≡ map item_as list.old.items ++ flat_map (in_words (word_bits kind)) (operand_items context statement (WordsOperand words.entry))) }
{
    let mut rest = words;
    'words: loop {
        match rest.next() {
            None => return Ok(()),
            Some(datum) => push_datum(kind, bases, names, &datum, list)?,
        }
    }
}

/// Puts the fields of a VFD at the end of a list, and behind them the zeros that fill its last word.
pub(crate) fn push_bits<B: BlockBases, N: Names>(
    kind: DeckKind,
    bases: &B,
    names: &N,
    fields: BitFields<'_>,
    list: &mut Vec<Item>,
) -> Result<(), AllocError>
    ensures kept { IsKept list.old.items list.new.items }
    ensures pushed { OnOk result ((settled : List Settled) (literals : List ℕ) (statement : Settled) →
        let context = deck_with kind (B.rows bases.now) settled literals in
        AreSeen (N.names names.now) context statement →
        map item_as list.new.items ≡ map item_as list.old.items ++ operand_items context statement (BitsOperand fields.entry)) }
{
    let mut rest = fields;
    let mut filled = 0;
    'fields: loop {
        match rest.next() {
            None => return push(list, zeros_to_word(kind, filled)),
            Some(field) => {
                let width = u32::from(field.width);
                let item = bit_field_item(kind, bases, names, width, &field.value);
                push(list, item)?;
                filled = (filled + width) % kind.word_bits();
            }
        }
    }
}
