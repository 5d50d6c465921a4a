//! How many units of its deck an operand fills, as far as a block has room for them (6600 reference
//! 60100000, instruction formats; COMPASS 60492600, data generation).
ghost use Rattle.std.specs.Prelude.{◌≡◌, ◌≤◌, ◌+◌, ◌-◌, ◌*◌, ◌/◌, min};
ghost use Rattle.definitions.specs.Operands as operands;
ghost use Rattle.definitions.specs.Kinds.{units, word_bits};
ghost use Rattle.definitions.specs.Sizes.{data_words, datum_words, bits_of, size_of};
ghost use Rattle.definitions.specs.Places.{is_bad, is_long};
ghost use Rattle.operations.specs.Joins.OperationsAs.{operation_as};
ghost use Rattle.definitions.specs.declared.deck_kind.DeckKind as kinds;
ghost use Rattle.expr_forms.specs.Joins.Readings.{datum_as};
ghost use Rattle.statement_coder.specs.Joins.Readings.{IsReading, IsInstruction};

use crate::readings::Reading;
use definitions::DeckKind;
use expr_forms::{BitFields, ConWords, CountedItem, DataWords, Datum, Field, Shape, UseField};
use operations::Operation;

/// What no block has room for: sizes count no further.
const MOST_COUNTED: u32 = 10_000_000;

/// A sum that counts no further than what no block has room for.
fn plus(sum: u32, more: u32) -> u32
    requires sum { sum ≤ 10000000 }
    requires more { more ≤ 1000 }
    ensures sum { result ≡ min (sum + more) 10000000 }
    ensures within { result ≤ 10000000 }
{
    if sum + more > MOST_COUNTED {
        MOST_COUNTED
    } else {
        sum + more
    }
}

/// How many words a subfield of DATA or CON fills.
fn datum_words(kind: DeckKind, datum: &Datum<'_>) -> u32
    ensures words { result ≡ datum_words kind (datum_as datum.now) }
    ensures few { result ≤ 51 }
{
    match datum {
        Datum::Zero => 1,
        Datum::Number(_, _) => 1,
        Datum::Expression(_) => 1,
        Datum::Item(item) => CountedItem::of_text(*item).words_needed(kind) as u32,
    }
}

/// How many words the subfields of a DATA fill.
#[inline(never)]
fn data_words(kind: DeckKind, words: DataWords<'_>) -> u32
    ensures words { result ≡ min (data_words kind words.entry) 10000000 }
{
    if let Some(count) = words.number_count() {
        return count;
    }
    let mut rest = words;
    let mut sum = 0;
    'words: loop {
        match rest.next_number() {
            Some(_) => sum = plus(sum, 1),
            None => match rest.next() {
                None => return sum,
                Some(datum) => sum = plus(sum, datum_words(kind, &datum)),
            },
        }
    }
}

/// How many words the subfields of a CON fill.
#[inline(never)]
fn con_words(kind: DeckKind, words: ConWords<'_>) -> u32
    ensures words { result ≡ min (data_words kind words.entry) 10000000 }
{
    let mut rest = words;
    let mut sum = 0;
    'words: loop {
        match rest.next() {
            None => return sum,
            Some(datum) => sum = plus(sum, datum_words(kind, &datum)),
        }
    }
}

/// How many bits the fields of a VFD have.
#[inline(never)]
fn field_bits(fields: BitFields<'_>) -> u32
    ensures bits { result ≡ min (bits_of fields.entry) 10000000 }
{
    let mut rest = fields;
    let mut sum = 0;
    'fields: loop {
        match rest.next() {
            None => return sum,
            Some(field) => sum = plus(sum, u32::from(field.width)),
        }
    }
}

/// How many words the fields of a VFD fill.
fn bit_words(kind: DeckKind, bits: u32) -> u32
    requires { bits ≤ 10000000 }
    ensures { result ≡ (bits + word_bits kind - 1) / word_bits kind }
{
    match kind {
        DeckKind::Periph => (bits + 12 - 1) / 12,
        DeckKind::Rel => (bits + 60 - 1) / 60,
        DeckKind::Abs => (bits + 60 - 1) / 60,
    }
}

/// How many units an instruction fills: its parcels of 15 bits, or its words in a peripheral deck.
fn shape_units(shape: &Shape<'_>) -> u32
    ensures size { (kind : kinds.DeckKind) (operand : operands.Operand) → IsInstruction shape.now operand → result ≡ size_of kind operand }
    ensures few { result ≤ 100 }
{
    match &shape.field {
        Field::Absent => u32::from(shape.digit_count) * 3 / 15,
        Field::Address(_) => (u32::from(shape.digit_count) * 3 + 18) / 15,
        Field::Count(_) => (u32::from(shape.digit_count) * 3 + 6) / 15,
        Field::Zero => 1,
        Field::Short(_) => 1,
        Field::Displacement(_) => 1,
        Field::Shift(_) => 1,
        Field::Wide(_) => 2,
        Field::Long(_, _) => 2,
    }
}

/// How many units of its deck an operand fills; what no block has room for is not counted further.
#[inline(always)]
pub(crate) fn size_of(kind: DeckKind, reading: &Reading<'_>) -> u32
    ensures size { (operand : operands.Operand) → IsReading reading.now operand → min result 600000 ≡ min (size_of kind operand) 600000 }
    ensures within { result ≤ 40000000 }
{
    match reading {
        Reading::Instruction(shape) => shape_units(shape),
        Reading::Data(words) => data_words(kind, words.copied()) * kind.units(),
        Reading::Con(words) => con_words(kind, words.copied()) * kind.units(),
        Reading::Vfd(fields) => bit_words(kind, field_bits(fields.copied())) * kind.units(),
        Reading::Text(text) => text.words() as u32 * kind.units(),
        Reading::Unread => 0,
        Reading::Bad => 0,
        Reading::Value(_) => 0,
        Reading::Names(_) => 0,
        Reading::Use(_) => 0,
    }
}

/// Whether an operand is flagged V.
pub(crate) fn is_bad(reading: &Reading<'_>) -> bool
    ensures { (operand : operands.Operand) → IsReading reading.now operand → result ≡ is_bad operand }
{
    match reading {
        Reading::Bad => true,
        Reading::Use(field) => matches!(field, UseField::Bad),
        Reading::Unread => false,
        Reading::Instruction(_) => false,
        Reading::Data(_) => false,
        Reading::Con(_) => false,
        Reading::Vfd(_) => false,
        Reading::Text(_) => false,
        Reading::Value(_) => false,
        Reading::Names(_) => false,
    }
}

/// Whether an operand of so many units makes a long central instruction.
pub(crate) fn is_long(kind: DeckKind, operation: Operation, size: u32) -> bool
    ensures { (operand : operands.Operand) → min size 600000 ≡ min (size_of kind operand) 600000 → result ≡ is_long kind (operation_as operation) operand }
{
    match kind {
        DeckKind::Periph => false,
        DeckKind::Rel => operation.is_instruction() && size == 2,
        DeckKind::Abs => operation.is_instruction() && size == 2,
    }
}
