//! The literals of a statement, taken into the literals block (COMPASS 60492600, literals).
ghost use Rattle.std.specs.Prelude.{◌≡◌, [], IfOk, OnOk, flat_map, false, true};
ghost use Rattle.definitions.specs.Literals as literals;
ghost use Rattle.definitions.specs.Literals.{literals_in, value_literals, datum_literals, with_literals};
ghost use Rattle.expr_forms.specs.Joins.Elements.{literal_as};
ghost use Rattle.expr_forms.specs.Joins.Readings.{datum_as, bit_field_as};
ghost use Rattle.statement_coder.specs.Joins.Readings.{has_names};
ghost use Rattle.deck_assembler.specs.Joins.LiteralsRead.{shape_literals, bit_literals, read_literals};

use expr_forms::{
    BitField, BitFields, ConWords, CountedItem, Datum, Expr, Field, Literal,
    Literals as LiteralsLeft, Number, Shape, item_literal, number_literal,
};
use statement_coder::{Reading, signed};
use std::alloc::AllocError;
use use_blocks::Literals;

/// The word of a literal: that of DATA, and 0 where its number is too great.
pub fn literal_word(literal: &Literal<'_>) -> u64
    ensures { result ≡ literals.literal_word (literal_as literal.now) }
{
    match literal {
        Literal::Number(sign, number) => match number {
            Number::Value(size) => number_literal(signed(*sign, size.value)),
            Number::TooGreat => 0,
        },
        Literal::Item(item) => item_literal(&CountedItem::of_text(*item)),
    }
}

/// Takes in the literals that are left of an expression. Some of them are taken in where memory runs
/// out.
fn add_left(words: &mut Literals, left: LiteralsLeft<'_>) -> Result<(), AllocError>
    ensures { OnOk result (words.new ≡ with_literals left.entry words.old) }
{
    let mut rest = left;
    'literals: loop {
        match rest.next() {
            None => return Ok(()),
            Some(literal) => words.add(literal_word(&literal))?,
        }
    }
}

/// Takes in the literals of an expression, and returns whether it has none. Some of them are taken in
/// where memory runs out.
fn add_expression(words: &mut Literals, expression: &Expr<'_>) -> Result<bool, AllocError>
    ensures words { OnOk result (words.new ≡ with_literals (literals_in expression.now) words.old) }
    ensures bare { IfOk result (λ bare. bare ≡ true → literals_in expression.now ≡ []) }
{
    if expression.is_plain(false) {
        return Ok(true);
    }
    add_left(words, expression.literals())?;
    Ok(false)
}

/// Takes in the literals in K or n of an instruction, and returns whether there are none.
fn add_shape(words: &mut Literals, shape: &Shape<'_>) -> Result<bool, AllocError>
    ensures words { OnOk result (words.new ≡ with_literals (shape_literals shape.now.field) words.old) }
    ensures bare { IfOk result (λ bare. bare ≡ true → shape_literals shape.now.field ≡ []) }
{
    match &shape.field {
        Field::Address(expression) => add_expression(words, expression),
        Field::Count(expression) => add_expression(words, expression),
        Field::Absent => Ok(true),
        Field::Zero => Ok(true),
        Field::Short(_) => Ok(true),
        Field::Displacement(_) => Ok(true),
        Field::Shift(_) => Ok(true),
        Field::Wide(_) => Ok(true),
        Field::Long(_, _) => Ok(true),
    }
}

/// Takes in the literals of a word of CON.
fn add_datum(words: &mut Literals, datum: &Datum<'_>) -> Result<(), AllocError>
    ensures { OnOk result (words.new ≡ with_literals (datum_literals (datum_as datum.now)) words.old) }
{
    match datum {
        Datum::Expression(expression) => {
            add_expression(words, expression)?;
            Ok(())
        }
        Datum::Zero => Ok(()),
        Datum::Number(_, _) => Ok(()),
        Datum::Item(_) => Ok(()),
    }
}

/// Takes in the literals of a CON.
fn add_con(words: &mut Literals, con: ConWords<'_>) -> Result<(), AllocError>
    ensures { OnOk result (words.new ≡ with_literals (flat_map datum_literals con.entry) words.old) }
{
    let mut rest = con;
    'words: loop {
        match rest.next() {
            None => return Ok(()),
            Some(datum) => add_datum(words, &datum)?,
        }
    }
}

/// Takes in the literals of a field of a VFD.
fn add_field(words: &mut Literals, field: &BitField<'_>) -> Result<(), AllocError>
    ensures { OnOk result (words.new ≡ with_literals (bit_literals (bit_field_as field.now)) words.old) }
{
    match &field.value {
        Some(expression) => {
            add_expression(words, expression)?;
            Ok(())
        }
        None => Ok(()),
    }
}

/// Takes in the literals of a VFD.
fn add_fields(words: &mut Literals, fields: BitFields<'_>) -> Result<(), AllocError>
    ensures { OnOk result (words.new ≡ with_literals (flat_map bit_literals fields.entry) words.old) }
{
    let mut rest = fields;
    'fields: loop {
        match rest.next() {
            None => return Ok(()),
            Some(field) => add_field(words, &field)?,
        }
    }
}

/// Takes in the literals of an operand, from left to right, and returns whether it is known to have
/// neither literals nor names. Some of them are taken in where memory runs out.
pub(crate) fn add_literals(words: &mut Literals, reading: &Reading<'_>) -> Result<bool, AllocError>
    ensures words { OnOk result (words.new ≡ with_literals (read_literals reading.now) words.old) }
    ensures bare { IfOk result (λ bare. bare ≡ true → (read_literals reading.now ≡ []) × (has_names reading.now ≡ false)) }
{
    match reading {
        Reading::Instruction(shape) => add_shape(words, shape),
        Reading::Con(data) => {
            add_con(words, data.copied())?;
            Ok(false)
        }
        Reading::Vfd(fields) => {
            add_fields(words, fields.copied())?;
            Ok(false)
        }
        Reading::Names(_) => Ok(false),
        Reading::Unread => Ok(true),
        Reading::Bad => Ok(true),
        Reading::Data(_) => Ok(true),
        Reading::Text(_) => Ok(true),
        Reading::Value(_) => Ok(true),
        Reading::Use(_) => Ok(true),
    }
}
