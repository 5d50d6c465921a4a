//! Operations, their classes and settings, letters, and the tables of both instruction sets.

use crate::outputs::Answer;
use cpu_opcodes::{Code, RegistersFound, central_rows, ignoring_rows, is_central, sum_rows};
use definitions::{Letter, NumberBase};
use expr_forms::{Field, Shape, operand};
use operations::{KindSearch, Letters, Operation, is_end, number_base_set, pseudo_instruction};
use std::alloc::AllocError;
use test_parts::{bytes_of, cut};

/// An operation by its name, where SA1 stands for each instruction, and no name for what is unknown.
fn operation_named(name: &str) -> Operation {
    match pseudo_instruction(name.as_bytes()) {
        Some(operation) => operation,
        None if name == "SA1" => Operation::Instruction,
        None => Operation::Unknown,
    }
}

/// The classes of the operation with this name.
pub fn classes(answer: &mut Answer, name: &str) {
    let found = operation_named(name);
    answer.either(found.is_neutral(), "neutral", "-");
    answer.either(found.is_instruction(), "instruction", "-");
    answer.either(found.is_data(), "data", "-");
    answer.either(found.is_reserving(), "reserving", "-");
    answer.either(found.is_machine(), "machine", "-");
    answer.either(found.has_place(), "placed", "-");
    answer.either(found.is_labelled(), "labelled", "-")
}

/// The kind of a deck whose statements have these operations.
pub fn deck_kind(answer: &mut Answer, text: &str) {
    let mut search = KindSearch::new();
    for name in text.split_whitespace() {
        search.read(name.as_bytes());
    }
    answer.either(search.is_found(), "found", "-");
    answer.debug(&search.kind())
}

/// Whether an operation ends a deck, and the base that it sets with a variable field.
pub fn settings(answer: &mut Answer, text: &str) {
    let (name, variable) = cut(text);
    answer.either(is_end(name.as_bytes()), "end", "-");
    answer.debug(&number_base_set(name.as_bytes(), variable.as_bytes()))
}

fn letter_of(text: &str) -> Letter {
    match text {
        "A" => Letter::A,
        "O" => Letter::O,
        _ => Letter::V,
    }
}

/// The text of the letters A, O or V: two of them together, and a third.
pub fn letters(answer: &mut Answer, text: &str) {
    let (first, rest) = cut(text);
    let (second, third) = cut(rest);
    let flags = Letters::of(letter_of(first)).with(letter_of(second));
    let others = Letters::of(letter_of(third)).union(&Letters::none());
    answer.bare(flags.union(&others).copied().text().as_slice())
}

fn code(answer: &mut Answer, code: &Code) {
    match code {
        Code::Short(digits) => answer.bare(digits.as_slice()),
        Code::Long(digits) => answer.bare(digits.as_slice()),
    }
}

/// The codes of an operation's rows, without those whose operand is a sum.
pub fn central_codes(answer: &mut Answer, name: &str) {
    let rows = central_rows(name.as_bytes());
    answer.number(&rows.len());
    for row in rows {
        code(answer, &row.form.code);
    }
}

/// How many rows ignore the operand, or have a sum, or whether there are rows.
pub fn central_table(answer: &mut Answer, text: &str) {
    let (table, name) = cut(text);
    match table {
        "ignoring" => answer.number(&ignoring_rows(name.as_bytes()).len()),
        "sums" => answer.number(&sum_rows(name.as_bytes()).len()),
        _ => answer.debug(&is_central(name.as_bytes())),
    }
}

/// A code of five or of ten characters.
fn code_of(characters: &[u8]) -> Option<Code> {
    if let Some(short) = characters.first_chunk::<10>() {
        return Some(Code::Long(*short));
    }
    characters.first_chunk::<5>().map(|long| Code::Short(*long))
}

/// The digits of a code with i 6, j 1 and k 2.
fn digits(answer: &mut Answer, code: &Code) {
    let digits = code.digits(RegistersFound { i: 6, j: 1, k: 2 });
    answer.octal(&digits.number);
    answer.number(&digits.count);
}

/// The digits of a code that is written with `\` and octal digits for its bytes.
pub fn central_digits(answer: &mut Answer, text: &str) -> Result<(), AllocError> {
    let characters = bytes_of(answer.alloc, text)?;
    answer.or_none(&code_of(characters.as_slice()), digits);
    Ok(())
}

/// What stands in an instruction's field.
fn field_word(field: &Field<'_>) -> &'static str {
    match field {
        Field::Absent => "-",
        Field::Address(_) => "K",
        Field::Count(_) => "n",
        Field::Zero => "zero",
        Field::Short(_) => "short",
        Field::Displacement(_) => "displacement",
        Field::Shift(_) => "shift",
        Field::Wide(_) => "wide",
        Field::Long(_, d) if d.expression().is_some() => "long,d",
        Field::Long(_, _) => "long",
    }
}

/// The octal digits of an instruction, how many they are, its field, and its bits.
pub fn shape(answer: &mut Answer, shape: &Shape<'_>) {
    answer.octal(&u64::from(shape.digits));
    answer.number(&shape.digit_count);
    answer.word(field_word(&shape.field));
    answer.number(&shape.width())
}

/// The instruction of an operation and a variable field.
fn search<'a>(topic: &str, text: &'a str) -> Result<Shape<'a>, Letter> {
    let (name, field) = cut(text);
    let field = field.as_bytes();
    if field.len() > 711 {
        return Err(Letter::C);
    }
    let read = operand(field, NumberBase::Decimal)?;
    match topic {
        "central" => cpu_opcodes::find(name.as_bytes(), &read),
        _ => ppu_opcodes::find(name.as_bytes(), &read),
    }
}

/// An instruction or its digits, or the letter of what is wrong.
pub fn instruction(answer: &mut Answer, topic: &str, text: &str) {
    let found = search(topic, text);
    match &found {
        Ok(found) if topic == "peripheral_codes" => answer.octal(&u64::from(found.digits)),
        _ => answer.or_fault(&found, shape),
    }
}
