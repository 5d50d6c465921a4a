//! Variable fields that are no instruction's: how a person reads them.

use crate::expression_topics::{item, number, symbol};
use crate::outputs::Answer;
use definitions::{DeckKind, NumberBase};
use expr_forms::{
    BitField, BitFields, ConWords, DataWords, Datum, DisText, Expr, Link, LinkedNames, Operand,
    Subfields, UseField, dis_text, is_symbol, number_base, operand, use_field,
};
use test_parts::cut;

/// Whether this is one of the topics here; what is found of the text is then in the answer.
pub fn answer(answer: &mut Answer, topic: &str, text: &str) -> bool {
    let (bytes, decimal, octal) = (text.as_bytes(), NumberBase::Decimal, NumberBase::Octal);
    if bytes.len() > 711 {
        return false;
    }
    match topic {
        "subfields" => subfields(answer, Subfields::new(bytes).copied()),
        "operands" => answer.or_fault(&operand(bytes, decimal), operands),
        "data" => answer.or_fault(&DataWords::read(bytes, decimal), data),
        "octal_data" => answer.or_fault(&DataWords::read(bytes, octal), data),
        "con" => answer.or_fault(&ConWords::read(bytes, false, decimal), con),
        "con_literals" => answer.or_fault(&ConWords::read(bytes, true, decimal), con),
        "vfd" => answer.or_fault(&BitFields::read(bytes, true, decimal), bit_fields),
        "dis" => answer.or_fault(&dis_text(bytes, decimal, DeckKind::Rel), dis),
        "octal_dis_periph" => answer.or_fault(&dis_text(bytes, octal, DeckKind::Periph), dis),
        "entries" => entries(answer, LinkedNames::new(bytes).copied()),
        "uses" => block_used(answer, text),
        "bases" => answer.debug(&number_base(bytes)),
        "are_symbols" => answer.debug(&is_symbol(bytes)),
        _ => return false,
    }
    true
}

fn subfield(answer: &mut Answer, text: &&[u8]) {
    answer.quoted(text)
}

fn subfields(answer: &mut Answer, mut subfields: Subfields<'_>) {
    answer.each(|| subfields.next(), subfield)
}

/// The texts of an operand's subfields.
fn operands(answer: &mut Answer, found: &Operand<'_>) {
    match found {
        Operand::One(first) => answer.quoted(first.text),
        Operand::Two(first, second, _) => {
            answer.quoted(first.text);
            answer.quoted(second.text)
        }
        Operand::Three(first, second, third) => {
            answer.quoted(first.text);
            answer.quoted(second.text);
            answer.quoted(third.text)
        }
    }
}

fn datum(answer: &mut Answer, datum: &Datum<'_>) {
    match datum {
        Datum::Zero => answer.word("zero"),
        Datum::Number(sign, size) => {
            answer.debug(sign);
            number(answer, size)
        }
        Datum::Item(text) => item(answer, text),
        Datum::Expression(expression) => operators(answer, expression),
    }
}

fn operator(answer: &mut Answer, link: &Link<'_>) {
    answer.debug(&link.operator)
}

/// The operators of an expression.
fn operators(answer: &mut Answer, expression: &Expr<'_>) {
    let mut links = expression.links();
    answer.word("links");
    answer.each(|| links.next(), operator)
}

fn data(answer: &mut Answer, words: &DataWords<'_>) {
    let mut words = words.copied();
    answer.each(|| words.next(), datum)
}

fn con(answer: &mut Answer, words: &ConWords<'_>) {
    let mut words = words.copied();
    answer.each(|| words.next(), datum)
}

/// The width of a field, and whether it has a value.
fn bit_field(answer: &mut Answer, field: &BitField<'_>) {
    answer.number(&field.width);
    answer.either(field.value.is_some(), "value", "-");
}

fn bit_fields(answer: &mut Answer, fields: &BitFields<'_>) {
    let mut fields = fields.copied();
    answer.each(|| fields.next(), bit_field)
}

/// How many words a text has, and its characters.
fn dis(answer: &mut Answer, text: &DisText<'_>) {
    answer.number(&text.words());
    let mut characters = [b' '; 40];
    let len = text.len().min(characters.len());
    for (index, place) in characters.iter_mut().enumerate() {
        if index < text.len() {
            *place = text.character(index);
        }
    }
    answer.quoted(characters.split_at(len).0)
}

fn entry(answer: &mut Answer, name: &Option<&[u8]>) {
    answer.or_none(name, symbol)
}

/// The names of an ENTRY or EXT, and `none` for each subfield that is no name.
fn entries(answer: &mut Answer, mut names: LinkedNames<'_>) {
    answer.each(|| names.next(), entry)
}

/// What a USE with this field does in a deck of a kind.
fn block_used(answer: &mut Answer, text: &str) {
    let (kind, field) = cut(text);
    match use_field(field.as_bytes(), kind_of(kind)) {
        UseField::UseName(name) => answer.quoted(name.as_slice()),
        UseField::UseBefore => answer.word("before"),
        UseField::Refused => answer.word("refused"),
        UseField::Bad => answer.word("bad"),
    }
}

/// The kind of a deck by its word.
pub fn kind_of(word: &str) -> DeckKind {
    match word {
        "ABS" => DeckKind::Abs,
        "PERIPH" => DeckKind::Periph,
        _ => DeckKind::Rel,
    }
}
