//! Expressions: their elements, sums, literals and values.

use crate::outputs::Answer;
use definitions::{ItemText, NumberBase};
use expr_forms::{
    Element, Expr, Form, Link, Literal, Number, Operator, Part, RegisterKind, Relocation,
    SumRegisters, one_value, value,
};
use test_parts::KnownNames;

/// Whether this is one of the topics here; what is found of the text is then in the answer.
pub fn answer(answer: &mut Answer, topic: &str, text: &str) -> bool {
    let base = match topic {
        "octal_values" => NumberBase::Octal,
        _ => NumberBase::Decimal,
    };
    let bytes = text.as_bytes();
    if bytes.len() > 711 {
        return false;
    }
    match topic {
        "plain" => letter_or(answer, Expr::plain(bytes, false, base), false),
        "plain_literals" => letter_or(answer, Expr::plain(bytes, true, base), true),
        "one_values" => letter_or(answer, one_value(bytes, base), true),
        _ => match Expr::parse(bytes, base) {
            Ok(expression) => return of_expression(answer, topic, &expression),
            Err(letter) => answer.debug(&letter),
        },
    }
    true
}

/// What a topic finds of an expression.
fn of_expression(answer: &mut Answer, topic: &str, expression: &Expr<'_>) -> bool {
    match topic {
        "values" | "octal_values" => valued(answer, expression, Some(Form::absolute(5))),
        "undefined_values" => valued(answer, expression, None),
        "elements" => elements(answer, expression),
        "sums" => sum(answer, expression),
        "signs" => sign(answer, expression),
        "signs_beside" => answer.or_none(&expression.take_apart().others, sign),
        "whole_items" => answer.or_none(&expression.whole_item(), item),
        "literals" => {
            let mut literals = expression.literals();
            answer.each(|| literals.next(), literal)
        }
        "symbols" => {
            let mut symbols = expression.symbols();
            answer.each(|| symbols.next(), symbol)
        }
        _ => return false,
    }
    true
}

/// The letter, or whether the expression is plain.
fn letter_or(answer: &mut Answer, found: Result<Expr<'_>, definitions::Letter>, literals: bool) {
    match found {
        Ok(expression) => answer.either(expression.is_plain(literals), "plain", "-"),
        Err(letter) => answer.debug(&letter),
    }
}

/// The number of a form, and what is added to it or subtracted.
pub fn form(answer: &mut Answer, form: &Form) {
    answer.number(&form.number());
    let (sign, relocation) = match form.part() {
        None => return,
        Some(Part::Added(relocation)) => ("+", relocation),
        Some(Part::Subtracted(relocation)) => ("-", relocation),
    };
    let (word, name) = match relocation {
        Relocation::Block(name) => ("block", name),
        Relocation::External(name) => ("external", name),
    };
    answer.word(sign);
    answer.word(word);
    answer.bare(name.as_slice())
}

/// The value of an expression, where each symbol has this one; each literal stands at 100, and the
/// counters at 10 and 20.
fn valued(answer: &mut Answer, expression: &Expr<'_>, symbol: Option<Form>) {
    let names = KnownNames {
        value: symbol,
        literal: Form::absolute(100),
        location: Form::absolute(10),
        origin: Form::absolute(20),
    };
    answer.or_fault(&value(expression, &names), form)
}

pub fn number(answer: &mut Answer, number: &Number) {
    match number {
        Number::Value(size) => answer.number(&size.value),
        Number::TooGreat => answer.word("too great"),
    }
}

pub fn item(answer: &mut Answer, item: &ItemText<'_>) {
    answer.debug(&item.letter);
    answer.quoted(item.characters)
}

fn literal(answer: &mut Answer, found: &Literal<'_>) {
    answer.word("=");
    match found {
        Literal::Number(sign, size) => {
            answer.debug(sign);
            number(answer, size)
        }
        Literal::Item(text) => item(answer, text),
    }
}

fn element(answer: &mut Answer, element: &Element<'_>) {
    match element {
        Element::Number(size) => number(answer, size),
        Element::Item(text) => item(answer, text),
        Element::Symbol(name) => answer.bare(name),
        Element::Register(register) => {
            let kind = match register.kind {
                RegisterKind::A => b'A',
                RegisterKind::B => b'B',
                RegisterKind::X => b'X',
            };
            answer.bare(&[kind, b'0' + register.digit])
        }
        Element::LocationCounter => answer.word("*L"),
        Element::OriginCounter => answer.word("*O"),
        Element::Literal(found) => literal(answer, found),
    }
}

fn link(answer: &mut Answer, link: &Link<'_>) {
    answer.word(match link.operator {
        Operator::Times => "*",
        Operator::Divide => "/",
        Operator::Add => "+",
        Operator::Subtract => "-",
    });
    element(answer, &link.element)
}

/// The elements of an expression, each behind its operator.
fn elements(answer: &mut Answer, expression: &Expr<'_>) {
    let mut links = expression.links();
    answer.each(|| links.next(), link)
}

/// The registers of a sum, and the elements of what is left.
fn sum(answer: &mut Answer, expression: &Expr<'_>) {
    let sum = expression.take_apart();
    match &sum.registers {
        SumRegisters::Text(text) => answer.quoted(text.as_slice()),
        SumRegisters::TooMany => answer.word("too many"),
    }
    answer.or_none(&sum.others, elements)
}

fn sign(answer: &mut Answer, expression: &Expr<'_>) {
    answer.debug(&expression.copied().sign())
}

pub fn symbol(answer: &mut Answer, name: &&[u8]) {
    answer.bare(name)
}
