//! Expressions that borrow no text, so that they can be kept: those with a short text.
ghost use Rattle.std.specs.Prelude.{◌≡◌, IfSome};
ghost use Rattle.expr_forms.specs.Joins.Elements.{element_as};
ghost use Rattle.expr_forms.specs.Joins.Kept.{kept_element_as};

use crate::elements::{Element, Literal, Sign};
use crate::expressions::Expr;
use crate::kept_texts::{KeptNumber, KeptText};
use crate::links::{LoneRegisters, Operator};
use crate::magnitude::Magnitude;
use crate::names::Name;
use crate::numbers::Number;
use crate::register::Register;
use definitions::NumberBase;
use std::marker::Model;

/// The element that an expression begins with, where it has few bytes.
#[derive(Drop)]
pub(crate) enum KeptElement {
    Number(KeptNumber),
    Symbol(Name),
    Register(Register),
    LocationCounter,
    OriginCounter,
    /// A number behind an equals sign.
    Literal(Sign, KeptNumber),
}

/// The number, where it has 32 bits.
#[inline(always)]
fn kept_number(number: Number) -> Option<KeptElement>
    ensures { IfSome result (λ kept. kept_element_as kept ≡ element_as (Element.Number number)) }
{
    match number {
        Number::Value(size) => match u32::try_from(size.value) {
            Ok(value) => Some(KeptElement::Number(KeptNumber::new(value))),
            Err(_) => None,
        },
        Number::TooGreat => None,
    }
}

/// The symbol, where it is as short as each that a deck defines.
#[inline(always)]
fn kept_symbol(name: &[u8]) -> Option<KeptElement>
    ensures { IfSome result (λ kept. kept_element_as kept ≡ element_as (Element.Symbol name.entry)) }
{
    if name.len() <= 9 {
        Some(KeptElement::Symbol(Name::new(name)))
    } else {
        None
    }
}

/// The literal, where it is a number of 32 bits.
#[inline(always)]
fn kept_literal(literal: Literal<'_>) -> Option<KeptElement>
    ensures { IfSome result (λ kept. kept_element_as kept ≡ element_as (Element.Literal literal.entry)) }
{
    match literal {
        Literal::Number(sign, Number::Value(size)) => match u32::try_from(size.value) {
            Ok(value) => Some(KeptElement::Literal(sign, KeptNumber::new(value))),
            Err(_) => None,
        },
        _ => None,
    }
}

/// The same element, where it can be kept: no item, and no literal of an item.
#[inline(always)]
fn kept_element(element: Element<'_>) -> Option<KeptElement>
    ensures { IfSome result (λ kept. kept_element_as kept ≡ element_as element.entry) }
{
    match element {
        Element::Number(number) => kept_number(number),
        Element::Symbol(name) => kept_symbol(name),
        Element::Register(register) => Some(KeptElement::Register(register)),
        Element::LocationCounter => Some(KeptElement::LocationCounter),
        Element::OriginCounter => Some(KeptElement::OriginCounter),
        Element::Item(_) => None,
        Element::Literal(literal) => kept_literal(literal),
    }
}

impl KeptElement {
    /// The element, as it was read.
    #[inline(always)]
    fn element(&self) -> Element<'_>
        ensures { element_as result ≡ kept_element_as self.now }
    {
        match self {
            KeptElement::Number(value) => Element::Number(Number::Value(Magnitude {
                value: u64::from(value.get()),
            })),
            KeptElement::Symbol(name) => Element::Symbol(name.as_slice()),
            KeptElement::Register(register) => Element::Register(*register),
            KeptElement::LocationCounter => Element::LocationCounter,
            KeptElement::OriginCounter => Element::OriginCounter,
            KeptElement::Literal(sign, value) => {
                let size = Magnitude {
                    value: u64::from(value.get()),
                };
                Element::Literal(Literal::Number(*sign, Number::Value(size)))
            }
        }
    }
}

/// An expression that was read, with its text. Contracts see the definitions' expression.
#[derive(Drop)]
pub struct KeptExpr {
    base: NumberBase,
    sign: Sign,
    operator: Operator,
    registers: LoneRegisters,
    first: KeptElement,
    rest: KeptText<10>,
}

impl Model for KeptExpr {
    ghost use Rattle.definitions.specs.Expressions.{Expression};

    ghost Value = { Expression };

    ghost use Rattle.expr_forms.specs.Joins.Elements.{sign_as};
    ghost use Rattle.expr_forms.specs.Joins.Kept.{kept_link_as};
    ghost use Rattle.expr_forms.specs.Joins.Parsed.{expression_behind, AreLawful};

    ghost view = { λ e. expression_behind e.base (sign_as e.sign) (kept_link_as e.operator e.first) e.rest e.registers };

    ghost invariant = { λ e. AreLawful e.base (kept_link_as e.operator e.first) e.rest };
}

impl Expr<'_> {
    /// The same expression without what it borrows, where its text is short and it begins with no
    /// item, no literal of one and no great number. Contracts do not say where.
    #[inline(always)]
    pub fn kept(&self) -> Option<KeptExpr>
        ensures { IfSome result (λ kept. kept ≡ self.now) }
    {
        let first = kept_element(self.element)?;
        let rest = KeptText::of(self.rest)?;
        let operator = self.operator;
        Some(KeptExpr {
            base: self.base,
            sign: self.sign,
            operator,
            registers: self.registers,
            first,
            rest,
        })
    }
}

impl KeptExpr {
    /// The expression, as it was read.
    #[inline(always)]
    pub fn expression(&self) -> Expr<'_>
        ensures { result ≡ self.now }
    {
        Expr {
            base: self.base,
            sign: self.sign,
            registers: self.registers,
            known_plain: false,
            operator: self.operator,
            element: self.first.element(),
            rest: self.rest.as_slice(),
        }
    }
}
