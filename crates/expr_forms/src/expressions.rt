//! One expression: a subfield's text that was read once, and its elements from left to right
//! (COMPASS 60492600, address expressions).
ghost use Rattle.std.specs.Prelude.{◌≡◌, ◌≤◌, ◌<◌, ◌∷◌, [], true, length, option_map, IfSome, MatchResult, Some, None};
ghost use Rattle.definitions.specs.Pieces.{Inside, pieces_at, pieces_of};
ghost use Rattle.definitions.specs.Expressions.{Add, pairs_of, grouped, with_sign, expression_of};
ghost use Rattle.definitions.specs.Laws.Grammar.{operator_of};
ghost use Rattle.definitions.specs.declared.number_base.NumberBase.{NumberBase};
ghost use Rattle.definitions.proofs.GrammarLaws.{pairs_from};
ghost use Rattle.expr_forms.specs.Joins.Elements.{sign_as, element_as};
ghost use Rattle.expr_forms.specs.Joins.Links.{operator_as, link_as};
ghost use Rattle.expr_forms.specs.Joins.LoneRegisters.{joins_terms, other_terms, term_alone};
ghost use Rattle.expr_forms.specs.Joins.Parsed.{are_plain, links_of, BeginsTerm};

use crate::elements::{Element, Sign, next_element};
use crate::links::{
    Link, LinkFound, Links, LoneRegisters, Operator, TextLinks, is_register, joins_terms, next_link,
};
use crate::plain::is_allowed;
use definitions::{Letter, NumberBase};
use std::marker::Model;

/// An expression without registers or with them, not longer than a statement: its first element with
/// the operator before it, and the text behind it, which is known to be lawful. The terms that are one register may be left out,
/// so that it is K of a sum. Where it is known to have no register and no literal, nobody goes over it
/// for them once more. Contracts see the definitions' expression.
#[derive(Drop)]
pub struct Expr<'a> {
    pub(crate) base: NumberBase,
    pub(crate) sign: Sign,
    pub(crate) registers: LoneRegisters,
    pub(crate) known_plain: bool,
    pub(crate) operator: Operator,
    pub(crate) element: Element<'a>,
    pub(crate) rest: &'a [u8],
}

impl<'a> Model for Expr<'a> {
    ghost use Rattle.std.specs.Prelude.{◌≤◌, length};
    ghost use Rattle.definitions.specs.Expressions.{Expression};

    ghost Value = { Expression };

    ghost use Rattle.expr_forms.specs.Joins.Elements.{sign_as};
    ghost use Rattle.expr_forms.specs.Joins.Links.{link_made};
    ghost use Rattle.expr_forms.specs.Joins.Parsed.{expression_behind, AreRead};

    ghost view = { λ e. expression_behind e.base (sign_as e.sign) (link_made e.operator e.element) e.rest.now e.registers };

    ghost invariant = { λ e. AreRead e.base (sign_as e.sign) (link_made e.operator e.element) e.rest.now e.registers e.known_plain };
}

/// The sign that begins a text, and what follows it.
#[derive(Clone, Copy)]
struct Signed<'a> {
    sign: Sign,
    body: &'a [u8],
}

fn sign_in_front(text: &[u8]) -> Signed<'_>
    ensures expression { (base : NumberBase) →
        expression_of base (pieces_of text.now)
        ≡ with_sign (sign_as result.sign) (pairs_from base (operator_of (sign_as result.sign)) (pieces_of result.body.now)) }
    ensures within { length result.body.now ≤ length text.now }
{
    match text.split_first() {
        None => Signed {
            sign: Sign::Absent,
            body: text,
        },
        Some((c, body)) => {
            if *c == b'+' {
                return Signed {
                    sign: Sign::Plus,
                    body,
                };
            }
            if *c == b'-' {
                return Signed {
                    sign: Sign::Minus,
                    body,
                };
            }
            Signed {
                sign: Sign::Absent,
                body: text,
            }
        }
    }
}

/// Whether the links that a text behind an element is have neither registers nor literals; nothing
/// where it is not links and nothing else.
fn are_plain(base: NumberBase, text: &[u8]) -> Option<bool>
    ensures { result ≡ option_map are_plain (pairs_of base 0 (pieces_at Inside 0 text.now)) }
{
    let mut rest = text;
    let mut plain = true;
    'links: loop {
        match next_link(base, rest) {
            LinkFound::End => return Some(plain),
            LinkFound::Unlawful => return None,
            LinkFound::Link(link, behind) => {
                plain = plain & is_allowed(false, link.element);
                rest = behind;
            }
        }
    }
}

/// The operator that a sign is to the element behind it.
fn first_operator(sign: Sign) -> Operator
    ensures { operator_as result ≡ operator_of (sign_as sign) }
{
    match sign {
        Sign::Absent => Operator::Add,
        Sign::Plus => Operator::Add,
        Sign::Minus => Operator::Subtract,
    }
}

impl<'a> Expr<'a> {
    /// The expression that a text of at most 711 characters spells in this number base: V where it
    /// spells none.
    pub fn parse(text: &'a [u8], base: NumberBase) -> Result<Expr<'a>, Letter>
        requires { length text.now ≤ 711 }
        ensures { MatchResult result
            (λ e. expression_of base (pieces_of text.now) ≡ Some e)
            (λ letter. (letter ≡ Letter.V) × (expression_of base (pieces_of text.now) ≡ None)) }
    {
        let signed = sign_in_front(text);
        match next_element(base, signed.body) {
            None => Err(Letter::V),
            Some(found) => match are_plain(base, found.rest) {
                None => Err(Letter::V),
                Some(plain) => Ok(Expr {
                    base,
                    sign: signed.sign,
                    registers: LoneRegisters::Kept,
                    known_plain: plain & is_allowed(false, found.element),
                    operator: first_operator(signed.sign),
                    element: found.element,
                    rest: found.rest,
                }),
            },
        }
    }

    /// The expression of this sign and of one link, which begins a term.
    #[inline(always)]
    fn of_link(base: NumberBase, sign: Sign, link: Link<'a>) -> Expr<'a>
        requires { joins_terms (operator_as link.operator) ≡ true }
        ensures { result ≡ record { sign = sign_as sign; terms = term_alone (link_as link.entry) ∷ [] } }
    {
        Expr {
            base,
            sign,
            registers: LoneRegisters::Kept,
            known_plain: is_allowed(false, link.element),
            operator: link.operator,
            element: link.element,
            rest: &[],
        }
    }

    /// Its elements from left to right, each with the operator before it; that of the first is plus
    /// or minus, by the sign.
    pub fn links(&self) -> Links<'a>
        ensures links { result ≡ links_of self.now }
        ensures grouped { (grouped result).terms ≡ self.now.terms }
        ensures few { length result ≤ 356 }
        ensures begins { BeginsTerm result }
    {
        let first = Link {
            operator: self.operator,
            element: self.element,
        };
        let all = TextLinks::new(self.base, first, self.rest);
        Links::new(all, self.registers)
    }

    /// The element that is all of it, if one is, and is added: none of K of a sum.
    #[inline(always)]
    pub(crate) fn lone_element(&self) -> Option<Element<'a>>
        ensures { IfSome result (λ element. self.now.terms ≡ record { operator = Add; element = element_as element; factors = [] } ∷ []) }
    {
        if !self.rest.is_empty() {
            return None;
        }
        match (self.registers, self.operator) {
            (LoneRegisters::Kept, Operator::Add) => Some(self.element),
            _ => None,
        }
    }

    /// The same expression once more.
    pub fn copied(&self) -> Expr<'a>
        ensures { result ≡ self.now }
    {
        Expr {
            base: self.base,
            sign: self.sign,
            registers: self.registers,
            known_plain: self.known_plain,
            operator: self.operator,
            element: self.element,
            rest: self.rest,
        }
    }

    /// The sign before it. That of a sum's K is plus where a register was left out.
    pub fn sign(&self) -> Sign
        ensures { sign_as result ≡ self.now.sign }
    {
        self.sign
    }

    /// The link that is left of a register and of one link more, which is none.
    #[inline(always)]
    fn lone_other(&self) -> Option<Link<'a>>
        ensures other { IfSome result (λ link. other_terms self.now.terms ≡ term_alone (link_as link) ∷ []) }
        ensures joins { IfSome result (λ link. joins_terms (operator_as link.operator) ≡ true) }
    {
        let LinkFound::Link(link, behind) = next_link(self.base, self.rest) else {
            return None;
        };
        let others = joins_terms(link.operator) && !is_register(link.element);
        if behind.is_empty() && is_register(self.element) && others {
            Some(link)
        } else {
            None
        }
    }

    /// The expression that is left without the terms that are one register, with this sign. One link
    /// that is left beside a register is an expression by itself.
    pub(crate) fn without_registers(&self, sign: Sign) -> Expr<'a>
        ensures { result ≡ record { sign = sign_as sign; terms = other_terms self.now.terms } }
    {
        match self.lone_other() {
            Some(link) => Expr::of_link(self.base, sign, link),
            None => Expr {
                base: self.base,
                sign,
                registers: LoneRegisters::LeftOut,
                known_plain: false,
                operator: self.operator,
                element: self.element,
                rest: self.rest,
            },
        }
    }
}
