//! The links of an expression behind its first element: operators with their elements.
ghost use Rattle.std.specs.Prelude.{◌≡◌, ◌≤◌, ◌+◌, ◌∷◌, [], length, option_map, option_and_then, IfNone, IfSome};
ghost use Rattle.definitions.specs.Pieces.{Inside, mark_of, pieces_at};
ghost use Rattle.definitions.specs.Expressions.{operator_of_mark, pairs_of};
ghost use Rattle.definitions.specs.declared.number_base.NumberBase.{NumberBase};
ghost use Rattle.expr_forms.specs.Joins.Elements.{element_as};
ghost use Rattle.expr_forms.specs.Joins.Links.{operator_as, link_as, links_behind, links_found, IsLawful, ForLink};
ghost use Rattle.expr_forms.specs.Joins.LoneRegisters.{joins_terms, is_register, begins_term, is_lone, without_lone, links_left_by};

use crate::elements::{Element, next_element};
use definitions::NumberBase;
use std::marker::Model;

/// What stands between two elements.
#[derive(Clone, Copy, Debug)]
pub enum Operator {
    Times,
    Divide,
    Add,
    Subtract,
}

/// An element with the operator before it.
#[derive(Clone, Copy)]
pub struct Link<'a> {
    pub operator: Operator,
    pub element: Element<'a>,
}

/// What stands behind an element: nothing, what is no link, or an operator and its element.
#[derive(Clone, Copy)]
pub(crate) enum LinkFound<'a> {
    End,
    Unlawful,
    Link(Link<'a>, &'a [u8]),
}

/// Whether the terms that are one register are among an expression's, or left out of it.
#[derive(Clone, Copy)]
pub(crate) enum LoneRegisters {
    Kept,
    LeftOut,
}

#[inline(always)]
fn operator_of(c: u8) -> Option<Operator>
    ensures { option_map operator_as result ≡ option_and_then operator_of_mark (mark_of c) }
{
    match c {
        b'*' => Some(Operator::Times),
        b'/' => Some(Operator::Divide),
        b'+' => Some(Operator::Add),
        b'-' => Some(Operator::Subtract),
        _ => None,
    }
}

/// Plus and minus join terms.
#[inline(always)]
pub(crate) fn joins_terms(operator: Operator) -> bool
    ensures { result ≡ joins_terms (operator_as operator) }
{
    match operator {
        Operator::Times | Operator::Divide => false,
        Operator::Add | Operator::Subtract => true,
    }
}

#[inline(always)]
pub(crate) fn is_register(element: Element<'_>) -> bool
    ensures { result ≡ is_register (element_as element.entry) }
{
    match element {
        Element::Register(_) => true,
        _ => false,
    }
}

/// Whether no link, or one that begins a term, stands behind an element.
#[inline(always)]
fn term_begins(text: &[u8]) -> bool
    ensures { (base : NumberBase) → IsLawful base text.now → result ≡ begins_term (links_behind base text.now) }
{
    match text.split_first() {
        None => true,
        Some((c, _)) => match operator_of(*c) {
            None => true,
            Some(operator) => joins_terms(operator),
        },
    }
}

/// The link that begins a text behind an element, if one does.
#[inline(always)]
pub(crate) fn next_link(base: NumberBase, text: &[u8]) -> LinkFound<'_>
    ensures links { pairs_of base 0 (pieces_at Inside 0 text.now) ≡ links_found base result }
    ensures shorter { ForLink result (λ rest. length rest + 2 ≤ length text.now) }
{
    match text.split_first() {
        None => LinkFound::End,
        Some((c, behind)) => match operator_of(*c) {
            None => LinkFound::Unlawful,
            Some(operator) => match next_element(base, behind) {
                None => LinkFound::Unlawful,
                Some(found) => LinkFound::Link(
                    Link {
                        operator,
                        element: found.element,
                    },
                    found.rest,
                ),
            },
        },
    }
}

/// Links that are left of those that a text spells. Contracts see their list.
#[derive(Drop)]
pub(crate) struct TextLinks<'a> {
    base: NumberBase,
    first: Option<Link<'a>>,
    rest: &'a [u8],
}

impl<'a> Model for TextLinks<'a> {
    ghost use Rattle.std.specs.Prelude.{List};
    ghost use Rattle.definitions.specs.Expressions.{OperatorElement};

    ghost Value = { List OperatorElement };

    ghost use Rattle.expr_forms.specs.Joins.Links.{links_left, IsLawful};

    ghost view = { λ l. links_left l.base l.first l.rest.now };

    ghost invariant = { λ l. IsLawful l.base l.rest.now };
}

impl<'a> TextLinks<'a> {
    /// A first link, and those that a text spells behind its element.
    #[inline(always)]
    pub(crate) fn new(base: NumberBase, first: Link<'a>, rest: &'a [u8]) -> TextLinks<'a>
        requires { IsLawful base rest.now }
        ensures { result ≡ link_as first.entry ∷ links_behind base rest.now }
    {
        TextLinks {
            base,
            first: Some(first),
            rest,
        }
    }

    /// No links.
    #[inline(always)]
    fn none() -> TextLinks<'a>
        ensures { result ≡ [] }
    {
        TextLinks {
            base: NumberBase::Decimal,
            first: None,
            rest: &[],
        }
    }

    /// The next link, if one is left.
    #[inline(always)]
    fn next(&mut self) -> Option<Link<'a>>
        ensures none { IfNone result ((self.old ≡ []) × (self.new ≡ [])) }
        ensures some { IfSome result (λ link. self.old ≡ link_as link ∷ self.new) }
    {
        match self.first {
            Some(link) => {
                self.first = None;
                return Some(link);
            }
            None => {}
        }
        match next_link(self.base, self.rest) {
            LinkFound::End => None,
            LinkFound::Unlawful => None,
            LinkFound::Link(link, behind) => {
                self.rest = behind;
                Some(link)
            }
        }
    }

    /// Whether nothing is left, or a link that begins a term.
    #[inline(always)]
    fn begins_term(&self) -> bool
        ensures { result ≡ begins_term self.now }
    {
        match self.first {
            Some(link) => joins_terms(link.operator),
            None => term_begins(self.rest),
        }
    }
}

/// The next link that is no term of one register, if one is left.
#[inline(always)]
fn next_other<'a>(all: &mut TextLinks<'a>) -> Option<Link<'a>>
    ensures none { IfNone result ((without_lone all.old ≡ []) × (all.new ≡ [])) }
    ensures some { IfSome result (λ link. without_lone all.old ≡ link_as link ∷ without_lone all.new) }
{
    'links: loop {
        match all.next() {
            None => return None,
            Some(link) => {
                if !is_lone(link, all) {
                    return Some(link);
                }
            }
        }
    }
}

/// Whether a link is a term of one register, by the links behind it.
#[inline(always)]
fn is_lone(link: Link<'_>, behind: &TextLinks<'_>) -> bool
    ensures { result ≡ is_lone (link_as link.entry) behind.now }
{
    joins_terms(link.operator) && is_register(link.element) && behind.begins_term()
}

/// The links of an expression that are left, from left to right. Contracts see their list.
#[derive(Drop)]
pub struct Links<'a> {
    all: TextLinks<'a>,
    registers: LoneRegisters,
}

impl<'a> Model for Links<'a> {
    ghost use Rattle.std.specs.Prelude.{List};
    ghost use Rattle.definitions.specs.Expressions.{OperatorElement};

    ghost Value = { List OperatorElement };

    ghost use Rattle.expr_forms.specs.Joins.LoneRegisters.{links_left_by};

    ghost view = { λ l. links_left_by l.registers l.all };
}

impl<'a> Links<'a> {
    /// Links with those that are terms of one register, or without them.
    #[inline(always)]
    pub(crate) fn new(all: TextLinks<'a>, registers: LoneRegisters) -> Links<'a>
        ensures { result ≡ links_left_by registers all.entry }
    {
        Links { all, registers }
    }

    /// No links.
    #[inline(always)]
    pub(crate) fn none() -> Links<'a>
        ensures { result ≡ [] }
    {
        Links {
            all: TextLinks::none(),
            registers: LoneRegisters::Kept,
        }
    }

    /// The next link, if one is left.
    #[inline(always)]
    pub fn next(&mut self) -> Option<Link<'a>>
        ensures none { IfNone result ((self.old ≡ []) × (self.new ≡ [])) }
        ensures some { IfSome result (λ link. self.old ≡ link_as link ∷ self.new) }
    {
        match self.registers {
            LoneRegisters::Kept => self.all.next(),
            LoneRegisters::LeftOut => next_other(&mut self.all),
        }
    }

    /// Whether nothing is left, or a link that begins a term.
    #[inline(always)]
    pub(crate) fn begins_term(&self) -> bool
        ensures { result ≡ begins_term self.now }
    {
        self.all.begins_term()
    }
}
