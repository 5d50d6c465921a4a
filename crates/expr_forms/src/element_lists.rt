//! The literals and the symbols of an expression, from left to right.
ghost use Rattle.std.specs.Prelude.{◌≡◌, ◌∷◌, [], IfNone, IfSome};
ghost use Rattle.definitions.specs.Literals.{literals_in};
ghost use Rattle.definitions.specs.Laws.Agreement.{symbols_in};
ghost use Rattle.expr_forms.specs.Joins.Elements.{literal_as};
ghost use Rattle.expr_forms.specs.Joins.ElementLists.{literals_among, symbols_among};

use crate::elements::{Element, Literal};
use crate::expressions::Expr;
use crate::links::Links;
use std::marker::Model;

/// The literals of an expression that are left. Contracts see their list.
#[derive(Drop)]
pub struct Literals<'a> {
    links: Links<'a>,
}

impl<'a> Model for Literals<'a> {
    ghost use Rattle.std.specs.Prelude.{List};
    ghost use Rattle.definitions.specs.Expressions.{Literal};

    ghost Value = { List Literal };

    ghost use Rattle.expr_forms.specs.Joins.ElementLists.{literals_among};

    ghost view = { λ l. literals_among l.links };
}

/// The symbols of an expression that are left. Contracts see the list of their texts.
#[derive(Drop)]
pub struct Symbols<'a> {
    links: Links<'a>,
}

impl<'a> Model for Symbols<'a> {
    ghost use Rattle.std.specs.Prelude.{ℕ, List};

    ghost Value = { List (List ℕ) };

    ghost use Rattle.expr_forms.specs.Joins.ElementLists.{symbols_among};

    ghost view = { λ s. symbols_among s.links };
}

/// The next literal among links.
fn next_literal<'a>(links: &mut Links<'a>) -> Option<Literal<'a>>
    ensures none { IfNone result ((literals_among links.old ≡ []) × (links.new ≡ [])) }
    ensures some { IfSome result (λ literal. literals_among links.old ≡ literal_as literal ∷ literals_among links.new) }
{
    'links: loop {
        if let Element::Literal(literal) = links.next()?.element {
            return Some(literal);
        }
    }
}

/// The next symbol among links.
fn next_symbol<'a>(links: &mut Links<'a>) -> Option<&'a [u8]>
    ensures none { IfNone result ((symbols_among links.old ≡ []) × (links.new ≡ [])) }
    ensures some { IfSome result (λ name. symbols_among links.old ≡ name.now ∷ symbols_among links.new) }
{
    'links: loop {
        if let Element::Symbol(name) = links.next()?.element {
            return Some(name);
        }
    }
}

impl<'a> Literals<'a> {
    /// The next literal, if one is left.
    pub fn next(&mut self) -> Option<Literal<'a>>
        ensures none { IfNone result ((self.old ≡ []) × (self.new ≡ [])) }
        ensures some { IfSome result (λ literal. self.old ≡ literal_as literal ∷ self.new) }
    {
        next_literal(&mut self.links)
    }
}

impl<'a> Symbols<'a> {
    /// The next symbol, if one is left.
    pub fn next(&mut self) -> Option<&'a [u8]>
        ensures none { IfNone result ((self.old ≡ []) × (self.new ≡ [])) }
        ensures some { IfSome result (λ name. self.old ≡ name.now ∷ self.new) }
    {
        next_symbol(&mut self.links)
    }
}

impl<'a> Expr<'a> {
    /// Its literals from left to right.
    pub fn literals(&self) -> Literals<'a>
        ensures { result ≡ literals_in self.now }
    {
        if self.known_plain {
            return Literals {
                links: Links::none(),
            };
        }
        Literals {
            links: self.links(),
        }
    }

    /// The names of its symbols from left to right; one that stands there twice comes twice.
    pub fn symbols(&self) -> Symbols<'a>
        ensures { result ≡ symbols_in self.now }
    {
        Symbols {
            links: self.links(),
        }
    }
}
