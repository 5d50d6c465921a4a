//! Expressions as their texts: shorter than what was read of them, for those that are seldom asked for.
ghost use Rattle.std.specs.Prelude.{◌≡◌, ◌≤◌, length};
ghost use Rattle.definitions.specs.Pieces.{pieces_of};
ghost use Rattle.definitions.specs.Expressions.{expression_of};

use crate::expressions::Expr;
use definitions::NumberBase;
use std::marker::Model;

/// A text of at most 711 characters with its number base. Contracts see the expression that it
/// spells, if it spells one.
#[derive(Drop)]
pub struct ExprText<'a> {
    text: &'a [u8],
    base: NumberBase,
}

impl<'a> Model for ExprText<'a> {
    ghost use Rattle.std.specs.Prelude.{Option, ◌≤◌, length};
    ghost use Rattle.definitions.specs.Pieces.{pieces_of};
    ghost use Rattle.definitions.specs.Expressions.{Expression, expression_of};

    ghost Value = { Option Expression };

    ghost view = { λ t. expression_of t.base (pieces_of t.text.now) };

    ghost invariant = { λ t. length t.text.now ≤ 711 };
}

impl<'a> ExprText<'a> {
    /// A text of at most 711 characters, in this number base.
    pub fn new(text: &'a [u8], base: NumberBase) -> ExprText<'a>
        requires { length text.now ≤ 711 }
        ensures { result ≡ expression_of base (pieces_of text.now) }
    {
        ExprText { text, base }
    }

    /// The expression, which is read once more.
    pub fn expression(&self) -> Option<Expr<'a>>
        ensures { result ≡ self.now }
    {
        Expr::parse(self.text, self.base).ok()
    }
}
