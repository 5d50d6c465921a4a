//! Forms: a number and at most one block or external with a sign (COMPASS 60492600, evaluation of
//! expressions), and where the forms of names come from.
ghost use Rattle.std.specs.Prelude.{◌≡◌, option_map};
ghost use Rattle.definitions.specs.Forms as definitions;
ghost use Rattle.definitions.specs.Forms.{same_relocation, absolute, is_absolute};
ghost use Rattle.expr_forms.specs.Joins.Elements.{literal_as};
ghost use Rattle.expr_forms.specs.Joins.FormsAs.{relocation_as, part_as};

use crate::elements::Literal;
use crate::names::Name;
use definitions::Letter;
use std::marker::Model;

/// What is known at the link alone: where a block stands, what an external is.
#[derive(Clone, Copy, PartialEq, Eq)]
pub enum Relocation {
    Block(Name),
    External(Name),
}

/// A relocation that is added, or subtracted.
#[derive(Clone, Copy, PartialEq, Eq)]
pub enum Part {
    Added(Relocation),
    Subtracted(Relocation),
}

impl Relocation {
    /// Whether this is the same block, or the same external.
    pub fn is_same(&self, other: &Relocation) -> bool
        ensures { result ≡ same_relocation (relocation_as self.now) (relocation_as other.now) }
    {
        match (self, other) {
            (Relocation::Block(name), Relocation::Block(other)) => name.is_same(other),
            (Relocation::External(name), Relocation::External(other)) => name.is_same(other),
            _ => false,
        }
    }
}

/// A number, and the relocation that is added to it or subtracted from it, if there is one.
/// Contracts see the definitions' form.
#[derive(Clone, Copy, PartialEq, Eq)]
pub struct Form {
    number: i64,
    part: Option<Part>,
}

impl Model for Form {
    ghost use Rattle.std.specs.Prelude.{option_map};
    ghost use Rattle.definitions.specs.Forms as definitions;

    ghost Value = { definitions.Form };

    ghost use Rattle.expr_forms.specs.Joins.FormsAs.{part_as, part_back, form_back};

    ghost view = { λ f. record { number = f.number; part = option_map part_as f.part } };

    ghost inverse = { λ v. record { number = v.number; part = option_map part_back v.part } };

    ghost inverse_ok = { λ f h i. record { number = f.number; part = form_back f.part i } };
}

impl Form {
    pub fn new(number: i64, part: Option<Part>) -> Form
        ensures { result ≡ record { number = number; part = option_map part_as part } }
    {
        Form { number, part }
    }

    /// A number without a relocation.
    pub fn absolute(number: i64) -> Form
        ensures { result ≡ absolute number }
    {
        Form { number, part: None }
    }

    pub fn is_absolute(self) -> bool
        ensures { result ≡ is_absolute self }
    {
        self.part.is_none()
    }

    pub fn number(self) -> i64
        ensures { result ≡ self.number }
    {
        self.number
    }

    pub fn part(self) -> Option<Part>
        ensures { option_map part_as result ≡ self.part }
    {
        self.part
    }
}

/// What an expression sees: symbols, literals, and the two counters. Contracts see the definitions'
/// record.
pub trait Names {
    ghost names: { Self → definitions.Names };

    /// The form of a symbol, if it has a definition that is seen.
    fn symbol(&self, name: &[u8]) -> Option<Form>
        ensures { result ≡ (names self.now).symbol name.now };

    /// The form of a literal, or its letter.
    fn literal(&self, literal: Literal<'_>) -> Result<Form, Letter>
        ensures { result ≡ (names self.now).literal (literal_as literal.entry) };

    /// The form of the location counter.
    fn location(&self) -> Form
        ensures { result ≡ (names self.now).location };

    /// The form of the origin counter.
    fn origin(&self) -> Form
        ensures { result ≡ (names self.now).origin };
}
