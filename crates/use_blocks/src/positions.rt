//! Where the statements of a block have come to, and the LOC in force in it (COMPASS 60492600,
//! forcing upper, LOC).
ghost use Rattle.std.specs.Prelude.{◌≡◌, ◌≤◌, IsTrue, option_map};
ghost use Rattle.std.specs.Bool.{Decides};
ghost use Rattle.definitions.specs.Forms.{is_in_range};
ghost use Rattle.definitions.specs.Places.{no_position};
ghost use Rattle.expr_forms.specs.Joins.FormsAs.{relocation_as, part_as};

use expr_forms::{Form, Name, Part, Relocation};
use std::marker::Model;

/// The end of the latest statement of a block that has a place, in units of the block, at most the
/// 524,288 parcels of a block, and whether that statement asks that the next instruction is upper.
/// Contracts see the definitions' record.
#[derive(Clone, Copy)]
pub struct Position {
    end: u32,
    asks: bool,
}

impl Model for Position {
    ghost use Rattle.definitions.specs.Places as places;

    ghost Value = { places.Position };

    ghost view = { λ p. record { end = p.end; asks = p.asks } };

    ghost use Rattle.std.specs.Prelude.{◌≤◌};

    ghost invariant = { λ p. p.end ≤ 524288 };

    ghost inverse = { λ v. record { end = v.end; asks = v.asks } };
}

impl Position {
    /// The position behind a statement that ends here.
    pub fn new(end: u32, asks: bool) -> Position
        requires { end ≤ 524288 }
        ensures { result ≡ record { end = end; asks = asks } }
    {
        Position { end, asks }
    }

    /// The end, in units of the block.
    pub fn end(self) -> u32
        ensures end { result ≡ self.end }
        ensures within { result ≤ 524288 }
    {
        self.end
    }

    /// Whether the next instruction is to be upper.
    pub fn asks(self) -> bool
        ensures { result ≡ self.asks }
    {
        self.asks
    }

    /// Where a block begins.
    pub fn start() -> Position
        ensures { result ≡ no_position }
    {
        Position {
            end: 0,
            asks: false,
        }
    }

    /// Whether both are the same.
    pub fn is_same(&self, other: &Position) -> bool
        ensures { Decides result (self.now ≡ other.now) }
    {
        self.end == other.end && self.asks == other.asks
    }
}

/// A LOC in force: the value that it set, whose number is in the range of values, and its place in
/// units of its block. Contracts see the definitions' record.
#[derive(Clone, Copy, PartialEq, Eq)]
pub struct Counting {
    form: Form,
    place: u32,
}

impl Model for Counting {
    ghost use Rattle.std.specs.Prelude.{IsTrue};
    ghost use Rattle.definitions.specs.Forms.{is_in_range};
    ghost use Rattle.definitions.specs.Settled as settled;

    ghost Value = { settled.Counting };

    ghost view = { λ c. record { form = c.form; place = c.place } };

    ghost invariant = { λ c. IsTrue (is_in_range c.form.number) };

    ghost inverse = { λ v. record { form = v.form; place = v.place } };
}

impl Counting {
    /// The LOC of this value at this place.
    pub fn new(form: Form, place: u32) -> Counting
        requires { IsTrue (is_in_range form.number) }
        ensures { result ≡ record { form = form; place = place } }
    {
        Counting { form, place }
    }

    /// The value that it set.
    pub fn form(&self) -> Form
        ensures form { result ≡ self.now.form }
        ensures range { IsTrue (is_in_range result.number) }
    {
        self.form
    }

    /// Where it stands.
    pub fn place(&self) -> u32
        ensures { result ≡ self.now.place }
    {
        self.place
    }

    /// Whether both are the same.
    pub fn is_same(&self, other: &Counting) -> bool
        ensures { Decides result (self.now ≡ other.now) }
    {
        is_same_form(self.form, other.form) && self.place == other.place
    }
}

/// Whether both forms are the same.
pub fn is_same_form(form: Form, other: Form) -> bool
    ensures { Decides result (form ≡ other) }
{
    form.number() == other.number() && is_same_part(form.part(), other.part())
}

/// Whether both parts are the same, or both are absent.
fn is_same_part(part: Option<Part>, other: Option<Part>) -> bool
    ensures { Decides result (option_map part_as part ≡ option_map part_as other) }
{
    match (part, other) {
        (None, None) => true,
        (None, Some(_)) => false,
        (Some(_), None) => false,
        (Some(part), Some(other)) => is_same_signed(part, other),
    }
}

fn is_same_signed(part: Part, other: Part) -> bool
    ensures { Decides result (part_as part ≡ part_as other) }
{
    match (part, other) {
        (Part::Added(relocation), Part::Added(other)) => is_same_relocation(relocation, other),
        (Part::Added(_), Part::Subtracted(_)) => false,
        (Part::Subtracted(_), Part::Added(_)) => false,
        (Part::Subtracted(relocation), Part::Subtracted(other)) => {
            is_same_relocation(relocation, other)
        }
    }
}

fn is_same_relocation(relocation: Relocation, other: Relocation) -> bool
    ensures { Decides result (relocation_as relocation ≡ relocation_as other) }
{
    relocation.is_same(&other)
}

/// Whether both names are the same.
pub(crate) fn is_same_name(name: &Name, other: &Name) -> bool
    ensures { Decides result (name.now ≡ other.now) }
{
    name.is_same(other)
}
