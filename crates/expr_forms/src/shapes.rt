//! Instructions before any name is known: their octal digits, and the field behind these.
ghost use Rattle.std.specs.Prelude.{◌≡◌};
ghost use Rattle.expr_forms.specs.Joins.Shapes.{field_bits, shape_bits};

use crate::expression_texts::ExprText;
use crate::expressions::Expr;

/// What stands behind the digits of an instruction: the first three of a central one, the others of
/// a peripheral one (6600 reference 60100000, instruction formats, peripheral instructions).
#[derive(Drop)]
pub enum Field<'a> {
    /// Nothing.
    Absent,
    /// K, an address in 18 bits.
    Address(Expr<'a>),
    /// n, a count in 6 bits.
    Count(Expr<'a>),
    /// The operand is ignored: d is 0.
    Zero,
    /// d in 6 bits.
    Short(Expr<'a>),
    /// A displacement in 6 bits.
    Displacement(Expr<'a>),
    /// A shift count in 6 bits.
    Shift(Expr<'a>),
    /// 18 bits: d and a second word.
    Wide(Expr<'a>),
    /// m in a second word, and the text of d, 0 where it is not written.
    Long(Expr<'a>, ExprText<'a>),
}

/// An instruction: its octal digits as a number, how many they are, and the field behind them.
#[derive(Drop)]
pub struct Shape<'a> {
    pub digits: u32,
    pub digit_count: u8,
    pub field: Field<'a>,
}

impl<'a> Field<'a> {
    /// How many bits it has.
    pub fn bits(&self) -> u32
        ensures { result ≡ field_bits self.now }
    {
        match self {
            Field::Absent => 0,
            Field::Address(_) | Field::Wide(_) | Field::Long(_, _) => 18,
            _ => 6,
        }
    }
}

impl<'a> Shape<'a> {
    /// How many bits it has: three a digit, and those of its field. Of a row of a table these are 15
    /// or 30, and 12 or 24 in a peripheral deck.
    pub fn width(&self) -> u32
        ensures { result ≡ shape_bits self.now }
    {
        3 * u32::from(self.digit_count) + self.field.bits()
    }
}
