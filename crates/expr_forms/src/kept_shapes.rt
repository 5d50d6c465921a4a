//! Instructions that borrow no text, so that they can be kept.
ghost use Rattle.std.specs.Prelude.{◌≡◌, IfSome};
ghost use Rattle.expr_forms.specs.Joins.Kept.{field_of, shape_of};

use crate::kept_expressions::KeptExpr;
use crate::shapes::{Field, Shape};

/// What stands behind the digits of an instruction, but for two values of a peripheral one.
#[derive(Drop)]
pub enum KeptField {
    Absent,
    Address(KeptExpr),
    Count(KeptExpr),
    Zero,
    Short(KeptExpr),
    Displacement(KeptExpr),
    Shift(KeptExpr),
    Wide(KeptExpr),
}

/// An instruction: its octal digits as a number, how many they are, and the field behind them.
#[derive(Drop)]
pub struct KeptShape {
    pub digits: u16,
    pub digit_count: u8,
    pub field: KeptField,
}

impl Field<'_> {
    /// The same field without what it borrows, where that can be.
    #[inline(always)]
    fn kept(&self) -> Option<KeptField>
        ensures { IfSome result (λ kept. field_of kept ≡ self.now) }
    {
        match self {
            Field::Absent => Some(KeptField::Absent),
            Field::Address(e) => Some(KeptField::Address(e.kept()?)),
            Field::Count(e) => Some(KeptField::Count(e.kept()?)),
            Field::Zero => Some(KeptField::Zero),
            Field::Short(e) => Some(KeptField::Short(e.kept()?)),
            Field::Displacement(e) => Some(KeptField::Displacement(e.kept()?)),
            Field::Shift(e) => Some(KeptField::Shift(e.kept()?)),
            Field::Wide(e) => Some(KeptField::Wide(e.kept()?)),
            Field::Long(_, _) => None,
        }
    }
}

impl KeptField {
    /// The field, as it was read.
    #[inline(always)]
    fn field(&self) -> Field<'_>
        ensures { result ≡ field_of self.now }
    {
        match self {
            KeptField::Absent => Field::Absent,
            KeptField::Address(e) => Field::Address(e.expression()),
            KeptField::Count(e) => Field::Count(e.expression()),
            KeptField::Zero => Field::Zero,
            KeptField::Short(e) => Field::Short(e.expression()),
            KeptField::Displacement(e) => Field::Displacement(e.expression()),
            KeptField::Shift(e) => Field::Shift(e.expression()),
            KeptField::Wide(e) => Field::Wide(e.expression()),
        }
    }
}

impl Shape<'_> {
    /// The same instruction without what it borrows, where that can be.
    #[inline(always)]
    pub fn kept(&self) -> Option<KeptShape>
        ensures { IfSome result (λ kept. shape_of kept ≡ self.now) }
    {
        let Ok(digits) = u16::try_from(self.digits) else {
            return None;
        };
        let field = self.field.kept()?;
        Some(KeptShape {
            digits,
            digit_count: self.digit_count,
            field,
        })
    }
}

impl KeptShape {
    /// The instruction, as it was read.
    #[inline(always)]
    pub fn shape(&self) -> Shape<'_>
        ensures { result ≡ shape_of self.now }
    {
        Shape {
            digits: u32::from(self.digits),
            digit_count: self.digit_count,
            field: self.field.field(),
        }
    }
}
