//! The patterns as texts, part by part.
ghost use Rattle.std.specs.Prelude.{◌≡◌, ◌==◌};
ghost use Rattle.std.specs.List.{slice_split};
ghost use Rattle.cpu_opcodes.specs.Joins.CodeTexts.{operand_text, registers_text};
ghost use Rattle.cpu_opcodes.specs.Joins.Parts.{parts_as, AreParts};

use crate::patterns::{OperandPattern, SumPattern};

/// The pattern of a subfield: an expression in 18 bits, one in 6 bits, or registers.
#[derive(Clone, Copy)]
pub(crate) enum Part {
    K,
    N,
    Registers(&'static [u8]),
}

/// The patterns of one to three subfields.
#[derive(Clone, Copy)]
pub(crate) enum Parts {
    One(Part),
    Two(Part, Part),
    Three(Part, Part, Part),
}

impl OperandPattern {
    /// The pattern of each subfield.
    pub(crate) fn parts(self) -> Parts
        ensures texts { parts_as result ≡ slice_split (λ c. c == 44) (operand_text self) }
        ensures lawful { AreParts result }
    {
        match self {
            OperandPattern::K => Parts::One(Part::K),
            OperandPattern::XjK => Parts::Two(Part::Registers(b"Xj"), Part::K),
            OperandPattern::BiK => Parts::Two(Part::Registers(b"Bi"), Part::K),
            OperandPattern::BiBjK => {
                Parts::Three(Part::Registers(b"Bi"), Part::Registers(b"Bj"), Part::K)
            }
            OperandPattern::Xj => Parts::One(Part::Registers(b"Xj")),
            OperandPattern::XjTimesXk => Parts::One(Part::Registers(b"Xj*Xk")),
            OperandPattern::XjPlusXk => Parts::One(Part::Registers(b"Xj+Xk")),
            OperandPattern::XjMinusXk => Parts::One(Part::Registers(b"Xj-Xk")),
            OperandPattern::MinusXk => Parts::One(Part::Registers(b"-Xk")),
            OperandPattern::MinusXkTimesXj => Parts::One(Part::Registers(b"-Xk*Xj")),
            OperandPattern::MinusXkPlusXj => Parts::One(Part::Registers(b"-Xk+Xj")),
            OperandPattern::MinusXkMinusXj => Parts::One(Part::Registers(b"-Xk-Xj")),
            OperandPattern::N => Parts::One(Part::N),
            OperandPattern::XjOverXk => Parts::One(Part::Registers(b"Xj/Xk")),
            OperandPattern::Xk => Parts::One(Part::Registers(b"Xk")),
            OperandPattern::BjXk => Parts::Two(Part::Registers(b"Bj"), Part::Registers(b"Xk")),
            OperandPattern::XkBj => Parts::Two(Part::Registers(b"Xk"), Part::Registers(b"Bj")),
        }
    }
}

impl SumPattern {
    /// The text of the registers.
    pub(crate) fn text(self) -> &'static [u8]
        ensures { result.now ≡ registers_text self }
    {
        match self {
            SumPattern::NoRegister => b"",
            SumPattern::Bi => b"Bi",
            SumPattern::Aj => b"Aj",
            SumPattern::Bj => b"Bj",
            SumPattern::Xj => b"Xj",
            SumPattern::MinusBk => b"-Bk",
            SumPattern::XjPlusBk => b"Xj+Bk",
            SumPattern::BkPlusXj => b"Bk+Xj",
            SumPattern::AjPlusBk => b"Aj+Bk",
            SumPattern::BkPlusAj => b"Bk+Aj",
            SumPattern::AjMinusBk => b"Aj-Bk",
            SumPattern::MinusBkPlusAj => b"-Bk+Aj",
            SumPattern::BjPlusBk => b"Bj+Bk",
            SumPattern::BjMinusBk => b"Bj-Bk",
            SumPattern::MinusBkPlusBj => b"-Bk+Bj",
        }
    }
}
