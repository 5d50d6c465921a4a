//! Sums taken apart: the registers that are added and subtracted, and the expression that the other
//! terms are (COMPASS 60492600, CPU instructions).
ghost use Rattle.std.specs.Prelude.{◌≡◌, ◌+◌, ◌≤◌, ◌++◌, ◌∷◌, [], length, ℕ, List, true};
ghost use Rattle.definitions.specs.Expressions.{ARegister, Add, OperatorElement, Term, grouped};
ghost use Rattle.definitions.specs.Matching as matching;
ghost use Rattle.definitions.specs.Matching.{onto_sum, sum_of};
ghost use Rattle.expr_forms.specs.Joins.Elements.{sign_as};
ghost use Rattle.expr_forms.specs.Joins.Links.{operator_as, link_as};
ghost use Rattle.expr_forms.specs.Joins.LoneRegisters.{has_no_factors};
ghost use Rattle.expr_forms.specs.Joins.Registers.{letter_of, register_as};
ghost use Rattle.expr_forms.specs.Joins.Sums.{with_register, AreRegisters, onto_sum_by, onto_sum_link, HasParts, sum_from, IsSum};

use crate::elements::{Element, Sign};
use crate::expressions::Expr;
use crate::links::{Link, Links, Operator, joins_terms};
use crate::register::{Register, RegisterKind};
use definitions::InlineText;

/// How many characters the registers of an instruction have at most, as in `-B1+X2`.
const MOST_CHARACTERS: usize = 6;

/// Registers with their signs as they are written; the first one has no plus.
pub type RegisterText = InlineText<MOST_CHARACTERS>;

/// The registers of a sum: their text, or that it has more characters than any instruction takes.
#[derive(Drop)]
pub enum SumRegisters {
    Text(RegisterText),
    TooMany,
}

/// A sum taken apart: the terms that are one register, and the expression that the others are, if
/// there are others.
#[derive(Drop)]
pub struct Sum<'a> {
    pub registers: SumRegisters,
    pub others: Option<Expr<'a>>,
}

/// What is found of a sum: the sign of its other terms, its registers, and whether there are other
/// terms.
#[derive(Drop)]
struct Parts {
    sign: Sign,
    registers: SumRegisters,
    others: bool,
}

/// The letter of a kind.
fn letter_of(kind: RegisterKind) -> u8
    ensures { result ≡ letter_of kind }
{
    match kind {
        RegisterKind::A => b'A',
        RegisterKind::B => b'B',
        RegisterKind::X => b'X',
    }
}

/// A text with its last register, which has no sign more.
fn with_digit(text: RegisterText, register: Register) -> RegisterText
    requires { length text + 2 ≤ 6 }
    ensures { result ≡ text ++ letter_of register.kind ∷ (48 + register.digit) ∷ [] }
{
    let mut text = text;
    text.push(letter_of(register.kind));
    text.push(b'0' + register.digit);
    text
}

/// A text with a sign and a register more.
fn with_sign(text: RegisterText, sign: u8, register: Register) -> SumRegisters
    ensures { AreRegisters result (text ++ sign ∷ letter_of register.kind ∷ (48 + register.digit) ∷ []) }
{
    let mut text = text;
    if text.as_slice().len() + 3 > MOST_CHARACTERS {
        return SumRegisters::TooMany;
    }
    text.push(sign);
    SumRegisters::Text(with_digit(text, register))
}

/// A text with a register more, which is added or subtracted.
fn with_register(text: RegisterText, operator: Operator, register: Register) -> SumRegisters
    ensures { AreRegisters result (with_register text (operator_as operator) (register_as register)) }
{
    match operator {
        Operator::Subtract => with_sign(text, b'-', register),
        _ => behind_plus(text, register),
    }
}

/// A text with a register more, which has no sign if it is the first one, else a plus.
fn behind_plus(text: RegisterText, register: Register) -> SumRegisters
    ensures { AreRegisters result (with_register text Add (register_as register)) }
{
    if text.as_slice().is_empty() {
        SumRegisters::Text(with_digit(text, register))
    } else {
        with_sign(text, b'+', register)
    }
}

/// Registers with one more.
fn registers_with(registers: SumRegisters, operator: Operator, register: Register) -> SumRegisters
    ensures { (text : List ℕ) → AreRegisters registers text → AreRegisters result (with_register text (operator_as operator) (register_as register)) }
{
    match registers {
        SumRegisters::TooMany => SumRegisters::TooMany,
        SumRegisters::Text(text) => with_register(text, operator, register),
    }
}

/// A sum with one term more that is a register alone.
fn with_lone(parts: Parts, operator: Operator, register: Register) -> Parts
    ensures { (sum : matching.Sum) (term : Term) → term.operator ≡ operator_as operator → HasParts parts sum →
        HasParts result (onto_sum term (ARegister (register_as register)) [] sum) }
{
    Parts {
        sign: Sign::Plus,
        registers: registers_with(parts.registers, operator, register),
        others: parts.others,
    }
}

/// A sum with one term more that is more than one register, or none.
fn with_other(parts: Parts) -> Parts
    ensures { (sum : matching.Sum) (term : Term) → HasParts parts sum →
        HasParts result (record sum { others = sum.others ++ term ∷ [] }) }
{
    Parts {
        sign: parts.sign,
        registers: parts.registers,
        others: true,
    }
}

/// A sum with one term more, whose first element is the link's, and which may have factors.
fn with_term(parts: Parts, link: Link<'_>, alone: bool) -> Parts
    ensures { (sum : matching.Sum) (factors : List OperatorElement) → alone ≡ has_no_factors factors → HasParts parts sum →
        HasParts result (onto_sum_by true (link_as link.entry) factors sum) }
{
    if !alone {
        return with_other(parts);
    }
    match link.element {
        Element::Register(register) => with_lone(parts, link.operator, register),
        _ => with_other(parts),
    }
}

/// A sum with one link more, by the links behind it: a factor is known by the term that it is in.
fn with_link(parts: Parts, link: Link<'_>, behind: &Links<'_>) -> Parts
    ensures { (sum : matching.Sum) → HasParts parts sum → HasParts result (onto_sum_link (link_as link.entry) behind.now sum) }
{
    if joins_terms(link.operator) {
        with_term(parts, link, behind.begins_term())
    } else {
        parts
    }
}

/// The parts of the sum of these links.
fn parts_of(sign: Sign, behind: Links<'_>) -> Parts
    ensures { HasParts result (sum_of (grouped behind.entry).terms (sum_from (sign_as sign))) }
{
    let mut links = behind;
    let mut parts = Parts {
        sign,
        registers: SumRegisters::Text(RegisterText::new()),
        others: false,
    };
    'links: loop {
        match links.next() {
            None => return parts,
            Some(link) => parts = with_link(parts, link, &links),
        }
    }
}

impl<'a> Expr<'a> {
    /// The registers among its terms, and the expression that its other terms are. Beside a register
    /// that expression has the sign plus.
    pub fn take_apart(&self) -> Sum<'a>
        ensures { IsSum result (sum_of self.now.terms (sum_from self.now.sign)) }
    {
        if self.known_plain {
            return Sum {
                registers: SumRegisters::Text(RegisterText::new()),
                others: Some(self.copied()),
            };
        }
        let parts = parts_of(self.sign(), self.links());
        let others = if parts.others {
            Some(self.without_registers(parts.sign))
        } else {
            None
        };
        Sum {
            registers: parts.registers,
            others,
        }
    }
}
