//! Operands against the patterns of rows, subfield by subfield.
ghost use Rattle.std.specs.Prelude.{◌≡◌, ◌==◌, List, Some, IsTrue, option_map, option_and_then};
ghost use Rattle.std.specs.List.{slice_split};
ghost use Rattle.definitions.specs.Pieces.{Piece};
ghost use Rattle.definitions.specs.Matching.{NoField, subfield_matched, subfields_matched};
ghost use Rattle.definitions.specs.declared.number_base.NumberBase.{NumberBase};
ghost use Rattle.expr_forms.specs.Joins.Operands.{IsSubfield, IsOperand};
ghost use Rattle.cpu_opcodes.specs.Joins.RegistersFound.{digits_as};
ghost use Rattle.cpu_opcodes.specs.Joins.CodeTexts.{operand_text};
ghost use Rattle.cpu_opcodes.specs.Joins.Parts.{part_text, is_part};
ghost use Rattle.cpu_opcodes.specs.Joins.Found.{found_as};

use crate::found::{CentralField, Found};
use crate::parts::{Part, Parts};
use crate::patterns::OperandPattern;
use crate::registers_found::RegistersFound;
use crate::text_match::matched;
use expr_forms::{Operand, Subfield};

/// What a subfield gives beside what was found before, if it fits its pattern.
fn subfield_fit<'e, 'a>(
    part: Part,
    subfield: &'e Subfield<'a>,
    found: Found<'e, 'a>,
) -> Option<Found<'e, 'a>>
    requires { IsTrue (is_part part) }
    ensures { (base : NumberBase) (pieces : List Piece) → IsSubfield base pieces subfield.now →
        option_map found_as result ≡ subfield_matched base (part_text part) pieces (found_as found.entry) }
{
    match part {
        Part::K => {
            if subfield.expression.is_plain(true) {
                Some(Found {
                    registers: found.registers,
                    field: CentralField::Address(&subfield.expression),
                })
            } else {
                None
            }
        }
        Part::N => {
            if subfield.expression.is_plain(true) {
                Some(Found {
                    registers: found.registers,
                    field: CentralField::Count(&subfield.expression),
                })
            } else {
                None
            }
        }
        Part::Registers(pattern) => match matched(pattern, subfield.text, found.registers) {
            Some(registers) => Some(Found {
                registers,
                field: found.field,
            }),
            None => None,
        },
    }
}

/// What a subfield gives beside what those before it gave, if they fit.
fn next_fit<'e, 'a>(
    part: Part,
    subfield: &'e Subfield<'a>,
    found: Option<Found<'e, 'a>>,
) -> Option<Found<'e, 'a>>
    requires { IsTrue (is_part part) }
    ensures { (base : NumberBase) (pieces : List Piece) → IsSubfield base pieces subfield.now →
        option_map found_as result ≡ option_and_then (subfield_matched base (part_text part) pieces) (option_map found_as found.entry) }
{
    match found {
        Some(before) => subfield_fit(part, subfield, before),
        None => None,
    }
}

/// What an operand gives beside the digits of its operation, if it fits a pattern.
pub(crate) fn operand_fit<'e, 'a>(
    pattern: OperandPattern,
    operand: &'e Operand<'a>,
    registers: RegistersFound,
) -> Option<Found<'e, 'a>>
    ensures { (base : NumberBase) (subfields : List (List Piece)) → IsOperand base subfields operand.now →
        option_map found_as result
        ≡ subfields_matched base (slice_split (λ c. c == 44) (operand_text pattern)) subfields (Some (record { ijk = digits_as registers; field = NoField })) }
{
    let start = Some(Found {
        registers,
        field: CentralField::Absent,
    });
    match pattern.parts() {
        Parts::One(p) => match operand {
            Operand::One(a) => next_fit(p, a, start),
            Operand::Two(_, _, _) => None,
            Operand::Three(_, _, _) => None,
        },
        Parts::Two(p, q) => match operand {
            Operand::One(_) => None,
            Operand::Two(a, b, _) => next_fit(q, b, next_fit(p, a, start)),
            Operand::Three(_, _, _) => None,
        },
        Parts::Three(p, q, r) => match operand {
            Operand::One(_) => None,
            Operand::Two(_, _, _) => None,
            Operand::Three(a, b, c) => next_fit(r, c, next_fit(q, b, next_fit(p, a, start))),
        },
    }
}
