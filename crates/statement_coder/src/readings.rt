//! What the variable field of a statement is to its operation, before any name is known
//! (COMPASS 60492600, variable field).
ghost use Rattle.std.specs.Prelude.{◌≡◌, ◌≤◌, true, false, length, is_some, option_and_then, IfSome, IsTrue};
ghost use Rattle.definitions.specs.Pieces.{pieces_of, subfields_of};
ghost use Rattle.definitions.specs.PeripheralTable.{peripheral_row};
ghost use Rattle.definitions.specs.Operands.{operand_of, central_operand, peripheral_operand, base_operand, words_operand, bits_operand, all_read, data_word, con_word, vfd_field, one_value, dis_operand, use_operand};
ghost use Rattle.definitions.specs.Matching.{central_of};
ghost use Rattle.definitions.specs.Kinds.{allows_literals};
ghost use Rattle.definitions.specs.Operations.{is_data};
ghost use Rattle.expr_forms.specs.Joins.Shapes.{instruction_as};
ghost use Rattle.operations.specs.Joins.OperationsAs.{operation_as};
ghost use Rattle.statement_coder.specs.Joins.Readings.{IsReading, IsLawful, is_listed};

use definitions::{DeckKind, NumberBase};
use expr_forms::{
    BitFields, ConWords, DataWords, DisText, Expr, LinkedNames, Operand, Shape, Subfield, UseField,
    dis_text, number_base, one_value, operand, use_field,
};
use operations::Operation;

/// What was read in a variable field.
#[derive(Drop)]
pub enum Reading<'a> {
    /// The operation reads nothing.
    Unread,
    /// Flagged V.
    Bad,
    Instruction(Shape<'a>),
    Data(DataWords<'a>),
    Con(ConWords<'a>),
    Vfd(BitFields<'a>),
    Text(DisText<'a>),
    /// The one value of BSS, BSSZ, ORG, LOC and EQU.
    Value(Expr<'a>),
    /// The names of ENTRY and EXT.
    Names(LinkedNames<'a>),
    Use(UseField),
}

/// The central instruction of a field that is no expression, if it is one: what is no operand is one to PS and
/// NO alone, which read none.
#[inline(never)]
fn shape_of_subfields<'a>(base: NumberBase, name: &[u8], text: &'a [u8]) -> Option<Shape<'a>>
    requires { length text.now ≤ 711 }
    ensures instruction { option_and_then instruction_as result ≡ central_of base name.now (subfields_of (pieces_of text.now)) }
    ensures central { IfSome result (λ shape. IsTrue (is_some (instruction_as shape))) }
{
    match operand(text, base) {
        Ok(operand) => match cpu_opcodes::find(name, &operand) {
            Ok(shape) => Some(shape),
            Err(_) => None,
        },
        Err(_) => cpu_opcodes::ignoring(name),
    }
}

/// The operand of a central instruction. A field that is an expression has no comma, so it is not cut.
#[inline(always)]
fn read_central<'a>(base: NumberBase, name: &[u8], text: &'a [u8]) -> Reading<'a>
    requires { length text.now ≤ 711 }
    ensures reading { IsReading result (central_operand (central_of base name.now (subfields_of (pieces_of text.now)))) }
    ensures lawful { IsLawful result }
    ensures unlisted { is_listed result ≡ false }
{
    match Expr::parse(text, base) {
        Ok(expression) => {
            let operand = Operand::One(Subfield { text, expression });
            match cpu_opcodes::find(name, &operand) {
                Ok(shape) => Reading::Instruction(shape),
                Err(_) => Reading::Bad,
            }
        }
        Err(_) => match shape_of_subfields(base, name, text) {
            Some(shape) => Reading::Instruction(shape),
            None => Reading::Bad,
        },
    }
}

/// The operand of a peripheral instruction.
#[inline(always)]
fn read_peripheral<'a>(base: NumberBase, name: &[u8], text: &'a [u8]) -> Reading<'a>
    requires { length text.now ≤ 711 }
    ensures reading { IsReading result (peripheral_operand base (peripheral_row name.now) (subfields_of (pieces_of text.now))) }
    ensures lawful { IsLawful result }
    ensures unlisted { is_listed result ≡ false }
{
    match ppu_opcodes::ignoring(name) {
        Some(shape) => Reading::Instruction(shape),
        None => match operand(text, base) {
            Err(_) => Reading::Bad,
            Ok(operand) => match ppu_opcodes::find(name, &operand) {
                Ok(shape) => Reading::Instruction(shape),
                Err(_) => Reading::Bad,
            },
        },
    }
}

/// Whether a deck of this kind may have literals in CON and VFD.
fn allows_literals(kind: DeckKind) -> bool
    ensures { result ≡ allows_literals kind }
{
    match kind {
        DeckKind::Periph => false,
        DeckKind::Rel | DeckKind::Abs => true,
    }
}

/// The operand of DATA.
#[inline(always)]
fn read_data(base: NumberBase, text: &[u8]) -> Reading<'_>
    requires { length text.now ≤ 711 }
    ensures reading { IsReading result (words_operand (all_read (data_word base) (subfields_of (pieces_of text.now)))) }
    ensures lawful { IsLawful result }
{
    match DataWords::read(text, base) {
        Ok(words) => Reading::Data(words),
        Err(_) => Reading::Bad,
    }
}

/// The operand of CON.
#[inline(always)]
fn read_con(kind: DeckKind, base: NumberBase, text: &[u8]) -> Reading<'_>
    requires { length text.now ≤ 711 }
    ensures reading { IsReading result (words_operand (all_read (con_word (allows_literals kind) base) (subfields_of (pieces_of text.now)))) }
    ensures lawful { IsLawful result }
{
    match ConWords::read(text, allows_literals(kind), base) {
        Ok(words) => Reading::Con(words),
        Err(_) => Reading::Bad,
    }
}

/// The operand of VFD.
#[inline(always)]
fn read_vfd(kind: DeckKind, base: NumberBase, text: &[u8]) -> Reading<'_>
    requires { length text.now ≤ 711 }
    ensures reading { IsReading result (bits_operand (all_read (vfd_field (allows_literals kind) base) (subfields_of (pieces_of text.now)))) }
    ensures lawful { IsLawful result }
{
    match BitFields::read(text, allows_literals(kind), base) {
        Ok(fields) => Reading::Vfd(fields),
        Err(_) => Reading::Bad,
    }
}

/// The operand of DIS.
#[inline(always)]
fn read_dis(kind: DeckKind, base: NumberBase, text: &[u8]) -> Reading<'_>
    ensures reading { IsReading result (dis_operand kind base text.now) }
    ensures lawful { IsLawful result }
{
    match dis_text(text, base, kind) {
        Ok(dis) => Reading::Text(dis),
        Err(_) => Reading::Bad,
    }
}

/// The operand of BSS, BSSZ, ORG, LOC and EQU.
#[inline(always)]
fn read_value(base: NumberBase, text: &[u8]) -> Reading<'_>
    requires { length text.now ≤ 711 }
    ensures reading { IsReading result (one_value base (subfields_of (pieces_of text.now))) }
    ensures lawful { IsLawful result }
    ensures unlisted { is_listed result ≡ false }
{
    match one_value(text, base) {
        Ok(expression) => Reading::Value(expression),
        Err(_) => Reading::Bad,
    }
}

/// The operand of BASE.
#[inline(always)]
fn read_base(text: &[u8]) -> Reading<'_>
    ensures reading { IsReading result (base_operand text.now) }
    ensures lawful { IsLawful result }
    ensures unlisted { is_listed result ≡ false }
{
    match number_base(text) {
        Ok(_) => Reading::Unread,
        Err(_) => Reading::Bad,
    }
}

/// The operand of USE.
#[inline(always)]
fn read_use(kind: DeckKind, text: &[u8]) -> Reading<'_>
    ensures reading { IsReading result (use_operand kind text.now) }
    ensures lawful { IsLawful result }
    ensures unlisted { is_listed result ≡ false }
{
    Reading::Use(use_field(text, kind))
}

/// What a variable field of at most 711 characters is to an operation of this name, in a deck of
/// this kind: `Bad` where it is flagged V.
#[inline(always)]
pub fn read_operand<'a>(
    kind: DeckKind,
    base: NumberBase,
    operation: Operation,
    name: &[u8],
    text: &'a [u8],
) -> Reading<'a>
    requires { length text.now ≤ 711 }
    ensures reading { IsReading result (operand_of kind base (operation_as operation) name.now text.now) }
    ensures lawful { IsLawful result }
    ensures listed { is_listed result ≡ true → is_data (operation_as operation) ≡ true }
{
    match operation {
        Operation::Base => read_base(text),
        Operation::Use => read_use(kind, text),
        Operation::Org => read_value(base, text),
        Operation::Loc => read_value(base, text),
        Operation::Equ => read_value(base, text),
        Operation::Bss => read_value(base, text),
        Operation::Bssz => read_value(base, text),
        Operation::Data => read_data(base, text),
        Operation::Con => read_con(kind, base, text),
        Operation::Vfd => read_vfd(kind, base, text),
        Operation::Dis => read_dis(kind, base, text),
        Operation::Entry => Reading::Names(LinkedNames::new(text)),
        Operation::Ext => Reading::Names(LinkedNames::new(text)),
        Operation::Instruction => match kind {
            DeckKind::Periph => read_peripheral(base, name, text),
            DeckKind::Rel => read_central(base, name, text),
            DeckKind::Abs => read_central(base, name, text),
        },
        _ => Reading::Unread,
    }
}
