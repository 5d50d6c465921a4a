//! The fields of an instruction: its digits, and what stands behind them (6600 reference 60100000,
//! instruction formats, peripheral instructions).
ghost use Rattle.std.specs.Prelude.{◌≡◌, ◌*◌, ◌∷◌, [], ℕ, List, drop, false, take, ◌≤◌};
ghost use Rattle.definitions.specs.Expressions.{Expression};
ghost use Rattle.definitions.specs.Settled.{Settled};
ghost use Rattle.definitions.specs.StatementItems.{known, second_value};
ghost use Rattle.expr_forms.specs.Joins.Shapes.{long_values};
ghost use Rattle.statement_coder.specs.Joins.CodedItems.{AreCodedAs, is_zeros};
ghost use Rattle.statement_coder.specs.Joins.FieldItems.{items_behind};
ghost use Rattle.statement_coder.specs.Joins.Items.{item_as, letters_as, deck_with, AreSeen};

use crate::coded::{Coded, CodedItems};
use crate::item_letters::list_letters;
use crate::items::{Item, known};
use crate::numbers::BlockBases;
use crate::six_bits::{count_item, displacement_item, shift_item};
use crate::size_letters::with_letter;
use crate::values::expression_item;
use definitions::DeckKind;
use expr_forms::{ExprText, Field, Names, Shape};
use operations::Letters;

/// The digits of an instruction alone.
fn alone<'a>(digits: Item, room: &'a mut [Item; 3]) -> Coded<'a>
    requires { letters_as digits.letter ≡ [] }
    ensures coded { AreCodedAs (item_as digits ∷ []) result }
    ensures some { is_zeros result.items ≡ false }
{
    room[0] = digits;
    Coded {
        items: CodedItems::Instruction(room.as_slice().split_at(1).0),
        letters: Letters::none(),
    }
}

/// The digits of an instruction, and a field behind them.
#[inline(always)]
fn behind<'a>(digits: Item, field: Item, room: &'a mut [Item; 3]) -> Coded<'a>
    requires { letters_as digits.letter ≡ [] }
    ensures coded { AreCodedAs (item_as digits ∷ item_as field ∷ []) result }
    ensures some { is_zeros result.items ≡ false }
{
    let letters = with_letter(&Letters::none(), field.letter);
    room[0] = digits;
    room[1] = field;
    Coded {
        items: CodedItems::Instruction(room.as_slice().split_at(2).0),
        letters,
    }
}

/// The digits of an instruction, and two fields behind them.
fn together<'a>(digits: Item, first: Item, second: Item, room: &'a mut [Item; 3]) -> Coded<'a>
    ensures coded { AreCodedAs (item_as digits ∷ item_as first ∷ item_as second ∷ []) result }
    ensures some { is_zeros result.items ≡ false }
{
    room[0] = digits;
    room[1] = first;
    room[2] = second;
    Coded {
        letters: list_letters(room.as_slice()),
        items: CodedItems::Instruction(room.as_slice()),
    }
}

/// The digits of an instruction.
fn digits_of(shape: &Shape<'_>) -> Item
    ensures { item_as result ≡ known (3 * shape.now.digit_count) shape.now.digits }
{
    known(3 * u32::from(shape.digit_count), u64::from(shape.digits))
}

/// d behind m, or 0 where m stands alone.
fn second_value<B: BlockBases, N: Names>(
    kind: DeckKind,
    bases: &B,
    names: &N,
    d: &ExprText<'_>,
) -> Item
    ensures { (settled : List Settled) (literals : List ℕ) (statement : Settled) →
        let context = deck_with kind (B.rows bases.now) settled literals in
        AreSeen (N.names names.now) context statement →
        (m : Expression) → item_as result ≡ second_value context statement (drop 1 (long_values m d.now)) }
{
    match d.expression() {
        Some(d) => expression_item(kind, bases, names, 6, &d),
        None => known(6, 0),
    }
}

/// The fields of an instruction, with the letters that flag them.
pub(crate) fn instruction_fields<'a, B: BlockBases, N: Names>(
    kind: DeckKind,
    bases: &B,
    names: &N,
    shape: &Shape<'_>,
    room: &'a mut [Item; 3],
) -> Coded<'a>
    ensures coded { (settled : List Settled) (literals : List ℕ) (statement : Settled) →
        let context = deck_with kind (B.rows bases.now) settled literals in
        AreSeen (N.names names.now) context statement →
        AreCodedAs (known (3 * shape.now.digit_count) shape.now.digits ∷ items_behind context statement shape.now.field) result }
    ensures some { is_zeros result.items ≡ false }
{
    let digits = digits_of(shape);
    match &shape.field {
        Field::Absent => alone(digits, room),
        Field::Address(k) => behind(digits, expression_item(kind, bases, names, 18, k), room),
        Field::Count(n) => behind(digits, count_item(names, n), room),
        Field::Zero => behind(digits, known(6, 0), room),
        Field::Short(d) => behind(digits, expression_item(kind, bases, names, 6, d), room),
        Field::Displacement(d) => behind(digits, displacement_item(kind, bases, names, d), room),
        Field::Shift(d) => behind(digits, shift_item(kind, bases, names, d), room),
        Field::Wide(value) => behind(digits, expression_item(kind, bases, names, 18, value), room),
        Field::Long(m, d) => {
            let d = second_value(kind, bases, names, d);
            let m = expression_item(kind, bases, names, 12, m);
            together(digits, d, m, room)
        }
    }
}
