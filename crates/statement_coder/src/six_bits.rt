//! Fields of 6 bits with a rule of their own: the counts of LX, AX and MX, that of SHN, and the
//! displacement of a short jump.
ghost use Rattle.std.specs.Prelude.{◌≡◌, ◌<◌, ◌^◌, ◌&&◌, ◌-ℤ◌, ℕ, List, pos, unsigned_abs};
ghost use Rattle.definitions.specs.Forms.{absolute, is_absolute};
ghost use Rattle.definitions.specs.Coding.{counted_item_in};
ghost use Rattle.definitions.specs.Laws.ItemTexts.{item_as as item_as_text};
ghost use Rattle.definitions.specs.Settled.{Settled};
ghost use Rattle.definitions.specs.StatementItems as definitions;
ghost use Rattle.definitions.specs.StatementItems.{counted_item_value, small_value, whole_counted_item, count_of, shift_of, short_item, is_short, number_in, displacement_of};
ghost use Rattle.definitions.specs.declared.deck_kind.DeckKind.{DeckKind};
ghost use Rattle.statement_coder.specs.Joins.Items.{item_as, deck_with, AreSeen};

use crate::items::{Item, faulty, known};
use crate::numbers::{BlockBases, number_in};
use definitions::{DeckKind, ItemText, Letter};
use expr_forms::{CountedItem, Expr, Form, Names, counted_item_in, value};

/// Six bits as a value.
fn small_form(bits: u64) -> Form
    requires { bits < 2 ^ 6 }
    ensures { result ≡ absolute (pos bits) }
{
    Form::absolute(bits as i64)
}

/// The number of an item's bits in 6 bits: A where it has no room there.
fn item_value(item: ItemText<'_>) -> Result<Form, Letter>
    ensures { result ≡ counted_item_value (counted_item_in 6 (item_as_text item.entry)) }
{
    match counted_item_in(6, &CountedItem::of_text(item)) {
        Some(bits) => Ok(small_form(bits)),
        None => Err(Letter::A),
    }
}

/// The value of an expression in 6 bits: that of a counted item alone is the number of its 6 bits.
fn small_value<N: Names>(names: &N, expression: &Expr<'_>) -> Result<Form, Letter>
    ensures { (context : definitions.Context) (statement : Settled) → AreSeen (N.names names.now) context statement →
        result ≡ small_value context statement expression.now (whole_counted_item expression.now.sign expression.now.terms) }
{
    match expression.whole_item() {
        None => value(expression, names),
        Some(item) => item_value(item),
    }
}

/// The count of LX, AX and MX: -60 to 63, a negative one coded as 60 more.
fn count_in(number: i64) -> Item
    ensures { item_as result ≡ definitions.count_item number }
{
    if number < 0 {
        if number < -60 {
            faulty(6, Letter::A)
        } else {
            known(6, (60 + number) as u64)
        }
    } else if number > 63 {
        faulty(6, Letter::A)
    } else {
        known(6, number as u64)
    }
}

/// The field n of LX, AX and MX: R where its value has a block or external, A where it is not -60
/// to 63 (6600 reference 60100000, shift and mask instructions).
pub(crate) fn count_item<N: Names>(names: &N, expression: &Expr<'_>) -> Item
    ensures { (context : definitions.Context) (statement : Settled) → AreSeen (N.names names.now) context statement →
        item_as result ≡ count_of (small_value context statement expression.now (whole_counted_item expression.now.sign expression.now.terms)) }
{
    match small_value(names, expression) {
        Err(letter) => faulty(6, letter),
        Ok(form) => {
            if form.is_absolute() {
                count_in(form.number())
            } else {
                faulty(6, Letter::R)
            }
        }
    }
}

/// Whether a number is from -37 to 37 octal.
fn is_short(number: i128) -> bool
    ensures { result ≡ is_short number }
{
    -31 <= number && number <= 31
}

/// Whether a form is a displacement as it stands: absolute, and from -37 to 37 octal.
fn is_displacement(form: Form) -> bool
    ensures { result ≡ (is_absolute form && is_short form.number) }
{
    form.is_absolute() && is_short(i128::from(form.number()))
}

/// A number from -37 to 37 octal in 6 bits, or 0 with A.
fn short_item(number: i128) -> Item
    ensures { item_as result ≡ short_item number }
{
    if !is_short(number) {
        return faulty(6, Letter::A);
    }
    if number < 0 {
        known(6, (63 + number) as u64)
    } else {
        known(6, number as u64)
    }
}

/// How far one number is from another, in 6 bits, or 0 with A.
fn difference_item(number: i128, from: i128) -> Item
    requires number { unsigned_abs number < 2 ^ 65 }
    requires from { unsigned_abs from < 2 ^ 65 }
    ensures { item_as result ≡ short_item (number -ℤ from) }
{
    short_item(number - from)
}

/// How far one form is from another, in 6 bits, or 0 with A.
fn short_distance<B: BlockBases>(bases: &B, form: Form, from: Form) -> Item
    ensures { (kind : DeckKind) (settled : List Settled) (literals : List ℕ) →
        let context = deck_with kind (B.rows bases.now) settled literals in
        item_as result ≡ short_item (number_in context form -ℤ number_in context from) }
{
    difference_item(number_in(bases, form), number_in(bases, from))
}

/// The count of SHN, from -37 to 37 octal, else A (6600 reference 60100000, peripheral
/// instructions).
pub(crate) fn shift_item<B: BlockBases, N: Names>(
    kind: DeckKind,
    bases: &B,
    names: &N,
    expression: &Expr<'_>,
) -> Item
    ensures { (settled : List Settled) (literals : List ℕ) (statement : Settled) →
        let context = deck_with kind (B.rows bases.now) settled literals in
        AreSeen (N.names names.now) context statement →
        item_as result ≡ shift_of context (small_value context statement expression.now (whole_counted_item expression.now.sign expression.now.terms)) }
{
    match small_value(names, expression) {
        Err(letter) => faulty(6, letter),
        Ok(form) => short_item(number_in(bases, form)),
    }
}

/// The displacement of a short jump: an absolute value from -37 to 37 octal as it is, else the
/// distance from the location counter, or A (COMPASS 60492600, peripheral instructions).
pub(crate) fn displacement_item<B: BlockBases, N: Names>(
    kind: DeckKind,
    bases: &B,
    names: &N,
    expression: &Expr<'_>,
) -> Item
    ensures { (settled : List Settled) (literals : List ℕ) (statement : Settled) →
        let context = deck_with kind (B.rows bases.now) settled literals in
        AreSeen (N.names names.now) context statement →
        item_as result ≡ displacement_of context statement (small_value context statement expression.now (whole_counted_item expression.now.sign expression.now.terms)) }
{
    match small_value(names, expression) {
        Err(letter) => faulty(6, letter),
        Ok(form) => {
            if is_displacement(form) {
                short_item(i128::from(form.number()))
            } else {
                short_distance(bases, form, names.location())
            }
        }
    }
}
