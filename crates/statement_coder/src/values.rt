//! The field of a value or an expression.
ghost use Rattle.std.specs.Prelude.{◌≡◌, ◌≤◌, ℕ, List, option_map};
ghost use Rattle.definitions.specs.Settled.{Settled};
ghost use Rattle.definitions.specs.StatementItems.{linked_item, value_item, expression_item, vfd_value};
ghost use Rattle.statement_coder.specs.Joins.Items.{item_as, deck_with, AreSeen};

use crate::items::{Content, Item, faulty, known, known_if};
use crate::numbers::{BlockBases, number_coded, number_in};
use definitions::{DeckKind, Letter};
use expr_forms::{CountedItem, Expr, Form, Names, coded_in, counted_item_in, value};

/// The bits of an address in an instruction: a field with a block or external has as many at least.
const ADDRESS_BITS: u32 = 18;

/// The field of a form in a REL deck: one with a block or external is left to the link, and R where
/// it has too few bits.
fn linked_item(width: u32, form: Form) -> Item
    requires some { 1 ≤ width }
    requires most { width ≤ 60 }
    ensures { item_as result ≡ linked_item width form }
{
    if form.is_absolute() {
        return known_if(width, coded_in(width, form.number()));
    }
    if width < ADDRESS_BITS {
        return faulty(width, Letter::R);
    }
    Item {
        width,
        content: Content::Linked(form),
        letter: None,
    }
}

/// The field of a value, of 1 to 60 bits, or 0 with its letter: A where it does not fit, R where a
/// block or external has too few bits for the link. In ABS and PERIPH decks the blocks have their
/// places, and externals are 0.
pub(crate) fn value_item<B: BlockBases>(
    kind: DeckKind,
    bases: &B,
    width: u32,
    value: Result<Form, Letter>,
) -> Item
    requires some { 1 ≤ width }
    requires most { width ≤ 60 }
    ensures { (settled : List Settled) (literals : List ℕ) →
        item_as result ≡ value_item (deck_with kind (B.rows bases.now) settled literals) width value }
{
    match value {
        Err(letter) => faulty(width, letter),
        Ok(form) => match kind {
            DeckKind::Rel => linked_item(width, form),
            DeckKind::Abs => known_if(width, number_coded(width, number_in(bases, form))),
            DeckKind::Periph => known_if(width, number_coded(width, number_in(bases, form))),
        },
    }
}

/// The field of an expression, of 1 to 60 bits: a counted item alone is placed in it, of all else
/// the value is taken.
pub(crate) fn expression_item<B: BlockBases, N: Names>(
    kind: DeckKind,
    bases: &B,
    names: &N,
    width: u32,
    expression: &Expr<'_>,
) -> Item
    requires some { 1 ≤ width }
    requires most { width ≤ 60 }
    ensures { (settled : List Settled) (literals : List ℕ) (statement : Settled) →
        AreSeen (N.names names.now) (deck_with kind (B.rows bases.now) settled literals) statement →
        item_as result ≡ expression_item (deck_with kind (B.rows bases.now) settled literals) statement width expression.now }
{
    match expression.whole_item() {
        Some(item) => known_if(
            width,
            counted_item_in(width as usize, &CountedItem::of_text(item)),
        ),
        None => value_item(kind, bases, width, value(expression, names)),
    }
}

/// A field of a VFD, of 1 to 60 bits: 0 where it has no expression.
pub(crate) fn bit_field_item<B: BlockBases, N: Names>(
    kind: DeckKind,
    bases: &B,
    names: &N,
    width: u32,
    expression: &Option<Expr<'_>>,
) -> Item
    requires some { 1 ≤ width }
    requires most { width ≤ 60 }
    ensures { (settled : List Settled) (literals : List ℕ) (statement : Settled) →
        AreSeen (N.names names.now) (deck_with kind (B.rows bases.now) settled literals) statement →
        item_as result ≡ vfd_value (deck_with kind (B.rows bases.now) settled literals) statement width expression.now }
{
    match expression {
        Some(expression) => expression_item(kind, bases, names, width, expression),
        None => known(width, 0),
    }
}
