//! The elements of expressions: numbers, items, symbols, registers, the two counters and literals
//! (COMPASS 60492600, address expressions).
ghost use Rattle.std.specs.Prelude.{◌≡◌, ◌<◌, ◌≤◌, ◌∷◌, length, option_map, IfSome};
ghost use Rattle.definitions.specs.Pieces.{Star, Equals, AtEquals, Inside, ByMark, IsMark, spot_behind, pieces_at, pieces_of};
ghost use Rattle.definitions.specs.Expressions.{Operator, element_of_text, counter_of, literal_of, onto_pairs, pairs_of};
ghost use Rattle.definitions.specs.Symbols.{number_read};
ghost use Rattle.definitions.specs.declared.number_base.NumberBase.{NumberBase};
ghost use Rattle.definitions.proofs.GrammarLaws.{pairs_from};
ghost use Rattle.expr_forms.specs.Joins.Numbers.{AreDigits};
ghost use Rattle.expr_forms.specs.Joins.PiecesFound.{mark_as};
ghost use Rattle.expr_forms.specs.Joins.Elements.{sign_as, element_as, elements_found, ends_element, signed_literal};

use crate::numbers::{Number, digits_read, number_read};
use crate::pieces::{Mark, Piece, digits_at_start, ends_run, piece_at_start, piece_behind_equals};
use crate::register::Register;
use crate::symbols::{is_symbol, register_of};
use definitions::{ItemText, NumberBase};

/// No sign, plus or minus.
#[derive(Clone, Copy, Debug)]
pub enum Sign {
    Absent,
    Plus,
    Minus,
}

/// What an equals sign stands before.
#[derive(Clone, Copy)]
pub enum Literal<'a> {
    Number(Sign, Number),
    Item(ItemText<'a>),
}

/// What an expression is made of.
#[derive(Clone, Copy)]
pub enum Element<'a> {
    Number(Number),
    Item(ItemText<'a>),
    Symbol(&'a [u8]),
    Register(Register),
    LocationCounter,
    OriginCounter,
    Literal(Literal<'a>),
}

/// An element that begins a text, and the text behind it.
#[derive(Clone, Copy)]
pub(crate) struct ElementFound<'a> {
    pub(crate) element: Element<'a>,
    pub(crate) rest: &'a [u8],
}

/// The register that a run of characters names, else the symbol, else the number.
#[inline(always)]
fn element_of_run(base: NumberBase, run: &[u8]) -> Option<Element<'_>>
    ensures { option_map element_as result ≡ element_of_text base run.now }
{
    if let Some(register) = register_of(run) {
        return Some(Element::Register(register));
    }
    if is_symbol(run) {
        return Some(Element::Symbol(run));
    }
    Some(Element::Number(number_read(base, run)?))
}

/// The counter that a run behind a star names: O or L.
#[inline(always)]
fn counter_of(run: &[u8]) -> Option<Element<'_>>
    ensures { option_map element_as result ≡ counter_of run.now }
{
    if run.len() != 1 {
        return None;
    }
    if run[0] == b'O' {
        return Some(Element::OriginCounter);
    }
    if run[0] == b'L' {
        return Some(Element::LocationCounter);
    }
    None
}

/// The counter that a star and the run behind it name, with the text behind them.
#[inline(always)]
fn counter_found<'a>(run: &'a [u8], rest: &'a [u8]) -> Option<ElementFound<'a>>
    ensures elements { (base : NumberBase) (o : Operator) → elements_found base o result ≡ onto_pairs o (counter_of run.now) (pairs_of base 0 (pieces_at Inside 0 rest.now)) }
    ensures rest { IfSome result (λ found. found.rest.now ≡ rest.now) }
{
    let element = counter_of(run)?;
    Some(ElementFound { element, rest })
}

/// Whether a mark may stand behind an element: each but the equals sign, which begins another one.
#[inline(always)]
fn ends_element(mark: Mark) -> bool
    ensures { result ≡ ends_element (mark_as mark) }
{
    !matches!(mark, Mark::Equals)
}

/// The element that begins with a star, which this text follows.
#[inline(always)]
fn behind_star(text: &[u8]) -> Option<ElementFound<'_>>
    ensures elements { (base : NumberBase) (o : Operator) → pairs_from base o (IsMark Star ∷ pieces_of text.now) ≡ elements_found base o result }
    ensures within { IfSome result (λ found. length found.rest.now ≤ length text.now) }
{
    let alone = Some(ElementFound {
        element: Element::LocationCounter,
        rest: text,
    });
    match piece_at_start(text) {
        None => alone,
        Some(found) => match found.piece {
            Piece::Run(run) => counter_found(run, found.rest),
            Piece::Item(_) => None,
            Piece::Mark(mark) => { if ends_element(mark) { alone } else { None } }
        },
    }
}

/// The literal of the number that a run spells, and of its sign, with the text behind it.
#[inline(always)]
fn number_literal<'a>(
    base: NumberBase,
    sign: Sign,
    run: &'a [u8],
    rest: &'a [u8],
) -> Option<ElementFound<'a>>
    ensures elements { (o : Operator) → elements_found base o result ≡ onto_pairs o (literal_of (sign_as sign) (number_read base run.now)) (pairs_of base 0 (pieces_at Inside 0 rest.now)) }
    ensures rest { IfSome result (λ found. found.rest.now ≡ rest.now) }
{
    let number = number_read(base, run)?;
    Some(ElementFound {
        element: Element::Literal(Literal::Number(sign, number)),
        rest,
    })
}

/// The literal whose equals sign and sign this text follows.
#[inline(always)]
fn behind_sign(base: NumberBase, sign: Sign, text: &[u8]) -> Option<ElementFound<'_>>
    ensures elements { (o : Operator) → signed_literal base o (sign_as sign) (pieces_of text.now) ≡ elements_found base o result }
    ensures shorter { IfSome result (λ found. length found.rest.now < length text.now) }
{
    let found = piece_at_start(text)?;
    match found.piece {
        Piece::Run(run) => number_literal(base, sign, run, found.rest),
        _ => None,
    }
}

/// The literal whose equals sign and a mark this text follows.
#[inline(always)]
fn behind_equals_mark(base: NumberBase, mark: Mark, text: &[u8]) -> Option<ElementFound<'_>>
    ensures elements { (o : Operator) → pairs_from base o (IsMark Equals ∷ IsMark (mark_as mark) ∷ pieces_at (spot_behind (ByMark (mark_as mark))) 0 text.now) ≡ elements_found base o result }
    ensures shorter { IfSome result (λ found. length found.rest.now < length text.now) }
{
    match mark {
        Mark::Plus => behind_sign(base, Sign::Plus, text),
        Mark::Minus => behind_sign(base, Sign::Minus, text),
        _ => None,
    }
}

/// The literal whose equals sign this text follows.
#[inline(always)]
fn behind_equals(base: NumberBase, text: &[u8]) -> Option<ElementFound<'_>>
    ensures elements { (o : Operator) → pairs_from base o (IsMark Equals ∷ pieces_at AtEquals 0 text.now) ≡ elements_found base o result }
    ensures shorter { IfSome result (λ found. length found.rest.now < length text.now) }
{
    let found = piece_behind_equals(text)?;
    match found.piece {
        Piece::Run(run) => number_literal(base, Sign::Absent, run, found.rest),
        Piece::Item(item) => Some(ElementFound {
            element: Element::Literal(Literal::Item(item)),
            rest: found.rest,
        }),
        Piece::Mark(mark) => behind_equals_mark(base, mark, found.rest),
    }
}

/// The element that begins with a mark, which this text follows. Few do: a call of its own keeps
/// [`next_element`] small enough to be written into its callers.
#[inline(never)]
fn behind_mark(base: NumberBase, mark: Mark, text: &[u8]) -> Option<ElementFound<'_>>
    ensures elements { (o : Operator) → pairs_from base o (IsMark (mark_as mark) ∷ pieces_at (spot_behind (ByMark (mark_as mark))) 0 text.now) ≡ elements_found base o result }
    ensures within { IfSome result (λ found. length found.rest.now ≤ length text.now) }
{
    match mark {
        Mark::Star => behind_star(text),
        Mark::Equals => behind_equals(base, text),
        _ => None,
    }
}

/// The element that a run of characters is, with the text behind it.
#[inline(always)]
fn run_found<'a>(base: NumberBase, run: &'a [u8], rest: &'a [u8]) -> Option<ElementFound<'a>>
    ensures elements { (o : Operator) → elements_found base o result ≡ onto_pairs o (element_of_text base run.now) (pairs_of base 0 (pieces_at Inside 0 rest.now)) }
    ensures rest { IfSome result (λ found. found.rest.now ≡ rest.now) }
{
    let element = element_of_run(base, run)?;
    Some(ElementFound { element, rest })
}

/// The number that digits are, with the text behind them.
#[inline(always)]
fn digits_found<'a>(base: NumberBase, digits: &'a [u8], rest: &'a [u8]) -> Option<ElementFound<'a>>
    requires { AreDigits digits.now }
    ensures elements { (o : Operator) → elements_found base o result ≡ onto_pairs o (element_of_text base digits.now) (pairs_of base 0 (pieces_at Inside 0 rest.now)) }
    ensures rest { IfSome result (λ found. found.rest.now ≡ rest.now) }
{
    match digits_read(base, digits) {
        None => None,
        Some(number) => Some(ElementFound {
            element: Element::Number(number),
            rest,
        }),
    }
}

/// The element that begins a text at the start of a field or behind one of the five marks, if one
/// does. Most are runs, and many of these digits alone.
#[inline(always)]
pub(crate) fn next_element(base: NumberBase, text: &[u8]) -> Option<ElementFound<'_>>
    ensures elements { (o : Operator) → pairs_from base o (pieces_of text.now) ≡ elements_found base o result }
    ensures shorter { IfSome result (λ found. length found.rest.now < length text.now) }
{
    if let Some((digits, rest)) = digits_at_start(text) {
        if ends_run(rest) {
            return digits_found(base, digits, rest);
        }
    }
    let found = piece_at_start(text)?;
    match found.piece {
        Piece::Run(run) => run_found(base, run, found.rest),
        Piece::Item(item) => Some(ElementFound {
            element: Element::Item(item),
            rest: found.rest,
        }),
        Piece::Mark(mark) => behind_mark(base, mark, found.rest),
    }
}
