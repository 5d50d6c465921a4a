//! The value of an expression: its terms from left to right, and then their sum (COMPASS 60492600,
//! evaluation of expressions).
ghost use Rattle.std.specs.Prelude.{◌≡◌, ◌≤◌, ◌+◌, ℕ, List, length, IfSome, IfNone, IsSome, Ok, Err, ◌∷◌, if◌then◌else◌};
ghost use Rattle.definitions.specs.Expressions.{OperatorElement};
ghost use Rattle.definitions.specs.Forms.{number_form, counted_item_form, element_form, combined_with, is_in_range, plus_term, closed, value_of};
ghost use Rattle.definitions.specs.declared.letter.Letter.TheVariants as letter;
ghost use Rattle.definitions.specs.Laws.ItemTexts.{item_as};
ghost use Rattle.definitions.proofs.TermLaws.{JoinsFactors, JoinsTerms};
ghost use Rattle.expr_forms.specs.Joins.Numbers.{number_as};
ghost use Rattle.expr_forms.specs.Joins.Elements.{element_as};
ghost use Rattle.expr_forms.specs.Joins.Links.{operator_as, link_as};
ghost use Rattle.expr_forms.specs.Joins.Running.{bases_as, running_as, AreSmall};
ghost use Rattle.expr_forms.specs.Joins.Walks.{walk_value, WalksOn, ForNext, ForNoRoom};

use crate::arithmetic::{GREATEST, combined};
use crate::coding::item_number;
use crate::counted_item::CountedItem;
use crate::elements::Element;
use crate::expressions::Expr;
use crate::forms::{Form, Names, Relocation};
use crate::links::{Link, Links, Operator};
use crate::names::Name;
use crate::numbers::Number;
use crate::running::{Added, Base, RunningSum, finish, plus_form};
use definitions::{ItemText, Letter};

/// A value while it goes on: the sum of the terms before, and the term that is open.
#[derive(Clone, Copy)]
struct Walk {
    sum: RunningSum,
    operator: Operator,
    form: Form,
}

/// What comes of a link more: a walk, a letter, or no room for a base.
#[derive(Clone, Copy)]
enum Walked {
    Next(Walk),
    Fault(Letter),
    Full,
}

#[inline(always)]
fn number_form(number: Number) -> Result<Form, Letter>
    ensures { result ≡ number_form (number_as number) }
{
    match number {
        Number::Value(size) => Ok(Form::absolute(size.value as i64)),
        Number::TooGreat => Err(Letter::A),
    }
}

/// The form of an item: A where it has more than 10 characters.
#[inline(never)]
fn item_form(item: ItemText<'_>) -> Result<Form, Letter>
    ensures { result ≡ counted_item_form (item_as item.entry) }
{
    let number = item_number(&CountedItem::of_text(item))?;
    Ok(Form::absolute(number as i64))
}

/// The form of an element, or its letter: V of a register, U of a symbol without a form.
#[inline(always)]
fn element_form<N: Names>(names: &N, element: Element<'_>) -> Result<Form, Letter>
    ensures { result ≡ element_form (N.names names.now) (element_as element.entry) }
{
    match element {
        Element::Number(number) => number_form(number),
        Element::Item(item) => item_form(item),
        Element::Symbol(name) => names.symbol(name).ok_or(Letter::U),
        Element::Register(_) => Err(Letter::V),
        Element::LocationCounter => Ok(names.location()),
        Element::OriginCounter => Ok(names.origin()),
        Element::Literal(literal) => names.literal(literal),
    }
}

/// A form with one factor more.
fn with_factor<N: Names>(
    names: &N,
    form: Form,
    operator: Operator,
    element: Element<'_>,
) -> Result<Form, Letter>
    ensures { result ≡ combined_with (operator_as operator) form (element_form (N.names names.now) (element_as element.entry)) }
{
    combined(operator, form, element_form(names, element)?)
}

/// A walk with one factor more in its open term.
#[inline(never)]
fn walk_factor<N: Names>(names: &N, walk: Walk, link: Link<'_>) -> Walked
    ensures next { JoinsFactors (operator_as link.entry.operator) → (pairs : List OperatorElement) (room : List Base) →
        WalksOn (N.names names.now) (walk_value (N.names names.now) walk room (link_as link.entry ∷ pairs)) result room pairs }
    ensures bases { ForNext result (λ next. next.sum.bases ≡ walk.sum.bases) }
    ensures small { (most : ℕ) (room : List Base) → AreSmall most (bases_as walk.sum.bases room) → ForNext result (λ next. AreSmall (most + 1) (bases_as next.sum.bases room)) }
    ensures room { ForNoRoom result ⊥ }
{
    match with_factor(names, walk.form, link.operator, link.element) {
        Ok(form) => Walked::Next(Walk {
            sum: walk.sum,
            operator: walk.operator,
            form,
        }),
        Err(letter) => Walked::Fault(letter),
    }
}

/// A walk whose open term joins the sum, and which opens the next one.
#[inline(always)]
fn walk_term<N: Names>(room: &mut [Base], names: &N, walk: Walk, link: Link<'_>) -> Walked
    requires within { walk.sum.bases ≤ length room.old }
    requires small { AreSmall 1000 (bases_as walk.sum.bases room.old) }
    ensures next { JoinsTerms (operator_as link.entry.operator) → (pairs : List OperatorElement) →
        WalksOn (N.names names.now) (walk_value (N.names names.now) walk room.old (link_as link.entry ∷ pairs)) result room.new pairs }
    ensures fits { ForNext result (λ next. next.sum.bases ≤ length room.new) }
    ensures one { ForNext result (λ next. next.sum.bases ≤ walk.sum.bases + 1) }
    ensures small { (most : ℕ) → AreSmall most (bases_as walk.sum.bases room.old) → ForNext result (λ next. AreSmall (most + 1) (bases_as next.sum.bases room.new)) }
    ensures full { ForNoRoom result (length room.old ≤ walk.sum.bases) }
{
    match plus_form(room, walk.sum, walk.operator, walk.form) {
        Added::Fault(letter) => Walked::Fault(letter),
        Added::Full => Walked::Full,
        Added::Sum(sum) => match element_form(names, link.element) {
            Ok(form) => Walked::Next(Walk {
                sum,
                operator: link.operator,
                form,
            }),
            Err(letter) => Walked::Fault(letter),
        },
    }
}

/// A walk with one link more.
#[inline(always)]
fn walk_link<N: Names>(room: &mut [Base], names: &N, walk: Walk, link: Link<'_>) -> Walked
    requires within { walk.sum.bases ≤ length room.old }
    requires small { AreSmall 1000 (bases_as walk.sum.bases room.old) }
    ensures next { (pairs : List OperatorElement) →
        WalksOn (N.names names.now) (walk_value (N.names names.now) walk room.old (link_as link.entry ∷ pairs)) result room.new pairs }
    ensures fits { ForNext result (λ next. next.sum.bases ≤ length room.new) }
    ensures one { ForNext result (λ next. next.sum.bases ≤ walk.sum.bases + 1) }
    ensures small { (most : ℕ) → AreSmall most (bases_as walk.sum.bases room.old) → ForNext result (λ next. AreSmall (most + 1) (bases_as next.sum.bases room.new)) }
    ensures full { ForNoRoom result (length room.old ≤ walk.sum.bases) }
{
    match link.operator {
        Operator::Times => walk_factor(names, walk, link),
        Operator::Divide => walk_factor(names, walk, link),
        Operator::Add => walk_term(room, names, walk, link),
        Operator::Subtract => walk_term(room, names, walk, link),
    }
}

/// The form of a walk behind its last link, or nothing where the room is full.
fn walk_end(room: &mut [Base], walk: Walk) -> Option<Result<Form, Letter>>
    requires within { walk.sum.bases ≤ length room.old }
    requires small { AreSmall 1000 (bases_as walk.sum.bases room.old) }
    ensures value { IfSome result (λ form. form ≡ closed (plus_term (operator_as walk.operator) (running_as walk.sum room.old) (Ok walk.form))) }
    ensures full { IfNone result (length room.old ≤ walk.sum.bases) }
{
    match plus_form(room, walk.sum, walk.operator, walk.form) {
        Added::Sum(sum) => Some(finish(sum, room)),
        Added::Fault(letter) => Some(Err(letter)),
        Added::Full => None,
    }
}

/// The form of a walk and the links behind it, or nothing where the room is full.
fn walk_on<N: Names>(
    room: &mut [Base],
    names: &N,
    start: Walk,
    behind: Links<'_>,
) -> Option<Result<Form, Letter>>
    requires none { start.sum.bases ≡ 0 }
    requires few { length behind ≤ 355 }
    ensures value { IfSome result (λ form. form ≡ walk_value (N.names names.now) start room.old behind.entry) }
    ensures enough { 356 ≤ length room.old → IsSome result }
{
    let mut walk = start;
    let mut links = behind;
    'links: loop {
        match links.next() {
            None => return walk_end(room, walk),
            Some(link) => match walk_link(room, names, walk, link) {
                Walked::Next(next) => walk = next,
                Walked::Fault(letter) => return Some(Err(letter)),
                Walked::Full => return None,
            },
        }
    }
}

/// The value of an expression, or nothing where the room for its bases is full.
fn value_in<N: Names>(room: &mut [Base], names: &N, expr: &Expr<'_>) -> Option<Result<Form, Letter>>
    ensures value { IfSome result (λ form. form ≡ value_of (N.names names.now) expr.now) }
    ensures enough { 356 ≤ length room.old → IsSome result }
{
    let mut links = expr.links();
    match links.next() {
        None => Some(Ok(Form::absolute(0))),
        Some(first) => match element_form(names, first.element) {
            Err(letter) => Some(Err(letter)),
            Ok(form) => {
                let sum = RunningSum {
                    number: 0,
                    bases: 0,
                };
                let start = Walk {
                    sum,
                    operator: first.operator,
                    form,
                };
                walk_on(room, names, start, links)
            }
        },
    }
}

/// A base that fills an empty place.
fn no_base() -> Base {
    Base {
        relocation: Relocation::Block(Name::new(b"")),
        times: 0,
    }
}

/// The value of an expression with a base in each of the 356 terms that a statement has room for.
fn value_of_many<N: Names>(expr: &Expr<'_>, names: &N) -> Result<Form, Letter>
    ensures { result ≡ value_of (N.names names.now) expr.now }
{
    let mut room = [no_base(); 356];
    match value_in(&mut room, names, expr) {
        Some(form) => form,
        None => unreachable!(),
    }
}

/// The value of an expression, most likely with a base in four terms at most.
#[inline(never)]
fn value_of_few<N: Names>(expr: &Expr<'_>, names: &N) -> Result<Form, Letter>
    ensures { result ≡ value_of (N.names names.now) expr.now }
{
    let mut room = [no_base(); 4];
    match value_in(&mut room, names, expr) {
        Some(form) => form,
        None => value_of_many(expr, names),
    }
}

/// A form, or A where its number is out of range.
fn form_in_range(form: Form) -> Result<Form, Letter>
    ensures { result ≡ (if is_in_range form.number then Ok form else Err letter.A) }
{
    if form.number().unsigned_abs() <= GREATEST {
        Ok(form)
    } else {
        Err(Letter::A)
    }
}

/// The value of an expression: a number and at most one block or external, or the letter of its
/// first fault from left to right: A out of range, R relocation that is not allowed, U a symbol
/// without a definition, V a register, Z a division by zero. Faults that only the end shows come
/// last. Quotients lose their fraction. An element alone is told without a sum.
pub fn value<N: Names>(expr: &Expr<'_>, names: &N) -> Result<Form, Letter>
    ensures { result ≡ value_of (N.names names.now) expr.now }
{
    match expr.lone_element() {
        None => value_of_few(expr, names),
        Some(element) => form_in_range(element_form(names, element)?),
    }
}
