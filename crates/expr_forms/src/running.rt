//! A sum while it goes on: its number, and its blocks and externals with what each is multiplied by.
ghost use Rattle.std.specs.Prelude.{◌≡◌, ◌≤◌, ◌+◌, ◌+ℤ◌, length, map, unsigned_abs, ℕ, option_map, IfSome, IfNone, Ok, ◌∷◌, []};
ghost use Rattle.std.specs.List.{prefix_len};
ghost use Rattle.definitions.specs.Forms.{part_of, remaining, plus_relocation, plus_relocations, plus_term, closed, running_part, signed};
ghost use Rattle.expr_forms.specs.Joins.FormsAs.{relocation_as, part_as};
ghost use Rattle.expr_forms.specs.Joins.Links.{operator_as};
ghost use Rattle.expr_forms.specs.Joins.Ranges.{ranged};
ghost use Rattle.expr_forms.specs.Joins.Running.{base_as, bases_as, running_as, is_other, AreSmall, part_times, part_relocation, AddsUp, ForSum, ForFull};

use crate::arithmetic::ranged;
use crate::forms::{Form, Part, Relocation};
use crate::links::Operator;
use definitions::Letter;

/// A block or external in a sum, and how many times it was added.
#[derive(Clone, Copy)]
pub(crate) struct Base {
    pub(crate) relocation: Relocation,
    pub(crate) times: i64,
}

/// The number of a sum so far, and how many bases it has in its room.
#[derive(Clone, Copy)]
pub(crate) struct RunningSum {
    pub(crate) number: i64,
    pub(crate) bases: usize,
}

/// What comes of a term more: a sum, a letter, or no room for its base.
#[derive(Clone, Copy)]
pub(crate) enum Added {
    Sum(RunningSum),
    Fault(Letter),
    Full,
}

/// How many bases stand before this one.
fn other_count(bases: &[Base], relocation: &Relocation) -> usize
    ensures count { result ≡ prefix_len (is_other (relocation_as relocation.now)) bases.now }
    ensures within { result ≤ length bases.now }
{
    for (i, base) in bases.iter().enumerate() {
        if relocation.is_same(&base.relocation) {
            return i;
        }
    }
    bases.len()
}

/// The bases with this one once more, or once less: how many they are then, or nothing where the
/// room is full.
#[inline(never)]
fn add_base(room: &mut [Base], len: usize, added: Base) -> Option<usize>
    requires within { len ≤ length room.old }
    requires small { AreSmall 1000 (bases_as len room.old) }
    requires once { unsigned_abs added.times ≤ 1 }
    ensures adds { IfSome result (λ n. bases_as n room.new ≡ plus_relocation (relocation_as added.relocation) added.times (bases_as len room.old)) }
    ensures fits { IfSome result (λ n. n ≤ length room.new) }
    ensures one { IfSome result (λ n. n ≤ len + 1) }
    ensures full { IfNone result (length room.old ≤ len) }
{
    let place = other_count(room.split_at(len).0, &added.relocation);
    if place < len {
        let base = room[place];
        room[place] = Base {
            relocation: base.relocation,
            times: base.times + added.times,
        };
        return Some(len);
    }
    if len == room.len() {
        return None;
    }
    room[len] = added;
    Some(len + 1)
}

/// What a part is a base of behind this operator.
fn part_base(operator: Operator, part: Part) -> Base
    ensures relocation { relocation_as result.relocation ≡ part_relocation (part_as part) }
    ensures times { result.times ≡ signed (operator_as operator) (part_times (part_as part)) }
    ensures once { unsigned_abs result.times ≤ 1 }
{
    let (relocation, times) = match part {
        Part::Added(relocation) => (relocation, 1),
        Part::Subtracted(relocation) => (relocation, -1),
    };
    match operator {
        Operator::Subtract => Base {
            relocation,
            times: -times,
        },
        _ => Base { relocation, times },
    }
}

#[inline(always)]
fn plus_part(room: &mut [Base], len: usize, operator: Operator, part: Option<Part>) -> Option<usize>
    requires within { len ≤ length room.old }
    requires small { AreSmall 1000 (bases_as len room.old) }
    ensures added { IfSome result (λ n. bases_as n room.new ≡ plus_relocations (operator_as operator) (running_part (option_map part_as part)) (bases_as len room.old)) }
    ensures fits { IfSome result (λ n. n ≤ length room.new) }
    ensures one { IfSome result (λ n. n ≤ len + 1) }
    ensures full { IfNone result (length room.old ≤ len) }
{
    match part {
        None => Some(len),
        Some(part) => add_base(room, len, part_base(operator, part)),
    }
}

#[inline(always)]
fn signed_sum(operator: Operator, a: i64, b: i64) -> Result<i64, Letter>
    ensures { result ≡ ranged (a +ℤ signed (operator_as operator) b) }
{
    match operator {
        Operator::Subtract => ranged(a.checked_sub(b)),
        _ => ranged(a.checked_add(b)),
    }
}

/// The sum with one form more, which is added or subtracted.
#[inline(always)]
pub(crate) fn plus_form(room: &mut [Base], sum: RunningSum, operator: Operator, form: Form) -> Added
    requires within { sum.bases ≤ length room.old }
    requires small { AreSmall 1000 (bases_as sum.bases room.old) }
    ensures adds { AddsUp (plus_term (operator_as operator) (running_as sum room.old) (Ok form)) result room.new }
    ensures fits { ForSum result (λ next. next.bases ≤ length room.new) }
    ensures one { ForSum result (λ next. next.bases ≤ sum.bases + 1) }
    ensures full { ForFull result (length room.old ≤ sum.bases) }
    ensures small { (most : ℕ) → AreSmall most (bases_as sum.bases room.old) → ForSum result (λ next. AreSmall (most + 1) (bases_as next.bases room.new)) }
{
    let term = form.number();
    let part = form.part();
    match signed_sum(operator, sum.number, term) {
        Err(letter) => Added::Fault(letter),
        Ok(number) => match plus_part(room, sum.bases, operator, part) {
            Some(bases) => Added::Sum(RunningSum { number, bases }),
            None => Added::Full,
        },
    }
}

/// The form of a number and one base: R where the base was not added once, or once less.
fn one_base(number: i64, base: Base) -> Result<Form, Letter>
    ensures { result ≡ part_of number (base_as base ∷ []) }
{
    if base.times == 1 {
        return Ok(Form::new(number, Some(Part::Added(base.relocation))));
    }
    if base.times == -1 {
        return Ok(Form::new(number, Some(Part::Subtracted(base.relocation))));
    }
    Err(Letter::R)
}

/// The form of a number and these bases: R where more than one is left.
fn remaining_part(number: i64, bases: &[Base]) -> Result<Form, Letter>
    ensures { result ≡ part_of number (remaining (map base_as bases.now)) }
{
    let mut left: Option<Base> = None;
    for base in bases {
        if base.times != 0 {
            if left.is_some() {
                return Err(Letter::R);
            }
            left = Some(*base);
        }
    }
    match left {
        None => Ok(Form::absolute(number)),
        Some(base) => one_base(number, base),
    }
}

/// The form that a finished sum is.
pub(crate) fn finish(sum: RunningSum, room: &[Base]) -> Result<Form, Letter>
    requires { sum.bases ≤ length room.now }
    ensures { result ≡ closed (Ok (running_as sum room.now)) }
{
    remaining_part(sum.number, room.split_at(sum.bases).0)
}
