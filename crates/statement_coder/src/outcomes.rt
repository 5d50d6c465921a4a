//! What follows from the size of a statement, or from its early value: its end, what becomes of the
//! location counter, and its letter (COMPASS 60492600, BSS, ORG, LOC).
ghost use Rattle.std.specs.Prelude.{◌≡◌, ◌≤◌, ◌<◌, ◌+◌, ◌*◌, IsTrue, MatchResult, option_map, Some, ⊤, ℕ, [], min};
ghost use Rattle.definitions.specs.Kinds.{units, most_words};
ghost use Rattle.definitions.specs.Forms.{Added, is_in_range};
ghost use Rattle.definitions.specs.Settled.{Unchanged};
ghost use Rattle.definitions.specs.Operands as operands;
ghost use Rattle.definitions.specs.Sizes.{size_of};
ghost use Rattle.definitions.specs.EarlyValues.{in_words, reserved, is_in_block, is_origin_form, origin_word, is_location_part, location_value, stays_with, origin_outcome, location_outcome, reserved_outcome, letter_of, outcome_of_value, outcome_of_size, outcome_of};
ghost use Rattle.operations.specs.Joins.OperationsAs.{operation_as};
ghost use Rattle.statement_coder.specs.Joins.Outcomes.{outcome_as};
ghost use Rattle.expr_forms.specs.Joins.FormsAs.{part_as, relocation_as};

use definitions::{DeckKind, Letter, is_same_text};
use expr_forms::{Form, Name, Part, Relocation};
use operations::Operation;
use use_blocks::{Counting, LocationSetting};

/// A number of words from 0 up to, but not with, the greatest: else A.
fn in_words(kind: DeckKind, number: i64) -> Result<u32, Letter>
    ensures words { result ≡ in_words (most_words kind) number }
    ensures few { MatchResult result (λ words. words < most_words kind) (λ letter. ⊤) }
{
    if number < 0 || number >= i64::from(kind.most_words()) {
        return Err(Letter::A);
    }
    Ok(number as u32)
}

/// How many words BSS and BSSZ reserve at a place: R where the value has a block or external, A
/// where it is out of range or the reservation would pass the block.
pub(crate) fn reserved(
    kind: DeckKind,
    place: u32,
    value: Result<Form, Letter>,
) -> Result<u32, Letter>
    requires { place ≤ 524288 }
    ensures words { result ≡ reserved kind place value }
    ensures within { MatchResult result (λ words. place + words * units kind ≤ 524288) (λ letter. ⊤) }
{
    let form = value?;
    if !form.is_absolute() {
        return Err(Letter::R);
    }
    let words = in_words(kind, form.number())?;
    if place + words * kind.units() <= kind.most_words() * kind.units() {
        Ok(words)
    } else {
        Err(Letter::A)
    }
}

/// Whether a value lies in this block, with sign plus.
fn is_in_block(block: &Name, part: Option<Part>) -> bool
    ensures { result ≡ is_in_block block.now (option_map part_as part) }
{
    match part {
        Some(Part::Added(relocation)) => is_same_block(block, relocation),
        _ => false,
    }
}

/// Whether a relocation is this block.
fn is_same_block(block: &Name, relocation: Relocation) -> bool
    ensures { result ≡ is_in_block block.now (Some (Added (relocation_as relocation))) }
{
    match relocation {
        Relocation::Block(name) => name.is_same(block),
        Relocation::External(_) => false,
    }
}

/// Whether ORG takes a value in this block: a number in the nominal block of absolute and
/// peripheral decks, elsewhere a value in the block.
fn is_origin_form(kind: DeckKind, block: &Name, form: Form) -> bool
    ensures { result ≡ is_origin_form kind block.now form }
{
    let is_relocatable = matches!(kind, DeckKind::Rel);
    if !is_relocatable && is_same_text(block.as_slice(), b"0") {
        form.is_absolute()
    } else {
        is_in_block(block, form.part())
    }
}

/// The word that ORG goes to, or its letter.
pub(crate) fn origin_word(
    kind: DeckKind,
    block: &Name,
    value: Result<Form, Letter>,
) -> Result<u32, Letter>
    ensures word { result ≡ origin_word kind block.now value }
    ensures few { MatchResult result (λ words. words < most_words kind) (λ letter. ⊤) }
{
    let form = value?;
    if is_origin_form(kind, block, form) {
        in_words(kind, form.number())
    } else {
        Err(Letter::R)
    }
}

/// Whether LOC takes a value: a number, or a block that is added.
fn is_location_part(part: Option<Part>) -> bool
    ensures { result ≡ is_location_part (option_map part_as part) }
{
    match part {
        None => true,
        Some(Part::Added(relocation)) => is_block(relocation),
        Some(Part::Subtracted(_)) => false,
    }
}

/// Whether a relocation is a block.
fn is_block(relocation: Relocation) -> bool
    ensures { result ≡ is_location_part (Some (Added (relocation_as relocation))) }
{
    match relocation {
        Relocation::Block(_) => true,
        Relocation::External(_) => false,
    }
}

/// The value that LOC gives to `*`, or its letter.
pub(crate) fn location_value(kind: DeckKind, value: Result<Form, Letter>) -> Result<Form, Letter>
    ensures value { result ≡ location_value kind value }
    ensures range { MatchResult result (λ form. IsTrue (is_in_range form.number)) (λ letter. ⊤) }
{
    let form = value?;
    if !is_location_part(form.part()) {
        return Err(Letter::R);
    }
    in_words(kind, form.number())?;
    Ok(form)
}

/// What follows from a statement's size or early value: its end, what becomes of the location counter
/// of its block, and its letter.
#[derive(Clone, Copy)]
pub(crate) struct Outcome {
    pub(crate) end: u32,
    pub(crate) setting: LocationSetting,
    pub(crate) letter: Option<Letter>,
}

/// A statement that ends here, without a letter.
fn ends_at(end: u32) -> Outcome
    ensures outcome { outcome_as result ≡ record { end = end; setting = Unchanged; letters = [] } }
    ensures end { result.end ≡ end }
{
    Outcome {
        end,
        setting: LocationSetting::Unchanged,
        letter: None,
    }
}

/// A statement that stays at its place, with a letter.
fn stays_with(place: u32, letter: Letter) -> Outcome
    ensures outcome { outcome_as result ≡ stays_with place letter }
    ensures end { result.end ≡ place }
{
    Outcome {
        end: place,
        setting: LocationSetting::Unchanged,
        letter: Some(letter),
    }
}

/// ORG goes to its word.
#[inline(never)]
fn origin_outcome(kind: DeckKind, block: &Name, place: u32, value: Result<Form, Letter>) -> Outcome
    requires { place ≤ 524288 }
    ensures outcome { outcome_as result ≡ origin_outcome kind place (origin_word kind block.now value) }
    ensures within { result.end ≤ 524288 }
{
    match origin_word(kind, block, value) {
        Err(letter) => stays_with(place, letter),
        Ok(word) => Outcome {
            end: word * kind.units(),
            setting: LocationSetting::Ended,
            letter: None,
        },
    }
}

/// LOC sets the counter.
#[inline(never)]
fn location_outcome(kind: DeckKind, place: u32, value: Result<Form, Letter>) -> Outcome
    requires { place ≤ 524288 }
    ensures outcome { outcome_as result ≡ location_outcome place (location_value kind value) }
    ensures within { result.end ≤ 524288 }
{
    match location_value(kind, value) {
        Err(letter) => stays_with(place, letter),
        Ok(form) => Outcome {
            end: place,
            setting: LocationSetting::Counts(Counting::new(form, place)),
            letter: None,
        },
    }
}

/// BSS and BSSZ end behind their words.
#[inline(never)]
fn reserved_outcome(kind: DeckKind, place: u32, value: Result<Form, Letter>) -> Outcome
    requires { place ≤ 524288 }
    ensures outcome { outcome_as result ≡ reserved_outcome kind place (reserved kind place value) }
    ensures within { result.end ≤ 524288 }
{
    match reserved(kind, place, value) {
        Err(letter) => stays_with(place, letter),
        Ok(words) => ends_at(place + words * kind.units()),
    }
}

/// What does nothing with its value stays where it is, with the letter of a faulty one.
fn value_outcome(place: u32, value: Result<Form, Letter>) -> Outcome
    requires { place ≤ 524288 }
    ensures outcome { outcome_as result ≡ record { end = place; setting = Unchanged; letters = letter_of value } }
    ensures within { result.end ≤ 524288 }
{
    match value {
        Err(letter) => stays_with(place, letter),
        Ok(_) => ends_at(place),
    }
}

/// What an operation does with its early value, at this place of this block.
fn outcome_of_value(
    kind: DeckKind,
    operation: Operation,
    block: &Name,
    place: u32,
    value: Result<Form, Letter>,
) -> Outcome
    requires { place ≤ 524288 }
    ensures outcome { outcome_as result ≡ outcome_of_value kind (operation_as operation) block.now place value }
    ensures within { result.end ≤ 524288 }
{
    match operation {
        Operation::Org => origin_outcome(kind, block, place, value),
        Operation::Loc => location_outcome(kind, place, value),
        Operation::Bss => reserved_outcome(kind, place, value),
        Operation::Bssz => reserved_outcome(kind, place, value),
        _ => value_outcome(place, value),
    }
}

/// A statement ends behind its items; one whose items would pass the block ends at its place, with A.
pub(crate) fn outcome_of_size(kind: DeckKind, place: u32, size: u32) -> Outcome
    requires place { place ≤ 524288 }
    requires size { size ≤ 40000000 }
    ensures outcome { (all : ℕ) → min size 600000 ≡ min all 600000 → outcome_as result ≡ outcome_of_size kind place all }
    ensures within { result.end ≤ 524288 }
{
    if place + size <= kind.most_words() * kind.units() {
        ends_at(place + size)
    } else {
        stays_with(place, Letter::A)
    }
}

/// What follows from the early value, where the operation takes one, and else from the size.
pub(crate) fn outcome_of(
    kind: DeckKind,
    operation: Operation,
    size: u32,
    block: &Name,
    place: u32,
    value: Option<Result<Form, Letter>>,
) -> Outcome
    requires place { place ≤ 524288 }
    requires size { size ≤ 40000000 }
    ensures outcome { (operand : operands.Operand) → min size 600000 ≡ min (size_of kind operand) 600000 →
        outcome_as result ≡ outcome_of kind (operation_as operation) operand block.now place value }
    ensures within { result.end ≤ 524288 }
{
    match value {
        None => outcome_of_size(kind, place, size),
        Some(value) => outcome_of_value(kind, operation, block, place, value),
    }
}
