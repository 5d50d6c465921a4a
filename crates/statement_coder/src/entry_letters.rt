//! The letters of an ENTRY, by the final values of its names (COMPASS 60492600, ENTRY).
ghost use Rattle.std.specs.Prelude.{◌≡◌, List, option_map, option_copied, flat_map};
ghost use Rattle.definitions.specs.Entries.{entry_fault};
ghost use Rattle.definitions.specs.Forms as forms;
ghost use Rattle.definitions.specs.Letters.{in_order, name_fault, entry_letters};
ghost use Rattle.definitions.specs.Operands as operands;
ghost use Rattle.definitions.specs.Operations as op;
ghost use Rattle.definitions.specs.Settled.{Settled, defined};
ghost use Rattle.definitions.specs.declared.deck_kind.DeckKind.TheVariants as kinds;
ghost use Rattle.expr_forms.specs.Joins.FormsAs.{part_as};
ghost use Rattle.operations.specs.Joins.OperationsAs.{operation_as};
ghost use Rattle.statement_coder.specs.Joins.LettersAs.{letters_as};
ghost use Rattle.statement_coder.specs.Joins.Readings.{IsReading};

use crate::final_names::FinalSymbols;
use crate::readings::Reading;
use crate::size_letters::with_letter;
use definitions::{DeckKind, Letter};
use expr_forms::{Form, LinkedNames, Part, Relocation};
use operations::{Letters, Operation};

/// The letter of a value that is entered: R of an external, and of a block that is subtracted.
fn part_letter(part: Option<Part>) -> Option<Letter>
    ensures { (form : forms.Form) → option_map part_as part ≡ form.part → letters_as result ≡ entry_fault (Some form) }
{
    match part {
        None => None,
        Some(Part::Added(Relocation::Block(_))) => None,
        Some(Part::Added(Relocation::External(_))) => Some(Letter::R),
        Some(Part::Subtracted(_)) => Some(Letter::R),
    }
}

/// The letter of a name with this value; U where it has none.
fn form_letter(form: Option<Form>) -> Option<Letter>
    ensures { letters_as result ≡ entry_fault form }
{
    match form {
        None => Some(Letter::U),
        Some(form) => part_letter(form.part()),
    }
}

/// The letter of a name in ENTRY; V where it is not lawful.
fn name_letter<S: FinalSymbols>(symbols: &S, name: Option<&[u8]>) -> Option<Letter>
    ensures { (settled : List Settled) → S.symbols symbols.now ≡ (λ name. defined name settled) →
        letters_as result ≡ name_fault settled (option_copied name.entry) }
{
    match name {
        None => Some(Letter::V),
        Some(name) => form_letter(symbols.symbol(name)),
    }
}

/// The letters of the names of an ENTRY.
fn names_letters<S: FinalSymbols>(symbols: &S, names: LinkedNames<'_>) -> Letters
    ensures { (settled : List Settled) → S.symbols symbols.now ≡ (λ name. defined name settled) →
        result ≡ in_order (flat_map (name_fault settled) names.entry) }
{
    let mut rest = names;
    let mut letters = Letters::none();
    'names: loop {
        match rest.next() {
            None => return letters,
            Some(name) => letters = with_letter(&letters, name_letter(symbols, name)),
        }
    }
}

/// The letters of an operand of ENTRY outside peripheral decks.
fn operand_letters<S: FinalSymbols>(symbols: &S, reading: &Reading<'_>) -> Letters
    ensures relocatable { (settled : List Settled) (operand : operands.Operand) → S.symbols symbols.now ≡ (λ name. defined name settled) → IsReading reading.now operand →
        result ≡ in_order (entry_letters kinds.Rel settled op.Entry operand) }
    ensures absolute { (settled : List Settled) (operand : operands.Operand) → S.symbols symbols.now ≡ (λ name. defined name settled) → IsReading reading.now operand →
        result ≡ in_order (entry_letters kinds.Abs settled op.Entry operand) }
{
    match reading {
        Reading::Names(names) => names_letters(symbols, names.copied()),
        _ => Letters::none(),
    }
}

/// The letters that names add to an operation outside peripheral decks.
#[inline(always)]
fn operation_letters<S: FinalSymbols>(
    operation: Operation,
    symbols: &S,
    reading: &Reading<'_>,
) -> Letters
    ensures relocatable { (settled : List Settled) (operand : operands.Operand) → S.symbols symbols.now ≡ (λ name. defined name settled) → IsReading reading.now operand →
        result ≡ in_order (entry_letters kinds.Rel settled (operation_as operation) operand) }
    ensures absolute { (settled : List Settled) (operand : operands.Operand) → S.symbols symbols.now ≡ (λ name. defined name settled) → IsReading reading.now operand →
        result ≡ in_order (entry_letters kinds.Abs settled (operation_as operation) operand) }
{
    match operation {
        Operation::Entry => operand_letters(symbols, reading),
        _ => Letters::none(),
    }
}

/// The letters that the names of an ENTRY add; a peripheral deck has none of them.
pub(crate) fn entry_letters<S: FinalSymbols>(
    kind: DeckKind,
    operation: Operation,
    symbols: &S,
    reading: &Reading<'_>,
) -> Letters
    ensures { (settled : List Settled) (operand : operands.Operand) → S.symbols symbols.now ≡ (λ name. defined name settled) → IsReading reading.now operand →
        result ≡ in_order (entry_letters kind settled (operation_as operation) operand) }
{
    match kind {
        DeckKind::Periph => Letters::none(),
        _ => operation_letters(operation, symbols, reading),
    }
}
