//! The two counters: `*O` is the word of a place, `*` the same until LOC sets it (COMPASS 60492600,
//! LOC, ORG).
ghost use Rattle.std.specs.Prelude.{◌≡◌, IsTrue, Option, Some, pos, if◌then◌else◌};
ghost use Rattle.definitions.specs.Symbols.{is_nominal};
ghost use Rattle.definitions.specs.Forms.{absolute, is_in_range, Added, Block};
ghost use Rattle.definitions.specs.Counters.{counters_at, word_of_place, word_form, moved};
ghost use Rattle.definitions.specs.Settled as settled;

use crate::positions::Counting;
use definitions::DeckKind;
use expr_forms::{Form, Name, Part, Relocation};

/// `*O` of a statement at this place, in units of its block: the word, a number in the nominal block
/// of an absolute or peripheral deck.
pub fn origin(kind: DeckKind, block: &Name, place: u32) -> Form
    ensures { (counting : Option settled.Counting) → result ≡ (counters_at kind block.now place counting).origin }
{
    word_form(kind, block, word_of_place(kind, place))
}

/// `*` of a statement at this place, in units of its block: counted on from the LOC in force, or
/// `*O` where there is none.
pub fn location(kind: DeckKind, block: &Name, place: u32, counting: Option<Counting>) -> Form
    ensures { result ≡ (counters_at kind block.now place counting).location }
{
    match counting {
        Some(counting) => moved(
            counting.form(),
            word_of_place(kind, place),
            word_of_place(kind, counting.place()),
        ),
        None => origin(kind, block, place),
    }
}

/// The word of a block in which a place lies.
fn word_of_place(kind: DeckKind, place: u32) -> u32
    ensures { result ≡ word_of_place kind place }
{
    match kind {
        DeckKind::Rel => place / 4,
        DeckKind::Abs => place / 4,
        DeckKind::Periph => place,
    }
}

/// A word of a block.
fn word_form(kind: DeckKind, block: &Name, word: u32) -> Form
    ensures { result ≡ word_form kind block.now word }
{
    match kind {
        DeckKind::Rel => in_block(block, word),
        DeckKind::Abs => absolute_word_form(block, word),
        DeckKind::Periph => absolute_word_form(block, word),
    }
}

/// The same in an absolute or peripheral deck.
fn absolute_word_form(block: &Name, word: u32) -> Form
    ensures { result ≡ (if is_nominal block.now then absolute (pos word) else record { number = pos word; part = Some (Added (Block block.now)) }) }
{
    if block.as_slice() == b"0".as_slice() {
        Form::absolute(i64::from(word))
    } else {
        in_block(block, word)
    }
}

/// A word behind the base of a block.
fn in_block(block: &Name, word: u32) -> Form
    ensures { result ≡ record { number = pos word; part = Some (Added (Block block.now)) } }
{
    Form::new(
        i64::from(word),
        Some(Part::Added(Relocation::Block(*block))),
    )
}

/// The form that is so many words further.
fn moved(form: Form, word: u32, from: u32) -> Form
    requires { IsTrue (is_in_range form.number) }
    ensures { result ≡ moved form word from }
{
    let words = i64::from(word) - i64::from(from);
    Form::new(form.number() + words, form.part())
}
