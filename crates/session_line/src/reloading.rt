//! Puts the cards of a file of the shelf in the place of those of its deck.
ghost use Rattle.std.specs.Prelude.{◌≡◌, option_map};
ghost use Rattle.std.specs.List.{find};
ghost use Rattle.definitions.specs.Characters.{same_text};
ghost use Rattle.desk_core.specs.declared.replies.Row.{Row as Deck};
ghost use Rattle.session_line.specs.Answers.{IsTellable};
ghost use Rattle.session_line.specs.Reloading.{PutsOver, ReloadsDeck, version_in, version_told};

use crate::answers::{Answer, Told};
use crate::calls::Calls;
use crate::executing::{called, make, note_told, uncalled};
use crate::reasons::load_reason;
use crate::replied::status_in;
use cards::{Card, DeckName};
use deck_files::Shelf;
use definitions::is_same_text;
use desk_core::{Change, NewDeck, Question, Reply, Row};
use session_commands::Refusal;

/// The deck of a name among those of a status.
fn row_named<'a>(name: &DeckName, rows: &'a [Row]) -> Option<&'a Row>
    ensures { option_map (λ row. row.now) result ≡ find (λ (row : Deck). same_text row.name name.now) rows.now }
{
    rows.iter()
        .find(|row| is_same_text(row.name.as_slice(), name.as_slice()))
}

/// The version of the deck of a name among those of a status.
fn version_in(name: &DeckName, rows: &[Row]) -> Result<u64, Refusal>
    ensures { result ≡ version_in name.now rows.now }
{
    match row_named(name, rows) {
        Some(row) => Ok(row.version),
        None => Err(Refusal::NoDeck),
    }
}

/// The version of the deck of a name that the desk shows, or why it shows none.
fn version_told(name: &DeckName, reply: Reply) -> Result<u64, Refusal>
    ensures { result ≡ version_told name.now reply }
{
    match status_in(reply) {
        Ok(status) => version_in(name, status.rows.as_slice()),
        Err(refusal) => Err(refusal),
    }
}

/// The desk is asked for its status, and then to put these cards in the place of those of the deck, by the
/// version that it has there.
fn put_over<C: Calls>(desk: &mut C, name: &DeckName, cards: Vec<Card>) -> Answer
    ensures puts { PutsOver C.relations (record { name = name.now; cards = cards.items }) desk.old desk.new result }
    ensures fits { IsTellable result.told }
{
    match version_told(name, desk.ask(Question::Status)) {
        Ok(seen) => make(
            desk,
            Change::PutDeck {
                deck: NewDeck::new(name.copied(), cards),
                seen,
            },
        ),
        Err(refusal) => called(Told::Refused(refusal)),
    }
}

/// One load of the shelf, and then the put of its cards over those of the deck; the version that the deck has then
/// goes to the shelf.
pub(crate) fn reload_deck<C: Calls, S: Shelf>(
    desk: &mut C,
    shelf: &mut S,
    name: &DeckName,
) -> Answer
    ensures reloads { ReloadsDeck C.relations S.relations name.now desk.old desk.new shelf.old shelf.new result }
    ensures fits { IsTellable result.told }
{
    match shelf.load(name) {
        Ok(cards) => {
            let answer = put_over(desk, name, cards);
            note_told(shelf, name, &answer.told);
            answer
        }
        Err(fault) => uncalled(Told::Refused(load_reason(fault))),
    }
}
