//! Executes a task once.
ghost use Rattle.std.specs.Prelude.{◌≡◌, ◌≤◌, length};
ghost use Rattle.session_line.specs.Answers.{IsTellable, called, most_cards, told_of_call, told_of_cards, told_of_greeting, told_of_help, told_of_wait, uncalled, IsToldAt, IsToldBy};
ghost use Rattle.session_line.specs.Asking.{Asks, AsksFor, NotesTold};
ghost use Rattle.session_line.specs.Executing.{Executes, LoadsDeck};
ghost use Rattle.session_line.specs.Replied.{shown_in};
ghost use Rattle.session_line.specs.SavingDecks.{SavesCards, SavesDeck};
ghost use Rattle.desk_core.specs.declared.calls.Question.TheVariants.{Cards, CardsAt, Show, Status};

use crate::answers::{
    Answer, Told, told_of_call, told_of_cards, told_of_cards_at, told_of_greeting, told_of_help,
    told_of_published, told_of_wait,
};
use crate::calls::Calls;
use crate::file_status::show_file_status;
use crate::file_tasks::show_files;
use crate::loading_all::load_all;
use crate::reasons::{load_reason, save_reason};
use crate::reloading::reload_deck;
use crate::saving_all::save_all;
use crate::tasks::{PublishedView, Task};
use cards::{Card, DeckName};
use deck_files::{SaveOver, Shelf};
use desk_core::{Change, NewDeck, Question};
use session_commands::CardsView;
use std::alloc::Global;
use std::hash::RandomState;

/// The answer after a call of the desk.
pub(crate) fn called(told: Told) -> Answer
    ensures { result ≡ called told }
{
    Answer {
        told,
        executed: true,
    }
}

/// The answer without one.
pub(crate) fn uncalled(told: Told) -> Answer
    ensures { result ≡ uncalled told }
{
    Answer {
        told,
        executed: false,
    }
}

/// A change of the desk.
pub(crate) fn make<C: Calls>(desk: &mut C, change: Change) -> Answer
    ensures makes { Asks C.relations.changes change told_of_call desk.old desk.new result }
    ensures fits { IsTellable result.told }
{
    called(told_of_call(desk.change(change)))
}

/// A question that shows neither cards nor a publication.
fn ask<C: Calls>(desk: &mut C, question: Question) -> Answer
    ensures asks { Asks C.relations.asks question told_of_call desk.old desk.new result }
    ensures fits { IsTellable result.told }
{
    called(told_of_call(desk.ask(question)))
}

/// The desk answers who waits for a version.
fn await_version<C: Calls>(desk: &mut C, version: u64) -> Answer
    ensures awaits { Asks C.relations.awaits version told_of_wait desk.old desk.new result }
    ensures fits { IsTellable result.told }
{
    called(told_of_wait(desk.await_version(version)))
}

/// The desk is given the name of the session.
fn greet<C: Calls>(alloc: Global, desk: &mut C, name: &DeckName) -> Answer
    ensures greets { Asks C.relations.greets name.now told_of_greeting desk.old desk.new result }
    ensures fits { IsTellable result.told }
{
    called(told_of_greeting(desk.greet(alloc, name)))
}

/// The desk is asked for its version, and what may be asked is shown.
fn show_help<C: Calls>(desk: &mut C) -> Answer
    ensures asks { Asks C.relations.asks Status told_of_help desk.old desk.new result }
    ensures fits { IsTellable result.told }
{
    called(told_of_help(desk.ask(Question::Status)))
}

/// The desk is asked for the cards of the deck.
fn show_cards<C: Calls>(desk: &mut C, name: DeckName, view: CardsView) -> Answer
    ensures asks { Asks C.relations.asks (Cards name) (told_of_cards view) desk.old desk.new result }
    ensures fits { IsTellable result.told }
{
    called(told_of_cards(view, desk.ask(Question::Cards(name))))
}

/// The desk is asked for the cards of now and the changes since a version, and these are taken back.
fn show_cards_at<C: Calls>(alloc: Global, desk: &mut C, name: DeckName, version: u64) -> Answer
    ensures asks { AsksFor C.relations.asks (CardsAt name version) IsToldAt desk.old desk.new result }
    ensures fits { IsTellable result.told }
{
    let reply = desk.ask(Question::CardsAt { name, version });
    called(told_of_cards_at(alloc, reply))
}

/// The desk is asked for the publication, and this of it is shown.
fn show_published<C: Calls>(
    alloc: Global,
    keys: RandomState,
    desk: &mut C,
    view: PublishedView,
) -> Answer
    ensures asks { AsksFor C.relations.asks Show (λ reply. IsToldBy view (shown_in reply)) desk.old desk.new result }
    ensures fits { IsTellable result.told }
{
    called(told_of_published(alloc, keys, view, desk.ask(Question::Show)))
}

/// The shelf notes the version that is shown of the deck, if one is.
pub(crate) fn note_told<S: Shelf>(shelf: &mut S, name: &DeckName, told: &Told)
    ensures { NotesTold S.relations name.now told.now shelf.old shelf.new }
{
    match told {
        Told::Done(version) | Told::Unkept(version) => shelf.note(name, *version),
        _ => {}
    }
}

/// One load of the shelf, then the addition of its cards to the desk, and the version of that goes to the shelf.
fn load_deck<C: Calls, S: Shelf>(desk: &mut C, shelf: &mut S, name: DeckName) -> Answer
    ensures loads { LoadsDeck C.relations.changes S.relations name desk.old desk.new shelf.old shelf.new result }
    ensures fits { IsTellable result.told }
{
    match shelf.load(&name) {
        Ok(cards) => {
            let answer = make(desk, Change::AddDeck(NewDeck::new(name.copied(), cards)));
            note_told(shelf, &name, &answer.told);
            answer
        }
        Err(fault) => uncalled(Told::Refused(load_reason(fault))),
    }
}

/// One save on the shelf of what the desk replied with.
fn save_cards<S: Shelf>(
    shelf: &mut S,
    name: &DeckName,
    over: SaveOver,
    version: u64,
    cards: &[Card],
) -> Answer
    requires { length cards.now ≤ most_cards }
    ensures saves { SavesCards S.relations name.now over version cards.now shelf.old shelf.new result }
    ensures fits { IsTellable result.told }
{
    match shelf.save(name, over, version, cards) {
        Ok(()) => called(Told::Done(version)),
        Err(fault) => called(Told::Refused(save_reason(fault))),
    }
}

/// The desk is asked for the cards of the deck, and then the shelf saves them.
pub(crate) fn save_deck<C: Calls, S: Shelf>(
    desk: &mut C,
    shelf: &mut S,
    name: &DeckName,
    over: SaveOver,
) -> Answer
    ensures saves { SavesDeck C.relations.asks S.relations name.now over desk.old desk.new shelf.old shelf.new result }
    ensures fits { IsTellable result.told }
{
    match told_of_cards(CardsView::All, desk.ask(Question::Cards(name.copied()))) {
        Told::Cards(version, cards, _) => {
            save_cards(shelf, name, over, version, cards.as_slice())
        }
        told => called(told),
    }
}

/// Executes a task: at most one call of the desk, with the calls of the shelf that belong to it; of RELOAD two,
/// and for each deck that SAVEALL saves or LOADALL adds one more.
pub(crate) fn execute<C: Calls, S: Shelf>(
    alloc: Global,
    keys: RandomState,
    desk: &mut C,
    shelf: &mut S,
    task: Task,
) -> Answer
    ensures executes { Executes C.relations S.relations task desk.old desk.new shelf.old shelf.new result }
    ensures fits { IsTellable result.told }
{
    match task {
        Task::Make(change) => make(desk, change),
        Task::Ask(question) => ask(desk, question),
        Task::AwaitVersion(version) => await_version(desk, version),
        Task::ShowCards(name, view) => show_cards(desk, name, view),
        Task::ShowCardsAt(name, version) => show_cards_at(alloc, desk, name, version),
        Task::Show(view) => show_published(alloc, keys, desk, view),
        Task::LoadDeck(name) => load_deck(desk, shelf, name),
        Task::LoadAll(name) => load_all(alloc, desk, shelf, &name),
        Task::ReloadDeck(name) => reload_deck(desk, shelf, &name),
        Task::SaveDeck(name, over) => save_deck(desk, shelf, &name, over),
        Task::SaveAll => save_all(alloc, desk, shelf),
        Task::ShowFiles => show_files(desk, shelf),
        Task::ShowFileStatus => show_file_status(alloc, desk, shelf),
        Task::Greet(name) => greet(alloc, desk, &name),
        Task::ShowHelp => show_help(desk),
        Task::Leave => uncalled(Told::Bye),
        Task::Refuse(refusal) => uncalled(Told::Refused(refusal)),
    }
}
