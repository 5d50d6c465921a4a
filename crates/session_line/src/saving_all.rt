//! Saves each deck whose file has not its cards.
ghost use Rattle.std.specs.Prelude.{◌≡◌, ◌≤◌, ◌<◌, ◌+◌, ◌++◌, length, vec_len, vec_capacity, option_to_list, IfOk, OnErr};
ghost use Rattle.session_line.specs.Answers.{IsTellable, most_decks};
ghost use Rattle.session_line.specs.SavingAll.{SavesAll, SavesRow, SavesRows, TellsSaves};

use crate::answers::{Answer, Told, told_of_call};
use crate::calls::Calls;
use crate::executing::{called, save_deck};
use crate::told_decks::{ToldDeck, outcome_of};
use deck_files::{SaveOver, Shelf};
use desk_core::{Listed, Question, Row};
use session_commands::Refusal;
use std::alloc::{AllocError, Global};

/// Saves a deck, where its file has not its cards: what became of it.
fn save_row<C: Calls, S: Shelf>(desk: &mut C, shelf: &mut S, row: &Row) -> Option<ToldDeck>
    ensures { SavesRow C.relations.asks S.relations row.now desk.old desk.new shelf.old shelf.new result }
{
    if shelf.is_saved(&row.name, row.version) {
        return None;
    }
    let answer = save_deck(desk, shelf, &row.name, SaveOver::Known);
    let outcome = outcome_of(&answer.told);
    answer.told.free();
    Some(ToldDeck {
        name: row.name.copied(),
        outcome,
    })
}

/// Puts what became of a deck, if it was to be saved, where there is room.
fn put_saved(saved: &mut Vec<ToldDeck>, told: Option<ToldDeck>)
    requires { vec_len saved.old < vec_capacity saved.old }
    ensures items { saved.new.items ≡ saved.old.items ++ option_to_list told }
    ensures room { vec_capacity saved.new ≡ vec_capacity saved.old }
{
    match told {
        Some(deck) => saved.push_reserved(deck),
        None => {}
    }
}

/// Saves decks one after the other, each whose file has not its cards: what became of these. The memory for
/// that is there before anything is saved.
fn save_rows<C: Calls, S: Shelf>(
    alloc: Global,
    desk: &mut C,
    shelf: &mut S,
    rows: &[Row],
) -> Result<Vec<ToldDeck>, AllocError>
    ensures saved { IfOk result (λ saved. SavesRows C.relations.asks S.relations desk.old shelf.old rows.now saved.items desk.new shelf.new) }
    ensures few { IfOk result (λ saved. length saved.items ≤ length rows.now) }
    ensures desk { OnErr result (desk.new ≡ desk.old) }
    ensures shelf { OnErr result (shelf.new ≡ shelf.old) }
{
    let mut saved = Vec::with_capacity(alloc, rows.len())?;
    for row in rows {
        let told = save_row(desk, shelf, row);
        put_saved(&mut saved, told);
    }
    Ok(saved)
}

/// Saves these decks, and returns what became of them with this version.
fn tell_saves<C: Calls, S: Shelf>(
    alloc: Global,
    desk: &mut C,
    shelf: &mut S,
    version: u64,
    rows: &[Row],
) -> Answer
    requires { length rows.now ≤ most_decks }
    ensures tells { TellsSaves C.relations.asks S.relations version rows.now desk.old desk.new shelf.old shelf.new result }
    ensures fits { IsTellable result.told }
{
    match save_rows(alloc, desk, shelf, rows) {
        Ok(saved) => called(Told::Decks(version, Listed::new(saved))),
        Err(_) => called(Told::Refused(Refusal::OutOfMemory)),
    }
}

/// The desk is asked for its status, and then each deck is saved whose file has not its cards.
pub(crate) fn save_all<C: Calls, S: Shelf>(alloc: Global, desk: &mut C, shelf: &mut S) -> Answer
    ensures saves { SavesAll C.relations.asks S.relations desk.old desk.new shelf.old shelf.new result }
    ensures fits { IsTellable result.told }
{
    match told_of_call(desk.ask(Question::Status)) {
        Told::Status(version, _, rows) => tell_saves(alloc, desk, shelf, version, rows.as_slice()),
        told => called(told),
    }
}
