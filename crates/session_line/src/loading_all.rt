//! Adds each deck of a file of the shelf.
ghost use Rattle.std.specs.Prelude.{◌≡◌, ◌≤◌, ◌+◌, ◌⊎◌, length, vec_capacity, vec_len, Err, IfErr, IfNone, IfOk, Ok, OnErr};
ghost use Rattle.session_line.specs.Answers.{IsTellable, most_decks};
ghost use Rattle.session_line.specs.DeckCuts.{decks_in};
ghost use Rattle.session_line.specs.LoadingAll.{AddsAll, AddsCut, AddsDeck, AddsDecks, LoadsAll, TellsAdds, is_any_there, refusal_to_add};

use crate::answers::{Answer, MOST_DECKS, Told, told_of_call};
use crate::calls::Calls;
use crate::executing::{called, uncalled};
use crate::reasons::{cut_reason, load_reason};
use crate::told_decks::{ToldDeck, outcome_of};
use cards::{Card, DeckName};
use deck_cuts::{Deck, is_taken};
use deck_files::Shelf;
use desk_core::{Change, Listed, NewDeck, Question, Row};
use session_commands::Refusal;
use std::alloc::{AllocError, Global};

/// Whether a desk with these decks has the name of one of others.
fn is_any_there(rows: &[Row], decks: &[Deck]) -> bool
    ensures { result ≡ is_any_there rows.now decks.now }
{
    rows.iter().any(|row| is_taken(row.name.as_slice(), decks))
}

/// Why a desk with these decks is asked to add none of others.
fn refusal_to_add(rows: &[Row], decks: &[Deck]) -> Option<Refusal>
    requires { length rows.now ≤ most_decks }
    ensures refusal { result ≡ refusal_to_add rows.now decks.now }
    ensures few { IfNone result (length decks.now ≤ most_decks) }
{
    if is_any_there(rows, decks) {
        return Some(Refusal::NameTaken);
    }
    if decks.len() > MOST_DECKS - rows.len() {
        Some(Refusal::TooManyDecks)
    } else {
        None
    }
}

/// The desk is asked to add a deck: what became of it.
fn add_deck<C: Calls>(desk: &mut C, deck: Deck) -> ToldDeck
    ensures { AddsDeck C.relations deck desk.old desk.new result }
{
    let (name, cards) = deck.into_parts();
    let added = name.copied();
    let told = told_of_call(desk.change(Change::AddDeck(NewDeck::new(name, cards))));
    let outcome = outcome_of(&told);
    told.free();
    ToldDeck {
        name: added,
        outcome,
    }
}

/// Adds decks one after the other: what became of each. The memory for that is there before any is added.
fn add_decks<C: Calls>(
    alloc: Global,
    desk: &mut C,
    decks: Vec<Deck>,
) -> Result<Vec<ToldDeck>, AllocError>
    ensures adds { IfOk result (λ lines. AddsDecks C.relations desk.old decks.items lines.items desk.new) }
    ensures each { IfOk result (λ lines. length lines.items ≡ length decks.items) }
    ensures lacking { OnErr result (desk.new ≡ desk.old) }
{
    let mut lines = Vec::with_capacity(alloc, decks.len())?;
    for deck in decks {
        lines.push_reserved(add_deck(desk, deck));
    }
    Ok(lines)
}

/// Adds decks to a desk that has these, where it has the name of none and room for all, and returns what became
/// of them with this version.
fn tell_adds<C: Calls>(
    alloc: Global,
    desk: &mut C,
    version: u64,
    rows: &[Row],
    decks: Vec<Deck>,
) -> Answer
    requires { length rows.now ≤ most_decks }
    ensures tells { TellsAdds C.relations version rows.now decks.items desk.old desk.new result }
    ensures fits { IsTellable result.told }
{
    if let Some(refusal) = refusal_to_add(rows, decks.as_slice()) {
        return called(Told::Refused(refusal));
    }
    match add_decks(alloc, desk, decks) {
        Ok(lines) => called(Told::Decks(version, Listed::new(lines))),
        Err(_) => called(Told::Refused(Refusal::OutOfMemory)),
    }
}

/// The desk is asked for its status, and then to add the decks.
fn add_all<C: Calls>(alloc: Global, desk: &mut C, decks: Vec<Deck>) -> Answer
    ensures adds { AddsAll C.relations decks.items desk.old desk.new result }
    ensures fits { IsTellable result.told }
{
    match told_of_call(desk.ask(Question::Status)) {
        Told::Status(version, _, rows) => tell_adds(alloc, desk, version, rows.as_slice(), decks),
        told => called(told),
    }
}

/// The decks of a file's cards, or why it has none: `BadName` where a card stands before the first IDENT or
/// one of these has no name of a deck, `NameTaken` where two have the same, `TooManyDecks`, `DeckFull`; the
/// first card counts that one applies to.
fn cut_cards(alloc: Global, cards: &[Card]) -> Result<Vec<Deck>, Refusal>
    ensures ok { IfOk result (λ decks. decks_in cards.now ≡ Ok decks.items) }
    ensures err { IfErr result (λ refusal. (decks_in cards.now ≡ Err refusal) ⊎ (refusal ≡ Refusal.OutOfMemory)) }
{
    match deck_cuts::cut_cards(alloc, cards) {
        Ok(decks) => Ok(decks),
        Err(fault) => Err(cut_reason(fault)),
    }
}

/// One load of the shelf, and then the addition of the decks of its file; the shelf is given no version of
/// them, so none of their files is known by it.
pub(crate) fn load_all<C: Calls, S: Shelf>(
    alloc: Global,
    desk: &mut C,
    shelf: &mut S,
    name: &DeckName,
) -> Answer
    ensures loads { LoadsAll C.relations S.relations name.now desk.old desk.new shelf.old shelf.new result }
    ensures fits { IsTellable result.told }
{
    match shelf.load(name) {
        Ok(cards) => match cut_cards(alloc, cards.as_slice()) {
            Ok(decks) => add_all(alloc, desk, decks),
            Err(refusal) => uncalled(Told::Refused(refusal)),
        },
        Err(fault) => uncalled(Told::Refused(load_reason(fault))),
    }
}
