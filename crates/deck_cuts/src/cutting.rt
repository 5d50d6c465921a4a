//! The cut of cards into decks, card by card.
ghost use Rattle.std.specs.Prelude.{◌≡◌, ◌==◌, ◌≤◌, not, ◌&&◌, length, reverse, take_while, IfErr, IfOk, OnOk};
ghost use Rattle.std.specs.List.{prefix_len};
ghost use Rattle.definitions.specs.Characters.{blank, comma};
ghost use Rattle.definitions.specs.DeckInput.{Decks, is_taken, continued, with_card};
ghost use Rattle.deck_cuts.specs.Cuts.{begins_deck, input_of_cards, newest_first, IsFaultOf, TellsFaultOf};
ghost use Rattle.deck_cuts.specs.Joins.CardRoles.{role_of, begun_named};

use crate::cut_fault::CutFault;
use crate::deck::Deck;
use cards::{Card, DeckName, Fields, MOST_CARDS};
use definitions::is_same_text;
use std::alloc::Global;

/// How many decks there are at most.
const MOST_DECKS: usize = 64;

/// What a card is to the decks, known by the card alone.
#[derive(Drop)]
enum CardRole {
    /// An IDENT card, with a lawful name.
    Begins(DeckName),
    /// An IDENT card, with no lawful name.
    Misnamed,
    /// Any other card.
    Continues,
}

/// Adds the card of this number to decks: an IDENT card, which is known by that card alone, begins one. After a
/// fault what became of the decks is not proved.
pub fn add_card(
    alloc: Global,
    decks: &mut Vec<Deck>,
    number: u64,
    card: Card,
) -> Result<(), CutFault>
    ensures ok { OnOk result (with_card number card (newest_first decks.old.items)
        ≡ Decks (newest_first decks.new.items)) }
    ensures err { IfErr result (IsFaultOf (with_card number card (newest_first decks.old.items))) }
{
    match role_of(&card) {
        CardRole::Begins(name) => begin_deck(alloc, decks, name, card),
        CardRole::Misnamed => Err(CutFault::BadName { number }),
        CardRole::Continues => continue_deck(decks, number, card),
    }
}

/// The role of a card, by its fields alone.
fn role_of(card: &Card) -> CardRole
    ensures { result ≡ role_of card.now }
{
    if !begins_deck(card) {
        return CardRole::Continues;
    }
    match DeckName::read(before_mark(Fields::of_card(card).variable())) {
        Ok(name) => CardRole::Begins(name),
        Err(_) => CardRole::Misnamed,
    }
}

/// Whether a card begins a deck, which is known by that card alone.
pub fn begins_deck(card: &Card) -> bool
    ensures { result ≡ begins_deck card.now }
{
    is_same_text(Fields::operation_of_card(card), b"IDENT")
}

/// What stands before the first comma or blank.
fn before_mark(text: &[u8]) -> &[u8]
    ensures { result.now ≡ take_while (λ c. not (c == comma) && not (c == blank)) text.now }
{
    text.split_at(before_mark_len(text)).0
}

fn before_mark_len(text: &[u8]) -> usize
    ensures len { result ≡ prefix_len (λ c. not (c == comma) && not (c == blank)) text.now }
    ensures within { result ≤ length text.now }
{
    for (k, c) in text.iter().enumerate() {
        if *c == b',' || *c == b' ' {
            return k;
        }
    }
    text.len()
}

/// Begins a deck with its IDENT card.
fn begin_deck(
    alloc: Global,
    decks: &mut Vec<Deck>,
    name: DeckName,
    card: Card,
) -> Result<(), CutFault>
    ensures ok { OnOk result (begun_named name card (newest_first decks.old.items)
        ≡ Decks (newest_first decks.new.items)) }
    ensures err { IfErr result (IsFaultOf (begun_named name card (newest_first decks.old.items))) }
{
    if is_taken(name.as_slice(), decks) {
        return Err(CutFault::NameTaken);
    }
    if decks.len() >= MOST_DECKS {
        return Err(CutFault::TooManyDecks);
    }
    let mut deck = Deck::new(alloc, name);
    deck.push(card)?;
    decks.push(deck)?;
    Ok(())
}

/// Whether one of the decks has this name.
pub fn is_taken(name: &[u8], decks: &[Deck]) -> bool
    ensures { result ≡ is_taken name.now decks.now }
{
    decks.iter().any(|deck| is_same_text(deck.name(), name))
}

/// Adds a card to the latest deck.
fn continue_deck(decks: &mut Vec<Deck>, number: u64, card: Card) -> Result<(), CutFault>
    ensures ok { OnOk result (continued number card (newest_first decks.old.items)
        ≡ Decks (newest_first decks.new.items)) }
    ensures err { IfErr result (IsFaultOf (continued number card (newest_first decks.old.items))) }
{
    let Some(deck) = decks.last_mut() else {
        return Err(CutFault::BadName { number });
    };
    if deck.cards().len() >= MOST_CARDS {
        return Err(CutFault::DeckFull);
    }
    deck.push(card)?;
    Ok(())
}

/// The decks of some cards, numbered from 1, in order and with their cards in order, or the first fault among
/// them.
pub fn cut_cards(alloc: Global, cards: &[Card]) -> Result<Vec<Deck>, CutFault>
    ensures ok { IfOk result (λ decks. input_of_cards (reverse cards.now) ≡ Decks (newest_first decks.items)) }
    ensures err { IfErr result (TellsFaultOf (input_of_cards (reverse cards.now))) }
{
    let mut decks = Vec::new(alloc);
    for (place, card) in cards.iter().enumerate() {
        add_card(alloc, &mut decks, place as u64 + 1, card.copied())?;
    }
    Ok(decks)
}
