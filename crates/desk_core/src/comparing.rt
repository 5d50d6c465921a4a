//! Names, cards and decks compared by value.
ghost use Rattle.std.specs.Prelude.{◌≡◌, ◌&&◌, length, map};
ghost use Rattle.desk_core.specs.Joins.Language.{same_text};
ghost use Rattle.desk_core.specs.Desks.{deck_of};
ghost use Rattle.desk_core.specs.Delivering.{same_cards, same_decks};

use crate::stored_deck::StoredDeck;
use cards::{Card, DeckName};
use deck_listing::ListedObject;
use definitions::is_same_text;

pub(crate) fn same_name(name: &DeckName, other: &DeckName) -> bool
    ensures { result ≡ same_text name.now other.now }
{
    is_same_text(name.as_slice(), other.as_slice())
}

/// Whether cards are the same, one by one. Where their numbers differ none is looked at.
pub(crate) fn same_cards(cards: &[Card], others: &[Card]) -> bool
    ensures { result ≡ same_cards cards.now others.now }
{
    cards.len() == others.len() && all_cards_same(cards, others)
}

/// Whether cards and others, as many as these, are both the same as these, one by one: two copies that share what
/// they have are read once.
pub(crate) fn both_same_cards(cards: &[Card], others: &[Card], these: &[Card]) -> bool
    requires cards { length cards.now ≡ length these.now }
    requires others { length others.now ≡ length these.now }
    ensures { result ≡ (same_cards cards.now these.now && same_cards others.now these.now) }
{
    for (place, card) in these.iter().enumerate() {
        if !cards[place].is_same(card) {
            return false;
        }
        if !others[place].is_same(card) {
            return false;
        }
    }
    true
}

fn all_cards_same(cards: &[Card], others: &[Card]) -> bool
    requires { length cards.now ≡ length others.now }
    ensures { result ≡ same_cards cards.now others.now }
{
    for (place, card) in cards.iter().enumerate() {
        if !card.is_same(&others[place]) {
            return false;
        }
    }
    true
}

/// Whether objects are of these decks, in the same order.
pub(crate) fn same_decks(objects: &[ListedObject], decks: &[StoredDeck]) -> bool
    ensures { result ≡ same_decks objects.now (map deck_of decks.now) }
{
    objects.len() == decks.len() && all_decks_same(objects, decks)
}

fn all_decks_same(objects: &[ListedObject], decks: &[StoredDeck]) -> bool
    requires { length objects.now ≡ length decks.now }
    ensures { result ≡ same_decks objects.now (map deck_of decks.now) }
{
    for (place, object) in objects.iter().enumerate() {
        if !decks[place].is_of_object(object) {
            return false;
        }
    }
    true
}
