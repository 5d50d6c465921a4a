//! How many decks begin behind the END of another.
ghost use Rattle.std.specs.Prelude.{◌≡◌, ◌≤◌, is_none, length};
ghost use Rattle.deck_listing.specs.DecksBehind.{decks_behind};
ghost use Rattle.deck_listing.specs.Joins.LinesBehind.{begun_by, begun_in};

use crate::statements::split_cards;
use cards::Card;
use deck_cuts::begins_deck;
use deck_objects::{Line, Object};

/// How many decks begin with the statement of a line, which has these cards: one, or none.
fn begun_by(cards: &[Card], shown: &Line) -> usize
    ensures count { result ≡ begun_by cards.now (is_none shown.now.coded) }
    ensures few { result ≤ length cards.now }
{
    let Some((card, _)) = cards.split_first() else {
        return 0;
    };
    if shown.coded.is_none() && begins_deck(card) {
        1
    } else {
        0
    }
}

/// How many begin with the statements of lines, which have these cards.
fn begun_in(cards: &[Card], lines: &[Line]) -> usize
    ensures { result ≡ begun_in cards.now lines.now }
{
    let mut count = 0;
    let mut ahead = cards;
    for shown in lines {
        let (own, behind) = split_cards(ahead, shown.cards);
        count += begun_by(own, shown);
        ahead = behind;
    }
    count
}

/// How many decks begin behind the END of a deck.
pub(crate) fn decks_behind(object: &Object) -> usize
    ensures { result ≡ decks_behind object.now }
{
    begun_in(object.cards(), object.parts().lines.as_slice())
}
