//! What is shown of the cards of a deck.
ghost use Rattle.std.specs.Prelude.{◌≡◌, length};
ghost use Rattle.session_line.specs.Views.{cards_from, numbers_of};

use cards::Card;
use session_commands::has_text;

/// The cards from a place on, at most so many.
pub(crate) fn cards_from(place: u64, count: u64, cards: &[Card]) -> &[Card]
    ensures { result.now ≡ cards_from place count cards.now }
{
    let before = place.saturating_sub(1);
    if before >= cards.len() as u64 {
        return cards.split_at(cards.len()).1;
    }
    let behind = cards.split_at(before as usize).1;
    if count >= behind.len() as u64 {
        return behind;
    }
    behind.split_at(count as usize).0
}

/// How many cards have a text.
pub(crate) fn count_with(text: &[u8], cards: &[Card]) -> usize
    ensures { result ≡ length (numbers_of text.now cards.now) }
{
    let mut count = 0;
    for card in cards {
        if has_text(text, card.as_slice()) {
            count += 1;
        }
    }
    count
}
