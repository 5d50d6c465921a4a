//! Calls that read what is kept of a deck's changes.
ghost use Rattle.std.specs.Prelude.{◌≡◌, ◌<◌, length, slice_get, IfOk};
ghost use Rattle.desk_core.specs.Earlier.{against_since, edits_behind, changes_of, changes, cards_at_of, cards_at};
ghost use Rattle.desk_core.specs.Past.{backs_of};
ghost use Rattle.desk_core.specs.Joins.Turns.{MayAnswer};

use crate::desk::Desk;
use crate::listed::Listed;
use crate::replies::{Refusal, Reply};
use crate::stored_deck::StoredDeck;
use crate::told_cards::ToldCards;
use cards::{DeckName, Edit};
use std::alloc::{AllocError, Global};

impl Desk {
    /// The changes of the deck behind a version.
    pub(crate) fn changes(&self, name: &DeckName, since: u64) -> Reply
        ensures { MayAnswer self.now (changes name.now since self.now) result self.now }
    {
        match self.place_of(name) {
            Some(place) => self.changes_at(place, since),
            None => Reply::Refused(Refusal::NoDeck),
        }
    }

    fn changes_at(&self, place: usize, since: u64) -> Reply
        requires { place < length self.now.decks }
        ensures { MayAnswer self.now (changes_of since self.now (slice_get self.now.decks place)) result self.now }
    {
        let deck = self.decks.deck_at(place);
        if let Some(refusal) = against_since(deck, since) {
            return Reply::Refused(refusal);
        }
        match deck.past().edits_behind(self.alloc, since) {
            Ok(edits) => Reply::ChangesAre(deck.version(), Listed::new(edits)),
            Err(_) => Reply::Refused(Refusal::OutOfMemory),
        }
    }

    /// The cards that the deck had at a version: those of now, and what takes back all that came behind.
    pub(crate) fn earlier_cards(&self, name: &DeckName, version: u64) -> Reply
        ensures { MayAnswer self.now (cards_at name.now version self.now) result self.now }
    {
        match self.place_of(name) {
            Some(place) => self.cards_before(place, version),
            None => Reply::Refused(Refusal::NoDeck),
        }
    }

    fn cards_before(&self, place: usize, version: u64) -> Reply
        requires { place < length self.now.decks }
        ensures { MayAnswer self.now (cards_at_of version self.now (slice_get self.now.decks place)) result self.now }
    {
        let deck = self.decks.deck_at(place);
        if let Some(refusal) = against_since(deck, version) {
            return Reply::Refused(refusal);
        }
        match cards_and_backs(self.alloc, deck, version) {
            Ok((cards, backs)) => { Reply::CardsBefore(version, cards, Listed::new(backs)) }
            Err(_) => Reply::Refused(Refusal::OutOfMemory),
        }
    }
}

/// The cards of now, and what takes back all that came behind a version.
fn cards_and_backs(
    alloc: Global,
    deck: &StoredDeck,
    version: u64,
) -> Result<(ToldCards, Vec<Edit>), AllocError>
    ensures cards { IfOk result (λ both. both.0 ≡ deck.now.cards) }
    ensures backs { IfOk result (λ both. both.1.items ≡ backs_of (edits_behind version deck.now)) }
{
    let cards = deck.told_cards(alloc)?;
    let backs = deck.past().backs_behind(alloc, version)?;
    Ok((cards, backs))
}

/// What speaks against what is asked of a deck from a version on.
pub(crate) fn against_since(deck: &StoredDeck, version: u64) -> Option<Refusal>
    ensures { result ≡ against_since version deck.now }
{
    if version > deck.version() {
        return Some(Refusal::OldVersion(deck.version()));
    }
    if version < deck.past().since() {
        return Some(Refusal::Forgotten(deck.past().since()));
    }
    None
}
