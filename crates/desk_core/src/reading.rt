//! Calls that read a desk.
ghost use Rattle.std.specs.Prelude.{◌≡◌, ◌<◌, length, map, slice_get, option_map, IfOk};
ghost use Rattle.desk_core.specs.Answers.{answers};
ghost use Rattle.desk_core.specs.Reading.{cards_reply, cards, show, status, row_of, published_version};
ghost use Rattle.desk_core.specs.Joins.Turns.{MayAnswer};

use crate::desk::Desk;
use crate::listed::Listed;
use crate::replies::{Refusal, Reply, Row};
use crate::stored_deck::StoredDeck;
use cards::DeckName;
use std::alloc::{AllocError, Global};

impl Desk {
    /// Version and cards of the deck.
    pub(crate) fn cards(&self, name: &DeckName) -> Reply
        ensures { MayAnswer self.now (cards name.now self.now) result self.now }
    {
        match self.place_of(name) {
            Some(place) => self.cards_at(place),
            None => Reply::Refused(Refusal::NoDeck),
        }
    }

    fn cards_at(&self, place: usize) -> Reply
        requires { place < length self.now.decks }
        ensures { MayAnswer self.now (answers (cards_reply (slice_get self.now.decks place)) self.now) result self.now }
    {
        let deck = self.decks.deck_at(place);
        match deck.told_cards(self.alloc) {
            Ok(cards) => Reply::CardsAre(deck.version(), cards),
            Err(_) => Reply::Refused(Refusal::OutOfMemory),
        }
    }

    /// The publication.
    pub(crate) fn show(&self) -> Reply
        ensures { MayAnswer self.now (show self.now) result self.now }
    {
        match &self.publication {
            None => Reply::Refused(Refusal::NoPublication),
            Some(publication) => match publication.share() {
                Ok(publication) => Reply::Shown(publication),
                Err(_) => Reply::Refused(Refusal::OutOfMemory),
            },
        }
    }

    /// The versions and states of all decks.
    pub(crate) fn status(&self) -> Reply
        ensures { MayAnswer self.now (status self.now) result self.now }
    {
        match rows(self.alloc, self.decks.as_slice()) {
            Ok(rows) => Reply::StatusIs(self.version, self.published(), Listed::new(rows)),
            Err(_) => Reply::Refused(Refusal::OutOfMemory),
        }
    }

    /// The version of the publication.
    pub(crate) fn published(&self) -> Option<u64>
        ensures { result ≡ published_version self.now }
    {
        match &self.publication {
            None => None,
            Some(publication) => Some(publication.publication().version()),
        }
    }
}

/// A row for each deck.
fn rows(alloc: Global, decks: &[StoredDeck]) -> Result<Vec<Row>, AllocError>
    ensures { IfOk result (λ rows. rows.items ≡ map row_of decks.now) }
{
    let mut rows = Vec::with_capacity(alloc, decks.len())?;
    for deck in decks {
        rows.push(deck.row())?;
    }
    Ok(rows)
}
