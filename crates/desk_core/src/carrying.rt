//! Edits that find their card: carried over what others changed since their sender looked.
ghost use Rattle.std.specs.Prelude.{◌≡◌, ◌<◌, length, slice_get, None, Ok};
ghost use Rattle.std.specs.Option.{ForSome};
ghost use Rattle.desk_core.specs.Carrying.{carried_since, against_carry, edit_since};
ghost use Rattle.desk_core.specs.Joins.Turns.{MayAnswer};

use crate::changing::{MOST_EDITS, shown};
use crate::desk::{Desk, against_next};
use crate::earlier::against_since;
use crate::listed::Listed;
use crate::replies::{Refusal, Reply};
use cards::{DeckName, Edit, copied_edits};

impl Desk {
    /// Edits of the deck by who saw a version of it, one alone or several, as one change; for the reply they are
    /// copied.
    pub(crate) fn edit_since(
        &mut self,
        single: bool,
        name: &DeckName,
        seen: u64,
        edits: &mut [Edit],
        by: &DeckName,
    ) -> Reply
        ensures { MayAnswer self.old (edit_since single name.now seen edits.old by.now self.old) result self.new }
    {
        let Some(place) = self.place_of(name) else {
            return Reply::Refused(Refusal::NoDeck);
        };
        if let Some(refusal) = self.carry_at(place, seen, edits) {
            return Reply::Refused(shown(single, refusal));
        }
        let before = self.version_at(place);
        let Ok(copies) = copied_edits(self.alloc, edits) else {
            return Reply::Refused(Refusal::OutOfMemory);
        };
        match self.edit_at(place, by, edits) {
            Ok(version) => Reply::Carried {
                version,
                seen: before,
                edits: Listed::new(copies),
            },
            Err(_) => Reply::Refused(Refusal::OutOfMemory),
        }
    }

    /// The version of the deck at a place.
    fn version_at(&self, place: usize) -> u64
        requires { place < length self.now.decks }
        ensures { ForSome (slice_get self.now.decks place) (λ deck. result ≡ deck.version) }
    {
        self.decks.deck_at(place).version()
    }

    /// Carries edits over what others changed in the deck at a place since their sender looked, or returns
    /// what speaks against them.
    pub(crate) fn carry_at(&self, place: usize, seen: u64, edits: &mut [Edit]) -> Option<Refusal>
        requires { place < length self.now.decks }
        ensures refusal { ForSome (slice_get self.now.decks place) (λ deck. result ≡ against_carry seen edits.old self.now deck) }
        ensures carried { result ≡ None → ForSome (slice_get self.now.decks place) (λ deck. carried_since seen edits.old deck ≡ Ok edits.new) }
    {
        let deck = self.decks.deck_at(place);
        if let Some(refusal) = against_since(deck, seen) {
            return Some(refusal);
        }
        if edits.is_empty() || edits.len() > MOST_EDITS {
            return Some(Refusal::BatchSize);
        }
        if let Some(refusal) = deck.carry(seen, edits) {
            return Some(refusal);
        }
        against_next(self.version)
    }
}
