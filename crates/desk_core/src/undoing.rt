//! A change that takes another back.
ghost use Rattle.std.specs.Prelude.{◌≡◌};
ghost use Rattle.desk_core.specs.Undoing.{against_change, undo};
ghost use Rattle.desk_core.specs.Joins.Turns.{MayAnswer};

use crate::changing::MOST_EDITS;
use crate::desk::Desk;
use crate::past::put_backs;
use crate::replies::{Refusal, Reply};
use crate::stored_deck::StoredDeck;
use cards::{DeckName, Edit};
use std::array::from_fn;

impl Desk {
    /// The change of the deck that made a version is taken back, as a new change. What takes it back stands
    /// in room of its own, so that want of memory is reported last.
    pub(crate) fn undo(&mut self, name: &DeckName, version: u64, by: &DeckName) -> Reply
        ensures { MayAnswer self.old (undo name.now version by.now self.old) result self.new }
    {
        let Some(place) = self.place_of(name) else {
            return Reply::Refused(Refusal::NoDeck);
        };
        let deck = self.decks.deck_at(place);
        if let Some(refusal) = against_change(deck, version) {
            return Reply::Refused(refusal);
        }
        let backs = deck.backs_at(version);
        let mut room: [Edit; MOST_EDITS] = from_fn(|_| Edit::Remove { at: 0 });
        let edits = room.split_at_mut(backs.len()).0;
        put_backs(backs, edits);
        self.edit_since(false, name, version, edits, by)
    }
}

/// What speaks against what is asked of the change of a version.
fn against_change(deck: &StoredDeck, version: u64) -> Option<Refusal>
    ensures { result ≡ against_change version deck.now }
{
    if version > deck.version() {
        return Some(Refusal::OldVersion(deck.version()));
    }
    if version <= deck.past().since() {
        return Some(Refusal::Forgotten(deck.past().since()));
    }
    let count = deck.backs_at(version).len();
    if count == 0 || count > MOST_EDITS {
        return Some(Refusal::NoChange);
    }
    None
}
