//! One step of the desk, and the desk as an object that callers take turns at.
ghost use Rattle.desk_core.specs.Carrying.{edit_by, edit_seen};
ghost use Rattle.desk_core.specs.Joins.Turns.{MayAnswer};
ghost use Rattle.desk_core.specs.Steps.{Steps, answer_to_question};
ghost use Rattle.desk_core.specs.declared.calls.Call.TheVariants.{Make, Do};

use crate::calls::{Call, Change, Edits, Question, Work};
use crate::desk::Desk;
use crate::replies::Reply;
use cards::{DeckName, Edit};
use session_commands::Seen;
use turn_office::Sequential;

impl Desk {
    /// Answers a call. The refusals come in a fixed order, want of memory last, and a refused call
    /// changes no card, version or publication. A drop, a delivery, a lease given up and a claim that gives
    /// nothing out take no memory.
    pub fn step(&mut self, call: Call) -> Reply
        ensures { Steps self.old call result self.new }
    {
        match call {
            Call::Make { by, change } => self.make(&by, change),
            Call::Ask(question) => self.tell(question),
            Call::Do(work) => self.work(work),
        }
    }

    /// Makes a change of who has this name.
    fn make(&mut self, by: &DeckName, change: Change) -> Reply
        ensures { Steps self.old (Make by.now change) result self.new }
    {
        match change {
            Change::AddDeck(deck) => self.add_deck(deck),
            Change::PutDeck { deck, seen } => self.put_deck(deck, seen),
            Change::DropDeck { name, seen } => self.drop_deck(&name, seen),
            Change::EditDeck { name, seen, edits } => self.edit(&name, seen, edits, by),
            Change::Undo { name, version } => self.undo(&name, version, by),
        }
    }

    /// Makes edits of the deck by who saw a version of it.
    fn edit(&mut self, name: &DeckName, seen: Seen, edits: Edits, by: &DeckName) -> Reply
        ensures { MayAnswer self.old (edit_seen name.now seen edits by.now self.old) result self.new }
    {
        match edits {
            Edits::Batch(edits) => {
                let mut edits = edits.into_items();
                self.edit_by(false, name, seen, &mut edits, by)
            }
            Edits::One(edit) => {
                let mut edits = [edit];
                self.edit_by(true, name, seen, &mut edits, by)
            }
        }
    }

    /// Makes edits in their order, by who saw a version of the deck: one alone, or a batch.
    fn edit_by(
        &mut self,
        single: bool,
        name: &DeckName,
        seen: Seen,
        edits: &mut [Edit],
        by: &DeckName,
    ) -> Reply
        ensures { MayAnswer self.old (edit_by single name.now seen edits.old by.now self.old) result self.new }
    {
        match seen {
            Seen::Exactly(seen) => self.edit_deck(single, name, seen, edits, by),
            Seen::Since(seen) => self.edit_since(single, name, seen, edits, by),
        }
    }

    /// Answers a question.
    fn tell(&self, question: Question) -> Reply
        ensures { MayAnswer self.now (answer_to_question question self.now) result self.now }
    {
        match question {
            Question::Changes { name, since } => self.changes(&name, since),
            Question::CardsAt { name, version } => self.earlier_cards(&name, version),
            Question::Cards(name) => self.cards(&name),
            Question::Show => self.show(),
            Question::Status => self.status(),
        }
    }

    /// Answers a worker.
    fn work(&mut self, work: Work) -> Reply
        ensures { Steps self.old (Do work) result self.new }
    {
        match work {
            Work::Claim => self.claim(),
            Work::DeliverDeck(done) => self.deliver_deck(done),
            Work::DeliverLink { lease, publication } => self.deliver_link(lease, publication),
            Work::Publish(lease) => self.publish(lease),
            Work::GiveUp(lease) => self.give_up(lease),
        }
    }
}

impl Sequential for Desk {
    ghost use Rattle.desk_core.specs.Steps.{Steps};

    type Call = Call;

    type Reply = Reply;

    ghost allowed = { Steps };

    fn step(&mut self, call: Call) -> Reply {
        Desk::step(self, call)
    }
}
