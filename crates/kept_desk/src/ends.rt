//! The ends that a session has at its service.

use cards::DeckName;
use desk_core::{Change, Refusal};
use journal::{Draft, Drafted};
use session_line::Connected;
use std::alloc::{AllocError, Global};

/// How a sleep ended.
#[derive(Clone, Copy)]
pub enum Woken {
    /// A publication of the version, or of a later one, was delivered.
    Delivered,
    /// The time is up, or the service ends.
    TimeUp,
}

/// The ends that a session has at its service, but for the desk: its place in the journal, the bell of the workers,
/// where publications are heard of, and who is connected. The relations say what its calls make of them.
pub trait Ends {
    ghost use Rattle.std.specs.Prelude.{◌≡◌, IfOk, OnErr, is_none, option_map};
    ghost use Rattle.journal.specs.Drafted.{is_whole};
    ghost use Rattle.journal.specs.Drafts.{carried_deck};
    ghost use Rattle.kept_desk.specs.EndsRelations.{EndsRelations};

    ghost relations: { EndsRelations Self };

    /// What is known of the record of a change that is asked for: the record, but where the change is carried; or
    /// refuses the change.
    fn begin(&mut self, change: &Change) -> Result<Drafted, Refusal>
        ensures begins { relations.begins self.old change.now result self.new }
        ensures form { IfOk result (λ known. is_whole known ≡ is_none (carried_deck change.now)) };

    /// Rings the bell of the workers, once.
    fn ring(&mut self)
        ensures { relations.rings self.old self.new };

    /// Keeps the record of a change that was made: whether it is kept, with all records before it.
    fn keep(&mut self, version: u64, draft: Draft) -> bool
        ensures { relations.keeps self.old version draft result self.new };

    /// The name by which the session asks for changes.
    fn who(&self) -> DeckName
        ensures { result ≡ relations.who self.now };

    /// Sleeps until a publication of this version or of a later one is delivered, or the time is up.
    fn sleep(&mut self, version: u64) -> Woken
        ensures { relations.sleeps self.old version result self.new };

    /// The sessions that are connected, this one by the name that it gives; no memory for them changes
    /// nothing.
    fn list(&mut self, alloc: Global, name: &DeckName) -> Result<Vec<Connected>, AllocError>
        ensures listed { IfOk result (λ sessions. relations.lists self.old name.now sessions.items self.new) }
        ensures lacking { OnErr result (self.new ≡ self.old) };

    /// By this name the session asks from now on; or by the one of who has given none.
    fn be_named(&mut self, name: Option<&DeckName>)
        ensures { relations.names self.old (option_map (λ name. name.now) name.entry) self.new };
}
