//! Who answers for a desk.
ghost use Rattle.std.specs.Prelude.{◌≡◌};
ghost use Rattle.session_line.specs.DeskRelations.{unnamed};

use crate::greetings::Greeting;
use cards::DeckName;
use desk_core::{Call, Change, Desk, Question, Reply};
use std::alloc::Global;

/// Whoever is called for a desk: the desk itself, or one that shares it. The relation says what one call makes of it.
pub trait Called {
    ghost use Rattle.desk_core.specs.declared.calls.Call.{Call};
    ghost use Rattle.desk_core.specs.declared.replies.Reply.{Reply};

    ghost makes: { Self → Call → Reply → Self → Type 0 };

    /// Makes one call.
    fn call(&mut self, call: Call) -> Reply
        ensures { makes self.old call result self.new };
}

/// Whoever answers a session for a desk. The relations say what a change and a question make of it, what it answers
/// to a session that waits, and what becomes of the names of sessions.
pub trait Calls {
    ghost use Rattle.session_line.specs.DeskRelations.{DeskRelations};

    ghost relations: { DeskRelations Self };

    /// Makes a change.
    fn change(&mut self, change: Change) -> Reply
        ensures { relations.changes self.old change result self.new };

    /// Answers a question.
    fn ask(&mut self, question: Question) -> Reply
        ensures { relations.asks self.old question result self.new };

    /// Asks for the status for a session that waits until this version or a later one is published.
    fn await_version(&mut self, version: u64) -> Reply
        ensures { relations.awaits self.old version result self.new };

    /// The session gives its name, and asks for the status and for who is connected.
    fn greet(&mut self, alloc: Global, name: &DeckName) -> Greeting
        ensures { relations.greets self.old name.now result self.new };

    /// A session begins, which has given no name.
    fn begin_session(&mut self)
        ensures { relations.begins self.old self.new };
}

/// The call that makes a change of who has given no name.
pub(crate) fn unnamed(change: Change) -> Call
    ensures { result ≡ unnamed change }
{
    match DeckName::read(b"0") {
        Ok(by) => Call::Make { by, change },
        Err(_) => unreachable!(),
    }
}

impl Called for Desk {
    ghost use Rattle.desk_core.specs.Steps.{Steps};

    ghost makes = { Steps };

    fn call(&mut self, call: Call) -> Reply {
        self.step(call)
    }
}

/// A desk that nobody shares. Nobody publishes while it waits, so it answers at once. It keeps no
/// names, and knows of no session.
impl Calls for Desk {
    ghost use Rattle.desk_core.specs.Steps.{Steps};
    ghost use Rattle.session_line.specs.DeskRelations.{alone};

    ghost relations = { alone Steps };

    fn change(&mut self, change: Change) -> Reply {
        self.step(unnamed(change))
    }

    fn ask(&mut self, question: Question) -> Reply {
        self.step(Call::Ask(question))
    }

    fn await_version(&mut self, version: u64) -> Reply {
        let _ = version;
        self.step(Call::Ask(Question::Status))
    }

    fn greet(&mut self, alloc: Global, name: &DeckName) -> Greeting {
        let _ = name;
        Greeting::alone(alloc, self.step(Call::Ask(Question::Status)))
    }

    fn begin_session(&mut self) {}
}
