//! Who greets: what a session is answered that says its name, and who is connected then.
ghost use Rattle.std.specs.Prelude.{◌≡◌, []};
ghost use Rattle.session_line.specs.Greetings.{is_met, met, service_version};

use crate::rights::Rights;
use cards::DeckName;
use desk_core::{Listed, Reply};
use std::alloc::Global;

/// The version of the program.
pub const VERSION: &str = "0.1.0";

/// A session that is connected: its number, its name, the number as text where it gave none, and what it may
/// do.
#[derive(Drop)]
pub struct Connected {
    pub number: u64,
    pub who: DeckName,
    pub rights: Rights,
}

/// What a session is answered that says its name: the status of the desk, or why there is none; and the
/// sessions that are connected, in the order of their numbers.
#[derive(Drop)]
pub struct Greeting {
    pub status: Reply,
    pub sessions: Listed<Connected>,
}

impl Greeting {
    /// The answer of who knows of no session.
    pub fn alone(alloc: Global, status: Reply) -> Greeting
        ensures { result ≡ met status [] }
    {
        Greeting {
            status,
            sessions: Listed::new(Vec::new(alloc)),
        }
    }

    /// Whether the name holds from now on.
    pub fn is_met(&self) -> bool
        ensures { result ≡ is_met self.now }
    {
        matches!(self.status, Reply::StatusIs(..))
    }
}

/// The version of the program, as bytes.
pub(crate) fn service_version() -> &'static [u8]
    ensures { result.now ≡ service_version }
{
    VERSION.as_bytes()
}
