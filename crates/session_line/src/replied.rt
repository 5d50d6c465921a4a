//! What the desk's reply to a question gives, or why it gives nothing.
ghost use Rattle.std.specs.Prelude.{◌≡◌};
ghost use Rattle.session_line.specs.Replied.{shown_in, status_in};

use crate::reasons::desk_reason;
use desk_core::{Listed, Reply, Row, SharedPublication};
use session_commands::Refusal;

/// The state of the desk: its version, the published one, and a row for each deck.
#[derive(Drop)]
pub(crate) struct Status {
    pub(crate) version: u64,
    pub(crate) published: Option<u64>,
    pub(crate) rows: Listed<Row>,
}

/// The publication that is shown.
pub(crate) fn shown_in(reply: Reply) -> Result<SharedPublication, Refusal>
    ensures { result ≡ shown_in reply }
{
    match reply {
        Reply::Shown(publication) => Ok(publication),
        Reply::Refused(refusal) => Err(desk_reason(refusal)),
        other => {
            other.free();
            Err(Refusal::Foreign)
        }
    }
}

/// The status that is shown.
pub(crate) fn status_in(reply: Reply) -> Result<Status, Refusal>
    ensures { result ≡ status_in reply }
{
    match reply {
        Reply::StatusIs(version, published, rows) => Ok(Status {
            version,
            published,
            rows,
        }),
        Reply::Refused(refusal) => Err(desk_reason(refusal)),
        other => {
            other.free();
            Err(Refusal::Foreign)
        }
    }
}
