//! The lines of who is connected, as bytes to a writer.
ghost use Rattle.std.specs.Prelude.{◌≡◌, ◌≤◌, ◌*◌, ◌++◌, length, IfErr};
ghost use Rattle.session_line.specs.Greetings.{service_text};
ghost use Rattle.session_line.specs.Replies.{line_of, sessions_text};
ghost use Rattle.text_ports.specs.Joins.Sending.{Sends, count_after_sending};

use crate::greetings::Connected;
use crate::line_writing::{ReplyRow, write_behind};
use crate::reply_line::ReplyLine;
use crate::reply_texts::{connected_line, service_line};
use std::io::Write;
use text_ports::{Broken, Counted};

impl ReplyRow for Connected {
    ghost use Rattle.session_line.specs.Greetings.{connected_text};
    ghost use Rattle.session_line.specs.Replies.{line_of};

    ghost line_text = { λ connected. line_of (connected_text connected) };

    fn line(&self) -> ReplyLine {
        connected_line(self)
    }
}

/// The line of the service, and those of sessions.
pub(crate) fn write_sessions<W: Write>(
    output: &mut Counted<W>,
    sessions: &[Connected],
) -> Result<(), Broken>
    requires { length sessions.now ≤ 64 }
    ensures sends { Sends (W.contents output.old.0) (W.contents output.new.0) (line_of service_text ++ sessions_text sessions.now) result }
    ensures count { output.new.1 ≡ count_after_sending result output.old.1 }
    ensures few { IfErr result (λ broken. broken.sent ≤ 128 * 1002) }
{
    let line = service_line();
    write_behind(output, line.as_slice(), sessions)
}
