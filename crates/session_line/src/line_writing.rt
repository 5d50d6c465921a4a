//! Rows of replies as bytes to a writer, a line each.
ghost use Rattle.std.specs.Prelude.{◌≡◌, ◌≤◌, ◌+◌, ◌*◌, ◌++◌, length, flat_map, IfErr};
ghost use Rattle.text_ports.specs.Joins.Sending.{Sends, count_after_sending};

use crate::reply_line::ReplyLine;
use std::io::Write;
use text_ports::{Broken, Counted, put_all};

/// What has a line of its own in a reply. The member says which.
pub(crate) trait ReplyRow {
    ghost use Rattle.std.specs.Prelude.{◌≡◌, ℕ, List};

    ghost line_text: { Self → List ℕ };

    /// Its line.
    fn line(&self) -> ReplyLine
        ensures { result ≡ line_text self.now };
}

/// The lines of some rows.
pub(crate) fn write_rows<W: Write, T: ReplyRow>(
    output: &mut Counted<W>,
    rows: &[T],
) -> Result<(), Broken>
    requires { length rows.now ≤ 1000 }
    ensures sends { Sends (W.contents output.old.0) (W.contents output.new.0) (flat_map T.line_text rows.now) result }
    ensures count { output.new.1 ≡ count_after_sending result output.old.1 }
    ensures few { IfErr result (λ broken. broken.sent ≤ 128 * 1001) }
{
    let mut sent = 0;
    for row in rows {
        let line = row.line();
        let bytes = line.as_slice();
        if let Err(broken) = put_all(output, bytes) {
            return Err(Broken {
                sent: sent + broken.sent,
            });
        }
        sent += bytes.len();
    }
    Ok(())
}

/// A first line, and those of some rows.
pub(crate) fn write_behind<W: Write, T: ReplyRow>(
    output: &mut Counted<W>,
    first: &[u8],
    rows: &[T],
) -> Result<(), Broken>
    requires short { length first.now ≤ 128 }
    requires few { length rows.now ≤ 1000 }
    ensures sends { Sends (W.contents output.old.0) (W.contents output.new.0) (first.now ++ flat_map T.line_text rows.now) result }
    ensures count { output.new.1 ≡ count_after_sending result output.old.1 }
    ensures few { IfErr result (λ broken. broken.sent ≤ 128 * 1002) }
{
    put_all(output, first)?;
    match write_rows(output, rows) {
        Ok(()) => Ok(()),
        Err(broken) => Err(Broken {
            sent: first.len() + broken.sent,
        }),
    }
}
