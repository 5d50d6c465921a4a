//! The changes of a deck, as bytes to a writer: a line each, and one for each of their edits.
ghost use Rattle.std.specs.Prelude.{◌≡◌, ◌≤◌, ◌+◌, ◌*◌, ◌++◌, length, IfErr, IfOk};
ghost use Rattle.text_ports.specs.Joins.Sending.{Sends, count_after_sending};
ghost use Rattle.session_line.specs.ChangeLines.{change_line, change_lines};
ghost use Rattle.session_line.specs.Joins.ChangeWalks.{edits_text, lines_of_one};
ghost use Rattle.session_line.specs.Replies.{line_of, text_of_lines};

use crate::change_lines::{change_line, edit_line, split_change};
use cards::DeckName;
use desk_core::KeptEdit;
use std::io::Write;
use text_ports::{Broken, Counted, put_all};

/// The lines of edits; how many bytes they are.
fn write_edits<W: Write>(output: &mut Counted<W>, kept: &[KeptEdit]) -> Result<usize, Broken>
    requires { length kept.now ≤ 2000 }
    ensures sends { Sends (W.contents output.old.0) (W.contents output.new.0) (edits_text kept.now) result }
    ensures size { IfOk result (λ size. size ≡ length (edits_text kept.now)) }
    ensures count { output.new.1 ≡ count_after_sending result output.old.1 }
    ensures some { IfOk result (λ size. size ≤ 128 * length kept.now) }
    ensures few { IfErr result (λ broken. broken.sent ≤ 128 * length kept.now) }
{
    let mut sent = 0;
    for one in kept {
        let line = edit_line(&one.edit);
        let bytes = line.as_slice();
        if let Err(broken) = put_all(output, bytes) {
            return Err(Broken {
                sent: sent + broken.sent,
            });
        }
        sent += bytes.len();
    }
    Ok(sent)
}

/// The line of a change, and those of its edits; how many bytes they are.
fn write_headed<W: Write>(
    output: &mut Counted<W>,
    version: u64,
    by: &DeckName,
    own: &[KeptEdit],
) -> Result<usize, Broken>
    requires { length own.now ≤ 2000 }
    ensures sends { Sends (W.contents output.old.0) (W.contents output.new.0) (line_of (change_line version by.now (length own.now)) ++ edits_text own.now) result }
    ensures size { IfOk result (λ size. size ≡ length (line_of (change_line version by.now (length own.now)) ++ edits_text own.now)) }
    ensures count { output.new.1 ≡ count_after_sending result output.old.1 }
    ensures some { IfOk result (λ size. size ≤ 128 * (1 + length own.now)) }
    ensures few { IfErr result (λ broken. broken.sent ≤ 128 * (1 + length own.now)) }
{
    let line = change_line(version, by, own.len());
    let bytes = line.as_slice();
    if let Err(broken) = put_all(output, bytes) {
        return Err(broken);
    }
    match write_edits(output, own) {
        Ok(size) => Ok(bytes.len() + size),
        Err(broken) => Err(Broken {
            sent: bytes.len() + broken.sent,
        }),
    }
}

/// The lines of the edits of one change; how many bytes they are.
fn write_change<W: Write>(output: &mut Counted<W>, own: &[KeptEdit]) -> Result<usize, Broken>
    requires { length own.now ≤ 2000 }
    ensures sends { Sends (W.contents output.old.0) (W.contents output.new.0) (text_of_lines (lines_of_one own.now)) result }
    ensures size { IfOk result (λ size. size ≡ length (text_of_lines (lines_of_one own.now))) }
    ensures count { output.new.1 ≡ count_after_sending result output.old.1 }
    ensures some { IfOk result (λ size. size ≤ 256 * length own.now) }
    ensures few { IfErr result (λ broken. broken.sent ≤ 256 * length own.now) }
{
    match own.split_first() {
        Some((one, _)) => write_headed(output, one.version, &one.by, own),
        None => Ok(0),
    }
}

/// Writes the changes of edits.
pub(crate) fn write_changes<W: Write>(
    output: &mut Counted<W>,
    kept: &[KeptEdit],
) -> Result<(), Broken>
    requires { length kept.now ≤ 2000 }
    ensures sends { Sends (W.contents output.old.0) (W.contents output.new.0) (text_of_lines (change_lines kept.now)) result }
    ensures count { output.new.1 ≡ count_after_sending result output.old.1 }
    ensures few { IfErr result (λ broken. broken.sent ≤ 256 * 2001) }
{
    let mut sent = 0;
    let mut rest = kept;
    while !rest.is_empty() {
        let (own, behind) = split_change(rest);
        match write_change(output, own) {
            Ok(size) => sent += size,
            Err(broken) => {
                return Err(Broken {
                    sent: sent + broken.sent,
                });
            }
        }
        rest = behind;
    }
    Ok(())
}
