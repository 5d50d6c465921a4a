//! One session, in which each read and each write fails in turn, in pieces of one byte.
//!
//! `serve_all`: the session without a fault; `fail_reads`, `fail_writes`: with how many it ended as wanted.

use crate::place::{Place, push_outcome};
use session_line::Outcome;
use std::alloc::Global;
use test_parts::{Answer, Failing, Got, fixed_keys};
use text_ports::Counted;

/// Makes a step of this word, if it is one of this session, and answers whether it is.
pub fn make(alloc: Global, word: &str, answer: &mut Answer) -> bool {
    let done = match word {
        "serve_all" => show_all(alloc, answer),
        "fail_reads" => fail(alloc, true, answer),
        "fail_writes" => fail(alloc, false, answer),
        _ => return false,
    };
    answer.keep(done);
    true
}

/// A command of the session: its lines, its reply, whether it calls the desk, and the desk's version behind
/// it.
type Exchange = (&'static str, &'static str, bool, u64);

/// The session.
const ROWS: [Exchange; 11] = [
    ("ADD M\n", "OK 1\n", true, 1),
    ("INS M 1 1 *A\n", "OK 2\n", true, 2),
    ("BATCH M 2 2\nINS 1 *B\nREP 2 *C\n", "OK 3\n", true, 3),
    ("CARDS M\n", "OK 3 2\n*B\n*C\n", true, 3),
    ("SAVE M\n", "OK 3\n", true, 3),
    ("LOAD N\n", "OK 4\n", true, 4),
    ("LOAD Q\n", "NO CannotOpen\n", false, 4),
    (
        "STATUS\n",
        "OK 4 3\nPUBLISHED NONE\nM 3 2 BEHIND\nN 4 1 BEHIND\n",
        true,
        4,
    ),
    ("IMAGE\n", "NO NoPublication\n", true, 4),
    ("ADD M+\n", "NO BadName\n", false, 4),
    ("BYE\n", "BYE\n", false, 4),
];

/// All lines of the session, or all its replies.
fn all(alloc: Global, is_replies: bool) -> Got<String> {
    let mut texts = String::new(alloc);
    for (lines, reply, _, _) in &ROWS {
        texts.push_str(if is_replies { reply } else { lines })?;
    }
    Ok(texts)
}

/// The session in a new place, on whose shelf a deck N of one card is, where the read and the write of these numbers
/// fail: what goes out, and how it ends.
fn served(alloc: Global, read: u64, write: u64) -> Got<Answer> {
    let (keys, lines) = (fixed_keys()?, all(alloc, false)?);
    let piece = 1;
    let failing = Failing { piece, read, write };
    let mut input = Counted::new(failing.reader(lines.as_bytes()));
    let mut answer = Answer::new(alloc);
    let mut place = Place::new(alloc, keys);
    place.make("bytes", "*D\n", &mut answer);
    place.make("shelf", "N", &mut answer);
    place.serve_many(&mut input, failing, ROWS.len(), &mut answer);
    answer.number("version ", place.desk.version());
    answer.line("");
    place.free();
    Ok(answer)
}

/// How it is to end where the read or the write behind so many fails: the outcome, how many bytes of the replies go
/// out, and the desk's version. The commands whose lines are all read are answered.
fn end_of(before: usize, is_read: bool) -> (Outcome, usize, u64) {
    let (mut read, mut sent, mut version) = (0usize, 0usize, 0);
    for (lines, reply, executed, behind) in &ROWS {
        read = read.saturating_add(lines.len());
        if is_read && before < read {
            return (Outcome::ReadFault, sent, version);
        }
        let end = sent.saturating_add(reply.len());
        if !is_read && before < end {
            let executed = *executed;
            let sent = before.saturating_sub(sent);
            return (Outcome::WriteFault { executed, sent }, before, *behind);
        }
        sent = end;
        version = *behind;
    }
    (Outcome::Ended, sent, version)
}

/// The same as `served` shows it.
fn wanted(alloc: Global, before: usize, is_read: bool) -> Got<Answer> {
    let replies = all(alloc, true)?;
    let (outcome, sent, version) = end_of(before, is_read);
    let mut answer = Answer::new(alloc);
    let replies = replies.as_bytes();
    answer.bytes(replies.split_at(sent.min(replies.len())).0);
    push_outcome(&mut answer, outcome);
    answer.number("version ", version);
    answer.line("");
    Ok(answer)
}

/// Whether the session ends as it is to end, where the read or the write behind so many fails.
fn ends_so(alloc: Global, before: usize, is_read: bool) -> Got<bool> {
    let number = (before as u64).saturating_add(1);
    let (read, write) = if is_read { (number, 0) } else { (0, number) };
    let found = served(alloc, read, write)?;
    let wanted = wanted(alloc, before, is_read)?;
    Ok(found.text()? == wanted.text()?)
}

/// The session without a fault.
fn show_all(alloc: Global, answer: &mut Answer) -> Got<()> {
    let found = served(alloc, 0, 0)?;
    answer.push(found.text()?);
    Ok(())
}

/// Fails each read or each write in turn: with how many the session ends as it is to end.
fn fail(alloc: Global, is_read: bool, answer: &mut Answer) -> Got<()> {
    let most = all(alloc, !is_read)?.len();
    let mut as_wanted = 0u64;
    for before in 0..most {
        let is_so = ends_so(alloc, before, is_read)?;
        as_wanted = as_wanted.saturating_add(u64::from(is_so));
    }
    answer.number("as wanted: ", as_wanted);
    answer.line("");
    Ok(())
}
