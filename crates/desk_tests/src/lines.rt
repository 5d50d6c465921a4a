//! What lines of a session ask for.
//!
//! `line TEXT`: a command, or the first line of one; `batch_line TEXT`: a line of a batch.

use cards::{Card, DeckName, Edit};
use session_commands::{
    CardsView, Command, ErrorsView, Refusal, Seen, read_batch_line, read_command,
};
use test_parts::Answer;

/// Makes a step of this word, if it is one of lines, and answers whether it is.
pub fn make(word: &str, rest: &str, answer: &mut Answer) -> bool {
    match word {
        "line" => push_line(answer, rest),
        "batch_line" => push_batch_line(answer, rest),
        _ => return false,
    }
    answer.line("");
    true
}

/// What a line asks for, or its refusal.
fn push_line(answer: &mut Answer, line: &str) {
    let command = read_command(line.as_bytes());
    match &command {
        Ok(command) => push_change(answer, command),
        Err(Refusal::UnknownCommand(word)) => {
            push_named(answer, "UnknownCommand ", word.as_slice());
        }
        Err(refusal) => answer.debug(refusal),
    }
    drop(command);
}

/// What a line of a batch asks for, or its refusal.
fn push_batch_line(answer: &mut Answer, line: &str) {
    match &read_batch_line(line.as_bytes()) {
        Ok(edit) => push_edit(answer, edit),
        Err(refusal) => answer.debug(refusal),
    }
}

/// Something, and a name behind it.
fn push_named(answer: &mut Answer, what: &str, name: &[u8]) {
    answer.push(what);
    answer.bytes(name);
}

/// Something with a name, and a version behind them.
fn push_at(answer: &mut Answer, what: &str, name: &DeckName, between: &str, version: u64) {
    push_named(answer, what, name.as_slice());
    answer.number(between, version);
}

fn push_quoted(answer: &mut Answer, what: &str, columns: &[u8]) {
    answer.push(what);
    answer.push(" '");
    answer.bytes(columns);
    answer.push("'");
}

/// An edit that has a card.
fn push_card(answer: &mut Answer, what: &str, at: u64, card: &Card) {
    answer.number(what, at);
    push_quoted(answer, "", card.as_slice());
}

fn push_edit(answer: &mut Answer, edit: &Edit) {
    match edit {
        Edit::Insert { at, card } => push_card(answer, "insert ", *at, card),
        Edit::Replace { at, card } => push_card(answer, "replace ", *at, card),
        Edit::Remove { at } => answer.number("remove ", *at),
    }
}

/// What is shown of cards.
fn push_view(answer: &mut Answer, view: &CardsView) {
    match view {
        CardsView::All => {}
        CardsView::From { place, count } => {
            answer.number(" from ", *place);
            answer.number(", ", *count);
        }
        CardsView::With(text) => push_quoted(answer, " with", text.as_slice()),
    }
}

/// A version that was seen, as a line has it.
fn push_seen(answer: &mut Answer, seen: Seen) {
    match seen {
        Seen::Exactly(version) => answer.number(" ", version),
        Seen::Since(version) => {
            answer.number(" ", version);
            answer.push("+");
        }
    }
}

/// The first line of a command that has further ones: the deck or why there is none, the version that was seen, and
/// how many lines follow.
fn push_head(
    answer: &mut Answer,
    what: &str,
    name: &Result<DeckName, Refusal>,
    seen: Seen,
    count: u64,
) {
    answer.push(what);
    match name {
        Ok(name) => answer.bytes(name.as_slice()),
        Err(refusal) => answer.debug(refusal),
    }
    push_seen(answer, seen);
    answer.number(" ", count);
}

/// What a command asks for.
fn push_change(answer: &mut Answer, command: &Command) {
    match command {
        Command::Add { name } => push_named(answer, "add ", name.as_slice()),
        Command::Load { name } => push_named(answer, "load ", name.as_slice()),
        Command::LoadAll { name } => push_named(answer, "load all ", name.as_slice()),
        Command::Reload { name } => push_named(answer, "reload ", name.as_slice()),
        Command::Drop { name, version } => push_at(answer, "drop ", name, " ", *version),
        Command::Edit { name, seen, edit } => {
            push_named(answer, "edit ", name.as_slice());
            push_seen(answer, *seen);
            answer.push(" ");
            push_edit(answer, edit);
        }
        Command::Save { name, over } => {
            push_named(answer, "save ", name.as_slice());
            answer.push(" ");
            answer.debug(over);
        }
        Command::SaveAll => answer.push("save all"),
        Command::Batch(head) => push_head(answer, "batch ", &head.name, head.seen, head.count),
        Command::Put(head) => {
            let seen = Seen::Exactly(head.version);
            push_head(answer, "put ", &head.name, seen, head.count);
        }
        other => push_question(answer, other),
    }
}

/// What a command asks for that changes nothing.
fn push_question(answer: &mut Answer, command: &Command) {
    match command {
        Command::Cards { name, view } => {
            push_named(answer, "cards ", name.as_slice());
            push_view(answer, view);
        }
        Command::CardsAt { name, version } => push_at(answer, "cards ", name, " at ", *version),
        Command::Changes { name, version } => push_at(answer, "changes ", name, " ", *version),
        Command::Undo { name, version } => push_at(answer, "undo ", name, " ", *version),
        Command::Image => answer.push("image"),
        Command::List => answer.push("list"),
        Command::Map => answer.push("map"),
        Command::ImageOf { name } => push_named(answer, "image of ", name.as_slice()),
        Command::ListOf { name } => push_named(answer, "list of ", name.as_slice()),
        Command::Errors(ErrorsView::Every) => answer.push("errors"),
        Command::Errors(ErrorsView::Of(name)) => push_named(answer, "errors of ", name.as_slice()),
        Command::Words { name } => push_named(answer, "words of ", name.as_slice()),
        Command::Names => answer.push("names"),
        Command::Symbols { name } => push_named(answer, "symbols of ", name.as_slice()),
        Command::Status => answer.push("status"),
        Command::FileStatus => answer.push("status of files"),
        Command::Files => answer.push("files"),
        Command::Wait { version } => answer.number("wait ", *version),
        Command::Hello { name } => push_named(answer, "hello ", name.as_slice()),
        Command::Help => answer.push("help"),
        Command::Bye => answer.push("bye"),
        _ => answer.push("another"),
    }
}
