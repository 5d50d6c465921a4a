//! What a scenario goes through: a desk and a shelf, the commands that a session says there, and the
//! desk settled as `asm_run` has it.

use crate::decks::DECKS;
use crate::notes::{Called, Journal, called};
use desk_core::Desk;
use desk_tests::{MemoryShelf, Settled, put_file, serve, settle};
use session_line::Rights;
use std::alloc::{AllocError, Global};
use std::hash::RandomState;
use test_parts::{Got, asm_answer, cut, cut_line, name_of, plain_text};
use text_ports::Counted;

/// How many bytes most replies have at most.
const ROOM: usize = 4000;

/// How the reply of a command begins that is refused.
const REFUSED: &[u8] = b"NO ";

/// The reply of a command that found no memory.
pub const LACKING: &str = "NO OutOfMemory\n";

/// What stands in front of each command in a table of them, which is written as a transcript: `|` ends a line of the
/// command, and the reply is the lines below.
pub const COMMAND: &str = "> ";

/// The lines of a command.
pub fn lines_of(alloc: Global, command: &str) -> Got<String> {
    let mut lines = plain_text(alloc, command)?;
    lines.push_str("\n")?;
    Ok(lines)
}

/// Settles a desk, in two turns for each deck and two for their link at most: whether all of its version is published
/// then.
fn is_settled(alloc: Global, keys: RandomState, desk: &mut Desk) -> bool {
    let decks = u32::try_from(desk.decks().len()).unwrap_or(0);
    let turns = decks.saturating_mul(2).saturating_add(2);
    let mut meter = work_meter::begin();
    let ended = settle(alloc, keys, desk, &mut meter, turns);
    matches!(ended, Settled::Idle { .. })
}

/// A desk and a shelf, with the notes of a scenario.
#[derive(Drop)]
pub struct Scene {
    pub alloc: Global,
    pub keys: RandomState,
    pub journal: Journal,
    pub desk: Desk,
    pub shelf: MemoryShelf,
}

impl Scene {
    pub fn new(alloc: Global, keys: RandomState) -> Scene {
        Scene {
            alloc,
            keys,
            journal: Journal::new(alloc),
            desk: Desk::new(alloc),
            shelf: MemoryShelf::new(alloc, keys),
        }
    }

    /// The notes alone.
    pub fn into_journal(self) -> Journal {
        let Scene { journal, .. } = self;
        journal
    }

    /// Puts a file on the shelf.
    pub fn put(&mut self, name: &str, file: &str) {
        let put = put_file(self.alloc, &mut self.shelf, name, file.as_bytes());
        self.journal.keep(put);
    }

    /// What was found, or nothing where the scenario's own memory was refused.
    fn own(&mut self, found: Got<Vec<u8>>) -> Vec<u8> {
        self.journal.is_lacking |= found.is_err();
        found.unwrap_or(Vec::new(self.alloc))
    }

    /// The reply to a command. The error is that there is no memory to write it to.
    fn replied(&mut self, lines: &[u8]) -> Got<Vec<u8>> {
        let mut output = Counted::new(Vec::with_capacity(self.alloc, ROOM)?);
        let input = &mut Counted::new(lines);
        let (desk, shelf) = (&mut self.desk, &mut self.shelf);
        serve(self.alloc, Rights::Edits, input, &mut output, desk, shelf);
        if output.faults() > 0 {
            return Err(AllocError);
        }
        Ok(output.into_inner())
    }

    /// The reply to a question of the scenario's own. Where it is refused, there is no memory for it.
    fn told(&mut self, lines: &[u8]) -> Got<Vec<u8>> {
        let reply = self.replied(lines)?;
        if reply.starts_with(REFUSED) {
            return Err(AllocError);
        }
        Ok(reply)
    }

    /// Puts the cards of a deck behind those of others, with its name and its version unless a file is
    /// wanted.
    fn push_deck(&mut self, texts: &mut Vec<u8>, row: &str, is_file: bool) -> Got<()> {
        let question = format!(in self.alloc; "CARDS {}\n", cut(row).0)?;
        let reply = self.told(question.as_bytes())?;
        let mut text = str::from_utf8(&reply).unwrap_or("");
        if is_file {
            text = cut_line(text).1;
        } else {
            texts.extend_from_slice(question.as_bytes())?;
        }
        texts.extend_from_slice(text.as_bytes())
    }

    /// The texts of all decks.
    fn texts(&mut self, is_file: bool) -> Got<Vec<u8>> {
        let status = self.told(b"STATUS\n")?;
        let status = str::from_utf8(&status).unwrap_or("");
        let mut texts = Vec::new(self.alloc);
        for row in cut_line(cut_line(status).1).1.lines() {
            self.push_deck(&mut texts, row, is_file)?;
        }
        Ok(texts)
    }

    /// The names, the versions and the cards of all decks, and the file of M.
    fn state_with_file(&mut self) -> Got<Vec<u8>> {
        let mut state = self.texts(false)?;
        if let Some(file) = self.shelf.file(&name_of("M")?) {
            state.extend_from_slice(file)?;
        }
        Ok(state)
    }

    /// The same, or nothing where the scenario's own memory was refused.
    pub fn state(&mut self) -> Vec<u8> {
        let found = self.state_with_file();
        self.own(found)
    }

    /// The reply to a command. Where it is refused, decks and files are as before.
    fn reply(&mut self, call: Called, lines: &[u8], before: &[u8]) -> Vec<u8> {
        let found = self.replied(lines);
        let reply = self.own(found);
        if reply.starts_with(REFUSED) {
            let is_kept = self.state().as_slice() == before;
            self.journal.kept(call, is_kept);
        }
        reply
    }

    /// Says a command, once more where there is no memory for it.
    pub fn say(&mut self, call: Called, lines: &[u8], wanted: &[u8]) {
        let before = self.state();
        let mut reply = self.reply(call, lines, &before);
        if reply.as_slice() == LACKING.as_bytes() {
            self.journal.refused(call, true);
            reply = self.reply(call, lines, &before);
        }
        self.journal.made(call, reply.as_slice() == wanted);
    }

    /// Says a command of a table.
    pub fn say_one(&mut self, command: &'static str, reply: &str) {
        match lines_of(self.alloc, command) {
            Ok(lines) => self.say(called(command), lines.as_bytes(), reply.as_bytes()),
            Err(error) => self.journal.keep(Err(error)),
        }
    }

    /// Says the commands of a table, one after the other.
    pub fn say_all(&mut self, commands: &'static str) {
        for step in commands.split(COMMAND) {
            if let Some((command, reply)) = step.split_once("\n") {
                self.say_one(command, reply);
            }
        }
    }

    /// Loads the three decks from the shelf.
    pub fn load_decks(&mut self) {
        for deck in &DECKS {
            self.put(deck.name, deck.lines);
        }
        self.say_all(LOADS);
    }

    /// Loads the first of them.
    pub fn load_first(&mut self) {
        self.put(DECKS[0].name, DECKS[0].lines);
        self.say("LOAD", b"LOAD MAIN\n", b"OK 1\n");
    }

    /// Settles the desk: whether all of it is published then. Cards and versions are as
    /// before, whether it is or not.
    fn settle_once(&mut self, before: &[u8]) -> bool {
        let is_settled = is_settled(self.alloc, self.keys, &mut self.desk);
        let is_kept = self.state().as_slice() == before;
        self.journal.kept("settle", is_kept);
        if !is_settled {
            self.journal.refused("settle", true);
        }
        is_settled
    }

    /// Settles the desk, once more where that finds no memory.
    fn settle(&mut self) {
        let before = self.state();
        let is_settled = self.settle_once(&before) || self.settle_once(&before);
        self.journal.made("settle", is_settled);
    }

    /// Puts what a command shows of the publication behind another text.
    fn push_shown(&mut self, text: &mut Vec<u8>, lines: &[u8]) -> Got<()> {
        let mut reply = self.replied(lines)?;
        if reply.as_slice() == LACKING.as_bytes() {
            self.journal.refused("LIST, IMAGE, MAP or ERRORS", true);
            reply = self.replied(lines)?;
        }
        let reply = str::from_utf8(&reply).unwrap_or("");
        text.extend_from_slice(cut_line(reply).1.as_bytes())
    }

    /// Listing, map and image that the desk has published, one behind the other.
    fn shown(&mut self) -> Got<Vec<u8>> {
        let mut text = Vec::new(self.alloc);
        self.push_shown(&mut text, b"LIST\n")?;
        self.push_shown(&mut text, b"IMAGE\n")?;
        Ok(text)
    }

    /// Settles the desk, and finds that it shows what `asm_run` writes for its decks.
    pub fn settle_as_asm(&mut self) -> Got<()> {
        self.settle();
        let input = self.texts(true)?;
        let answer = asm_answer(self.alloc, &input);
        let wanted = self.journal.got("asm_run", answer)?;
        let found = self.shown()?;
        self.journal
            .made("LIST, IMAGE, MAP or ERRORS", found == wanted);
        Ok(())
    }
}

/// The commands that load the three decks.
const LOADS: &str = "> LOAD MAIN
OK 1
> LOAD DATAS
OK 2
> LOAD CONST
OK 3
";
