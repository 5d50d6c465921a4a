//! A desk, a shelf of memory and a file, and the steps of sessions there.
//!
//! A step that begins with no word below is a session's command; `say` stands in front of one that
//! would begin so, and `asking` in front of one of a session that may ask alone. `cut LINES`: lines that end without their end. `failing PIECE READ WRITE LINES`: the
//! ports give and take so many bytes at a time, and fail at the calls of these numbers. `breaking BYTES LINE`: a command
//! by a shelf whose writer takes so many bytes and then breaks. `turns LINES`: two sessions, whose lines have a zero byte between them.
//!
//! `bytes LINES`: these are the file; `times NUMBER LINES`: they are put behind it so many times.
//! `shelf NAME`: the file is that of the deck on the shelf; `file NAME`: the deck's file there.

use crate::breaking::BreakingShelf;
use crate::jobs::Jobs;
use crate::memory_shelf::MemoryShelf;
use deck_files::Shelf;
use desk_core::Desk;
use session_line::{Calls, Outcome, Rights, serve_one};
use std::alloc::Global;
use std::hash::RandomState;
use std::io::{Read, Write};
use test_parts::{Answer, Failing, Got, cut_number, fixed_keys, name_of};
use text_ports::Counted;

/// How many commands a session has at most.
const MOST_COMMANDS: usize = 20;

/// A desk, a shelf and a file, and the job that is out.
#[derive(Drop)]
pub struct Place {
    alloc: Global,
    pub(crate) desk: Desk,
    shelf: MemoryShelf,
    jobs: Jobs,
    pub file: Vec<u8>,
}

impl Place {
    /// An empty place, whose tables are kept by these keys.
    pub fn new(alloc: Global, keys: RandomState) -> Place {
        Place {
            alloc,
            desk: Desk::new(alloc),
            shelf: MemoryShelf::new(alloc, keys),
            jobs: Jobs::new(alloc, keys),
            file: Vec::new(alloc),
        }
    }

    /// Frees it. Crates above call this in place of `drop` (CONTRIBUTING).
    pub fn free(self) {
        drop(self);
    }

    /// Makes a step of this word, if it is one of a place, and answers whether it is.
    pub fn make(&mut self, word: &str, rest: &str, answer: &mut Answer) -> bool {
        match word {
            "say" | "asking" | "breaking" => self.say(word, rest, answer),
            "cut" => self.serve(rest, Failing::never(1), answer),
            "failing" => {
                let (failing, lines) = Failing::cut(rest);
                self.serve(lines, failing, answer);
            }
            "turns" => self.take_turns(rest, answer),
            "bytes" => self.begin(rest, answer),
            "times" => self.append(rest, answer),
            "shelf" => answer.keep(put_file(self.alloc, &mut self.shelf, rest, &self.file)),
            "file" => self.show(rest, answer),
            _ => return self.jobs.make(&mut self.desk, word, rest, answer),
        }
        true
    }

    /// Says a command, whose last line ends here: of a session that may ask alone, on a shelf whose writer breaks, or
    /// of another.
    fn say(&mut self, word: &str, lines: &str, answer: &mut Answer) {
        let Some(lines) = answer.kept(format!(in self.alloc; "{lines}\n")) else {
            return;
        };
        match word {
            "asking" => self.ask(lines.as_str(), answer),
            "breaking" => self.break_off(lines.as_str(), answer),
            _ => self.serve(lines.as_str(), Failing::never(1), answer),
        }
    }

    /// Serves one command of a session that may ask alone.
    fn ask(&mut self, lines: &str, answer: &mut Answer) {
        let input = &mut Counted::new(lines.as_bytes());
        let mut output = Counted::new(Vec::new(self.alloc));
        let (desk, shelf) = (&mut self.desk, &mut self.shelf);
        serve(self.alloc, Rights::Reads, input, &mut output, desk, shelf);
        answer.bytes(&output.into_inner());
    }

    /// Serves one command.
    fn serve(&mut self, lines: &str, failing: Failing, answer: &mut Answer) {
        serve_ports(&mut self.desk, &mut self.shelf, lines, failing, answer);
    }

    /// Serves one command by a shelf whose writer breaks.
    fn break_off(&mut self, text: &str, answer: &mut Answer) {
        let (most, lines) = cut_number(text);
        let (alloc, most) = (self.alloc, most as usize);
        let mut shelf = BreakingShelf { alloc, most };
        serve_ports(&mut self.desk, &mut shelf, lines, Failing::never(1), answer);
    }

    /// Serves four commands of a session, another session to its end, and then the first to its own.
    fn take_turns(&mut self, text: &str, answer: &mut Answer) {
        let (first, second) = text.split_once("\0").unwrap_or((text, ""));
        let (sevens, ones) = (Failing::never(7), Failing::never(1));
        let mut input = Counted::new(sevens.reader(first.as_bytes()));
        let mut other = Counted::new(ones.reader(second.as_bytes()));
        self.serve_many(&mut input, sevens, 4, answer);
        self.serve_many(&mut other, ones, MOST_COMMANDS, answer);
        self.serve_many(&mut input, sevens, 1, answer);
    }

    /// Serves commands of a session up to its end, so many at most, by such a writer.
    pub fn serve_many<R: Read>(
        &mut self,
        input: &mut Counted<R>,
        failing: Failing,
        most: usize,
        answer: &mut Answer,
    ) {
        let mut output = failing.writer(self.alloc);
        let (desk, shelf) = (&mut self.desk, &mut self.shelf);
        let (last, _) = serve_up_to(self.alloc, input, &mut output, desk, shelf, most);
        answer.bytes(output.into_inner().taken());
        push_outcome(answer, last);
    }

    /// Begins a file.
    fn begin(&mut self, lines: &str, answer: &mut Answer) {
        self.file.clear();
        answer.keep(self.file.extend_from_slice(lines.as_bytes()));
    }

    /// Puts lines behind a file.
    fn append(&mut self, text: &str, answer: &mut Answer) {
        let (times, lines) = cut_number(text);
        for _ in 0..times {
            answer.keep(self.file.extend_from_slice(lines.as_bytes()));
        }
    }

    /// Shows the file of a deck.
    fn show(&self, of: &str, answer: &mut Answer) {
        let Some(name) = answer.kept(name_of(of)) else {
            return;
        };
        match self.shelf.file(&name) {
            Some(file) => answer.bytes(file),
            None => answer.line("none"),
        }
    }
}

/// Puts a file on a shelf.
pub fn put_file(alloc: Global, shelf: &mut MemoryShelf, of: &str, file: &[u8]) -> Got<()> {
    shelf.put(&name_of(of)?, file.to_vec(alloc)?)
}

/// Serves one command, with the keys of tests. What it makes of all is looked at and no contract of it, and so who
/// calls has no facts of it.
pub fn serve<R: Read, W: Write, C: Calls, S: Shelf>(
    alloc: Global,
    rights: Rights,
    input: &mut Counted<R>,
    output: &mut Counted<W>,
    desk: &mut C,
    shelf: &mut S,
) -> Outcome {
    match fixed_keys() {
        Ok(keys) => serve_one(alloc, keys, rights, input, output, desk, shelf),
        Err(_) => Outcome::ReadFault,
    }
}

/// Serves commands of a session up to its end, so many at most: how the last one ended, and how many were before it.
pub fn serve_up_to<R: Read, W: Write, C: Calls, S: Shelf>(
    alloc: Global,
    input: &mut Counted<R>,
    output: &mut Counted<W>,
    desk: &mut C,
    shelf: &mut S,
    most: usize,
) -> (Outcome, usize) {
    let mut last = (Outcome::Served, 0);
    for number in 0..most {
        if last.0 == Outcome::Served {
            last.0 = serve(alloc, Rights::Edits, input, output, desk, shelf);
            last.1 = number;
        }
    }
    last
}

/// Serves one command: what goes out, how it ends where it is not served, and how many faults the ports
/// had, where they had some.
pub fn serve_ports<C: Calls, S: Shelf>(
    desk: &mut C,
    shelf: &mut S,
    lines: &str,
    failing: Failing,
    answer: &mut Answer,
) {
    let mut input = Counted::new(failing.reader(lines.as_bytes()));
    let alloc = answer.alloc;
    let mut output = failing.writer(alloc);
    let outcome = serve(alloc, Rights::Edits, &mut input, &mut output, desk, shelf);
    let faults = (input.faults(), output.faults());
    answer.bytes(output.into_inner().taken());
    push_outcome(answer, outcome);
    if faults != (0, 0) {
        answer.number("faults ", faults.0);
        answer.number(" and ", faults.1);
        answer.line("");
    }
}

/// How a command ended that was not served.
pub fn push_outcome(answer: &mut Answer, outcome: Outcome) {
    if outcome != Outcome::Served {
        answer.push("= ");
        answer.debug(&outcome);
        answer.line("");
    }
}
