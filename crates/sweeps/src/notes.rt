//! What a scenario notes: the calls that it made, those that were refused for want of memory, the checks
//! that failed, and whether its own memory was refused.

use std::alloc::{AllocError, Global};
use test_parts::{Got, plain_text};

/// What is called, as it is shown.
pub type Called = &'static str;

/// What the command of these lines is called: by its first word, but where others are shown with it.
pub fn called(lines: &'static str) -> Called {
    let word = lines.split_whitespace().next().unwrap_or("");
    match word {
        "INS" if lines.find("+ ").is_some() => "INS with a version before",
        "INS" | "REP" | "DEL" => "INS, REP or DEL",
        "CARDS" if lines.find(" AT ").is_some() => "CARDS AT",
        "LIST" | "IMAGE" | "MAP" | "ERRORS" => "LIST, IMAGE, MAP or ERRORS",
        _ => word,
    }
}

/// A call that was refused, or that did something else than is wanted; and whether its check held.
#[derive(Drop)]
pub struct Note {
    /// What is called; its own text, since no `'static` can stand beside a shelf that has several lifetimes.
    pub call: String,
    pub holds: bool,
}

/// The notes of a scenario.
#[derive(Drop)]
pub struct Journal {
    alloc: Global,
    /// How many calls there were, those that were made again counted once: the same in each run.
    pub calls: u64,
    /// Whether a check failed.
    pub has_failed: bool,
    /// Whether the scenario's own memory was refused, so that it is to be begun again.
    pub is_lacking: bool,
    pub notes: Vec<Note>,
}

impl Journal {
    pub fn new(alloc: Global) -> Journal {
        Journal {
            alloc,
            calls: 0,
            has_failed: false,
            is_lacking: false,
            notes: Vec::new(alloc),
        }
    }

    /// A call was made, with what is wanted of it or not.
    pub fn made(&mut self, call: Called, holds: bool) {
        self.calls = self.calls.saturating_add(1);
        self.kept(call, holds);
    }

    /// What stands there is as it was before a call, as is wanted, or not.
    pub fn kept(&mut self, call: Called, holds: bool) {
        if !holds {
            self.refused(call, holds);
        }
    }

    /// A call was refused for want of memory, and what stands there is as it is to be then or not. What
    /// is found after the scenario's own memory was refused shows nothing.
    pub fn refused(&mut self, call: Called, holds: bool) {
        if self.is_lacking {
            return;
        }
        self.has_failed |= !holds;
        let _ = self.note(call, holds);
    }

    /// Puts a note behind the others, unless there is no memory for it.
    fn note(&mut self, call: Called, holds: bool) -> Got<()> {
        let call = plain_text(self.alloc, call)?;
        self.notes.push(Note { call, holds })?;
        Ok(())
    }

    /// Notes whether the scenario's own memory was refused.
    pub fn keep(&mut self, done: Got<()>) {
        self.is_lacking |= done.is_err();
    }

    /// What was found, if the scenario's own memory was not refused.
    pub fn own<T: Drop>(&self, found: T) -> Got<T> {
        if self.is_lacking {
            return Err(AllocError);
        }
        Ok(found)
    }

    /// What a call gave that changes nothing. Where it found no memory, the scenario is begun again.
    pub fn got<T: Drop>(&mut self, call: Called, made: Got<T>) -> Got<T> {
        if made.is_ok() {
            self.made(call, true);
        } else {
            self.refused(call, true);
        }
        made
    }
}
