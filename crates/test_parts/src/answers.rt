//! What is found, as text that is put together from parts.

use std::alloc::{AllocError, Global};
use std::fmt::{Debug, Display};

/// What was asked for; the error is that there was no memory for it.
pub type Got<T> = Result<T, AllocError>;

/// A text of parts. Where there is no memory for one, it is left out, and the text is none that is
/// wanted.
#[derive(Drop)]
pub struct Answer {
    pub alloc: Global,
    text: String,
    is_lacking: bool,
}

impl Answer {
    pub fn new(alloc: Global) -> Answer {
        Answer {
            alloc,
            text: String::new(alloc),
            is_lacking: false,
        }
    }

    /// The text; the error is that there was no memory for a part of it.
    pub fn text(&self) -> Got<&str> {
        if self.is_lacking {
            return Err(AllocError);
        }
        Ok(self.text.as_str())
    }

    pub fn is_empty(&self) -> bool {
        self.text.is_empty()
    }

    /// Notes whether there was memory.
    pub fn keep(&mut self, done: Got<()>) {
        self.is_lacking |= done.is_err();
    }

    /// What was found, if there was memory.
    pub fn kept<T>(&mut self, found: Got<T>) -> Option<T> {
        self.is_lacking |= found.is_err();
        found.ok()
    }

    pub fn push(&mut self, part: &str) {
        let done = self.text.push_str(part);
        self.keep(done);
    }

    pub fn character(&mut self, character: char) {
        let done = self.text.push(character);
        self.keep(done);
    }

    /// A part, and the end of a line.
    pub fn line(&mut self, part: &str) {
        self.push(part);
        self.push("\n");
    }

    /// Bytes of characters.
    pub fn bytes(&mut self, bytes: &[u8]) {
        self.push(str::from_utf8(bytes).unwrap_or("no text"));
    }

    /// A part that was made, if there was memory for it.
    pub fn made(&mut self, part: Got<String>) {
        match part {
            Ok(part) => self.push(part.as_str()),
            Err(_) => self.is_lacking = true,
        }
    }

    /// Something, and its number behind it.
    pub fn number(&mut self, what: &str, number: u64) {
        self.push(what);
        let digits = format!(in self.alloc; "{number}");
        self.made(digits);
    }

    /// A value as a person reads it.
    pub fn shown<T: Display>(&mut self, value: &T) {
        let text = value.to_string(self.alloc);
        self.made(text);
    }

    /// A value as a program writes it.
    pub fn debug<T: Debug>(&mut self, value: &T) {
        let text = format!(in self.alloc; "{value:?}");
        self.made(text);
    }
}
