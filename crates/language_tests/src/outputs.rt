//! Answers, which are put together from words.

use std::alloc::{AllocError, Global};
use std::fmt::{Debug, Display};
use std::hash::RandomState;
use test_parts::Answer as Parts;

/// How many of the parts of a text are looked at, at most.
const MOST: usize = 12;

/// Words with a blank between two of them.
#[derive(Drop)]
pub struct Answer {
    pub alloc: Global,
    /// The keys of the tables that are made for it.
    pub keys: RandomState,
    parts: Parts,
}

impl Answer {
    pub fn new(alloc: Global, keys: RandomState) -> Answer {
        let parts = Parts::new(alloc);
        Answer { alloc, keys, parts }
    }

    /// The words; the error is that there was no memory for one.
    pub fn text(&self) -> Result<&str, AllocError> {
        self.parts.text()
    }

    /// The blank in front of a word.
    fn space(&mut self) {
        if !self.parts.is_empty() {
            self.parts.push(" ");
        }
    }

    /// A word more.
    pub fn word(&mut self, word: &str) {
        self.space();
        self.parts.push(word);
    }

    /// One of two words.
    pub fn either(&mut self, is_first: bool, first: &str, second: &str) {
        self.word(if is_first { first } else { second })
    }

    /// Characters as they stand.
    pub fn bare(&mut self, characters: &[u8]) {
        self.space();
        self.bytes(characters);
    }

    /// Characters between quotes.
    pub fn quoted(&mut self, characters: &[u8]) {
        self.word("'");
        self.bytes(characters);
        self.parts.push("'");
    }

    /// Bytes as they stand, or each as `\` and three octal digits.
    fn bytes(&mut self, characters: &[u8]) {
        for byte in characters {
            if byte.is_ascii_graphic() || *byte == b' ' {
                self.parts.character(char::from(*byte));
            } else {
                let digits = format!(in self.alloc; "\\{byte:03o}");
                self.parts.made(digits);
            }
        }
    }

    /// A number as a person writes it.
    pub fn number<T: Display>(&mut self, number: &T) {
        self.space();
        self.parts.shown(number);
    }

    pub fn octal(&mut self, number: &u64) {
        self.space();
        let digits = format!(in self.alloc; "{number:o}");
        self.parts.made(digits);
    }

    /// A value as it is written in a program.
    pub fn debug<T: Debug>(&mut self, value: &T) {
        self.space();
        self.parts.debug(value);
    }

    /// What is shown of a value, if there is one.
    pub fn or_none<T, F: FnOnce(&mut Answer, &T)>(&mut self, found: &Option<T>, show: F)
        requires { F.IsAlwaysCallable show }
    {
        match found {
            Some(value) => show(self, value),
            None => self.word("none"),
        }
    }

    /// What is shown of a value, or the fault in its place.
    pub fn or_fault<T, E: Debug, F: FnOnce(&mut Answer, &T)>(
        &mut self,
        found: &Result<T, E>,
        show: F,
    )
        requires { F.IsAlwaysCallable show }
    {
        match found {
            Ok(value) => show(self, value),
            Err(fault) => self.debug(fault),
        }
    }

    /// What is shown of each part that is found, up to twelve.
    pub fn each<T: Drop, N: FnMut() -> Option<T>, F: Fn(&mut Answer, &T)>(
        &mut self,
        mut next: N,
        show: F,
    )
        requires asked { N.IsAlwaysCallable next }
        requires shown { F.IsAlwaysCallable show }
    {
        for _ in 0..MOST {
            if let Some(found) = next() {
                show(self, &found);
            }
        }
    }
}
