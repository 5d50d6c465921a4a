//! The words of the command line, as tables of them say.

use clap::{Arg, ArgAction, Command};
use std::alloc::{AllocError, Global};

/// What a word takes. A value has a name, by which the help calls it.
#[derive(Clone, Copy)]
pub enum Takes {
    /// Nothing: the word is said or not.
    Nothing,
    /// A text.
    Text(&'static str),
    /// A text, and the word has a letter too.
    Lettered(char, &'static str),
    /// A text, and the word has to be said.
    Needed(&'static str),
    /// One of these texts.
    OneOf(&'static str, &'static [&'static str]),
    /// The number of a port.
    Port(&'static str),
    /// A number from the first on and below the second.
    Within(&'static str, i64, i64),
    /// A number, and the word goes with another one alone.
    NumberBeside(&'static str, &'static str),
    /// The text that stands in its place, which has to be there.
    Place,
    /// All texts that stand in its place.
    Places,
}

/// A word of a command.
#[derive(Clone, Copy)]
pub struct Word {
    pub name: &'static str,
    pub takes: Takes,
    pub help: &'static str,
    /// The words that it does not go with.
    pub without: &'static [&'static str],
}

/// A word that is said or not.
fn plain<'a>(alloc: Global, word: &Word) -> Arg<'a> {
    Arg::new(alloc, word.name)
        .long(word.name)
        .help(word.help)
        .action(ArgAction::SetTrue)
}

/// A word with a value behind it.
fn valued<'a>(alloc: Global, word: &Word, value: &'static str) -> Arg<'a> {
    Arg::new(alloc, word.name)
        .long(word.name)
        .value_name(value)
        .help(word.help)
        .action(ArgAction::Set)
}

/// A word with a number behind it.
fn numbered<'a>(alloc: Global, word: &Word, value: &'static str) -> Arg<'a> {
    valued(alloc, word, value).value_parser(clap::value_parser!(u64))
}

/// What stands in the place of a word.
fn placed<'a>(alloc: Global, word: &Word) -> Arg<'a> {
    Arg::new(alloc, word.name)
        .value_name(word.name)
        .help(word.help)
}

/// The word, as `clap` has it, but for those that it does not go with.
fn argument<'a>(alloc: Global, word: &Word) -> Result<Arg<'a>, AllocError> {
    Ok(match word.takes {
        Takes::Nothing => plain(alloc, word),
        Takes::Text(value) => valued(alloc, word, value),
        Takes::Lettered(letter, value) => valued(alloc, word, value).short(letter),
        Takes::Needed(value) => valued(alloc, word, value).required(true),
        Takes::OneOf(value, texts) => valued(alloc, word, value).value_parser(texts),
        Takes::Port(value) => { valued(alloc, word, value).value_parser(clap::value_parser!(u16)) }
        Takes::Within(value, least, end) => {
            let numbers = clap::value_parser!(u64).range(least..end);
            valued(alloc, word, value).value_parser(numbers)
        }
        Takes::NumberBeside(value, other) => {
            return numbered(alloc, word, value).requires_arg(other);
        }
        Takes::Place => placed(alloc, word).required(true).action(ArgAction::Set),
        Takes::Places => placed(alloc, word).num_args(0..).action(ArgAction::Append),
    })
}

/// The command with these words too.
pub fn with_words<'a>(
    alloc: Global,
    command: Command<'a>,
    words: &[Word],
) -> Result<Command<'a>, AllocError> {
    let mut command = command;
    for word in words {
        let argument = argument(alloc, word)?;
        command = command.arg(argument.conflicts_with_all(word.without)?)?;
    }
    Ok(command)
}
