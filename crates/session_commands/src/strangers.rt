//! Lines that are no commands, and which of them a client of HTTP sends.
ghost use Rattle.std.specs.Prelude.{◌≡◌};
ghost use Rattle.std.specs.Char.{is_ascii_uppercase};
ghost use Rattle.std.specs.List.{list_all};
ghost use Rattle.session_commands.specs.Strangers.{is_command, is_method, is_read, is_request_of_http};

use crate::commands::{Command, read_command};
use crate::refusals::Refusal;
use crate::sought::has_text;
use crate::words::to_blank;

/// Whether a line was read as a command.
fn is_read(command: &Result<Command, Refusal>) -> bool
    ensures { result ≡ is_read command.now }
{
    match command {
        Err(Refusal::BadCommand | Refusal::UnknownCommand(_)) => false,
        _ => true,
    }
}

/// Whether a line is a command; one whose name or card is refused is a command, too.
pub fn is_command(line: &[u8]) -> bool
    ensures { result ≡ is_command line.now }
{
    is_read(&read_command(line))
}

/// Whether a word has capital letters alone.
fn are_capitals(word: &[u8]) -> bool
    ensures { result ≡ list_all is_ascii_uppercase word.now }
{
    word.iter().all(|c| c.is_ascii_uppercase())
}

/// Whether a word may be a method of HTTP.
fn is_method(word: &[u8]) -> bool
    ensures { result ≡ is_method word.now }
{
    !word.is_empty() && are_capitals(word)
}

/// Whether a line is a request of HTTP: no command, but a word of capital letters, and behind a blank `HTTP/`.
pub fn is_request_of_http(line: &[u8]) -> bool
    ensures { result ≡ is_request_of_http line.now }
{
    !is_command(line) && is_method(to_blank(line)) && has_text(b" HTTP/", line)
}
