//! The words of the command line, as the system gives them.
ghost use Rattle.std.specs.Prelude.{◌≡◌, ◌≢◌};

use std::env;
use std::io::ErrorKind;
use std::rt::Env;
use thiserror::Error;

/// Why the words of the command line can't be read.
#[derive(Clone, Copy, Debug, Error)]
pub(crate) enum WordsFault {
    /// No memory was left for them.
    #[error("no memory was left")]
    OutOfMemory,
    /// One of them is not UTF-8.
    #[error("an argument is not UTF-8")]
    NotText,
}

/// What the words failed at: the memory alone where a growth was refused, and else the words.
fn words_fault(kind: ErrorKind) -> WordsFault
    ensures memory { kind ≡ ErrorKind.OutOfMemory → result ≡ WordsFault.OutOfMemory }
    ensures words { kind ≢ ErrorKind.OutOfMemory → result ≡ WordsFault.NotText }
{
    if kind == ErrorKind::OutOfMemory {
        WordsFault::OutOfMemory
    } else {
        WordsFault::NotText
    }
}

/// The words of the command line.
pub(crate) fn words_of<R: AllocGlobal + Env>(rt: &R) -> Result<Vec<String>, WordsFault> {
    match env::args(rt) {
        Ok(words) => words
            .collect(rt.alloc())
            .map_err(|_| WordsFault::OutOfMemory),
        Err(error) => Err(words_fault(error.kind())),
    }
}
