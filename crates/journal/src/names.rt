//! The names of sessions in the changes of a desk.
ghost use Rattle.std.specs.Prelude.{◌≡◌};
ghost use Rattle.journal.specs.Names.{session_name};

use cards::DeckName;
use itoa::Buffer;

/// The name of a session of this number that has given none: the last seven digits of it. What is reported of
/// such sessions is shown here alone.
pub fn session_name(number: u64) -> DeckName
    ensures { result ≡ session_name number }
{
    let mut buffer = Buffer::new();
    match DeckName::read(buffer.format(number % 10_000_000).as_bytes()) {
        Ok(name) => name,
        Err(_) => unreachable!(),
    }
}
