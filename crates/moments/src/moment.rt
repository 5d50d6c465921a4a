//! Moments of time as text.
ghost use Rattle.std.specs.Prelude.{◌≡◌, length, true};
ghost use Rattle.moments.specs.Moments.{fits, fits_one, is_moment, moment_of};

use crate::calendar::characters_at;
use std::marker::Model;
use std::time::{Clock, SystemTime, UNIX_EPOCH};

/// How many characters a moment has.
const LENGTH: usize = 20;

/// The form of a moment: a digit stands for any digit.
const FORM: [u8; LENGTH] = *b"0000-00-00T00:00:00Z";

/// A moment of time in UTC, to the second: year, month, day and the time of the day, as ISO 8601 writes
/// them. Contracts see the list of its 20 characters.
#[derive(Drop)]
pub struct Moment {
    characters: [u8; LENGTH],
}

impl Model for Moment {
    ghost use Rattle.std.specs.Prelude.{ℕ, List};

    ghost Value = { List ℕ };

    ghost view = { λ m. m.characters };
}

/// Whether a character may stand where the form has this one.
fn fits_one(form: u8, character: u8) -> bool
    ensures { result ≡ fits_one form character }
{
    if form == b'0' {
        character.is_ascii_digit()
    } else {
        character == form
    }
}

/// Whether each character may stand where a form has the one at its place.
fn fits(forms: &[u8], text: &[u8]) -> bool
    ensures { result ≡ fits forms.now text.now }
{
    forms.iter().zip(text).all(|(form, c)| fits_one(*form, *c))
}

/// Whether a text has the form of a moment.
fn is_moment(text: &[u8]) -> bool
    ensures { result ≡ is_moment text.now }
{
    text.len() == LENGTH && fits(&FORM, text)
}

impl Moment {
    /// The moment that a text is, if it has the form of one.
    pub fn read(text: &[u8]) -> Option<Moment>
        ensures { result ≡ moment_of text.now }
    {
        if !is_moment(text) {
            return None;
        }
        let mut characters = [b' '; LENGTH];
        characters.copy_from_slice(text);
        Some(Moment { characters })
    }

    /// The moment so many seconds after 1970 began in UTC, of the years up to 9999.
    pub fn of_seconds(seconds: u64) -> Moment
        ensures { is_moment result ≡ true }
    {
        let characters = characters_at(seconds);
        if is_moment(&characters) {
            Moment { characters }
        } else {
            Moment { characters: FORM }
        }
    }

    /// The moment of the system's clock; the first of 1970 where it can't be read.
    pub fn now<R: Clock>(rt: &R) -> Moment
        ensures { is_moment result ≡ true }
    {
        let seconds = match SystemTime::now(rt) {
            Ok(now) => match now.duration_since(UNIX_EPOCH) {
                Ok(since) => since.as_secs(),
                Err(_) => 0,
            },
            Err(_) => 0,
        };
        Moment::of_seconds(seconds)
    }

    /// The same moment once more.
    pub fn copied(&self) -> Moment
        ensures { result ≡ self.now }
    {
        Moment {
            characters: self.characters,
        }
    }

    pub fn as_slice(&self) -> &[u8]
        ensures text { result.now ≡ self.now }
        ensures short { length self.now ≡ 20 }
    {
        &self.characters
    }
}
