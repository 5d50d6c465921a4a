//! What is known of the files of a folder, as text: a line for each file, with the deck's name, a blank, and
//! 96 hexadecimal digits: the digest, the length, and the version, or hyphens where none is known.
ghost use Rattle.std.specs.Prelude.{◌≡◌, ◌++◌, IfOk, OnOk};
ghost use Rattle.hex.specs.Hex.{encode_lower};
ghost use Rattle.deck_files.specs.KnownTexts.{digest_in, known_in, known_text, number_in, row_if, row_in, row_text, version_text};

use crate::file_rows::deck_named;
use crate::file_sums::FileSum;
use crate::known_rows::Known;
use cards::DeckName;
use definitions::is_same_text;
use hex::FromHex;
use std::alloc::{AllocError, Global};
use text_ports::Text;

/// How many digits show what is known of a file.
const DIGITS: usize = 96;

/// A deck, and what is known of its file.
#[derive(Drop)]
pub(crate) struct KnownRow {
    pub(crate) name: DeckName,
    pub(crate) known: Known,
}

/// Puts the digits of these bytes behind a text.
fn push_hex(alloc: Global, text: &mut Text, bytes: &[u8]) -> Result<(), AllocError>
    ensures { OnOk result (text.new ≡ text.old ++ encode_lower bytes.now) }
{
    let digits = hex::encode(alloc, bytes)?;
    text.push_bytes(digits.as_bytes())
}

/// Puts a version behind a text, or hyphens where none is known.
fn push_version(alloc: Global, text: &mut Text, version: Option<u64>) -> Result<(), AllocError>
    ensures { OnOk result (text.new ≡ text.old ++ version_text version) }
{
    match version {
        Some(version) => push_hex(alloc, text, &version.to_be_bytes()),
        None => text.push_bytes(b"----------------"),
    }
}

/// The digits of what is known of a file.
fn known_text(alloc: Global, known: &Known) -> Result<Text, AllocError>
    ensures { IfOk result (λ text. text ≡ known_text known.now) }
{
    let mut text = Text::new(alloc);
    push_hex(alloc, &mut text, &known.sum.digest)?;
    push_hex(alloc, &mut text, &known.sum.length.to_be_bytes())?;
    push_version(alloc, &mut text, known.version)?;
    Ok(text)
}

/// Puts the line of a file behind a text.
fn push_row(alloc: Global, text: &mut Text, name: &[u8], known: &Known) -> Result<(), AllocError>
    ensures { OnOk result (text.new ≡ text.old ++ row_text name.now known.now) }
{
    let digits = known_text(alloc, known)?;
    text.push_bytes(name)?;
    text.push_byte(b' ')?;
    text.push_bytes(digits.as_slice())?;
    text.push_byte(b'\n')
}

/// Puts the line of a file behind a text, where anything is known of it.
pub(crate) fn push_known(
    alloc: Global,
    text: &mut Text,
    name: &[u8],
    known: Option<Known>,
) -> Result<(), AllocError>
    ensures { OnOk result (text.new ≡ text.old ++ row_if name.now known) }
{
    match known {
        Some(known) => push_row(alloc, text, name, &known),
        None => Ok(()),
    }
}

/// The number of 16 digits.
fn number_in(text: &[u8]) -> Option<u64>
    ensures { result ≡ number_in text.now }
{
    match <[u8; 8] as FromHex>::from_hex(text) {
        Ok(bytes) => Some(u64::from_be_bytes(bytes)),
        Err(_) => None,
    }
}

/// The digest of 64 digits.
fn digest_in(text: &[u8]) -> Option<[u8; 32]>
    ensures { result ≡ digest_in text.now }
{
    match <[u8; 32] as FromHex>::from_hex(text) {
        Ok(digest) => Some(digest),
        Err(_) => None,
    }
}

/// What is known of a file by its digits; no version where they show none.
fn known_in(text: &[u8]) -> Option<Known>
    ensures { result ≡ known_in text.now }
{
    if text.len() != DIGITS {
        return None;
    }
    let (digest, numbers) = text.split_at(64);
    let (length, version) = numbers.split_at(16);
    match (digest_in(digest), number_in(length)) {
        (Some(digest), Some(length)) => Some(Known {
            sum: FileSum { length, digest },
            version: number_in(version),
        }),
        _ => None,
    }
}

/// The row of a line, if it is one.
pub(crate) fn row_in(line: &[u8]) -> Option<KnownRow>
    ensures { result ≡ row_in line.now }
{
    let (name, tail) = line.split_at(line.len().saturating_sub(DIGITS + 1));
    let (blank, digits) = tail.split_at(tail.len().min(1));
    if !is_same_text(blank, b" ") {
        return None;
    }
    match (deck_named(name), known_in(digits)) {
        (Some(name), Some(known)) => Some(KnownRow { name, known }),
        _ => None,
    }
}
