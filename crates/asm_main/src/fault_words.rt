//! The faults of the input in words, and the line and the column that each is about.
ghost use Rattle.std.specs.Prelude.{◌≡◌, option_map};
ghost use Rattle.asm_main.specs.Joins.FaultWords.{card_words, character_words, fault_column, fault_line, fault_words};

use crate::asm_fault::AsmFault;
use cards::CardFault;

/// The first column that no card has.
const BEHIND_CARD: usize = 81;

/// What a character is that no card has, with which the rest of a line begins.
fn character_words(rest: &[u8]) -> &'static str
    ensures { result.now ≡ character_words rest.now }
{
    match rest.first().copied() {
        Some(b'a'..=b'z') => "a small letter; --fold-case takes small letters as capitals",
        Some(b'\t') => "a tab; --tabs takes tabs as blanks up to column 11, 18, 30 and so on",
        Some(b'\r') => {
            "a carriage return within a line; a card has the 64 characters of LANGUAGE.md"
        }
        _ => "a character that no card has; a card has the 64 characters of LANGUAGE.md",
    }
}

/// Why a line is no card.
fn card_words(fault: CardFault, line: &[u8]) -> &'static str
    ensures { result.now ≡ card_words fault line.now }
{
    match fault {
        CardFault::TooWide => {
            "the line is longer than a card, which has 80 columns; cut -c1-80 keeps those"
        }
        CardFault::BadCharacter { column } => {
            let before = column.saturating_sub(1).min(line.len());
            character_words(line.split_at(before).1)
        }
    }
}

/// What a fault of the input means, where `line` was read last; none where the fault is one of a port,
/// or want of memory.
pub fn words_of(fault: AsmFault, line: &[u8]) -> Option<&'static str>
    ensures { option_map (λ words. words.now) result ≡ fault_words fault line.now }
{
    match fault {
        AsmFault::OutOfMemory => None,
        AsmFault::DeckFull => Some("the deck has too many cards; it has at most 20,000"),
        AsmFault::NameTaken => Some("an earlier deck has this name"),
        AsmFault::TooManyDecks => Some("a deck too many; one run takes 64"),
        AsmFault::ReadFault => None,
        AsmFault::BadLine { fault, .. } => Some(card_words(fault, line)),
        AsmFault::LastLineCut => Some(
            "no line feed ends the last line, so it may be cut; --last-line takes it as it is",
        ),
        AsmFault::WriteFault { .. } => None,
        AsmFault::BadName { .. } => Some(
            "no name for a deck; the first card is an IDENT card, and a name has 1 to 7 letters and digits",
        ),
    }
}

/// The line of the input that a fault of it is about, where so many lines were read whole.
pub fn line_of(fault: AsmFault, read: u64) -> u64
    ensures { result ≡ fault_line fault read }
{
    match fault {
        AsmFault::BadLine { line, .. } | AsmFault::BadName { line } => line,
        AsmFault::LastLineCut => read.saturating_add(1),
        _ => read,
    }
}

/// The column that a fault of the input is about, where one is known.
pub fn column_of(fault: AsmFault) -> Option<usize>
    ensures { result ≡ fault_column fault }
{
    match fault {
        AsmFault::BadLine {
            fault: CardFault::TooWide,
            ..
        } => Some(BEHIND_CARD),
        AsmFault::BadLine {
            fault: CardFault::BadCharacter { column },
            ..
        } => Some(column),
        _ => None,
    }
}
