//! The texts of refusals.
ghost use Rattle.std.specs.Prelude.{◌≡◌, ◌+◌, ◌≤◌, ◌++◌, length, decimal};
ghost use Rattle.cards.specs.CardReads.{card_fault_text};
ghost use Rattle.session_commands.specs.Refusals.{edit_fault_text, refusal_text};

use crate::reply_line::ReplyLine;
use cards::{CardFault, EditFault};
use session_commands::{Refusal, UnknownWord};

/// A name, and a number behind it.
fn put_numbered(line: &mut ReplyLine, name: &[u8], number: u64)
    requires { length line.old + length name.now ≤ 60 }
    ensures text { line.new ≡ line.old ++ (name.now ++ decimal number) }
    ensures len { length line.new ≤ length line.old + (length name.now + 20) }
{
    line.put(name);
    line.put_number(number);
}

fn put_card_fault(line: &mut ReplyLine, fault: CardFault)
    requires { length line.old ≤ 40 }
    ensures text { line.new ≡ line.old ++ card_fault_text fault }
    ensures len { length line.new ≤ length line.old + 33 }
{
    match fault {
        CardFault::TooWide => line.put(b"TooWide"),
        CardFault::BadCharacter { column } => {
            put_numbered(line, b"BadCharacter ", column as u64);
        }
    }
}

fn put_edit_fault(line: &mut ReplyLine, fault: EditFault)
    requires { length line.old ≤ 40 }
    ensures text { line.new ≡ line.old ++ edit_fault_text fault }
    ensures len { length line.new ≤ length line.old + 10 }
{
    match fault {
        EditFault::NoSuchCard => line.put(b"NoSuchCard"),
        EditFault::DeckFull => line.put(b"DeckFull"),
    }
}

/// The text of a refusal.
pub(crate) fn put_refusal(line: &mut ReplyLine, refusal: &Refusal)
    requires { length line.old ≤ 11 }
    ensures text { line.new ≡ line.old ++ refusal_text refusal.now }
    ensures short { length line.new ≤ 79 }
{
    match *refusal {
        Refusal::OutOfMemory => line.put(b"OutOfMemory"),
        Refusal::BadCard(fault) => put_card_fault(line, fault),
        Refusal::NoSuchCard => line.put(b"NoSuchCard"),
        Refusal::DeckFull => line.put(b"DeckFull"),
        Refusal::Spent => line.put(b"Spent"),
        Refusal::NameTaken => line.put(b"NameTaken"),
        Refusal::NoDeck => line.put(b"NoDeck"),
        Refusal::OldVersion { current } => put_numbered(line, b"OldVersion ", current),
        Refusal::TooManyDecks => line.put(b"TooManyDecks"),
        Refusal::UnknownJob => line.put(b"UnknownJob"),
        Refusal::Stale { current } => put_numbered(line, b"Stale ", current),
        Refusal::Foreign => line.put(b"Foreign"),
        Refusal::NoPublication => line.put(b"NoPublication"),
        Refusal::VersionsSpent => line.put(b"VersionsSpent"),
        Refusal::ReadFault => line.put(b"ReadFault"),
        Refusal::BadLine {
            line: number,
            fault,
        } => put_bad_line(line, number as u64, fault),
        Refusal::LastLineCut => line.put(b"LastLineCut"),
        Refusal::WriteFault { sent } => put_numbered(line, b"WriteFault ", sent as u64),
        Refusal::CannotOpen => line.put(b"CannotOpen"),
        Refusal::BadCommand => line.put(b"BadCommand"),
        Refusal::UnknownCommand(word) => put_unknown_command(line, &word),
        Refusal::BadName => line.put(b"BadName"),
        Refusal::SeatsOut => line.put(b"SeatsOut"),
        Refusal::BadEdit { number, fault } => put_bad_edit(line, number, fault),
        Refusal::BatchSize => line.put(b"BatchSize"),
        Refusal::FileExists => line.put(b"FileExists"),
        Refusal::Busy => line.put(b"Busy"),
        Refusal::NotKept => line.put(b"NotKept"),
        Refusal::Forgotten { oldest } => put_numbered(line, b"Forgotten ", oldest),
        Refusal::Touched { card, version } => put_touched(line, card, version),
        Refusal::NoChange => line.put(b"NoChange"),
        Refusal::ReadOnly => line.put(b"ReadOnly"),
    }
}

fn put_unknown_command(line: &mut ReplyLine, word: &UnknownWord)
    requires { length line.old ≤ 11 }
    ensures text { line.new ≡ line.old ++ refusal_text (Refusal.UnknownCommand word.now) }
    ensures short { length line.new ≤ 79 }
{
    line.put(b"UnknownCommand ");
    line.put(word.as_slice());
}

fn put_bad_line(line: &mut ReplyLine, number: u64, fault: CardFault)
    requires { length line.old ≤ 11 }
    ensures text { line.new ≡ line.old ++ refusal_text (Refusal.BadLine number fault) }
    ensures short { length line.new ≤ 79 }
{
    put_numbered(line, b"BadLine ", number);
    line.put(b" ");
    put_card_fault(line, fault);
}

fn put_touched(line: &mut ReplyLine, card: u64, version: u64)
    requires { length line.old ≤ 11 }
    ensures text { line.new ≡ line.old ++ refusal_text (Refusal.Touched card version) }
    ensures short { length line.new ≤ 79 }
{
    put_numbered(line, b"Touched ", card);
    put_numbered(line, b" ", version);
}

fn put_bad_edit(line: &mut ReplyLine, number: u64, fault: EditFault)
    requires { length line.old ≤ 11 }
    ensures text { line.new ≡ line.old ++ refusal_text (Refusal.BadEdit number fault) }
    ensures short { length line.new ≤ 79 }
{
    put_numbered(line, b"BadEdit ", number);
    line.put(b" ");
    put_edit_fault(line, fault);
}
