//! Reads the lines of a run as decks, or returns the first fault among them.
ghost use Rattle.std.specs.Prelude.{◌≡◌, ◌≤◌, length, OnOk, IfOk, IfErr, IfSome};
ghost use Rattle.std.specs.Io.KnownBytes.{IsAtEnd};
ghost use Rattle.definitions.specs.InputLines.{Line};
ghost use Rattle.definitions.specs.DeckInput.{Decks, with_card, with_line};
ghost use Rattle.deck_cuts.specs.Cuts.{newest_first};
ghost use Rattle.asm_main.specs.Runs.{IsBeforeWriting, input_count_after};
ghost use Rattle.asm_main.specs.Inputs.{IsFaultOf, input_in, AreDecksOf, TellsFaultOf, ReadsToFault, ReadsSound, IsSoundBefore, AreSmall};

use crate::asm_fault::AsmFault;
use cards::{Card, CardFault};
use deck_cuts::{Deck, add_card};
use std::alloc::Global;
use std::io::BufRead;
use text_ports::{Counted, LineBuf, LineIs, next_held_line};

/// How many lines a run reads at most: those of 64 decks of 20,000 cards, and the one that is too
/// many.
const MOST_LINES: u64 = 1_280_001;

/// Adds a card to the decks; `number` is its line's, from 1.
fn add_read(alloc: Global, decks: &mut Vec<Deck>, number: u64, card: Card) -> Result<(), AsmFault>
    ensures ok { OnOk result (with_card number card (newest_first decks.old.items)
        ≡ Decks (newest_first decks.new.items)) }
    ensures err { IfErr result (IsFaultOf (with_card number card (newest_first decks.old.items))) }
{
    add_card(alloc, decks, number, card)?;
    Ok(())
}

/// Adds the card that a line shows to the decks; `number` is the line's, from 1. After a fault no
/// clause says what became of the decks.
fn add_line(alloc: Global, decks: &mut Vec<Deck>, number: u64, line: &[u8]) -> Result<(), AsmFault>
    ensures ok { OnOk result (with_line number (Line line.now) (Decks (newest_first decks.old.items))
        ≡ Decks (newest_first decks.new.items)) }
    ensures err { IfErr result
        (IsFaultOf (with_line number (Line line.now) (Decks (newest_first decks.old.items)))) }
{
    match Card::read(line) {
        Ok(card) => add_read(alloc, decks, number, card),
        Err(fault) => Err(AsmFault::BadLine {
            line: number,
            fault,
        }),
    }
}

/// Reads all lines as decks, in order and with their cards in order. The first fault ends it: what
/// follows is not looked at. The line that was read last is left in `line`.
pub fn read_decks<R: BufRead>(
    alloc: Global,
    input: &mut Counted<R>,
    line: &mut LineBuf,
) -> Result<Vec<Deck>, AsmFault>
    // What was read are lines that show no fault, and then one line at most.
    ensures read { ReadsToFault (R.remaining input.old.0) (R.remaining input.new.0) }
    ensures all_read { OnOk result (IsAtEnd (R.remaining input.new.0)) }
    ensures sound { OnOk result (ReadsSound (R.remaining input.old.0) (R.remaining input.new.0)) }

    // Want of memory is reported only where what was read shows no fault.
    ensures memory { IfErr result (λ fault. IsSoundBefore fault (R.remaining input.old.0) (R.remaining input.new.0)) }

    // Where the bytes are known, the decks, or the fault of the input, are those of the definitions.
    ensures decks { IfOk result (λ decks.
        IfSome (R.remaining input.old.0) (λ bytes. AreDecksOf (input_in bytes) decks.items)) }
    ensures fault { IfErr result (λ fault.
        IfSome (R.remaining input.old.0) (λ bytes. TellsFaultOf (input_in bytes) fault)) }

    ensures small { IfErr result AreSmall }
    ensures few { IfOk result (λ decks. length decks.items ≤ 64) }
    ensures no_fault { OnOk result (input.new.1 ≡ input.old.1) }
    ensures count { IfErr result (λ fault. input.new.1 ≡ input_count_after fault input.old.1) }
    ensures before_writing { IfErr result IsBeforeWriting }
{
    let mut decks = Vec::new(alloc);
    for before in 0..MOST_LINES {
        let number = before + 1;
        match next_held_line(input, line) {
            LineIs::Line => add_line(alloc, &mut decks, number, line.as_slice())?,
            LineIs::End => return Ok(decks),
            LineIs::Cut => return Err(AsmFault::LastLineCut),
            LineIs::TooLong => {
                return Err(AsmFault::BadLine {
                    line: number,
                    fault: CardFault::TooWide,
                });
            }
            LineIs::Fault => return Err(AsmFault::ReadFault),
        }
    }
    unreachable!()
}
