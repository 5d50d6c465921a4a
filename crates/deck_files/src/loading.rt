//! Loads the cards of a file.
ghost use Rattle.std.specs.Prelude.{◌≡◌, ◌≤◌, ◌+◌, ◌*◌, ◌++◌, ◌∷◌, ℕ, List, [], length, Ok, OnOk, IfOk, IfErr};
ghost use Rattle.definitions.specs.Cards.{Card as CardColumns};
ghost use Rattle.definitions.specs.InputLines.{Line, without_cr};
ghost use Rattle.deck_files.specs.DeckFiles.{card_in};
ghost use Rattle.deck_files.specs.FileSums.{Sums};
ghost use Rattle.deck_files.specs.Loads.{IsFaultOf, LoadsCards, LoadsFault, LoadsSummed, count_after_load};

use crate::file_sums::{FileSum, Summing};
use crate::load_fault::LoadFault;
use cards::{Card, CardFault, MOST_CARDS};
use std::alloc::Global;
use std::io::Read;
use text_ports::{Counted, LineBuf, LineIs, next_whole_line};

/// The cards of a file, and what the file has.
#[derive(Drop)]
pub(crate) struct Loaded {
    pub(crate) cards: Vec<Card>,
    pub(crate) sum: FileSum,
}

/// Loads the cards of a file, line by line up to its end or to the first fault. In one line a fault
/// of the reader or of the line comes before the fault of a card too many, and want of memory last.
pub fn load<R: Read>(alloc: Global, reader: &mut Counted<R>) -> Result<Vec<Card>, LoadFault>
    ensures cards { IfOk result (λ cards. LoadsCards (R.remaining reader.old.0) (R.remaining reader.new.0) cards.items) }
    ensures fault { IfErr result (λ fault. LoadsFault fault (R.remaining reader.old.0) (R.remaining reader.new.0)) }
    ensures no_fault { OnOk result (reader.new.1 ≡ reader.old.1) }
    ensures count { IfErr result (λ fault. reader.new.1 ≡ count_after_load fault reader.old.1) }
{
    match load_summed(alloc, reader) {
        Ok(loaded) => Ok(loaded.cards),
        Err(fault) => Err(fault),
    }
}

/// Loads the cards of a file as `load` does, and returns what the file has.
pub(crate) fn load_summed<R: Read>(
    alloc: Global,
    reader: &mut Counted<R>,
) -> Result<Loaded, LoadFault>
    ensures cards { IfOk result (λ loaded. LoadsSummed (R.remaining reader.old.0) (R.remaining reader.new.0) loaded.cards.items loaded.sum) }
    ensures fault { IfErr result (λ fault. LoadsFault fault (R.remaining reader.old.0) (R.remaining reader.new.0)) }
    ensures no_fault { OnOk result (reader.new.1 ≡ reader.old.1) }
    ensures count { IfErr result (λ fault. reader.new.1 ≡ count_after_load fault reader.old.1) }
{
    let mut cards = Vec::new(alloc);
    let mut summing = Summing::new();
    let mut line = LineBuf::new();
    loop {
        match next_whole_line(reader, &mut line) {
            LineIs::Line => add_line(&mut cards, &mut summing, line.as_slice())?,
            LineIs::End => {
                let sum = summing.sum();
                return Ok(Loaded { cards, sum });
            }
            LineIs::Cut => return Err(LoadFault::LastLineCut),
            LineIs::TooLong => return Err(bad_line(cards.len() + 1, CardFault::TooWide)),
            LineIs::Fault => return Err(LoadFault::ReadFault),
        }
    }
}

fn bad_line(line: usize, fault: CardFault) -> LoadFault
    ensures { result ≡ LoadFault.BadLine line fault }
{
    LoadFault::BadLine { line, fault }
}

/// A line without one carriage return at its end.
fn shown(line: &[u8]) -> &[u8]
    ensures { result.now ≡ without_cr line.now }
{
    if line.len() > 0 && line[line.len() - 1] == b'\r' {
        line.split_at(line.len() - 1).0
    } else {
        line
    }
}

/// Adds the card that the next line shows, and the line itself to the sum.
fn add_line(cards: &mut Vec<Card>, summing: &mut Summing, line: &[u8]) -> Result<(), LoadFault>
    requires { (length cards.old.items ≤ 20000) × (length line.now ≤ 256) × (summing.old.length ≤ 257 * length cards.old.items) }
    ensures card { OnOk result ((card : CardColumns) × (card_in (length cards.old.items + 1) (Line (without_cr line.now)) ≡ Ok card)
        × (cards.new.items ≡ cards.old.items ++ card ∷ [])) }
    ensures few { OnOk result (length cards.new.items ≤ 20000) }
    ensures sums { (bytes : List ℕ) → Sums summing.old bytes → Sums summing.new (bytes ++ (line.now ++ 10 ∷ [])) }
    ensures longer { summing.new.length ≤ summing.old.length + 257 }
    ensures fault { IfErr result (λ fault. IsFaultOf fault (card_in (length cards.old.items + 1) (Line (without_cr line.now)))) }
{
    summing.add_line(line);
    add_card(cards, shown(line))
}

/// Adds the card that the next line shows.
fn add_card(cards: &mut Vec<Card>, line: &[u8]) -> Result<(), LoadFault>
    requires { length cards.old.items ≤ 20000 }
    ensures card { OnOk result ((card : CardColumns) × (card_in (length cards.old.items + 1) (Line line.now) ≡ Ok card)
        × (cards.new.items ≡ cards.old.items ++ card ∷ [])) }
    ensures few { OnOk result (length cards.new.items ≤ 20000) }
    ensures fault { IfErr result (λ fault. IsFaultOf fault (card_in (length cards.old.items + 1) (Line line.now))) }
{
    let number = cards.len() + 1;
    let card = match Card::read(line) {
        Ok(card) => card,
        Err(fault) => return Err(bad_line(number, fault)),
    };
    if number > MOST_CARDS {
        return Err(LoadFault::DeckFull);
    }
    cards.push(card)?;
    Ok(())
}
