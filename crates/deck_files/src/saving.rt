//! Saves cards as a file.
ghost use Rattle.std.specs.Prelude.{◌≡◌, ◌≤◌, ◌<◌, ◌*◌, length, take, OnOk, IfOk, IfErr};
ghost use Rattle.std.specs.Io.KnownBytes.{Appends};
ghost use Rattle.text_ports.specs.Faults.{count_up};
ghost use Rattle.deck_files.specs.DeckFiles.{file_of};

use crate::card_line::card_line;
use cards::Card;
use std::alloc::{AllocError, Global};
use std::io::Write;
use text_ports::{Broken, Counted, put_all};

/// Saves cards as a file: each card and a line feed. After a fault exactly the first `sent` bytes
/// of the file went out. No file has more cards than `load` takes.
pub fn save<W: Write>(writer: &mut Counted<W>, cards: &[Card]) -> Result<(), Broken>
    requires { length cards.now ≤ 20000 }
    ensures all { OnOk result (Appends (W.contents writer.old.0) (W.contents writer.new.0) (file_of cards.now)) }
    ensures prefix { IfErr result (λ b. (b.sent < length (file_of cards.now))
        × Appends (W.contents writer.old.0) (W.contents writer.new.0) (take b.sent (file_of cards.now))) }
    ensures no_fault { OnOk result (writer.new.1 ≡ writer.old.1) }
    ensures one_fault { IfErr result (λ b. writer.new.1 ≡ count_up writer.old.1) }
    ensures few { IfErr result (λ b. b.sent < 81 * 20000) }
{
    let mut sent = 0;
    for card in cards {
        let line = card_line(card);
        let bytes = line.as_slice();
        if let Err(broken) = put_all(writer, bytes) {
            return Err(Broken {
                sent: sent + broken.sent,
            });
        }
        sent += bytes.len();
    }
    Ok(())
}

/// The file of some cards in memory.
pub fn save_file(alloc: Global, cards: &[Card]) -> Result<Vec<u8>, AllocError>
    requires { length cards.now ≤ 20000 }
    ensures { IfOk result (λ file. file.items ≡ file_of cards.now) }
{
    let mut output = Counted::new(Vec::new(alloc));
    match save(&mut output, cards) {
        Ok(()) => Ok(output.into_inner()),
        Err(_) => Err(AllocError),
    }
}
