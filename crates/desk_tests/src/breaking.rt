//! A shelf whose writer breaks.

use cards::{Card, DeckName};
use deck_files::{FileRow, SaveOver, Shelf, ShelfLoadFault, ShelfSaveFault, save};
use std::alloc::Global;
use test_parts::FaultyWriter;
use text_ports::Counted;

/// A shelf without files, whose writer takes so many bytes at its first call, and fails at the second.
#[derive(Drop)]
pub struct BreakingShelf {
    pub alloc: Global,
    pub most: usize,
}

impl Shelf for BreakingShelf {
    ghost use Rattle.std.specs.Prelude.{⊤};

    ghost relations = { record {
      loads = λ _ _ _ _. ⊤;
      refuses_to_load = λ _ _ _ _. ⊤;
      saves = λ _ _ _. ⊤;
      refuses_to_save = λ _ _ _ _. ⊤;
      lists = λ _ _ _. ⊤;
      notes = λ _ _ _ _. ⊤;
      tells_saved = λ _ _ _ _ _. ⊤;
    } };

    fn load(&mut self, _name: &DeckName) -> Result<Vec<Card>, ShelfLoadFault> {
        Err(ShelfLoadFault::CannotOpen)
    }

    fn save(
        &mut self,
        _name: &DeckName,
        _over: SaveOver,
        _version: u64,
        cards: &[Card],
    ) -> Result<(), ShelfSaveFault> {
        let mut output = Counted::new(FaultyWriter::new(self.alloc, self.most.max(1), 2));
        save(&mut output, cards).map_err(|broken| ShelfSaveFault::WriteFault { sent: broken.sent })
    }

    fn list(&mut self) -> Result<Vec<FileRow>, ShelfLoadFault> {
        Err(ShelfLoadFault::CannotOpen)
    }

    fn note(&mut self, _name: &DeckName, _version: u64) {}

    fn is_saved(&mut self, _name: &DeckName, _version: u64) -> bool {
        false
    }
}
