//! What the lines behind a first one are, line by line: the edits of a batch, or the cards of a put.
ghost use Rattle.std.specs.Prelude.{◌≡◌, List, [], ◌∷◌, ◌++◌, Result, Ok, length};
ghost use Rattle.session_commands.specs.declared.refusals.Refusal.{Refusal as Reason};
ghost use Rattle.session_line.specs.Joins.LineItems.{IsRead, item_behind};

use cards::{Card, Edit};
use session_commands::{Refusal, read_batch_line, read_put_line};

/// What a line behind a first one is read as. The member says what the line of a number, from 1, is.
pub(crate) trait LineItem: Drop {
    ghost use Rattle.std.specs.Prelude.{◌≡◌, ℕ, List, Result};
    ghost use Rattle.session_commands.specs.declared.refusals.Refusal.{Refusal as Reason};

    ghost item_of: { ℕ → List ℕ → Result Self Reason };

    /// Reads the line of this number.
    fn read(number: u64, line: &[u8]) -> Result<Self, Refusal>
        ensures { result ≡ item_of number line.now };
}

impl LineItem for Edit {
    ghost use Rattle.session_commands.specs.Edits.{edit_in_batch};

    ghost item_of = { λ number line. edit_in_batch line };

    fn read(_number: u64, line: &[u8]) -> Result<Edit, Refusal> {
        read_batch_line(line)
    }
}

impl LineItem for Card {
    ghost use Rattle.session_commands.specs.Edits.{card_in_put};

    ghost item_of = { card_in_put };

    fn read(number: u64, line: &[u8]) -> Result<Card, Refusal> {
        read_put_line(number, line)
    }
}

/// The items of some lines, as far as they are read.
#[derive(Drop)]
pub(crate) enum ItemsRead<T: Drop> {
    /// Each line is an item.
    Whole(Vec<T>),
    /// Each line is an item, and there was no memory for them.
    Lacking,
    /// Why the first line is refused that is no item.
    Faulty(Refusal),
}

/// The items with one more, where there is memory.
fn pushed<T: Drop>(mut items: Vec<T>, item: T) -> ItemsRead<T>
    ensures { IsRead (Ok (items.items ++ item ∷ [])) result }
{
    match items.push(item) {
        Ok(()) => ItemsRead::Whole(items),
        Err(_) => ItemsRead::Lacking,
    }
}

impl<T: LineItem> ItemsRead<T> {
    /// The items with that of one line more. The first refusal counts, and before want of memory.
    pub(crate) fn with_line(self, number: u64, line: &[u8]) -> ItemsRead<T>
        ensures { (items : Result (List T) Reason) → IsRead items self → IsRead (item_behind items (T.item_of number line.now)) result }
    {
        match self {
            ItemsRead::Whole(items) => match T::read(number, line) {
                Ok(item) => pushed(items, item),
                Err(refusal) => ItemsRead::Faulty(refusal),
            },
            ItemsRead::Lacking => match T::read(number, line) {
                Ok(_) => ItemsRead::Lacking,
                Err(refusal) => ItemsRead::Faulty(refusal),
            },
            ItemsRead::Faulty(refusal) => ItemsRead::Faulty(refusal),
        }
    }
}
