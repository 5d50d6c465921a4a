//! The letters that flag fields.
ghost use Rattle.std.specs.Prelude.{◌≡◌, map};
ghost use Rattle.definitions.specs.Letters.{in_order};
ghost use Rattle.statement_coder.specs.Joins.Items.{item_as};
ghost use Rattle.statement_coder.specs.Joins.FieldLetters.{field_letters};

use crate::Item;
use crate::size_letters::with_letter;
use operations::Letters;

/// The letters of the fields of a list.
pub(crate) fn list_letters(items: &[Item]) -> Letters
    ensures { result ≡ in_order (field_letters (map item_as items.now)) }
{
    let mut letters = Letters::none();
    for item in items {
        letters = with_letter(&letters, item.letter);
    }
    letters
}
