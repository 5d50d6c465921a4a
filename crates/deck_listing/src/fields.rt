//! Fields, put one behind the other into the words of their block.
ghost use Rattle.std.specs.Prelude.{◌≡◌, ◌+◌, ◌≤◌, [], ◌∷◌, map, OnOk};
ghost use Rattle.definitions.specs.Kinds.{unit_bits};
ghost use Rattle.definitions.specs.Words.{width_of};
ghost use Rattle.statement_coder.specs.Joins.Items.{item_as};
ghost use Rattle.definitions.specs.Laws.Filling.{HasRoom};
ghost use Rattle.parcel_packer.specs.Joins.Packing.{most_bits};
ghost use Rattle.deck_objects.specs.Joins.LineItems.{AreShort};
ghost use Rattle.deck_listing.specs.Joins.Putting.{StandsAt, ArePut};

use deck_objects::{Linking, linked_bits};
use definitions::DeckKind;
use parcel_packer::{Field, Words};
use statement_coder::{Content, Item};
use std::alloc::AllocError;

/// A field, as the object of a deck of a kind lists it.
pub(crate) trait ListedField {
    ghost use Rattle.std.specs.Prelude.{◌≡◌};
    ghost use Rattle.definitions.specs.StatementItems as definitions;
    ghost use Rattle.definitions.specs.declared.deck_kind.DeckKind as kinds;
    ghost use Rattle.statement_coder.specs.Joins.Items.{item_as};

    ghost field: { kinds.DeckKind → Self → definitions.Item };

    fn item(&self, kind: DeckKind) -> Item
        ensures { item_as result ≡ field kind self.now };
}

impl ListedField for Item {
    ghost use Rattle.statement_coder.specs.Joins.Items.{item_as};

    ghost field = { λ kind. item_as };

    #[inline(always)]
    fn item(&self, _kind: DeckKind) -> Item {
        *self
    }
}

/// A word that is known, by its bits.
impl ListedField for u64 {
    ghost use Rattle.definitions.specs.Kinds.{word_bits};
    ghost use Rattle.definitions.specs.StatementItems.{known};

    ghost field = { λ kind. known (word_bits kind) };

    #[inline(always)]
    fn item(&self, kind: DeckKind) -> Item {
        Item {
            width: kind.word_bits(),
            content: Content::Known(*self),
            letter: None,
        }
    }
}

/// Puts a field at a bit of the block; one without bits leaves the words as they are.
#[inline(always)]
pub(crate) fn put_item<L: Linking>(
    words: &mut Words,
    linking: &L,
    at: u32,
    is_instruction: bool,
    item: &Item,
) -> Result<(), AllocError>
    requires short { item.now.width ≤ 60 }
    requires room { HasRoom item.now.width (item_as item.now).content }
    requires stands { StandsAt (unit_bits words.old.kind) words.old.run at }
    requires within { at + item.now.width ≤ most_bits words.old.kind }
    ensures kind { OnOk result (words.new.kind ≡ words.old.kind) }
    ensures earlier { OnOk result (words.new.earlier ≡ words.old.earlier) }
    ensures put { OnOk result (ArePut (unit_bits words.old.kind) is_instruction (L.linking linking.now) words.old.run at (item_as item.now ∷ []) words.new.run) }
{
    let bits = linked_bits(linking, item);
    let width = item.width;
    if width == 0 {
        return Ok(());
    }
    words.put(
        at,
        Field {
            width,
            bits,
            is_instruction,
        },
    )
}

/// Puts fields one behind the other, the first at a bit of the block.
pub(crate) fn put_fields<L: Linking, F: ListedField>(
    words: &mut Words,
    linking: &L,
    kind: DeckKind,
    from: u32,
    is_instruction: bool,
    fields: &[F],
) -> Result<(), AllocError>
    requires short { AreShort (map (F.field kind) fields.now) }
    requires stands { StandsAt (unit_bits words.old.kind) words.old.run from }
    requires within { from + width_of (map (F.field kind) fields.now) ≤ most_bits words.old.kind }
    ensures kind { OnOk result (words.new.kind ≡ words.old.kind) }
    ensures earlier { OnOk result (words.new.earlier ≡ words.old.earlier) }
    ensures put { OnOk result (ArePut (unit_bits words.old.kind) is_instruction (L.linking linking.now) words.old.run from (map (F.field kind) fields.now) words.new.run) }
{
    let mut end = from;
    for field in fields {
        let item = field.item(kind);
        put_item(words, linking, end, is_instruction, &item)?;
        end += item.width;
    }
    Ok(())
}
