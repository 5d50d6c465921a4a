//! Known fields one behind the other, as one number.
ghost use Rattle.std.specs.Prelude.{◌≡◌, ◌+◌, ◌*◌, ◌≤◌, ◌<◌, ◌^◌, ◌++◌, ◌∷◌, [], List, IfSome, map};
ghost use Rattle.definitions.specs.StatementItems as definitions;
ghost use Rattle.statement_coder.specs.Joins.Items.{item_as};
ghost use Rattle.deck_assembler.specs.Joins.KeptFields.{AreTogether, IsOneNumber};

use statement_coder::{Content, Item};

/// The bits of known fields together, at most 60.
#[derive(Clone, Copy)]
struct KnownBits {
    width: u32,
    bits: u64,
    ghost short: { width ≤ 60 },
    ghost room: { bits < 2 ^ width },
}

impl KnownBits {
    /// No field.
    fn none() -> KnownBits
        ensures { AreTogether [] result.width result.bits }
    {
        KnownBits { width: 0, bits: 0 }
    }

    /// So many bits more behind them, which have room there.
    fn behind(self, width: u32, bits: u64) -> KnownBits
        requires short { self.width + width ≤ 60 }
        requires room { bits < 2 ^ width }
        ensures width { result.width ≡ self.width + width }
        ensures bits { result.bits ≡ self.bits * 2 ^ width + bits }
    {
        KnownBits {
            width: self.width + width,
            bits: (self.bits << width) + bits,
        }
    }

    /// A field more behind them; none where it is left to the link, has no room for its bits, or makes
    /// them more than 60.
    fn with(self, item: &Item) -> Option<KnownBits>
        ensures { IfSome result (λ known. (fields : List definitions.Item) → AreTogether fields self.width self.bits →
            AreTogether (fields ++ item_as item.now ∷ []) known.width known.bits) }
    {
        let width = item.width;
        match item.content {
            Content::Linked(_) => None,
            Content::Known(bits) => {
                if width <= 60 - self.width && bits < 1 << width {
                    Some(self.behind(width, bits))
                } else {
                    None
                }
            }
        }
    }
}

/// Some fields as one number of at most 60 bits; none where there are no fields, one is left to the link, or
/// they have more.
pub(crate) fn listed_bits(items: &[Item]) -> Option<u64>
    ensures { IfSome result (λ bits. IsOneNumber (map item_as items.now) bits) }
{
    if items.is_empty() {
        return None;
    }
    let mut known = KnownBits::none();
    for item in items {
        known = known.with(item)?;
    }
    Some(known.bits)
}
