//! The bits that the link makes of forms.
ghost use Rattle.std.specs.Prelude.{ℕ, List, ◌≡◌, ◌≤◌, ◌<◌, ◌^◌, unwrap_or};
ghost use Rattle.definitions.specs.Coding.{coded_in};
ghost use Rattle.definitions.specs.Lengths.{BlockRow};
ghost use Rattle.definitions.specs.Listing.{unlinked};
ghost use Rattle.definitions.specs.Settled.{Settled};
ghost use Rattle.definitions.specs.StatementItems.{number_in};
ghost use Rattle.definitions.specs.declared.deck_kind.DeckKind.{DeckKind};
ghost use Rattle.definitions.specs.Words as words;
ghost use Rattle.definitions.specs.Words.{content_bits};
ghost use Rattle.statement_coder.specs.Joins.Items.{deck_with, item_as};
ghost use Rattle.definitions.specs.Laws.Filling.{HasRoom};

use expr_forms::{Form, Name};
use statement_coder::{BlockBases, Content, Item, number_coded, number_in};
use use_blocks::Bases;

/// How the link makes bits of a form in a field.
pub trait Linking {
    ghost linking: { Self → words.Linking };

    /// The bits of a form in a field of 18 to 60 bits.
    fn bits(&self, width: u32, form: Form) -> u64
        requires some { 18 ≤ width }
        requires most { width ≤ 60 }
        ensures bits { result ≡ linking self.now width form }
        ensures small { result < 2 ^ width };
}

/// A number in a field of 1 to 60 bits, or 0 where it does not fit.
pub fn coded_or_zero(width: u32, number: i128) -> u64
    requires some { 1 ≤ width }
    requires most { width ≤ 60 }
    ensures bits { result ≡ unwrap_or (coded_in width number) 0 }
    ensures small { result < 2 ^ width }
{
    number_coded(width, number).unwrap_or(0)
}

/// The bits of a field of at most 60 bits.
#[inline(always)]
pub fn linked_bits<L: Linking>(linking: &L, item: &Item) -> u64
    requires most { item.now.width ≤ 60 }
    requires room { HasRoom item.now.width (item_as item.now).content }
    ensures bits { result ≡ content_bits (L.linking linking.now) item.now.width (item_as item.now).content }
    ensures small { result < 2 ^ item.now.width }
{
    match item.content {
        Content::Known(bits) => bits,
        Content::Linked(form) => linking.bits(item.width, form),
    }
}

/// The link of a deck alone, as its listing has it: the deck stands at 0, and so does each external.
#[derive(Clone, Copy)]
pub struct Unlinked<'a> {
    pub bases: &'a Bases,
}

impl BlockBases for Unlinked<'_> {
    ghost rows = { λ u. u.bases.now };

    fn base(&self, name: &Name) -> u64 {
        self.bases.base(name)
    }
}

/// A form as a number where blocks have these places, in a field of 1 to 60 bits, or 0 where it does
/// not fit.
fn placed_bits<B: BlockBases>(bases: &B, width: u32, form: Form) -> u64
    requires some { 1 ≤ width }
    requires most { width ≤ 60 }
    ensures bits { (kind : DeckKind) (settled : List Settled) (literals : List ℕ) →
        result ≡ unwrap_or (coded_in width (number_in (deck_with kind (B.rows bases.now) settled literals) form)) 0 }
    ensures small { result < 2 ^ width }
{
    coded_or_zero(width, number_in(bases, form))
}

impl Linking for Unlinked<'_> {
    ghost linking = { λ u. unlinked u.bases.now };

    fn bits(&self, width: u32, form: Form) -> u64 {
        placed_bits(self, width, form)
    }
}
