//! The statements of an object, a line each, and the fields that a line keeps.
ghost use Rattle.std.specs.Prelude.{◌≡◌, ◌≤◌, ◌<◌, ◌+◌, ◌-◌, ◌*◌, ◌^◌, [], IfOk, length, min, take, drop};
ghost use Rattle.definitions.specs.Kinds.{unit_bits};
ghost use Rattle.definitions.specs.StatementItems.{known};
ghost use Rattle.statement_coder.specs.Joins.Items.{item_as};

use crate::line_bits::LineBits;
use definitions::DeckKind;
use operations::{Letters, Operation};
use statement_coder::{Content, Item};
use std::alloc::{AllocError, Global};

/// The fields of a statement, as its object keeps them.
#[derive(Clone, Copy)]
pub enum LineFields {
    /// It has none.
    Absent,
    /// All of them as one number, which reaches from the statement's place to its end: at most 60 bits.
    Known(LineBits),
    /// So many of the object's words, two or more, from the first of them on: a field each, as wide as a word.
    Words { first: u32, count: u32 },
    /// So many of the object's other fields, from the first of them on.
    Listed { first: u32, count: u32 },
    /// Zeros from its place to its end, as BSSZ stores them.
    Zeros,
}

/// A statement up to END: where it stands, and what it stores there. Place and end are in units of its
/// block, parcels or peripheral words.
#[derive(Clone, Copy)]
pub struct CodedLine {
    pub operation: Operation,
    /// Whether an ORG begins a new run here.
    pub begins_run: bool,
    /// The index of its block among the blocks of the object.
    pub block: u32,
    pub place: u32,
    pub end: u32,
    pub fields: LineFields,
}

impl CodedLine {
    /// Bits that reach from its place to its end, as a field.
    pub fn known_field(&self, kind: DeckKind, bits: LineBits) -> Item
        requires { (self.now.end - self.now.place) * unit_bits kind ≤ 60 }
        ensures { item_as result ≡ known ((self.now.end - self.now.place) * unit_bits kind) bits }
    {
        Item {
            width: self.end.saturating_sub(self.place) * kind.unit_bits(),
            content: Content::Known(bits.get()),
            letter: None,
        }
    }
}

/// The fields that lines have lists of.
#[derive(Drop)]
pub struct FieldLists {
    /// Those that are known and as wide as a word, where all of a line's are.
    pub words: Vec<u64>,
    /// All others.
    pub items: Vec<Item>,
}

impl FieldLists {
    /// None.
    pub fn none(alloc: Global) -> FieldLists
        ensures words { result.words.items ≡ [] }
        ensures items { result.items.items ≡ [] }
    {
        FieldLists {
            words: Vec::new(alloc),
            items: Vec::new(alloc),
        }
    }

    /// None, with memory for as many as others are.
    pub fn with_room(alloc: Global, others: &FieldLists) -> Result<FieldLists, AllocError>
        ensures words { IfOk result (λ lists. lists.words.items ≡ []) }
        ensures items { IfOk result (λ lists. lists.items.items ≡ []) }
    {
        Ok(FieldLists {
            words: Vec::with_capacity(alloc, others.words.len())?,
            items: Vec::with_capacity(alloc, others.items.len())?,
        })
    }

    /// How many fields they have.
    pub fn len(&self) -> usize
        ensures { result ≡ min (length self.now.words.items + length self.now.items.items) (2 ^ 64 - 1) }
    {
        self.words.len().saturating_add(self.items.len())
    }
}

/// So many of a list, from the first of them on.
pub fn listed<T>(list: &[T], first: u32, count: u32) -> &[T]
    requires { first + count ≤ length list.now }
    ensures some { result.now ≡ take count (drop first list.now) }
    ensures few { length result.now < 2 ^ 32 }
{
    let (_, behind) = list.split_at(first as usize);
    behind.split_at(count as usize).0
}

/// A statement of the listing: how many cards it has, its letters, and what it stores. A statement
/// behind END is only listed.
#[derive(Drop)]
pub struct Line {
    pub cards: u32,
    pub letters: Letters,
    pub coded: Option<CodedLine>,
}
