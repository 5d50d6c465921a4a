//! Variable fields of DATA and VFD that were read, without the text that they borrow: those that are
//! short.
ghost use Rattle.std.specs.Prelude.{◌≡◌, IfSome};

use crate::bit_fields::BitFields;
use crate::data_words::DataWords;
use crate::kept_texts::KeptText;
use crate::subfields::Subfields;
use definitions::NumberBase;
use std::marker::Model;

/// The subfields of a short text. Contracts see the list of the pieces of each.
#[derive(Drop)]
struct KeptSubfields {
    text: KeptText<28>,
}

impl Model for KeptSubfields {
    ghost use Rattle.std.specs.Prelude.{List};
    ghost use Rattle.definitions.specs.Pieces.{Piece, pieces_of, subfields_of};

    ghost Value = { List (List Piece) };

    ghost view = { λ s. subfields_of (pieces_of s.text) };
}

impl KeptSubfields {
    /// The same subfields, where some are left and their text is short.
    #[inline(always)]
    fn of(subfields: &Subfields<'_>) -> Option<KeptSubfields>
        ensures { IfSome result (λ kept. kept ≡ subfields.now) }
    {
        let text = KeptText::of(subfields.rest?)?;
        Some(KeptSubfields { text })
    }

    #[inline(always)]
    fn subfields(&self) -> Subfields<'_>
        ensures { result ≡ self.now }
    {
        Subfields::new(self.text.as_slice())
    }
}

/// What fills the words of a DATA with a short text. Contracts see the list.
#[derive(Drop)]
pub struct KeptData {
    base: NumberBase,
    subfields: KeptSubfields,
}

impl Model for KeptData {
    ghost use Rattle.std.specs.Prelude.{List, [], ◌≡◌, true, is_some, unwrap_or};
    ghost use Rattle.definitions.specs.Operands.{Datum, data_word, all_read};

    ghost Value = { List Datum };

    ghost view = { λ w. unwrap_or (all_read (data_word w.base) w.subfields) [] };

    ghost invariant = { λ w. is_some (all_read (data_word w.base) w.subfields) ≡ true };
}

impl DataWords<'_> {
    /// The same words without what they borrow, where their text is short.
    #[inline(always)]
    pub fn kept(&self) -> Option<KeptData>
        ensures { IfSome result (λ kept. kept ≡ self.now) }
    {
        let subfields = KeptSubfields::of(&self.subfields)?;
        Some(KeptData {
            base: self.base,
            subfields,
        })
    }
}

impl KeptData {
    /// The words, as they were read.
    #[inline(always)]
    pub fn words(&self) -> DataWords<'_>
        ensures { result ≡ self.now }
    {
        DataWords {
            base: self.base,
            subfields: self.subfields.subfields(),
        }
    }
}

/// The fields of a VFD with a short text. Contracts see the list.
#[derive(Drop)]
pub struct KeptBits {
    literals: bool,
    base: NumberBase,
    subfields: KeptSubfields,
}

impl Model for KeptBits {
    ghost use Rattle.std.specs.Prelude.{List, [], ◌≡◌, true, is_some, unwrap_or};
    ghost use Rattle.definitions.specs.Operands.{BitField, vfd_field, all_read};

    ghost Value = { List BitField };

    ghost view = { λ f. unwrap_or (all_read (vfd_field f.literals f.base) f.subfields) [] };

    ghost invariant = { λ f. is_some (all_read (vfd_field f.literals f.base) f.subfields) ≡ true };
}

impl BitFields<'_> {
    /// The same fields without what they borrow, where their text is short.
    #[inline(always)]
    pub fn kept(&self) -> Option<KeptBits>
        ensures { IfSome result (λ kept. kept ≡ self.now) }
    {
        let subfields = KeptSubfields::of(&self.subfields)?;
        Some(KeptBits {
            literals: self.literals,
            base: self.base,
            subfields,
        })
    }
}

impl KeptBits {
    /// The fields, as they were read.
    #[inline(always)]
    pub fn fields(&self) -> BitFields<'_>
        ensures { result ≡ self.now }
    {
        BitFields {
            literals: self.literals,
            base: self.base,
            subfields: self.subfields.subfields(),
        }
    }
}
