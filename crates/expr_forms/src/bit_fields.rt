//! The variable field of VFD: widths and what stands in so many bits (COMPASS 60492600, VFD).
ghost use Rattle.std.specs.Prelude.{◌≡◌, ◌≤◌, ◌∷◌, [], length, option_map, is_some, Some, None, IfSome, IfNone, MatchResult};
ghost use Rattle.definitions.specs.Pieces.{Slash, Inside, IsMark, Plain, pieces_at, pieces_of, subfields_of};
ghost use Rattle.definitions.specs.Operands.{vfd_field, all_read};
ghost use Rattle.definitions.specs.declared.letter.Letter.TheVariants as letter;
ghost use Rattle.expr_forms.specs.Joins.Readings.{bit_field_as, sized_value};

use crate::dis_fields::count_read;
use crate::expressions::Expr;
use crate::numbers::number_read;
use crate::pieces::{Piece, piece_at_start};
use crate::subfields::Subfields;
use definitions::{Letter, NumberBase};
use std::marker::Model;

/// How many bits a field of VFD has at most.
const MOST_BITS: u64 = 60;

/// A field of VFD.
#[derive(Drop)]
pub struct BitField<'a> {
    /// How many bits it has, 1 to 60.
    pub width: u8,
    /// What stands in it; nothing is 0.
    pub value: Option<Expr<'a>>,
}

/// What is written behind a width and a slash.
fn sized_value<'a>(
    literals: bool,
    base: NumberBase,
    width: u8,
    text: &'a [u8],
) -> Option<BitField<'a>>
    requires { length text.now ≤ 711 }
    ensures field { option_map bit_field_as result ≡ sized_value literals base width (pieces_of text.now) }
    ensures width { IfSome result (λ field. field.width ≡ width) }
{
    match text.split_first() {
        None => Some(BitField { width, value: None }),
        Some(_) => {
            let value = Some(Expr::plain(text, literals, base).ok()?);
            Some(BitField { width, value })
        }
    }
}

/// The field whose width and slash this text follows.
fn behind_slash<'a>(
    literals: bool,
    base: NumberBase,
    width: &'a [u8],
    text: &'a [u8],
) -> Option<BitField<'a>>
    requires { length text.now ≤ 711 }
    ensures field { option_map bit_field_as result ≡ vfd_field literals base (Plain width.now ∷ IsMark Slash ∷ pieces_of text.now) }
    ensures some { IfSome result (λ field. 1 ≤ field.width) }
    ensures few { IfSome result (λ field. field.width ≤ 60) }
{
    let width = count_read(MOST_BITS, number_read(base, width))?;
    sized_value(literals, base, width as u8, text)
}

/// The field whose width this text follows.
fn behind_width<'a>(
    literals: bool,
    base: NumberBase,
    width: &'a [u8],
    text: &'a [u8],
) -> Option<BitField<'a>>
    requires { length text.now ≤ 711 }
    ensures field { option_map bit_field_as result ≡ vfd_field literals base (Plain width.now ∷ pieces_at Inside 0 text.now) }
    ensures some { IfSome result (λ field. 1 ≤ field.width) }
    ensures few { IfSome result (λ field. field.width ≤ 60) }
{
    match text.split_first() {
        Some((b'/', behind)) => behind_slash(literals, base, width, behind),
        _ => None,
    }
}

/// What a subfield of VFD is, if it is lawful: a width, a slash, and an expression or nothing.
fn vfd_field(literals: bool, base: NumberBase, text: &[u8]) -> Option<BitField<'_>>
    requires { length text.now ≤ 711 }
    ensures field { option_map bit_field_as result ≡ vfd_field literals base (pieces_of text.now) }
    ensures some { IfSome result (λ field. 1 ≤ field.width) }
    ensures few { IfSome result (λ field. field.width ≤ 60) }
{
    let found = piece_at_start(text)?;
    match found.piece {
        Piece::Run(width) => behind_width(literals, base, width, found.rest),
        _ => None,
    }
}

/// Whether each subfield is lawful in VFD.
fn are_fields(literals: bool, base: NumberBase, subfields: Subfields<'_>) -> bool
    ensures { result ≡ is_some (all_read (vfd_field literals base) subfields.entry) }
{
    let mut rest = subfields;
    'subfields: loop {
        match rest.next() {
            None => return true,
            Some(text) => match vfd_field(literals, base, text) {
                None => return false,
                Some(_) => {}
            },
        }
    }
}

/// The fields of a VFD, from left to right. Contracts see the list of those that are left.
#[derive(Drop)]
pub struct BitFields<'a> {
    pub(crate) literals: bool,
    pub(crate) base: NumberBase,
    pub(crate) subfields: Subfields<'a>,
}

impl<'a> Model for BitFields<'a> {
    ghost use Rattle.std.specs.Prelude.{List, [], ◌≡◌, true, is_some, unwrap_or};
    ghost use Rattle.definitions.specs.Operands.{BitField, vfd_field, all_read};

    ghost Value = { List BitField };

    ghost view = { λ f. unwrap_or (all_read (vfd_field f.literals f.base) f.subfields) [] };

    ghost invariant = { λ f. is_some (all_read (vfd_field f.literals f.base) f.subfields) ≡ true };
}

impl<'a> BitFields<'a> {
    /// The fields of a variable field of at most 711 characters: V where a subfield is not lawful,
    /// as a literal where none is allowed.
    pub fn read(text: &'a [u8], literals: bool, base: NumberBase) -> Result<BitFields<'a>, Letter>
        requires { length text.now ≤ 711 }
        ensures { let fields = all_read (vfd_field literals base) (subfields_of (pieces_of text.now)) in
            MatchResult result (λ found. fields ≡ Some found) (λ fault. (fault ≡ letter.V) × (fields ≡ None)) }
    {
        let subfields = Subfields::new(text);
        if are_fields(literals, base, subfields.copied()) {
            Ok(BitFields {
                literals,
                base,
                subfields,
            })
        } else {
            Err(Letter::V)
        }
    }

    /// The next field, if one is left.
    pub fn next(&mut self) -> Option<BitField<'a>>
        ensures none { IfNone result ((self.old ≡ []) × (self.new ≡ [])) }
        ensures some { IfSome result (λ field. self.old ≡ bit_field_as field ∷ self.new) }
        ensures wide { IfSome result (λ field. 1 ≤ field.width) }
        ensures narrow { IfSome result (λ field. field.width ≤ 60) }
    {
        match self.subfields.next() {
            None => None,
            Some(text) => vfd_field(self.literals, self.base, text),
        }
    }

    /// The same fields, to go over them once more.
    pub fn copied(&self) -> BitFields<'a>
        ensures { result ≡ self.now }
    {
        BitFields {
            literals: self.literals,
            base: self.base,
            subfields: self.subfields.copied(),
        }
    }
}
