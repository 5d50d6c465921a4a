//! The variable field of CON: what fills its words (COMPASS 60492600, CON).
ghost use Rattle.std.specs.Prelude.{◌≡◌, ◌≤◌, ◌∷◌, [], length, option_map, is_some, Some, None, IfSome, IfNone, MatchResult};
ghost use Rattle.definitions.specs.Pieces.{pieces_of, subfields_of};
ghost use Rattle.definitions.specs.Operands.{con_word, all_read};
ghost use Rattle.definitions.specs.declared.letter.Letter.TheVariants as letter;
ghost use Rattle.expr_forms.specs.Joins.Readings.{datum_as};

use crate::data_words::Datum;
use crate::expressions::Expr;
use crate::subfields::Subfields;
use definitions::{Letter, NumberBase};
use std::marker::Model;

/// What a subfield of CON is, if it is lawful: nothing, or an expression.
fn con_word(literals: bool, base: NumberBase, text: &[u8]) -> Option<Datum<'_>>
    requires { length text.now ≤ 711 }
    ensures { option_map datum_as result ≡ con_word literals base (pieces_of text.now) }
{
    match text.split_first() {
        None => Some(Datum::Zero),
        Some(_) => Some(Datum::Expression(Expr::plain(text, literals, base).ok()?)),
    }
}

/// Whether each subfield is lawful in CON.
fn are_words(literals: bool, base: NumberBase, subfields: Subfields<'_>) -> bool
    ensures { result ≡ is_some (all_read (con_word literals base) subfields.entry) }
{
    let mut rest = subfields;
    'subfields: loop {
        match rest.next() {
            None => return true,
            Some(text) => match con_word(literals, base, text) {
                None => return false,
                Some(_) => {}
            },
        }
    }
}

/// What fills the words of a CON, from left to right. Contracts see the list of what is left.
#[derive(Drop)]
pub struct ConWords<'a> {
    literals: bool,
    base: NumberBase,
    subfields: Subfields<'a>,
}

impl<'a> Model for ConWords<'a> {
    ghost use Rattle.std.specs.Prelude.{List, [], ◌≡◌, true, is_some, unwrap_or};
    ghost use Rattle.definitions.specs.Operands.{Datum, con_word, all_read};

    ghost Value = { List Datum };

    ghost view = { λ w. unwrap_or (all_read (con_word w.literals w.base) w.subfields) [] };

    ghost invariant = { λ w. is_some (all_read (con_word w.literals w.base) w.subfields) ≡ true };
}

impl<'a> ConWords<'a> {
    /// The words of a field of at most 711 characters: V where a subfield is not lawful, as a
    /// literal where none is allowed.
    pub fn read(text: &'a [u8], literals: bool, base: NumberBase) -> Result<ConWords<'a>, Letter>
        requires { length text.now ≤ 711 }
        ensures { let words = all_read (con_word literals base) (subfields_of (pieces_of text.now)) in
            MatchResult result (λ found. words ≡ Some found) (λ fault. (fault ≡ letter.V) × (words ≡ None)) }
    {
        let subfields = Subfields::new(text);
        if are_words(literals, base, subfields.copied()) {
            Ok(ConWords {
                literals,
                base,
                subfields,
            })
        } else {
            Err(Letter::V)
        }
    }

    /// What fills the next word, if one is left.
    pub fn next(&mut self) -> Option<Datum<'a>>
        ensures none { IfNone result ((self.old ≡ []) × (self.new ≡ [])) }
        ensures some { IfSome result (λ datum. self.old ≡ datum_as datum ∷ self.new) }
    {
        match self.subfields.next() {
            None => None,
            Some(text) => con_word(self.literals, self.base, text),
        }
    }

    /// The same words, to go over them once more.
    pub fn copied(&self) -> ConWords<'a>
        ensures { result ≡ self.now }
    {
        ConWords {
            literals: self.literals,
            base: self.base,
            subfields: self.subfields.copied(),
        }
    }
}
