//! The variable field of DATA: what fills its words (COMPASS 60492600, DATA).
ghost use Rattle.std.specs.Prelude.{◌≡◌, ◌==◌, ◌≤◌, ◌<◌, ◌∷◌, [], true, length, option_copied, option_map, is_some, unwrap_or, Some, None, IfSome, IfNone, MatchResult};
ghost use Rattle.std.specs.List.{filter, list_all};
ghost use Rattle.definitions.specs.Characters.{comma};
ghost use Rattle.definitions.specs.Pieces.{Inside, ByMark, IsMark, spot_behind, pieces_at, pieces_of, subfields_of};
ghost use Rattle.definitions.specs.Symbols.{number_read};
ghost use Rattle.definitions.specs.Expressions.{NoSign};
ghost use Rattle.definitions.specs.Sizes.{data_words};
ghost use Rattle.definitions.specs.declared.deck_kind.DeckKind as kinds;
ghost use Rattle.definitions.specs.Operands.{NumberWord, CountedItemWords, data_word, all_read, onto_all};
ghost use Rattle.definitions.specs.declared.letter.Letter.TheVariants as letter;
ghost use Rattle.expr_forms.specs.Joins.Elements.{sign_as};
ghost use Rattle.expr_forms.specs.Joins.Numbers.{number_as};
ghost use Rattle.expr_forms.specs.Joins.DataTexts.{from_comma, is_digit_to, is_of_numbers, last_digit, IsNumberTo};
ghost use Rattle.definitions.specs.Laws.ItemTexts.{item_as};
ghost use Rattle.expr_forms.specs.Joins.PiecesFound.{mark_as};
ghost use Rattle.expr_forms.specs.Joins.Readings.{datum_as, alone, signed_word};

use crate::elements::Sign;
use crate::expressions::Expr;
use crate::numbers::{Number, number_read, with_digit, with_scale};
use crate::pieces::{Mark, Piece, piece_at_start};
use crate::subfields::Subfields;
use definitions::{ItemText, Letter, NumberBase};
use std::marker::Model;

/// What fills words of DATA or CON.
#[derive(Drop)]
pub enum Datum<'a> {
    /// Nothing is written: one word that is 0.
    Zero,
    /// A number of DATA, which fills one word.
    Number(Sign, Number),
    /// A counted item of DATA, which fills as many words as it needs.
    Item(ItemText<'a>),
    /// An expression of CON, which fills one word.
    Expression(Expr<'a>),
}

/// The number of DATA that a run of characters is, where nothing is behind it.
#[inline(always)]
fn lone_number<'a>(
    base: NumberBase,
    sign: Sign,
    run: &'a [u8],
    behind: &'a [u8],
) -> Option<Datum<'a>>
    ensures { option_map datum_as result ≡ alone (option_map (NumberWord (sign_as sign)) (number_read base run.now)) (pieces_at Inside 0 behind.now) }
{
    match behind.split_first() {
        Some(_) => None,
        None => match number_read(base, run) {
            Some(number) => Some(Datum::Number(sign, number)),
            None => None,
        },
    }
}

/// The item of DATA, where nothing is behind it.
#[inline(always)]
fn lone_item<'a>(item: ItemText<'a>, behind: &'a [u8]) -> Option<Datum<'a>>
    ensures { option_map datum_as result ≡ alone (Some (CountedItemWords (item_as item.entry))) (pieces_at Inside 0 behind.now) }
{
    match behind.split_first() {
        Some(_) => None,
        None => Some(Datum::Item(item)),
    }
}

/// The number of DATA behind its sign.
fn signed_number(base: NumberBase, sign: Sign, text: &[u8]) -> Option<Datum<'_>>
    ensures { option_map datum_as result ≡ signed_word base (sign_as sign) (pieces_of text.now) }
{
    let found = piece_at_start(text)?;
    match found.piece {
        Piece::Run(run) => lone_number(base, sign, run, found.rest),
        _ => None,
    }
}

/// The word of DATA that begins with a mark, which this text follows.
fn data_behind(base: NumberBase, mark: Mark, text: &[u8]) -> Option<Datum<'_>>
    ensures { option_map datum_as result ≡ data_word base (IsMark (mark_as mark) ∷ pieces_at (spot_behind (ByMark (mark_as mark))) 0 text.now) }
{
    match mark {
        Mark::Plus => signed_number(base, Sign::Plus, text),
        Mark::Minus => signed_number(base, Sign::Minus, text),
        _ => None,
    }
}

/// What a subfield of DATA is, if it is lawful: nothing, a number with or without a sign, or an
/// item.
#[inline(always)]
fn data_word(base: NumberBase, text: &[u8]) -> Option<Datum<'_>>
    ensures { option_map datum_as result ≡ data_word base (pieces_of text.now) }
{
    match piece_at_start(text) {
        None => Some(Datum::Zero),
        Some(found) => match found.piece {
            Piece::Run(run) => lone_number(base, Sign::Absent, run, found.rest),
            Piece::Item(item) => lone_item(item, found.rest),
            Piece::Mark(mark) => data_behind(base, mark, found.rest),
        },
    }
}

/// Whether a character is a digit up to this one.
#[inline(always)]
fn is_digit_to(last: u8, c: u8) -> bool
    ensures { result ≡ is_digit_to last c }
{
    b'0' <= c && c <= last
}

/// The number of the digits of a base up to the next comma, or 2^60 where it is greater, and the text
/// behind the comma, if one is there.
#[inline(always)]
fn number_to_comma(base: NumberBase, text: &[u8]) -> Option<(u64, Option<&[u8]>)>
    ensures number { IfSome result (λ found. IsNumberTo base text.now (from_comma (option_copied found.1)) found.0) }
    ensures within { IfSome result (λ found. IfSome found.1 (λ rest. length rest.now ≤ length text.now)) }
{
    let last = last_digit(base);
    let (first, behind) = text.split_first()?;
    if !is_digit_to(last, *first) {
        return None;
    }
    let mut value = with_digit(base, 0, *first);
    let mut rest = behind;
    'digits: loop {
        match rest.split_first() {
            None => return Some((value, None)),
            Some((b',', behind)) => return Some((value, Some(behind))),
            Some((c, behind)) => {
                if !is_digit_to(last, *c) {
                    return None;
                }
                value = with_digit(base, value, *c);
                rest = behind;
            }
        }
    }
}

/// The number that the next subfield of DATA is, where it is digits and nothing else and fits the
/// base. Else none is taken.
#[inline(always)]
fn next_number(base: NumberBase, subfields: &mut Subfields<'_>) -> Option<Number>
    ensures none { IfNone result (subfields.new ≡ subfields.old) }
    ensures some { IfSome result (λ number. all_read (data_word base) subfields.old ≡ onto_all (Some (NumberWord NoSign (number_as number))) (all_read (data_word base) subfields.new)) }
    ensures fewer { IfSome result (λ number. length subfields.new < length subfields.old) }
{
    let text = subfields.rest?;
    let (value, rest) = number_to_comma(base, text)?;
    subfields.rest = rest;
    Some(with_scale(value, 0))
}

/// What the next subfield of DATA is, if one is left, and if it is lawful.
#[inline(always)]
fn next_word<'a>(base: NumberBase, subfields: &mut Subfields<'a>) -> Option<Option<Datum<'a>>>
    ensures none { IfNone result ((subfields.old ≡ []) × (subfields.new ≡ [])) }
    ensures some { IfSome result (λ word. all_read (data_word base) subfields.old ≡ onto_all (option_map datum_as word) (all_read (data_word base) subfields.new)) }
    ensures fewer { IfSome result (λ word. length subfields.new < length subfields.old) }
{
    match subfields.next() {
        None => None,
        Some(text) => Some(data_word(base, text)),
    }
}

/// The last digit of a base.
#[inline(always)]
fn last_digit(base: NumberBase) -> u8
    ensures { result ≡ last_digit base }
{
    match base {
        NumberBase::Decimal => b'9',
        NumberBase::Octal => b'7',
    }
}

/// How many commas a text has, where it is commas and digits up to this one and nothing else.
#[inline(always)]
fn comma_count(last: u8, text: &[u8]) -> Option<u32>
    requires { length text.now ≤ 711 }
    ensures all { IfSome result (λ count. list_all (is_of_numbers last) text.now ≡ true) }
    ensures count { IfSome result (λ count. count ≡ length (filter (λ c. c == comma) text.now)) }
    ensures few { IfSome result (λ count. count ≤ 711) }
{
    if let [_, _, b'A'..=b'Z', ..] = text {
        return None;
    }
    let mut count = 0;
    let mut all = true;
    for c in text {
        count += u32::from(*c == b',');
        all &= *c == b',' || is_digit_to(last, *c);
    }
    if all { Some(count) } else { None }
}

/// How many words of DATA a text is, where it is commas and digits of its base and nothing else.
#[inline(always)]
fn number_count(base: NumberBase, text: &[u8]) -> Option<u32>
    requires { length text.now ≤ 711 }
    ensures lawful { IfSome result (λ count. is_some (all_read (data_word base) (subfields_of (pieces_of text.now))) ≡ true) }
    ensures words { IfSome result (λ count. (kind : kinds.DeckKind) → data_words kind (unwrap_or (all_read (data_word base) (subfields_of (pieces_of text.now))) []) ≡ count) }
    ensures few { IfSome result (λ count. count ≤ 712) }
{
    match comma_count(last_digit(base), text) {
        None => None,
        Some(commas) => Some(commas + 1),
    }
}

/// Whether each subfield is lawful in DATA.
#[inline(never)]
fn are_words(base: NumberBase, subfields: Subfields<'_>) -> bool
    ensures { result ≡ is_some (all_read (data_word base) subfields.entry) }
{
    let mut rest = subfields;
    'subfields: loop {
        match next_number(base, &mut rest) {
            Some(_) => {}
            None => match next_word(base, &mut rest) {
                None => return true,
                Some(None) => return false,
                Some(Some(_)) => {}
            },
        }
    }
}

/// Whether a field is lawful in DATA.
fn is_lawful(base: NumberBase, text: &[u8]) -> bool
    requires { length text.now ≤ 711 }
    ensures { result ≡ is_some (all_read (data_word base) (subfields_of (pieces_of text.now))) }
{
    match number_count(base, text) {
        Some(_) => true,
        None => are_words(base, Subfields::new(text)),
    }
}

/// What fills the words of a DATA, from left to right. Contracts see the list of what is left.
#[derive(Drop)]
pub struct DataWords<'a> {
    pub(crate) base: NumberBase,
    pub(crate) subfields: Subfields<'a>,
}

impl<'a> Model for DataWords<'a> {
    ghost use Rattle.std.specs.Prelude.{List, [], ◌≡◌, true, is_some, unwrap_or};
    ghost use Rattle.definitions.specs.Operands.{Datum, data_word, all_read};

    ghost Value = { List Datum };

    ghost view = { λ w. unwrap_or (all_read (data_word w.base) w.subfields) [] };

    ghost invariant = { λ w. is_some (all_read (data_word w.base) w.subfields) ≡ true };
}

impl<'a> DataWords<'a> {
    /// The words of a field of at most 711 characters: V where a subfield is not lawful.
    #[inline(never)]
    pub fn read(text: &'a [u8], base: NumberBase) -> Result<DataWords<'a>, Letter>
        requires { length text.now ≤ 711 }
        ensures { let words = all_read (data_word base) (subfields_of (pieces_of text.now)) in
            MatchResult result (λ found. words ≡ Some found) (λ fault. (fault ≡ letter.V) × (words ≡ None)) }
    {
        if is_lawful(base, text) {
            Ok(DataWords::of_lawful(text, base))
        } else {
            Err(Letter::V)
        }
    }

    /// The words of a field of at most 711 characters that is known to be lawful.
    #[inline(always)]
    fn of_lawful(text: &'a [u8], base: NumberBase) -> DataWords<'a>
        requires short { length text.now ≤ 711 }
        requires lawful { is_some (all_read (data_word base) (subfields_of (pieces_of text.now))) ≡ true }
        ensures { Some result ≡ all_read (data_word base) (subfields_of (pieces_of text.now)) }
    {
        DataWords {
            base,
            subfields: Subfields::new(text),
        }
    }

    /// The number base and the text of the words that are left, if some are.
    #[inline(always)]
    fn field(&self) -> Option<(NumberBase, &'a [u8])>
        ensures words { IfSome result (λ field. all_read (data_word field.0) (subfields_of (pieces_of field.1.now)) ≡ Some self.now) }
        ensures short { IfSome result (λ field. length field.1.now ≤ 711) }
    {
        let text = self.subfields.rest?;
        Some((self.base, text))
    }

    /// How many words are left, where commas and digits of their base alone spell them.
    #[inline(always)]
    pub fn number_count(&self) -> Option<u32>
        ensures words { IfSome result (λ count. (kind : kinds.DeckKind) → data_words kind self.now ≡ count) }
        ensures few { IfSome result (λ count. count ≤ 712) }
    {
        match self.field() {
            None => None,
            Some((base, text)) => number_count(base, text),
        }
    }

    /// The next word, where it is digits and nothing else. Else none is taken.
    #[inline(always)]
    pub fn next_number(&mut self) -> Option<Number>
        ensures none { IfNone result (self.new ≡ self.old) }
        ensures some { IfSome result (λ number. self.old ≡ NumberWord NoSign (number_as number) ∷ self.new) }
    {
        next_number(self.base, &mut self.subfields)
    }

    /// What fills the next words, if anything is left. It is not inlined, since its locals are filled
    /// wherever it is.
    #[inline(never)]
    pub fn next(&mut self) -> Option<Datum<'a>>
        ensures none { IfNone result ((self.old ≡ []) × (self.new ≡ [])) }
        ensures some { IfSome result (λ datum. self.old ≡ datum_as datum ∷ self.new) }
    {
        match next_word(self.base, &mut self.subfields) {
            None => None,
            Some(word) => word,
        }
    }

    /// The same words, to go over them once more.
    pub fn copied(&self) -> DataWords<'a>
        ensures { result ≡ self.now }
    {
        DataWords {
            base: self.base,
            subfields: self.subfields.copied(),
        }
    }
}
