//! The pieces of a variable field, one at a time: marks, counted items and runs of other characters
//! (COMPASS 60492600, subfields and data items).
ghost use Rattle.std.specs.Prelude.{◌≡◌, ◌≤◌, ◌<◌, ◌∷◌, true, length, slice_index, None, Some, option_map, is_none, IfSome};
ghost use Rattle.std.specs.List.{prefix_len};
ghost use Rattle.definitions.specs.CountedItems.{counted_item_at};
ghost use Rattle.definitions.specs.Pieces.{AtStart, AtEquals, Inside, Plain, mark_of, pieces_at, pieces_of};
ghost use Rattle.expr_forms.specs.Joins.Numbers.{AreDigits};
ghost use Rattle.expr_forms.specs.Joins.PiecesFound.{ends_run, mark_as, pieces_found};

use definitions::{ItemText, digit_count, item_at};

/// The five marks that separate, and the equals sign of a literal.
#[derive(Clone, Copy)]
pub enum Mark {
    Comma,
    Plus,
    Minus,
    Star,
    Slash,
    Equals,
}

/// A mark, an item, or a run of characters that are neither.
#[derive(Clone, Copy)]
pub(crate) enum Piece<'a> {
    Mark(Mark),
    Item(ItemText<'a>),
    Run(&'a [u8]),
}

/// A piece that begins a text, and the text behind it.
#[derive(Clone, Copy)]
pub(crate) struct PieceFound<'a> {
    pub(crate) piece: Piece<'a>,
    pub(crate) rest: &'a [u8],
}

/// The five marks that separate.
#[inline(always)]
pub(crate) fn mark_of(c: u8) -> Option<Mark>
    ensures { option_map mark_as result ≡ mark_of c }
{
    match c {
        b',' => Some(Mark::Comma),
        b'+' => Some(Mark::Plus),
        b'-' => Some(Mark::Minus),
        b'*' => Some(Mark::Star),
        b'/' => Some(Mark::Slash),
        _ => None,
    }
}

/// How many characters begin a text that are no mark.
#[inline(always)]
pub(crate) fn run_len(text: &[u8]) -> usize
    ensures len { result ≡ prefix_len (λ c. is_none (mark_of c)) text.now }
    ensures within { result ≤ length text.now }
{
    for (i, c) in text.iter().enumerate() {
        if mark_of(*c).is_some() {
            return i;
        }
    }
    text.len()
}

/// The digits that begin a text, if some do, and what is behind them: they are its first piece where a
/// run ends there.
#[inline(always)]
pub(crate) fn digits_at_start(text: &[u8]) -> Option<(&[u8], &[u8])>
    ensures pieces { IfSome result (λ found. ends_run found.1.now ≡ true → pieces_of text.now ≡ Plain found.0.now ∷ pieces_at Inside 0 found.1.now) }
    ensures digits { IfSome result (λ found. AreDigits found.0.now) }
    ensures shorter { IfSome result (λ found. length found.1.now < length text.now) }
{
    let count = digit_count(text);
    if count == 0 {
        return None;
    }
    Some(text.split_at(count))
}

/// Whether a run ends where this text begins.
#[inline(always)]
pub(crate) fn ends_run(text: &[u8]) -> bool
    ensures { result ≡ ends_run text.now }
{
    match text.split_first() {
        None => true,
        Some((c, _)) => mark_of(*c).is_some(),
    }
}

/// The run that begins a text with a character that is no mark, and what is behind it.
#[inline(always)]
fn run_at(text: &[u8]) -> PieceFound<'_>
    requires some { 0 < length text.now }
    requires run { mark_of (slice_index text.now 0) ≡ None }
    requires item { counted_item_at text.now ≡ None }
    ensures pieces { pieces_at AtEquals 0 text.now ≡ pieces_found (Some result) }
    ensures shorter { length result.rest.now < length text.now }
{
    let (run, rest) = text.split_at(1 + run_len(text.split_at(1).1));
    PieceFound {
        piece: Piece::Run(run),
        rest,
    }
}

/// The piece that begins a text where an item may begin, but no literal.
#[inline(always)]
pub(crate) fn piece_behind_equals(text: &[u8]) -> Option<PieceFound<'_>>
    ensures pieces { pieces_at AtEquals 0 text.now ≡ pieces_found result }
    ensures shorter { IfSome result (λ found. length found.rest.now < length text.now) }
{
    if let Some(span) = item_at(text) {
        return Some(PieceFound {
            piece: Piece::Item(span.item),
            rest: text.split_at(span.taken).1,
        });
    }
    let (c, rest) = text.split_first()?;
    match mark_of(*c) {
        Some(mark) => Some(PieceFound {
            piece: Piece::Mark(mark),
            rest,
        }),
        None => Some(run_at(text)),
    }
}

/// The piece that begins a text at the start of a field or behind one of the five marks.
#[inline(always)]
pub(crate) fn piece_at_start(text: &[u8]) -> Option<PieceFound<'_>>
    ensures pieces { pieces_at AtStart 0 text.now ≡ pieces_found result }
    ensures shorter { IfSome result (λ found. length found.rest.now < length text.now) }
{
    match text.split_first() {
        Some((b'=', rest)) => Some(PieceFound {
            piece: Piece::Mark(Mark::Equals),
            rest,
        }),
        Some(_) => piece_behind_equals(text),
        None => None,
    }
}
