//! Words over other words: where both are, it is the newer ones.
ghost use Rattle.std.specs.Prelude.{◌≡◌, ◌+◌, ◌^◌, ◌≤◌, ◌++◌, IfOk, OnOk, drop, length};
ghost use Rattle.std.specs.Option.{option_or};
ghost use Rattle.parcel_packer.specs.Joins.Laying.{with_all_stored};
ghost use Rattle.parcel_packer.specs.Joins.Filling.{IsFilled, DoSpansRise, IsBetween, as_stored, found, part_of};

use crate::word_spans::WordSpan;
use std::alloc::{AllocError, Global};

/// What is above the offset of each word of a block.
const PAST: u32 = 1 << 20;

/// Appends the words of a span from one offset up to another, if there are any.
fn push_part(
    spans: &mut Vec<WordSpan>,
    span: WordSpan,
    from: u32,
    to: u32,
) -> Result<(), AllocError>
    requires { span.offset + span.count ≤ 2 ^ 20 }
    ensures { OnOk result (spans.new.items ≡ spans.old.items ++ part_of span from to) }
{
    let begin = span.offset.max(from);
    let end = (span.offset + span.count).min(to);
    if begin < end {
        spans.push(WordSpan {
            offset: begin,
            count: end - begin,
            value: span.value,
        })?;
    }
    Ok(())
}

/// Appends the words of older spans, those behind a place, from one offset up to another; the answer is
/// the place of the spans that reach further.
fn push_between(
    spans: &mut Vec<WordSpan>,
    older: &[WordSpan],
    place: usize,
    from: u32,
    to: u32,
) -> Result<usize, AllocError>
    requires rise { DoSpansRise 0 (drop place older.now) (2 ^ 20) }
    requires order { from ≤ to }
    ensures { IfOk result (λ after. IsBetween (drop place older.now) from to spans.old.items spans.new.items (drop after older.now)) }
{
    let mut ahead = place;
    while ahead < older.len() && older[ahead].offset < to {
        let span = older[ahead];
        push_part(spans, span, from, to)?;
        if to < span.offset + span.count {
            return Ok(ahead);
        }
        ahead += 1;
    }
    Ok(ahead)
}

/// The words of a block with others over them, by increasing offset. This takes as long as the lists have
/// spans, however many words these are.
pub fn words_over(
    alloc: Global,
    newer: &[WordSpan],
    older: &[WordSpan],
) -> Result<Vec<WordSpan>, AllocError>
    requires newer { DoSpansRise 0 newer.now (2 ^ 20) }
    requires older { DoSpansRise 0 older.now (2 ^ 20) }
    ensures words { IfOk result (λ spans. as_stored spans.items ≡ with_all_stored (as_stored newer.now) (as_stored older.now)) }
    ensures rise { IfOk result (λ spans. DoSpansRise 0 spans.items (2 ^ 20)) }
{
    merged(alloc, newer, older)
}

/// The words of two lists of spans by increasing offset; where both have a word, it is the newer
/// list's.
pub(crate) fn merged(
    alloc: Global,
    newer: &[WordSpan],
    older: &[WordSpan],
) -> Result<Vec<WordSpan>, AllocError>
    requires newer { DoSpansRise 0 newer.now (2 ^ 20) }
    requires older { DoSpansRise 0 older.now (2 ^ 20) }
    ensures { IfOk result (λ spans. IsFilled (λ offset. option_or (found offset newer.now) (found offset older.now)) spans.items) }
{
    let mut spans = Vec::new(alloc);
    let mut place = 0;
    let mut from = 0;
    for next in newer {
        place = push_between(&mut spans, older, place, from, next.offset)?;
        spans.push(*next)?;
        from = next.offset + next.count;
    }
    push_between(&mut spans, older, place, from, PAST)?;
    Ok(spans)
}

/// The same, where the newer list is given away: over no older words it is the answer.
pub(crate) fn laid_over(
    alloc: Global,
    newer: Vec<WordSpan>,
    older: &[WordSpan],
) -> Result<Vec<WordSpan>, AllocError>
    requires newer { DoSpansRise 0 newer.items (2 ^ 20) }
    requires older { DoSpansRise 0 older.now (2 ^ 20) }
    ensures { IfOk result (λ spans. IsFilled (λ offset. option_or (found offset newer.items) (found offset older.now)) spans.items) }
{
    if older.is_empty() {
        return Ok(newer);
    }
    merged(alloc, newer.as_slice(), older)
}
