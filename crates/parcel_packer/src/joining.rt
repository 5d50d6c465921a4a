//! Equal words one behind the other as one span.
ghost use Rattle.std.specs.Prelude.{◌≡◌, ◌+◌, ◌^◌, ◌≤◌, IfOk, IfSome, OnOk};
ghost use Rattle.parcel_packer.specs.Joins.Filling.{DoSpansRise, as_stored};
ghost use Rattle.parcel_packer.specs.Joins.Joining.{AreJoined, IsPushed};

use crate::word_spans::WordSpan;
use std::alloc::{AllocError, Global};

/// Both spans as one, where the second goes on with the words of the first.
fn both(first: WordSpan, second: WordSpan) -> Option<WordSpan>
    requires { second.offset + second.count ≤ 2 ^ 20 }
    ensures { IfSome result (λ span. AreJoined first second span) }
{
    let end = u64::from(first.offset) + u64::from(first.count);
    if first.value == second.value && end == u64::from(second.offset) {
        Some(WordSpan {
            offset: first.offset,
            count: first.count + second.count,
            value: first.value,
        })
    } else {
        None
    }
}

/// Appends a span; where it goes on with the words of the last one, both are one.
pub(crate) fn push_joined(spans: &mut Vec<WordSpan>, next: WordSpan) -> Result<(), AllocError>
    requires { next.offset + next.count ≤ 2 ^ 20 }
    ensures { OnOk result (IsPushed spans.old.items next spans.new.items) }
{
    let len = spans.len();
    if len > 0 {
        if let Some(more) = both(spans[len - 1], next) {
            spans[len - 1] = more;
            return Ok(());
        }
    }
    spans.push(next)?;
    Ok(())
}

/// Whether a span has the value of the one before it. It saves work, and nothing rests on it: where none
/// has, none goes on with the words of another.
fn has_equals(spans: &[WordSpan]) -> bool {
    for place in 1..spans.len() {
        if spans[place].value == spans[place - 1].value {
            return true;
        }
    }
    false
}

/// The same words, those that are equal and stand one behind the other in one span.
pub(crate) fn joined(alloc: Global, spans: Vec<WordSpan>) -> Result<Vec<WordSpan>, AllocError>
    requires { DoSpansRise 0 spans.items (2 ^ 20) }
    ensures words { IfOk result (λ joined. as_stored joined.items ≡ as_stored spans.items) }
    ensures rise { IfOk result (λ joined. DoSpansRise 0 joined.items (2 ^ 20)) }
{
    if !has_equals(spans.as_slice()) {
        return Ok(spans);
    }
    joined_spans(alloc, spans.as_slice())
}

/// The same, in memory of its own.
fn joined_spans(alloc: Global, spans: &[WordSpan]) -> Result<Vec<WordSpan>, AllocError>
    requires { DoSpansRise 0 spans.now (2 ^ 20) }
    ensures words { IfOk result (λ joined. as_stored joined.items ≡ as_stored spans.now) }
    ensures rise { IfOk result (λ joined. DoSpansRise 0 joined.items (2 ^ 20)) }
{
    let mut joined = Vec::new(alloc);
    for span in spans {
        push_joined(&mut joined, *span)?;
    }
    Ok(joined)
}
