//! The words of several runs: where two have a word, it is the later run's.
ghost use Rattle.std.specs.Prelude.{IfOk};
ghost use Rattle.definitions.specs.Kinds.{unit_bits};
ghost use Rattle.parcel_packer.specs.Joins.Spans.{DoRunsRise, parcels_in_runs};
ghost use Rattle.parcel_packer.specs.Joins.Filling.{IsFilled, latest_value};

use crate::gathering::run_words;
use crate::merging::merged;
use crate::spans::Span;
use crate::word_spans::WordSpan;
use definitions::DeckKind;
use std::alloc::{AllocError, Global};

/// The words of runs, the latest of which is the last: halves are filled and then merged.
pub(crate) fn runs_words(
    alloc: Global,
    kind: DeckKind,
    runs: &[Vec<Span>],
) -> Result<Vec<WordSpan>, AllocError>
    requires { DoRunsRise (parcels_in_runs (unit_bits kind) runs.now) }
    ensures { IfOk result (λ words. IsFilled (latest_value kind (parcels_in_runs (unit_bits kind) runs.now)) words.items) }
{
    if runs.is_empty() {
        return Ok(Vec::new(alloc));
    }
    if runs.len() == 1 {
        return run_words(alloc, kind, runs[0].as_slice());
    }
    let (early, late) = runs.split_at(runs.len() / 2);
    let older = runs_words(alloc, kind, early)?;
    let newer = runs_words(alloc, kind, late)?;
    merged(alloc, newer.as_slice(), older.as_slice())
}
