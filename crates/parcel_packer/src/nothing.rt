//! Whether anything lies in runs.
ghost use Rattle.std.specs.Prelude.{◌≡◌};
ghost use Rattle.std.specs.List.{list_any};
ghost use Rattle.parcel_packer.specs.Joins.Spans.{has_parcel, lies_in};

use crate::spans::Span;

/// Whether a span has a parcel.
fn has_parcel(span: &Span) -> bool
    ensures { result ≡ has_parcel span.now }
{
    0 < span.count
}

/// Whether a run has one.
pub(crate) fn lies_in(run: &[Span]) -> bool
    ensures { result ≡ list_any has_parcel run.now }
{
    run.iter().any(|span| has_parcel(span))
}

/// Whether one of these runs has one.
pub(crate) fn lies_in_any(runs: &[Vec<Span>]) -> bool
    ensures { result ≡ list_any lies_in runs.now }
{
    runs.iter().any(|run| lies_in(run.as_slice()))
}
