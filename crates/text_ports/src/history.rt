//! Bytes that only proofs read. They take no memory, and the methods do nothing when they run.
ghost use Rattle.std.specs.Prelude.{◌≡◌, ℕ, List, [], ◌++◌};
ghost use Rattle.std.specs.Borrow.{ftrue};

use std::marker::Model;

/// Bytes that a text had no memory for. Clauses read them as `bytes`.
#[derive(Drop)]
pub(crate) struct History {
    pub ghost bytes: { List ℕ },
}

impl Model for History {
    ghost also_owns = { λ _. ftrue };
}

/// Bytes that are to be remembered.
#[derive(Clone, Copy, Drop)]
pub(crate) struct Lost<'a> {
    pub(crate) bytes: &'a [u8],
}

impl History {
    /// No bytes.
    pub(crate) fn new() -> History
        ensures { result.bytes ≡ [] }
    {
        History {}
    }

    /// These bytes behind the others.
    #[inline(always)]
    pub(crate) fn then(&self, _lost: &Lost<'_>) -> History
        ensures { result.bytes ≡ self.now.bytes ++ _lost.now.bytes.now }
    {
        History {}
    }
}
