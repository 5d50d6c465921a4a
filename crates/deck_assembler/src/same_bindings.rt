//! Whether all names mean the same in two decks, so that no statement of one is bound otherwise in the
//! other.
ghost use Rattle.std.specs.Prelude.{◌≡◌, true};
ghost use Rattle.deck_assembler.specs.Joins.Rebindings.{MeanSame};

use crate::rebinding::Bindings;
use expr_forms::Name;
use use_blocks::BlockRow;

fn is_name_same(name: &Name, other: &Name) -> bool
    ensures { result ≡ true → name.now ≡ other.now }
{
    name.is_same(other)
}

/// Whether two blocks have one name, one base and one length.
fn is_row_same(row: &BlockRow, other: &BlockRow) -> bool
    ensures { result ≡ true → row.now ≡ other.now }
{
    if row.base() != other.base() {
        return false;
    }
    if row.words() != other.words() {
        return false;
    }
    is_name_same(row.name(), other.name())
}

/// Whether two decks have the same blocks.
fn are_rows_same(rows: &[BlockRow], others: &[BlockRow]) -> bool
    ensures { result ≡ true → rows.now ≡ others.now }
{
    let mut left = rows;
    let mut other = others;
    'rows: loop {
        match (left.split_first(), other.split_first()) {
            (None, None) => return true,
            (None, Some(_)) => return false,
            (Some(_), None) => return false,
            (Some((row, behind)), Some((found, beyond))) => {
                if !is_row_same(row, found) {
                    return false;
                }
                left = behind;
                other = beyond;
            }
        }
    }
}

/// Whether two decks have the same words of literals.
fn are_words_same(words: &[u64], others: &[u64]) -> bool
    ensures { result ≡ true → words.now ≡ others.now }
{
    words == others
}

impl Bindings<'_> {
    /// Whether both decks have the same symbols with the same values, the same literals, and the same
    /// blocks at the same bases. It takes as long as going over the symbols once.
    pub(crate) fn are_same(&self, other: &Bindings<'_>) -> bool
        ensures { result ≡ true → MeanSame self.now other.now }
    {
        are_rows_same(self.bases.rows(), other.bases.rows())
            && are_words_same(self.literals.words(), other.literals.words())
            && self.symbols.is_same(other.symbols)
    }
}
