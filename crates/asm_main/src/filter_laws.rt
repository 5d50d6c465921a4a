//! A filter leaves what is lawful as it is.
ghost use Rattle.std.specs.Prelude.{◌≡◌, ℕ, List, true, false};
ghost use Rattle.std.specs.List.{list_all};
ghost use Rattle.asm_main.specs.declared.filtered.Filter.{Filter};
ghost use Rattle.asm_main.specs.Joins.Filters.{filtered, is_open, is_plain};

/// Input without tabs and small letters, whose last line has its line feed, stays as it is, whatever
/// is filtered.
pub fn plain_stays()
    ensures { (filter : Filter) → (bytes : List ℕ) → list_all is_plain bytes ≡ true → is_open false bytes ≡ false →
        filtered filter 0 bytes ≡ bytes }
{}
