//! What a journal asks of its file.

use crate::marks::Mark;

/// The file of a journal, as the journal uses it. Each call is one step that the file was asked, with its
/// answer: whether it was done. The member says which steps a file may have behind it.
pub trait RecordsFile {
    ghost use Rattle.std.specs.Prelude.{List};
    ghost use Rattle.journal.specs.JournalFiles.{Append, CutTo, Note, Step, Sync, TakesStep};

    // What the file was asked so far, and whether it did so, the newest first.
    ghost has_done: { Self → List Step → Type 0 };

    /// Writes bytes behind all others: whether all of them were. Where they were not, some may stand there.
    fn append(&mut self, bytes: &[u8]) -> bool
        ensures { TakesStep has_done self.old (Append bytes.now, result) self.new };

    /// Waits until all that was written is kept, also if the machine fails: whether it is.
    fn sync(&mut self) -> bool
        ensures { TakesStep has_done self.old (Sync, result) self.new };

    /// Cuts off what stands behind so many bytes: whether nothing does.
    fn cut_to(&mut self, bytes: u64) -> bool
        ensures { TakesStep has_done self.old (CutTo bytes, result) self.new };

    /// Notes beside the journal how much of it is kept: whether that is noted.
    fn note(&mut self, mark: Mark) -> bool
        ensures { TakesStep has_done self.old (Note mark, result) self.new };
}
