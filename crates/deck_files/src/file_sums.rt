//! What a file has, known by its length and its digest.
ghost use Rattle.std.specs.Prelude.{◌≡◌, ◌≤◌, ◌<◌, ◌+◌, ◌^◌, ℕ, List, [], ◌∷◌, ◌++◌, length, min, IfOk, IfSome};
ghost use Rattle.deck_files.specs.FileSums.{Sums, has_just, is_same_sum, most_read, sum_of};

use definitions::is_same_text;
use sha2::{Digest, Sha256};
use std::alloc::Global;
use std::io::{self, Read};

/// How many bytes a file has, and their SHA-256 digest. Files of one sum are taken for the same.
#[derive(Clone, Copy)]
pub struct FileSum {
    pub(crate) length: u64,
    pub(crate) digest: [u8; 32],
}

impl FileSum {
    /// The sum of a file that has these bytes.
    pub(crate) fn of(bytes: &[u8]) -> FileSum
        ensures { result ≡ sum_of bytes.now }
    {
        FileSum {
            length: bytes.len() as u64,
            digest: Sha256::digest(bytes),
        }
    }

    /// Whether it is the other one.
    pub(crate) fn is_same(&self, other: &FileSum) -> bool
        ensures { result ≡ is_same_sum self.now other.now }
    {
        self.length == other.length && is_same_text(&self.digest, &other.digest)
    }

    /// How much is read of a file to see whether it has this sum: one byte more than it would have.
    fn most_read(&self) -> u64
        ensures { result ≡ most_read self.now }
    {
        self.length.saturating_add(1)
    }

    /// Whether a file has this sum: it is read up to one byte more than it would have then.
    pub(crate) fn is_of<R: Read + Drop>(&self, alloc: Global, file: R) -> io::Result<bool>
        ensures { IfOk result (λ just. IfSome (R.remaining file) (λ bytes. just ≡ has_just self.now bytes)) }
    {
        let mut bytes = Vec::new(alloc);
        let mut front = file.take(self.most_read());
        front.read_to_end(&mut bytes)?;
        Ok(FileSum::of(&bytes).is_same(self))
    }
}

/// The sum of a file, line by line.
#[derive(Drop)]
pub(crate) struct Summing {
    length: u64,
    hasher: Sha256,
}

impl Summing {
    /// No line yet.
    pub(crate) fn new() -> Summing
        ensures sums { Sums result [] }
        ensures none { result.length ≡ 0 }
    {
        Summing {
            length: 0,
            hasher: Sha256::new(),
        }
    }

    /// One more line, and its line feed.
    pub(crate) fn add_line(&mut self, line: &[u8])
        requires { (length line.now ≤ 256) × (self.old.length < 2 ^ 32) }
        ensures sums { (bytes : List ℕ) → Sums self.old bytes → Sums self.new (bytes ++ (line.now ++ 10 ∷ [])) }
        ensures longer { self.new.length ≤ self.old.length + 257 }
    {
        self.hasher.update(line);
        self.hasher.update(b"\n");
        self.length += line.len() as u64 + 1;
    }

    /// The sum of a file that has these lines.
    pub(crate) fn sum(self) -> FileSum
        ensures { (bytes : List ℕ) → Sums self bytes → result ≡ sum_of bytes }
    {
        FileSum {
            length: self.length,
            digest: self.hasher.finalize(),
        }
    }
}
