//! A folder that refuses one of its calls.
use deck_files::{DeckEntry, Folder, Standing};
use std::alloc::Global;
use std::io;
use std::io::ErrorKind;

/// A folder that refuses one call, the one that so many others, this one among them, lead to.
#[derive(Drop)]
pub struct Refusing<F> {
    pub files: F,
    pub calls: u64,
}

impl<F> Refusing<F> {
    /// The folder, which is called once more, unless this call is the one.
    fn pass(&mut self) -> io::Result<&mut F> {
        let calls = self.calls;
        self.calls = calls.saturating_sub(1);
        if calls == 1 {
            return Err(io::Error::from(ErrorKind::StorageFull));
        }
        Ok(&mut self.files)
    }
}

impl<F: Folder> Folder for Refusing<F> {
    ghost use Rattle.std.specs.Prelude.{⊤};

    type File = F::File;

    type NewFile = F::NewFile;

    ghost has_done = { λ _ _. ⊤ };

    fn look(&mut self, path: &str) -> io::Result<Standing> {
        self.pass()?.look(path)
    }

    fn open(&mut self, path: &str) -> io::Result<F::File> {
        self.pass()?.open(path)
    }

    fn make(&mut self, path: &str) -> io::Result<F::NewFile> {
        self.pass()?.make(path)
    }

    fn take_after(&mut self, file: &F::NewFile, path: &str) -> io::Result<()> {
        self.pass()?.take_after(file, path)
    }

    fn keep(&mut self, file: &F::NewFile) -> io::Result<()> {
        self.pass()?.keep(file)
    }

    fn put(&mut self, file: F::NewFile, new: &str, path: &str) -> io::Result<()> {
        self.pass()?.put(file, new, path)
    }

    fn rename(&mut self, from: &str, to: &str) -> io::Result<()> {
        self.pass()?.rename(from, to)
    }

    fn link(&mut self, path: &str, other: &str) -> io::Result<()> {
        self.pass()?.link(path, other)
    }

    fn remove(&mut self, path: &str) -> io::Result<()> {
        self.pass()?.remove(path)
    }

    fn keep_folder(&mut self, folder: &str) -> io::Result<()> {
        self.pass()?.keep_folder(folder)
    }

    fn decks(&mut self, alloc: Global, folder: &str) -> io::Result<Vec<DeckEntry>> {
        self.pass()?.decks(alloc, folder)
    }
}
