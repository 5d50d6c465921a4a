//! The last steps of a file that is written whole: it has the path of the old one only where all of it was written
//! and kept.
ghost use Rattle.std.specs.Prelude.{◌≡◌, ℕ, List, Option, ◌⊎◌, IsOk, OnErr, OnOk};
ghost use Rattle.std.specs.Io.KnownBytes.{Appends};
ghost use Rattle.deck_files.specs.Steps.{ChangesOnly, Done, KeepFolder, Refused, TakesSteps};
ghost use Rattle.deck_files.specs.WholeFiles.{Replaces, kept_in_place, placed};

use std::io;
use std::io::Write;

/// The files that are written whole, by their paths. Each call is one step, as those of a `Folder` are, which
/// lists besides which decks have files in it; a step that is refused changes nothing.
pub(crate) trait WholeFiles {
    ghost use Rattle.std.specs.Prelude.{List};
    ghost use Rattle.deck_files.specs.Steps.{Step, TakesStep, done_if, gave_if};
    ghost use Rattle.deck_files.specs.Steps.{Keep, KeepFolder, Make, Put, Remove};

    /// A file that was made, and is written.
    type NewFile: Write + Drop;

    // What was asked so far, and what was answered, the newest first.
    ghost has_done: { Self → List Step → Type 0 };

    /// Makes a file where nothing stands.
    fn make(&mut self, path: &str) -> io::Result<Self::NewFile>
        ensures { TakesStep has_done self.old (Make path.now, gave_if Self.NewFile.contents result) self.new };

    /// Waits until all that was written into a new file is kept, also if the machine fails.
    fn keep(&mut self, file: &Self::NewFile) -> io::Result<()>
        ensures { TakesStep has_done self.old (Keep (Self.NewFile.contents file.now), done_if result) self.new };

    /// Gives a new file, which was made at one path, another, in place of what stood there: at each moment that
    /// path has the one or the other, whole.
    fn put(&mut self, file: Self::NewFile, new: &str, path: &str) -> io::Result<()>
        ensures { TakesStep has_done self.old (Put (Self.NewFile.contents file) new.now path.now, done_if result) self.new };

    /// Takes the file at a path away, if one stands there.
    fn remove(&mut self, path: &str) -> io::Result<()>
        ensures { TakesStep has_done self.old (Remove path.now, done_if result) self.new };

    /// Waits until it is kept which files a folder has, also if the machine fails.
    fn keep_folder(&mut self, folder: &str) -> io::Result<()>
        ensures { TakesStep has_done self.old (KeepFolder folder.now, done_if result) self.new };
}

/// Waits until a new file is kept, and gives it the path of the old one.
fn keep_and_put<W: WholeFiles>(
    files: &mut W,
    file: W::NewFile,
    new: &str,
    path: &str,
) -> io::Result<()>
    ensures placed { OnOk result (TakesSteps W.has_done files.old (placed (W.NewFile.contents file) new.now path.now) files.new) }
    ensures fault { OnErr result (ChangesOnly W.has_done (λ at. at ≡ new.now) files.old files.new) }
{
    match files.keep(&file) {
        Ok(()) => {}
        Err(error) => return Err(error),
    }
    match files.put(file, new, path) {
        Ok(()) => Ok(()),
        Err(error) => Err(error),
    }
}

/// Gives a new file that was filled the path of the old one, once it is kept. Where that fails it is taken away,
/// as far as that can be done.
fn place_filled<W: WholeFiles>(
    files: &mut W,
    file: W::NewFile,
    new: &str,
    path: &str,
) -> io::Result<()>
    ensures placed { OnOk result (TakesSteps W.has_done files.old (placed (W.NewFile.contents file) new.now path.now) files.new) }
    ensures fault { OnErr result (ChangesOnly W.has_done (λ at. at ≡ new.now) files.old files.new) }
{
    match keep_and_put(files, file, new, path) {
        Ok(()) => Ok(()),
        Err(error) => {
            let _ = files.remove(new);
            Err(error)
        }
    }
}

/// Ends a new file that was filled, or was not: it gets the path of the old one where all went well, and else
/// it is taken away, as far as that can be done, and what has that path stays.
pub(crate) fn place<W: WholeFiles>(
    files: &mut W,
    file: W::NewFile,
    new: &str,
    path: &str,
    filled: io::Result<()>,
) -> io::Result<()>
    ensures filled { OnOk result (IsOk filled) }
    ensures placed { OnOk result (TakesSteps W.has_done files.old (placed (W.NewFile.contents file) new.now path.now) files.new) }
    ensures fault { OnErr result (ChangesOnly W.has_done (λ at. at ≡ new.now) files.old files.new) }
{
    match filled {
        Ok(()) => place_filled(files, file, new, path),
        Err(error) => {
            let _ = files.remove(new);
            Err(error)
        }
    }
}

/// Ends a new file as `place` does, and waits until it is kept which files its folder has. Where only that fails,
/// the new file has the path.
pub(crate) fn place_in_folder<W: WholeFiles>(
    files: &mut W,
    file: W::NewFile,
    new: &str,
    path: &str,
    folder: &str,
    filled: io::Result<()>,
) -> io::Result<()>
    ensures filled { OnOk result (IsOk filled) }
    ensures placed { OnOk result (TakesSteps W.has_done files.old (kept_in_place (W.NewFile.contents file) new.now path.now folder.now Done) files.new) }
    ensures fault { OnErr result (ChangesOnly W.has_done (λ at. at ≡ new.now) files.old files.new
        ⊎ (IsOk filled × TakesSteps W.has_done files.old (kept_in_place (W.NewFile.contents file) new.now path.now folder.now Refused) files.new)) }
{
    match place(files, file, new, path, filled) {
        Ok(()) => {}
        Err(error) => return Err(error),
    }
    match files.keep_folder(folder) {
        Ok(()) => Ok(()),
        Err(error) => Err(error),
    }
}

/// Writes these bytes into a new file, which gets the path of the old one once all of them are kept.
fn fill_and_place<W: WholeFiles>(
    files: &mut W,
    file: W::NewFile,
    new: &str,
    path: &str,
    bytes: &[u8],
) -> io::Result<()>
    ensures placed { OnOk result ((kept : Option (List ℕ)) × Appends (W.NewFile.contents file) kept bytes.now
        × TakesSteps W.has_done files.old (placed kept new.now path.now) files.new) }
    ensures fault { OnErr result (ChangesOnly W.has_done (λ at. at ≡ new.now) files.old files.new) }
{
    let mut file = file;
    match file.write_all(bytes) {
        Ok(()) => place_filled(files, file, new, path),
        Err(error) => {
            let _ = files.remove(new);
            Err(error)
        }
    }
}

/// Writes these bytes into a new file, which gets the path of the old one once all of them are kept, and waits
/// until it is kept which files its folder has. Where only that fails, the new file has the path.
pub(crate) fn fill_in_folder<W: WholeFiles>(
    files: &mut W,
    file: W::NewFile,
    new: &str,
    path: &str,
    folder: &str,
    bytes: &[u8],
) -> io::Result<()>
    ensures placed { OnOk result ((kept : Option (List ℕ)) × Appends (W.NewFile.contents file) kept bytes.now
        × TakesSteps W.has_done files.old (kept_in_place kept new.now path.now folder.now Done) files.new) }
    ensures fault { OnErr result (ChangesOnly W.has_done (λ at. at ≡ new.now) files.old files.new
        ⊎ ((kept : Option (List ℕ)) × Appends (W.NewFile.contents file) kept bytes.now
        × TakesSteps W.has_done files.old (kept_in_place kept new.now path.now folder.now Refused) files.new)) }
{
    match fill_and_place(files, file, new, path, bytes) {
        Ok(()) => {}
        Err(error) => return Err(error),
    }
    match files.keep_folder(folder) {
        Ok(()) => Ok(()),
        Err(error) => Err(error),
    }
}

/// Makes the file at a path anew with these bytes: first another one, in place of what stands at its path, which
/// takes the place of the old one once all of them are kept. A link there is replaced, and not followed.
pub(crate) fn replace<W: WholeFiles>(
    files: &mut W,
    new: &str,
    path: &str,
    bytes: &[u8],
) -> io::Result<()>
    ensures replaced { OnOk result (Replaces W.has_done new.now path.now bytes.now files.old files.new) }
    ensures fault { OnErr result (ChangesOnly W.has_done (λ at. at ≡ new.now) files.old files.new) }
{
    match files.remove(new) {
        Ok(()) => {}
        Err(error) => return Err(error),
    }
    let file = match files.make(new) {
        Ok(file) => file,
        Err(error) => return Err(error),
    };
    match fill_and_place(files, file, new, path, bytes) {
        Ok(()) => Ok(()),
        Err(error) => Err(error),
    }
}
