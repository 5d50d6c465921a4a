//! Files that are written whole: whoever reads one finds the file that was there, or the new one.
ghost use Rattle.std.specs.Prelude.{◌≡◌, ◌++◌, codes, decimal, string_bytes, IfOk};

use crate::placing::{WholeFiles, fill_in_folder, place_in_folder, replace};
use crate::size_limits::{Limited, NO_LIMIT, size_limit};
use crate::target_paths::target_of;
use crate::unwaiting::check_stands;
use std::alloc::{AllocError, Global};
use std::fs;
use std::fs::{Metadata, OpenFile, OpenOptions};
use std::io::{self, ErrorKind, Write};
use std::os::fd::AsFd;
use std::os::unix::fs::{MetadataExt, fchown};
use std::rt::Files;

/// How many names are tried before no file is made. A name is taken where another run writes the same
/// file, or one was killed while it wrote.
const MOST_TRIES: u64 = 1_000;

/// The folder of a file.
pub fn folder_of(path: &str) -> &str {
    match path.rsplit_once("/") {
        Some(("", _)) => "/",
        Some((folder, _)) => folder,
        None => ".",
    }
}

/// Waits until the system has kept which files a folder has.
pub fn sync_folder<R: Files>(rt: &R, folder: &str) -> io::Result<()> {
    fs::open(rt, folder)?.sync_all()
}

/// The path of the file that is written first, at one try.
fn new_path(alloc: Global, path: &str, tries: u64) -> Result<String, AllocError>
    ensures { IfOk result (λ new. string_bytes new ≡ path.now ++ (codes ".NEW" ++ decimal tries)) }
{
    format!(in alloc; "{path}.NEW{tries}")
}

/// A file beside this path that stood nowhere before, and its own path.
fn make_unused<R: Files>(rt: &R, alloc: Global, path: &str) -> io::Result<(String, R::File)> {
    let mut how = OpenOptions::new();
    how.write(true).create_new(true);
    for tries in 0..MOST_TRIES {
        let new = new_path(alloc, path, tries)?;
        match how.open(rt, new.as_str()) {
            Ok(file) => return Ok((new, file)),
            Err(error) if error.kind() == ErrorKind::AlreadyExists => {}
            Err(error) => return Err(error),
        }
    }
    Err(io::Error::from(ErrorKind::AlreadyExists))
}

/// Where a file that is written whole lies until all is written, and the path that it gets then.
#[derive(Drop)]
struct Beside {
    new: String,
    target: String,
}

/// A file that is being written whole.
#[derive(Drop)]
pub struct Begun<F> {
    file: Limited<F>,
    /// What is no plain file is written as it stands, and lies nowhere else.
    beside: Option<Beside>,
}

impl<F> Begun<F> {
    /// Where its bytes go, no more of them than a file may have.
    pub fn file(&mut self) -> &mut Limited<F> {
        &mut self.file
    }
}

/// Opens what stands at a path to be written, and leaves what it has.
fn open_standing<R: Files>(rt: &R, path: &str) -> io::Result<R::File> {
    let mut how = OpenOptions::new();
    how.write(true);
    how.open(rt, path)
}

/// Refuses a file that may not be written: one of which nobody may write, or which can't be opened for it.
fn refuse_unwritable<R: Files>(rt: &R, path: &str, about: &Metadata) -> io::Result<()> {
    if about.permissions().readonly() {
        return Err(io::Error::from(ErrorKind::PermissionDenied));
    }
    let _ = open_standing(rt, path)?;
    Ok(())
}

/// Gives an open file the owner and the mode of another: it is the one that is open, whatever has its name by
/// now.
pub(crate) fn take_owner_and_mode<F: OpenFile + AsFd>(file: &F, old: &Metadata) -> io::Result<()> {
    let made = file.metadata()?;
    if made.uid() != old.uid() || made.gid() != old.gid() {
        fchown(file, Some(old.uid()), Some(old.gid()))?;
    }
    file.set_permissions(old.permissions())
}

/// What the system reports of what stands at a path, a link followed, if anything does.
fn standing_at<R: Files>(rt: &R, path: &str) -> io::Result<Option<Metadata>> {
    match fs::metadata(rt, path) {
        Ok(about) => Ok(Some(about)),
        Err(error) if error.kind() == ErrorKind::NotFound => Ok(None),
        Err(error) => Err(error),
    }
}

/// Begins a file beside a path, in place of nothing or of a plain file whose owner and mode it takes.
fn begin_beside<R: Files>(
    rt: &R,
    alloc: Global,
    target: String,
    old: Option<&Metadata>,
) -> io::Result<Begun<R::File>>
where
    R::File: AsFd,
{
    let (new, file) = make_unused(rt, alloc, target.as_str())?;
    if let Some(old) = old {
        let taken = take_owner_and_mode(&file, old);
        if let Err(error) = taken {
            let _ = fs::remove_file(rt, new.as_str());
            return Err(error);
        }
    }
    Ok(Begun {
        file: Limited::new(file, size_limit(rt)),
        beside: Some(Beside { new, target }),
    })
}

/// Begins the file at a path anew, beside the one that stands there, or where a link there leads. It gets the
/// owner and the mode of that file; one that may not be written is left, and is a fault. What is no plain file,
/// as a terminal or a pipe, is written as it stands, and never replaced.
pub fn begin_whole<R: Files>(rt: &R, alloc: Global, path: &str) -> io::Result<Begun<R::File>>
where
    R::File: AsFd,
{
    let Some(old) = standing_at(rt, path)? else {
        return begin_beside(rt, alloc, target_of(rt, alloc, path)?, None);
    };
    if !old.is_file() {
        let file = Limited::new(open_standing(rt, path)?, NO_LIMIT);
        return Ok(Begun { file, beside: None });
    }
    refuse_unwritable(rt, path, &old)?;
    begin_beside(rt, alloc, target_of(rt, alloc, path)?, Some(&old))
}

/// The files of the process that are written whole. Each call passes on what is asked and what is answered; no
/// contract sees that.
#[derive(Drop)]
pub(crate) struct SystemFiles<'a, R> {
    rt: &'a R,
}

impl<'a, R> SystemFiles<'a, R> {
    pub(crate) fn new(rt: &'a R) -> SystemFiles<'a, R> {
        SystemFiles { rt }
    }
}

impl<R: Files> WholeFiles for SystemFiles<'_, R> {
    ghost use Rattle.std.specs.Prelude.{⊤};

    type NewFile = Limited<R::File>;

    ghost has_done = { λ _ _. ⊤ };

    fn make(&mut self, path: &str) -> io::Result<Limited<R::File>> {
        let mut how = OpenOptions::new();
        how.write(true).create_new(true);
        let file = how.open(self.rt, path)?;
        Ok(Limited::new(file, size_limit(self.rt)))
    }

    fn keep(&mut self, file: &Limited<R::File>) -> io::Result<()> {
        file.file().sync_all()
    }

    /// Refused where another file than the open one has come to stand at its path.
    fn put(&mut self, file: Limited<R::File>, new: &str, path: &str) -> io::Result<()> {
        check_stands(self.rt, file.file(), new)?;
        fs::rename(self.rt, new, path)
    }

    fn remove(&mut self, path: &str) -> io::Result<()> {
        match fs::remove_file(self.rt, path) {
            Err(error) if error.kind() == ErrorKind::NotFound => Ok(()),
            removed => removed,
        }
    }

    fn keep_folder(&mut self, folder: &str) -> io::Result<()> {
        sync_folder(self.rt, folder)
    }
}

/// Ends a file that was begun, and was filled or not, and waits until the system has kept it, in its folder
/// too. Where only the folder fails, the new file is there.
pub fn end_whole<R: Files>(
    rt: &R,
    begun: Begun<R::File>,
    filled: io::Result<()>,
) -> io::Result<()> {
    let Begun { file, beside } = begun;
    let Some(Beside { new, target }) = beside else {
        return filled;
    };
    let (new, target) = (new.as_str(), target.as_str());
    let mut files = SystemFiles::new(rt);
    place_in_folder(&mut files, file, new, target, folder_of(target), filled)
}

/// Writes these bytes into a file that was begun, and ends it as `end_whole` does.
pub fn fill_whole<R: Files>(rt: &R, begun: Begun<R::File>, bytes: &[u8]) -> io::Result<()> {
    let Begun { mut file, beside } = begun;
    let Some(Beside { new, target }) = beside else {
        return file.write_all(bytes);
    };
    let (new, target) = (new.as_str(), target.as_str());
    let mut files = SystemFiles::new(rt);
    fill_in_folder(&mut files, file, new, target, folder_of(target), bytes)
}

/// Makes the file at a path anew with these bytes, and waits until the system has kept it, in its folder too.
/// It is written at a name beside the path, whatever stands there, and takes the place of what stands at the
/// path: of a link itself, which is not followed. Where only the folder fails, the new file is there.
pub fn replace_whole<R: Files>(rt: &R, alloc: Global, path: &str, bytes: &[u8]) -> io::Result<()> {
    let new = new_path(alloc, path, 0)?;
    let mut files = SystemFiles::new(rt);
    replace(&mut files, new.as_str(), path, bytes)?;
    sync_folder(rt, folder_of(path))
}
