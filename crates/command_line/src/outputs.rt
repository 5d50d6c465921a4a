//! The files that parts of the output go to, looked at before anything is read or written: none may be one of
//! the input, or that of another part.
ghost use Rattle.std.specs.Prelude.{◌≡◌, ◌↔◌, IsTrue};

use crate::image_files::sections_beside;
use deck_files::target_of;
use std::alloc::Global;
use std::io::ErrorKind;
use std::os::unix::fs::MetadataExt;
use std::rt::Files;
use std::{fmt, fs};

/// The path by which the system knows standard input.
const STANDARD_INPUT: &str = "/dev/stdin";

/// The path by which the system knows standard output.
const STANDARD_OUTPUT: &str = "/dev/stdout";

/// The file of a part of the output that a word names, if it is another than standard output.
pub(crate) fn file_named(word: Option<&str>) -> Option<&str> {
    match word {
        Some("-") => None,
        Some(name) if name == STANDARD_OUTPUT => None,
        name => name,
    }
}

/// The name of a file: a word, and what is put behind it.
#[derive(Clone, Copy, Debug)]
pub(crate) struct FileName<'a> {
    pub word: &'a str,
    pub behind: &'static str,
}

impl fmt::Display for FileName<'_> {
    fn fmt<W: fmt::Write>(&self, f: &mut fmt::Formatter<W>) -> fmt::Result {
        let FileName { word, behind } = *self;
        write!(f, "{word}{behind}")
    }
}

/// Two names of one file.
#[derive(Clone, Copy)]
pub(crate) struct Clash<'a> {
    pub output: FileName<'a>,
    pub other: FileName<'a>,
}

/// A plain file, as the system distinguishes it from others.
#[derive(Clone, Copy)]
struct FileNumber {
    device: u64,
    number: u64,
}

/// Which file a path names.
#[derive(Drop)]
enum Found {
    /// The plain file that stands there, whatever its names.
    File(FileNumber),
    /// None yet: it would be made at this path, which has no link in it.
    Nothing(String),
    /// What may be read and written at once, as a terminal, or what the run will report as a fault.
    Other,
}

/// Whether two numbers are one file's.
fn is_one(one: FileNumber, other: FileNumber) -> bool
    ensures { IsTrue result ↔ ((one.device ≡ other.device) × (one.number ≡ other.number)) }
{
    one.device == other.device && one.number == other.number
}

/// Which file a path names.
fn found_at<R: Files>(rt: &R, alloc: Global, path: &str) -> Found {
    match fs::metadata(rt, path) {
        Ok(about) if about.is_file() => Found::File(FileNumber {
            device: about.dev(),
            number: about.ino(),
        }),
        Err(error) if error.kind() == ErrorKind::NotFound => match target_of(rt, alloc, path) {
            Ok(target) => Found::Nothing(target),
            Err(_) => Found::Other,
        },
        _ => Found::Other,
    }
}

/// Which file a name names. Want of memory for it is reported by the run.
fn found_named<R: Files>(rt: &R, alloc: Global, name: FileName<'_>) -> Found {
    if name.behind.is_empty() {
        return found_at(rt, alloc, name.word);
    }
    match format!(in alloc; "{name}") {
        Ok(path) => found_at(rt, alloc, path.as_str()),
        Err(_) => Found::Other,
    }
}

/// A word that names a file.
fn named(word: &str) -> FileName<'_> {
    FileName { word, behind: "" }
}

/// Whether two paths name one file.
fn are_one(found: &Found, other: &Found) -> bool {
    match (found, other) {
        (Found::File(number), Found::File(other)) => is_one(*number, *other),
        (Found::Nothing(path), Found::Nothing(other)) => path.as_str() == other.as_str(),
        _ => false,
    }
}

/// The first of these names that names the same file.
fn same_among<'a, R: Files>(
    rt: &R,
    alloc: Global,
    found: &Found,
    names: &[&'a str],
) -> Option<FileName<'a>> {
    for name in names {
        let name = *name;
        let path = if name == "-" { STANDARD_INPUT } else { name };
        if are_one(found, &found_at(rt, alloc, path)) {
            return Some(named(name));
        }
    }
    None
}

/// The first of these outputs that is the same file.
fn same_output<'a, R: Files>(
    rt: &R,
    alloc: Global,
    found: &Found,
    outputs: &[Option<FileName<'a>>],
) -> Option<FileName<'a>> {
    for output in outputs {
        if let Some(name) = *output {
            if are_one(found, &found_named(rt, alloc, name)) {
                return Some(name);
            }
        }
    }
    None
}

/// The files that the output goes to.
#[derive(Clone, Copy)]
pub(crate) struct OutputNames<'a> {
    /// The parts of the output: those that have none go to standard output.
    pub parts: [Option<&'a str>; 3],
    /// The packed words of the image, which go to a file or nowhere, with a text beside them.
    pub binary: Option<&'a str>,
}

impl<'a> OutputNames<'a> {
    /// The files that it goes to, if it does.
    fn files(&self) -> [Option<FileName<'a>>; 5] {
        let [listing, map, image] = self.parts;
        [
            listing.map(named),
            map.map(named),
            image.map(named),
            self.binary.map(named),
            self.binary.map(sections_beside),
        ]
    }
}

/// The first file of the output that is one of the input, or that of a part before it.
pub(crate) fn first_clash<'a, R: Files>(
    rt: &R,
    alloc: Global,
    names: OutputNames<'a>,
    inputs: &[&'a str],
) -> Option<Clash<'a>> {
    let has_standard = names.parts.iter().any(|output| output.is_none());
    let outputs = names.files();
    for (place, output) in outputs.iter().enumerate() {
        let Some(output) = *output else { continue };
        let found = found_named(rt, alloc, output);
        let before = outputs.split_at(place).0;
        if let Some(other) = same_output(rt, alloc, &found, before) {
            return Some(Clash { output, other });
        }
        if let Some(other) = same_among(rt, alloc, &found, inputs) {
            return Some(Clash { output, other });
        }
        if has_standard && are_one(&found, &found_at(rt, alloc, STANDARD_OUTPUT)) {
            let other = named("standard output");
            return Some(Clash { output, other });
        }
    }
    None
}
