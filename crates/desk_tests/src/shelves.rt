//! Shelves over folders of the system, and files there.
//!
//! `save_over CALL SHELF FOLDER NAME OVER VERSION LINES`, with `OVER` as a program writes it: a shelf of this
//! number saves, whose call of the first number is refused, and none where it is 0; `load_from SHELF FOLDER
//! NAME`; `list_in CALL FOLDER`: which decks have files. `note_in VERSION BETWEEN FOLDER NAME`: a shelf loads,
//! another saves an empty deck of the version between, where it is not 0, and then the first notes a version;
//! `saved_in VERSION FOLDER NAME`: whether the file has the cards of this version. The empty text is the folder in
//! which the program runs. `write PATH LINES`; `read PATH`; `make PATH`, a folder; `remove PATH`, a file or an empty
//! folder: which it was; `clear_folder PATH JOURNAL`: what saves have left there.

use crate::files::push_lines;
use crate::refusing::Refusing;
use deck_files::{
    FileRow, FolderShelf, KnownFiles, SaveOver, Shelf, ShelfLoadFault, SystemFolder, clear_folder,
};
use std::alloc::{AllocGlobal, Global};
use std::fs::{self, File};
use std::io;
use std::rt::Files;
use std::sync::Wait;
use test_parts::{Answer, Got, cards_of, cut, cut_line, cut_number, name_of, number};

/// Makes a step of this word, if it is one of folders, and answers whether it is.
pub fn make<R: AllocGlobal + Files<File = File> + Wait + Clone + Drop>(
    rt: &R,
    known: &KnownFiles,
    word: &str,
    rest: &str,
    answer: &mut Answer,
) -> bool {
    Shelves { rt, known }.make(word, rest, answer) || change(rt, word, rest, answer)
}

/// Saves cards on a shelf, as these words say.
fn save<S: Shelf>(alloc: Global, shelf: &mut S, text: &str, answer: &mut Answer) -> Got<()> {
    let (head, lines) = cut_line(text);
    let (of, rest) = cut(head);
    let (over, version) = cut(rest);
    let over = match over {
        "Any" => SaveOver::Any,
        _ => SaveOver::Known,
    };
    let name = name_of(of)?;
    let cards = cards_of(alloc, lines)?;
    answer.debug(&shelf.save(&name, over, number(version), &cards));
    answer.line("");
    Ok(())
}

/// Loads the cards of a deck.
fn load<S: Shelf>(shelf: &mut S, of: &str, answer: &mut Answer) -> Got<()> {
    match shelf.load(&name_of(of)?) {
        Ok(cards) => push_lines(answer, &cards),
        Err(fault) => push_fault(answer, &fault),
    }
    Ok(())
}

/// A fault on a line.
fn push_fault(answer: &mut Answer, fault: &ShelfLoadFault) {
    answer.debug(fault);
    answer.line("");
}

/// The system's folders, and what is known of the files there.
#[derive(Drop)]
struct Shelves<'a, R> {
    rt: &'a R,
    known: &'a KnownFiles,
}

impl<'a, R: AllocGlobal + Files<File = File> + Wait + Clone + Drop> Shelves<'a, R> {
    /// Makes a step of this word, if it is one of shelves, and answers whether it is.
    fn make(&self, word: &str, rest: &str, answer: &mut Answer) -> bool {
        let done = match word {
            "save_over" => self.save_refused(rest, answer),
            "load_from" => self.load_from(rest, answer),
            "list_in" => self.list_refused(rest, answer),
            "note_in" => self.note_in(rest, answer),
            "saved_in" => self.saved_in(rest, answer),
            _ => return false,
        };
        answer.keep(done);
        true
    }

    /// A shelf of a folder, with this number.
    fn shelf(&self, folder: &'a str, number: usize) -> FolderShelf<'a, R> {
        FolderShelf::new(self.rt, self.rt.alloc(), folder, number, self.known)
    }

    /// A shelf of a folder, whose call of the first number is refused, and none where it is 0.
    fn refusing(
        &self,
        folder: &'a str,
        number: usize,
        calls: u64,
    ) -> FolderShelf<'a, R, Refusing<SystemFolder<'a, R>>> {
        let files = SystemFolder::new(self.rt);
        let files = Refusing { files, calls };
        FolderShelf::over(files, self.rt, self.rt.alloc(), folder, number, self.known)
    }

    fn save_refused(&self, text: &'a str, answer: &mut Answer) -> Got<()> {
        let (calls, rest) = cut_number(text);
        let (number, rest) = cut_number(rest);
        let (folder, rest) = cut(rest);
        let mut shelf = self.refusing(folder, number as usize, calls);
        save(self.rt.alloc(), &mut shelf, rest, answer)
    }

    fn load_from(&self, text: &'a str, answer: &mut Answer) -> Got<()> {
        let (number, rest) = cut_number(text);
        let (folder, of) = cut(rest);
        load(&mut self.shelf(folder, number as usize), of, answer)
    }

    /// Loads by a shelf, which notes a version then; another may have saved an empty deck in between.
    fn note_in(&self, text: &'a str, answer: &mut Answer) -> Got<()> {
        let (version, rest) = cut_number(text);
        let (between, rest) = cut_number(rest);
        let (folder, of) = cut(rest);
        let name = name_of(of)?;
        let mut shelf = self.shelf(folder, 0);
        let done = load(&mut shelf, of, answer);
        if between > 0 {
            let mut other = self.shelf(folder, 1);
            answer.debug(&other.save(&name, SaveOver::Known, between, &[]));
            answer.line("");
        }
        shelf.note(&name, version);
        done
    }

    /// Whether the file of a deck has the cards of a version.
    fn saved_in(&self, text: &'a str, answer: &mut Answer) -> Got<()> {
        let (version, rest) = cut_number(text);
        let (folder, of) = cut(rest);
        let name = name_of(of)?;
        let is_saved = self.shelf(folder, 0).is_saved(&name, version);
        answer.line(if is_saved { "saved" } else { "unsaved" });
        Ok(())
    }

    /// Lists the files of decks by a shelf that refuses.
    fn list_refused(&self, text: &'a str, answer: &mut Answer) -> Got<()> {
        let (calls, folder) = cut_number(text);
        match self.refusing(folder, 0, calls).list() {
            Ok(rows) => push_rows(answer, &rows),
            Err(fault) => push_fault(answer, &fault),
        }
        Ok(())
    }
}

/// How many files there are, then name and number of cards of each, and whether it has a date of our days.
fn push_rows(answer: &mut Answer, rows: &[FileRow]) {
    answer.number("", rows.len() as u64);
    answer.line("");
    for row in rows {
        answer.bytes(row.name.as_slice());
        answer.push(" ");
        answer.debug(&row.cards);
        let is_of_now = row.written.as_slice() > b"2026-11".as_slice();
        answer.line(if is_of_now { " now" } else { " before" });
    }
}

/// Changes or reads a file, not by a shelf.
fn change<R: AllocGlobal + Files + Clone>(
    rt: &R,
    word: &str,
    rest: &str,
    answer: &mut Answer,
) -> bool {
    match word {
        "write" => write(rt, rest, answer),
        "read" => read(rt, rest, answer),
        "make" => push_done(fs::create_dir(rt, rest), answer),
        "remove" => remove(rt, rest, answer),
        "clear_folder" => clear(rt, rest),
        _ => return false,
    }
    true
}

fn push_done(done: io::Result<()>, answer: &mut Answer) {
    if done.is_err() {
        answer.line("not done");
    }
}

fn write<R: AllocGlobal + Files>(rt: &R, text: &str, answer: &mut Answer) {
    let (path, bytes) = cut_line(text);
    push_done(fs::write(rt, path, bytes), answer);
}

fn read<R: AllocGlobal + Files>(rt: &R, path: &str, answer: &mut Answer) {
    match fs::read_to_string(rt, path) {
        Ok(text) => {
            answer.push("= ");
            answer.line(text.as_str());
        }
        Err(_) => answer.line("none"),
    }
}

fn remove<R: AllocGlobal + Files>(rt: &R, path: &str, answer: &mut Answer) {
    if fs::remove_file(rt, path).is_ok() {
        answer.line("file");
    } else if fs::remove_dir(rt, path).is_ok() {
        answer.line("folder");
    } else {
        answer.line("none");
    }
}

/// Clears away what saves have left, and what was to be a journal of this name.
fn clear<R: AllocGlobal + Files + Clone>(rt: &R, text: &str) {
    let (folder, journal) = cut(text);
    clear_folder(rt, folder, &[journal]);
}
