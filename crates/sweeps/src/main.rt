//! Goes through scenarios of everything that asks for memory, reads or writes, so that each request
//! for memory can be refused from outside, and each read and each write failed. What is refused leaves
//! what it is to leave, and is asked for once more; so standard output is the same whatever was
//! refused, and standard error prints on a line what was, and whether all was as it is to be then.
//!
//! The one argument names a scenario; where there is none, it goes through all but the large ones. The status is 0
//! where all checks held, 1 where one failed, and 2 where a scenario's own memory was refused twice or there is no
//! such scenario.
#![tactic(auto)]

// What scenarios are made of.
mod decks;
mod jobs;
mod notes;
mod pieces;
mod scene;

// Scenarios, lowest first.
mod desks;
mod folders;
mod large;
mod long;
mod offices;
mod ports;
mod records;
mod replies;
mod sessions;

use crate::jobs::End;
use crate::notes::Journal;
use crate::scene::Scene;
use std::alloc::AllocGlobal;
use std::fs::File;
use std::process::ExitCode;
use std::rt::{Env, Files};
use std::sync::Wait;
use std::{env, io};
use test_parts::{Got, fixed_keys};

/// The scenarios that are gone through where none is named: all but the large ones.
const SMALL: &str =
    "records texts runs ports calls jobs foreign settle replies session session_ports office folder";

/// How what was gone through ended.
#[derive(Clone, Copy)]
enum Ended {
    AsWanted,
    /// A check failed.
    Failed,
    /// A scenario's own memory was refused.
    Lacking,
    /// There is no such scenario.
    Unknown,
}

impl Ended {
    fn status(self) -> u8 {
        match self {
            Ended::AsWanted => 0,
            Ended::Failed => 1,
            Ended::Lacking | Ended::Unknown => 2,
        }
    }

    /// How it ended with what was gone through before: as the first that was not as wanted.
    fn behind(self, before: Ended) -> Ended {
        match before {
            Ended::Failed | Ended::Lacking => before,
            Ended::AsWanted | Ended::Unknown => self,
        }
    }
}

/// Goes through a scenario, if there is one of this name.
fn go_through<R: AllocGlobal + Files<File = File> + Clone + Drop + Wait>(
    rt: &R,
    name: &str,
    scene: &mut Scene,
) -> Got<()> {
    match name {
        "records" => records::records(scene),
        "texts" => records::texts(scene),
        "runs" => ports::runs(scene),
        "ports" => ports::ports(scene),
        "calls" => desks::calls(scene),
        "jobs" => desks::jobs(scene, &[End::Delivered]),
        "foreign" => desks::jobs(scene, &[End::Foreign, End::GivenUp, End::Delivered]),
        "settle" => desks::settled(scene),
        "replies" => replies::replies(scene),
        "session" => sessions::session(scene),
        "session_ports" => sessions::failing(scene),
        "office" => offices::office(rt, scene),
        "folder" => folders::folder(rt, scene),
        "many_edits" => large::edits(scene),
        "many_decks" => large::decks(scene),
        "long_run" => long::run(scene),
        "long_ports" => long::ports(scene),
        "long_parts" => long::parts(scene),
        _ => Ok(()),
    }
}

/// The journal of a scenario, with no calls where there is none of this name.
fn journal_of<R: AllocGlobal + Files<File = File> + Clone + Drop + Wait>(
    rt: &R,
    name: &str,
) -> Got<Journal> {
    let keys = fixed_keys()?;
    let mut scene = Scene::new(rt.alloc(), keys);
    let done = go_through(rt, name, &mut scene);
    scene.journal.keep(done);
    Ok(scene.into_journal())
}

/// Shows on standard error what was refused and what failed, each on a line.
fn tell_notes<R: Eprint>(rt: &R, name: &str, journal: &Journal) -> io::Result<()> {
    for note in &journal.notes {
        let found = if note.holds {
            "as wanted"
        } else {
            "NOT AS WANTED"
        };
        eprintln!(rt; "{name}: {} refused, {found}", note.call)?;
    }
    Ok(())
}

/// Shows what came of a scenario.
fn tell<R: Print + Eprint>(rt: &R, name: &str, journal: &Journal) -> io::Result<Ended> {
    if journal.is_lacking {
        eprintln!(rt; "{name}: begun again")?;
        return Ok(Ended::Lacking);
    }
    if journal.calls == 0 {
        return Ok(Ended::Unknown);
    }
    let (found, ended) = if journal.has_failed {
        ("NOT ALL AS WANTED", Ended::Failed)
    } else {
        ("all as wanted", Ended::AsWanted)
    };
    println!(rt; "{name}: {} calls, {found}", journal.calls)?;
    Ok(ended)
}

/// Goes through a scenario.
fn run_once<R: AllocGlobal + Files<File = File> + Clone + Drop + Wait + Print + Eprint>(
    rt: &R,
    name: &str,
) -> io::Result<Ended> {
    let journal = journal_of(rt, name)?;
    tell_notes(rt, name, &journal)?;
    tell(rt, name, &journal)
}

/// Goes through a scenario, once more where its own memory is refused.
fn run_one<R: AllocGlobal + Files<File = File> + Clone + Drop + Wait + Print + Eprint>(
    rt: &R,
    name: &str,
) -> io::Result<Ended> {
    match run_once(rt, name)? {
        Ended::Lacking => run_once(rt, name),
        ended => Ok(ended),
    }
}

/// Goes through all scenarios but the large ones.
fn run_all<R: AllocGlobal + Files<File = File> + Clone + Drop + Wait + Print + Eprint>(
    rt: &R,
) -> io::Result<Ended> {
    let mut ended = Ended::Unknown;
    for name in SMALL.split_whitespace() {
        ended = run_one(rt, name)?.behind(ended);
    }
    Ok(ended)
}

/// Goes through the scenario that the argument names, or all where there is none.
fn run<R: AllocGlobal + Env + Files<File = File> + Clone + Drop + Wait + Print + Eprint>(
    rt: &R,
) -> io::Result<Ended> {
    let words: Vec<String> = env::args(rt)?.collect(rt.alloc())?;
    match words.get(1) {
        Some(word) => run_one(rt, word.as_str()),
        None => run_all(rt),
    }
}

fn main(rt: HostRuntime) -> ExitCode {
    match run(&rt) {
        Ok(ended) => ExitCode::from(ended.status()),
        Err(error) => {
            let _ = eprintln!(&rt; "sweeps: {error}");
            ExitCode::from(Ended::Lacking.status())
        }
    }
}
