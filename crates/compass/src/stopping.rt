//! `compass stop`: ends the service of a folder.

use crate::serving::FOLDER_STATUS;
use clap::{ArgMatches, Command};
use command_line::{Takes, Word, with_words};
use desk_service::stop;
use std::alloc::{AllocError, Global};
use std::net::Net;
use std::process::ExitCode;
use std::rt::Files;

/// The words of `compass stop`.
const WORDS: [Word; 1] = [Word {
    name: "root",
    takes: Takes::Needed("DIR"),
    help: "The folder of the service",
    without: &[],
}];

/// `compass stop` with its words.
pub(crate) fn stop_words<'a>(alloc: Global) -> Result<Command<'a>, AllocError> {
    let command = Command::new(alloc, "stop").about(
        "Ends the service of a folder, once what it is answering is out",
    );
    with_words(alloc, command, WORDS.as_slice())
}

/// `compass stop`: it returns when the service is over.
pub(crate) fn stop_service<R: AllocGlobal + Eprint + Files + Net>(
    rt: &R,
    words: &ArgMatches<'_>,
) -> ExitCode {
    let root = words.get_str("root").unwrap_or("");
    if stop(rt, rt.alloc(), root) {
        return ExitCode::SUCCESS;
    }
    let _ = eprintln!(rt; "compass: no service that this user may stop runs on {root}");
    ExitCode::from(FOLDER_STATUS)
}
