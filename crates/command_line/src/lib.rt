//! What the command line of `compass` asks for without a service: `asm`, `dump`, `diff` and `log`, each with
//! its words, the files that these name, its run, and the line and the status of its faults.
//!
//! What the process reads and writes no contract sees; so of a run its status alone is promised (`tell`),
//! and what goes between the ports by `asm_main` and `journal`. Nothing here starts a thread or opens a
//! socket, so it is proved beside the service and not behind it.
#![tactic(auto)]

// Words of the command line.
mod words;

// What they name: files, journals in place of files, and images.
mod image_files;
mod input_files;
mod journal_files;
mod tab_places;

// A run of `compass asm`, and what it shows.
mod assembling;
mod binaries;
mod flagged;
mod input_lines;
mod manual_layout;
mod outputs;
mod run_faults;
mod shown_lines;
mod standard_output;
mod symbols;

pub use assembling::{asm_words, assemble};
pub use image_files::{diff, diff_words, dump, dump_words};
pub use journal_files::{JOURNAL_STATUS, log, log_words};
pub use run_faults::tell;
pub use words::{Takes, Word, with_words};
