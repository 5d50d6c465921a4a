//! Tables of cases: files of rows, each a text and what is wanted of it.

use std::alloc::{AllocError, AllocGlobal, Global};
use std::rt::Files;
use std::{fs, io};

/// A row: its text, and what is wanted of it.
#[derive(Drop)]
pub struct Row {
    pub text: String,
    pub wanted: String,
}

/// The last line of a row's text, and what is wanted, where a line has an arrow.
fn arrow_of(line: &str) -> Option<(&str, &str)> {
    match line.strip_prefix("-> ") {
        Some(wanted) => Some(("", wanted)),
        None => line.split_once(" -> "),
    }
}

/// The row whose text has these lines and ends with this one.
fn row_of(alloc: Global, lines: &str, last: &str, wanted: &str) -> Result<Row, AllocError> {
    let mut text = String::from_str(alloc, lines)?;
    text.push_str(last)?;
    Ok(Row {
        text,
        wanted: String::from_str(alloc, wanted)?,
    })
}

/// The rows of a table.
fn rows_in(alloc: Global, table: &str) -> Result<Vec<Row>, AllocError> {
    let mut rows = Vec::new(alloc);
    let mut lines = String::new(alloc);
    for line in table.lines() {
        if let Some((last, wanted)) = arrow_of(line) {
            rows.push(row_of(alloc, lines.as_str(), last, wanted)?)?;
            lines = String::new(alloc);
        } else if !line.starts_with("# ") {
            lines.push_str(line)?;
            lines.push_str("\n")?;
        }
    }
    Ok(rows)
}

/// The rows of a topic's table.
pub fn rows_of<R: AllocGlobal + Files>(rt: &R, topic: &str) -> io::Result<Vec<Row>> {
    let table = fs::read_to_string(rt, topic)?;
    Ok(rows_in(rt.alloc(), table.as_str())?)
}
