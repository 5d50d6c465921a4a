//! Where the tabs of a file stand, so that messages have the columns of the file and not those of its cards, in
//! which blanks stand for a tab.

use asm_main::{Chained, LinePlace, tab_blanks};
use std::alloc::{AllocError, Global};
use std::io::{self, ErrorKind, Read};

/// How many columns a card has: no message is about one behind the next.
pub(crate) const CARD_COLUMNS: usize = 80;

/// A tab of a file: its line, counted from 1, how many columns of the card stand before it, and for how many
/// blanks it stands.
#[derive(Clone, Copy)]
struct TabPlace {
    line: u64,
    columns: usize,
    blanks: usize,
}

/// A reader that notes the tabs that go by.
#[derive(Drop)]
pub(crate) struct Noting<R> {
    reader: R,
    /// The line of the next byte, counted from 1, and how many columns of its card stand before it.
    line: u64,
    columns: usize,
    /// In the order in which they stand.
    tabs: Vec<TabPlace>,
}

/// What knows where the columns of cards stand in the lines of its file.
pub(crate) trait FileColumns {
    /// Where a column of a card stands in its line of the file, in which a tab is one column. All are counted
    /// from 1.
    fn file_column(&self, line: u64, column: usize) -> usize;

    /// For how many blanks a tab stands behind so many columns of the card; 0 where none stands there.
    fn tab_blanks(&self, line: u64, columns: usize) -> usize;
}

impl<R> Noting<R> {
    /// A reader that gave nothing so far.
    pub(crate) fn new(alloc: Global, reader: R) -> Noting<R> {
        Noting {
            reader,
            line: 1,
            columns: 0,
            tabs: Vec::new(alloc),
        }
    }

    fn note_tab(&mut self) -> Result<(), AllocError> {
        let blanks = tab_blanks(self.columns);
        if self.columns <= CARD_COLUMNS {
            self.tabs.push(TabPlace {
                line: self.line,
                columns: self.columns,
                blanks,
            })?;
        }
        self.columns = self.columns.saturating_add(blanks);
        Ok(())
    }

    /// Notes the tabs of the next bytes.
    fn note(&mut self, bytes: &[u8]) -> Result<(), AllocError> {
        for byte in bytes {
            match *byte {
                b'\n' => {
                    self.line = self.line.saturating_add(1);
                    self.columns = 0;
                }
                b'\t' => self.note_tab()?,
                _ => self.columns = self.columns.saturating_add(1),
            }
        }
        Ok(())
    }
}

/// Where so many columns of a card end in its line of the file, whose first tabs these are.
fn columns_in_file(tabs: &[TabPlace], line: u64, columns: usize) -> usize {
    let mut left_out = 0usize;
    for tab in tabs {
        if tab.line != line || tab.columns >= columns {
            break;
        }
        let taken = tab.blanks.min(columns.saturating_sub(tab.columns));
        left_out = left_out.saturating_add(taken.saturating_sub(1));
    }
    columns.saturating_sub(left_out)
}

impl<R> Noting<R> {
    /// The tabs from a line on.
    fn tabs_from(&self, line: u64) -> &[TabPlace] {
        let tabs = self.tabs.as_slice();
        let before = tabs.partition_point(|tab| tab.line < line);
        tabs.split_at(before.min(tabs.len())).1
    }
}

/// For how many blanks the one of these tabs stands that is behind so many columns of a line.
fn blanks_behind(tabs: &[TabPlace], line: u64, columns: usize) -> usize {
    for tab in tabs {
        if tab.line != line || tab.columns > columns {
            break;
        }
        if tab.columns == columns {
            return tab.blanks;
        }
    }
    0
}

impl<R> FileColumns for Noting<R> {
    fn file_column(&self, line: u64, column: usize) -> usize {
        columns_in_file(self.tabs_from(line), line, column)
    }

    fn tab_blanks(&self, line: u64, columns: usize) -> usize {
        blanks_behind(self.tabs_from(line), line, columns)
    }
}

impl<R: Read> Read for Noting<R> {
    fn read(&mut self, buf: &mut [u8]) -> io::Result<usize> {
        let count = self.reader.read(buf)?;
        let (given, _) = buf.split_at(count.min(buf.len()));
        match self.note(given) {
            Ok(()) => Ok(count),
            Err(_) => Err(io::Error::from(ErrorKind::OutOfMemory)),
        }
    }
}

/// The column of a file for a column of the card at this place, both counted from 1: without a tab the same.
pub(crate) fn column_at<I: FileColumns>(
    chain: &Chained<I>,
    place: LinePlace,
    column: usize,
) -> usize {
    match chain.reader(place.part) {
        Some(file) => file.file_column(place.line, column),
        None => column,
    }
}

/// For how many blanks a tab of a file stands behind so many columns of the card at this place.
pub(crate) fn blanks_at<I: FileColumns>(
    chain: &Chained<I>,
    place: LinePlace,
    columns: usize,
) -> usize {
    match chain.reader(place.part) {
        Some(file) => file.tab_blanks(place.line, columns),
        None => 0,
    }
}
