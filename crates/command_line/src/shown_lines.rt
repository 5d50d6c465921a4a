//! A line of a file as it stands there, shown below a message, and a caret below a column of it.

use crate::tab_places::{CARD_COLUMNS, FileColumns, blanks_at};
use asm_main::{Chained, LinePlace};

/// A line of a file: where it stands, and its text as cards are read of it, in which blanks may stand for a tab.
#[derive(Drop)]
pub(crate) struct FileLine<'l, I> {
    pub chain: &'l Chained<I>,
    pub place: LinePlace,
    pub text: &'l [u8],
}

/// A character of a file, and how many columns of the card stand for it.
#[derive(Clone, Copy)]
struct Standing {
    character: char,
    columns: usize,
}

/// A character as it is shown: what no terminal has as one column is a question mark.
fn shown(byte: u8) -> char {
    match byte {
        b'\t' | b' '..=b'~' => char::from(byte),
        _ => '?',
    }
}

impl<'l, I: FileColumns> FileLine<'l, I> {
    /// What stands behind so many columns of the card, if the text does not end before.
    fn standing(&self, columns: usize) -> Option<Standing> {
        let byte = self.text.get(columns).copied()?;
        let blanks = blanks_at(self.chain, self.place, columns);
        if blanks == 0 {
            return Some(Standing {
                character: shown(byte),
                columns: 1,
            });
        }
        Some(Standing {
            character: '\t',
            columns: blanks,
        })
    }
}

/// Shows so many columns of a line, or as many blanks, in which tabs stay.
fn show_columns<R: Eprint, I: FileColumns>(
    rt: &R,
    line: &FileLine<'_, I>,
    count: usize,
    as_blanks: bool,
) {
    let _ = eprint!(rt; "    ");
    let mut columns = 0usize;
    for _ in 0..count {
        let Some(standing) = line.standing(columns) else {
            return;
        };
        let is_blank = as_blanks && standing.character != '\t';
        let character = if is_blank { ' ' } else { standing.character };
        let _ = eprint!(rt; "{character}");
        columns = columns.saturating_add(standing.columns);
        if columns >= count {
            return;
        }
    }
}

/// Shows a line up to the first column that no card has, and a caret below a column of the card, if one is known. Of a
/// line without a text nothing is shown.
pub(crate) fn show_line<R: Eprint, I: FileColumns>(
    rt: &R,
    line: &FileLine<'_, I>,
    column: Option<usize>,
) {
    if line.text.is_empty() {
        return;
    }
    show_columns(rt, line, CARD_COLUMNS.saturating_add(1), false);
    let _ = eprintln!(rt; "");
    if let Some(column) = column {
        show_columns(rt, line, column.saturating_sub(1), true);
        let _ = eprintln!(rt; "^");
    }
}
