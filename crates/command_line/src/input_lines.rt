//! The lines of files that are no cards, told on standard error: the first, which ends the run, and those behind it,
//! up to twenty faults in all, and last a line that is cut. Of a line with faults of several kinds, each of which
//! another option helps, the first of each kind is told.

use crate::run_faults::{BadCharacter, LineFault, RunFault, fault_column, named};
use crate::shown_lines::{FileLine, show_line};
use crate::tab_places::{CARD_COLUMNS, FileColumns};
use asm_main::{AsmFault, Chained, column_of, line_of, words_of};
use cards::{Card, CardFault};
use definitions::has_display_code;
use std::io::{BufReader, Read};
use text_ports::{Counted, LineBuf, LineIs, next_held_line};

/// How many faults are told at most, without that of a line that is cut.
const MOST_TOLD: usize = 20;

/// How many lines are looked at, as many as a run reads.
const MOST_LINES: u64 = 1_280_001;

/// How faults are told: the names of the files, and whether their lines are shown below.
#[derive(Clone, Copy)]
pub(crate) struct LineTelling<'t, 'a> {
    pub names: &'t [&'a str],
    pub explain: bool,
}

/// A line of the input that is refused.
#[derive(Clone, Copy)]
struct RefusedLine {
    number: u64,
    /// Whether it is no card.
    is_bad: bool,
    /// Whether no line feed ends it.
    is_cut: bool,
}

/// Goes on to the end of a line of which 257 bytes are read: whether no line feed ends it.
fn skip_line<R: Read>(input: &mut Counted<BufReader<R>>) -> bool {
    let mut rest = LineBuf::new();
    for _ in 0..u64::MAX {
        match next_held_line(input, &mut rest) {
            LineIs::TooLong => {}
            LineIs::Line | LineIs::Fault => return false,
            LineIs::End | LineIs::Cut => return true,
        }
    }
    false
}

/// A reader behind the line that was read last, of which 257 bytes may be read, and whether no line feed ends that.
fn behind_line<R: Read + Drop>(reader: BufReader<R>, is_long: bool) -> (BufReader<R>, bool) {
    let mut input = Counted::new(reader);
    let is_cut = is_long && skip_line(&mut input);
    (input.into_inner(), is_cut)
}

/// Whether a line shows no card.
fn is_no_card(text: &[u8]) -> bool {
    matches!(Card::read(text), Err(_))
}

/// The next line that is refused, behind so many lines; none where the input ends before. Its text is left in `line`,
/// unless it is cut or has more than 256 bytes.
fn next_refused<R: Read>(
    input: &mut Counted<BufReader<R>>,
    line: &mut LineBuf,
    before: u64,
) -> Option<RefusedLine> {
    for count in before..MOST_LINES {
        let (is_bad, is_cut) = match next_held_line(input, line) {
            LineIs::Line => (is_no_card(line.as_slice()), false),
            LineIs::TooLong => (true, skip_line(input)),
            LineIs::Cut => (false, true),
            LineIs::End | LineIs::Fault => return None,
        };
        if is_bad || is_cut {
            return Some(RefusedLine {
                number: count.saturating_add(1),
                is_bad,
                is_cut,
            });
        }
    }
    None
}

/// The words of the character in a column of a line, if no card has it.
fn words_at(text: &[u8], column: usize) -> Option<&'static str> {
    let character = text.get(column.saturating_sub(1))?;
    if has_display_code(*character) {
        return None;
    }
    let fault = CardFault::BadCharacter { column };
    words_of(AsmFault::BadLine { line: 0, fault }, text)
}

/// Whether the character in a column is one that no card has, and the first of its kind in the line.
fn begins_kind(text: &[u8], column: usize) -> bool {
    let words = words_at(text, column);
    for before in 1..column {
        if words_at(text, before) == words {
            return false;
        }
    }
    words.is_some()
}

/// Whether a line is too wide. One of more than 256 bytes has no text.
fn is_too_wide(text: &[u8]) -> bool {
    text.is_empty() || matches!(Card::read(text), Err(CardFault::TooWide))
}

/// The character that is in no set, if a fault is about one.
fn character_of(fault: AsmFault, text: &[u8]) -> BadCharacter {
    BadCharacter(match fault {
        AsmFault::BadLine {
            fault: CardFault::BadCharacter { column },
            ..
        } => text.get(column.saturating_sub(1)).copied(),
        _ => None,
    })
}

/// Tells a fault of a line, if there are words of it: whether there are.
fn tell_fault<R: Eprint, I: FileColumns>(
    rt: &R,
    fault: AsmFault,
    line: &FileLine<'_, I>,
    telling: LineTelling<'_, '_>,
) -> bool {
    let name = telling.names.get(line.place.part);
    let (Some(name), Some(words)) = (name, words_of(fault, line.text)) else {
        return false;
    };
    let told = LineFault {
        name: *name,
        line: line.place.line,
        column: fault_column(fault, line.chain, line.place),
        words,
        character: character_of(fault, line.text),
        fault,
    };
    let _ = eprintln!(rt; "{told}");
    if telling.explain {
        show_line(rt, line, column_of(fault));
    }
    true
}

/// Tells why the line with this number is no card.
fn tell_card_fault<R: Eprint, I: FileColumns>(
    rt: &R,
    number: u64,
    fault: CardFault,
    line: &FileLine<'_, I>,
    telling: LineTelling<'_, '_>,
) {
    let fault = AsmFault::BadLine {
        line: number,
        fault,
    };
    let _ = tell_fault(rt, fault, line, telling);
}

/// Tells of each kind the first fault of the line with this number, so many at most: how many it told.
fn tell_bad_line<R: Eprint, I: FileColumns>(
    rt: &R,
    number: u64,
    line: &FileLine<'_, I>,
    telling: LineTelling<'_, '_>,
    most: usize,
) -> usize {
    let mut told = 0usize;
    if told < most && is_too_wide(line.text) {
        tell_card_fault(rt, number, CardFault::TooWide, line, telling);
        told = 1;
    }
    for column in 1..=CARD_COLUMNS {
        if told < most && begins_kind(line.text, column) {
            tell_card_fault(
                rt,
                number,
                CardFault::BadCharacter { column },
                line,
                telling,
            );
            told = told.saturating_add(1);
        }
    }
    told
}

/// Tells why a line is refused, by so many faults at most beside that of a cut line. How many it told of these.
fn tell_line<R: Eprint, I: FileColumns>(
    rt: &R,
    refused: RefusedLine,
    chain: &Chained<I>,
    text: &[u8],
    telling: LineTelling<'_, '_>,
    most: usize,
) -> usize {
    let place = chain.place_of(refused.number);
    let line = FileLine { chain, place, text };
    let told = if refused.is_bad {
        tell_bad_line(rt, refused.number, &line, telling, most)
    } else {
        0
    };
    if refused.is_cut {
        let _ = tell_fault(rt, AsmFault::LastLineCut, &line, telling);
    }
    told
}

/// Tells the line with this number, which is no card, and those behind it that are refused, in the order in which
/// they stand.
fn tell_refused<R: Eprint, I: Read + FileColumns + Drop>(
    rt: &R,
    number: u64,
    reader: BufReader<Chained<I>>,
    line: &mut LineBuf,
    telling: LineTelling<'_, '_>,
) {
    let (mut reader, is_cut) = behind_line(reader, line.as_slice().is_empty());
    let mut refused = RefusedLine {
        number,
        is_bad: true,
        is_cut,
    };
    let mut left = MOST_TOLD;
    for _ in 0..MOST_LINES {
        let told = tell_line(
            rt,
            refused,
            reader.get_ref(),
            line.as_slice(),
            telling,
            left,
        );
        left = left.saturating_sub(told);
        if refused.is_cut {
            break;
        }
        let mut input = Counted::new(reader);
        let found = next_refused(&mut input, line, refused.number);
        reader = input.into_inner();
        let Some(next) = found else {
            break;
        };
        refused = next;
    }
}

/// Tells a fault of the input that is none of a card, with its place, if there are words of it.
fn tell_other<'a, R: Eprint, I: FileColumns>(
    rt: &R,
    fault: AsmFault,
    chain: &Chained<I>,
    held: &[u8],
    text: &[u8],
    telling: LineTelling<'_, 'a>,
) -> RunFault<'a> {
    let place = chain.place_of(line_of(fault, chain.lines_taken(held)));
    if tell_fault(rt, fault, &FileLine { chain, place, text }, telling) {
        RunFault::Told(fault)
    } else {
        named(fault, chain, telling.names)
    }
}

/// The fault of a run. One of a line of the input is told, with its place; where that is no card, those behind it are
/// told, too. `line` was read last.
pub(crate) fn tell_lines<'a, R: Eprint, I: Read + FileColumns + Drop>(
    rt: &R,
    fault: AsmFault,
    reader: BufReader<Chained<I>>,
    line: &mut LineBuf,
    telling: LineTelling<'_, 'a>,
) -> RunFault<'a> {
    if let AsmFault::BadLine { line: number, .. } = fault {
        tell_refused(rt, number, reader, line, telling);
        return RunFault::Told(fault);
    }
    let (chain, held) = (reader.get_ref(), reader.buffer());
    tell_other(rt, fault, chain, held, line.as_slice(), telling)
}
