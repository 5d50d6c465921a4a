//! Two images, section by section: which instructions stand in one alone, and which name other addresses than
//! those that moved.

use crate::aligning::{Run, aligned};
use crate::image::{Image, Section};
use crate::moves::Moves;
use crate::processor::Processor;
use crate::units::{Unit, between, from_place, units_of};
use std::alloc::{AllocError, Global};
use text_ports::{Piece, Text};

/// What a section of the first image is to the second.
#[derive(Drop)]
enum Beside {
    /// No section is like it.
    Alone,
    /// The section of this number has the same words at the same addresses.
    Same(usize),
    /// The section of this number has others; the runs of instructions that are alike in both.
    Other(usize, Vec<Run>),
}

/// Two images beside each other.
#[derive(Drop)]
pub struct Comparison<'a> {
    one: &'a Image,
    other: &'a Image,
    /// For each section of the first image.
    beside: Vec<Beside>,
    /// Of each section of the second image whether one of the first is like it.
    taken: Vec<bool>,
    /// How the words of the central memory moved.
    moves: Moves,
}

/// Two sections of one name, with what is alike in them.
#[derive(Clone, Copy)]
struct Pair<'a> {
    processor: Processor,
    one: &'a [Unit],
    other: &'a [Unit],
    runs: &'a [Run],
}

/// What was counted in two sections.
#[derive(Clone, Copy)]
struct Counts {
    differences: u64,
    moved: u64,
}

/// Whether two sections have the same words at the same addresses.
fn are_same(one: &Section, other: &Section) -> bool {
    let (rows, others) = (one.rows.as_slice(), other.rows.as_slice());
    rows.len() == others.len()
        && rows.iter().zip(others.iter()).all(|(row, beside)| {
            row.address == beside.address && row.words.as_slice() == beside.words.as_slice()
        })
}

/// Whether two sections have one name.
fn have_one_name(one: &Section, other: &Section) -> bool {
    one.processor == other.processor
        && one.is_deck() == other.is_deck()
        && one.name() == other.name()
}

/// The number of the first section from a place on, and then from the front, that has the name of another and
/// is not taken. An image has few sections (`MOST_SECTIONS`), and those of another mostly in its order.
fn partner(sections: &[Section], taken: &[bool], from: usize, section: &Section) -> Option<usize> {
    for step in 0..sections.len() {
        let place = from.saturating_add(step) % sections.len();
        let is_free = taken.get(place).copied() == Some(false);
        if is_free
            && sections
                .get(place)
                .is_some_and(|other| have_one_name(section, other))
        {
            return Some(place);
        }
    }
    None
}

/// The only sections of two images, which are compared whatever their names.
fn only_sections<'a>(one: &'a Image, other: &'a Image) -> Option<(&'a Section, &'a Section)> {
    match (one.sections.as_slice(), other.sections.as_slice()) {
        ([one], [other]) if one.processor == other.processor => Some((one, other)),
        _ => None,
    }
}

/// Notes the words of a section, which stay where they are.
fn note_same(moves: &mut Moves, section: &Section) {
    for row in section.rows.as_slice() {
        for address in row.address..row.end() {
            moves.note(address, address);
        }
    }
}

/// Notes the words that begin with an instruction of a run in both sections.
fn note_run(moves: &mut Moves, pair: Pair<'_>, run: Run) {
    let one = between(pair.one, run.one, run.one.saturating_add(run.length));
    for (unit, beside) in one.iter().zip(from_place(pair.other, run.other).iter()) {
        if unit.parcel == 0 && beside.parcel == 0 {
            moves.note(unit.address, beside.address);
        }
    }
}

/// Notes how the words of two sections moved.
fn note_pair(moves: &mut Moves, pair: Pair<'_>) {
    for run in pair.runs {
        note_run(moves, pair, *run);
    }
}

/// Lays two sections beside each other, and notes how words of the central memory moved.
fn laid_beside(
    alloc: Global,
    moves: &mut Moves,
    one: &Section,
    other: &Section,
    number: usize,
) -> Result<Beside, AllocError> {
    let is_central = one.processor == Processor::Central;
    if are_same(one, other) {
        if is_central {
            note_same(moves, one);
        }
        return Ok(Beside::Same(number));
    }
    let units = units_of(alloc, one)?;
    let others = units_of(alloc, other)?;
    let runs = aligned(alloc, units.as_slice(), others.as_slice())?;
    if is_central {
        let pair = Pair {
            processor: one.processor,
            one: units.as_slice(),
            other: others.as_slice(),
            runs: runs.as_slice(),
        };
        note_pair(moves, pair);
    }
    Ok(Beside::Other(number, runs))
}

/// Writes the instructions that stand in one section alone.
fn push_units(text: &mut Piece, processor: Processor, units: &[Unit], sign: u8) {
    for unit in units {
        unit.push_line(text, processor, sign);
    }
}

/// Writes what stands between two runs, one difference if anything does.
fn push_gap(
    text: &mut Piece,
    counts: &mut Counts,
    processor: Processor,
    one: &[Unit],
    other: &[Unit],
) {
    if !one.is_empty() || !other.is_empty() {
        counts.differences = counts.differences.saturating_add(1);
    }
    push_units(text, processor, one, b'-');
    push_units(text, processor, other, b'+');
}

/// Writes two instructions that name other addresses, or counts them where the address moved.
fn push_named(
    text: &mut Piece,
    counts: &mut Counts,
    processor: Processor,
    moves: &Moves,
    units: (&Unit, &Unit),
) {
    let (unit, beside) = units;
    let (from, to) = (unit.target().unwrap_or(0), beside.target().unwrap_or(0));
    if from == to {
        return;
    }
    if moves.has_moved(from, to) {
        counts.moved = counts.moved.saturating_add(1);
        return;
    }
    counts.differences = counts.differences.saturating_add(1);
    unit.push_line(text, processor, b'-');
    beside.push_line(text, processor, b'+');
}

/// Writes the instructions of a run that name another address, and counts those whose address moved.
fn push_run(text: &mut Piece, counts: &mut Counts, pair: Pair<'_>, moves: &Moves, run: Run) {
    let one = between(pair.one, run.one, run.one.saturating_add(run.length));
    for (unit, beside) in one.iter().zip(from_place(pair.other, run.other).iter()) {
        push_named(text, counts, pair.processor, moves, (unit, beside));
    }
}

/// Writes what differs in two sections, and counts it.
fn push_pair(text: &mut Piece, pair: Pair<'_>, moves: &Moves) -> Counts {
    let mut counts = Counts {
        differences: 0,
        moved: 0,
    };
    let (mut begin, mut beside) = (0usize, 0usize);
    for run in pair.runs {
        let run = *run;
        let gap = between(pair.one, begin, run.one);
        let gap_beside = between(pair.other, beside, run.other);
        push_gap(text, &mut counts, pair.processor, gap, gap_beside);
        push_run(text, &mut counts, pair, moves, run);
        begin = run.one.saturating_add(run.length);
        beside = run.other.saturating_add(run.length);
    }
    let rest = from_place(pair.one, begin);
    let rest_beside = from_place(pair.other, beside);
    push_gap(text, &mut counts, pair.processor, rest, rest_beside);
    counts
}

/// Writes a count and what it is of, with a plural.
fn push_count(text: &mut Piece, count: u64, one: &[u8], more: &[u8]) {
    text.put_decimal(count);
    text.put(b" ");
    text.put(if count == 1 { one } else { more });
}

/// Writes the first words of a title, by which a section is known.
fn push_name(text: &mut Piece, section: &Section) {
    text.put(if section.is_deck() {
        b"DECK "
    } else {
        b"COMMON "
    });
    text.put(section.name());
}

/// Writes the line of a section that one image has alone.
fn push_alone(text: &mut Piece, section: &Section, behind: &[u8]) {
    push_name(text, section);
    text.put(behind);
}

/// Writes the line of two sections that are not the same.
fn push_counts(text: &mut Piece, section: &Section, counts: Counts) {
    push_name(text, section);
    text.put(b": ");
    push_count(text, counts.differences, b"difference", b"differences");
    text.put(b", ");
    push_count(text, counts.moved, b"address moved\n", b"addresses moved\n");
}

/// Writes what differs in two sections of a peripheral processor, whose words move by themselves.
fn push_peripheral(alloc: Global, text: &mut Piece, pair: Pair<'_>) -> Result<Counts, AllocError> {
    let mut moves = Moves::new(alloc, Processor::Peripheral)?;
    note_pair(&mut moves, pair);
    moves.settle()?;
    Ok(push_pair(text, pair, &moves))
}

impl<'a> Comparison<'a> {
    /// Lays two images beside each other: sections of one name, and where each image has one section alone,
    /// these, whatever their names.
    pub fn new(
        alloc: Global,
        one: &'a Image,
        other: &'a Image,
    ) -> Result<Comparison<'a>, AllocError> {
        let mut comparison = Comparison {
            one,
            other,
            beside: Vec::new(alloc),
            taken: vec![in alloc; false; other.sections.len()]?,
            moves: Moves::new(alloc, Processor::Central)?,
        };
        match only_sections(one, other) {
            Some((section, beside)) => comparison.lay(alloc, section, beside, 0)?,
            None => comparison.lay_all(alloc)?,
        }
        comparison.moves.settle()?;
        Ok(comparison)
    }

    /// Lays the next section beside the one of this number.
    fn lay(
        &mut self,
        alloc: Global,
        section: &Section,
        other: &Section,
        number: usize,
    ) -> Result<(), AllocError> {
        let beside = laid_beside(alloc, &mut self.moves, section, other, number)?;
        self.beside.push(beside)?;
        if let Some(taken) = self.taken.as_mut_slice().get_mut(number) {
            *taken = true;
        }
        Ok(())
    }

    /// Lays each section beside the next one of its name.
    fn lay_all(&mut self, alloc: Global) -> Result<(), AllocError> {
        let (one, other) = (self.one, self.other);
        let others = other.sections.as_slice();
        let mut from = 0usize;
        for section in one.sections.as_slice() {
            match partner(others, self.taken.as_slice(), from, section) {
                Some(number) => {
                    if let Some(beside) = others.get(number) {
                        self.lay(alloc, section, beside, number)?;
                    }
                    from = number.saturating_add(1);
                }
                None => self.beside.push(Beside::Alone)?,
            }
        }
        Ok(())
    }

    /// Whether the two images have the same sections with the same words at the same addresses.
    pub fn is_same(&self) -> bool {
        let is_all_taken = self.taken.as_slice().iter().all(|taken| *taken);
        let mut is_same = true;
        for beside in self.beside.as_slice() {
            is_same = is_same && matches!(beside, Beside::Same(_));
        }
        is_same && is_all_taken
    }

    /// How many texts it has: one for each section of the first image, and one for those that the second has
    /// alone.
    pub fn parts(&self) -> usize {
        self.beside.len().saturating_add(1)
    }

    /// A text: a line for each instruction that differs, and one that counts them.
    pub fn part(&self, alloc: Global, number: usize) -> Result<Text, AllocError> {
        let (one, other) = (self.one, self.other);
        let section = one.sections.as_slice().get(number);
        let beside = self.beside.as_slice().get(number);
        let (Some(section), Some(beside)) = (section, beside) else {
            return self.others_alone(alloc);
        };
        let mut text = Piece::new(alloc);
        match beside {
            Beside::Alone => push_alone(&mut text, section, b": in the first image alone\n"),
            Beside::Same(_) => {}
            Beside::Other(place, runs) => {
                if let Some(other) = other.sections.as_slice().get(*place) {
                    self.push_different(alloc, &mut text, (section, other), runs.as_slice())?;
                }
            }
        }
        text.into_text()
    }

    /// Writes what differs in two sections.
    fn push_different(
        &self,
        alloc: Global,
        text: &mut Piece,
        sections: (&Section, &Section),
        runs: &[Run],
    ) -> Result<(), AllocError> {
        let (section, other) = sections;
        let units = units_of(alloc, section)?;
        let others = units_of(alloc, other)?;
        let pair = Pair {
            processor: section.processor,
            one: units.as_slice(),
            other: others.as_slice(),
            runs,
        };
        let counts = match section.processor {
            Processor::Central => push_pair(text, pair, &self.moves),
            Processor::Peripheral => push_peripheral(alloc, text, pair)?,
        };
        push_counts(text, section, counts);
        Ok(())
    }

    /// The lines of the sections that the second image has alone.
    fn others_alone(&self, alloc: Global) -> Result<Text, AllocError> {
        let mut text = Piece::new(alloc);
        let sections = self.other.sections.as_slice();
        for (section, taken) in sections.iter().zip(self.taken.as_slice().iter()) {
            if !*taken {
                push_alone(&mut text, section, b": in the second image alone\n");
            }
        }
        text.into_text()
    }
}
