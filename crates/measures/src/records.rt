//! What an edit of a record costs beside a new record: a card replaced in the middle of a deck, a hundred
//! cards within a thousand, and twenty all over the deck.

use cards::{Card, Edit, edited_copy};
use edit_core::Kept;
use std::alloc::{AllocError, AllocGlobal, Global};
use std::rt::Files;
use std::time::{CpuClock, Duration};
use std::{fs, io};
use test_parts::{cards_of, counted_record, fixed_keys, name_of};
use work_meter::Meter;

/// How often each is measured; the least time counts.
const ROUNDS: u32 = 20;

/// The card that comes in.
const CARD: &[u8] = b"          SX7    X7+B7";

/// Which cards are replaced: so many, from a place on, each so far behind the one before it.
#[derive(Clone, Copy)]
struct Spread {
    first: u64,
    apart: u64,
    count: u64,
}

/// Processor time, and how much was sized and coded in it.
#[derive(Clone, Copy)]
struct Cost {
    time: Duration,
    sized: u64,
    coded: u64,
}

impl Cost {
    fn counted(time: Duration, meter: &Meter) -> Cost {
        Cost {
            time,
            sized: meter.sized(),
            coded: meter.coded(),
        }
    }
}

/// The edits that replace these cards.
fn replacements(alloc: Global, spread: Spread) -> Result<Vec<Edit>, AllocError> {
    let mut edits = Vec::new(alloc);
    for number in 0..spread.count {
        if let Ok(card) = Card::read(CARD) {
            let behind = number.saturating_mul(spread.apart);
            let at = spread.first.saturating_add(behind);
            edits.push(Edit::Replace { at, card })?;
        }
    }
    Ok(edits)
}

/// A new record of these cards, as many as a deck may have.
fn record_of(alloc: Global, cards: &[Card], meter: &mut Meter) -> io::Result<Kept> {
    let name = name_of("M")?;
    let cards = edited_copy(alloc, cards, &[])?;
    Ok(counted_record(alloc, name, cards, meter)?)
}

/// What a new record costs.
fn new_cost<R: AllocGlobal + CpuClock>(rt: &R, cards: &[Card]) -> io::Result<Cost> {
    let mut meter = work_meter::begin();
    let before = rt.process_cpu_time()?;
    let kept = record_of(rt.alloc(), cards, &mut meter)?;
    let behind = rt.process_cpu_time();
    kept.free();
    Ok(Cost::counted(behind?.saturating_sub(before), &meter))
}

/// What these edits of a record cost, made as a job makes them.
fn cost_of<R: AllocGlobal + CpuClock>(rt: &R, kept: &mut Kept, edits: &[Edit]) -> io::Result<Cost> {
    let mut meter = work_meter::begin();
    let keys = fixed_keys()?;
    let before = rt.process_cpu_time()?;
    if kept
        .edit_in_order(rt.alloc(), keys, edits, &mut meter)
        .is_err()
    {
        return Err(io::Error::other("no such edits"));
    }
    let time = rt.process_cpu_time()?.saturating_sub(before);
    Ok(Cost::counted(time, &meter))
}

/// What edits cost.
fn edit_cost<R: AllocGlobal + CpuClock>(
    rt: &R,
    cards: &[Card],
    spread: Spread,
) -> io::Result<Cost> {
    let mut meter = work_meter::begin();
    let edits = replacements(rt.alloc(), spread)?;
    let mut kept = record_of(rt.alloc(), cards, &mut meter)?;
    let cost = cost_of(rt, &mut kept, &edits);
    kept.free();
    cost
}

/// What a new record costs where no card is replaced, and else what the edits cost.
fn measured<R: AllocGlobal + CpuClock>(rt: &R, cards: &[Card], spread: Spread) -> io::Result<Cost> {
    if spread.count == 0 {
        new_cost(rt, cards)
    } else {
        edit_cost(rt, cards, spread)
    }
}

/// The least that a new record or edits cost, printed.
fn print_least<R: AllocGlobal + CpuClock + Print>(
    rt: &R,
    cards: &[Card],
    spread: Spread,
) -> io::Result<()> {
    let mut least = measured(rt, cards, spread)?;
    for _ in 1..ROUNDS {
        let next = measured(rt, cards, spread)?;
        if next.time < least.time {
            least = next;
        }
    }
    let micros = least.time.as_micros();
    println!(rt;
        "{} edits: {micros} microseconds, {} sized, {} coded",
        spread.count, least.sized, least.coded
    )
}

/// What is measured of so many cards: a new record, one edit in the middle, a hundred from there on, and
/// twenty from one end to the other.
fn spreads(cards: u64) -> [Spread; 4] {
    let first = cards / 2;
    let apart = 10;
    [
        Spread {
            first,
            apart,
            count: 0,
        },
        Spread {
            first,
            apart,
            count: 1,
        },
        Spread {
            first,
            apart,
            count: 100,
        },
        Spread {
            first: cards / 20,
            apart: cards / 22,
            count: 20,
        },
    ]
}

/// The least that each costs of what is measured, printed.
fn print_all<R: AllocGlobal + CpuClock + Print>(rt: &R, cards: &[Card]) -> io::Result<()> {
    for spread in &spreads(cards.len() as u64) {
        print_least(rt, cards, *spread)?;
    }
    Ok(())
}

/// Measures the record of the deck in a file: new, and with edits.
pub fn measure<R: AllocGlobal + Files + CpuClock + Print>(rt: &R, path: &str) -> io::Result<()> {
    let text = fs::read_to_string(rt, path)?;
    let cards = cards_of(rt.alloc(), text.as_str())?;
    print_all(rt, &cards)
}
