//! Where what stood at the addresses of one image is in another.

use crate::processor::Processor;
use std::alloc::{AllocError, Global};

/// How far what stands at each address of a memory moved, as far as that is known.
#[derive(Drop)]
pub(crate) struct Moves {
    /// How far what stands there or next in front of it moved.
    before: Vec<Option<u32>>,
    /// How far what stands there or next behind it moved.
    behind: Vec<Option<u32>>,
}

/// Gives each place that has nothing what stands in the place before it.
fn fill(shifts: &mut [Option<u32>]) {
    let mut last = None;
    for shift in shifts.iter_mut() {
        match *shift {
            Some(_) => last = *shift,
            None => *shift = last,
        }
    }
}

/// The same from the end on.
fn fill_back(shifts: &mut [Option<u32>]) {
    let mut last = None;
    for shift in shifts.iter_mut().rev() {
        match *shift {
            Some(_) => last = *shift,
            None => *shift = last,
        }
    }
}

impl Moves {
    /// A memory in which nothing is known to have moved.
    pub(crate) fn new(alloc: Global, processor: Processor) -> Result<Moves, AllocError> {
        let none: Option<u32> = None;
        Ok(Moves {
            before: vec![in alloc; none; processor.memory_size()]?,
            behind: Vec::new(alloc),
        })
    }

    /// Notes that what stands at an address is at another one. What is no address of the memory is left.
    pub(crate) fn note(&mut self, from: u32, to: u32) {
        if let Some(shift) = self.before.as_mut_slice().get_mut(from as usize) {
            *shift = Some(to.wrapping_sub(from));
        }
    }

    /// Once all is noted: what stands between two addresses moved as what is before it, or as what is behind.
    pub(crate) fn settle(&mut self) -> Result<(), AllocError> {
        self.behind.extend_from_slice(self.before.as_slice())?;
        fill(self.before.as_mut_slice());
        fill_back(self.behind.as_mut_slice());
        Ok(())
    }

    /// Whether an address moved as what stands next to it did. In front of all that is known nothing moves.
    pub(crate) fn has_moved(&self, from: u32, to: u32) -> bool {
        let shift = to.wrapping_sub(from);
        let before = self.before.as_slice().get(from as usize).copied();
        let behind = self.behind.as_slice().get(from as usize).copied();
        match (before, behind) {
            (Some(Some(before)), Some(behind)) => before == shift || behind == Some(shift),
            _ => false,
        }
    }
}
