//! The keys of the tables that the rows make: the same in each run.

use std::alloc::AllocError;
use std::hash::RandomState;
use std::io;
use std::random::RandomSource;

/// A source of bytes that gives the same byte always.
struct SameBytes;

impl RandomSource for SameBytes {
    fn fill_bytes(&self, buf: &mut [u8]) -> io::Result<()> {
        for byte in buf {
            *byte = 7;
        }
        Ok(())
    }
}

/// Keys that are the same in each run.
pub fn fixed_keys() -> Result<RandomState, AllocError> {
    RandomState::new(&SameBytes).map_err(|_| AllocError)
}
