//! How many rows or cases are as wanted.

use std::io;

/// How many rows or cases ran, and how many of them were as wanted.
#[derive(Clone, Copy)]
pub struct Score {
    ran: u64,
    as_wanted: u64,
}

impl Score {
    /// The score of none.
    pub fn none() -> Score {
        let (ran, as_wanted) = (0, 0);
        Score { ran, as_wanted }
    }

    /// The score with one more. A count stays at its greatest value.
    pub fn with(self, is_as_wanted: bool) -> Score {
        Score {
            ran: self.ran.saturating_add(1),
            as_wanted: self.as_wanted.saturating_add(u64::from(is_as_wanted)),
        }
    }

    /// Prints on a line how many of these are as wanted: the status is 0 where all are, else 1.
    pub fn tell<R: Print>(self, rt: &R, what: &str) -> io::Result<u8> {
        let Score { ran, as_wanted } = self;
        if ran == as_wanted {
            println!(rt; "{what}: {ran} are as wanted")?;
            return Ok(0);
        }
        println!(rt; "{what}: {as_wanted} of {ran} are as wanted")?;
        Ok(1)
    }
}
