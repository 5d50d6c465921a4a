//! All of some bytes to a writer.
ghost use Rattle.std.specs.Prelude.{◌≡◌, ◌+◌, ◌<◌, take, length, OnOk, IfErr, IfOk};
ghost use Rattle.std.specs.Io.KnownBytes.{Appends};
ghost use Rattle.text_ports.specs.Faults.{count_up};

use crate::counted::Counted;
use std::io::Write;
use thiserror::Error;

/// A write that failed: `sent` bytes went out before.
#[derive(Clone, Copy, Debug, Error)]
#[error("the write failed behind {sent} bytes")]
pub struct Broken {
    pub sent: usize,
}

/// Writes all the bytes, or stops at the first fault: exactly the first `sent` bytes went out then.
pub fn put_all<W: Write>(output: &mut Counted<W>, bytes: &[u8]) -> Result<(), Broken>
    ensures all { OnOk result (Appends (W.contents output.old.0) (W.contents output.new.0) bytes.now) }
    ensures prefix { IfErr result (λ b. (b.sent < length bytes.now)
        × Appends (W.contents output.old.0) (W.contents output.new.0) (take b.sent bytes.now)) }
    ensures no_fault { OnOk result (output.new.1 ≡ output.old.1) }
    ensures one_fault { IfErr result (λ b. output.new.1 ≡ count_up output.old.1) }
{
    let mut sent = 0;
    while sent < bytes.len() {
        let (_, rest) = bytes.split_at(sent);
        match output.write_some(rest) {
            Some(count) => sent += count,
            None => return Err(Broken { sent }),
        }
    }
    Ok(())
}
