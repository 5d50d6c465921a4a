//! Each read and each write of what is tried fails in turn, in pieces.

use crate::notes::Called;
use crate::scene::Scene;
use std::alloc::Global;
use test_parts::{Failing, Got};

/// How many calls of a port are failed at most.
const MOST: u64 = 5000;

/// What came of something that was tried.
#[derive(Clone, Copy)]
pub enum Came {
    /// It came to its end.
    Whole,
    /// The port failed, with what is wanted of it.
    Failed,
    /// There was no memory, with what is wanted of it.
    Lacking,
    /// Something else.
    Wrong,
}

/// What is wanted came, or something else.
pub fn held(holds: bool, came: Came) -> Came {
    if holds { came } else { Came::Wrong }
}

/// What a fault of the writer is: one to memory fails too where it finds none.
pub fn written(failing: Failing, holds: bool) -> Came {
    if failing.write == 0 {
        Came::Lacking
    } else {
        held(holds, Came::Failed)
    }
}

/// What is tried.
pub trait Tries {
    /// Tries once, with ports that fail so.
    fn try_once(&self, alloc: Global, failing: Failing) -> Got<Came>;
}

/// Tries once more where there is no memory.
pub fn try_twice<T: Tries>(
    scene: &mut Scene,
    call: Called,
    tried: &T,
    failing: Failing,
) -> Got<Came> {
    let came = tried.try_once(scene.alloc, failing)?;
    if came != Came::Lacking {
        return Ok(came);
    }
    scene.journal.refused(call, true);
    tried.try_once(scene.alloc, failing)
}

/// Fails each call of a port in turn, up to a try whose every call succeeds.
pub fn fail_each<T: Tries>(
    scene: &mut Scene,
    call: Called,
    tried: &T,
    piece: usize,
    is_read: bool,
) -> Got<()> {
    let mut came = Came::Failed;
    for before in 0..MOST {
        let at = before.saturating_add(1);
        let (read, write) = if is_read { (at, 0) } else { (0, at) };
        came = try_twice(scene, call, tried, Failing { piece, read, write })?;
        if came != Came::Failed {
            break;
        }
    }
    scene.journal.made(call, came == Came::Whole);
    Ok(())
}

/// Fails each read, each write or both in turn, in pieces of one byte and of seven.
pub fn fail_all<T: Tries>(scene: &mut Scene, call: Called, tried: &T, ports: &[bool]) -> Got<()> {
    for is_read in ports {
        fail_each(scene, call, tried, 1, *is_read)?;
        fail_each(scene, call, tried, 7, *is_read)?;
    }
    Ok(())
}
