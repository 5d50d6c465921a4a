//! The lines that a page sends: served as those of a session.
ghost use Rattle.std.specs.Prelude.{◌≡◌};
ghost use Rattle.desk_service.specs.PageLines.{is_whole};

use crate::sessions::{Ending, serve_session};
use deck_files::Shelf;
use page::{Replies, ServeLines, Served};
use session_line::{Calls, Rights};
use std::alloc::Global;
use std::hash::RandomState;
use std::marker::Model;
use text_ports::Counted;

/// Whether each line of a session that ended so has its reply: all replies found room, and the first line is no
/// request of HTTP, which has none.
fn is_whole(ending: Ending) -> bool
    ensures { result ≡ is_whole ending }
{
    match ending {
        Ending::Left | Ending::Full | Ending::Stranger => true,
        Ending::Request | Ending::ReadFault | Ending::WriteFault => false,
    }
}

/// A desk and a shelf, at which lines in memory are served. Contracts see the two as a pair.
#[derive(Drop)]
pub struct DeskLines<C, S> {
    alloc: Global,
    /// The keys of its tables.
    keys: RandomState,
    desk: C,
    shelf: S,
}

impl<C, S> Model for DeskLines<C, S> {
    ghost Value = { C × S };

    ghost view = { λ l. (l.desk, l.shelf) };
}

impl<C, S> DeskLines<C, S> {
    pub fn new(alloc: Global, keys: RandomState, desk: C, shelf: S) -> DeskLines<C, S>
        ensures { result ≡ (desk, shelf) }
    {
        DeskLines {
            alloc,
            keys,
            desk,
            shelf,
        }
    }
}

impl<C: Calls, S: Shelf> ServeLines for DeskLines<C, S> {
    ghost use Rattle.desk_service.specs.PageLines.{ServesBody};

    ghost serves = { ServesBody C.relations S.relations };

    fn serve(&mut self, lines: &[u8], replies: Replies) -> Served {
        let (mut input, mut output) = (Counted::new(lines), Counted::new(replies));
        let (desk, shelf) = (&mut self.desk, &mut self.shelf);
        let ending = serve_session(
            self.alloc,
            self.keys,
            Rights::Edits,
            &mut input,
            &mut output,
            desk,
            shelf,
        );
        Served {
            replies: output.into_inner(),
            is_whole: is_whole(ending),
        }
    }
}
