//! Scenarios of sessions: lines that are served where there is no memory, and where each read and each
//! write fails in turn.

use crate::pieces::{Came, Tries, fail_all, held};
use crate::scene::{COMMAND, LACKING, Scene, lines_of};
use desk_tests::serve_up_to;
use session_line::Outcome;
use std::alloc::Global;
use test_parts::{Failing, Got, fixed_keys};
use text_ports::Counted;

/// The file that the session loads.
const FILE: &str = "          IDENT  N
          ENTRY  GO
GO        SA1    =7
          END
";

/// Commands with their lines, and their replies.
const COMMANDS: &str = "> ADD M
OK 1
> INS M 1 1           IDENT  M
OK 2
> BATCH M 2 3|INS 2           EXT    GO|INS 3           RJ     GO|REP 2 *
OK 3
> BATCH M 3 2|DEL 2|DEL 9
NO BadEdit 2 NoSuchCard
> CARDS M
OK 3 3
          IDENT  M
*
          RJ     GO
> CARDS M 3 5
OK 3 1
          RJ     GO
> CHANGES M 2
OK 3 4
CHANGE 3 0 3
INS 2           EXT    GO
INS 3           RJ     GO
REP 2 *
> CARDS M AT 2
OK 2 1
          IDENT  M
> FIND M  M
OK 3 1
1
> SAVE M
OK 3
> LOAD N
OK 4
> STATUS FILES
OK 4 3
PUBLISHED NONE
M 3 3 BEHIND SAVED
N 4 4 BEHIND SAVED
> PUT N 4 2|*|*a
NO BadLine 2 BadCharacter 2
> PUT N 4 4|          IDENT  N|          ENTRY  GO|GO        SA1    =8|          END
OK 5
> LOAD Q
NO CannotOpen
> DEL M 1 1
NO OldVersion 3
> INS M 2+ 2 *X
OK 6
> UNDO M 5
NO NoChange
> UNDO M 3
OK 7
> STATUS
OK 7 3
PUBLISHED NONE
M 7 2 BEHIND
N 5 4 BEHIND
> IMAGE
NO NoPublication
> MAP
NO NoPublication
> ADD M+
NO BadName
> BYE
BYE
";

/// A session whose lines find memory or not.
pub fn session(scene: &mut Scene) -> Got<()> {
    scene.put("N", FILE);
    scene.say_all(COMMANDS);
    scene.settle_as_asm()
}

/// The lines of all commands, or all replies.
fn all(alloc: Global, is_replies: bool) -> Got<Vec<u8>> {
    let mut texts = Vec::new(alloc);
    for step in COMMANDS.split(COMMAND) {
        if let Some((command, reply)) = step.split_once("\n") {
            if is_replies {
                texts.extend_from_slice(reply.as_bytes())?;
            } else {
                texts.extend_from_slice(lines_of(alloc, command)?.as_bytes())?;
            }
        }
    }
    Ok(texts)
}

/// What there is behind each command, and in front of them all.
fn states(scene: &mut Scene) -> Got<Vec<Vec<u8>>> {
    scene.put("N", FILE);
    let mut states = Vec::new(scene.alloc);
    states.push(scene.state())?;
    for step in COMMANDS.split(COMMAND) {
        if let Some((command, reply)) = step.split_once("\n") {
            scene.say_one(command, reply);
            states.push(scene.state())?;
        }
    }
    Ok(states)
}

/// What a session is held against: its lines, its replies, and what there is behind each command.
#[derive(Drop)]
struct Dialogue {
    lines: Vec<u8>,
    replies: Vec<u8>,
    states: Vec<Vec<u8>>,
}

impl Dialogue {
    /// Whether the reply that there is no memory began to go out, and the writer failed in it.
    fn is_cut(&self, text: &str, state: &[u8], outcome: Outcome, executed: usize) -> bool {
        let last = text.rsplit_once('\n').unwrap_or(("", text)).1;
        let is_fault = matches!(outcome, Outcome::WriteFault { .. });
        let is_before = match self.states.get(executed.saturating_sub(1)) {
            Some(before) => before.as_slice() == state,
            None => false,
        };
        is_fault && LACKING.starts_with(last) && is_before
    }

    /// What came of a session that ended so behind so many commands: what went out, and what there is.
    fn came(&self, taken: &[u8], state: &[u8], outcome: Outcome, executed: usize) -> Came {
        let is_over = outcome == Outcome::Ended;
        let is_whole = taken.len() == self.replies.len();
        let is_left = match self.states.get(executed) {
            Some(left) => left.as_slice() == state,
            None => is_over,
        };
        let is_wanted = self.replies.starts_with(taken) && is_left && is_over == is_whole;
        let text = str::from_utf8(taken).unwrap_or("");
        if text.find(LACKING).is_some() {
            Came::Lacking
        } else if !is_wanted {
            let is_cut = self.is_cut(text, state, outcome, executed);
            held(is_cut, Came::Lacking)
        } else if is_over {
            Came::Whole
        } else {
            Came::Failed
        }
    }

    /// What came of a session of all lines in a new place, by ports that fail.
    fn came_in(&self, place: &mut Scene, failing: Failing) -> Came {
        let mut input = Counted::new(failing.reader(&self.lines));
        let mut output = failing.writer(place.alloc);
        let (alloc, most) = (place.alloc, self.states.len());
        let (desk, shelf) = (&mut place.desk, &mut place.shelf);
        let (outcome, number) = serve_up_to(alloc, &mut input, &mut output, desk, shelf, most);
        let is_fault = matches!(outcome, Outcome::WriteFault { .. });
        let executed = number.saturating_add(usize::from(is_fault));
        let state = place.state();
        self.came(output.into_inner().taken(), &state, outcome, executed)
    }
}

impl Tries for Dialogue {
    fn try_once(&self, alloc: Global, failing: Failing) -> Got<Came> {
        let keys = fixed_keys()?;
        let mut place = Scene::new(alloc, keys);
        place.put("N", FILE);
        let came = self.came_in(&mut place, failing);
        let found = place.journal.own(came);
        drop(place);
        found
    }
}

/// A session in which each read and each write fails in turn, in pieces.
pub fn failing(scene: &mut Scene) -> Got<()> {
    let dialogue = Dialogue {
        lines: all(scene.alloc, false)?,
        replies: all(scene.alloc, true)?,
        states: states(scene)?,
    };
    fail_all(scene, "serve_one", &dialogue, &[true, false])
}
