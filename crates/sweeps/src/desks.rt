//! Scenarios of a desk: every call of it, jobs delivered, given up and handed in wrong, and a desk that
//! is settled.

use crate::jobs::{End, do_jobs};
use crate::scene::Scene;
use test_parts::Got;

/// How many jobs a desk of the three decks has at most.
const JOBS: usize = 8;

/// Commands behind the loading of the three decks, which has the versions 1 to 3.
const CHANGES: &str = "> INS MAIN 1 5 *A
OK 4
> INS MAIN 1 5 *B
NO OldVersion 4
> DEL MAIN 4 99
NO NoSuchCard
> BATCH DATAS 2 4|INS 3 *B|REP 3 *C|INS 5           CON    =9|DEL 3
OK 5
> BATCH DATAS 5 2|INS 3 *B|DEL 99
NO BadEdit 2 NoSuchCard
> ADD MAIN
NO NameTaken
> LOAD MAIN
NO NameTaken
> CARDS MAIN
OK 4 13
          IDENT  MAIN
          ENTRY  START
          EXT    TABLE,LIMIT
START     SX1    LIMIT
*A
          SA2    TABLE+1
          SA3    =5
          RJ     START
          USE    /TAB/
BUF       BSSZ   3
          USE    0
          BX6    X1
          END
> CARDS NONE
NO NoDeck
> STATUS
OK 5 4
PUBLISHED NONE
MAIN 4 13 BEHIND
DATAS 5 9 BEHIND
CONST 3 8 BEHIND
> WAIT 5
OK 5 1
PUBLISHED NONE
> LIST
NO NoPublication
> ERRORS
NO NoPublication
> PUT MAIN 1 1|*P
NO OldVersion 4
> PUT MAIN 4 4|          IDENT  MAIN|          EXT    TABLE,LIMIT|          SX1    LIMIT|          END
OK 6
> PUT NONE 4 1|*P
NO NoDeck
> PUT NEW 0 2|          IDENT  NEW|          END
OK 7
> ADD LATE
OK 8
> REP CONST 3 4 LIMIT     EQU    13
OK 9
> DROP CONST 1
NO OldVersion 9
> DROP CONST 9
OK 10
> DROP LATE 8
OK 11
";

/// What is shown behind them, once it is published.
const SHOWN: &str = "> WAIT 11
OK 11 1
PUBLISHED 11
> LIST NEW
OK 11 5
DECK NEW REL
00001           IDENT  NEW
00002           END
BLOCK 0 00000000 00000000
ERRORS 0
> IMAGE MAIN
OK 11 2
DECK MAIN REL 000100
000100 71100000004600046000
> ERRORS MAIN
OK 11 1
LINK U MAIN LIMIT
> ERRORS CONST
NO NoDeck
";

/// Every call of a desk by which people change it and look at it.
pub fn calls(scene: &mut Scene) -> Got<()> {
    scene.load_decks();
    scene.say_all(CHANGES);
    scene.settle_as_asm()?;
    scene.say_all(SHOWN);
    Ok(())
}

/// The edits of a deck that has a record.
const EDITS: &str = "> REP MAIN 1 4 START     SX1    LIMIT+1
OK 4
> BATCH MAIN 4 2|DEL 5|INS 5           SA2    TABLE
OK 5
";

/// Jobs of decks and of the link, begun with cards and with records, each ended in these ways.
pub fn jobs(scene: &mut Scene, ends: &[End]) -> Got<()> {
    scene.load_decks();
    do_jobs(scene, ends, JOBS);
    scene.say_all(EDITS);
    do_jobs(scene, ends, JOBS);
    scene.settle_as_asm()
}

/// A desk that is settled, edited and settled again.
pub fn settled(scene: &mut Scene) -> Got<()> {
    scene.load_decks();
    scene.settle_as_asm()?;
    scene.say_all(EDITS);
    scene.settle_as_asm()
}
