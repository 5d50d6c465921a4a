//! The decks of the scenarios.

use cards::Card;
use test_parts::Got;

/// A deck: its name, and its lines.
#[derive(Clone, Copy)]
pub struct DeckText {
    pub name: &'static str,
    pub lines: &'static str,
}

/// Decks that are linked with each other, with a common block that two of them store in.
pub const DECKS: [DeckText; 3] = [
    DeckText {
        name: "MAIN",
        lines: "          IDENT  MAIN
          ENTRY  START
          EXT    TABLE,LIMIT
START     SX1    LIMIT
          SA2    TABLE+1
          SA3    =5
          RJ     START
          USE    /TAB/
BUF       BSSZ   3
          USE    0
          BX6    X1
          END
",
    },
    DeckText {
        name: "DATAS",
        lines: "          IDENT  DATAS
          ENTRY  TABLE
TABLE     DATA   1,2,10HHELLO 6600
          VFD    42/0,18/TABLE
          FOO    1
          USE    /TAB/
          DATA   7
          END
",
    },
    DeckText {
        name: "CONST",
        lines: "          IDENT  CONST
          ABS
          ENTRY  LIMIT
LIMIT     EQU    12
          ORG    110B
          SA1    =7
          DIS    2,TWO WORDS
          END
",
    },
];

/// Puts cards as lines behind others.
pub fn push_lines(lines: &mut Vec<u8>, cards: &[Card]) -> Got<()> {
    for card in cards {
        lines.extend_from_slice(card.as_slice())?;
        lines.extend_from_slice(b"\n")?;
    }
    Ok(())
}

/// Whether both are the same cards.
pub fn are_same(cards: &[Card], others: &[Card]) -> bool {
    let mut are_same = cards.len() == others.len();
    for (card, other) in cards.iter().zip(others.iter()) {
        are_same &= card.as_slice() == other.as_slice();
    }
    are_same
}
