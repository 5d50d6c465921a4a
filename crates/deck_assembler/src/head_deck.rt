//! The neutral statements in front of an edited card: in a deck of another kind they stay as they were
//! sized.
ghost use Rattle.std.specs.Prelude.{◌≡◌, ◌++◌, List, true, IfOk};
ghost use Rattle.deck_assembler.specs.Joins.Agreements.{left};
ghost use Rattle.deck_assembler.specs.Joins.DeckParts.{sized_in};
ghost use Rattle.deck_assembler.specs.Joins.Heads.{AreHead, IsHeadDeck, IsOfHead};
ghost use Rattle.deck_assembler.specs.Joins.Meetings.{cards_of};

use crate::former_lines::ends_within;
use crate::old_deck::{OldCards, OldDeck, Stage};
use crate::pieces::Piece;
use crate::sized_statement::SizedStatement;
use crate::symbol_table::SymbolTable;
use definitions::DeckKind;
use std::alloc::{AllocError, Global};
use std::collections::VecDeque;
use std::hash::RandomState;
use use_blocks::BlockState;

/// The statements of a head in order, and how many cards they have.
#[derive(Drop)]
struct Head {
    statements: Vec<SizedStatement>,
    cards: usize,
}

/// Whether a statement behind so many cards is neutral and ends within so many.
fn is_of_head(sized: &SizedStatement, stood: usize, before: usize) -> bool
    ensures yes { result ≡ true → IsOfHead before stood sized.now }
    ensures no { IsOfHead before stood sized.now → result ≡ true }
{
    sized.operation.is_neutral() && ends_within(stood, sized.cards as u32, before)
}

/// The first statements of a deck, as far as they are neutral and end within so many cards.
fn taken_head(alloc: Global, deck: &mut OldDeck<'_>, before: usize) -> Result<Head, AllocError>
    ensures head { IfOk result (λ head. AreHead before 0 (left deck.old) head.statements.items) }
    ensures cards { IfOk result (λ head. head.cards ≡ cards_of head.statements.items) }
{
    let mut head = Vec::new(alloc);
    let mut cards = 0;
    'statements: loop {
        match deck.next() {
            None => break 'statements,
            Some(sized) => {
                if !is_of_head(&sized, cards, before) {
                    break 'statements;
                }
                cards += sized.cards as usize;
                head.push(sized)?;
            }
        }
    }
    Ok(Head {
        statements: head,
        cards,
    })
}

/// What stays of a deck in an edited one of another kind, which this is: its first statements, as far as
/// they are neutral and end before the edited card. They are all that is left of it, and so many cards
/// of them stand unchanged.
pub(crate) fn head_deck<'a>(
    alloc: Global,
    keys: RandomState,
    old: OldCards<'a>,
    pieces: Vec<Piece>,
    kind: DeckKind,
) -> Result<OldDeck<'a>, AllocError>
    ensures { IfOk result (IsHeadDeck kind old.entry.before old.entry.cards.now (sized_in pieces.items)) }
{
    let mut whole = OldDeck::of(alloc, keys, old, pieces, kind, Stage::Over)?;
    let head = taken_head(alloc, &mut whole, old.before)?;
    let ahead = old.cards.split_at(head.cards.min(old.cards.len())).0;
    Ok(OldDeck {
        kind,
        ahead,
        statements: VecDeque::from_vec(head.statements),
        pieces: VecDeque::new(alloc),
        before: head.cards,
        behind: 0,
        stage: Stage::Front,
        state: BlockState::new(alloc)?,
        symbols: SymbolTable::new(alloc, keys),
        missed: None,
    })
}
