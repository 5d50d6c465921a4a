//! All of a deck: its statements up to END, sized one behind the other.
ghost use Rattle.std.specs.Prelude.{◌≡◌, ◌<◌, ◌≤◌, ◌+◌, ◌⊎◌, List, [], All, length, take, reverse, IfOk, OnOk};
ghost use Rattle.cards.specs.Joins.Spans.{IsSpan, statements_at};
ghost use Rattle.definitions.specs.Cards as deck_cards;
ghost use Rattle.definitions.specs.DeckKinds.{up_to_end, kind_of_statements};
ghost use Rattle.definitions.specs.Statements.{statements_of};
ghost use Rattle.statement_coder.specs.Meters.{RisesBy};
ghost use Rattle.deck_assembler.specs.Joins.Agreements.{HaveSameEnd};
ghost use Rattle.deck_assembler.specs.Joins.DeckParts.{sized_in};
ghost use Rattle.deck_assembler.specs.Joins.Formers.{IsFormerOf, known_in};
ghost use Rattle.deck_assembler.specs.Joins.Heads.{BeginsBeside, IsHeadDeck, IsOldDeck, IsWholeDeck};
ghost use Rattle.deck_assembler.specs.Joins.OldDecks.{IsKeptOn};
ghost use Rattle.deck_assembler.specs.Joins.SizedDecks.{IsSizedDeck};
ghost use Rattle.deck_assembler.specs.Joins.Takings.{CountsEdited, CountsMade, CountsMaking, HasOld, IsFormerDeck, IsMade, RisesAnewOf};

use crate::former::{EditedDeck, Former};
use crate::head_deck::head_deck;
use crate::old_deck::{OldCards, OldDeck, Stage};
use crate::pieces::Piece;
use crate::sizer::Sizer;
use crate::symbol_table::SymbolTable;
use crate::up_to_end::{card_counts, kind_of};
use cards::{Card, Span, statements};
use definitions::DeckKind;
use expr_forms::Name;
use statement_coder::Meter;
use std::alloc::{AllocError, Global};
use std::hash::RandomState;
use std::marker::Model;
use use_blocks::{Lengths, Literals};

/// What is kept of a deck: its kind, its statements up to END in pieces, how many cards each statement
/// behind END has, its symbols, its externals, its literals and the lengths of its blocks.
#[derive(Drop)]
pub struct SizedDeck {
    kind: DeckKind,
    pieces: Vec<Piece>,
    behind: Vec<u32>,
    symbols: SymbolTable,
    externals: Vec<Name>,
    literals: Literals,
    lengths: Lengths,
}

impl Model for SizedDeck {
    ghost use Rattle.deck_assembler.specs.Joins.DeckParts.{DeckParts};

    ghost Value = { DeckParts };

    ghost view = { λ d. record { kind = d.kind; pieces = d.pieces.items; behind = d.behind.items; symbols = d.symbols; externals = d.externals.items; literals = d.literals; lengths = d.lengths } };
}

impl SizedDeck {
    /// What these cards make: each statement up to END is sized once, behind those before it, and
    /// counted in the meter. An error where memory runs out: then some of them were counted.
    pub fn new(
        alloc: Global,
        keys: RandomState,
        cards: &[Card],
        meter: &mut Meter,
    ) -> Result<SizedDeck, AllocError>
        ensures deck { IfOk result (IsSizedDeck cards.now) }
        ensures sized { meter.new.sized ≤ meter.old.sized + length (up_to_end (statements_of (reverse cards.now))) }
        ensures rises { meter.old.sized ≤ meter.new.sized }
        ensures all { OnOk result (RisesBy (length (up_to_end (statements_of (reverse cards.now)))) meter.old.sized meter.new.sized) }
        ensures coded { meter.new.coded ≡ meter.old.coded }
    {
        let list = statements(alloc, cards)?;
        let kind = kind_of(cards, list.as_slice());
        let none = OldCards {
            cards,
            before: 0,
            behind: 0,
        };
        let old_deck = OldDeck::of(alloc, keys, none, Vec::new(alloc), kind, Stage::Over)?;
        let all = made(alloc, keys, kind, cards, list.as_slice(), old_deck, meter)?;
        Ok(all.deck)
    }

    /// What these cards make, where so many of the first and of the last are those of the deck that this
    /// was made of. The statements of the first ones stay as they were sized, and so do all those behind
    /// the edited card from a place on where both decks agree; the others are sized once, and each that is
    /// settled as none of the deck before counts one. Where the kind of the deck changes none behind stays. And what coding needs of this deck. An error where
    /// memory runs out: then some of them were counted.
    pub fn edited(
        self,
        alloc: Global,
        keys: RandomState,
        old: OldCards<'_>,
        cards: &[Card],
        meter: &mut Meter,
    ) -> Result<EditedDeck, AllocError>
        requires deck { IsSizedDeck old.cards.now self }
        requires before { take old.before old.cards.now ≡ take old.before cards.now }
        requires behind { HaveSameEnd old.behind old.cards.now cards.now }
        ensures deck { IfOk result (λ edited. IsSizedDeck cards.now edited.deck) }
        ensures former { IfOk result (λ edited. IsFormerDeck old.entry.cards.now cards.now old.entry.before old.entry.behind edited.former) }
        ensures counts { CountsEdited old.entry.cards.now cards.now old.entry.before old.entry.behind meter.old meter.new }
        ensures anew { OnOk result (RisesAnewOf old.entry.cards.now cards.now meter.old.sized meter.new.sized) }
    {
        let list = statements(alloc, cards)?;
        let kind = kind_of(cards, list.as_slice());
        let parted = self.parted(alloc, keys, kind, old)?;
        let all = made(
            alloc,
            keys,
            kind,
            cards,
            list.as_slice(),
            parted.old_deck,
            meter,
        )?;
        Ok(EditedDeck {
            deck: all.deck,
            former: parted.former.with_tail(kind, all.tail),
        })
    }

    /// What stays of its statements in a deck of this kind, and what coding needs of it.
    fn parted<'a>(
        self,
        alloc: Global,
        keys: RandomState,
        kind: DeckKind,
        old: OldCards<'a>,
    ) -> Result<Parted<'a>, AllocError>
        requires { IsSizedDeck old.cards.now self }
        ensures beside { IfOk result (λ parted. (cards : List deck_cards.Card) → take old.entry.before old.entry.cards.now ≡ take old.entry.before cards → HaveSameEnd old.entry.behind old.entry.cards.now cards →
            BeginsBeside kind old.entry.cards.now cards old.entry.before parted.old_deck) }
        ensures old_deck { IfOk result (λ parted. kind_of_statements (known_in old.entry.cards.now) ≡ kind → IsWholeDeck old.entry parted.old_deck × ((cards : List deck_cards.Card) →
            take old.entry.before old.entry.cards.now ≡ take old.entry.before cards → HaveSameEnd old.entry.behind old.entry.cards.now cards → IsKeptOn kind old.entry.cards.now cards [] parted.old_deck)) }
        ensures former { IfOk result (λ parted. IsFormerOf old.entry.cards.now parted.former) }
        ensures before { IfOk result (λ parted. parted.former.before ≡ old.entry.before) }
    {
        let old_deck = what_stays(alloc, keys, self.pieces, self.kind, old, kind)?;
        Ok(Parted {
            old_deck,
            former: Former {
                kind: self.kind,
                symbols: self.symbols,
                literals: self.literals,
                before: old.before,
                tail: 0,
            },
        })
    }

    pub fn kind(&self) -> DeckKind
        ensures { result ≡ self.now.kind }
    {
        self.kind
    }

    /// The statements up to END, in pieces: each but the last has 128.
    pub fn pieces(&self) -> &[Piece]
        ensures { result.now ≡ self.now.pieces }
    {
        self.pieces.as_slice()
    }

    /// How many cards each statement behind END has.
    pub fn behind(&self) -> &[u32]
        ensures { result.now ≡ self.now.behind }
    {
        self.behind.as_slice()
    }

    pub fn symbols(&self) -> &SymbolTable
        ensures { result.now ≡ self.now.symbols }
    {
        &self.symbols
    }

    /// The names that it takes from others, in the order in which its EXT statements define them.
    pub(crate) fn externals(&self) -> &[Name]
        ensures { result.now ≡ self.now.externals }
    {
        self.externals.as_slice()
    }

    pub fn literals(&self) -> &Literals
        ensures { result.now ≡ self.now.literals }
    {
        &self.literals
    }

    pub fn lengths(&self) -> &Lengths
        ensures { result.now ≡ self.now.lengths }
    {
        &self.lengths
    }

    /// Frees it. Crates above call this in place of `drop` (CONTRIBUTING).
    pub fn free(self) {
        drop(self);
    }
}

/// The statements of a deck, and what coding needs of it besides.
#[derive(Drop)]
struct Parted<'a> {
    old_deck: OldDeck<'a>,
    former: Former,
}

/// A deck whose statements are sized, and how many cards are left of the old deck and of this one where
/// a tail begins that stayed.
#[derive(Drop)]
struct TailedDeck {
    deck: SizedDeck,
    tail: usize,
}

/// What stays of a deck of one kind in an edited one of this kind: all of it where the kinds are one, and
/// else its head.
fn what_stays<'a>(
    alloc: Global,
    keys: RandomState,
    pieces: Vec<Piece>,
    first: DeckKind,
    old: OldCards<'a>,
    kind: DeckKind,
) -> Result<OldDeck<'a>, AllocError>
    ensures same { IfOk result (λ deck. first ≡ kind → IsOldDeck kind old.entry pieces.items deck) }
    ensures other { IfOk result (λ deck. (first ≡ kind) ⊎ IsHeadDeck kind old.entry.before old.entry.cards.now (sized_in pieces.items) deck) }
{
    if first == kind {
        OldDeck::of(alloc, keys, old, pieces, kind, Stage::Front)
    } else {
        head_deck(alloc, keys, old, pieces, kind)
    }
}

/// What these statements make, in a deck of this kind, beside the old deck.
fn made(
    alloc: Global,
    keys: RandomState,
    kind: DeckKind,
    cards: &[Card],
    spans: &[Span],
    old_deck: OldDeck<'_>,
    meter: &mut Meter,
) -> Result<TailedDeck, AllocError>
    requires statements { statements_at cards.now spans.now ≡ reverse (statements_of (reverse cards.now)) }
    requires spans { All (IsSpan (length cards.now)) spans.now }
    requires kind { kind ≡ kind_of_statements (up_to_end (statements_of (reverse cards.now))) }
    requires old_deck { HasOld kind cards.now old_deck }
    ensures made { IfOk result (λ made. IsMade kind cards.now old_deck.entry made.deck made.tail) }
    ensures counts { CountsMaking kind cards.now old_deck.entry meter.old meter.new }
    ensures counted { OnOk result (CountsMade kind cards.now old_deck.entry meter.old meter.new) }
{
    let mut sizer = Sizer::new(alloc, keys)?;
    let taken = sizer.take_up_to_end(alloc, kind, cards, spans, old_deck, meter)?;
    let behind = card_counts(alloc, spans.split_at(taken.count).1)?;
    let deck = SizedDeck {
        kind,
        pieces: sizer.pieces,
        behind,
        symbols: sizer.symbols,
        externals: sizer.externals,
        literals: sizer.literals,
        lengths: sizer.lengths,
    };
    Ok(TailedDeck {
        deck,
        tail: taken.tail,
    })
}
