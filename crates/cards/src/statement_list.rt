//! The statements of a deck's cards.
ghost use Rattle.std.specs.Prelude.{◌≡◌, ◌-◌, ◌^◌, ◌<◌, [], IfOk, All, length, reverse, take, drop, ◌+◌, ◌≤◌};
ghost use Rattle.definitions.specs.Statements.{statements_of};
ghost use Rattle.cards.specs.Joins.Spans.{IsSpan, statements_at, with_last};
ghost use Rattle.cards.specs.Joins.Befores.{before_of, is_continued_by, with_card};

use crate::card::Card;
use std::alloc::{AllocError, Global};
use std::marker::Model;

/// How many comma cards stand at most between a comma card and the card that it continues.
const MOST_BETWEEN: usize = 8;

/// The cards of one statement: `count` cards behind the first `start` of the deck.
#[derive(Clone, Copy)]
pub struct Span {
    pub start: usize,
    pub count: usize,
}

impl Span {
    /// The cards of the span, out of those of its deck.
    pub fn of(self, cards: &[Card]) -> &[Card]
        requires { self.start + self.count ≤ length cards.now }
        ensures { result.now ≡ take self.count (drop self.start cards.now) }
    {
        let (_, behind) = cards.split_at(self.start);
        behind.split_at(self.count).0
    }
}

/// The statements of a deck in order. Contracts see the list of their spans.
#[derive(Drop)]
pub struct StatementList {
    spans: Vec<Span>,
}

impl Model for StatementList {
    ghost use Rattle.std.specs.Prelude.{List};
    ghost use Rattle.cards.specs.declared.statement_list.Span.{Span};

    ghost Value = { List Span };

    ghost view = { λ l. l.spans.items };
}

impl StatementList {
    pub fn as_slice(&self) -> &[Span]
        ensures { result.now ≡ self.now }
    {
        self.spans.as_slice()
    }
}

/// The statements of these cards, in one pass: a card with `,` in column 1 belongs to the nearest
/// earlier card without one, if that is no comment and at most eight comma cards stand between;
/// every other card begins a statement (COMPASS 60492600, statement format).
pub fn statements(alloc: Global, cards: &[Card]) -> Result<StatementList, AllocError>
    ensures statements { IfOk result (λ list. statements_at cards.now list ≡ reverse (statements_of (reverse cards.now))) }
    ensures spans { IfOk result (All (IsSpan (length cards.now))) }
{
    let mut spans = Vec::new(alloc);
    let mut start = 0;
    let mut before = Before::nothing();
    for (k, card) in cards.iter().enumerate() {
        if !before.is_continued_by(card) {
            push_from(&mut spans, start, k)?;
            start = k;
        }
        before.add(card);
    }
    push_from(&mut spans, start, cards.len())?;
    Ok(StatementList { spans })
}

/// What stands before a card: how many comma cards directly before it, and whether the nearest
/// card that is no comma card is there, and is no comment.
#[derive(Drop)]
struct Before {
    comma_cards: usize,
    has_owner: bool,
}

impl Before {
    fn nothing() -> Before
        ensures { result ≡ before_of [] }
    {
        Before {
            comma_cards: 0,
            has_owner: false,
        }
    }

    fn is_continued_by(&self, card: &Card) -> bool
        ensures { result ≡ is_continued_by self.now card.now }
    {
        card.is_comma_card() && self.has_owner && self.comma_cards <= MOST_BETWEEN
    }

    fn add(&mut self, card: &Card)
        requires { self.old.comma_cards < 2 ^ 64 - 1 }
        ensures { self.new ≡ with_card card.now self.old }
    {
        if card.is_comma_card() {
            self.comma_cards += 1;
        } else {
            self.comma_cards = 0;
            self.has_owner = !card.is_comment();
        }
    }
}

/// The statement of the cards from `start` up to `end`, if there are any.
fn push_from(spans: &mut Vec<Span>, start: usize, end: usize) -> Result<(), AllocError>
    ensures { IfOk result (λ _. spans.new.items ≡ with_last spans.old.items start end) }
{
    if start < end {
        spans.push(Span {
            start,
            count: end - start,
        })?;
    }
    Ok(())
}
