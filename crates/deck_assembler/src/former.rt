//! What coding an edited deck needs of the deck before the edit.
ghost use Rattle.std.specs.Prelude.{◌≡◌, ◌-◌, ◌⊎◌, [], true};
ghost use Rattle.deck_assembler.specs.Joins.FormerLines.{AreChosen};
ghost use Rattle.deck_assembler.specs.Joins.Heads.{AreHeadLines, IsLineOfHead, cards_of_lines};
ghost use Rattle.deck_assembler.specs.Joins.TailLines.{lines_behind};

use crate::former_lines::{FormerLines, TailLines, ends_within};
use crate::rebinding::Bindings;
use crate::sized_deck::SizedDeck;
use crate::symbol_table::SymbolTable;
use deck_objects::{Line, ObjectParts};
use definitions::DeckKind;
use use_blocks::{Bases, Literals};

/// The kind of a deck before an edit, the values of its symbols and its literals, how many of its
/// cards stand unchanged before the edited one, and how many of the last ones of both decks are those of
/// a tail that stayed as it was sized.
#[derive(Drop)]
pub struct Former {
    pub(crate) kind: DeckKind,
    pub(crate) symbols: SymbolTable,
    pub(crate) literals: Literals,
    pub(crate) before: usize,
    pub(crate) tail: usize,
}

/// An edited deck, with what is needed of the one before.
#[derive(Drop)]
pub struct EditedDeck {
    pub deck: SizedDeck,
    pub former: Former,
}

impl EditedDeck {
    /// The deck; what is needed of the one before is freed.
    pub fn into_deck(self) -> SizedDeck
        ensures { result ≡ self.deck }
    {
        self.deck
    }

    /// Frees it. Crates above call this in place of `drop` (CONTRIBUTING).
    pub fn free(self) {
        drop(self);
    }
}

/// The lines of an object, if two kinds of deck are one, and else none.
fn lines_alike(lines: &[Line], old: DeckKind, kind: DeckKind) -> &[Line]
    ensures alike { old ≡ kind → result.now ≡ lines.now }
    ensures other { (result.now ≡ []) ⊎ (old ≡ kind) }
{
    if old == kind {
        lines
    } else {
        lines.split_at(0).0
    }
}

/// The lines that go beside the front of a deck, and how many of its first cards stand unchanged.
#[derive(Clone, Copy)]
struct FirstLines<'a> {
    lines: &'a [Line],
    cards: usize,
}

/// Whether a line behind so many cards is that of a neutral statement and ends within so many.
fn is_of_head(line: &Line, stood: usize, before: usize) -> bool
    ensures yes { result ≡ true → IsLineOfHead before stood line.now }
    ensures no { IsLineOfHead before stood line.now → result ≡ true }
{
    match &line.coded {
        Some(coded) => coded.operation.is_neutral() && ends_within(stood, line.cards, before),
        None => false,
    }
}

/// The first lines, as far as they are those of neutral statements and end within so many cards.
fn head_lines(lines: &[Line], before: usize) -> FirstLines<'_>
    ensures lines { AreHeadLines before 0 lines.now result.lines.now }
    ensures cards { result.cards ≡ cards_of_lines result.lines.now }
{
    let mut left = lines;
    let mut count = 0;
    let mut cards = 0;
    'lines: loop {
        let Some((line, others)) = left.split_first() else {
            break 'lines;
        };
        if !is_of_head(line, cards, before) {
            break 'lines;
        }
        left = others;
        count += 1;
        cards += line.cards as usize;
    }
    FirstLines {
        lines: lines.split_at(count).0,
        cards,
    }
}

/// The lines of an object, of which so many first cards stand unchanged, that go beside the front of a
/// deck: all where two kinds of deck are one, and else those of the neutral statements there.
fn front_lines(lines: &[Line], old: DeckKind, kind: DeckKind, before: usize) -> FirstLines<'_>
    ensures alike { old ≡ kind → (result.lines.now ≡ lines.now) × (result.cards ≡ before) }
    ensures other { (old ≡ kind) ⊎ (AreHeadLines before 0 lines.now result.lines.now × (result.cards ≡ cards_of_lines result.lines.now)) }
{
    if old != kind {
        return head_lines(lines, before);
    }
    FirstLines {
        lines,
        cards: before,
    }
}

/// The lines behind those of so many first cards.
fn lines_behind(lines: &[Line], count: usize) -> &[Line]
    ensures { result.now ≡ lines_behind count lines.now }
{
    let mut left = count;
    for (k, line) in lines.iter().enumerate() {
        if left == 0 {
            return lines.split_at(k).1;
        }
        left = left.saturating_sub(line.cards as usize);
    }
    lines.split_at(lines.len()).1
}

impl Former {
    /// The same with a tail of so many cards in a deck of this kind; a deck of another kind has none.
    pub(crate) fn with_tail(self, kind: DeckKind, tail: usize) -> Former
        ensures kind { result.kind ≡ self.kind }
        ensures symbols { result.symbols ≡ self.symbols }
        ensures literals { result.literals ≡ self.literals }
        ensures before { result.before ≡ self.before }
        ensures tail { self.kind ≡ kind → result.tail ≡ tail }
        ensures other { (self.kind ≡ kind) ⊎ (result.tail ≡ 0) }
    {
        let tail = if self.kind == kind { tail } else { 0 };
        Former {
            kind: self.kind,
            symbols: self.symbols,
            literals: self.literals,
            before: self.before,
            tail,
        }
    }

    /// Those of these lines of its deck, which has so many cards, that are of the tail; and where that
    /// begins in an edited deck of so many cards.
    fn tail_lines<'a>(&self, lines: &'a [Line], old: usize, count: usize) -> TailLines<'a>
        ensures none { self.now.tail ≡ 0 → result.left.now ≡ [] }
        ensures some { (self.now.tail ≡ 0) ⊎ (result.left.now ≡ lines_behind (old - self.now.tail) lines.now) }
        ensures at { result.at ≡ count - self.now.tail }
    {
        let at = count.saturating_sub(self.tail);
        if self.tail == 0 {
            let left = lines.split_at(0).0;
            return TailLines { left, at };
        }
        let left = lines_behind(lines, old.saturating_sub(self.tail));
        TailLines { left, at }
    }

    /// The lines of the object of its deck, which has so many cards, beside the statements of an edited
    /// deck of so many cards, and of this kind: of a deck of another kind those of its head.
    pub(crate) fn lines<'a>(
        &'a self,
        kind: DeckKind,
        parts: &'a ObjectParts,
        old: usize,
        count: usize,
    ) -> FormerLines<'a>
        ensures { AreChosen kind old count self.now parts.now result }
    {
        let all = parts.lines.as_slice();
        let front = front_lines(all, self.kind, kind, self.before);
        let alike = lines_alike(all, self.kind, kind);
        FormerLines {
            left: front.lines,
            tail: self.tail_lines(alike, old, count),
            fields: &parts.fields,
            before: front.cards,
            bindings: self.bindings(&parts.bases),
        }
    }

    /// What its names meant, where its blocks stood at these bases.
    fn bindings<'a>(&'a self, bases: &'a Bases) -> Bindings<'a>
        ensures symbols { result.symbols.now ≡ self.now.symbols }
        ensures literals { result.literals.now ≡ self.now.literals }
        ensures rows { result.bases.now ≡ bases.now }
    {
        Bindings {
            symbols: &self.symbols,
            literals: &self.literals,
            bases,
        }
    }
}
