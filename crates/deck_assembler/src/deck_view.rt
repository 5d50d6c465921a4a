//! What all statements of a deck are coded with.
ghost use Rattle.std.specs.Prelude.{◌≡◌};
ghost use Rattle.definitions.specs.Literals.{literal_form, offset_form};
ghost use Rattle.expr_forms.specs.Joins.Elements.{literal_as};
ghost use Rattle.deck_assembler.specs.Joins.Walks.{is_too_great};

use crate::rebinding::Bindings;
use crate::{SizedDeck, literal_word};
use cards::Card;
use definitions::Letter;
use expr_forms::{Form, Literal, Name, Number, Part, Relocation};
use statement_coder::FinalSymbols;
use use_blocks::{Bases, Literals};

/// A deck, its cards, and where its blocks stand.
#[derive(Clone, Copy)]
pub(crate) struct DeckView<'a> {
    pub(crate) cards: &'a [Card],
    pub(crate) deck: &'a SizedDeck,
    pub(crate) bases: &'a Bases,
}

impl<'a> DeckView<'a> {
    /// What its names mean.
    pub(crate) fn bindings(&self) -> Bindings<'a>
        ensures symbols { result.symbols.now ≡ self.now.deck.now.symbols }
        ensures literals { result.literals.now ≡ self.now.deck.now.literals }
        ensures rows { result.bases.now ≡ self.now.bases.now }
    {
        Bindings {
            symbols: self.deck.symbols(),
            literals: self.deck.literals(),
            bases: self.bases,
        }
    }
}

/// Whether a literal is a number that is too great.
fn is_too_great(literal: Literal<'_>) -> bool
    ensures { result ≡ is_too_great (literal_as literal.entry) }
{
    match literal {
        Literal::Number(_, number) => match number {
            Number::Value(_) => false,
            Number::TooGreat => true,
        },
        Literal::Item(_) => false,
    }
}

/// The form of a place in the literals block, or A behind its end.
fn offset_form(offset: usize) -> Result<Form, Letter>
    ensures { result ≡ offset_form offset }
{
    if offset < 131072 {
        let part = Part::Added(Relocation::Block(Name::new(b"=")));
        Ok(Form::new(offset as i64, Some(part)))
    } else {
        Err(Letter::A)
    }
}

/// Where the word of a literal stands, or its letter.
pub(crate) fn literal_form(literals: &Literals, literal: Literal<'_>) -> Result<Form, Letter>
    ensures { result ≡ literal_form literals.now (literal_as literal.entry) }
{
    if is_too_great(literal) {
        Err(Letter::A)
    } else {
        offset_form(literals.offset(literal_word(&literal)))
    }
}

impl FinalSymbols for DeckView<'_> {
    ghost use Rattle.definitions.specs.Literals.{literal_form};
    ghost use Rattle.deck_assembler.specs.Joins.FirstSymbols.{symbol_in};

    ghost symbols = { λ v. symbol_in v.deck.now.symbols };

    ghost literals = { λ v literal. literal_form v.deck.now.literals literal };

    fn symbol(&self, name: &[u8]) -> Option<Form> {
        self.deck.symbols().value(name)
    }

    fn literal(&self, literal: Literal<'_>) -> Result<Form, Letter> {
        literal_form(self.deck.literals(), literal)
    }
}
