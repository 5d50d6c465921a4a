//! Cards that stand one behind the other, as a part of what several hold.
ghost use Rattle.std.specs.Prelude.{◌≡◌, ◌≤◌, ◌+◌, ◌++◌, length, take, drop, vec_capacity, vec_len, IfOk};
ghost use Rattle.desk_core.specs.Joins.Pieces.{source_cards};

use cards::{Card, copied_cards};
use deck_objects::SharedObject;
use std::alloc::{AllocError, Global};
use std::marker::Model;
use std::sync::Arc;

/// What pieces are parts of. Several hold it, and nobody changes it.
#[derive(Drop)]
enum Source {
    /// The cards of an object.
    Object(SharedObject),
    /// Cards alone.
    Cards(Arc<Vec<Card>>),
}

impl Source {
    fn as_slice(&self) -> &[Card]
        ensures { result.now ≡ source_cards self.now }
    {
        match self {
            Source::Object(object) => object.object().cards(),
            Source::Cards(cards) => cards.as_slice(),
        }
    }

    /// The same once more.
    fn share(&self) -> Result<Source, AllocError>
        ensures { IfOk result (λ shared. source_cards shared ≡ source_cards self.now) }
    {
        match self {
            Source::Object(object) => Ok(Source::Object(object.share()?)),
            Source::Cards(cards) => Ok(Source::Cards(Arc::clone(cards)?)),
        }
    }
}

/// Cards that stand one behind the other: those of a source from one place on, up to another. Contracts see the
/// list of them.
#[derive(Drop)]
pub(crate) struct Piece {
    source: Source,
    from: usize,
    until: usize,
}

impl Model for Piece {
    ghost use Rattle.std.specs.Prelude.{◌≤◌, List, length};
    ghost use Rattle.desk_core.specs.Joins.Language.{Card};
    ghost use Rattle.desk_core.specs.Joins.Pieces.{part, source_cards};

    ghost Value = { List Card };

    ghost view = { λ p. part p.from p.until (source_cards p.source) };

    ghost invariant = { λ p. (p.from ≤ p.until) × (p.until ≤ length (source_cards p.source)) };
}

impl Piece {
    /// All cards of a source.
    fn whole(source: Source) -> Piece
        ensures { result ≡ source_cards source }
    {
        let until = source.as_slice().len();
        Piece {
            source,
            from: 0,
            until,
        }
    }

    /// All cards of an object.
    pub(crate) fn of_object(object: SharedObject) -> Piece
        ensures { result ≡ object.cards }
    {
        Piece::whole(Source::Object(object))
    }

    /// These cards.
    pub(crate) fn of_cards(alloc: Global, cards: Vec<Card>) -> Result<Piece, AllocError>
        ensures { IfOk result (λ piece. piece ≡ cards.items) }
    {
        Ok(Piece::whole(Source::Cards(Arc::new(alloc, cards)?)))
    }

    pub(crate) fn len(&self) -> usize
        ensures { result ≡ length self.now }
    {
        self.until - self.from
    }

    pub(crate) fn as_slice(&self) -> &[Card]
        ensures { result.now ≡ self.now }
    {
        let (cards, _) = self.source.as_slice().split_at(self.until);
        cards.split_at(self.from).1
    }

    /// The same cards once more; none of them is copied.
    pub(crate) fn share(&self) -> Result<Piece, AllocError>
        ensures { IfOk result (λ piece. piece ≡ self.now) }
    {
        Ok(Piece {
            source: self.source.share()?,
            from: self.from,
            until: self.until,
        })
    }

    /// Its first cards once more, so many.
    pub(crate) fn front(&self, count: usize) -> Result<Piece, AllocError>
        requires { count ≤ length self.now }
        ensures { IfOk result (λ piece. piece ≡ take count self.now) }
    {
        let until = self.until - (self.len() - count);
        Ok(Piece {
            source: self.source.share()?,
            from: self.from,
            until,
        })
    }

    /// Its cards behind the first ones, so many, once more.
    pub(crate) fn rest(&self, count: usize) -> Result<Piece, AllocError>
        requires { count ≤ length self.now }
        ensures { IfOk result (λ piece. piece ≡ drop count self.now) }
    {
        let from = self.until - (self.len() - count);
        Ok(Piece {
            source: self.source.share()?,
            from,
            until: self.until,
        })
    }

    /// A copy of its cards.
    pub(crate) fn copied(&self, alloc: Global) -> Result<Vec<Card>, AllocError>
        ensures { IfOk result (λ cards. cards.items ≡ self.now) }
    {
        copied_cards(alloc, self.as_slice())
    }

    /// Copies of its cards, behind others in memory that has room for them.
    pub(crate) fn append_to(&self, cards: &mut Vec<Card>)
        requires { vec_len cards.old + length self.now ≤ vec_capacity cards.old }
        ensures items { cards.new.items ≡ cards.old.items ++ self.now }
        ensures len { vec_len cards.new ≡ vec_len cards.old + length self.now }
        ensures room { vec_capacity cards.new ≡ vec_capacity cards.old }
    {
        for card in self.as_slice() {
            cards.push_reserved(card.copied());
        }
    }
}
