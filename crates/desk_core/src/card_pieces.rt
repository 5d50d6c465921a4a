//! The cards of a deck in pieces: parts of an object, and cards that edits left. An edit copies a short piece
//! with the card that it changes, and none of the others; so it costs little by the number of cards, and an object
//! is read where it lies.
ghost use Rattle.std.specs.Prelude.{◌≡◌, ◌≤◌, ◌<◌, ◌^◌, ◌+◌, ◌-◌, ◌++◌, ◌&&◌, [], min, vec_capacity, vec_len, length, insert, slice_set, remove, get_or, None, is_ok, IfOk, if◌then◌else◌};
ghost use Rattle.desk_core.specs.Delivering.{same_cards};
ghost use Rattle.desk_core.specs.Joins.Edits.{fault_of, edited};
ghost use Rattle.desk_core.specs.Joins.Pieces.{joined, IsGap, IsSpot};

use crate::comparing::{both_same_cards, same_cards};
use crate::piece::Piece;
use cards::{Card, Edit};
use deck_objects::SharedObject;
use std::alloc::{AllocError, Global};
use std::marker::Model;

/// How many cards the piece of an edited card has at most; a longer one is cut.
const LONGEST: usize = 128;

/// How many cards a piece has that is cut out of a longer one.
const SHORT: usize = 64;

/// Where a card stands: in front of it so many pieces, and so many cards of its own piece.
#[derive(Clone, Copy)]
struct Spot {
    piece: usize,
    card: usize,
}

/// Where the card stands that has so many in front of it; where it is none of these, behind all pieces.
fn spot_of(pieces: &[Piece], place: usize) -> Spot
    requires { place ≤ length (joined pieces.now) }
    ensures { IsSpot pieces.now place result.piece result.card }
{
    let mut left = place;
    for (number, piece) in pieces.iter().enumerate() {
        if left < piece.len() {
            return Spot {
                piece: number,
                card: left,
            };
        }
        left -= piece.len();
    }
    Spot {
        piece: pieces.len(),
        card: 0,
    }
}

/// Cuts a piece behind so many of its cards, where it has more. Cards stay where they are.
fn cut(pieces: &mut Vec<Piece>, number: usize, count: usize) -> Result<(), AllocError>
    ensures { joined pieces.new.items ≡ joined pieces.old.items }
{
    if number >= pieces.len() {
        return Ok(());
    }
    let piece = &pieces[number];
    if count == 0 || piece.len() <= count {
        return Ok(());
    }
    let front = piece.front(count)?;
    let rest = piece.rest(count)?;
    pieces.insert(number, front)?;
    pieces[number + 1] = rest;
    Ok(())
}

/// Cuts a short piece with the card of a spot out of its piece, where that is long. Cards stay where they are.
fn cut_out(pieces: &mut Vec<Piece>, spot: Spot) -> Result<(), AllocError>
    ensures { joined pieces.new.items ≡ joined pieces.old.items }
{
    let Some(piece) = pieces.get(spot.piece) else {
        return Ok(());
    };
    if piece.len() <= LONGEST {
        return Ok(());
    }
    let before = spot.card - spot.card % SHORT;
    cut(pieces, spot.piece, before.saturating_add(SHORT))?;
    cut(pieces, spot.piece, before)
}

/// The spot of the card that has so many in front of it, in a piece that is not long.
fn short_spot(pieces: &mut Vec<Piece>, place: usize) -> Result<Spot, AllocError>
    requires { place < length (joined pieces.old.items) }
    ensures same { joined pieces.new.items ≡ joined pieces.old.items }
    ensures spot { IfOk result (λ spot. IsSpot pieces.new.items place spot.piece spot.card) }
{
    let spot = spot_of(pieces.as_slice(), place);
    cut_out(pieces, spot)?;
    Ok(spot_of(pieces.as_slice(), place))
}

/// The first spot of all, in a piece that is not long: where there is none, an empty one begins.
fn first_spot(alloc: Global, pieces: &mut Vec<Piece>) -> Result<Spot, AllocError>
    ensures same { joined pieces.new.items ≡ joined pieces.old.items }
    ensures gap { IfOk result (λ spot. IsGap pieces.new.items 0 spot.piece spot.card) }
{
    let spot = Spot { piece: 0, card: 0 };
    cut_out(pieces, spot)?;
    if pieces.is_empty() {
        pieces.push(Piece::of_cards(alloc, Vec::new(alloc))?)?;
    }
    Ok(spot)
}

/// The spot behind so many cards, in a piece that is not long, and behind the card in front of it.
fn short_gap(alloc: Global, pieces: &mut Vec<Piece>, place: usize) -> Result<Spot, AllocError>
    requires { place ≤ length (joined pieces.old.items) }
    ensures same { joined pieces.new.items ≡ joined pieces.old.items }
    ensures gap { IfOk result (λ spot. IsGap pieces.new.items place spot.piece spot.card) }
{
    if place == 0 {
        return first_spot(alloc, pieces);
    }
    let spot = short_spot(pieces, place - 1)?;
    Ok(Spot {
        piece: spot.piece,
        card: spot.card + 1,
    })
}

/// How many cards pieces have together.
fn count_of(pieces: &[Piece]) -> usize
    ensures { result ≡ min (length (joined pieces.now)) (2 ^ 64 - 1) }
{
    let mut count: usize = 0;
    for piece in pieces {
        count = count.saturating_add(piece.len());
    }
    count
}

/// Whether as many cards as others are both the same as those of pieces, one by one.
fn are_both_of(pieces: &[Piece], cards: &[Card], others: &[Card]) -> bool
    requires { length others.now ≡ length cards.now }
    ensures { result ≡ (same_cards cards.now (joined pieces.now) && same_cards others.now (joined pieces.now)) }
{
    let mut left = cards;
    let mut right = others;
    for piece in pieces {
        if left.len() < piece.len() {
            return false;
        }
        let (front, behind) = left.split_at(piece.len());
        let (other, others_behind) = right.split_at(piece.len());
        if !both_same_cards(front, other, piece.as_slice()) {
            return false;
        }
        left = behind;
        right = others_behind;
    }
    left.is_empty()
}

/// The cards of a deck in pieces, which several hold. Contracts see the list of all cards.
#[derive(Drop)]
pub(crate) struct CardPieces {
    pieces: Vec<Piece>,
}

impl Model for CardPieces {
    ghost use Rattle.std.specs.Prelude.{List};
    ghost use Rattle.desk_core.specs.Joins.Language.{Card};
    ghost use Rattle.desk_core.specs.Joins.Pieces.{joined};

    ghost Value = { List Card };

    ghost view = { λ p. joined p.pieces.items };
}

impl CardPieces {
    /// No cards.
    pub(crate) fn empty(alloc: Global) -> CardPieces
        ensures { result ≡ [] }
    {
        CardPieces {
            pieces: Vec::new(alloc),
        }
    }

    /// These cards.
    pub(crate) fn of_cards(alloc: Global, cards: Vec<Card>) -> Result<CardPieces, AllocError>
        ensures { IfOk result (λ pieces. pieces ≡ cards.items) }
    {
        CardPieces::of_piece(alloc, Piece::of_cards(alloc, cards)?)
    }

    /// The cards of an object, which lie in it.
    pub(crate) fn of_object(alloc: Global, object: SharedObject) -> Result<CardPieces, AllocError>
        ensures { IfOk result (λ pieces. pieces ≡ object.cards) }
    {
        CardPieces::of_piece(alloc, Piece::of_object(object))
    }

    fn of_piece(alloc: Global, piece: Piece) -> Result<CardPieces, AllocError>
        ensures { IfOk result (λ pieces. pieces ≡ piece) }
    {
        let mut pieces = Vec::new(alloc);
        pieces.push(piece)?;
        Ok(CardPieces { pieces })
    }

    /// How many cards there are.
    pub(crate) fn len(&self) -> usize
        requires { length self.now < 2 ^ 64 }
        ensures { result ≡ length self.now }
    {
        count_of(self.pieces.as_slice())
    }

    /// The card that has so many in front of it.
    pub(crate) fn card_at(&self, place: usize) -> &Card
        requires { place < length self.now }
        ensures { result.now ≡ get_or self.now place [] }
    {
        let spot = spot_of(self.pieces.as_slice(), place);
        let piece = &self.pieces[spot.piece];
        &piece.as_slice()[spot.card]
    }

    /// The same cards once more; none of them is copied.
    pub(crate) fn share(&self, alloc: Global) -> Result<CardPieces, AllocError>
        ensures { IfOk result (λ shared. shared ≡ self.now) }
    {
        let mut pieces = Vec::with_capacity(alloc, self.pieces.len())?;
        for piece in &self.pieces {
            pieces.push(piece.share()?)?;
        }
        Ok(CardPieces { pieces })
    }

    /// Makes an edit that applies. Without memory no card changes.
    pub(crate) fn edit(&mut self, alloc: Global, edit: &Edit) -> Result<(), AllocError>
        requires { fault_of edit.now self.old ≡ None }
        ensures { self.new ≡ (if is_ok result then edited self.old edit.now else self.old) }
    {
        match edit {
            Edit::Insert { at, card } => self.insert(alloc, (*at - 1) as usize, card),
            Edit::Replace { at, card } => self.replace(alloc, (*at - 1) as usize, card),
            Edit::Remove { at } => self.remove(alloc, (*at - 1) as usize),
        }
    }

    /// Puts a card behind so many others. Without memory no card changes.
    fn insert(&mut self, alloc: Global, place: usize, card: &Card) -> Result<(), AllocError>
        requires { place ≤ length self.old }
        ensures { self.new ≡ (if is_ok result then insert self.old place card.now else self.old) }
    {
        let spot = short_gap(alloc, &mut self.pieces, place)?;
        let piece = &self.pieces[spot.piece];
        let mut cards = piece.copied(alloc)?;
        cards.insert(spot.card, card.copied())?;
        let edited = Piece::of_cards(alloc, cards)?;
        self.pieces[spot.piece] = edited;
        Ok(())
    }

    /// Puts a card in the place of the one behind so many others. Without memory no card changes.
    fn replace(&mut self, alloc: Global, place: usize, card: &Card) -> Result<(), AllocError>
        requires { place < length self.old }
        ensures { self.new ≡ (if is_ok result then slice_set self.old place card.now else self.old) }
    {
        let spot = short_spot(&mut self.pieces, place)?;
        let piece = &self.pieces[spot.piece];
        let mut cards = piece.copied(alloc)?;
        cards[spot.card] = card.copied();
        let edited = Piece::of_cards(alloc, cards)?;
        self.pieces[spot.piece] = edited;
        Ok(())
    }

    /// Takes the card out that stands behind so many others. Without memory no card changes.
    fn remove(&mut self, alloc: Global, place: usize) -> Result<(), AllocError>
        requires { place < length self.old }
        ensures { self.new ≡ (if is_ok result then remove self.old place else self.old) }
    {
        let spot = short_spot(&mut self.pieces, place)?;
        let piece = &self.pieces[spot.piece];
        let mut cards = piece.copied(alloc)?;
        cards.remove(spot.card);
        let edited = Piece::of_cards(alloc, cards)?;
        self.pieces[spot.piece] = edited;
        Ok(())
    }

    /// Whether these cards are the same, one by one.
    pub(crate) fn are_same(&self, cards: &[Card]) -> bool
        ensures { result ≡ same_cards cards.now self.now }
    {
        let mut left = cards;
        for piece in &self.pieces {
            if left.len() < piece.len() {
                return false;
            }
            let (front, behind) = left.split_at(piece.len());
            if !same_cards(front, piece.as_slice()) {
                return false;
            }
            left = behind;
        }
        left.is_empty()
    }

    /// Whether cards and others are both the same as these, one by one: two copies that share what they have are
    /// read once.
    pub(crate) fn are_both_same(&self, cards: &[Card], others: &[Card]) -> bool
        ensures { result ≡ (same_cards cards.now self.now && same_cards others.now self.now) }
    {
        if cards.len() != others.len() {
            return self.are_same(cards) && self.are_same(others);
        }
        are_both_of(self.pieces.as_slice(), cards, others)
    }

    /// Copies of all cards, behind others in memory that has room for them.
    pub(crate) fn append_to(&self, cards: &mut Vec<Card>)
        requires { vec_len cards.old + length self.now ≤ vec_capacity cards.old }
        ensures { cards.new.items ≡ cards.old.items ++ self.now }
    {
        for piece in &self.pieces {
            piece.append_to(cards);
        }
    }

    /// A copy of all cards, in exactly the memory that they need.
    pub(crate) fn joined(&self, alloc: Global) -> Result<Vec<Card>, AllocError>
        requires { length self.now < 2 ^ 64 }
        ensures { IfOk result (λ cards. cards.items ≡ self.now) }
    {
        let mut cards = Vec::with_capacity(alloc, self.len())?;
        self.append_to(&mut cards);
        Ok(cards)
    }
}
