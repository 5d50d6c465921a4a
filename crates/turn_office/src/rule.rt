//! The rule over the words, the slot and the views, and what each step shows.
//! Word 0 is the number of turns that have ended, word 1 the number of tickets drawn, both modulo
//! 2^64; the other 64 are bells, which those who wait sleep on and the rule says nothing of. Slot 0
//! has the object while nobody has the turn.
ghost use Rattle.std.specs.Prelude.{ℕ, Option, Some, None};
ghost use Rattle.turn_office.specs.Joins.Told.{Told};

use crate::sequential::Sequential;
use crate::views::View;
use atomic_table::{Join, Play, Seat, Shared, Split, Table, TableRule};
use std::alloc::Global;
use std::marker::{Brand, PhantomData};
use std::snapshot::Snapshot;

/// What a seat of an office over `O` knows.
pub(crate) type Known<O> = View<O, <O as Sequential>::Call, <O as Sequential>::Reply>;

/// A seat of the table.
pub(crate) type Place<O> = Seat<Option<O>, Known<O>>;

/// The table as threads share it.
pub(crate) type Floor<O> = Shared<Option<O>, Known<O>, Opening<O>, Turns<O>>;

/// The table with its memory.
pub(crate) type Board<O> = Table<Option<O>, Known<O>, Opening<O>, Turns<O>, Global>;

/// What an office was opened with.
#[derive(Drop)]
pub struct Opening<T> {
    pub seats: usize,
    pub first: Snapshot<T>,
}

/// The rule of an office over `O`.
pub struct Turns<O> {
    object: PhantomData<O>,
}

impl<O: Sequential> TableRule<Option<O>, View<O, O::Call, O::Reply>, Opening<O>> for Turns<O> {
    ghost use Rattle.turn_office.specs.Rule.{Kept, undealt};

    ghost holds = { λ key. Kept O.allowed key.seats key.first.value };

    ghost first = { λ key. undealt key.seats };
}

/// What a step is given for the proof alone: the opening, and the call and the reply of the turn.
pub trait Said<T, C, R> {
    ghost told: { Option (Told T C R) };
}

impl<T, C, R> Said<T, C, R> for Brand {
    ghost told = { None };
}

/// A ticket is drawn.
pub struct Draw;

impl<O: Sequential> Play<Option<O>, View<O, O::Call, O::Reply>> for Draw {
    ghost use Rattle.turn_office.specs.Rule.{drew};

    ghost then = { drew };
}

/// A waiting seat looks whose turn it is, and takes the slot where it is its own.
pub struct Look;

impl<O: Sequential> Play<Option<O>, View<O, O::Call, O::Reply>> for Look {
    ghost use Rattle.turn_office.specs.Rule.{looked};

    ghost then = { looked };
}

/// The turn ends: the slot is given back, and the entry joins the history.
pub struct Give<W> {
    said: PhantomData<W>,
}

impl<O: Sequential, W: Said<O, O::Call, O::Reply>> Play<Option<O>, View<O, O::Call, O::Reply>>
    for Give<W> {
    ghost use Rattle.turn_office.specs.Rule.{gave};

    ghost then = { gave O.allowed W.told };
}

/// The bell of the next ticket is rung.
pub struct Ring;

impl<O: Sequential> Play<Option<O>, View<O, O::Call, O::Reply>> for Ring {
    ghost use Rattle.turn_office.specs.Rule.{rang};

    ghost then = { rang };
}

/// A seat sees the history so far.
pub struct Learn<W> {
    said: PhantomData<W>,
}

impl<O: Sequential, W: Said<O, O::Call, O::Reply>> Play<Option<O>, View<O, O::Call, O::Reply>>
    for Learn<W> {
    ghost use Rattle.turn_office.specs.Rule.{learned};

    ghost then = { learned O.allowed W.told };
}

/// The first number of a seat goes to a new seat.
pub struct Deal;

impl<T, C, R> Split<View<T, C, R>> for Deal {
    ghost use Rattle.turn_office.specs.Rule.{rest_of, first_of};

    ghost left = { rest_of };

    ghost right = { first_of };
}

/// All that a seat has goes to a new seat.
pub struct Leave;

impl<T, C, R> Split<View<T, C, R>> for Leave {
    ghost use Rattle.turn_office.specs.Rule.{nobody};

    ghost left = { λ v. nobody };

    ghost right = { λ v. v };
}

/// A seat takes in the numbers of another.
pub struct TakeIn;

impl<T, C, R> Join<View<T, C, R>> for TakeIn {
    ghost use Rattle.turn_office.specs.Rule.{both_of, nobody};

    ghost both = { both_of };

    ghost spent = { nobody };
}
