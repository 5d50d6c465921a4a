//! Edits carried over those that others made since their sender looked, by their places alone.
ghost use Rattle.std.specs.Prelude.{◌≡◌, ◌≤◌, ◌<◌, ◌+◌, ◌-◌, ◌*◌, ◌^◌, List, length, take, get_or, None, IfOk, OnErr};
ghost use Rattle.definitions.specs.Cards.{Card};
ghost use Rattle.cards.specs.Edits.{first_fault};
ghost use Rattle.cards.specs.Carrying.{moved, seen_before, origin_of, in_gap, carried_place, carried};
ghost use Rattle.cards.specs.Joins.CarrySteps.{stands_through, placed_all, AreLow, AreNear, carried_to, carried_as};

use crate::edits::Edit;
use thiserror::Error;

/// How many edits are carried together at most.
pub const MOST_CARRIED: usize = 100;

/// An edit that was made, and the version of the deck that it, or the batch that it belongs to, made.
#[derive(Drop)]
pub struct MadeEdit {
    pub version: u64,
    pub edit: Edit,
}

/// A card that an edit names, or the card behind an insertion, was changed since its sender looked.
#[derive(Clone, Copy, Debug, Error)]
#[error("card {card} was changed, first in version {version}")]
pub struct Touched {
    /// The number of the card among those that he saw.
    pub card: u64,
    /// The version that changed it first.
    pub version: u64,
}

/// Where the sender has from what he has at a place, once an edit of his is made.
enum Origin {
    /// It had this place before.
    Same(u64),
    /// The edit put it there.
    Own,
    /// It had this place, and stands one further on.
    Further(u64),
    /// It had this place, and stands one further in front.
    Nearer(u64),
}

/// Where the card of a place stands after an edit of another; nowhere as it was, where the edit is of
/// it.
fn moved(edit: &Edit, place: u64) -> Option<u64>
    requires { place + 1 < 2 ^ 64 }
    ensures { result ≡ moved edit.now place }
{
    match edit {
        Edit::Insert { at, .. } => Some(if *at <= place { place + 1 } else { place }),
        Edit::Replace { at, .. } => { if *at == place { None } else { Some(place) } }
        Edit::Remove { at } => {
            if *at == place {
                None
            } else {
                Some(if *at < place { place - 1 } else { place })
            }
        }
    }
}

/// Where a card stands that the sender saw before others made these edits.
fn place_after(card: u64, made: &[MadeEdit]) -> Result<u64, Touched>
    requires { card + length made.now < 2 ^ 64 }
    ensures place { result ≡ seen_before made.now card }
    ensures near { IfOk result (λ place. place ≤ card + length made.now) }
{
    let mut place = card;
    for one in made {
        match moved(&one.edit, place) {
            Some(next) => place = next,
            None => {
                return Err(Touched {
                    card,
                    version: one.version,
                });
            }
        }
    }
    Ok(place)
}

/// Where the sender has from what he has at a place, once an edit of his is made.
fn origin_of(edit: &Edit, place: u64) -> Origin
    requires { place + 1 < 2 ^ 64 }
    ensures { result ≡ origin_of edit.now place }
{
    match edit {
        Edit::Insert { at, .. } => {
            if place < *at {
                Origin::Same(place)
            } else if place == *at {
                Origin::Own
            } else {
                Origin::Further(place - 1)
            }
        }
        Edit::Replace { .. } => Origin::Same(place),
        Edit::Remove { at } => {
            if place < *at {
                Origin::Same(place)
            } else {
                Origin::Nearer(place + 1)
            }
        }
    }
}

/// Where the card stands now that the sender has at a place, once the first edits of his, so many, are
/// made, at these places of now.
fn stands_now(
    place: u64,
    count: usize,
    edits: &[Edit],
    places: &[u64],
    made: &[MadeEdit],
) -> Result<u64, Touched>
    requires counted { (count ≤ length edits.now) × (count ≤ length places.now) × (count ≤ 100) }
    requires low { place + count ≤ 2 ^ 32 }
    requires near { AreNear count (length made.now) places.now }
    ensures place { result ≡ stands_through (take count edits.now) (take count places.now) (seen_before made.now) place }
    ensures near { IfOk result (λ place. place ≤ 2 ^ 32 + length made.now + 2 * count) }
{
    if count == 0 {
        return place_after(place, made);
    }
    let last = count - 1;
    match origin_of(&edits[last], place) {
        Origin::Same(place) => stands_now(place, last, edits, places, made),
        Origin::Own => Ok(places[last]),
        Origin::Further(place) => Ok(stands_now(place, last, edits, places, made)? + 1),
        Origin::Nearer(place) => {
            Ok(stands_now(place, last, edits, places, made)?.saturating_sub(1))
        }
    }
}

/// The place of now in front of the card that the sender has at a place; where that was changed, behind
/// the one before it.
fn place_in_gap(
    place: u64,
    count: usize,
    edits: &[Edit],
    places: &[u64],
    made: &[MadeEdit],
) -> Result<u64, Touched>
    requires counted { (count ≤ length edits.now) × (count ≤ length places.now) × (count ≤ 100) }
    requires low { place + count ≤ 2 ^ 32 }
    requires near { AreNear count (length made.now) places.now }
    ensures place { let stands = stands_through (take count edits.now) (take count places.now) (seen_before made.now) in result ≡ in_gap (stands place) (stands (place - 1)) }
    ensures near { IfOk result (λ place. place ≤ 2 ^ 32 + length made.now + 2 * count + 1) }
{
    match stands_now(place, count, edits, places, made) {
        Ok(now) => Ok(now),
        Err(touched) => {
            match stands_now(place.saturating_sub(1), count, edits, places, made) {
                Ok(now) => Ok(now + 1),
                Err(_) => Err(touched),
            }
        }
    }
}

/// Where an edit of the sender is made now, the one behind so many others of his.
fn carried_place(
    count: usize,
    edits: &[Edit],
    places: &[u64],
    made: &[MadeEdit],
) -> Result<u64, Touched>
    requires counted { (count < length edits.now) × (count ≤ length places.now) × (count ≤ 100) }
    requires low { AreLow edits.now }
    requires near { AreNear count (length made.now) places.now }
    ensures place { (edit : Edit) → edit ≡ get_or edits.now count edit → result ≡ carried_place (stands_through (take count edits.now) (take count places.now) (seen_before made.now)) edit }
    ensures near { IfOk result (λ place. place ≤ 2 ^ 32 + length made.now + 2 * count + 1) }
{
    match &edits[count] {
        Edit::Insert { at, .. } => place_in_gap(*at, count, edits, places, made),
        Edit::Replace { at, .. } | Edit::Remove { at } => {
            stands_now(*at, count, edits, places, made)
        }
    }
}

/// Where edits of the sender are made now, each numbered in what the ones before it leave.
fn carried_places(edits: &[Edit], made: &[MadeEdit]) -> Result<[u64; MOST_CARRIED], Touched>
    requires few { length edits.now ≤ 100 }
    requires low { AreLow edits.now }
    ensures { carried_to edits.now result ≡ carried (seen_before made.now) edits.now }
{
    let mut places = [0; MOST_CARRIED];
    for count in 0..edits.len() {
        places[count] = carried_place(count, edits, &places, made)?;
    }
    Ok(places)
}

/// Moves edits to these places.
fn place_all(edits: &mut [Edit], places: &[u64])
    requires { length edits.old ≤ length places.now }
    ensures { edits.new ≡ placed_all edits.old (take (length edits.old) places.now) }
{
    for count in 0..edits.len() {
        edits[count].move_to(places[count]);
    }
}

/// Carries edits of which each applies to what the ones before it leave of the cards that their sender
/// saw, at most 100, over those that others made since: each takes the place that it has among the cards
/// of now. `Touched` where another changed the card that one is of, or, of an insertion, the cards on
/// both sides; then no edit is changed. Costs nothing by the deck.
pub fn carry(edits: &mut [Edit], made: &[MadeEdit]) -> Result<(), Touched>
    requires few { length edits.old ≤ 100 }
    requires applies { (seen : List Card) × (length seen ≤ 20000) × (first_fault edits.old seen ≡ None) }
    ensures edits { carried_as result edits.new ≡ carried (seen_before made.now) edits.old }
    ensures err { OnErr result (edits.new ≡ edits.old) }
{
    let places = carried_places(edits, made)?;
    place_all(edits, &places);
    Ok(())
}
