//! The changes of a deck that are kept.
ghost use Rattle.std.specs.Prelude.{◌≡◌, ◌≤◌, ℕ, List, nat_lt, [], ◌∷◌, length, take, drop, position, is_ok, None, IfOk, if◌then◌else◌};
ghost use Rattle.desk_core.specs.Joins.Edits.{fault_of, first_fault, edited_by};
ghost use Rattle.desk_core.specs.Past.{begun_at, with_edits, undo_of, last_version, without_oldest, trimmed, behind, change_at, backs_of};
ghost use Rattle.desk_core.specs.declared.past.Back.{Back};
ghost use Rattle.desk_core.specs.Carrying.{made_in};
ghost use Rattle.desk_core.specs.Joins.Stored.{kept_both, made_edits, backs_made, backs_from};

use crate::card_pieces::CardPieces;
use cards::{DeckName, Edit, MadeEdit, count_after};
use std::alloc::{AllocError, Global};
use std::marker::Model;

/// How many edits of a deck are kept at most.
const MOST_KEPT: usize = 1_900;

/// How many are left where there are more: a thousand, and as many as a batch has.
const LEFT_OF_MORE: usize = 1_100;

/// An edit that was made: the version that it, or its batch, made; the edit that takes it back from what
/// it left; and the name of who asked for it.
#[derive(Drop)]
pub struct KeptEdit {
    pub version: u64,
    pub edit: Edit,
    pub back: Edit,
    pub by: DeckName,
}

/// What takes an edit back, and the name of who asked for the edit.
#[derive(Drop)]
pub(crate) struct Back {
    pub(crate) edit: Edit,
    pub(crate) by: DeckName,
}

/// What is kept of a deck's changes: all of those behind a version. Edits, and what takes them back,
/// stand in two lists, since edits are carried over those that were made. It has at most 1,900 edits.
#[derive(Drop)]
pub(crate) struct Past {
    since: u64,
    made: Vec<MadeEdit>,
    backs: Vec<Back>,
}

impl Model for Past {
    ghost use Rattle.std.specs.Prelude.{◌≡◌, length};
    ghost use Rattle.desk_core.specs.Past as past;
    ghost use Rattle.desk_core.specs.Carrying.{made_in};
    ghost use Rattle.desk_core.specs.Joins.Stored.{past_of};

    ghost Value = { past.Past };

    ghost view = { λ p. past_of p.since p.made.items p.backs.items };

    ghost invariant = { λ p. length p.backs.items ≡ length p.made.items };
}

impl Past {
    /// That of a deck that comes at this version.
    pub(crate) fn begun_at(alloc: Global, version: u64) -> Past
        ensures { result ≡ begun_at version }
    {
        Past {
            since: version,
            made: Vec::new(alloc),
            backs: Vec::new(alloc),
        }
    }

    /// The version behind which all changes are kept.
    pub(crate) fn since(&self) -> u64
        ensures { result ≡ self.now.since }
    {
        self.since
    }

    /// An edit more, with what takes it back. Without memory nothing changes.
    pub(crate) fn push(&mut self, version: u64, edit: Edit, back: Back) -> Result<(), AllocError>
        ensures { self.new ≡ (if is_ok result then with_edits (record { version = version; edit = edit; back = back.edit; by = back.by } ∷ []) self.old else self.old) }
    {
        self.made.push(MadeEdit { version, edit })?;
        match self.backs.push(back) {
            Ok(()) => Ok(()),
            Err(fault) => {
                self.made.pop();
                Err(fault.into())
            }
        }
    }

    /// Edits more, with what takes them back. Without memory nothing changes.
    pub(crate) fn append(&mut self, made: Vec<MadeEdit>, backs: Vec<Back>) -> Result<(), AllocError>
        requires { length backs.items ≡ length made.items }
        ensures { self.new ≡ (if is_ok result then with_edits (kept_both made.items backs.items) self.old else self.old) }
    {
        let count = self.made.len();
        let mut made = made;
        let mut backs = backs;
        self.made.append(&mut made)?;
        match self.backs.append(&mut backs) {
            Ok(()) => Ok(()),
            Err(fault) => {
                self.made.truncate(count);
                Err(fault)
            }
        }
    }

    /// The first edits alone, so many.
    pub(crate) fn truncate(&mut self, count: usize)
        ensures { self.new ≡ record self.old { edits = take count self.old.edits } }
    {
        self.made.truncate(count);
        self.backs.truncate(count);
    }

    /// How many edits are kept.
    pub(crate) fn len(&self) -> usize
        ensures { result ≡ length self.now.edits }
    {
        self.made.len()
    }

    /// No more edits than are kept: the oldest go.
    pub(crate) fn trim(&mut self)
        ensures { self.new ≡ trimmed self.old }
    {
        let count = self.len();
        if count > MOST_KEPT {
            self.forget(count - LEFT_OF_MORE);
        }
    }

    /// The oldest edits go, so many.
    fn forget(&mut self, count: usize)
        requires few { count ≤ length self.old.edits }
        requires some { 1 ≤ count }
        ensures { self.new ≡ without_oldest count self.old }
    {
        let last = version_of_last(&self.made, count);
        self.since = last;
        drop_first(&mut self.made, count);
        drop_first(&mut self.backs, count);
    }

    /// The edits that were made behind a version, and what takes them back.
    fn behind(&self, version: u64) -> (&[MadeEdit], &[Back])
        ensures edits { kept_both result.0.now result.1.now ≡ behind version self.now.edits }
        ensures same { length result.1.now ≡ length result.0.now }
        ensures made { result.0.now ≡ made_in (behind version self.now.edits) }
        ensures backs { backs_from result.1.now ≡ backs_of (behind version self.now.edits) }
    {
        let count = count_before(&self.made, version);
        (rest(&self.made, count), rest(&self.backs, count))
    }

    /// How many cards the deck with these cards had at a version, and the edits that were made behind it.
    pub(crate) fn seen_at(&self, version: u64, cards: &CardPieces) -> (usize, &[MadeEdit])
        requires few { length cards.now ≤ 20000 }
        requires applies { first_fault (backs_of (behind version self.now.edits)) cards.now ≡ None }
        ensures count { result.0 ≡ length (edited_by (backs_of (behind version self.now.edits)) cards.now) }
        ensures made { result.1.now ≡ made_in (behind version self.now.edits) }
    {
        let (made, backs) = self.behind(version);
        (count_back(backs, cards), made)
    }

    /// The edits behind a version once more.
    pub(crate) fn edits_behind(
        &self,
        alloc: Global,
        version: u64,
    ) -> Result<Vec<KeptEdit>, AllocError>
        ensures { IfOk result (λ edits. edits.items ≡ behind version self.now.edits) }
    {
        let (made, backs) = self.behind(version);
        kept_edits(alloc, made, backs)
    }

    /// What takes the edits behind a version back, the last first.
    pub(crate) fn backs_behind(&self, alloc: Global, version: u64) -> Result<Vec<Edit>, AllocError>
        ensures { IfOk result (λ backs. backs.items ≡ backs_of (behind version self.now.edits)) }
    {
        let (_, backs) = self.behind(version);
        backs_from(alloc, backs)
    }

    /// What takes the edits of the change of a version back, in the order of these edits.
    pub(crate) fn backs_at(&self, version: u64) -> &[Back]
        ensures { backs_from result.now ≡ backs_of (change_at version self.now.edits) }
    {
        let first = count_before(&self.made, version.saturating_sub(1));
        let next = count_before(&self.made, version);
        front(rest(&self.backs, first), next.saturating_sub(first))
    }
}

/// Where the first edit of a later version stands.
fn place_behind(made: &[MadeEdit], version: u64) -> Option<usize>
    ensures { result ≡ position (λ one. nat_lt version one.version) made.now }
{
    made.iter().position(|one| version < one.version)
}

/// How many edits stand in front of those behind a version.
fn count_before(made: &[MadeEdit], version: u64) -> usize
    ensures few { result ≤ length made.now }
    ensures behind { (backs : List Back) → length backs ≡ length made.now → behind version (kept_both made.now backs) ≡ drop result (kept_both made.now backs) }
{
    match place_behind(made, version) {
        Some(place) => place,
        None => made.len(),
    }
}

/// The version of the last of the first edits, so many.
fn version_of_last(made: &[MadeEdit], count: usize) -> u64
    requires { (1 ≤ count) × (count ≤ length made.now) }
    ensures { (since : ℕ) (backs : List Back) → length backs ≡ length made.now → result ≡ last_version since (take count (kept_both made.now backs)) }
{
    made[count - 1].version
}

/// The first items go, so many.
fn drop_first<T: Drop>(items: &mut Vec<T>, count: usize)
    requires { count ≤ length items.old.items }
    ensures { items.new.items ≡ drop count items.old.items }
{
    items.drain(..count);
}

/// The items behind the first ones, so many.
fn rest<T>(items: &[T], count: usize) -> &[T]
    requires { count ≤ length items.now }
    ensures { result.now ≡ drop count items.now }
{
    items.split_at(count).1
}

/// The first items, so many.
fn front<T>(items: &[T], count: usize) -> &[T]
    requires { count ≤ length items.now }
    ensures { result.now ≡ take count items.now }
{
    items.split_at(count).0
}

/// How many cards there were before edits that are taken back, the last first.
fn count_back(backs: &[Back], cards: &CardPieces) -> usize
    requires few { length cards.now ≤ 20000 }
    requires applies { first_fault (backs_from backs.now) cards.now ≡ None }
    ensures { result ≡ length (edited_by (backs_from backs.now) cards.now) }
{
    let mut count = cards.len();
    for gone in 0..backs.len() {
        count = count_after(&backs[backs.len() - 1 - gone].edit, count);
    }
    count
}

/// Edits with what takes them back.
fn kept_edits(alloc: Global, made: &[MadeEdit], backs: &[Back]) -> Result<Vec<KeptEdit>, AllocError>
    requires { length backs.now ≡ length made.now }
    ensures { IfOk result (λ edits. edits.items ≡ kept_both made.now backs.now) }
{
    let mut edits = Vec::with_capacity(alloc, made.len())?;
    for (place, one) in made.iter().enumerate() {
        edits.push(kept_edit(one, &backs[place]))?;
    }
    Ok(edits)
}

/// An edit with what takes it back.
fn kept_edit(made: &MadeEdit, back: &Back) -> KeptEdit
    ensures { result ≡ record { version = made.now.version; edit = made.now.edit; back = back.now.edit; by = back.now.by } }
{
    KeptEdit {
        version: made.version,
        edit: made.edit.copied(),
        back: back.edit.copied(),
        by: back.by.copied(),
    }
}

/// The edits that take back, the last first.
fn backs_from(alloc: Global, backs: &[Back]) -> Result<Vec<Edit>, AllocError>
    ensures { IfOk result (λ edits. edits.items ≡ backs_from backs.now) }
{
    let mut edits = Vec::with_capacity(alloc, backs.len())?;
    for count in 0..backs.len() {
        edits.push(backs[backs.len() - 1 - count].edit.copied())?;
    }
    Ok(edits)
}

/// Puts the edits that take back in place of these, the last first.
pub(crate) fn put_backs(backs: &[Back], edits: &mut [Edit])
    requires { length edits.old ≡ length backs.now }
    ensures { edits.new ≡ backs_from backs.now }
{
    for count in 0..backs.len() {
        edits[count] = backs[backs.len() - 1 - count].edit.copied();
    }
}

/// What takes back an edit that applies to these cards.
pub(crate) fn undo_of(edit: &Edit, cards: &CardPieces) -> Edit
    requires { fault_of edit.now cards.now ≡ None }
    ensures { result ≡ undo_of edit.now cards.now }
{
    match edit {
        Edit::Insert { at, .. } => Edit::Remove { at: *at },
        Edit::Replace { at, .. } => Edit::Replace {
            at: *at,
            card: cards.card_at((*at - 1) as usize).copied(),
        },
        Edit::Remove { at } => Edit::Insert {
            at: *at,
            card: cards.card_at((*at - 1) as usize).copied(),
        },
    }
}

/// Edits as those that were made at this version.
pub(crate) fn made_edits(
    alloc: Global,
    version: u64,
    edits: &[Edit],
) -> Result<Vec<MadeEdit>, AllocError>
    ensures { IfOk result (λ made. made.items ≡ made_edits version edits.now) }
{
    let mut made = Vec::with_capacity(alloc, edits.len())?;
    for edit in edits {
        made.push(MadeEdit {
            version,
            edit: edit.copied(),
        })?;
    }
    Ok(made)
}

/// These cards with edits of which each applies to what the ones before it leave; and what takes each of them back.
pub(crate) fn edited_cards(
    alloc: Global,
    cards: &CardPieces,
    edits: &[Edit],
    by: &DeckName,
) -> Result<(CardPieces, Vec<Back>), AllocError>
    requires { first_fault edits.now cards.now ≡ None }
    ensures cards { IfOk result (λ both. both.0 ≡ edited_by edits.now cards.now) }
    ensures backs { IfOk result (λ both. both.1.items ≡ backs_made by.now edits.now cards.now) }
{
    let mut edited = cards.share(alloc)?;
    let mut backs = Vec::with_capacity(alloc, edits.len())?;
    for edit in edits {
        let back = undo_of(edit, &edited);
        backs.push(Back {
            edit: back,
            by: by.copied(),
        })?;
        edited.edit(alloc, edit)?;
    }
    Ok((edited, backs))
}
