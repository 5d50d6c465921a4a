//! The variable field of ENTRY and EXT: names that decks share (COMPASS 60492600, ENTRY, EXT).
ghost use Rattle.std.specs.Prelude.{◌≡◌, ◌≤◌, ◌∷◌, [], length, map, option_copied, IfSome, IfNone};
ghost use Rattle.definitions.specs.Pieces.{Inside, Plain, pieces_at, pieces_of, subfields_of};
ghost use Rattle.definitions.specs.Operands.{linked_name};

use crate::pieces::{Piece, piece_at_start};
use crate::subfields::Subfields;
use crate::use_fields::is_linked_name;
use std::marker::Model;

/// The name that a subfield is, if it is a lawful one.
fn linked_name(text: &[u8]) -> Option<&[u8]>
    ensures name { option_copied result ≡ linked_name (pieces_of text.now) }
    ensures short { IfSome result (λ name. length name.now ≤ 7) }
{
    let found = piece_at_start(text)?;
    match found.piece {
        Piece::Run(run) => lone_name(run, found.rest),
        _ => None,
    }
}

/// The name that a run of characters is, where nothing is behind it.
fn lone_name<'a>(run: &'a [u8], behind: &'a [u8]) -> Option<&'a [u8]>
    ensures name { option_copied result ≡ linked_name (Plain run.now ∷ pieces_at Inside 0 behind.now) }
    ensures short { IfSome result (λ name. length name.now ≤ 7) }
{
    match behind.split_first() {
        Some(_) => None,
        None => { if is_linked_name(run) { Some(run) } else { None } }
    }
}

/// The names of an ENTRY or EXT, from left to right, each none where the subfield is no lawful name.
/// Contracts see the list of those that are left.
#[derive(Drop)]
pub struct LinkedNames<'a> {
    subfields: Subfields<'a>,
}

impl<'a> Model for LinkedNames<'a> {
    ghost use Rattle.std.specs.Prelude.{ℕ, List, Option, map};
    ghost use Rattle.definitions.specs.Operands.{linked_name};

    ghost Value = { List (Option (List ℕ)) };

    ghost view = { λ n. map linked_name n.subfields };
}

impl<'a> LinkedNames<'a> {
    /// The names of a field of at most 711 characters.
    pub fn new(text: &'a [u8]) -> LinkedNames<'a>
        requires { length text.now ≤ 711 }
        ensures { result ≡ map linked_name (subfields_of (pieces_of text.now)) }
    {
        LinkedNames {
            subfields: Subfields::new(text),
        }
    }

    /// The next name, at most 7 characters, or none for a subfield that is no lawful name; nothing
    /// where no subfield is left.
    pub fn next(&mut self) -> Option<Option<&'a [u8]>>
        ensures none { IfNone result ((self.old ≡ []) × (self.new ≡ [])) }
        ensures some { IfSome result (λ name. self.old ≡ option_copied name ∷ self.new) }
        ensures short { IfSome result (λ name. IfSome name (λ text. length text.now ≤ 7)) }
    {
        Some(linked_name(self.subfields.next()?))
    }

    /// The same names, to go over them once more.
    pub fn copied(&self) -> LinkedNames<'a>
        ensures { result ≡ self.now }
    {
        LinkedNames {
            subfields: self.subfields.copied(),
        }
    }
}
