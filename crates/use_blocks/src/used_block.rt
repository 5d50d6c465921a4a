//! A block that is used: where its statements have come to, and its LOC in force.
ghost use Rattle.std.specs.Prelude.{◌≡◌, unwrap_or};
ghost use Rattle.std.specs.Bool.{Decides};
ghost use Rattle.definitions.specs.Laws.States.{fresh_block, block_behind, counting_behind};
ghost use Rattle.use_blocks.specs.Joins.EffectsAs.{effect_as, setting_as};

use crate::effects::{Effect, LocationSetting};
use crate::positions::{Counting, Position, is_same_name};
use expr_forms::Name;
use std::marker::Model;

/// A block that is used. Contracts see the definitions' record.
#[derive(Clone, Copy)]
pub struct UsedBlock {
    name: Name,
    position: Position,
    counting: Option<Counting>,
}

impl Model for UsedBlock {
    ghost use Rattle.definitions.specs.Laws.States as states;

    ghost Value = { states.UsedBlock };

    ghost view = { λ b. record { name = b.name; position = b.position; counting = b.counting } };

    ghost inverse = { λ v. record { name = v.name; position = v.position; counting = v.counting } };
}

impl UsedBlock {
    /// A block in which nothing stands yet.
    pub fn fresh(name: Name) -> UsedBlock
        ensures { result ≡ fresh_block name }
    {
        UsedBlock {
            name,
            position: Position::start(),
            counting: None,
        }
    }

    pub fn name(&self) -> Name
        ensures { result ≡ self.now.name }
    {
        self.name
    }

    /// The end of its latest statement, and whether that asks for upper.
    pub fn position(&self) -> Position
        ensures { result ≡ self.now.position }
    {
        self.position
    }

    /// Its LOC in force.
    pub fn counting(&self) -> Option<Counting>
        ensures { result ≡ self.now.counting }
    {
        self.counting
    }

    /// Takes the step of a statement in it.
    #[inline(always)]
    pub(crate) fn step(&mut self, effect: &Effect)
        ensures { self.new ≡ block_behind self.old.name (effect_as effect.now) self.old }
    {
        self.set_position(effect);
        self.set_counting(effect);
    }

    /// Writes the position that is set.
    fn set_position(&mut self, effect: &Effect)
        ensures { self.new ≡ record self.old { position = unwrap_or effect.now.position self.old.position } }
    {
        if let Some(position) = effect.position {
            self.position = position;
        }
    }

    /// Writes the LOC in force behind a setting.
    fn set_counting(&mut self, effect: &Effect)
        ensures { self.new ≡ record self.old { counting = counting_behind (setting_as effect.now.setting) self.old.counting } }
    {
        match effect.setting {
            LocationSetting::Unchanged => (),
            LocationSetting::Counts(counting) => self.counting = Some(counting),
            LocationSetting::Ended => self.counting = None,
        }
    }

    /// Whether both are the same.
    pub(crate) fn is_same(&self, other: &UsedBlock) -> bool
        ensures { Decides result (self.now ≡ other.now) }
    {
        is_same_name(&self.name, &other.name)
            && self.position.is_same(&other.position)
            && is_same_counting(self.counting, other.counting)
    }
}

fn is_same_counting(counting: Option<Counting>, other: Option<Counting>) -> bool
    ensures { Decides result (counting ≡ other) }
{
    match (counting, other) {
        (None, None) => true,
        (None, Some(_)) => false,
        (Some(_), None) => false,
        (Some(counting), Some(other)) => counting.is_same(&other),
    }
}
