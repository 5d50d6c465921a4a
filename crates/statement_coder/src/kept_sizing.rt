//! A sizing in few bytes, so that it can be kept of each statement, in a deck of any kind.
ghost use Rattle.std.specs.Prelude.{◌≡◌, true, IfOk, IsOk};
ghost use Rattle.std.specs.Bool.{Decides};
ghost use Rattle.definitions.specs.Settling.{is_run};
ghost use Rattle.use_blocks.specs.Joins.EffectsAs.{setting_as};
ghost use Rattle.use_blocks.specs.declared.effects.BlockChange.TheVariants as changes;
ghost use Rattle.use_blocks.specs.declared.effects.LocationSetting.TheVariants as settings;
ghost use Rattle.statement_coder.specs.Joins.Sizings.{defines_in, location_in, origin_in};
ghost use Rattle.statement_coder.specs.Joins.KeptSizings.{usual_as, IsUsual};

use crate::definitions_made::{Defines, Definition};
use crate::sizing::Sizing;
use crate::usual_sizing::UsualSizing;
use definitions::{DeckKind, NumberBase};
use expr_forms::{Form, Name};
use operations::Letters;
use std::alloc::{AllocError, Global};
use std::marker::Model;
use use_blocks::{BlockChange, LocationSetting, is_same_form, origin};

fn is_nothing(change: BlockChange) -> bool
    ensures { Decides result (change ≡ changes.Nothing) }
{
    matches!(change, BlockChange::Nothing)
}

fn is_unchanged(setting: LocationSetting) -> bool
    ensures { Decides result (setting ≡ settings.Unchanged) }
{
    matches!(setting, LocationSetting::Unchanged)
}

impl Sizing {
    /// Whether it is a usual one.
    fn is_usual(&self) -> bool
        ensures usual { result ≡ true → usual_as self.now.usual ≡ self.now }
        ensures all { IsUsual self.now → result ≡ true }
    {
        is_nothing(self.change)
            && is_unchanged(self.setting)
            && self.location.is_none()
            && is_same_form(self.value, Form::absolute(i64::from(self.usual.number)))
    }
}

/// A sizing, or what it can be found from.
#[derive(Drop)]
enum Held {
    Usual(UsualSizing),
    Rare(Box<Sizing>),
}

/// A sizing in few bytes. Contracts see the sizing.
#[derive(Drop)]
pub struct KeptSizing {
    held: Held,
}

impl Model for KeptSizing {
    ghost use Rattle.statement_coder.specs.declared.sizing.Sizing as sizings;

    ghost Value = { sizings.Sizing };

    ghost use Rattle.statement_coder.specs.Joins.KeptSizings.{held_as};

    ghost view = { λ k. held_as k.held };
}

impl KeptSizing {
    /// Keeps a usual one.
    #[inline(always)]
    pub(crate) fn of(usual: UsualSizing) -> KeptSizing
        ensures { result ≡ usual_as usual }
    {
        KeptSizing {
            held: Held::Usual(usual),
        }
    }

    /// Keeps a sizing. It takes memory where it is not a usual one alone.
    pub(crate) fn new(alloc: Global, sizing: Sizing) -> Result<KeptSizing, AllocError>
        ensures kept { IfOk result (λ kept. kept ≡ sizing) }
        ensures needs_none { IsUsual sizing → IsOk result }
    {
        if sizing.is_usual() {
            Ok(KeptSizing::of(sizing.usual))
        } else {
            KeptSizing::boxed(alloc, sizing)
        }
    }

    /// Keeps any sizing, in memory of its own.
    #[inline(never)]
    fn boxed(alloc: Global, sizing: Sizing) -> Result<KeptSizing, AllocError>
        ensures { IfOk result (λ kept. kept ≡ sizing) }
    {
        Ok(KeptSizing {
            held: Held::Rare(Box::new(alloc, sizing)?),
        })
    }

    /// What is kept of each sizing.
    pub(crate) fn usual(&self) -> &UsualSizing
        ensures { result.now ≡ self.now.usual }
    {
        match &self.held {
            Held::Usual(usual) => usual,
            Held::Rare(sizing) => &sizing.usual,
        }
    }

    /// The block in use.
    pub fn block(&self) -> &Name
        ensures { result.now ≡ self.now.usual.block }
    {
        &self.usual().block
    }

    /// Whether it has a place of its own.
    pub fn is_placed(&self) -> bool
        ensures { result ≡ self.now.usual.is_placed }
    {
        self.usual().is_placed
    }

    pub fn place(&self) -> u32
        ensures { result ≡ self.now.usual.place }
    {
        self.usual().place
    }

    pub fn end(&self) -> u32
        ensures { result ≡ self.now.usual.end }
    {
        self.usual().end
    }

    /// The letters that are known without later statements.
    pub fn letters(&self) -> Letters
        ensures { result ≡ self.now.usual.letters }
    {
        self.usual().letters.copied()
    }

    /// The number base under which its operand was read.
    pub fn number_base(&self) -> NumberBase
        ensures { result ≡ self.now.usual.number_base }
    {
        self.usual().number_base
    }

    /// What becomes of the stack of blocks.
    pub(crate) fn change(&self) -> BlockChange
        ensures { result ≡ self.now.change }
    {
        match &self.held {
            Held::Usual(usual) => BlockChange::Nothing,
            Held::Rare(sizing) => sizing.change,
        }
    }

    /// What becomes of the location counter of its block.
    pub(crate) fn setting(&self) -> LocationSetting
        ensures { result ≡ self.now.setting }
    {
        match &self.held {
            Held::Usual(usual) => LocationSetting::Unchanged,
            Held::Rare(sizing) => sizing.setting,
        }
    }

    /// Whether an ORG begins a new run here: one that is not faulty begins one.
    pub fn begins_run(&self) -> bool
        ensures { result ≡ is_run (setting_as self.now.setting) }
    {
        matches!(self.setting(), LocationSetting::Ended)
    }

    /// The location counter, `*`, in a deck of this kind.
    pub fn location(&self, kind: DeckKind) -> Form
        ensures { result ≡ location_in kind self.now }
    {
        match &self.held {
            Held::Usual(usual) => self.origin(kind),
            Held::Rare(sizing) => match sizing.location {
                Some(location) => location,
                None => self.origin(kind),
            },
        }
    }

    /// The origin counter, `*O`, in a deck of this kind.
    pub fn origin(&self, kind: DeckKind) -> Form
        ensures { result ≡ origin_in kind self.now }
    {
        origin(kind, self.block(), self.place())
    }

    /// What its statement defines in a deck of this kind.
    pub fn defines(&self, kind: DeckKind) -> Defines
        ensures { result ≡ defines_in kind self.now }
    {
        match self.usual().definition {
            Definition::Nothing => Defines::Nothing,
            Definition::Counter => Defines::Symbol(self.location(kind)),
            Definition::Number => Defines::Symbol(self.value()),
            Definition::Externals => Defines::Externals,
        }
    }

    fn value(&self) -> Form
        ensures { result ≡ self.now.value }
    {
        match &self.held {
            Held::Usual(usual) => Form::absolute(i64::from(usual.number)),
            Held::Rare(sizing) => sizing.value,
        }
    }
}
